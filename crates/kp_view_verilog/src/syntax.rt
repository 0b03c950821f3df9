// Why no token begins at a place, or no module continues with one: V1 and V2.
ghost use Rattle.std.specs.Prelude.{◌≤◌, length};

use kp_view_help::{FoundToken, Word};
use kp_view_verilog_faults::ReadingFault;
use kp_vlog::{Front, TokenFault, VKind, VToken, read_front};

/// Why no token begins at the head of a text: what the lexer finds there.
pub(crate) fn no_token(rest: &[u8]) -> ReadingFault<'_> {
    match read_front(rest) {
        Front::Broken(fault) => match fault {
            TokenFault::OpenComment => ReadingFault::OpenComment,
            TokenFault::LongName { length } => ReadingFault::LongName(length),
            TokenFault::NoNumber => ReadingFault::NoNumber,
            TokenFault::NoToken { byte } => ReadingFault::NoToken(byte),
        },
        // Not reached, since the lexer stops there.
        _ => ReadingFault::Unknown,
    }
}

/// The number of the first token from an offset on, or of all tokens.
pub(crate) fn index_of(tokens: &[VToken], at: usize) -> usize
    ensures { result ≤ length tokens.now }
{
    for (i, token) in tokens.iter().enumerate() {
        if token.start as usize >= at {
            return i;
        }
    }
    tokens.len()
}

/// The token of this number, or the end of the text.
pub(crate) fn found<'t>(text: &'t [u8], tokens: &[VToken], number: usize) -> FoundToken<'t> {
    let Some(token) = tokens.get(number) else {
        return FoundToken::End;
    };
    let rest = text.get(token.start as usize..).unwrap_or(&[]);
    let word = Word(rest.get(..token.len as usize).unwrap_or(&[]));
    match token.kind {
        VKind::Ident => FoundToken::Name(word),
        VKind::Keyword(_) => FoundToken::Keyword(word),
        VKind::Number(_) => FoundToken::Number(word),
        VKind::Literal(_) => FoundToken::Literal(word),
        VKind::Mark(_) => FoundToken::Mark(word),
    }
}
