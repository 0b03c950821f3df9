// The tree at the head of a text, or why it isn't read: no token begins, or no description goes on with one.
ghost use Rattle.std.specs.Prelude.{◌≡◌, ◌≤◌, drop, length, slice_get, take, Err, IfOk, Ok};
ghost use Rattle.std.specs.List.{position};
ghost use Rattle.kp_lex.specs.Text.{HasOutcome};
ghost use Rattle.kp_parse.specs.Sentence.{Breaks};
ghost use Rattle.kp_frontend.specs.Judging.{most_bytes};
ghost use Rattle.kp_view_explain.specs.Listing.{index_at, is_at, kind_text, token_text};
ghost use Rattle.kp_view_help.specs.Texts.{found_text, shown};
ghost use Rattle.kp_view_explain.specs.inner.Naming.{NamesAt, NamesNext};
ghost use Rattle.kp_view_explain.specs.inner.Reading.{IsReadAs};

use crate::explanation::Explanation;
use crate::of_job::explain_rule;
use kp_base::{NoMemory, Place, Refusal, Refused};
use kp_lex::{Front, Lexed, Mark, Token, TokenFault, TokenKind, lex, read_front};
use kp_parse::{Parsed, parse};
use kp_view_excerpt::offset_of;
use kp_view_expected::expected;
use kp_view_help::{Before, FoundToken, Word};
use kp_view_message::{Message, ReadingFault};
use std::alloc::Global;

/// What is read of a text: the tree at its head, or the explanation of the rule of tokens or of the grammar that it violates first.
#[derive(Drop)]
pub(crate) enum Reading {
    Tree(Parsed),
    Refused(Explanation),
}

/// Reads the head of a text that is not too long. The only error is out of memory.
pub(crate) fn read(alloc: Global, file: &[u8], text: &[u8]) -> Result<Reading, NoMemory>
    requires { length text.now ≤ most_bytes }
    ensures { IfOk result (λ r. IsReadAs file.now text.now r) }
{
    match lex(alloc, text) {
        Ok(lexed) => {
            let reading = read_tokens(alloc, file, text, &lexed)?;
            drop(lexed);
            Ok(reading)
        }
        Err(Refused::NoMemory) => Err(NoMemory),
        Err(Refused::Rule(refusal)) => {
            let message = no_tokens(text, refusal);
            let said = explain_rule(alloc, file, text, refusal, message, &[])?;
            Ok(Reading::Refused(said))
        }
    }
}

// The same for the tokens of a text.
fn read_tokens(alloc: Global, file: &[u8], text: &[u8], lexed: &Lexed) -> Result<Reading, NoMemory>
    requires short { length text.now ≤ most_bytes }
    requires tokens { HasOutcome text.now (Ok lexed.now) }
    ensures { IfOk result (λ r. IsReadAs file.now text.now r) }
{
    match parse(alloc, lexed, text) {
        Ok(parsed) => Ok(Reading::Tree(parsed)),
        Err(Refused::NoMemory) => Err(NoMemory),
        Err(Refused::Rule(refusal)) => {
            let message = no_sentence(alloc, text, lexed.tokens.as_slice(), refusal)?;
            let said = explain_rule(alloc, file, text, refusal, message, &[])?;
            Ok(Reading::Refused(said))
        }
    }
}

// The message where the text has no tokens (E1 and E2): what the lexer finds at the place.
fn no_tokens(text: &[u8], refusal: Refusal) -> Message<'_> {
    match read_front(&text[offset_of(text, refusal.place)..]) {
        Front::Broken(fault) => Message::Reading(match fault {
            TokenFault::NoToken { byte } => ReadingFault::NoToken(byte),
            TokenFault::LongName { length } => ReadingFault::LongName(length),
            TokenFault::NoNumber => ReadingFault::NoNumber,
        }),
        // Not reached, since the lexer stops there.
        _ => Message::Fixed(refusal.number),
    }
}

// The message where the tokens are no sentence (E4 and E27).
#[tactic(auto, using(crate::proofs::Next::another_rule))]
fn no_sentence<'t>(
    alloc: Global,
    text: &'t [u8],
    tokens: &[Token],
    refusal: Refusal,
) -> Result<Message<'t>, NoMemory>
    ensures { IfOk result (λ m. NamesAt text.now tokens.now refusal m) }
{
    match refusal.number {
        4 => wrong_token(alloc, text, tokens, refusal.place),
        27 => Ok(Message::Reading(ReadingFault::TooDeep)),
        number => Ok(Message::Fixed(number)),
    }
}

// The token at a place, and which tokens can be there.
fn wrong_token<'t>(
    alloc: Global,
    text: &'t [u8],
    tokens: &[Token],
    place: Place,
) -> Result<Message<'t>, NoMemory>
    ensures { IfOk result (λ m. NamesNext text.now tokens.now place m) }
{
    let at = index_of(tokens, place);
    let found = token_at(text, tokens, at);
    let (front, _) = tokens.split_at(at);
    let expected = expected(alloc, front)?;
    let before = end_of(front);
    Ok(Message::Reading(ReadingFault::Unexpected {
        found,
        expected,
        before,
    }))
}

// The number of the first token at a place, or the number of tokens.
fn index_of(tokens: &[Token], place: Place) -> usize
    ensures index { result ≡ index_at place tokens.now }
    ensures within { result ≤ length tokens.now }
{
    match first_at(tokens, place) {
        Some(number) => number,
        None => tokens.len(),
    }
}

fn first_at(tokens: &[Token], place: Place) -> Option<usize>
    ensures { result ≡ position (is_at place) tokens.now }
{
    tokens.iter().position(|token| token.place.line == place.line && token.place.col == place.col)
}

// The token of this number, or the end of the text.
fn token_at<'t>(text: &'t [u8], tokens: &[Token], at: usize) -> FoundToken<'t>
    ensures { found_text result ≡ token_text text.now (slice_get tokens.now at) }
{
    match tokens.get(at) {
        Some(token) => found(token.kind, Word(bytes_of(text, *token))),
        None => FoundToken::End,
    }
}

// A token of this class, with its bytes.
fn found<'t>(kind: TokenKind, word: Word<'t>) -> FoundToken<'t>
    ensures { found_text result ≡ kind_text kind (shown word.entry.0.now) }
{
    match kind {
        TokenKind::Ident => FoundToken::Name(word),
        TokenKind::Keyword(_) => FoundToken::Keyword(word),
        TokenKind::Number(_) => FoundToken::Number(word),
        TokenKind::Literal(_) => FoundToken::Literal(word),
        TokenKind::Mark(_) => FoundToken::Mark(word),
    }
}

// How these tokens end: as those of `reg X : 8 =`, as those of `a[`, with `&` or `|`, or otherwise.
fn end_of(tokens: &[Token]) -> Before {
    let [.., before, last] = tokens else {
        return Before::Other;
    };
    match (before.kind, last.kind) {
        (TokenKind::Number(bits), TokenKind::Mark(Mark::Equals)) if 1 <= bits && bits <= 64 => {
            Before::Width(bits)
        }
        (TokenKind::Ident | TokenKind::Mark(_), TokenKind::Mark(Mark::OpenBracket)) => {
            Before::Sliced
        }
        (_, TokenKind::Mark(Mark::Ampersand)) => Before::And,
        (_, TokenKind::Mark(Mark::Bar)) => Before::Or,
        _ => Before::Other,
    }
}

// The bytes of a token.
#[tactic(auto, using(std::proofs::lemmas::List::drop_min, std::proofs::lemmas::List::take_min))]
fn bytes_of<'t>(text: &'t [u8], token: Token) -> &'t [u8]
    ensures { result.now ≡ take token.len (drop token.start text.now) }
{
    let (_, rest) = text.split_at((token.start as usize).min(text.len()));
    let (word, _) = rest.split_at((token.len as usize).min(rest.len()));
    word
}
