// The lexer: the tokens of a text, and the position of further text after them.
ghost use Rattle.std.specs.Prelude.{◌≡◌, ◌≤◌, ◌-◌, ◌^◌, length};
ghost use Rattle.kp_lex.specs.Text.{AnswersOutcome, is_end, tail_of};

use crate::front::{Front, gap_length, read_front};
use crate::{Keyword, Lexed, Token, TokenKind};
use kp_base::{List, Place, Refusal, Refused, place_of};
use std::alloc::Global;

/// The tokens of a text, up to and including the first `end`, or up to the end of the text.
///
/// Errors: E1 if no token starts or an identifier has more than 64 bytes, and E2 if a run that starts with a digit is
/// neither a number of 64 bits nor a literal, each at its first byte; or out of memory.
pub fn lex(alloc: Global, text: &[u8]) -> Result<Lexed, Refused>
    requires { length text.now ≤ 2 ^ 32 - 2 }
    ensures { AnswersOutcome text.now result }
{
    let mut tokens = Vec::new(alloc);
    let mut start: u32 = 0;
    let mut place = Place::START;
    let mut rest = text;
    loop {
        match read_front(rest) {
            Front::End => {
                return Ok(Lexed {
                    tokens: List::new(tokens),
                    rest: start,
                });
            }
            Front::Broken(fault) => return Err(Refused::Rule(Refusal::e(fault.rule(), place))),
            Front::Gap(len) => {
                let (gap, after) = rest.split_at(len);
                place = place.after(gap);
                start += len as u32;
                rest = after;
            }
            Front::Token(kind, len) => {
                let (word, after) = rest.split_at(len);
                tokens.push(Token {
                    start,
                    len: len as u32,
                    kind,
                    place,
                })?;
                start += len as u32;
                if is_end(kind) {
                    return Ok(Lexed {
                        tokens: List::new(tokens),
                        rest: start,
                    });
                }
                place = place.after(word);
                rest = after;
            }
        }
    }
}

fn is_end(kind: TokenKind) -> bool
    ensures { result ≡ is_end kind }
{
    matches!(kind, TokenKind::Keyword(Keyword::End))
}

/// The position of the first byte from the offset on that is neither layout nor in a comment. `None` if there is no
/// such byte, including offsets beyond the end of the text.
pub fn tail(text: &[u8], from: u32) -> Option<Place>
    requires { length text.now ≤ 2 ^ 32 - 2 }
    ensures { result ≡ tail_of text.now from }
{
    let rest = text.get(from as usize..)?;
    let at = from + gap_length(rest) as u32;
    if (at as usize) < text.len() {
        Some(place_of(text, at))
    } else {
        None
    }
}
