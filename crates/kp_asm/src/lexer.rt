// The tokens of a text.
ghost use Rattle.std.specs.Prelude.{◌≡◌, ◌≤◌, ◌-◌, ◌^◌, length};
ghost use Rattle.kp_asm.specs.{Faults.Reads, Tokens.tokens_of};

use crate::fault::{Misread, broken};
use crate::front::{Front, read_front};
use crate::token::{Token, TokenKind};
use std::alloc::Global;

/// The tokens of a text, the last of which ends its last line. Errors: A1 at the first byte where no token starts or a name of more than 64 bytes
/// does, and out of memory.
pub fn tokens_of(alloc: Global, text: &[u8]) -> Result<Vec<Token>, Misread>
    requires { length text.now ≤ 2 ^ 32 - 2 }
    ensures { Reads result (tokens_of text.now) (λ tokens. tokens.items) }
{
    let mut tokens = Vec::new(alloc);
    let mut start: u32 = 0;
    let mut rest = text;
    while let [first, after @ ..] = rest {
        match read_front(*first, after) {
            Front::Broken(fault) => return Err(Misread::Found(broken(text, fault, start))),
            Front::Gap(more) => {
                let (_gap, left) = after.split_at(more);
                start += more as u32 + 1;
                rest = left;
            }
            Front::Token(kind, more) => {
                let (_token, left) = after.split_at(more);
                let len = more as u32 + 1;
                tokens.push(Token { start, len, kind })?;
                start += len;
                rest = left;
            }
        }
    }
    tokens.push(Token {
        start,
        len: 0,
        kind: TokenKind::LineEnd,
    })?;
    Ok(tokens)
}
