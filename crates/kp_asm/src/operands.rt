// The rules of operands: A3, A4 and A5.
ghost use Rattle.std.specs.Prelude.{◌≡◌, ◌≤◌, ◌-◌, ◌^◌, length};
ghost use Rattle.kp_asm.specs.Mnemonics.{fits, has_register, has_range, breaks, operand_fault, first_breaking, broken_operand};

use crate::fault::{ProgramFault, broken};
use crate::mnemonic::{Mnemonic, Piece};
use crate::number::{in_range, is_low, is_register};
use crate::token::{Token, TokenKind, bytes_of};
use kp_base::Finding;

/// A rule of operands.
#[derive(Clone, Copy)]
pub enum Rule {
    /// A3: a token is the next one of the form.
    Form,
    /// A4: a register's number is at most 31.
    Register,
    /// A5: a number is in its range.
    Range,
}

/// The first rule that the tokens after a mnemonic violate, at the first token that does; `None` if they violate none.
pub fn broken_operand(
    text: &[u8],
    mnemonic: Mnemonic,
    tokens: &[Token],
) -> Option<Finding<ProgramFault>>
    requires { length text.now ≤ 2 ^ 32 - 2 }
    ensures { result ≡ broken_operand text.now mnemonic tokens.now }
{
    let form = mnemonic.form();
    if let Some(finding) = first_breaking(text, mnemonic, Rule::Form, form, tokens) {
        return Some(finding);
    }
    if let Some(finding) = first_breaking(text, mnemonic, Rule::Register, form, tokens) {
        return Some(finding);
    }
    first_breaking(text, mnemonic, Rule::Range, form, tokens)
}

// The first token that violates the rule.
fn first_breaking(
    text: &[u8],
    mnemonic: Mnemonic,
    rule: Rule,
    form: &[Piece],
    tokens: &[Token],
) -> Option<Finding<ProgramFault>>
    requires { length text.now ≤ 2 ^ 32 - 2 }
    ensures { result ≡ first_breaking text.now mnemonic rule form.now tokens.now }
{
    let mut rest = tokens;
    for piece in form {
        let [token, after @ ..] = rest else {
            return None;
        };
        if breaks(rule, *piece, token.kind, bytes_of(text, *token)) {
            let fault = operand_fault(rule, mnemonic, *piece);
            return Some(broken(text, fault, token.start));
        }
        rest = after;
    }
    None
}

// How an operand violates a rule where the form of the mnemonic requires this piece.
fn operand_fault(rule: Rule, mnemonic: Mnemonic, wanted: Piece) -> ProgramFault
    ensures { result ≡ operand_fault rule mnemonic wanted }
{
    match rule {
        Rule::Form => ProgramFault::WrongOperand { mnemonic, wanted },
        Rule::Register => ProgramFault::NoRegister,
        Rule::Range => ProgramFault::OutOfRange { mnemonic, wanted },
    }
}

fn breaks(rule: Rule, piece: Piece, kind: TokenKind, bytes: &[u8]) -> bool
    ensures { result ≡ breaks rule piece kind bytes.now }
{
    match rule {
        Rule::Form => !fits(piece, kind, bytes),
        Rule::Register => !has_register(piece, bytes),
        Rule::Range => !has_range(piece, bytes),
    }
}

fn fits(piece: Piece, kind: TokenKind, bytes: &[u8]) -> bool
    ensures { result ≡ fits piece kind bytes.now }
{
    match (piece, kind) {
        (Piece::Register, TokenKind::Name) => is_register(bytes),
        (Piece::Label, TokenKind::Name)
        | (Piece::Signed | Piece::Unsigned | Piece::Any, TokenKind::Number)
        | (Piece::Comma, TokenKind::Comma)
        | (Piece::Open, TokenKind::Open)
        | (Piece::Close, TokenKind::Close)
        | (Piece::End, TokenKind::LineEnd) => true,
        _ => false,
    }
}

fn has_register(piece: Piece, bytes: &[u8]) -> bool
    ensures { result ≡ has_register piece bytes.now }
{
    match piece {
        Piece::Register => is_low(bytes),
        _ => true,
    }
}

fn has_range(piece: Piece, bytes: &[u8]) -> bool
    ensures { result ≡ has_range piece bytes.now }
{
    match piece {
        Piece::Signed => in_range(32_768, 32_767, bytes),
        Piece::Unsigned => in_range(0, 65_535, bytes),
        Piece::Any => in_range(2_147_483_648, 4_294_967_295, bytes),
        _ => true,
    }
}
