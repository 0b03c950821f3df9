//! The operations of expressions, partial: a value if the operands have the specified widths, else None.
ghost use Rattle.std.specs.Prelude.{◌≡◌};
ghost use Rattle.kp_bits.specs.Checked.{checked_joined, checked_literal, checked_binary, checked_mux, checked_slice, checked_zext, checked_sext};

use crate::bits::Bits;
use crate::literal::Literal;
use crate::operator::BinOp;

/// The value of a literal.
pub fn literal(literal: Literal) -> Option<Bits>
    ensures { result ≡ checked_literal literal }
{
    literal.fit().ok()
}

/// The value of a binary operator. The operands have the same width, except for shifts.
pub fn binary(op: BinOp, a: Bits, b: Bits) -> Option<Bits>
    ensures { result ≡ checked_binary op a b }
{
    if op.is_shift() || a.width() == b.width() {
        Some(op.apply(a, b))
    } else {
        None
    }
}

/// `test ? a : b`, where the test has one bit, and a and b have one width.
pub fn choice(test: Bits, a: Bits, b: Bits) -> Option<Bits>
    ensures { result ≡ checked_mux test a b }
{
    if test.width() == 1 && a.width() == b.width() {
        Some(test.mux(a, b))
    } else {
        None
    }
}

/// The concatenation of the parts, the first in the high bits: one part or more, of at most 64 bits in total.
pub fn joined(parts: &[Bits]) -> Option<Bits>
    ensures { result ≡ checked_joined parts.now }
{
    let (first, rest) = parts.split_first()?;
    let mut all = *first;
    for part in rest {
        if all.width() + part.width() > 64 {
            return None;
        }
        all = all.concat(*part);
    }
    Some(all)
}

/// `a[hi:lo]`, if a has these bits.
pub fn slice(a: Bits, hi: u64, lo: u64) -> Option<Bits>
    ensures { result ≡ checked_slice hi lo a }
{
    if lo <= hi && hi < u64::from(a.width()) {
        Some(a.slice(hi as u8, lo as u8))
    } else {
        None
    }
}

/// `zext(a, width)`, if the width is at least that of a, and at most 64.
pub fn zero_extended(a: Bits, width: u64) -> Option<Bits>
    ensures { result ≡ checked_zext width a }
{
    if u64::from(a.width()) <= width && width <= 64 {
        Some(a.zext(width as u8))
    } else {
        None
    }
}

/// `sext(a, width)`, if the width is at least that of a, and at most 64.
pub fn sign_extended(a: Bits, width: u64) -> Option<Bits>
    ensures { result ≡ checked_sext width a }
{
    if u64::from(a.width()) <= width && width <= 64 {
        Some(a.sext(width as u8))
    } else {
        None
    }
}
