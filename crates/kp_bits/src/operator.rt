// The binary operators of the languages: one table, and one arithmetic.
use crate::bits::{Bits, ones};

/// A binary operator: `& | ^ + - * == < << >>`, in this order.
#[derive(Clone, Copy, PartialEq, Eq, Hash)]
pub enum BinOp {
    And,
    Or,
    Xor,
    Add,
    Sub,
    Mul,
    Eq,
    Lt,
    Shl,
    Shr,
}

impl BinOp {
    ghost use Rattle.std.specs.Prelude.{◌≡◌, ◌-◌, ◌^◌, ◌≤◌, false};
    ghost use Rattle.kp_bits.specs.Operators.{symbol as symbol_of, is_shift, is_comparison, result_width, commutes, masking_zero, on_words, binary_of};

    /// All operators.
    pub const ALL: [BinOp; 10] = [
        BinOp::And,
        BinOp::Or,
        BinOp::Xor,
        BinOp::Add,
        BinOp::Sub,
        BinOp::Mul,
        BinOp::Eq,
        BinOp::Lt,
        BinOp::Shl,
        BinOp::Shr,
    ];

    /// How it is written.
    pub fn symbol(self) -> &'static str
        ensures { result.now ≡ symbol_of self }
    {
        match self {
            BinOp::And => "&",
            BinOp::Or => "|",
            BinOp::Xor => "^",
            BinOp::Add => "+",
            BinOp::Sub => "-",
            BinOp::Mul => "*",
            BinOp::Eq => "==",
            BinOp::Lt => "<",
            BinOp::Shl => "<<",
            BinOp::Shr => ">>",
        }
    }

    /// Whether the right operand may have any width.
    pub fn is_shift(self) -> bool
        ensures { result ≡ is_shift self }
    {
        matches!(self, BinOp::Shl | BinOp::Shr)
    }

    /// Whether the result has one bit.
    pub fn is_comparison(self) -> bool
        ensures { result ≡ is_comparison self }
    {
        matches!(self, BinOp::Eq | BinOp::Lt)
    }

    /// The width of the result, where the left operand has this width.
    pub fn result_width(self, width: u8) -> u8
        ensures { result ≡ result_width self width }
    {
        if self.is_comparison() { 1 } else { width }
    }

    /// Whether the operands may change places.
    pub fn commutes(self) -> bool
        ensures { result ≡ commutes self }
    {
        !matches!(self, BinOp::Sub | BinOp::Lt | BinOp::Shl | BinOp::Shr)
    }

    /// The operand of `&` and `|` that is always the result, in this width. Its complement yields the other operand.
    pub fn masking_zero(self, width: u8) -> Option<u64>
        requires positive { 1 ≤ width }
        requires at_most { width ≤ 64 }
        ensures { result ≡ masking_zero self width }
    {
        match self {
            BinOp::And => Some(0),
            BinOp::Or => Some(ones(width)),
            _ => None,
        }
    }

    /// The result as a number of 64 bits: the operands have this width, and the mask has its bits. Inlined with a constant
    /// operator, it is one expression.
    #[inline(always)]
    pub fn on_words(self, a: u64, b: u64, width: u64, mask: u64) -> u64
        ensures { result ≡ on_words self a b width mask }
    {
        match self {
            BinOp::And => a & b,
            BinOp::Or => a | b,
            BinOp::Xor => a ^ b,
            BinOp::Add => a.wrapping_add(b) & mask,
            BinOp::Sub => a.wrapping_sub(b) & mask,
            BinOp::Mul => a.wrapping_mul(b) & mask,
            BinOp::Eq => u64::from(a == b),
            BinOp::Lt => u64::from(a < b),
            BinOp::Shl => if b < width { (a << (b & 63)) & mask } else { 0 },
            BinOp::Shr => if b < width { a >> (b & 63) } else { 0 },
        }
    }

    /// The value of the operator at these operands.
    #[tactic(auto, using(crate::proofs::Operators::applied, crate::proofs::Operators::applied_word))]
    pub fn apply(self, a: Bits, b: Bits) -> Bits
        requires { is_shift self ≡ false → a.width ≡ b.width }
        ensures { result ≡ binary_of self a b }
    {
        let width = a.width();
        let value = self.on_words(a.value(), b.value(), u64::from(width), ones(width));
        Bits::of(self.result_width(width), value)
    }
}
