// Values of 1 to 64 bits and the operations on them.
ghost use Rattle.std.specs.Prelude.{◌≡◌, ◌+◌, ◌-◌, ◌^◌, ◌<◌, ◌≤◌, ◌%◌};
ghost use Rattle.std.specs.Option.{SomeIff};
ghost use Rattle.kp_bits.specs.Word.{IsWord, word, not_of, mux_of, concat_of, slice_of, zext_of, sext_of};

use std::marker::Model;

/// An unsigned value of 1 to 64 bits.
///
/// The operations are those of unsigned vectors in Verilog (IEEE 1364-2005, clause 5). Contracts see a `Bits` as a
/// record of its width and its value.
#[derive(Clone, Copy, PartialEq, Eq)]
pub struct Bits {
    width: u8,
    value: u64,
}

impl Model for Bits {
    ghost use Rattle.kp_bits.specs.Word.{Word, IsWord};

    ghost Value = { Word };

    ghost view = { λ b. record { width = b.width; value = b.value } };

    ghost invariant = { λ b. IsWord (record { width = b.width; value = b.value }) };

    ghost inverse = { λ w. record { width = w.width; value = w.value } };
}

impl Bits {
    /// None if the width is not in 1 to 64, or the value does not fit in `width` bits.
    pub fn new(width: u8, value: u64) -> Option<Bits>
        ensures { SomeIff result (IsWord (word width value)) (word width value) }
    {
        if width == 0 || width > 64 || value > ones(width) {
            return None;
        }
        Some(Bits { width, value })
    }

    /// The word of this width and this value.
    pub fn of(width: u8, value: u64) -> Bits
        requires { IsWord (word width value) }
        ensures { result ≡ word width value }
    {
        Bits { width, value }
    }

    /// The number of bits.
    pub fn width(self) -> u8
        ensures value { result ≡ self.width }
        ensures positive { 1 ≤ result }
        ensures at_most { result ≤ 64 }
    {
        self.width
    }

    /// The bits as a number.
    pub fn value(self) -> u64
        ensures value { result ≡ self.value }
        ensures fits { result < 2 ^ self.width }
    {
        self.value
    }

    /// `~a`.
    pub fn not(self) -> Bits
        ensures { result ≡ not_of self }
    {
        Bits {
            width: self.width,
            value: ones(self.width) - self.value,
        }
    }

    /// `test ? yes : no`, where `self` is the test.
    pub fn mux(self, yes: Bits, no: Bits) -> Bits
        requires test { self.width ≡ 1 }
        requires same { yes.width ≡ no.width }
        ensures { result ≡ mux_of self yes no }
    {
        if self.value == 1 { yes } else { no }
    }

    /// `{high, low}`, where `self` has the high bits.
    #[tactic(auto, using(crate::proofs::Powers::concat_value, crate::proofs::Powers::concat_fits))]
    pub fn concat(self, low: Bits) -> Bits
        requires { self.width + low.width ≤ 64 }
        ensures { result ≡ concat_of self low }
    {
        Bits {
            width: self.width + low.width,
            value: (self.value << low.width) | low.value,
        }
    }

    /// `a[hi:lo]`, where bit 0 is the lowest.
    pub fn slice(self, hi: u8, lo: u8) -> Bits
        requires order { lo ≤ hi }
        requires within { hi < self.width }
        ensures { result ≡ slice_of self hi lo }
    {
        let width = hi - lo + 1;
        Bits {
            width,
            value: low_bits(self.value >> lo, width),
        }
    }

    /// The same number in `width` bits: zeros come in.
    #[tactic(auto, using(crate::proofs::Powers::pow_le))]
    pub fn zext(self, width: u8) -> Bits
        requires wider { self.width ≤ width }
        requires at_most { width ≤ 64 }
        ensures { result ≡ zext_of self width }
    {
        Bits {
            width,
            value: self.value,
        }
    }

    /// The same number of two's complement in `width` bits: copies of the highest bit come in.
    #[tactic(auto, using(crate::proofs::Powers::half_of, crate::proofs::Powers::pow_le))]
    pub fn sext(self, width: u8) -> Bits
        requires wider { self.width ≤ width }
        requires at_most { width ≤ 64 }
        ensures { result ≡ sext_of self width }
    {
        let value = if self.value > ones(self.width) / 2 {
            self.value + (ones(width) - ones(self.width))
        } else {
            self.value
        };
        Bits { width, value }
    }
}

/// The number with all bits of this width, which is the greatest one.
#[inline]
#[tactic(auto, using(crate::proofs::Powers::mask_of))]
pub fn ones(width: u8) -> u64
    requires positive { 1 ≤ width }
    requires at_most { width ≤ 64 }
    ensures { result ≡ 2 ^ width - 1 }
{
    u64::MAX >> (64 - width)
}

/// The lowest bits of a number.
#[inline]
#[tactic(auto, using(std::proofs::lemmas::Nat::and_mask, std::proofs::lemmas::Nat::pow_pos))]
pub fn low_bits(n: u64, width: u8) -> u64
    requires positive { 1 ≤ width }
    requires at_most { width ≤ 64 }
    ensures value { result ≡ n % 2 ^ width }
    ensures fits { result < 2 ^ width }
{
    n & ones(width)
}
