//! Laws that validate the definitions of this crate.
//!
//! Each function does nothing: its contract is the law, for all words and for all byte strings.

ghost use Rattle.std.specs.Prelude.{◌≡◌, ◌↔◌, ◌⊎◌, ℕ, ◌+◌, ◌-◌, ◌%◌, ◌^◌, ◌<◌, ◌≤◌, min, max, false, true, List, Ok, Err, Some, IfOk, codes};
ghost use Rattle.std.specs.Int.{bit_at};
ghost use Rattle.kp_bits.specs.declared.literal.Literal.{Literal};
ghost use Rattle.kp_bits.specs.declared.literal.LiteralFault.{LiteralFault};
ghost use Rattle.kp_bits.specs.Word.{Word, word, IsWord, signed_of, not_of, and_of, or_of, xor_of, add_of, sub_of, mul_of, eq_of, lt_of, shl_of, shr_of, mux_of, concat_of, slice_of, zext_of, sext_of};
ghost use Rattle.kp_bits.specs.declared.operator.BinOp.{BinOp};
ghost use Rattle.kp_bits.specs.Operators.{is_shift, result_width, commutes, masking_zero, on_words, binary_of};
ghost use Rattle.kp_bits.specs.Literals.{IsLiteral, numeral_value, number_of, literal_within, literal_of, fit_of};
ghost use Rattle.kp_bits.specs.Spelling.{decimal_digits, spelling};

/// At operand widths that fit, each operation returns a word of 1 to 64 bits.
#[tactic(auto, using(crate::proofs::Words::operations))]
pub fn operations_give_words()
    ensures not { (a : Word) → IsWord a → IsWord (not_of a) }
    ensures and { (a b : Word) → IsWord a → IsWord (and_of a b) }
    ensures or { (a b : Word) → IsWord a → IsWord b → a.width ≡ b.width → IsWord (or_of a b) }
    ensures xor { (a b : Word) → IsWord a → IsWord b → a.width ≡ b.width → IsWord (xor_of a b) }
    ensures add { (a b : Word) → IsWord a → IsWord (add_of a b) }
    ensures sub { (a b : Word) → IsWord a → IsWord (sub_of a b) }
    ensures mul { (a b : Word) → IsWord a → IsWord (mul_of a b) }
    ensures eq { (a b : Word) → IsWord (eq_of a b) }
    ensures lt { (a b : Word) → IsWord (lt_of a b) }
    ensures shl { (a b : Word) → IsWord a → IsWord (shl_of a b) }
    ensures shr { (a b : Word) → IsWord a → IsWord (shr_of a b) }
    ensures mux { (test a b : Word) → IsWord a → IsWord b → IsWord (mux_of test a b) }
    ensures concat { (high low : Word) → IsWord high → IsWord low → high.width + low.width ≤ 64
        → IsWord (concat_of high low) }
    ensures slice { (a : Word) (hi lo : ℕ) → IsWord a → lo ≤ hi → hi < a.width → IsWord (slice_of a hi lo) }
    ensures zext { (a : Word) (width : ℕ) → IsWord a → a.width ≤ width → width ≤ 64 → IsWord (zext_of a width) }
    ensures sext { (a : Word) (width : ℕ) → IsWord a → a.width ≤ width → width ≤ 64 → IsWord (sext_of a width) }
{}

/// What the table of operators says of their results: they are words, of `result_width`; operands change places where
/// `commutes` says so; the zero of `&` and `|` is the result, and its complement makes the other operand the result; and
/// `on_words` is the value.
#[tactic(auto, using(crate::proofs::Operators::binary_word, crate::proofs::Operators::binary_width, crate::proofs::Operators::commuted, crate::proofs::Operators::masked, crate::proofs::Operators::unmasked, crate::proofs::Operators::computed))]
pub fn operators()
    ensures word { (op : BinOp) (a b : Word) → IsWord a → IsWord b → (is_shift op ≡ false → a.width ≡ b.width) → IsWord (binary_of op a b) }
    ensures width { (op : BinOp) (a b : Word) → (binary_of op a b).width ≡ result_width op a.width }
    ensures swap { (op : BinOp) (a b : Word) → commutes op ≡ true → a.width ≡ b.width → binary_of op a b ≡ binary_of op b a }
    ensures zero { (op : BinOp) (a b : Word) → IsWord b → a.width ≡ b.width → masking_zero op a.width ≡ Some a.value → binary_of op a b ≡ a }
    ensures unit { (op : BinOp) (a b : Word) (z : ℕ) → IsWord b → a.width ≡ b.width → masking_zero op a.width ≡ Some z → a.value + z ≡ 2 ^ a.width - 1 → binary_of op a b ≡ b }
    ensures on_words { (op : BinOp) (a b : Word) (mask : ℕ) → IsWord a → IsWord b → (is_shift op ≡ false → a.width ≡ b.width) → mask ≡ 2 ^ a.width - 1 → on_words op a.value b.value a.width mask ≡ (binary_of op a b).value }
{}

/// A word and its complement add up to the greatest number, and the complement of the complement is the word.
#[tactic(auto, using(crate::proofs::Arithmetic::add_not, crate::proofs::Arithmetic::not_not))]
pub fn complement()
    ensures sum { (a : Word) → IsWord a → a.value + (not_of a).value ≡ 2 ^ a.width - 1 }
    ensures twice { (a : Word) → IsWord a → not_of (not_of a) ≡ a }
{}

/// Each bit of `a & b`, `a | b` and `a ^ b` is computed from the two bits at its position: the smaller, the greater,
/// and the lowest bit of their sum.
#[tactic(auto, using(std::proofs::lemmas::Nat::Bits::bit_at_and, std::proofs::lemmas::Nat::Bits::bit_at_or, std::proofs::lemmas::Nat::Bits::bit_at_xor))]
pub fn bit_by_bit()
    ensures and { (a b : Word) (i : ℕ) → bit_at (and_of a b).value i ≡ min (bit_at a.value i) (bit_at b.value i) }
    ensures or { (a b : Word) (i : ℕ) → bit_at (or_of a b).value i ≡ max (bit_at a.value i) (bit_at b.value i) }
    ensures xor { (a b : Word) (i : ℕ) → bit_at (xor_of a b).value i ≡ (bit_at a.value i + bit_at b.value i) % 2 }
{}

/// Addition and subtraction undo each other.
#[tactic(auto, using(crate::proofs::Arithmetic::add_sub_word, crate::proofs::Arithmetic::sub_add_word))]
pub fn sum_and_difference()
    ensures add_sub { (a b : Word) → IsWord a → IsWord b → a.width ≡ b.width → sub_of (add_of a b) b ≡ a }
    ensures sub_add { (a b : Word) → IsWord a → IsWord b → a.width ≡ b.width → add_of (sub_of a b) b ≡ a }
{}

/// A product with a sum is the sum of the products, and a product with a power of 2 is a shift to the left.
#[tactic(auto, using(crate::proofs::Arithmetic::mul_add, crate::proofs::Arithmetic::mul_power))]
pub fn product()
    ensures sum { (a b c : Word) → a.width ≡ b.width → mul_of a (add_of b c) ≡ add_of (mul_of a b) (mul_of a c) }
    ensures power { (a b : Word) → b.value < a.width → mul_of a (word a.width (2 ^ b.value)) ≡ shl_of a b }
{}

/// Of `a < b`, `a == b` and `b < a` exactly one is 1, and `a == b` is 1 exactly for one word.
#[tactic(auto, using(crate::proofs::Arithmetic::order_word, crate::proofs::Arithmetic::eq_one))]
pub fn order()
    ensures one { (a b : Word) → (lt_of a b).value + (eq_of a b).value + (lt_of b a).value ≡ 1 }
    ensures equal { (a b : Word) → a.width ≡ b.width → ((eq_of a b).value ≡ 1) ↔ (a ≡ b) }
{}

/// A shift by the width or more yields 0, and a shift to the right by less yields the upper bits.
#[tactic(auto, using(crate::proofs::Arithmetic::shl_past, crate::proofs::Arithmetic::shr_past, crate::proofs::Arithmetic::shr_slice))]
pub fn shift()
    ensures shl_past { (a b : Word) → a.width ≤ b.value → shl_of a b ≡ word a.width 0 }
    ensures shr_past { (a b : Word) → a.width ≤ b.value → shr_of a b ≡ word a.width 0 }
    ensures shr_slice { (a b : Word) → IsWord a → b.value < a.width
        → shr_of a b ≡ zext_of (slice_of a (a.width - 1) b.value) a.width }
{}

/// Slices recover the parts of a concatenation, and a concatenation recovers the word that was split in two.
#[tactic(auto, using(crate::proofs::Arithmetic::concat_high, crate::proofs::Arithmetic::concat_low, crate::proofs::Arithmetic::slices_concat))]
pub fn parts()
    ensures high { (high low : Word) → IsWord high → IsWord low
        → slice_of (concat_of high low) (high.width + low.width - 1) low.width ≡ high }
    ensures low { (high low : Word) → IsWord low → slice_of (concat_of high low) (low.width - 1) 0 ≡ low }
    ensures whole { (a : Word) (k : ℕ) → IsWord a → 1 ≤ k → k < a.width
        → concat_of (slice_of a (a.width - 1) k) (slice_of a (k - 1) 0) ≡ a }
{}

/// `zext` fills with zeros, and `sext` preserves the number in two's complement.
#[tactic(auto, using(crate::proofs::Arithmetic::zext_concat, crate::proofs::Arithmetic::sext_signed))]
pub fn extension()
    ensures zext { (a : Word) (n : ℕ) → zext_of a (n + a.width) ≡ concat_of (word n 0) a }
    ensures sext { (a : Word) (width : ℕ) → IsWord a → a.width ≤ width → signed_of (sext_of a width) ≡ signed_of a }
{}

/// What `spell` writes is read back as the same word, and a decimal number as the same number; and two examples.
#[tactic(auto, using(crate::proofs::RoundTrips::spelling_read, crate::proofs::RoundTrips::fit_of_word, crate::proofs::RoundTrips::decimal_read))]
pub fn round_trip()
    ensures word { (a : Word) → IsWord a → literal_of (spelling a) ≡ Ok (record { width = a.width; value = a.value }) }
    ensures fit { (a : Word) → IsWord a → fit_of (record { width = a.width; value = a.value }) ≡ Ok a }
    ensures spelled { spelling (word 8 11) ≡ codes "8'h0b" }
    ensures read { literal_of (codes "12'O7_7") ≡ Ok (record { width = 12; value = 63 }) }
    ensures number { (n : ℕ) → 1 ≤ n → n < 2 ^ 64 → number_of (decimal_digits n) ≡ Some n }
{}

/// A byte string is rejected as `BadDigit` or has the form of a literal; a literal has the value of its digits, if
/// both its numbers fit in 64 bits; and the result of `fit` is a word.
#[tactic(auto, using(crate::proofs::RoundTrips::literal_form, crate::proofs::RoundTrips::literal_value, crate::proofs::RoundTrips::fit_gives_word))]
pub fn literals()
    ensures form { (run : List ℕ) → (literal_of run ≡ Err LiteralFault.BadDigit) ⊎ IsLiteral run }
    ensures value { (run : List ℕ) (form : IsLiteral run)
        → literal_of run ≡ literal_within (numeral_value 10 form.width) (numeral_value form.base form.digits) }
    ensures fit { (a : Literal) → IfOk (fit_of a) IsWord }
{}
