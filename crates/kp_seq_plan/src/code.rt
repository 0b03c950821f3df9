// Codes: expressions on plain numbers.
use kp_ast::Boxed;
use kp_base::List;
use kp_bits::BinOp;

/// An expression whose parts have known widths, so that values are plain numbers, each below 2 to its width. A mask
/// has a one in each bit of a width.
#[derive(Drop)]
pub enum Code {
    Word(u64),
    /// The value under an index.
    Name(usize),
    /// The mask.
    Not(Boxed<Code>, u64),
    /// The width and the mask of the left operand.
    Binary(BinOp, Boxed<Code>, Boxed<Code>, u64, u64),
    /// `test ? yes : no`, in this order. Only one of the two is computed.
    Mux(Boxed<Code>, Boxed<Code>, Boxed<Code>),
    /// High bits and low bits, and the width of the low ones.
    Join(Boxed<Code>, Boxed<Code>, u64),
    /// The lowest bit, and the mask of the result.
    Slice(Boxed<Code>, u64, u64),
    /// The greatest value whose highest bit is 0, and what is added to a greater one.
    Sext(Boxed<Code>, u64, u64),
    /// The arguments, and the body.
    Call(List<Code>, Boxed<Code>),
    /// Whether the value under an index is a word: `Binary` with `==` in one step.
    Same(usize, u64),
    /// Bits of the value under an index: the lowest one, and the mask of the result. `Slice` in one step.
    Field(usize, u64, u64),
    /// The complement of the value under an index, given the mask. `Not` in one step.
    Flip(usize, u64),
    /// Whether the value under an index is in a set of numbers below 64, given as bits. `|` of comparisons in one step.
    Among(usize, u64),
    /// `test ? yes : no`, where the test is whether the value under an index is a word. `Mux` in one step.
    Case(usize, u64, Boxed<Code>, Boxed<Code>),
}

/// A code, and how many bits its values have.
#[derive(Drop)]
pub struct Typed {
    pub code: Code,
    pub width: u64,
}
