// What is expected of the end of a run.
use kp_bits::Bits;

/// A bound on a number: it is this number, or at most this number.
#[derive(Clone, Copy)]
pub struct Bound {
    pub most: bool,
    pub number: u64,
}

/// What is checked.
#[derive(Clone, Copy)]
pub enum Check {
    /// The word of a target at an address has this value.
    Word(u32, u32, Bits),
    /// Each word of a target that no other line names has this value.
    Others(u32, Bits),
    /// The number of instructions that have retired.
    Retired(Bound),
    /// The number of cycles.
    Cycles(Bound),
}

/// The expectations of a text: the number of its lines that expect something, and what is checked.
#[derive(Drop)]
pub struct Expected {
    pub lines: usize,
    pub checks: Vec<Check>,
}

/// The rule that a line violates.
#[derive(Clone, Copy)]
pub enum LineRule {
    /// X1: it has no such form.
    Form,
    /// X2: the target doesn't have this word.
    NoWord(u32),
    /// X2: the value doesn't fit the target.
    NoValue(u32),
}

/// A line, numbered from 1, that violates a rule.
#[derive(Clone, Copy)]
pub struct LineFault {
    pub line: usize,
    pub rule: LineRule,
}
