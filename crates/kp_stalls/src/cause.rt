//! The causes.

use kp_bits::Bits;

/// A line about an instruction in a cycle: its number and its stage, and why it waits or is squashed.
#[derive(Clone, Copy)]
pub struct Line {
    pub cycle: usize,
    pub number: u64,
    pub stage: usize,
    pub cause: Cause,
}

/// Why an instruction waits or is squashed.
#[derive(Clone, Copy)]
pub enum Cause {
    /// It waits for the value of a read.
    Value(Wait),
    /// It waits for a value that isn't named: the job has guesses and the instruction doesn't retire in the run, or no read is unmet by the values
    /// that the sequential machine has.
    Unsure,
    /// It waits for the stage ahead.
    Ahead,
    /// It is held from outside.
    Held,
    /// It waits, and is squashed in a later cycle.
    Later,
    /// A guess that it made is wrong.
    Squashed(Wrong),
}

/// A read that waits: its number in text order and its address, the number and the stage of the older instruction that writes there or may, and when its
/// value can be had.
#[derive(Clone, Copy)]
pub struct Wait {
    pub read: usize,
    pub address: u32,
    pub writer: u64,
    pub stage: usize,
    pub had: Had,
}

/// When the value can be had.
#[derive(Clone, Copy)]
pub enum Had {
    /// Not before the stage in which it is known whether and where the instruction writes.
    Known(u32),
    /// In a later stage, which sets it.
    Set(u8),
    /// As soon as the stage moves its instruction on.
    Moved,
}

/// A rollback: the number of the last instruction that is squashed, and the guess that is wrong, where it is known which one.
#[derive(Clone, Copy)]
pub struct Wrong {
    pub last: u64,
    pub guess: Option<Guess>,
}

/// A wrong guess: the number of its read in text order, the value that was guessed, if it is known, the value of its register, and the instruction that
/// makes this value, if it isn't in the register yet.
#[derive(Clone, Copy)]
pub struct Guess {
    pub read: usize,
    pub guessed: Option<Bits>,
    pub value: Bits,
    pub producer: Option<Producer>,
}

/// An instruction that writes a register, by its number, and its stage.
#[derive(Clone, Copy)]
pub struct Producer {
    pub number: u64,
    pub stage: usize,
}
