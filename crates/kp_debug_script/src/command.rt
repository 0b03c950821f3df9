// The commands of a script.
use kp_base::Place;
use kp_bits::Bits;

/// A register of a job: the number of its target, counted among registers and files in the order of declaration, its width in bits, and the place where it
/// is declared.
#[derive(Clone, Copy)]
pub struct Register {
    pub target: u32,
    pub width: u64,
    pub declared: Place,
}

/// A command of the debugger. Counts of cycles are at most 100,000.
#[derive(Clone, Copy)]
pub enum Command {
    /// `step N`: moves N cycles forward.
    Step(u32),
    /// `back N`: moves N cycles back.
    Back(u32),
    /// `until R LIT N`: moves to the first cycle in which the register of this target has the value, at most N cycles on.
    Until(u32, Bits, u32),
    /// `show`: prints the state.
    Show,
    /// `row`: prints the row of the cycle.
    Row,
}

/// The keyword of a command.
#[derive(Clone, Copy)]
pub enum Verb {
    Step,
    Back,
    Until,
    Show,
    Row,
}
