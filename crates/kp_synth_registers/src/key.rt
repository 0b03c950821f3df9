/// What a register of the netlist stores. Targets, pipes, results, guesses and hints are identified by number, before
/// the stage, and a result has the number of its target. The stage is at least 1, since stage 0 has no registers.
#[derive(Clone, Copy, PartialEq, Eq)]
pub enum Key {
    /// The value of a visible register.
    Visible(u32),
    /// Whether a stage holds an instruction.
    Full(u32),
    /// The value of a pipe in a stage.
    Pipe(u32, u32),
    /// Whether a result is set, in a stage.
    Valid(u32, u32),
    /// The value of a result that is set, in a stage.
    Value(u32, u32),
    /// Whether a guess is pending, in a stage.
    Pending(u32, u32),
    /// The value of a pending guess, in a stage.
    Guess(u32, u32),
    /// The value of a hint.
    Hint(u32),
}
