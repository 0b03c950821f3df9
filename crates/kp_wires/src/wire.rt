// Wires and what they have.
use kp_net::NodeId;

/// A signal of a stage.
#[derive(Clone, Copy)]
pub enum Signal {
    /// The value of a `let`, by the number of the statement in the stage.
    Let(usize),
    /// The value of a read after bypass, by the number of the statement.
    Read(usize),
    /// The value that is put into a pipe.
    Put(usize),
    /// Whether the result of a target is set.
    When(usize),
    /// The value that it is set to.
    Set(usize),
    /// The value that is aimed at a hint.
    Aim(usize),
    /// Whether the stage stalls.
    Stall,
    /// Whether a guess that is pending in the stage is wrong.
    WrongGuess,
}

/// A node of a netlist, and the signal that it is.
#[derive(Clone, Copy)]
pub struct Wire {
    pub node: NodeId,
    pub stage: u32,
    pub signal: Signal,
}
