// The nodes of a stage: what it does in a cycle.
use kp_base::List;
use kp_net::NodeId;

/// A set of a result: whether it is enabled, and its value.
#[derive(Clone, Copy)]
pub struct Set {
    pub enabled: NodeId,
    pub value: NodeId,
}

/// A guessed read: whether the guess is used, so that it is pending, and its value.
#[derive(Clone, Copy)]
pub struct Made {
    pub pending: NodeId,
    pub value: NodeId,
}

/// The nodes of a stage: what it does in a cycle.
pub struct Outcome {
    /// Whether the stage stalls.
    pub stall: NodeId,
    /// Whether a guess that is pending in it mismatches.
    pub miss: NodeId,
    /// For each pipe, the value that is put.
    pub puts: List<Option<NodeId>>,
    /// For each target, the set of its result.
    pub sets: List<Option<Set>>,
    /// For each guessed read of the stage, in text order, its guess.
    pub made: List<Made>,
    /// For each hint, the value that is aimed at it.
    pub aims: List<Option<NodeId>>,
}

impl Drop for Outcome {
    fn drop(self) {
        let Outcome {
            stall: _,
            miss: _,
            puts,
            sets,
            made,
            aims,
        } = self;
        drop(puts);
        drop(sets);
        drop(made);
        drop(aims);
    }
}
