// What may not be meant so in a job that violates no rule.
use kp_base::Finding;

/// A warning, with its facts. Where it is of a name, that is the name at the place of the finding.
#[derive(Clone, Copy)]
pub enum Lint {
    /// W1: no statement sets the result that the declaration of this number declares.
    NeverSet {
        result: usize,
    },
    /// W1: each set of the result has a condition; the first four are in these lines.
    MaybeUnset {
        result: usize,
        lines: [Option<u32>; 4],
    },
    /// W3: the first set of the result without a condition, in this stage and line, comes before this one, which never takes place.
    SetInVain {
        result: usize,
        stage: usize,
        line: u32,
    },
    /// W4: nothing uses the pipe.
    UnusedPipe,
    /// W5: no expression uses the name, for a local one none of the stage.
    UnusedLocal {
        stage: usize,
    },
    UnusedHint,
    UnusedSample,
    UnusedFunction,
    /// W6: the register has no result, and never changes.
    NoResult,
    /// W7: the address or the enable of the result can be put in this stage already.
    PutLate {
        result: usize,
        earliest: usize,
    },
    /// W8: the port of the sample is a keyword of SystemVerilog.
    KeywordPort,
}

pub(crate) type Found = Finding<Lint>;

/// A statement: its stage, and its number in the block.
#[derive(Clone, Copy)]
pub(crate) struct Spot {
    pub stage: usize,
    pub index: usize,
}
