// The ways to violate a rule of stages, each with its facts.
ghost use Rattle.std.specs.Prelude.{◌≡◌};
ghost use Rattle.kp_stage.specs.Findings.{rule_of};

use kp_base::Finding;

/// What a machine has a limited number of.
#[derive(Clone, Copy)]
pub enum Counted {
    Registers,
    Files,
    Pipes,
    Results,
    Hints,
    Functions,
    Reads,
    Guesses,
    Samples,
}

pub(crate) type Found = Finding<StageFault>;

/// A way to violate a rule of stages. Where it is of a name, that is the name at the place of the finding.
#[derive(Clone, Copy)]
pub enum StageFault {
    /// E15: a machine has 2 to 12 stages.
    StageCount {
        stages: u64,
    },
    /// E15: there are fewer blocks than stages.
    FewBlocks {
        stages: u64,
        blocks: usize,
    },
    /// E15: the blocks stand in order.
    BlockNumber {
        found: u64,
        wanted: usize,
    },
    /// E15: a block after that of the last stage.
    BlockBeyond {
        stages: u64,
    },
    /// E15: a stage that is none of the stages.
    NoStage {
        found: u64,
        stages: u64,
    },
    /// E16: a pipe that no statement puts.
    NeverPut,
    /// E16: a second put of a pipe; the first is this statement.
    PutAgain {
        stage: usize,
        index: usize,
    },
    /// E17: a pipe is used in no later stage than it is put; the put is the statement of this number in its block.
    UsedEarly {
        put: usize,
        index: usize,
        here: usize,
    },
    /// E18: a target is read in a later stage than it is written.
    ReadLate {
        write: u64,
        here: usize,
    },
    /// E19: the address or the enable of a result is put in its write stage, or a later one.
    PutLate {
        put: usize,
        write: u64,
    },
    /// E20: a result is set in a later stage than it is written.
    SetLate {
        write: u64,
        here: usize,
    },
    /// E21: a second set of a result in a stage; the first is the statement of this number in its block.
    SetAgain {
        index: usize,
    },
    /// E21: a second aim of a hint; the first is this statement.
    AimedAgain {
        stage: usize,
        index: usize,
    },
    /// E22: a second result of a target; the first is the declaration of this number.
    SecondResult {
        number: usize,
    },
    /// E23: a guess of a word of a file.
    GuessedFile,
    /// E23: a guess of a register without a result.
    GuessWithoutResult,
    /// E23: a guess in the stage before that of the write, or later.
    GuessLate {
        write: u64,
        here: usize,
    },
    /// E24: a write more than one stage before the last write of a guessed register.
    EarlyWrite {
        stage: u64,
        top: u64,
    },
    /// E25: a hint as a value.
    HintAsValue,
    /// E28: the size of the machine exceeds its limit with this statement.
    TooLarge,
    /// E29: the number of these exceeds its limit with this declaration or read.
    TooMany(Counted),
    /// E34: a sample in another stage than its own.
    SampleElsewhere {
        stage: u64,
        here: usize,
    },
    /// E35: a sample more than one stage before the last write of a guessed register.
    EarlySample {
        stage: u64,
        top: u64,
    },
}

impl StageFault {
    /// The number of the rule.
    pub fn rule(self) -> u8
        ensures { result ≡ rule_of self }
    {
        match self {
            StageFault::StageCount { .. }
            | StageFault::FewBlocks { .. }
            | StageFault::BlockNumber { .. }
            | StageFault::BlockBeyond { .. }
            | StageFault::NoStage { .. } => 15,
            StageFault::NeverPut | StageFault::PutAgain { .. } => 16,
            StageFault::UsedEarly { .. } => 17,
            StageFault::ReadLate { .. } => 18,
            StageFault::PutLate { .. } => 19,
            StageFault::SetLate { .. } => 20,
            StageFault::SetAgain { .. } | StageFault::AimedAgain { .. } => 21,
            StageFault::SecondResult { .. } => 22,
            StageFault::GuessedFile
            | StageFault::GuessWithoutResult
            | StageFault::GuessLate { .. } => 23,
            StageFault::EarlyWrite { .. } => 24,
            StageFault::HintAsValue => 25,
            StageFault::TooLarge => 28,
            StageFault::TooMany(_) => 29,
            StageFault::SampleElsewhere { .. } => 34,
            StageFault::EarlySample { .. } => 35,
        }
    }
}
