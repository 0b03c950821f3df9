// Why nothing, or not all, was written to standard output.
ghost use Rattle.std.specs.Prelude.{◌≡◌};
ghost use Rattle.kp_view.specs.inner.Failures.{failure_of, stop_status};
ghost use Rattle.kp_view.specs.declared.failure.Failure.TheVariants as failure;
ghost use Rattle.kp_view.specs.declared.failure.Stop.TheVariants as stop;

use kp_base::{NoMemory, Refusal, Refused, SinkFault};
use kp_view_words::Topic;

/// Why there is no specified outcome: the three failures.
#[derive(Clone, Copy)]
pub enum Stop {
    ReadFault,
    WriteFault,
    NoMemory,
}

impl Stop {
    /// The status of a failure.
    pub fn status(self) -> u8
        ensures { result ≡ stop_status self }
    {
        match self {
            Stop::ReadFault => 3,
            Stop::WriteFault => 4,
            Stop::NoMemory => 5,
        }
    }
}

/// What is to be printed on standard error.
#[derive(Drop)]
pub enum Complaint {
    /// The words aren't accepted.
    BadWords(Topic),
    /// This many names are given for this many stages.
    WrongNames(usize, u8),
    /// This word of the command line isn't a label.
    WrongLabel(Vec<u8>),
    /// The job violates a rule.
    Refused(Refusal),
    /// A directive violates a rule: the message, after the name of the file.
    Misdirected(Vec<u8>),
}

/// Why a call ends early. A complaint is still to be printed.
#[derive(Drop)]
pub enum Failure {
    Complained(Complaint),
    Stopped(Stop),
}

impl From<Refused> for Failure {
    ghost from_gives = { λ refused f. f ≡ failure_of refused };

    fn from(refused: Refused) -> Self {
        match refused {
            Refused::Rule(refusal) => Failure::Complained(Complaint::Refused(refusal)),
            Refused::NoMemory => Failure::Stopped(Stop::NoMemory),
        }
    }
}

impl From<NoMemory> for Failure {
    ghost from_gives = { λ _ f. f ≡ failure.Stopped stop.NoMemory };

    fn from(_: NoMemory) -> Self {
        Failure::Stopped(Stop::NoMemory)
    }
}

impl From<SinkFault> for Failure {
    ghost from_gives = { λ _ f. f ≡ failure.Stopped stop.WriteFault };

    fn from(_: SinkFault) -> Self {
        Failure::Stopped(Stop::WriteFault)
    }
}
