// Why a command wrote nothing, or only a prefix of its text.
ghost use Rattle.std.specs.Prelude.{◌≡◌};
ghost use Rattle.kp_tool.specs.inner.Failures.{failure_of, misread_of, stop_status};
ghost use Rattle.kp_tool.specs.declared.failure.Failure.TheVariants as failure;
ghost use Rattle.kp_tool.specs.declared.failure.Stop.TheVariants as stop;

use kp_base::{NoMemory, Refusal, Refused, SinkFault};

/// Why there is no specified outcome: the three failures.
#[derive(Clone, Copy)]
pub enum Stop {
    ReadFault,
    WriteFault,
    NoMemory,
}

impl Stop {
    /// The status of the failure.
    pub fn status(self) -> u8
        ensures { result ≡ stop_status self }
    {
        match self {
            Stop::ReadFault => 3,
            Stop::WriteFault => 4,
            Stop::NoMemory => 5,
        }
    }
}

/// Why a command ends early. The line of a violated rule is still to be written.
#[derive(Clone, Copy)]
pub enum Failure {
    /// The input violates a rule of the language.
    Refused(Refusal),
    /// The Verilog text violates a rule.
    Misread(Refusal),
    Stopped(Stop),
}

impl Failure {
    /// Why a Verilog text was not read.
    pub fn misread(refused: Refused) -> Failure
        ensures { result ≡ misread_of refused }
    {
        match refused {
            Refused::Rule(refusal) => Failure::Misread(refusal),
            Refused::NoMemory => Failure::Stopped(Stop::NoMemory),
        }
    }
}

impl From<Refused> for Failure {
    ghost from_gives = { λ refused f. f ≡ failure_of refused };

    fn from(refused: Refused) -> Self {
        match refused {
            Refused::Rule(refusal) => Failure::Refused(refusal),
            Refused::NoMemory => Failure::Stopped(Stop::NoMemory),
        }
    }
}

impl From<NoMemory> for Failure {
    ghost from_gives = { λ _ f. f ≡ failure.Stopped stop.NoMemory };

    fn from(_: NoMemory) -> Self {
        Failure::Stopped(Stop::NoMemory)
    }
}

impl From<SinkFault> for Failure {
    ghost from_gives = { λ _ f. f ≡ failure.Stopped stop.WriteFault };

    fn from(_: SinkFault) -> Self {
        Failure::Stopped(Stop::WriteFault)
    }
}
