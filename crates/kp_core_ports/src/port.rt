// What a line asks for, and how it is refused.
ghost use Rattle.std.specs.Prelude.{◌≡◌};
ghost use Rattle.kp_core_ports.specs.Ports.{rule_number, prefix_of, verb_for};
ghost use Rattle.kp_core_ports.specs.declared.port.PortsRefused.TheVariants as refused;

use kp_base::{List, NoMemory, Place};
use std::alloc::{AllocError, AllocFailed};

/// What a line asks for. Targets, which are the registers and the files together, and pipes are identified by number, in the order of declaration.
#[derive(Clone, Copy)]
pub enum Ask {
    /// `show R`: the value of a register, by its target.
    Show(u32),
    /// `peek F`: the word of a file at the address of an input, by its target.
    Peek(u32),
    /// `load F`: words of a file that are put in while the reset is raised, by its target.
    Load(u32),
    /// `probe P at k`: a pipe as a stage holds it, by its number and the stage.
    Probe(u32, u32),
    /// `next P at k`: what it takes at the end of the cycle.
    Next(u32, u32),
    /// `commit`: whether an instruction leaves the last stage.
    Commit,
}

/// The ports that a line asks for, with what follows the prefix in their names: `R`, `F`, `P_k`, or nothing for `commit`.
pub struct Port {
    pub ask: Ask,
    pub label: List<u8>,
}

impl Drop for Port {
    fn drop(self) {
        let Port { ask: _, label } = self;
        drop(label);
    }
}

/// The first word of a line that asks for a register or a file.
#[derive(Clone, Copy)]
pub enum TargetVerb {
    Show,
    Peek,
    Load,
}

/// The first word of a line that asks for a pipe in a stage.
#[derive(Clone, Copy)]
pub enum PipeVerb {
    Probe,
    Next,
}

/// The first word of a line.
#[derive(Clone, Copy)]
pub enum Verb {
    Target(TargetVerb),
    Pipe(PipeVerb),
    Commit,
}

impl Ask {
    /// The first word of the line.
    pub(crate) fn verb(self) -> Verb
        ensures { result ≡ verb_for self }
    {
        match self {
            Ask::Show(_) => Verb::Target(TargetVerb::Show),
            Ask::Peek(_) => Verb::Target(TargetVerb::Peek),
            Ask::Load(_) => Verb::Target(TargetVerb::Load),
            Ask::Probe(_, _) => Verb::Pipe(PipeVerb::Probe),
            Ask::Next(_, _) => Verb::Pipe(PipeVerb::Next),
            Ask::Commit => Verb::Commit,
        }
    }
}

impl Verb {
    /// How the name of a port begins that such lines ask for.
    pub(crate) fn prefix(self) -> &'static [u8]
        ensures { result.now ≡ prefix_of self }
    {
        match self {
            Verb::Target(TargetVerb::Show) | Verb::Pipe(PipeVerb::Probe) => b"o_",
            Verb::Target(TargetVerb::Peek) => b"p_",
            Verb::Target(TargetVerb::Load) => b"l_",
            Verb::Pipe(PipeVerb::Next) => b"d_",
            Verb::Commit => b"commit",
        }
    }
}

/// What violates a rule of the lines that ask for ports.
#[derive(Clone, Copy)]
pub enum PortRule {
    /// P1: the line has none of the forms.
    Form,
    /// P1: an earlier line gave this name to a port.
    Taken,
    /// P2: no register has the name.
    NoRegister,
    /// P2: no file has the name.
    NoFile,
    /// P2: no pipe has the name.
    NoPipe,
    /// P3: no stage of this number holds the pipe.
    NoStage,
}

impl PortRule {
    /// The number of the rule.
    pub fn number(self) -> u8
        ensures { result ≡ rule_number self }
    {
        match self {
            PortRule::Form | PortRule::Taken => 1,
            PortRule::NoRegister | PortRule::NoFile | PortRule::NoPipe => 2,
            PortRule::NoStage => 3,
        }
    }
}

/// A violated rule, and the position of the token that violates it.
#[derive(Clone, Copy)]
pub struct PortRefusal {
    pub rule: PortRule,
    pub place: Place,
}

/// Why no ports are returned: a violated rule, or out of memory.
#[derive(Clone, Copy)]
pub enum PortsRefused {
    Rule(PortRefusal),
    NoMemory,
}

impl From<PortRefusal> for PortsRefused {
    ghost from_gives = { λ refusal e. e ≡ refused.Rule refusal };

    fn from(refusal: PortRefusal) -> Self {
        PortsRefused::Rule(refusal)
    }
}

impl From<NoMemory> for PortsRefused {
    ghost from_gives = { λ _ e. e ≡ refused.NoMemory };

    fn from(_: NoMemory) -> Self {
        PortsRefused::NoMemory
    }
}

impl From<AllocError> for PortsRefused {
    ghost from_gives = { λ _ e. e ≡ refused.NoMemory };

    fn from(_: AllocError) -> Self {
        PortsRefused::NoMemory
    }
}

impl<T: Drop> From<AllocFailed<T>> for PortsRefused {
    ghost from_gives = { λ _ e. e ≡ refused.NoMemory };

    fn from(_: AllocFailed<T>) -> Self {
        PortsRefused::NoMemory
    }
}
