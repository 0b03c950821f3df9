// A violated rule of names: V3.
ghost use Rattle.std.specs.Prelude.{◌≡◌, option_map};
ghost use Rattle.kp_view_help.specs.Phrases.{printed};
ghost use Rattle.kp_view_verilog_faults.specs.Helps.{name_help};

use crate::source::Source;
use kp_view_help::{Line, Word, sentences};
use kp_vread_rules::{Form, Kind, NameFault, Wanted};
use std::fmt::{self, Display};

// Writes the sentence for a violated rule of names, in a text with this name at its place.
pub(crate) fn write_name<W: fmt::Write>(
    f: &mut fmt::Formatter<W>,
    source: Source<'_>,
    name: Word<'_>,
    fault: NameFault,
) -> fmt::Result {
    sentences!(f, fault, {
        NameFault::WrongForm(Form::Module) => "the name of a module begins with `m_`",
        NameFault::WrongForm(Form::Sample) => "the port of a sample is `s_` and a name",
        NameFault::WrongForm(Form::Register) => "a register is `r_` or `q_` and a name",
        NameFault::WrongForm(Form::File) => "a file is `f_` and a name",
        NameFault::WrongForm(Form::Integer) => "the integer is `i`",
        NameFault::WrongForm(Form::Wire) => "a wire is `n` and decimal digits",
        NameFault::WrongPort(port) => "this port is `{}`, not `{name}`" (Word(port.bytes())),
        NameFault::DeclaredAgain { first } =>
            "`{name}` is declared already in line {}" (source.line_at(first)),
        NameFault::Undeclared(wanted) =>
            "`{name}` is declared nowhere; {} is wanted here" (Wished(wanted)),
        NameFault::DeclaredLate { declared } =>
            "`{name}` is declared only in line {}, after this use" (source.line_at(declared)),
        NameFault::WrongKind { kind, declared, wanted } =>
            "`{name}` is {} (line {}); {} is wanted here" (kind_text(kind), source.line_at(declared), Wished(wanted)),
        NameFault::NoWire => "the output `{name}` takes a wire alone",
        NameFault::NoPort => "the module has no port `{name}`",
    })
}

fn kind_text(kind: Kind) -> &'static str {
    match kind {
        Kind::Register => "a register",
        Kind::File => "a file",
        Kind::Integer => "the integer",
        Kind::Wire => "a wire",
        Kind::Sample => "the port of a sample",
        Kind::Port => "a port",
    }
}

// What is wanted at a place.
#[derive(Clone, Copy)]
struct Wished(Wanted);

impl Display for Wished {
    fn fmt<W: fmt::Write>(&self, f: &mut fmt::Formatter<W>) -> fmt::Result {
        sentences!(f, self.0, {
            Wanted::Register => "a register",
            Wanted::File => "a file",
            Wanted::Integer => "the integer `i`",
            Wanted::Wire => "a wire",
            Wanted::Port(port) => "`{}`" (Word(port.bytes())),
            Wanted::WireOrOutput => "a wire or an output",
            Wanted::Source => "a register, a sample or `ext`",
        })
    }
}

// What helps where this name violates a rule of names, if anything is known to.
pub(crate) fn name_help<'t>(name: Word<'t>, fault: NameFault) -> Option<Line<'t>>
    ensures { option_map printed result ≡ name_help name.entry.0.now fault }
{
    match fault {
        NameFault::WrongPort(_) | NameFault::NoPort => Some(Line::plain(
            "the ports are `clk`, then `rst` if there is one, `ext`, those of the samples, `full`, `ue` and `back`",
        )),
        NameFault::DeclaredLate { .. } => Some(Line::plain(
            "a name is declared before it is used: move the declaration up",
        )),
        NameFault::WrongKind {
            kind: Kind::Wire,
            wanted: Wanted::Source,
            ..
        } => Some(Line::of(
            "no wire has the value of another wire alone: use `{}` itself",
            name,
        )),
        NameFault::NoWire => Some(Line::of(
            "assign the value to a wire, as `assign n0 = ..;`, and then write `assign {} = n0;`",
            name,
        )),
        _ => None,
    }
}
