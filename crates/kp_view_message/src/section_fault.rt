// What is said of a violated rule of the sections.
ghost use Rattle.std.specs.Prelude.{◌≡◌};
ghost use Rattle.kp_view_excerpt.specs.Tokens.{token_at};
ghost use Rattle.kp_view_message.specs.{Entries.entry_name, Helps.section_help};

use crate::width_fault::{fit, literal_value, literal_width, other_width};
use kp_base::{Finding, Place};
use kp_bits::Literal;
use kp_image::SectionFault;
use kp_view_excerpt::token_at;
use kp_view_help::{Help, Kind, Word, sentences};
use std::fmt::{self, Display};

/// A wrong entry of a section, with what its sentence prints of the text.
#[derive(Clone, Copy)]
pub struct SectionMessage<'t> {
    pub fault: SectionFault,
    /// The name of the entry.
    pub name: Word<'t>,
}

impl<'t> SectionMessage<'t> {
    /// What is said of a finding in this text.
    pub fn of(text: &'t [u8], finding: Finding<SectionFault>) -> SectionMessage<'t>
        ensures fault { result.fault ≡ finding.fault }
        ensures name { result.name.0.now ≡ token_at text.now (entry_name finding.fault finding.place) }
    {
        let Finding { place, fault } = finding;
        SectionMessage {
            fault,
            name: Word(token_at(text, entry_name(fault, place))),
        }
    }

    // What helps, if anything is known to.
    pub(crate) fn help(&self) -> Option<Help<'t>>
        ensures { result ≡ section_help self.now }
    {
        match self.fault {
            SectionFault::NoAddress { .. } => Some(Help::WithNumber(self.name)),
            SectionFault::ValueWidth {
                width,
                found,
                value,
                ..
            } => {
                let literal = Literal {
                    width: u64::from(found),
                    value,
                };
                Some(fit(Some(literal), literal.width, width))
            },
            SectionFault::LiteralValue { value, .. } => Some(Help::LiteralBits(value)),
            _ => None,
        }
    }
}

impl<'t> Display for SectionMessage<'t> {
    fn fmt<W: fmt::Write>(&self, f: &mut fmt::Formatter<W>) -> fmt::Result {
        let SectionMessage { fault, name } = self;
        sentences!(f, fault, {
            SectionFault::LiteralWidth { width } => "{}" (literal_width(*width)),
            SectionFault::LiteralValue { width, value } => "{}" (literal_value(*value, *width)),
            SectionFault::ValueWidth { kind, width, found, .. } =>
                "{}" (other_width(Kind::of(*kind), *name, u64::from(*found), *width)),
            SectionFault::Unknown =>
                "`{name}` is declared nowhere; an image fills registers and files",
            SectionFault::Empty { kind, declared } =>
                "`{name}` is a {} (line {}); an image fills registers and files" (Kind::of(*kind), declared.line),
            SectionFault::NoAddress { declared } =>
                "`{name}` is a file (line {}), and needs an address" (declared.line),
            SectionFault::NeedlessAddress { declared } =>
                "`{name}` is a register (line {}), and has no address" (declared.line),
            SectionFault::AddressBeyond { words, address, .. } =>
                "the addresses of `{name}` are 0 to {}, and {address} isn't one of them" (words.saturating_sub(1)),
            SectionFault::WordBeyond { words, .. } =>
                "this word lies after the last one of `{name}`, whose address is {}" (words.saturating_sub(1)),
            SectionFault::SecondStart { .. } => "`{name}` is a register, and has one value",
            SectionFault::NoStage { found, stages } =>
                "there is no stage {found}: the stages are 0 to {}" (stages.saturating_sub(1)),
            SectionFault::UnknownSample =>
                "`{name}` is declared nowhere; inputs are the values of samples",
            SectionFault::NoSample { kind, declared } =>
                "`{name}` is a {} (line {}); inputs are the values of samples" (Kind::of(*kind), declared.line),
            SectionFault::StallStep | SectionFault::InputStep => "a step is 1 or more",
        })
    }
}

// The place of the name of the entry that a fault at this place is of.
fn entry_name(fault: SectionFault, place: Place) -> Place
    ensures { result ≡ entry_name fault place }
{
    match fault {
        SectionFault::ValueWidth { name, .. }
        | SectionFault::AddressBeyond { name, .. }
        | SectionFault::WordBeyond { name, .. }
        | SectionFault::SecondStart { name } => name,
        _ => place,
    }
}
