// The message for a violated rule.
ghost use Rattle.std.specs.Prelude.{◌≡◌};
ghost use Rattle.kp_view_message.specs.{Helps.AreHelps, Helps.IsHelp, Helps.second_help, Rules.rule_of, Texts.message_text};

use crate::reading_fault::ReadingFault;
use crate::section_fault::SectionMessage;
use crate::sentence::Sentence;
use crate::stage_fault::StageMessage;
use kp_view_help::Help;
use std::fmt::{self, Display};

/// A way to violate a rule, with the facts that it rests on. Lines are those of declarations and earlier statements.
#[derive(Clone, Copy)]
pub enum Message<'t> {
    Reading(ReadingFault<'t>),
    Stage(StageMessage<'t>),
    Section(SectionMessage<'t>),
    /// A rule by its number, and what is said of it.
    Rule(u8, Sentence<'t>),
    /// A rule of which no more is known, by its number.
    Fixed(u8),
}

impl<'t> Message<'t> {
    /// The number of the rule.
    pub fn rule(&self) -> u8
        ensures { result ≡ rule_of self.now }
    {
        match self {
            Message::Reading(fault) => fault.rule(),
            Message::Stage(said) => said.fault.rule(),
            Message::Section(said) => said.fault.rule(),
            Message::Rule(number, _) | Message::Fixed(number) => *number,
        }
    }

    /// What helps, in up to three lines.
    pub fn helps(&self) -> [Option<Help<'t>>; 3]
        ensures { AreHelps self.now result }
    {
        [self.help(), self.second_help(), None]
    }

    fn help(&self) -> Option<Help<'t>>
        ensures { IsHelp self.now result }
    {
        match self {
            Message::Reading(fault) => fault.help(),
            Message::Stage(said) => said.help(),
            Message::Section(said) => said.help(),
            Message::Rule(_, sentence) => sentence.helps.0,
            Message::Fixed(_) => None,
        }
    }

    fn second_help(&self) -> Option<Help<'t>>
        ensures { result ≡ second_help self.now }
    {
        match self {
            Message::Rule(_, sentence) => sentence.helps.1,
            _ => None,
        }
    }
}

impl<'t> Display for Message<'t> {
    ghost output = { message_text };

    fn fmt<W: fmt::Write>(&self, f: &mut fmt::Formatter<W>) -> fmt::Result {
        match self {
            Message::Reading(fault) => fault.fmt(f),
            Message::Stage(said) => said.fmt(f),
            Message::Section(said) => said.fmt(f),
            Message::Rule(_, sentence) => sentence.fmt(f),
            Message::Fixed(_) => f.write_str("this violates a rule (docs/LANGUAGE.md)"),
        }
    }
}
