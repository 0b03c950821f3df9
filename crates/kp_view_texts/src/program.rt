// What is said of a violated rule of assembler programs.
ghost use Rattle.std.specs.Prelude.{◌≡◌, OnOk, option_map};
ghost use Rattle.kp_view_excerpt.specs.Notes.{AppendsNoteAt};
ghost use Rattle.kp_view_help.specs.Phrases.{printed};
ghost use Rattle.kp_view_texts.specs.{Helps.program_help, Marks.program_mark};

use crate::form::{form_text, piece_text};
use kp_asm::{Piece, ProgramFault, token_length};
use kp_base::{Finding, NoMemory};
use kp_view_excerpt::{excerpt_at, offset_of, write_fault};
use kp_view_help::{Byte, Line, Term, Terms, Word, sentences};
use std::alloc::Global;
use std::fmt::{self, Display};

/// Appends what follows the head of a rule of programs: the message, the excerpt at its place, and what helps. The only error is out of memory; what
/// `out` contains then isn't specified.
pub fn write_program(
    alloc: Global,
    out: &mut Vec<u8>,
    text: &[u8],
    finding: Finding<ProgramFault>,
) -> Result<(), NoMemory>
    ensures { OnOk result (AppendsNoteAt text.now finding.place (program_mark text.now finding.place) out.old.items out.new.items) }
{
    let Finding { place, fault } = finding;
    let rest = &text[offset_of(text, place)..];
    let length = token_length(rest);
    let token = Word(&rest[..length]);
    let message = Said {
        fault,
        token,
        length,
    };
    let excerpt = excerpt_at(text, place, length);
    write_fault(alloc, out, &excerpt, &message, &help(fault, token))
}

// What is said of a violated rule at this token.
#[derive(Clone, Copy)]
struct Said<'t> {
    fault: ProgramFault,
    token: Word<'t>,
    /// The length of the token. Only the end of a line has no length.
    length: usize,
}

impl<'t> Display for Said<'t> {
    fn fmt<W: fmt::Write>(&self, f: &mut fmt::Formatter<W>) -> fmt::Result {
        let Said {
            fault,
            token,
            length,
        } = self;
        sentences!(f, fault, {
            ProgramFault::NoToken { byte } => "no word of a program begins with {}" (Byte(*byte)),
            ProgramFault::LongName { length } =>
                "a name has at most 64 letters, digits and `_`; this has {length}",
            ProgramFault::NoDigits => "decimal digits follow `-`",
            ProgramFault::NoDirective => "the only word that begins with `.` is `.word`",
            ProgramFault::NoMnemonic => "there is no instruction `{token}`",
            ProgramFault::Capitals =>
                "there is no instruction `{token}`: instructions have small letters",
            ProgramFault::SecondLabel =>
                "a line has one label at most, and `{token}` would be a second one",
            ProgramFault::WrongOperand { wanted, .. } if *length == 0 =>
                "expected {}, found the end of the line" (piece_text(*wanted)),
            ProgramFault::WrongOperand { wanted, .. } =>
                "expected {}, found `{token}`" (piece_text(*wanted)),
            ProgramFault::NoInstruction => "expected an instruction, found `{token}`",
            ProgramFault::NoRegister =>
                "there is no register `{token}`: the registers are `r0` to `r31`",
            ProgramFault::OutOfRange { mnemonic, wanted } =>
                "the number of `{}` is {}, not {token}" (Word(mnemonic.spelling()), range(*wanted)),
            ProgramFault::LabelAgain { first } =>
                "the label `{token}` is declared already in line {}" (first.line),
            ProgramFault::LabelNowhere => "the label `{token}` is declared nowhere",
            ProgramFault::TooMany =>
                "a program has at most 1,024 words, and this would be one more",
        })
    }
}

// The numbers that an operand may be.
fn range(wanted: Piece) -> &'static str {
    match wanted {
        Piece::Signed => "-32768 to 32767",
        Piece::Unsigned => "0 to 65535",
        _ => "-2147483648 to 4294967295",
    }
}

// What helps, if anything is known to.
fn help<'t>(fault: ProgramFault, token: Word<'t>) -> Option<Line<'t>>
    ensures { option_map printed result ≡ program_help fault token.entry.0.now }
{
    match fault {
        ProgramFault::NoToken { byte: b'#' | b'/' } => Some(Line::plain(
            "a comment begins with `;`",
        )),
        ProgramFault::SecondLabel => Some(Line::plain(
            "write the first label in a line of its own",
        )),
        ProgramFault::WrongOperand { mnemonic, .. } => {
            let form = Term::Text(form_text(mnemonic.form()));
            return Some(Line {
                text: "the form is `{}{}`",
                terms: Terms::Two(Term::Word(Word(mnemonic.spelling())), form),
            });
        }
        ProgramFault::OutOfRange {
            wanted: Piece::Signed,
            ..
        } => Some(Line::plain(
            "a number of 32 bits comes in two halves: `lhi r1, 0x1234` and `ori r1, r1, 0x5678`",
        )),
        ProgramFault::LabelNowhere => Some(Line::of(
            "declare it before an instruction or in a line of its own: `{}:`",
            token,
        )),
        _ => None,
    }
}
