// What is said of a violated rule of scripts.
ghost use Rattle.std.specs.Prelude.{◌≡◌, [], ◌∷◌, OnOk, length, option_map};
ghost use Rattle.kp_view_excerpt.specs.Notes.{AppendsNoteAt};
ghost use Rattle.kp_view_help.specs.Phrases.{printed};
ghost use Rattle.kp_view_texts.specs.{Helps.example, Helps.fits, Helps.script_help, Marks.is_of_word, Marks.script_mark, Marks.word_length};

use kp_ast::Decl;
use kp_base::{Finding, NoMemory, run_length};
use kp_debug_script::{ScriptFault, Verb};
use kp_view_excerpt::{excerpt_at, offset_of, token_at, write_fault};
use kp_view_help::{Bits, Kind, Line, Term, Terms, Word, sentences};
use kp_width::declared_name;
use std::alloc::Global;
use std::fmt::{self, Display};

/// Appends what follows the head of a rule of scripts, for a job with these declarations: the message, the excerpt at its place, and what helps.
/// The only error is out of memory; what `out` contains then isn't specified.
pub fn write_script(
    alloc: Global,
    out: &mut Vec<u8>,
    text: &[u8],
    decls: &[Decl],
    finding: Finding<ScriptFault>,
) -> Result<(), NoMemory>
    ensures { OnOk result (AppendsNoteAt text.now finding.place (script_mark text.now finding.place) out.old.items out.new.items) }
{
    let Finding { place, fault } = finding;
    let word = word_from(&text[offset_of(text, place)..]);
    let message = Said {
        text,
        decls,
        fault,
        word: Word(word),
    };
    let excerpt = excerpt_at(text, place, word.len());
    write_fault(alloc, out, &excerpt, &message, &help(fault))
}

// The word that a text begins with.
fn word_from(text: &[u8]) -> &[u8]
    ensures { length result.now ≡ word_length text.now }
{
    &text[..run_length(text, is_of_word)]
}

// A byte of a word.
fn is_of_word(byte: u8) -> bool
    ensures { result ≡ is_of_word byte }
{
    !matches!(byte, b'\n' | b' ' | b'\t' | b'\r')
}

// What is said of a violated rule at this word of a text, for a job with these declarations.
#[derive(Clone, Copy)]
struct Said<'t> {
    text: &'t [u8],
    decls: &'t [Decl],
    fault: ScriptFault,
    word: Word<'t>,
}

impl<'t> Display for Said<'t> {
    fn fmt<W: fmt::Write>(&self, f: &mut fmt::Formatter<W>) -> fmt::Result {
        let Said {
            text,
            decls,
            fault,
            word: here,
        } = self;
        sentences!(f, fault, {
            ScriptFault::NoCommand => "a script has no command `{here}`",
            ScriptFault::Words { verb } => "`{}` is followed by {}" (spelling(*verb), rest(*verb)),
            ScriptFault::NoCount { verb, word } =>
                "the number of cycles of `{}` is decimal digits, not `{}`" (spelling(*verb), word_at(text, *word)),
            ScriptFault::NoLiteral { word } =>
                "the value of `until` is a literal such as 8'h1f, not `{}`" (word_at(text, *word)),
            ScriptFault::ManyCycles => "a number of cycles is at most 100,000, not {here}",
            ScriptFault::Undeclared =>
                "`{here}` is declared nowhere; `until` watches a register",
            ScriptFault::NoRegister { number } =>
                "`{here}` is a {}; `until` watches a register" (Declared(decls.get(*number))),
            ScriptFault::Width { found, wanted, declared, .. } =>
                "this value has {}; the register `{}` (line {}) has {}"
                (Bits(*found), Word(token_at(text, *declared)), declared.line, Bits(*wanted)),
            ScriptFault::Value { value, width } => "{value} doesn't fit {}" (Bits(*width)),
            ScriptFault::LargeValue => "a number of this literal is over 2^64-1",
        })
    }
}

// The word at an offset of the text.
fn word_at(text: &[u8], at: u32) -> Word<'_> {
    let (_before, rest) = text.split_at(text.len().min(at as usize));
    Word(word_from(rest))
}

// What a declaration declares, and its line.
#[derive(Clone, Copy)]
struct Declared<'t>(Option<&'t Decl>);

impl<'t> Display for Declared<'t> {
    fn fmt<W: fmt::Write>(&self, f: &mut fmt::Formatter<W>) -> fmt::Result {
        let Some(decl) = self.0 else {
            return Ok(());
        };
        let kind = match decl {
            Decl::Reg(_, _, _) => Kind::Register,
            Decl::File(_, _, _) => Kind::File,
            Decl::Pipe(_, _) => Kind::Pipe,
            Decl::Hint(_, _, _) => Kind::Hint,
            Decl::Sample(_, _, _) => Kind::Sample,
            Decl::Target(_) => Kind::Output,
            Decl::Func(_) => Kind::Function,
        };
        let line = declared_name(decl).at.line;
        write!(f, "{kind} (line {line})")
    }
}

fn spelling(verb: Verb) -> &'static str {
    match verb {
        Verb::Step => "step",
        Verb::Back => "back",
        Verb::Until => "until",
        Verb::Show => "show",
        Verb::Row => "row",
    }
}

// What follows the keyword of a command.
fn rest(verb: Verb) -> &'static str {
    match verb {
        Verb::Step | Verb::Back => "a number of cycles alone",
        Verb::Until => "a register, a value and a number of cycles",
        Verb::Show | Verb::Row => "nothing",
    }
}

// An example of the command.
fn example(verb: Verb) -> &'static str
    ensures { result.now ≡ example verb }
{
    match verb {
        Verb::Step => "step 10",
        Verb::Back => "back 10",
        Verb::Until => "until X 8'h02 100",
        Verb::Show => "show",
        Verb::Row => "row",
    }
}

// What helps, if anything is known to.
fn help<'t>(fault: ScriptFault) -> Option<Line<'t>>
    ensures { option_map printed result ≡ script_help fault }
{
    match fault {
        ScriptFault::NoCommand => Some(Line::plain(
            "a line is `step N`, `back N`, `until R LIT N`, `show` or `row`, or empty",
        )),
        ScriptFault::Words { verb } | ScriptFault::NoCount { verb, .. } => {
            Some(example_of(verb))
        }
        ScriptFault::NoLiteral { .. } => Some(example_of(Verb::Until)),
        ScriptFault::ManyCycles => Some(Line::plain("write the command in several lines")),
        ScriptFault::Width { wanted, value, .. } if fits(value, wanted) => {
            let width = Term::Number(wanted);
            Some(Line {
                text: "give the literal {} bits: `{}'d{}`",
                terms: Terms::Three(width, width, Term::Number(value)),
            })
        }
        _ => None,
    }
}

fn example_of<'t>(verb: Verb) -> Line<'t>
    ensures { printed result ≡ example verb ∷ [] }
{
    Line {
        text: "an example is `{}`",
        terms: Terms::One(Term::Text(example(verb))),
    }
}

// Whether the value is below 2^width.
fn fits(value: u64, width: u64) -> bool
    ensures { result ≡ fits value width }
{
    width >= 64 || value >> width == 0
}
