// From what is asked for to what is written.
ghost use Rattle.std.specs.Prelude.{◌≡◌, ◌≢◌, ◌≤◌, ◌⊎◌, ℕ, List, Option, false, option_map, string_bytes, IfOk, IfSome, IsErrOf};
ghost use Rattle.kp_base.specs.Causes.{Rose};
ghost use Rattle.kp_frontend.specs.Judging.{too_long};
ghost use Rattle.kp_view_texts.specs.Heads.{rule_head};
ghost use Rattle.kp_core.specs.{Messages.BeginsWith, Messages.file_name, Words.asked, Words.reads_input, Words.write, Answers.text_said};
ghost use Rattle.kp_tool.specs.Due.{Between};
ghost use Rattle.kp_core.specs.{declared.request.Form.Form, Promises.IsPromised};
ghost use Rattle.kp_core.specs.Due.{DueFor, IsDue, IsFinal, Prints, PrintsPart};
ghost use Rattle.kp_core.specs.declared.top.Stop.TheVariants as stop;

use crate::answer::{Answer, Said};
use crate::inputs::of_input;
use crate::{Form, HELP, Request, USAGE, VERSION};
use kp_base::{NoMemory, Place, ReadAll, Refusal, Sink, Source, read_all, write_all};
use kp_view_texts::write_head;
use std::alloc::Global;

/// Why there is nothing to be written.
#[derive(Clone, Copy)]
pub enum Stop {
    ReadFault,
    NoMemory,
}

impl From<NoMemory> for Stop {
    ghost from_gives = { λ _ s. s ≡ stop.NoMemory };

    fn from(_: NoMemory) -> Self {
        Stop::NoMemory
    }
}

/// Does what is asked for: reads the source if a module is asked for, writes to standard output or to standard error, and returns the status. It is 0 if
/// all was written to standard output, 1 for words that aren't accepted, 2 if the job or a line after it violates a rule, 3 for a fault of the source, 4
/// for a fault of a sink, and 5 for out of memory.
pub fn run_core<S: Source, K: Sink, E: Sink>(
    alloc: Global,
    request: &Request<'_>,
    source: &mut S,
    out: &mut K,
    err: &mut E,
) -> u8
    // Any status but 3, 4 and 5 is the specified one, and the specified text for all bytes that were left in the source was printed.
    ensures due { IsFinal result → (text : List ℕ) × IsDue (asked request.now) (S.left source.old) (S.left source.new) result text
        × Prints K.held E.held out.old out.new err.old err.new result text }

    // What reads nothing leaves the source unchanged.
    ensures unread { reads_input (asked request.now) ≡ false → source.new ≡ source.old }

    // A fault only if the source or a sink failed in this call, and out of memory only with nothing written.
    ensures read_fault { result ≡ 3 → Rose (S.faults source.old) (S.faults source.new) × (out.new ≡ out.old) × (err.new ≡ err.old) }
    ensures write_fault { result ≡ 4 → (Rose (K.faults out.old) (K.faults out.new) ⊎ Rose (E.faults err.old) (E.faults err.new))
        × (status : ℕ) × (text : List ℕ) × IsDue (asked request.now) (S.left source.old) (S.left source.new) status text
        × PrintsPart K.held E.held out.old out.new err.old err.new status text }
    ensures no_memory { result ≡ 5 → (out.new ≡ out.old) × (err.new ≡ err.old) }
    ensures statuses { result ≤ 5 }

    // If the bytes of the source are known and nothing failed, the outcome is the specified one for all of them, printed in full, unless out of memory.
    ensures complete { ¬ Rose (S.faults source.old) (S.faults source.new) → ¬ Rose (K.faults out.old) (K.faults out.new)
        → ¬ Rose (E.faults err.old) (E.faults err.new) → result ≢ 5 → IfSome (S.left source.old) (λ input.
        (text : List ℕ) × DueFor (asked request.now) input result text × Prints K.held E.held out.old out.new err.old err.new result text) }

    // What is promised of a module and of its tables, for the bytes that were read and those that were written: `specs/Promises.antt`. Without what is added, its
    // text is one that `pipe` may write. A run begins at power-up, or after cycles that raise the reset, in which files may be loaded. Each run is correct, so a
    // program that is loaded runs as if the image of the job held it. `show R` is the value of R in the sequential machine, and `peek F` the word of F, after as
    // many instructions as their write stage has let pass; `probe P at k` is the pipe P in stage k of the pipelined machine, and where no guess that is pending in
    // the stage or in a later one is wrong, that of the instruction in it; `next P at k` is what the register of P has in the next cycle; `commit` is 1 where an
    // instruction leaves the last stage. Each wire of the table has the value of its signal in its stage of the pipelined machine.
    ensures promises { (form : Form) (file : Option (List ℕ)) → asked request.now ≡ write form file → result ≡ 0
        → Between (S.left source.old) (S.left source.new) (K.held out.old) (K.held out.new) (IsPromised form) }
{
    match answer(alloc, request, source) {
        Ok(answer) => written(&answer, out, err),
        Err(Stop::ReadFault) => 3,
        Err(Stop::NoMemory) => 5,
    }
}

// Writes an answer, and returns its status, or 4 if a sink failed.
fn written<K: Sink, E: Sink>(answer: &Answer, out: &mut K, err: &mut E) -> u8
    requires { answer.now.status ≤ 2 }
    ensures printed { result ≢ 4 → (result ≡ answer.now.status)
        × Prints K.held E.held out.old out.new err.old err.new answer.now.status (text_said answer.now.said) }
    ensures failed { result ≡ 4 → (Rose (K.faults out.old) (K.faults out.new) ⊎ Rose (E.faults err.old) (E.faults err.new))
        × PrintsPart K.held E.held out.old out.new err.old err.new answer.now.status (text_said answer.now.said) }
    ensures statuses { (result ≡ answer.now.status) ⊎ (result ≡ 4) }
{
    if answer.status == 0 {
        match write_all(out, answer.said.bytes()) {
            Ok(()) => 0,
            Err(_) => 4,
        }
    } else {
        match write_all(err, answer.said.bytes()) {
            Ok(()) => answer.status,
            Err(_) => 4,
        }
    }
}

// What is to be written.
fn answer<S: Source>(alloc: Global, request: &Request<'_>, source: &mut S) -> Result<Answer, Stop>
    ensures due { IfOk result (λ a. IsDue (asked request.now) (S.left source.old) (S.left source.new) a.status (text_said a.said)) }
    ensures low { IfOk result (λ a. a.status ≤ 2) }
    ensures unread { reads_input (asked request.now) ≡ false → source.new ≡ source.old }
    ensures fault { IsErrOf result stop.ReadFault → Rose (S.faults source.old) (S.faults source.new) }
{
    match request {
        Request::BadWords => Ok(fixed(1, USAGE)),
        Request::Help => Ok(fixed(0, HELP)),
        Request::Version => Ok(fixed(0, VERSION)),
        Request::Core(form, file) => of_source(alloc, *form, file_name(*file), source),
    }
}

fn fixed(status: u8, text: &'static str) -> Answer
    ensures status { result.status ≡ status }
    ensures text { text_said result.said ≡ text.entry.now }
{
    Answer {
        status,
        said: Said::Fixed(text),
    }
}

// The name of a file, or that of standard input.
fn file_name<'w>(file: Option<&'w String>) -> &'w [u8]
    ensures { result.now ≡ file_name (option_map (λ word. string_bytes word.now) file.entry) }
{
    match file {
        Some(name) => name.as_bytes(),
        None => b"<stdin>",
    }
}

// What is to be written for the input of a source.
fn of_source<S: Source>(
    alloc: Global,
    form: Form,
    file: &[u8],
    source: &mut S,
) -> Result<Answer, Stop>
    ensures due { (name : Option (List ℕ)) → file.now ≡ file_name name
        → IfOk result (λ a. IsDue (write form name) (S.left source.old) (S.left source.new) a.status (text_said a.said)) }
    ensures low { IfOk result (λ a. a.status ≤ 2) }
    ensures fault { IsErrOf result stop.ReadFault → Rose (S.faults source.old) (S.faults source.new) }
{
    match read_all(alloc, source) {
        Ok(input) => Ok(of_input(alloc, form, file, input.as_slice())?),
        Err(ReadAll::TooLong) => Ok(of_excess(alloc, file)?),
        Err(ReadAll::Fault) => Err(Stop::ReadFault),
        Err(ReadAll::NoMemory) => Err(Stop::NoMemory),
    }
}

// What is to be written for an input that is longer than it may be.
fn of_excess(alloc: Global, file: &[u8]) -> Result<Answer, NoMemory>
    ensures said { IfOk result (λ a. (a.status ≡ 2) × BeginsWith (rule_head file.now too_long) (text_said a.said)) }
{
    let mut text = Vec::new(alloc);
    write_head(&mut text, file, Refusal::e(3, Place::START))?;
    text.extend_from_slice(b"the input has more than 16,777,216 bytes\n")?;
    Ok(Answer {
        status: 2,
        said: Said::Made(text),
    })
}
