// From what is asked for to what is written.
ghost use Rattle.std.specs.Prelude.{◌≡◌, ◌≢◌, ◌≤◌, ◌⊎◌, ℕ, List, Ok, Option, false, map, option_map, length, IfOk, IsErrOf};
ghost use Rattle.kp_base.specs.Causes.{Rose};
ghost use Rattle.kp_frontend.specs.Judging.{most_bytes, JudgesText};
ghost use Rattle.kp_lex.specs.{Text.HasOutcome, declared.token.Lexed.Lexed};
ghost use Rattle.kp_view_texts.specs.Heads.{rule_head};
ghost use Rattle.kp_runner.specs.Words.{asked, reads_input, run, settings_seen, text_of};
ghost use Rattle.kp_runner.specs.Reading.{file_seen, named};
ghost use Rattle.kp_runner.specs.Due.{file_name, BeginsWith, DueOfJob, DueOfText, IsDue, IsFinal, Prints, PrintsPart};
ghost use Rattle.kp_runner.specs.declared.top.Stop.TheVariants as stop;

use crate::answer::{Answer, File, Own};
use crate::request::{Request, Settings};
use crate::running::of_job;
use crate::texts::{HELP, USAGE, VERSION};
use kp_base::{NoMemory, Place, ReadAll, Refusal, Refused, Sink, Source, read_all, write_all};
use kp_frontend::{Accepted, judge};
use kp_lex::laws::tokens_stand_in_their_text;
use kp_lex::lex;
use kp_view_texts::write_head;
use std::alloc::Global;

/// Why there is nothing to be written.
#[derive(Clone, Copy)]
pub enum Stop {
    ReadFault,
    NoMemory,
}

impl From<NoMemory> for Stop {
    ghost from_gives = { λ _ s. s ≡ stop.NoMemory };

    fn from(_: NoMemory) -> Self {
        Stop::NoMemory
    }
}

/// Does what is asked for: reads the source if a job is to be run, writes to standard output or to standard error, and returns the status. It is 0 if a
/// condition holds and all expectations are met, 1 for words that aren't accepted, 2 if the job or an expectation file violates a rule, 3 for a fault of the
/// source, 4 for a fault of a sink, 5 for out of memory, 7 if an expectation isn't met, and 8 if the limit was reached.
pub fn run_job<S: Source, K: Sink, E: Sink>(
    alloc: Global,
    request: &Request<'_>,
    files: &[File],
    source: &mut S,
    out: &mut K,
    err: &mut E,
) -> u8
    // Any status but 3, 4 and 5 is the specified one, and the specified text for all bytes that were left in the source was printed.
    ensures due { IsFinal result → (text : List ℕ) × IsDue (asked request.now) (map file_seen files.now) (S.left source.old) (S.left source.new) result text
        × Prints K.held E.held out.old out.new err.old err.new result text }

    // What reads nothing leaves the source unchanged.
    ensures unread { reads_input (asked request.now) ≡ false → source.new ≡ source.old }

    // A fault only if the source or a sink failed in this call, and out of memory only with nothing written.
    ensures read_fault { result ≡ 3 → Rose (S.faults source.old) (S.faults source.new) × (out.new ≡ out.old) × (err.new ≡ err.old) }
    ensures write_fault { result ≡ 4 → (Rose (K.faults out.old) (K.faults out.new) ⊎ Rose (E.faults err.old) (E.faults err.new))
        × (status : ℕ) × (text : List ℕ) × IsDue (asked request.now) (map file_seen files.now) (S.left source.old) (S.left source.new) status text
        × PrintsPart K.held E.held out.old out.new err.old err.new status text }
    ensures no_memory { result ≡ 5 → (out.new ≡ out.old) × (err.new ≡ err.old) }
    ensures statuses { result ≤ 8 }
{
    match answer(alloc, request, files, source) {
        Ok(answer) => written(&answer, out, err),
        Err(Stop::ReadFault) => 3,
        Err(Stop::NoMemory) => 5,
    }
}

// Writes an answer, and returns its status, or 4 if a sink failed.
fn written<K: Sink, E: Sink>(answer: &Answer, out: &mut K, err: &mut E) -> u8
    ensures printed { result ≢ 4 → (result ≡ answer.now.status)
        × Prints K.held E.held out.old out.new err.old err.new answer.now.status answer.now.text.items }
    ensures failed { result ≡ 4 → (Rose (K.faults out.old) (K.faults out.new) ⊎ Rose (E.faults err.old) (E.faults err.new))
        × PrintsPart K.held E.held out.old out.new err.old err.new answer.now.status answer.now.text.items }
    ensures statuses { (result ≡ answer.now.status) ⊎ (result ≡ 4) }
{
    let text = answer.text.as_slice();
    if answer.status == 1 || answer.status == 2 {
        match write_all(err, text) {
            Ok(()) => answer.status,
            Err(_) => 4,
        }
    } else {
        match write_all(out, text) {
            Ok(()) => answer.status,
            Err(_) => 4,
        }
    }
}

// What is to be written.
fn answer<S: Source>(
    alloc: Global,
    request: &Request<'_>,
    files: &[File],
    source: &mut S,
) -> Result<Answer, Stop>
    ensures due { IfOk result (λ a. IsDue (asked request.now) (map file_seen files.now) (S.left source.old) (S.left source.new) a.status a.text.items) }
    ensures unread { reads_input (asked request.now) ≡ false → source.new ≡ source.old }
    ensures fault { IsErrOf result stop.ReadFault → Rose (S.faults source.old) (S.faults source.new) }
{
    match request {
        Request::BadWords => Ok(fixed(alloc, 1, USAGE)?),
        Request::Help => Ok(fixed(alloc, 0, HELP)?),
        Request::Version => Ok(fixed(alloc, 0, VERSION)?),
        Request::Run(settings, file) => {
            of_source(alloc, settings, files, file_name(*file), source)
        }
    }
}

fn fixed(alloc: Global, status: u8, text: &'static str) -> Result<Answer, NoMemory>
    requires { status ≤ 1 }
    ensures status { IfOk result (λ a. a.status ≡ status) }
    ensures text { IfOk result (λ a. a.text.items ≡ text.entry.now) }
{
    let text = Vec::from_slice(alloc, text.as_bytes())?;
    Ok(Answer { status, text })
}

// The name of a file, or that of standard input.
fn file_name<'w>(file: Option<&'w String>) -> &'w [u8]
    ensures { result.now ≡ file_name (option_map text_of file.entry) }
{
    match file {
        Some(name) => name.as_bytes(),
        None => b"<stdin>",
    }
}

// What is to be written for the input of a source.
fn of_source<S: Source>(
    alloc: Global,
    settings: &Settings<'_>,
    files: &[File],
    name: &[u8],
    source: &mut S,
) -> Result<Answer, Stop>
    ensures due { (file : Option (List ℕ)) → name.now ≡ file_name file → IfOk result (λ a.
        IsDue (run (settings_seen settings.now) file) (map file_seen files.now) (S.left source.old) (S.left source.new) a.status a.text.items) }
    ensures fault { IsErrOf result stop.ReadFault → Rose (S.faults source.old) (S.faults source.new) }
{
    match read_all(alloc, source) {
        Ok(input) => Ok(of_input(alloc, settings, files, name, input.as_slice())?),
        Err(ReadAll::TooLong) => Ok(refused(alloc, name, Refusal::e(3, Place::START))?),
        Err(ReadAll::Fault) => Err(Stop::ReadFault),
        Err(ReadAll::NoMemory) => Err(Stop::NoMemory),
    }
}

// What is to be written for an input that is not too long.
fn of_input(
    alloc: Global,
    settings: &Settings<'_>,
    files: &[File],
    name: &[u8],
    text: &[u8],
) -> Result<Answer, NoMemory>
    requires { length text.now ≤ most_bytes }
    ensures { IfOk result (λ a. DueOfText (settings_seen settings.now) (named name.now text.now) (map file_seen files.now) a.status a.text.items) }
{
    match judge(alloc, text) {
        Ok(job) => {
            let answer = of_accepted(alloc, settings, files, name, text, &job);
            drop(job);
            answer
        }
        Err(Refused::Rule(refusal)) => refused(alloc, name, refusal),
        Err(Refused::NoMemory) => Err(NoMemory),
    }
}

// The same for an input that violates no rule.
fn of_accepted(
    alloc: Global,
    settings: &Settings<'_>,
    files: &[File],
    name: &[u8],
    text: &[u8],
    job: &Accepted,
) -> Result<Answer, NoMemory>
    requires short { length text.now ≤ most_bytes }
    requires judged { JudgesText text.now (Ok job.now.design.job) }
    ensures { IfOk result (λ a. DueOfJob (settings_seen settings.now) (named name.now text.now) (map file_seen files.now) job.now.design.job a.status a.text.items) }
{
    let end = end_of(alloc, text, job)?;
    let own = Own { name, text, end };
    of_job(alloc, settings, files, &own, job)
}

// The offset after the `end` of a job that violates no rule.
fn end_of(alloc: Global, text: &[u8], _job: &Accepted) -> Result<u32, NoMemory>
    requires short { length text.now ≤ most_bytes }
    requires judged { JudgesText text.now (Ok _job.now.design.job) }
    ensures end { IfOk result (λ end. (lexed : Lexed) × HasOutcome text.now (Ok lexed) × (end ≡ lexed.rest)) }
    ensures within { IfOk result (λ end. end ≤ length text.now) }
{
    tokens_stand_in_their_text();
    match lex(alloc, text) {
        Ok(lexed) => Ok(lexed.rest),
        Err(Refused::Rule(_)) => unreachable!(),
        Err(Refused::NoMemory) => Err(NoMemory),
    }
}

// What is to be written for an input that violates a rule.
fn refused(alloc: Global, name: &[u8], refusal: Refusal) -> Result<Answer, NoMemory>
    ensures { IfOk result (λ a. (a.status ≡ 2) × BeginsWith (rule_head name.now refusal) a.text.items) }
{
    let mut text = Vec::new(alloc);
    write_head(&mut text, name, refusal)?;
    text.extend_from_slice(b"the job violates this rule; `kpview explain` says why\n")?;
    Ok(Answer { status: 2, text })
}
