//! The top call of `kpview`: from what the words of a command line ask for, and a source, to a status, standard output and standard error.
//!
//! What is asked for writes to standard output alone, with status 0. A complaint (words that aren't accepted, a job that violates a rule, another
//! number of names than of stages, a label that the job doesn't have) goes up as an error, with nothing written, and `ended` writes it to standard error. `specs/Due.antt` defines the
//! status and the text of each outcome. All memory is allocated before the first byte is written.
//!
//! A word is a module with one function, as `diagram`, and an arm in `drawn`.
#![tactic(auto)]

mod complaint;
mod depth;
mod diagram;
mod failure;
mod job;
mod labelled;
mod listed;
mod page;
mod paths;
mod paths_svg;
mod sentences;
mod stalls;
mod svg;
mod window;

ghost use Rattle.std.specs.Prelude.{◌≡◌, ◌≢◌, ◌⊎◌, List, ℕ, false, None, IfSome};
ghost use Rattle.kp_base.specs.Causes.{Rose};
ghost use Rattle.kp_base.specs.Refusal.{e_rule};
ghost use Rattle.kp_view_words.specs.{Asked.asked, Asked.file_asked, Asked.task_seen, Words.Asked, Words.Task as TaskAsked, Words.bad_words, Words.show};
ghost use Rattle.kp_view_words.specs.declared.words.Topic.{Topic};
ghost use Rattle.kp_view.specs.Due.{Says, DueFor, IsDue, IsFinal, Completes, Begins, Between, Prints, IsDrawn, IsRefusal, IsUnaccepted, IsUnrefused, reads_input};
ghost use Rattle.kp_view.specs.Ends.{Ends, EndsAt};
ghost use Rattle.kp_view.specs.inner.Failures.{end_status};

use complaint::complain;
use failure::{Complaint, Failure, Stop};
use job::on_job;
use kp_base::{Place, ReadAll, Refusal, Sink, Source, read_all, write_all};
use kp_view_words::{Request, Task, help_of, version};
use std::alloc::Global;

/// Does what is asked for: reads the source if something is to be shown of a job, writes to standard output or to standard error, and returns the status. It is 0 if
/// all was written to standard output, 1 for words that aren't accepted, another number of names than of stages or a label that isn't one, 2 if the input or a directive in it violates a rule,
/// 3 for a fault of the source, 4 for a fault of a sink, and 5 for out of memory.
pub fn view<S: Source, K: Sink, E: Sink>(
    alloc: Global,
    request: &Request<'_>,
    source: &mut S,
    out: &mut K,
    err: &mut E,
) -> u8
    // Any status but 3, 4 and 5 is the specified one, and the specified text for all bytes that were left in the source was printed.
    ensures due { IsFinal result → Completes K.held E.held (asked request.now) (S.left source.old) (S.left source.new) out.old out.new err.old err.new result }

    // What reads nothing leaves the source unchanged.
    ensures unread { reads_input (asked request.now) ≡ false → source.new ≡ source.old }

    // A fault only if the source or a sink failed in this call, and out of memory only with nothing written.
    ensures read_fault { result ≡ 3 → Rose (S.faults source.old) (S.faults source.new) × (out.new ≡ out.old) × (err.new ≡ err.old) }
    ensures write_fault { result ≡ 4 → (Rose (K.faults out.old) (K.faults out.new) ⊎ Rose (E.faults err.old) (E.faults err.new))
        × Begins K.held E.held (asked request.now) (S.left source.old) (S.left source.new) out.old out.new err.old err.new }
    ensures no_memory { result ≡ 5 → (out.new ≡ out.old) × (err.new ≡ err.old) }

    // If the bytes of the source are known and nothing failed, the outcome is the specified one for all of them, printed in full, unless out of memory.
    ensures complete { ¬ Rose (S.faults source.old) (S.faults source.new) → ¬ Rose (K.faults out.old) (K.faults out.new)
        → ¬ Rose (E.faults err.old) (E.faults err.new) → result ≢ 5 → IfSome (S.left source.old) (λ input.
        (text : List ℕ) × DueFor (asked request.now) input result text × Prints K.held E.held out.old out.new err.old err.new result text) }

    // Status 1 for words that aren't accepted, and else only for names that aren't names for the stages of an accepted job, or words that aren't labels of it;
    // status 0 is never returned for those (`drawn`).
    ensures bad_words { (topic : Topic) → asked request.now ≡ bad_words topic → IsFinal result → result ≡ 1 }
    ensures unaccepted { result ≡ 1 → Between (S.left source.old) (S.left source.new) (E.held err.old) (E.held err.new) (IsUnaccepted (asked request.now)) }

    // Status 2 comes with the first rule that the input violates, or that its directives violate, and whenever the input violates one.
    ensures refused { (task : TaskAsked) → asked request.now ≡ show task → result ≡ 2
        → Between (S.left source.old) (S.left source.new) (E.held err.old) (E.held err.new) (IsRefusal task) }
    ensures refused_only { (task : TaskAsked) → asked request.now ≡ show task → result ≡ 0
        → Between (S.left source.old) (S.left source.new) (K.held out.old) (K.held out.new) IsUnrefused }

    // The headline. What is written with status 0 draws the run of the job's pipelined machine: its fetches, cells, marks and account are those of the
    // run, and the laws of the diagram hold of them.
    ensures drawn { (task : TaskAsked) → asked request.now ≡ show task → result ≡ 0
        → Between (S.left source.old) (S.left source.new) (K.held out.old) (K.held out.new) (IsDrawn task) }
{
    status_of(ended(alloc, request, source, out, err))
}

// The status of an end.
fn status_of(end: Result<u8, Stop>) -> u8
    ensures { result ≡ end_status end }
{
    match end {
        Ok(status) => status,
        Err(stop) => stop.status(),
    }
}

// Does what is asked for, and writes a complaint.
fn ended<S: Source, K: Sink, E: Sink>(
    alloc: Global,
    request: &Request<'_>,
    source: &mut S,
    out: &mut K,
    err: &mut E,
) -> Result<u8, Stop>
    ensures ends { EndsAt K.held K.faults E.held E.faults (Rose (S.faults source.old) (S.faults source.new))
        (IsDue (asked request.now) (S.left source.old) (S.left source.new)) out.old out.new err.old err.new result }
    ensures unread { reads_input (asked request.now) ≡ false → source.new ≡ source.old }
{
    match carry_out(alloc, request, source, out) {
        Ok(()) => Ok(0),
        Err(Failure::Complained(complaint)) => complain(complaint, request.file(), err),
        Err(Failure::Stopped(stop)) => Err(stop),
    }
}

// Does what is asked for. A complaint is returned and not yet written.
fn carry_out<S: Source, K: Sink>(
    alloc: Global,
    request: &Request<'_>,
    source: &mut S,
    out: &mut K,
) -> Result<(), Failure>
    ensures ends { Ends K.held K.faults (Rose (S.faults source.old) (S.faults source.new))
        (IsDue (asked request.now) (S.left source.old) (S.left source.new)) (file_asked (asked request.now)) out.old out.new result }
    ensures unread { reads_input (asked request.now) ≡ false → source.new ≡ source.old }
{
    match request {
        Request::BadWords(topic) => Err(Failure::Complained(Complaint::BadWords(*topic))),
        Request::Help(topic) => print(help_of(*topic), out),
        Request::Version => print(version(), out),
        Request::Show(task) => over_source(alloc, task, source, out),
    }
}

// Writes a fixed text.
fn print<K: Sink>(text: &str, out: &mut K) -> Result<(), Failure>
    ensures { Ends K.held K.faults ⊥ (Says 0 text.now) None out.old out.new result }
{
    Ok(write_all(out, text.as_bytes())?)
}

// Reads the source, and shows what is asked of its job.
fn over_source<S: Source, K: Sink>(
    alloc: Global,
    task: &Task<'_>,
    source: &mut S,
    out: &mut K,
) -> Result<(), Failure>
    ensures { Ends K.held K.faults (Rose (S.faults source.old) (S.faults source.new))
        (IsDue (show (task_seen task.now)) (S.left source.old) (S.left source.new)) (task_seen task.now).file out.old out.new result }
{
    match read_all(alloc, source) {
        Ok(input) => on_job(alloc, task, &input, out),
        Err(ReadAll::TooLong) => Err(Failure::Complained(Complaint::Refused(too_long()))),
        Err(ReadAll::Fault) => Err(Failure::Stopped(Stop::ReadFault)),
        Err(ReadAll::NoMemory) => Err(Failure::Stopped(Stop::NoMemory)),
    }
}

// The refusal of an input that is longer than it may be.
fn too_long() -> Refusal
    ensures { result ≡ e_rule 3 (record { line = 1; col = 1 }) }
{
    Refusal::e(3, Place::START)
}
