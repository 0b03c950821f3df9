// From two sources to a status, standard output and standard error.
ghost use Rattle.std.specs.Prelude.{◌≡◌, ◌⊎◌, ℕ, List, Ok, codes, IfOk, MatchResult};
ghost use Rattle.std.specs.Io.KnownBytes.{Appends, Consumes};
ghost use Rattle.kp_base.specs.Causes.{Rose};
ghost use Rattle.kp_view_same.specs.{Comparing.AreSame, Comparing.DueFor, Comparing.DueOfJobs, Comparing.IsDue, Ends.EndsAt, Ends.Prints, Ends.PrintsPart, inner.Inputs.Caused, inner.Inputs.Holds, inner.Inputs.IsShort};
ghost use Rattle.kp_view_same.specs.declared.top.Stop.TheVariants as stop;

use crate::input::{Input, read};
use crate::judged::{Judged, judge_input};
use crate::verdict::{line_of, status_of};
use kp_base::{NoMemory, Sink, SinkFault, Source, write_all};
use kp_frontend::Accepted;
use kp_image::laws::a_start_state_fits;
use kp_same::compare;
use kp_same::laws::the_same_run_alike;
use kp_view_explain::Explanation;
use std::alloc::Global;

/// One of the two sources.
#[derive(Clone, Copy, PartialEq, Eq)]
pub enum Side {
    First,
    Second,
}

/// Why there is no status, or not all was written.
#[derive(Clone, Copy)]
pub enum Stop {
    Unread(Side),
    Unwritten,
    NoMemory,
}

impl From<NoMemory> for Stop {
    ghost from_gives = { λ _ s. s ≡ stop.NoMemory };

    fn from(_: NoMemory) -> Self {
        Stop::NoMemory
    }
}

/// Says whether the jobs of two sources are the same, under the names of their files. The status is 0 where they were shown to be the same, 7 where they
/// weren't, and 2 where one violates a rule, which is said on standard error.
#[tactic(auto, using(crate::proofs::Ending::stopped, crate::proofs::Ending::same_at))]
pub fn same_sources<S: Source, T: Source, K: Sink, E: Sink>(
    alloc: Global,
    file: &[u8],
    first: &mut S,
    other: &[u8],
    second: &mut T,
    out: &mut K,
    err: &mut E,
) -> Result<u8, Stop>
    // The status and the text are those for the bytes of the sources; a failure only if a source or a sink failed, and out of memory with nothing written.
    ensures ends { EndsAt K.held E.held K.faults E.faults (Rose (S.faults first.old) (S.faults first.new)) (Rose (T.faults second.old) (T.faults second.new))
        (IsDue file.now other.now (S.left first.old) (S.left first.new) (T.left second.old) (T.left second.new)) out.old out.new err.old err.new result }

    // The headline. After status 0 the jobs run alike.
    ensures same { result ≡ Ok 0 → (one two : List ℕ) × Consumes (S.left first.old) (S.left first.new) one
        × Consumes (T.left second.old) (T.left second.new) two × Appends (K.held out.old) (K.held out.new) (codes "same\n") × AreSame one two }
{
    let said = answer(alloc, file, first, other, second)?;
    match print(&said, out, err) {
        Ok(()) => Ok(said.status),
        Err(_) => Err(Stop::Unwritten),
    }
}

// Writes what is said: a violated rule to standard error, a verdict to standard output.
#[tactic(auto, using(crate::proofs::Ending::on_error, crate::proofs::Ending::on_output))]
fn print<K: Sink, E: Sink>(said: &Explanation, out: &mut K, err: &mut E) -> Result<(), SinkFault>
    ensures { MatchResult result (λ u. Prints K.held E.held out.old out.new err.old err.new said.now.status said.now.text.items)
        (λ e. (Rose (K.faults out.old) (K.faults out.new) ⊎ Rose (E.faults err.old) (E.faults err.new))
        × PrintsPart K.held E.held out.old out.new err.old err.new said.now.status said.now.text.items) }
{
    if said.status == 2 {
        write_all(err, said.text.as_slice())
    } else {
        write_all(out, said.text.as_slice())
    }
}

// Reads both sources, and then compares them.
#[tactic(auto, using(crate::proofs::Saying::due_of, crate::proofs::Saying::short_of, crate::proofs::Ending::first_failed, crate::proofs::Ending::second_failed))]
fn answer<S: Source, T: Source>(
    alloc: Global,
    file: &[u8],
    first: &mut S,
    other: &[u8],
    second: &mut T,
) -> Result<Explanation, Stop>
    ensures { MatchResult result
        (λ e. IsDue file.now other.now (S.left first.old) (S.left first.new) (T.left second.old) (T.left second.new) e.status e.text.items)
        (Caused (Rose (S.faults first.old) (S.faults first.new)) (Rose (T.faults second.old) (T.faults second.new))) }
{
    let one = read(alloc, Side::First, first)?;
    let two = read(alloc, Side::Second, second)?;
    Ok(of_inputs(alloc, file, &one, other, &two)?)
}

// What is said of two inputs: a rule that the first violates, or else the second, or a verdict.
#[tactic(auto, using(crate::proofs::Saying::first_refused, crate::proofs::Saying::second_refused, crate::proofs::Saying::none_refused))]
fn of_inputs(
    alloc: Global,
    file: &[u8],
    first: &Input,
    other: &[u8],
    second: &Input,
) -> Result<Explanation, NoMemory>
    requires first { IsShort first.now }
    requires second { IsShort second.now }
    ensures { IfOk result (λ e. (one two : List ℕ) → Holds first.now one → Holds second.now two → DueFor file.now other.now one two e.status e.text.items) }
{
    let one = judge_input(alloc, file, first)?;
    let two = judge_input(alloc, other, second)?;
    match one {
        Judged::Refused(said) => Ok(said),
        Judged::Job(a) => match two {
            Judged::Refused(said) => Ok(said),
            Judged::Job(b) => of_jobs(alloc, &a, &b),
        },
    }
}

// The verdict on two jobs.
#[tactic(auto, using(crate::proofs::Saying::of_job, crate::proofs::Saying::of_verdict))]
fn of_jobs(alloc: Global, a: &Accepted, b: &Accepted) -> Result<Explanation, NoMemory>
    ensures { IfOk result (λ e. DueOfJobs a.now.design.job b.now.design.job e.status e.text.items) }
{
    a_start_state_fits();
    the_same_run_alike(&b.design);
    let _job = a.design.job();
    let verdict = compare(
        alloc,
        &a.design,
        &a.sections.start,
        &b.design,
        &b.sections.start,
    )?;
    let text = line_of(alloc, &a.design, verdict)?;
    Ok(Explanation {
        status: status_of(verdict),
        text,
    })
}
