// A job that is run.
ghost use Rattle.std.specs.Prelude.{◌≡◌, ◌<◌, ◌≤◌, ◌^◌, ◌++◌, [], if◌then◌else◌, length, All, IfOk, IfSome, map};
ghost use Rattle.kp_directive.specs.Directives.{directives_of};
ghost use Rattle.kp_seq.specs.Running.{state};
ghost use Rattle.kp_until.specs.{Expected.IsCheck, Expected.script_of};
ghost use Rattle.kp_until_run.specs.Missed.{end_of};
ghost use Rattle.kp_runner.specs.Words.{settings_seen, text_of};
ghost use Rattle.kp_runner.specs.Texts.{end_line, end_name, end_status, state_text, verdict_text};
ghost use Rattle.kp_runner.specs.Reading.{file_seen, reading_of as specified_of};
ghost use Rattle.kp_runner.specs.Due.{lines_of, DueOfReading, FirstMissed, IsEnd, IsFinal};
ghost use Rattle.kp_runner.specs.inner.{Reading.own_seen, Reading.reading_seen, Reading.IsOf, Saying.IsOfJob};

use crate::answer::{Answer, File, Own};
use crate::reading::{Reading, reading_of};
use crate::request::Settings;
use crate::state::put_state;
use crate::unread::Unread;
use crate::verdict::{put_end, put_verdict};
use kp_base::NoMemory;
use kp_design::Layout;
use kp_frontend::Accepted;
use kp_seq::SeqMachine;
use kp_synth::synth;
use kp_until::Expected;
use kp_until_run::{Ended, Missed, first_missed, run_to};
use std::alloc::Global;

/// What is to be written for a job. The only error is out of memory.
pub(crate) fn of_job(
    alloc: Global,
    settings: &Settings<'_>,
    files: &[File],
    own: &Own<'_>,
    job: &Accepted,
) -> Result<Answer, NoMemory>
    requires within { own.now.end ≤ length own.now.text.now }
    requires few { length own.now.text.now ≤ 16777216 }
    ensures { IfOk result (λ a. DueOfReading job.now.design.job (settings_seen settings.now)
        (specified_of job.now.design.job (settings_seen settings.now) (own_seen own.now) (directives_of own.now.text.now own.now.end) (map file_seen files.now))
        a.status a.text.items) }
{
    let layout = Layout::of(alloc, &job.design)?;
    match reading_of(alloc, &layout, settings, own, files) {
        Ok(reading) => run(alloc, settings, job, &layout, &reading),
        Err(Unread::Refused(answer)) => Ok(answer),
        Err(Unread::NoMemory) => Err(NoMemory),
    }
}

// Runs a job.
fn run(
    alloc: Global,
    settings: &Settings<'_>,
    job: &Accepted,
    layout: &Layout<'_>,
    reading: &Reading,
) -> Result<Answer, NoMemory>
    requires layout { layout.now ≡ job.now.design.job }
    requires fit { IsOf layout.now reading.now }
    ensures { IfOk result (λ a. IsEnd job.now.design.job (settings_seen settings.now) (reading_seen reading.now) a.status a.text.items) }
{
    // The invariant of the type, for the proof only.
    let _kept = job.design.job();
    let net = synth(alloc, &job.design, &job.sections.start)?;
    let ended = run_to(alloc, job, &net, reading.untils.as_slice(), settings.limit)?;
    let first = SeqMachine::open(alloc, &job.design, &job.sections.start)?;
    let missed = missed_in(layout, &ended, reading.scripts.as_slice());
    let status = end_status(ended.which, &missed);
    let text = end_text(alloc, settings, layout, reading, &first, &ended, &missed)?;
    Ok(Answer { status, text })
}

// What is printed of the end of a run.
#[tactic(auto, using(std::proofs::Common::append_assoc))]
fn end_text(
    alloc: Global,
    settings: &Settings<'_>,
    layout: &Layout<'_>,
    reading: &Reading,
    first: &SeqMachine<'_>,
    ended: &Ended<'_>,
    missed: &Option<Missed>,
) -> Result<Vec<u8>, NoMemory>
    requires first { first.now.job ≡ layout.now }
    requires last { ended.now.contents.job ≡ layout.now }
    requires few { ended.now.retired < 2 ^ 32 }
    requires fit { IsOf layout.now reading.now }
    requires missed { IfSome missed.now (IsOfJob layout.now) }
    ensures { IfOk result (λ text. text.items ≡ end_line (end_name (settings_seen settings.now).until ended.now.which) ended.now.retired ended.now.cycles
        ++ ((if settings.now.quiet then [] else state_text layout.now (state first.now) (state ended.now.contents) (reading_seen reading.now).only)
        ++ verdict_text layout.now (lines_of (reading_seen reading.now).scripts) ended.now.retired ended.now.cycles missed.now)) }
{
    let lines = lines_of(reading.scripts.as_slice())?;
    let name = end_name(settings.until.as_slice(), ended.which);
    let mut text = Vec::new(alloc);
    put_end(&mut text, name, ended.retired, ended.cycles)?;
    if !settings.quiet {
        put_state(&mut text, layout, first, &ended.contents, &reading.only)?;
    }
    put_verdict(
        &mut text,
        layout,
        lines,
        ended.retired,
        ended.cycles,
        missed,
    )?;
    Ok(text)
}

// How many lines expect something.
fn lines_of(scripts: &[Expected]) -> Result<usize, NoMemory>
    ensures { IfOk result (λ n. n ≡ lines_of (map script_of scripts.now)) }
{
    match scripts {
        [first, rest @ ..] => first.lines.checked_add(lines_of(rest)?).ok_or(NoMemory),
        [] => Ok(0),
    }
}

// The first expectation that isn't met.
fn missed_in(layout: &Layout<'_>, ended: &Ended<'_>, scripts: &[Expected]) -> Option<Missed>
    requires job { ended.now.contents.job ≡ layout.now }
    requires scripts { All (λ e. All (IsCheck layout.now) e.checks.items) scripts.now }
    ensures first { FirstMissed layout.now (map script_of scripts.now) (end_of ended.now.contents ended.now.retired ended.now.cycles) result }
    ensures of_job { IfSome result (IsOfJob layout.now) }
{
    match scripts {
        [script, rest @ ..] => {
            let checks = script.checks.as_slice();
            let missed = first_missed(layout, &ended.contents, ended.retired, ended.cycles, checks);
            if missed.is_some() {
                return missed;
            }
            missed_in(layout, ended, rest)
        }
        [] => None,
    }
}

// What ended the run.
fn end_name<'w>(words: &[&'w String], which: Option<usize>) -> &'w [u8]
    ensures { result.now ≡ end_name (map text_of words.now) which }
{
    match which {
        Some(k) if k < words.len() => words[k].as_bytes(),
        Some(_) => b"halt",
        None => b"limit",
    }
}

fn end_status(which: Option<usize>, missed: &Option<Missed>) -> u8
    ensures status { result ≡ end_status which missed.now }
    ensures definite { IsFinal result }
    ensures low { result ≤ 8 }
{
    if missed.is_some() {
        7
    } else if which.is_some() {
        0
    } else {
        8
    }
}
