// The values that were guessed, from the registers of a netlist that runs again.
ghost use Rattle.std.specs.Prelude.{◌≡◌, ◌<◌, ◌≤◌, OnOk, get_or, length, map};
ghost use Rattle.std.specs.List.{All, list_any};
ghost use Rattle.kp_sites.specs.Sites.{no_site};
ghost use Rattle.kp_synth.specs.Carrying.{Carries};
ghost use Rattle.kp_implements.specs.Shows.{Shows};
ghost use Rattle.kp_synth_registers.specs.Keys.{keys_of};
ghost use Rattle.kp_stalls_run.specs.Runs.{cause_with as cause_with_in, guess_with as guess_with_in, guessed_in, line_with as line_with_in, wrong_with as wrong_with_in};
ghost use Rattle.kp_stalls_run.specs.inner.Replays.{AreTables, HoldsState, names_guess as names_guess_in, names_one, run_at};

use crate::guess_registers::guessed;
use kp_base::NoMemory;
use kp_bits::Bits;
use kp_cycle::Sim;
use kp_design::Layout;
use kp_frontend::Accepted;
use kp_net::Netlist;
use kp_run::laws::a_job_gives_its_own_inputs;
use kp_run::step;
use kp_sites::Sites;
use kp_stalls::{Cause, Guess, Line, Wrong};
use kp_synth::synth;
use kp_synth_registers::Keys;
use std::alloc::Global;

/// Gives each guess that lines name the value that was guessed: a netlist runs again as far as the last of these lines. The only error is out of
/// memory.
pub(crate) fn add_values(alloc: Global, job: &Accepted, lines: &mut [Line]) -> Result<(), NoMemory>
    requires { All (λ (l : Line). l.stage < job.now.design.job.stages.value) lines.old }
    ensures { OnOk result (lines.new ≡ map (line_with_in job.now.design.job) lines.old) }
{
    if !name_guesses(lines) {
        return Ok(());
    }
    // The invariant of the type, for the proof only.
    let _kept = job.design.job();
    let net = synth(alloc, &job.design, &job.sections.start)?;
    add_values_by(alloc, job, &net, lines)
}

fn name_guesses(lines: &[Line]) -> bool
    ensures { result ≡ list_any names_one lines.now }
{
    lines.iter().any(|line| names_guess(line.cause))
}

// Whether a cause names a guess.
fn names_guess(cause: Cause) -> bool
    ensures { result ≡ names_guess_in cause }
{
    match cause {
        Cause::Squashed(wrong) => wrong.guess.is_some(),
        _ => false,
    }
}

// The tables that say which registers hold a guess of a read.
struct Tables<'a> {
    layout: Layout<'a>,
    keys: Keys,
    sites: Sites,
}

impl Drop for Tables<'_> {
    fn drop(self) {
        let Tables {
            layout,
            keys,
            sites,
        } = self;
        drop(layout);
        drop(keys);
        drop(sites);
    }
}

// The same, by a netlist of the job.
fn add_values_by(
    alloc: Global,
    job: &Accepted,
    net: &Netlist,
    lines: &mut [Line],
) -> Result<(), NoMemory>
    requires shows { Shows net.now job.now.design.job }
    requires carries { Carries net.now job.now.design.job }
    requires below { All (λ (l : Line). l.stage < job.now.design.job.stages.value) lines.old }
    ensures { OnOk result (lines.new ≡ map (line_with_in job.now.design.job) lines.old) }
{
    let layout = Layout::of(alloc, &job.design)?;
    let keys = Keys::of(alloc, &layout)?;
    let sites = Sites::of(alloc, &job.design)?;
    let tables = Tables {
        layout,
        keys,
        sites,
    };
    let mut sim = Sim::open_with(alloc, net, 1)?;
    sim.save(0);
    let mut samples = job.sections.inputs.row(alloc, 0)?;
    fill(job, &tables, &mut sim, samples.as_mut_slice(), lines);
    Ok(())
}

// The lines with their values. `room` is a buffer for the values of the samples.
fn fill(
    job: &Accepted,
    tables: &Tables<'_>,
    sim: &mut Sim<'_>,
    room: &mut [Bits],
    lines: &mut [Line],
)
    requires shows { Shows sim.old.net job.now.design.job }
    requires carries { Carries sim.old.net job.now.design.job }
    requires tables { AreTables job.now.design.job tables.now }
    requires at { sim.old ≡ run_at job.now.design.job sim.old.net 0 }
    requires room { length room.old ≡ length job.now.sections.inputs }
    requires below { All (λ (l : Line). l.stage < job.now.design.job.stages.value) lines.old }
    ensures { lines.new ≡ map (line_with_in job.now.design.job) lines.old }
{
    let mut cycle = 0;
    for i in 0..lines.len() {
        lines[i] = filled(job, tables, sim, room, &mut cycle, lines[i]);
    }
}

// A line with its value. `cycle` is the one that was reached.
fn filled(
    job: &Accepted,
    tables: &Tables<'_>,
    sim: &mut Sim<'_>,
    room: &mut [Bits],
    cycle: &mut usize,
    line: Line,
) -> Line
    requires shows { Shows sim.old.net job.now.design.job }
    requires carries { Carries sim.old.net job.now.design.job }
    requires tables { AreTables job.now.design.job tables.now }
    requires at { sim.old ≡ run_at job.now.design.job sim.old.net cycle.old }
    requires room { length room.old ≡ length job.now.sections.inputs }
    requires stage { line.stage < job.now.design.job.stages.value }
    ensures line { result ≡ line_with_in job.now.design.job line }
    ensures at { sim.new ≡ run_at job.now.design.job sim.old.net cycle.new }
    ensures room { length room.new ≡ length room.old }
{
    if !names_guess(line.cause) {
        return line;
    }
    a_job_gives_its_own_inputs(job);
    go_to(job, sim, room, *cycle, line.cycle);
    *cycle = line.cycle;
    line_with(job, tables, sim, line)
}

// Runs to a cycle: on from the one that was reached, or from the first if that is past.
fn go_to(job: &Accepted, sim: &mut Sim<'_>, room: &mut [Bits], from: usize, to: usize)
    requires shows { Shows sim.old.net job.now.design.job }
    requires at { sim.old ≡ run_at job.now.design.job sim.old.net from }
    requires room { length room.old ≡ length job.now.sections.inputs }
    ensures at { sim.new ≡ run_at job.now.design.job sim.old.net to }
    ensures room { length room.new ≡ length room.old }
{
    // The invariant of the type, for the proof only.
    let _kept = job.design.job();
    let start = start_for(job, sim, from, to);
    for cycle in start..to {
        step(sim, &job.sections, room, cycle as u64);
    }
}

// The cycle to run on from: the one that was reached, or the first, whose state is restored.
fn start_for(_job: &Accepted, sim: &mut Sim<'_>, from: usize, to: usize) -> usize
    requires { sim.old ≡ run_at _job.now.design.job sim.old.net from }
    ensures at { sim.new ≡ run_at _job.now.design.job sim.old.net result }
    ensures within { result ≤ to }
{
    if to < from {
        sim.load(0);
        0
    } else {
        from
    }
}

// A line with the value of its guess, by the registers in its cycle.
fn line_with(job: &Accepted, tables: &Tables<'_>, sim: &Sim<'_>, line: Line) -> Line
    requires tables { AreTables job.now.design.job tables.now }
    requires registers { length sim.now.net.parts.regs ≡ length (keys_of job.now.design.job) }
    requires holds { HoldsState job.now.design.job sim.now.state line.cycle }
    requires stage { line.stage < job.now.design.job.stages.value }
    ensures { result ≡ line_with_in job.now.design.job line }
{
    Line {
        cycle: line.cycle,
        number: line.number,
        stage: line.stage,
        cause: cause_with(job, tables, sim, line.cycle, line.stage, line.cause),
    }
}

fn cause_with(
    job: &Accepted,
    tables: &Tables<'_>,
    sim: &Sim<'_>,
    cycle: usize,
    stage: usize,
    cause: Cause,
) -> Cause
    requires tables { AreTables job.now.design.job tables.now }
    requires registers { length sim.now.net.parts.regs ≡ length (keys_of job.now.design.job) }
    requires holds { HoldsState job.now.design.job sim.now.state cycle }
    requires stage { stage < job.now.design.job.stages.value }
    ensures { result ≡ cause_with_in job.now.design.job cycle stage cause }
{
    match cause {
        Cause::Squashed(wrong) => Cause::Squashed(Wrong {
            last: wrong.last,
            guess: wrong_with(job, tables, sim, cycle, stage, wrong.guess),
        }),
        other => other,
    }
}

// A guess with its value, if it is wrong.
fn wrong_with(
    job: &Accepted,
    tables: &Tables<'_>,
    sim: &Sim<'_>,
    cycle: usize,
    stage: usize,
    guess: Option<Guess>,
) -> Option<Guess>
    requires tables { AreTables job.now.design.job tables.now }
    requires registers { length sim.now.net.parts.regs ≡ length (keys_of job.now.design.job) }
    requires holds { HoldsState job.now.design.job sim.now.state cycle }
    requires stage { stage < job.now.design.job.stages.value }
    ensures { result ≡ wrong_with_in job.now.design.job cycle stage guess }
{
    let guess = guess?;
    guess_with(
        guess,
        guessed_for(job, tables, sim, cycle, stage, guess.read),
    )
}

// The value that a stage holds as its guess of a read.
fn guessed_for(
    job: &Accepted,
    tables: &Tables<'_>,
    sim: &Sim<'_>,
    _cycle: usize,
    stage: usize,
    read: usize,
) -> Option<Bits>
    requires tables { AreTables job.now.design.job tables.now }
    requires registers { length sim.now.net.parts.regs ≡ length (keys_of job.now.design.job) }
    requires holds { HoldsState job.now.design.job sim.now.state _cycle }
    requires stage { stage < job.now.design.job.stages.value }
    ensures { result ≡ guessed_in job.now.design.job _cycle stage read }
{
    // The invariant of the type, for the proof only.
    let _kept = job.design.job();
    let register = target_of(&tables.sites, read);
    guessed(&tables.layout, &tables.keys, sim, stage, register)
}

// The number of the target of a read.
fn target_of(sites: &Sites, read: usize) -> usize
    ensures { result ≡ (get_or sites.now.reads read no_site).target }
{
    let reads = sites.reads();
    if read < reads.len() {
        reads[read].target
    } else {
        0
    }
}

fn guess_with(guess: Guess, value: Option<Bits>) -> Option<Guess>
    ensures { result ≡ guess_with_in guess value }
{
    let value = value?;
    if value.value() == guess.value.value() {
        return None;
    }
    Some(Guess {
        read: guess.read,
        guessed: Some(value),
        value: guess.value,
        producer: guess.producer,
    })
}
