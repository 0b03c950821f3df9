// A timeline that runs cycle by cycle.
ghost use Rattle.std.specs.Prelude.{◌≡◌, ℕ, ◌-◌, ◌≤◌, ◌<◌, ◌^◌, [], IfOk, None, length, get_or, set, unwrap_or, false};
ghost use Rattle.kp_stage.specs.Counts.{summary_of};
ghost use Rattle.kp_stage.specs.Start.{IsStartOf};
ghost use Rattle.kp_machine.specs.Slots.{samples_of};
ghost use Rattle.kp_seq.specs.Running.{state};
ghost use Rattle.kp_machine.specs.Words.{after_one};
ghost use Rattle.kp_seq.specs.Recorded.{record_of};
ghost use Rattle.kp_sched.specs.Rows.{bit_of};
ghost use Rattle.kp_sites.specs.Reports.{HasRoom, nothing_recorded};
ghost use Rattle.kp_timing.specs.Timed.{IsPlain, IsOpened, IsCycle, hold_of};
ghost use Rattle.kp_timing.specs.inner.Kept.{Advances};
ghost use Rattle.kp_timing.specs.inner.Deciding.{record_in, is_full, moves_by, fetched};

use crate::masks::mask_of;
use crate::movement::{Found, Pipeline, find, move_on};
use kp_base::{NoMemory, Row};
use kp_seq::SeqMachine;
use kp_sites::{Reported, Sites};
use kp_stage::{Design, Start};
use std::alloc::Global;
use std::marker::Model;

/// A timeline, specified by its job and start state, the number of its cycles, the instructions in its stages, and the stages that waited in the last
/// cycle. The sequential machine runs ahead of it: an instruction is executed when it enters stage 0.
pub struct Timeline<'a> {
    design: &'a Design,
    start: &'a Start,
    machine: SeqMachine<'a>,
    sites: Sites,
    held: Pipeline,
    waits: u16,
    cycles: u64,
}

impl Drop for Timeline<'_> {
    fn drop(self) {
        let Timeline {
            design: _,
            start: _,
            machine,
            sites,
            held,
            waits: _,
            cycles: _,
        } = self;
        drop(machine);
        drop(sites);
        drop(held);
    }
}

impl<'a> Model for Timeline<'a> {
    ghost use Rattle.std.specs.Coded.{codes};
    ghost use Rattle.kp_ast.specs.contracts.tree.ExprKind as e;
    ghost use Rattle.kp_timing.specs.Timed.{Timed};
    ghost use Rattle.kp_timing.specs.inner.Kept.{IsKept};

    ghost Value = { Timed };

    ghost coded = { Prim.hlevel (codes, e.the_row.coded) };

    ghost view = { λ t. record { job = t.design.now.job; start = t.start.now; cycles = t.cycles; hold = t.held.hold; waits = t.waits } };

    ghost invariant = { λ t. IsKept t.design.now.job t.start.now t.cycles t.machine t.sites t.held };
}

impl<'a> Timeline<'a> {
    /// The timeline of a design without guesses and samples from a start state: stage 0 contains instruction 0. All memory is allocated here; the
    /// only error is out of memory.
    pub fn open(alloc: Global, d: &'a Design, start: &'a Start) -> Result<Timeline<'a>, NoMemory>
        requires suits { IsStartOf d.now.job start.now }
        requires plain { IsPlain d.now.job }
        ensures { IfOk result (λ t. IsOpened d.now.job start.now t) }
    {
        // The invariant of the type, for the proof only.
        let _kept = d.job();
        let sites = Sites::of(alloc, d)?;
        let mut machine = SeqMachine::open(alloc, d, start)?;
        let summary = d.summary();
        let mut flights = flights(alloc, sites.stages(), summary.reads, summary.results)?;
        run_next(&mut machine, flights.as_mut_slice());
        let mut hold = [None; 12];
        hold[0] = Some(0);
        Ok(Timeline {
            design: d,
            start,
            machine,
            sites,
            held: Pipeline { hold, flights },
            waits: 0,
            cycles: 0,
        })
    }

    /// Runs one cycle under a stall word, whose bit k stalls stage k, and returns its row: the mask of the stages that contain an instruction, the
    /// mask of those that move it on, and 0. Allocates nothing.
    pub fn cycle(&mut self, ext: u16) -> Row
        requires { self.old.cycles < 2 ^ 32 }
        ensures { IsCycle self.old ext result self.new }
    {
        let stages = self.sites.stages();
        let found = find(&self.sites, &self.held, ext);
        let row = row_of(&self.held, &found, stages);
        advance(&mut self.machine, &mut self.held, &found, stages);
        self.waits = mask_of(&found.waits);
        self.cycles += 1;
        row
    }

    /// The number of stages.
    pub fn stages(&self) -> u8
        ensures stages { result ≡ self.now.job.stages.value }
        ensures some { 2 ≤ result }
        ensures few { result ≤ 12 }
    {
        self.sites.stages() as u8
    }

    /// The number of the instruction in stage k, or `None` exactly if the stage is empty.
    pub fn at(&self, k: u8) -> Option<u64>
        requires { k < self.now.job.stages.value }
        ensures { result ≡ hold_of self.now k }
    {
        self.held.number(usize::from(k))
    }

    /// The mask of the stages that contained an instruction and waited in the last cycle: bit k belongs to stage k. Before the first cycle it is 0.
    pub fn waits(&self) -> u16
        ensures { result ≡ self.now.waits }
    {
        self.waits
    }
}

// Empty records for an instruction in each stage.
fn flights(
    alloc: Global,
    stages: usize,
    reads: u32,
    results: u32,
) -> Result<Vec<Reported>, NoMemory>
    ensures few_reads { reads < 2 ^ 32 }
    ensures few_results { results < 2 ^ 32 }
    ensures count { IfOk result (λ fs. length fs.items ≡ stages) }
    ensures reads { IfOk result (λ fs. (k : ℕ) → k < stages → length (get_or fs.items k nothing_recorded).reads ≡ reads) }
    ensures writes { IfOk result (λ fs. (k : ℕ) → k < stages → length (get_or fs.items k nothing_recorded).writes ≡ results) }
    ensures settings { IfOk result (λ fs. (k : ℕ) → k < stages → length (get_or fs.items k nothing_recorded).settings ≡ results) }
{
    let mut flights = Vec::new(alloc);
    while flights.len() < stages {
        let flight = Reported::new(alloc, reads as usize, results as usize)?;
        flights.push(flight)?;
    }
    Ok(flights)
}

// The row of a cycle in which these stages are blocked.
fn row_of(held: &Pipeline, found: &Found, stages: usize) -> Row
    requires hold { length held.now.hold ≡ 12 }
    requires few { stages ≤ 12 }
    ensures full { (k : ℕ) → k < stages → bit_of result.full k ≡ is_full held.now k }
    ensures ue { (k : ℕ) → k < stages → bit_of result.ue k ≡ moves_by held.now found.now.blocked k }
    ensures no_more_full { (k : ℕ) → stages ≤ k → bit_of result.full k ≡ false }
    ensures no_more_ue { (k : ℕ) → stages ≤ k → bit_of result.ue k ≡ false }
    ensures back { result.back ≡ 0 }
{
    let mut full = [false; 12];
    let mut ue = [false; 12];
    for k in 0..stages {
        full[k] = held.is_full(k);
        ue[k] = found.moves(held, k);
    }
    Row {
        full: mask_of(&full),
        ue: mask_of(&ue),
        back: 0,
    }
}

// Moves the instructions on, and if that of stage 0 moves, fetches the next one.
fn advance(machine: &mut SeqMachine, held: &mut Pipeline, found: &Found, stages: usize)
    requires samples { samples_of machine.old.job.decls ≡ [] }
    requires hold { length held.old.hold ≡ 12 }
    requires flights { length held.old.recorded ≡ stages }
    requires some { 1 ≤ stages }
    requires few { stages ≤ 12 }
    requires room { (k : ℕ) → k < stages → HasRoom machine.old.job (record_in held.old k) }
    requires reads { (summary_of machine.old.job).reads < 2 ^ 32 }
    requires results { (summary_of machine.old.job).results < 2 ^ 32 }
    requires parts { length machine.old.job.blocks ≡ machine.old.job.stages.value }
    requires small { unwrap_or (get_or held.old.hold 0 None) 0 < 2 ^ 64 - 1 }
    ensures { Advances machine.old held.old found.now.blocked stages machine.new held.new }
{
    let is_next = found.moves(held, 0);
    move_on(held, &found.blocked, stages);
    if is_next {
        fetch(machine, held);
    }
}

// Stage 0 receives the next instruction, which the machine executes.
fn fetch(machine: &mut SeqMachine, held: &mut Pipeline)
    requires samples { samples_of machine.old.job.decls ≡ [] }
    requires hold { length held.old.hold ≡ 12 }
    requires flights { 1 ≤ length held.old.recorded }
    requires room { HasRoom machine.old.job (record_in held.old 0) }
    requires reads { (summary_of machine.old.job).reads < 2 ^ 32 }
    requires results { (summary_of machine.old.job).results < 2 ^ 32 }
    requires parts { length machine.old.job.blocks ≡ machine.old.job.stages.value }
    requires small { unwrap_or (get_or held.old.hold 0 None) 0 < 2 ^ 64 - 1 }
    ensures job { machine.new.job ≡ machine.old.job }
    ensures state { state machine.new ≡ after_one machine.old.job (state machine.old) [] }
    ensures recorded { machine.new.last ≡ record_of machine.old.job (state machine.old) (λ x. 0) }
    ensures held { held.new ≡ fetched held.old machine.new.last }
{
    run_next(machine, held.flights.as_mut_slice());
    let newest = held.hold[0].unwrap_or(0);
    held.hold[0] = Some(newest + 1);
}

// The machine executes the next instruction, and what it reports is stored for stage 0.
fn run_next(machine: &mut SeqMachine, flights: &mut [Reported])
    requires samples { samples_of machine.old.job.decls ≡ [] }
    requires flights { 1 ≤ length flights.old }
    requires room { HasRoom machine.old.job (get_or flights.old 0 nothing_recorded) }
    requires reads { (summary_of machine.old.job).reads < 2 ^ 32 }
    requires results { (summary_of machine.old.job).results < 2 ^ 32 }
    requires parts { length machine.old.job.blocks ≡ machine.old.job.stages.value }
    ensures job { machine.new.job ≡ machine.old.job }
    ensures state { state machine.new ≡ after_one machine.old.job (state machine.old) [] }
    ensures recorded { machine.new.last ≡ record_of machine.old.job (state machine.old) (λ x. 0) }
    ensures flights { flights.new ≡ set flights.old 0 machine.new.last }
{
    machine.step();
    flights[0].take(machine);
}
