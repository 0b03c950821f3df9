//! The sequential machine, with what it reported of the last instructions.
ghost use Rattle.std.specs.Prelude.{◌≡◌, ℕ, ◌+◌, ◌<◌, ◌≤◌, ◌^◌, IfOk, length, get_or, set};
ghost use Rattle.kp_stage.specs.Counts.{summary_of};
ghost use Rattle.kp_stage.specs.Start.{AreSamples, IsStartOf, start_of};
ghost use Rattle.kp_machine.specs.Machine.{values_in};
ghost use Rattle.kp_sites.specs.Sites.{sited};
ghost use Rattle.kp_seq.specs.Running.{state};
ghost use Rattle.kp_machine.specs.Words.{after_one};
ghost use Rattle.kp_stalls.specs.Occupants.{report_of, nothing};
ghost use Rattle.kp_stalls.specs.Windows.{Follows, HasRoom, IsKept};

use crate::flight::Flight;
use kp_base::NoMemory;
use kp_bits::Bits;
use kp_seq::SeqMachine;
use kp_sites::Sites;
use kp_stage::{Design, Start};
use std::alloc::Global;
use std::marker::Model;

/// A sequential machine that runs, the tables of its job, and what it reported of the last sixteen instructions.
pub struct Window<'a> {
    machine: SeqMachine<'a>,
    sites: Sites,
    next: u64,
    ring: Vec<Flight>,
}

impl Drop for Window<'_> {
    fn drop(self) {
        let Window {
            machine,
            sites,
            next: _,
            ring,
        } = self;
        drop(machine);
        drop(sites);
        drop(ring);
    }
}

impl<'a> Model for Window<'a> {
    ghost use Rattle.std.specs.Coded.{codes};
    ghost use Rattle.kp_ast.specs.contracts.tree.ExprKind as e;
    ghost use Rattle.kp_stalls.specs.Windows.{IsKept, Windowed};

    ghost Value = { Windowed };

    ghost coded = { Prim.hlevel (codes, e.the_row.coded) };

    ghost view = { λ w. record { machine = w.machine; sites = w.sites; next = w.next; ring = w.ring.items } };

    ghost invariant = { λ w. IsKept w.machine.job (record { machine = w.machine; sites = w.sites; next = w.next; ring = w.ring.items }) };
}

impl<'a> Window<'a> {
    /// The machine of a design before its first instruction. All memory is allocated here; the only error is out of memory.
    pub fn open(alloc: Global, d: &'a Design, start: &Start) -> Result<Window<'a>, NoMemory>
        requires suits { IsStartOf d.now.job start.now }
        requires begins { start.now ≡ start_of d.now.job }
        ensures job { IfOk result (λ w. w.machine.job ≡ d.now.job) }
        ensures sites { IfOk result (λ w. w.sites ≡ sited d.now.job) }
        ensures next { IfOk result (λ w. w.next ≡ 0) }
        ensures follows { IfOk result (λ w. (given : ℕ → ℕ → ℕ) → Follows d.now.job given w) }
    {
        // The invariant of the type, for the proof only.
        let _kept = d.job();
        let sites = Sites::of(alloc, d)?;
        let machine = SeqMachine::open(alloc, d, start)?;
        let ring = ring_of(alloc, d, sites.reads().len())?;
        Ok(Window {
            machine,
            sites,
            next: 0,
            ring,
        })
    }

    /// Runs the next instruction with these sample values. Allocates nothing.
    pub fn step(&mut self, row: &[Bits])
        requires samples { AreSamples self.old.machine.job.decls row.now }
        requires small { self.old.next < 2 ^ 32 }
        ensures job { self.new.machine.job ≡ self.old.machine.job }
        ensures sites { self.new.sites ≡ self.old.sites }
        ensures next { self.new.next ≡ self.old.next + 1 }
        ensures follows { (given : ℕ → ℕ → ℕ) → given self.old.next ≡ values_in row.now
            → Follows self.old.machine.job given self.old → Follows self.old.machine.job given self.new }
    {
        let place = (self.next % 16) as usize;
        run_next(
            &mut self.machine,
            &self.sites,
            self.ring.as_mut_slice(),
            place,
            row,
        );
        self.next += 1;
    }

    /// How many instructions have run.
    pub fn next(&self) -> u64
        ensures { result ≡ self.now.next }
    {
        self.next
    }

    /// The tables of the job.
    pub fn sites(&self) -> &Sites
        ensures { result.now ≡ self.now.sites }
    {
        &self.sites
    }

    /// What was reported of the last sixteen instructions, each under its number modulo 16.
    pub(crate) fn ring(&self) -> &[Flight]
        ensures ring { result.now ≡ self.now.ring }
        ensures count { length result.now ≡ 16 }
    {
        self.ring.as_slice()
    }
}

// Empty records for sixteen instructions.
fn ring_of(alloc: Global, d: &Design, reads: usize) -> Result<Vec<Flight>, NoMemory>
    requires { reads ≡ length (sited d.now.job).reads }
    ensures count { IfOk result (λ ring. length ring.items ≡ 16) }
    ensures room { IfOk result (λ ring. (j : ℕ) → j < 16 → HasRoom d.now.job (get_or ring.items j nothing)) }
    ensures few_reads { (summary_of d.now.job).reads < 2 ^ 32 }
    ensures few_results { (summary_of d.now.job).results < 2 ^ 32 }
{
    let summary = d.summary();
    let mut ring = Vec::new(alloc);
    while ring.len() < 16 {
        let flight = Flight::new(
            alloc,
            summary.reads as usize,
            summary.results as usize,
            reads,
        )?;
        ring.push(flight)?;
    }
    Ok(ring)
}

// The machine executes the next instruction, and what it reports is stored at a place.
#[tactic(auto, using(crate::proofs::Windows::targets_many))]
fn run_next(
    machine: &mut SeqMachine<'_>,
    sites: &Sites,
    ring: &mut [Flight],
    place: usize,
    row: &[Bits],
)
    requires samples { AreSamples machine.old.job.decls row.now }
    requires place { place < length ring.old }
    requires room { HasRoom machine.old.job (get_or ring.old place nothing) }
    requires sites { sites.now ≡ sited machine.old.job }
    requires targets { length sites.now.writers < 2 ^ 32 }
    requires few_reads { (summary_of machine.old.job).reads < 2 ^ 32 }
    requires few_results { (summary_of machine.old.job).results < 2 ^ 32 }
    requires blocks { length machine.old.job.blocks ≡ machine.old.job.stages.value }
    ensures job { machine.new.job ≡ machine.old.job }
    ensures state { state machine.new ≡ after_one machine.old.job (state machine.old) row.now }
    ensures ring { ring.new ≡ set ring.old place (report_of machine.old.job (state machine.old) (values_in row.now)) }
{
    ring[place].run(machine, sites.reads(), sites.targets(), row);
}
