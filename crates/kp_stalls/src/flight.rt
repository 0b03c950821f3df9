//! What the sequential machine reported about an instruction.
ghost use Rattle.std.specs.Prelude.{◌≡◌, ◌<◌, ◌≤◌, ◌^◌, None, IfOk, length, get_or, map};
ghost use Rattle.kp_bits.specs.Word.{word};
ghost use Rattle.kp_machine.specs.Slots.{targets_of};
ghost use Rattle.kp_stage.specs.Counts.{summary_of};
ghost use Rattle.kp_stage.specs.Start.{AreSamples};
ghost use Rattle.kp_machine.specs.Machine.{values_in};
ghost use Rattle.kp_seq.specs.Running.{state};
ghost use Rattle.kp_machine.specs.Words.{after_one};
ghost use Rattle.kp_sites.specs.Sites.{sited};
ghost use Rattle.kp_stalls.specs.Windows.{HasRoom};
ghost use Rattle.kp_stalls.specs.Occupants.{report_of, no_value, value_before as value_of_site};

use kp_base::NoMemory;
use kp_bits::Bits;
use kp_seq::SeqMachine;
use kp_sites::{Reported, Site};
use std::alloc::Global;
use std::marker::Model;

/// Its report, and the values that the targets of its reads had before it, each by number.
pub(crate) struct Flight {
    reported: Reported,
    values: Vec<Bits>,
}

impl Drop for Flight {
    fn drop(self) {
        let Flight { reported, values } = self;
        drop(reported);
        drop(values);
    }
}

impl Model for Flight {
    ghost use Rattle.kp_stalls.specs.Occupants.{Report};

    ghost Value = { Report };

    ghost view = { λ f. record { recorded = f.reported; values = f.values.items } };
}

impl Flight {
    /// An empty record for an instruction with the given numbers of reads, of results and of values. The only error is out of memory.
    pub(crate) fn new(
        alloc: Global,
        reads: usize,
        results: usize,
        values: usize,
    ) -> Result<Flight, NoMemory>
        ensures reads { IfOk result (λ f. length f.recorded.reads ≡ reads) }
        ensures writes { IfOk result (λ f. length f.recorded.writes ≡ results) }
        ensures settings { IfOk result (λ f. length f.recorded.settings ≡ results) }
        ensures values { IfOk result (λ f. length f.values ≡ values) }
    {
        Ok(Flight {
            reported: Reported::new(alloc, reads, results)?,
            values: vec![in alloc; zero_bit(); values]?,
        })
    }

    /// What the machine reported.
    pub(crate) fn reported(&self) -> &Reported
        ensures { result.now ≡ self.now.recorded }
    {
        &self.reported
    }

    /// The value of the target of a read before the instruction.
    pub(crate) fn value(&self, number: usize) -> Bits
        ensures { result ≡ get_or self.now.values number no_value }
    {
        if number < self.values.len() {
            self.values[number]
        } else {
            zero_bit()
        }
    }

    /// The machine executes its next instruction, and what it reports is stored here.
    pub(crate) fn run(
        &mut self,
        machine: &mut SeqMachine<'_>,
        sites: &[Site],
        targets: usize,
        row: &[Bits],
    )
        requires samples { AreSamples machine.old.job.decls row.now }
        requires room { HasRoom machine.old.job self.old }
        requires sites { sites.now ≡ (sited machine.old.job).reads }
        requires targets { targets ≡ length (targets_of machine.old.job.decls) }
        requires few { targets < 2 ^ 32 }
        requires few_reads { (summary_of machine.old.job).reads < 2 ^ 32 }
        requires few_results { (summary_of machine.old.job).results < 2 ^ 32 }
        requires blocks { length machine.old.job.blocks ≡ machine.old.job.stages.value }
        ensures job { machine.new.job ≡ machine.old.job }
        ensures state { state machine.new ≡ after_one machine.old.job (state machine.old) row.now }
        ensures report { self.new ≡ report_of machine.old.job (state machine.old) (values_in row.now) }
    {
        self.take_values(machine, sites, targets);
        machine.step_with(row);
        self.take(machine);
    }

    // Copies the values of the targets of the reads, before the instruction.
    fn take_values(&mut self, machine: &SeqMachine, sites: &[Site], targets: usize)
        requires count { length self.old.values ≡ length sites.now }
        requires targets { targets ≡ length (targets_of machine.now.job.decls) }
        requires few { targets < 2 ^ 32 }
        ensures recorded { self.new.recorded ≡ self.old.recorded }
        ensures values { self.new.values ≡ map (value_of_site machine.now.job (state machine.now)) sites.now }
    {
        fill_values(self.values.as_mut_slice(), machine, sites, targets);
    }

    // Copies what a machine reports about its last instruction.
    fn take(&mut self, machine: &SeqMachine)
        requires reads { length self.old.recorded.reads ≡ length machine.now.last.reads }
        requires writes { length self.old.recorded.writes ≡ length machine.now.last.writes }
        requires settings { length self.old.recorded.settings ≡ length machine.now.last.settings }
        requires few_reads { length self.old.recorded.reads < 2 ^ 32 }
        requires few_writes { length self.old.recorded.writes < 2 ^ 32 }
        requires few_settings { length self.old.recorded.settings < 2 ^ 32 }
        ensures recorded { self.new.recorded ≡ machine.now.last }
        ensures values { self.new.values ≡ self.old.values }
    {
        self.reported.take(machine);
    }
}

fn fill_values(values: &mut [Bits], machine: &SeqMachine, sites: &[Site], targets: usize)
    requires count { length values.old ≡ length sites.now }
    requires targets { targets ≡ length (targets_of machine.now.job.decls) }
    requires few { targets < 2 ^ 32 }
    ensures { values.new ≡ map (value_of_site machine.now.job (state machine.now)) sites.now }
{
    for i in 0..values.len() {
        values[i] = value_before(machine, sites[i], targets);
    }
}

// The value of the target of a read at address 0.
fn value_before(machine: &SeqMachine, site: Site, targets: usize) -> Bits
    requires targets { targets ≡ length (targets_of machine.now.job.decls) }
    requires few { targets < 2 ^ 32 }
    ensures { result ≡ value_of_site machine.now.job (state machine.now) site }
{
    if site.target < targets {
        machine.value(site.target as u32, 0)
    } else {
        zero_bit()
    }
}

fn zero_bit() -> Bits
    ensures { result ≡ no_value }
{
    Bits::new(1, 0).unwrap()
}
