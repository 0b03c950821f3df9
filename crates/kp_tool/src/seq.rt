// `seq N`: a run of the sequential machine of a job.
ghost use Rattle.std.specs.Prelude.{◌≡◌, ◌<◌, ◌^◌, ℕ, length, IfOk, OnOk};
ghost use Rattle.kp_pipeline.specs.Sequential.{seq as runs};
ghost use Rattle.kp_stage.specs.Start.{AreSamples, input};
ghost use Rattle.kp_machine.specs.Machine.{machine_of, sequential, values_in};
ghost use Rattle.kp_machine.specs.Slots.{targets_of};
ghost use Rattle.kp_seq.specs.Running.{state};
ghost use Rattle.kp_words.specs.declared.commands.JobCommand.TheVariants.{Seq};
ghost use Rattle.kp_image.specs.Feeds.{row_in};
ghost use Rattle.kp_report.specs.States.{text_after};
ghost use Rattle.kp_tool.specs.{Due.DueOfJob, Ends.Ends};

use crate::failure::Failure;
use crate::outcome::{Outcome, finish};
use kp_base::{NoMemory, Sink, SinkFault};
use kp_frontend::Accepted;
use kp_image::InputPattern;
use kp_report::write_run_after;
use kp_seq::SeqMachine;
use kp_stage::Design;
use std::alloc::Global;

/// `seq N`: executes `count` instructions of a job on its sequential machine, and writes the state after them.
pub fn seq<K: Sink>(alloc: Global, count: u32, job: &Accepted, sink: &mut K) -> Result<u8, Failure>
    ensures { Ends K.held K.faults ⊥ (DueOfJob (Seq count) job.now.design.job) sink.old sink.new result }
{
    let run = run_of(alloc, count, job)?;
    finish(run, sink)
}

// The machine of a design that has executed `count` instructions.
#[derive(Drop)]
struct Run<'a> {
    count: u32,
    design: &'a Design,
    machine: SeqMachine<'a>,
    ghost same: { targets_of machine.job.decls ≡ targets_of design.now.job.decls },
    ghost few: { length design.now.job.decls < 2 ^ 32 },
}

// The machine of a job after `count` instructions, where instruction i reads the samples of cycle i. The only error is out of memory.
#[tactic(auto, using(crate::proofs::Running::run_is_sequential))]
fn run_of(alloc: Global, count: u32, job: &Accepted) -> Result<Run<'_>, NoMemory>
    ensures count { IfOk result (λ r. r.count ≡ count) }
    ensures job { IfOk result (λ r. r.design.now.job ≡ job.now.design.job) }
    ensures state { IfOk result (λ r. state r.machine ≡ sequential job.now.design.job (λ i. values_in (input job.now.design.job i)) count) }
{
    let design = &job.design;
    // The invariant of the type, for the proof only.
    let _kept = design.job();
    let mut machine = SeqMachine::open(alloc, design, &job.sections.start)?;
    advance(alloc, &mut machine, &job.sections.inputs, count)?;
    Ok(Run {
        count,
        design,
        machine,
    })
}

// Executes instructions up to the count.
#[tactic(auto, using(kp_run::proofs::Machines::one_step))]
fn advance(
    alloc: Global,
    machine: &mut SeqMachine<'_>,
    inputs: &InputPattern,
    count: u32,
) -> Result<(), NoMemory>
    requires { (cycle : ℕ) → AreSamples machine.old.job.decls (row_in inputs.now cycle) }
    ensures job { OnOk result (machine.new.job ≡ machine.old.job) }
    ensures state { OnOk result (state machine.new ≡ runs (machine_of machine.old.job) (state machine.old) (λ i. values_in (row_in inputs.now i)) count) }
{
    for i in 0..count {
        let row = inputs.row(alloc, u64::from(i))?;
        machine.step_unrecorded(row.as_slice());
    }
    Ok(())
}

impl Outcome for Run<'_> {
    ghost status = { λ _. 0 };

    ghost text = { λ run. text_after run.count run.design.now.job.decls (state run.machine) };

    fn write<K: Sink>(self, sink: &mut K) -> Result<u8, SinkFault> {
        write_run_after(self.count, &self.machine, self.design, sink)?;
        Ok(0)
    }
}
