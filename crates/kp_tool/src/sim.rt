// `sim N`: a run of the pipelined machine of a job.
ghost use Rattle.std.specs.Prelude.{◌≡◌, IfOk};
ghost use Rattle.kp_sched.specs.Rows.{rows_seen};
ghost use Rattle.kp_words.specs.declared.commands.JobCommand.TheVariants.{Sim};
ghost use Rattle.kp_run.specs.Boards.{due_behind};
ghost use Rattle.kp_report.specs.Runs.{run_text, sim_text};
ghost use Rattle.kp_tool.specs.{Due.DueOfJob, Ends.Ends};

use crate::failure::Failure;
use crate::outcome::{Outcome, finish};
use kp_base::{NoMemory, Sink, SinkFault};
use kp_frontend::Accepted;
use kp_report::write_board;
use kp_run::laws::a_run_shows_the_pipeline;
use kp_run::{Board, board_shown};
use kp_synth::synth;
use std::alloc::Global;

/// `sim N`: runs the pipelined machine of a job over `count` cycles, and writes its rows, the counts, and the values after them.
pub fn sim<K: Sink>(alloc: Global, count: u32, job: &Accepted, sink: &mut K) -> Result<u8, Failure>
    ensures { Ends K.held K.faults ⊥ (DueOfJob (Sim count) job.now.design.job) sink.old sink.new result }
{
    let board = simulated(alloc, count, job)?;
    finish(board, sink)
}

// The run of the job's pipelined machine over `count` cycles, and the values of the sequential machine that are printed after it. Its netlist is
// dropped on return. The only error is out of memory.
fn simulated(alloc: Global, count: u32, job: &Accepted) -> Result<Board<'_>, NoMemory>
    ensures { IfOk result (λ b. run_text b.design.now.job (rows_seen b.design.now.job.stages.value b.cycles.rows.items)
        (due_behind b.design.now.job b.cycles.rows.items) ≡ sim_text count job.now.design.job) }
{
    // The invariant of the type, for the proof only.
    let _kept = job.design.job();
    let net = synth(alloc, &job.design, &job.sections.start)?;
    a_run_shows_the_pipeline(job);
    board_shown(alloc, job, &net, count)
}

impl Outcome for Board<'_> {
    ghost status = { λ _. 0 };

    ghost text = { λ b. run_text b.design.now.job (rows_seen b.design.now.job.stages.value b.cycles.rows.items)
        (due_behind b.design.now.job b.cycles.rows.items) };

    fn write<K: Sink>(self, sink: &mut K) -> Result<u8, SinkFault> {
        write_board(&self, sink)?;
        Ok(0)
    }
}
