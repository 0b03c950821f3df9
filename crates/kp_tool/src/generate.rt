// `gen G N`: a run of the pipelined machine of a generated job.
ghost use Rattle.std.specs.Prelude.{◌≡◌, IfOk};
ghost use Rattle.kp_gen.specs.Generated.{gen_job};
ghost use Rattle.kp_report.specs.Line.{totals_line, gen_text};
ghost use Rattle.kp_tool.specs.{Saying.Says, Ends.Ends};

use crate::failure::Failure;
use crate::outcome::{Outcome, finish};
use kp_base::{NoMemory, Sink, SinkFault};
use kp_frontend::Accepted;
use kp_gen::generated;
use kp_report::{Totals, totals_of, write_totals};
use kp_run::board_shown;
use kp_run::laws::a_run_shows_the_pipeline;
use kp_synth::synth;
use std::alloc::Global;

/// `gen G N`: generates the job of a number, runs its pipelined machine over `count` cycles, and writes the totals of the run.
pub fn generate<K: Sink>(
    alloc: Global,
    number: u64,
    count: u32,
    sink: &mut K,
) -> Result<u8, Failure>
    ensures { Ends K.held K.faults ⊥ (Says 0 (gen_text number count)) sink.old sink.new result }
{
    let job = generated(alloc, number)?;
    let run = summed(alloc, number, count, &job);
    drop(job);
    finish(run?, sink)
}

// The number of a generated job, and the totals of its run.
#[derive(Clone, Copy)]
struct GeneratedRun {
    number: u64,
    totals: Totals,
}

// The run of a generated job's pipelined machine. Its netlist is dropped on return. The only error is out of memory.
fn summed(alloc: Global, number: u64, count: u32, job: &Accepted) -> Result<GeneratedRun, NoMemory>
    requires { job.now.design.job ≡ gen_job number }
    ensures { IfOk result (λ run. totals_line run.number run.totals ≡ gen_text number count) }
{
    // The invariant of the type, for the proof only.
    let _kept = job.design.job();
    let net = synth(alloc, &job.design, &job.sections.start)?;
    a_run_shows_the_pipeline(job);
    let board = board_shown(alloc, job, &net, count)?;
    let totals = totals_of(&board);
    Ok(GeneratedRun { number, totals })
}

impl Outcome for GeneratedRun {
    ghost status = { λ _. 0 };

    ghost text = { λ run. totals_line run.number run.totals };

    fn write<K: Sink>(self, sink: &mut K) -> Result<u8, SinkFault> {
        write_totals(self.number, self.totals, sink)?;
        Ok(0)
    }
}
