// `stalls`: why instructions wait and are squashed.
ghost use Rattle.std.specs.Prelude.{None};
ghost use Rattle.kp_stalls_run.specs.Runs.{job_stalls};
ghost use Rattle.kp_stalls_text.specs.Labels.{labels_from};
ghost use Rattle.kp_stalls_text.specs.Text.{stalls_text};
ghost use Rattle.kp_view.specs.Due.{Says};
ghost use Rattle.kp_view_words.specs.Asked.{cycles_seen};
ghost use Rattle.kp_view.specs.Ends.{Ends};

use crate::failure::Failure;
use kp_base::Sink;
use kp_frontend::Accepted;
use kp_stalls_run::stalls_of;
use kp_stalls_text::{Report, write_stalls};
use kp_view_words::Cycles;
use std::alloc::Global;

/// Writes why the instructions of a run of a job wait and are squashed.
pub fn stalls<K: Sink>(
    alloc: Global,
    cycles: &Cycles<'_>,
    job: &Accepted,
    out: &mut K,
) -> Result<(), Failure>
    ensures { Ends K.held K.faults ⊥ (Says 0 (stalls_text (cycles_seen cycles.now).names (labels_from job.now.design.job.blocks) (job_stalls cycles.now.count job.now.design.job))) None out.old out.new result }
{
    let lines = stalls_of(alloc, job, cycles.count)?;
    let report = Report::of(
        alloc,
        job.design.job().blocks.as_slice(),
        cycles.names,
        lines,
    )?;
    let end = write_stalls(&report, out);
    drop(report);
    Ok(end?)
}
