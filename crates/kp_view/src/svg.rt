// `svg`: the pipeline diagram as a picture.
ghost use Rattle.std.specs.Prelude.{◌≡◌, None, true};
ghost use Rattle.kp_view_words.specs.Asked.{run_seen};
ghost use Rattle.kp_diagram_text.specs.Charts.{are_names};
ghost use Rattle.kp_diagram_svg.specs.Picture.{picture};
ghost use Rattle.kp_view.specs.Due.{Says, figure_drawn, rows_drawn};
ghost use Rattle.kp_view.specs.Ends.{Ends};

use crate::failure::Failure;
use kp_base::Sink;
use kp_diagram_run::{chart_of, run_job};
use kp_diagram_svg::write_svg;
use kp_frontend::Accepted;
use kp_view_words::Run;
use std::alloc::Global;

/// Writes the picture of a run of a job.
pub fn svg<K: Sink>(
    alloc: Global,
    run: &Run<'_>,
    job: &Accepted,
    out: &mut K,
) -> Result<(), Failure>
    requires { are_names (run_seen run.now).names job.now.design.job.stages.value ≡ true }
    ensures { Ends K.held K.faults ⊥ (Says 0 (picture (figure_drawn (run_seen run.now) job.now.design.job) (rows_drawn (run_seen run.now) job.now.design.job))) None out.old out.new result }
{
    let job_run = run_job(alloc, job, run.count)?;
    let end = write_svg(&chart_of(job, &job_run, run.names), out);
    drop(job_run);
    Ok(end?)
}
