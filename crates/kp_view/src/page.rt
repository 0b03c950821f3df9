// `page`: a run as a page of HTML.
ghost use Rattle.std.specs.Prelude.{[], ◌≡◌, ◌≤◌, None, length, true};
ghost use Rattle.kp_view_words.specs.Asked.{run_seen};
ghost use Rattle.kp_diagram_text.specs.Charts.{IsDrawable, are_names, figure_of, rows_of};
ghost use Rattle.kp_page.specs.States.{states_text};
ghost use Rattle.kp_page.specs.Page.{page as page_text};
ghost use Rattle.kp_paths.specs.Text.{paths_text};
ghost use Rattle.kp_view.specs.Due.{Says, figure_drawn, rows_drawn};
ghost use Rattle.kp_view.specs.Ends.{Ends};

use crate::failure::Failure;
use kp_base::Sink;
use kp_cycle::Sim;
use kp_diagram_run::{chart_of, run_job};
use kp_diagram_text::Chart;
use kp_frontend::Accepted;
use kp_page::write_page;
use kp_paths::Paths;
use kp_synth::synth;
use kp_view_words::Run;
use std::alloc::Global;

/// Writes the page of a run of a job, with the input that the job was read from.
pub fn page<K: Sink>(
    alloc: Global,
    run: &Run<'_>,
    input: &[u8],
    job: &Accepted,
    out: &mut K,
) -> Result<(), Failure>
    requires { are_names (run_seen run.now).names job.now.design.job.stages.value ≡ true }
    ensures { Ends K.held K.faults ⊥ (Says 0 (page_text (figure_drawn (run_seen run.now) job.now.design.job) (rows_drawn (run_seen run.now) job.now.design.job)
        input.now (paths_text [] job.now.design.job) (states_text job.now.design.job run.now.count))) None out.old out.new result }
{
    let job_run = run_job(alloc, job, run.count)?;
    let paths = Paths::of(alloc, &job.design)?;
    let chart = chart_of(job, &job_run, run.names);
    let end = with_states(alloc, &chart, input, &paths, job, run.count, out);
    drop(paths);
    drop(job_run);
    end
}

// The page of a chart. The states are those of a run of its own, while they are written.
fn with_states<K: Sink>(
    alloc: Global,
    chart: &Chart<'_>,
    input: &[u8],
    paths: &Paths<'_>,
    job: &Accepted,
    count: u32,
    out: &mut K,
) -> Result<(), Failure>
    requires drawable { IsDrawable chart.now }
    requires few { length chart.now.rows.now ≤ 1000 }
    ensures { Ends K.held K.faults ⊥ (Says 0 (page_text (figure_of chart.now) (rows_of chart.now) input.now (paths_text [] paths.now)
        (states_text job.now.design.job count))) None out.old out.new result }
{
    // The invariant of the type, for the proof only.
    let _kept = job.design.job();
    let net = synth(alloc, &job.design, &job.sections.start)?;
    let mut before = Sim::open(alloc, &net)?;
    let mut now = Sim::open(alloc, &net)?;
    let mut samples = job.sections.inputs.row(alloc, 0)?;
    let room = samples.as_mut_slice();
    let end = write_page(
        chart,
        input,
        paths,
        &mut before,
        &mut now,
        room,
        job,
        count,
        out,
    );
    Ok(end?)
}
