// `diagram` from a later cycle on.
ghost use Rattle.std.specs.Prelude.{◌≡◌, None, true};
ghost use Rattle.kp_view_words.specs.Asked.{run_seen};
ghost use Rattle.kp_diagram_text.specs.Charts.{are_names};
ghost use Rattle.kp_diagram_text.specs.Text.{window_text};
ghost use Rattle.kp_diagram_run.specs.Windows.{job_window};
ghost use Rattle.kp_view.specs.Due.{Says};
ghost use Rattle.kp_view.specs.Ends.{Ends};

use crate::failure::Failure;
use kp_base::Sink;
use kp_diagram_run::{run_window, window_chart};
use kp_diagram_text::{Window, write_window};
use kp_frontend::Accepted;
use kp_view_words::Later;
use std::alloc::Global;

/// Writes the diagram of a window of a run of a job.
pub fn window<K: Sink>(
    alloc: Global,
    later: &Later<'_>,
    job: &Accepted,
    out: &mut K,
) -> Result<(), Failure>
    requires { are_names (run_seen later.now.run).names job.now.design.job.stages.value ≡ true }
    ensures { Ends K.held K.faults ⊥ (Says 0 (window_text later.now.from (job_window (run_seen later.now.run).names later.now.from later.now.run.count job.now.design.job))) None out.old out.new result }
{
    let ran = run_window(alloc, job, later.from, later.run.count)?;
    let from = u64::from(later.from);
    let numbers = ran.numbers.as_slice();
    let flight = ran.flight.as_slice();
    let window = Window {
        from,
        numbers,
        flight,
        losses: ran.losses,
    };
    let end = write_window(&window_chart(job, &ran, later.run.names), &window, out);
    drop(ran);
    Ok(end?)
}
