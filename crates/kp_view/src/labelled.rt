// `diagram` with labels, and a listing, beside the lines.
ghost use Rattle.std.specs.Prelude.{◌≡◌, ◌+◌, All, None, true};
ghost use Rattle.kp_view_words.specs.Asked.{run_seen};
ghost use Rattle.kp_diagram_text.specs.{Charts.are_names, Labelled.labelled_text};
ghost use Rattle.kp_diagram_run.specs.Windows.{job_window};
ghost use Rattle.kp_diagram_labels.specs.{Labels.IsLabel, Texts.heading, Texts.label_text};
ghost use Rattle.kp_listing.specs.Listings.{entries_of};
ghost use Rattle.kp_view.specs.Due.{Says};
ghost use Rattle.kp_view.specs.Ends.{Ends};

use crate::failure::Failure;
use kp_base::Sink;
use kp_design::Layout;
use kp_diagram_labels::{Label, Labelling, heading_of, labelled_lines};
use kp_diagram_run::{run_window, window_chart};
use kp_diagram_text::{Window, write_labelled};
use kp_frontend::Accepted;
use kp_listing::Listing;
use kp_view_words::WithLabels;
use std::alloc::Global;

/// Writes the diagram of a window of a run of a job, with these labels and the listing.
pub fn labelled<K: Sink>(
    alloc: Global,
    shown: &WithLabels<'_>,
    labels: &[Label],
    job: &Accepted,
    out: &mut K,
) -> Result<(), Failure>
    requires names { are_names (run_seen shown.now.later.run).names job.now.design.job.stages.value ≡ true }
    requires labels { All (IsLabel job.now.design.job shown.now.label.now) labels.now }
    ensures { Ends K.held K.faults ⊥ (Says 0 (labelled_text (heading job.now.design.job shown.now.label.now labels.now (entries_of shown.now.listing.now))
        (label_text job.now.design.job shown.now.label.now labels.now (entries_of shown.now.listing.now) (shown.now.later.from + shown.now.later.run.count)) shown.now.later.from
        (job_window (run_seen shown.now.later.run).names shown.now.later.from shown.now.later.run.count job.now.design.job))) None out.old out.new result }
{
    let later = shown.later;
    let layout = Layout::of(alloc, &job.design)?;
    let listing = Listing::of(alloc, shown.listing)?;
    let heading = heading_of(alloc, &layout, shown.label, labels, &listing)?;
    let ran = run_window(alloc, job, later.from, later.run.count)?;
    let chart = window_chart(job, &ran, later.run.names);
    let from = u64::from(later.from);
    let numbers = ran.numbers.as_slice();
    let flight = ran.flight.as_slice();
    let window = Window {
        from,
        numbers,
        flight,
        losses: ran.losses,
    };
    let asked = Labelling {
        job,
        layout: &layout,
        text: shown.label,
        labels,
        listing: &listing,
    };
    let lines = labelled_lines(alloc, &asked, &chart, &window, later.from + later.run.count)?;
    let end = write_labelled(&chart, &window, heading.as_slice(), lines.as_slice(), out);
    drop(lines);
    drop(listing);
    drop(ran);
    Ok(end?)
}
