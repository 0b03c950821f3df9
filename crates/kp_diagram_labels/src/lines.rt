// The lines of a window with their labels.
ghost use Rattle.std.specs.Prelude.{◌≡◌, ℕ, All, IfOk, OnOk, length, map};
ghost use Rattle.kp_stage.specs.Start.{AreSamples};
ghost use Rattle.kp_run.specs.Columns.{row_taken};
ghost use Rattle.kp_diagram_text.specs.Charts.{IsDrawable};
ghost use Rattle.kp_diagram_text.specs.Labelled.{IsEntry, fetch_at};
ghost use Rattle.kp_diagram_text.specs.Windows.{IsWindow, window_lines};
ghost use Rattle.kp_diagram_labels.specs.inner.Runs.{HasRun, given};
ghost use Rattle.kp_listing.specs.Seen.{listing_seen};
ghost use Rattle.kp_diagram_labels.specs.{Labels.IsLabel, Texts.label_text, Texts.label_values, Texts.text_beside};

use crate::columns::text_beside;
use crate::label::Label;
use crate::trace::{Trace, no_values, values_next};
use kp_base::NoMemory;
use kp_bits::Bits;
use kp_design::Layout;
use kp_diagram_text::{Chart, Entry, Labelled, Window, entries_of, retires};
use kp_frontend::Accepted;
use kp_listing::Listing;
use kp_run::{Column, columns_in, take};
use kp_synth::synth;
use std::alloc::Global;

/// A job with its tables, labels of it, which a text names, and a listing.
#[derive(Clone, Copy)]
pub struct Labelling<'a> {
    pub job: &'a Accepted,
    pub layout: &'a Layout<'a>,
    pub text: &'a [u8],
    pub labels: &'a [Label],
    pub listing: &'a Listing,
}

/// The lines of a window of the run of a job, each with its labels. The window ends before cycle `end`. The only error is out of memory.
pub fn labelled_lines(
    alloc: Global,
    asked: &Labelling<'_>,
    chart: &Chart<'_>,
    window: &Window<'_>,
    end: u32,
) -> Result<Vec<Labelled>, NoMemory>
    requires layout { asked.now.layout.now ≡ asked.now.job.now.design.job }
    requires labels { All (IsLabel asked.now.job.now.design.job asked.now.text.now) asked.now.labels.now }
    requires stages { chart.now.stages ≡ asked.now.job.now.design.job.stages.value }
    requires drawable { IsDrawable chart.now }
    requires window { IsWindow chart.now window.now }
    ensures lines { IfOk result (λ lines. map (λ (l : Labelled). fetch_at chart.now l.entry) lines.items ≡ window_lines chart.now window.now) }
    ensures within { IfOk result (λ lines. All (λ (l : Labelled). IsEntry chart.now l.entry) lines.items) }
    ensures labels { IfOk result (λ lines. All (λ (l : Labelled). l.label.items
        ≡ label_text asked.now.job.now.design.job asked.now.text.now asked.now.labels.now (listing_seen asked.now.listing.now) end (fetch_at chart.now l.entry)) lines.items) }
{
    let job = asked.job;
    // The invariant of the type, for the proof only.
    let _kept = job.design.job();
    let net = synth(alloc, &job.design, &job.sections.start)?;
    let columns = columns_in(alloc, job, &net, end)?;
    let entries = entries_of(alloc, chart, window)?;
    with_labels(alloc, asked, chart, columns.as_slice(), entries.as_slice())
}

// The lines that begin with these entries.
fn with_labels(
    alloc: Global,
    asked: &Labelling<'_>,
    chart: &Chart<'_>,
    columns: &[Column],
    entries: &[Entry],
) -> Result<Vec<Labelled>, NoMemory>
    requires layout { asked.now.layout.now ≡ asked.now.job.now.design.job }
    requires labels { All (IsLabel asked.now.job.now.design.job asked.now.text.now) asked.now.labels.now }
    requires stages { chart.now.stages ≡ asked.now.job.now.design.job.stages.value }
    requires drawable { IsDrawable chart.now }
    requires columns { length columns.now ≡ length asked.now.job.now.sections.inputs }
    requires samples { (i : ℕ) → AreSamples asked.now.job.now.design.job.decls (row_taken columns.now i) }
    requires entries { All (IsEntry chart.now) entries.now }
    ensures entries { IfOk result (λ lines. map (λ (l : Labelled). l.entry) lines.items ≡ entries.now) }
    ensures labels { IfOk result (λ lines. All (λ (l : Labelled). l.label.items
        ≡ text_beside asked.now.job.now.design.job asked.now.text.now asked.now.labels.now (listing_seen asked.now.listing.now)
        (label_values asked.now.job.now.design.job (given columns.now) asked.now.labels.now (fetch_at chart.now l.entry))) lines.items) }
{
    let mut samples = asked.job.sections.inputs.row(alloc, 0)?;
    let room = samples.as_mut_slice();
    let mut trace = Trace::open(alloc, asked.job)?;
    let mut lines = Vec::new(alloc);
    for entry in entries {
        let label = label_of(alloc, asked, chart, columns, room, &mut trace, *entry)?;
        lines.push(Labelled {
            entry: *entry,
            label,
        })?;
    }
    Ok(lines)
}

// The labels of a line. `room` is a buffer for the sample values of an instruction.
fn label_of<'a>(
    alloc: Global,
    asked: &Labelling<'a>,
    chart: &Chart<'_>,
    columns: &[Column],
    room: &mut [Bits],
    trace: &mut Trace<'a>,
    entry: Entry,
) -> Result<Vec<u8>, NoMemory>
    requires layout { asked.now.layout.now ≡ asked.now.job.now.design.job }
    requires labels { All (IsLabel asked.now.job.now.design.job asked.now.text.now) asked.now.labels.now }
    requires stages { chart.now.stages ≡ asked.now.job.now.design.job.stages.value }
    requires drawable { IsDrawable chart.now }
    requires room { length room.old ≡ length columns.now }
    requires samples { (i : ℕ) → AreSamples asked.now.job.now.design.job.decls (row_taken columns.now i) }
    requires run { HasRun asked.now.job.now.design.job (given columns.now) trace.old.ran trace.old.machine }
    requires entry { IsEntry chart.now entry }
    ensures label { IfOk result (λ label. label.items ≡ text_beside asked.now.job.now.design.job asked.now.text.now asked.now.labels.now (listing_seen asked.now.listing.now)
        (label_values asked.now.job.now.design.job (given columns.now) asked.now.labels.now (fetch_at chart.now entry))) }
    ensures room { OnOk result (length room.new ≡ length room.old) }
    ensures run { OnOk result (HasRun asked.now.job.now.design.job (given columns.now) trace.new.ran trace.new.machine) }
{
    let values = values_in_line(alloc, asked, chart, columns, room, trace, entry)?;
    text_beside(
        alloc,
        asked.layout,
        asked.text,
        asked.labels,
        asked.listing,
        values.as_slice(),
    )
}

// The values of the labels in a line.
#[tactic(auto, using(crate::proofs::Texts::none_many, crate::proofs::Texts::words_many))]
fn values_in_line<'a>(
    alloc: Global,
    asked: &Labelling<'a>,
    chart: &Chart<'_>,
    columns: &[Column],
    room: &mut [Bits],
    trace: &mut Trace<'a>,
    entry: Entry,
) -> Result<Vec<Option<Bits>>, NoMemory>
    requires layout { asked.now.layout.now ≡ asked.now.job.now.design.job }
    requires labels { All (IsLabel asked.now.job.now.design.job asked.now.text.now) asked.now.labels.now }
    requires stages { chart.now.stages ≡ asked.now.job.now.design.job.stages.value }
    requires drawable { IsDrawable chart.now }
    requires room { length room.old ≡ length columns.now }
    requires samples { (i : ℕ) → AreSamples asked.now.job.now.design.job.decls (row_taken columns.now i) }
    requires run { HasRun asked.now.job.now.design.job (given columns.now) trace.old.ran trace.old.machine }
    requires entry { IsEntry chart.now entry }
    ensures many { IfOk result (λ values. length values.items ≡ length asked.now.labels.now) }
    ensures values { IfOk result (λ values. values.items ≡ label_values asked.now.job.now.design.job (given columns.now) asked.now.labels.now (fetch_at chart.now entry)) }
    ensures room { OnOk result (length room.new ≡ length room.old) }
    ensures run { OnOk result (HasRun asked.now.job.now.design.job (given columns.now) trace.new.ran trace.new.machine) }
{
    if retires(chart, entry) {
        trace.go_to(alloc, asked.job, columns, room, entry.number)?;
        take(columns, entry.number, room);
        values_next(alloc, asked.layout, asked.labels, room, &mut trace.machine)
    } else {
        no_values(alloc, asked.labels)
    }
}
