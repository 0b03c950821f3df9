// What the directives of a job give.
ghost use Rattle.std.specs.Prelude.{◌≤◌, ◌<◌, ◌^◌, IfErr, IfOk, IfSome, length, map, string_bytes};
ghost use Rattle.kp_base.specs.Lines.{IsWithin, piece_of};
ghost use Rattle.kp_directive.specs.{Directives.AreWithin, Faults.IsIn, Faults.Yields};
ghost use Rattle.kp_view.specs.Listed.{checked_label, label_after, label_of, listed_in, listed_with};
ghost use Rattle.kp_diagram_labels.specs.Labels.{labels_in as labels_listed};
ghost use Rattle.kp_view.specs.inner.Listings.{listed_seen};

use kp_base::Run;
use kp_design::Layout;
use kp_diagram_labels::{LabelsRefused, labels_in};
use kp_directive::{
    Directive, DirectiveFault, DirectivesRefused, Verb, directive_of, directives_in, stage_names,
};
use kp_frontend::Accepted;
use std::alloc::Global;

/// Names of the stages, or none, and where the text that names the labels is in the input, which is empty without any.
#[derive(Drop)]
pub(crate) struct Listed {
    pub names: Vec<String>,
    pub label: Run,
}

/// What the directives of a job up to an offset give. Errors: D1 to D3, and out of memory.
pub(crate) fn listed_in(
    alloc: Global,
    input: &[u8],
    end: u32,
    job: &Accepted,
) -> Result<Listed, DirectivesRefused>
    requires end { end ≤ length input.now }
    requires few { length input.now < 2 ^ 32 }
    ensures listed { Yields result (listed_in job.now.design.job input.now end) (listed_seen input.now) }
    ensures label { IfOk result (λ listed. IsWithin input.now listed.label) }
    ensures within { IfErr result (IsIn input.now) }
{
    let stages = job.design.job().stages.value as u8;
    match stage_names(alloc, input, end, stages) {
        Ok(names) => with_label(alloc, input, end, job, names),
        Err(refused) => Err(refused),
    }
}

// The same with these names of the stages.
fn with_label(
    alloc: Global,
    input: &[u8],
    end: u32,
    job: &Accepted,
    names: Vec<String>,
) -> Result<Listed, DirectivesRefused>
    requires end { end ≤ length input.now }
    requires few { length input.now < 2 ^ 32 }
    ensures listed { Yields result (listed_with (map string_bytes names.items) (label_of job.now.design.job input.now end)) (listed_seen input.now) }
    ensures label { IfOk result (λ listed. IsWithin input.now listed.label) }
    ensures within { IfErr result (IsIn input.now) }
{
    match label_of(alloc, input, end, job) {
        Ok(label) => Ok(Listed { names, label }),
        Err(refused) => Err(refused),
    }
}

// Where the text after `label` is, if there is such a directive.
fn label_of(alloc: Global, input: &[u8], end: u32, job: &Accepted) -> Result<Run, DirectivesRefused>
    requires end { end ≤ length input.now }
    requires few { length input.now < 2 ^ 32 }
    ensures label { Yields result (label_of job.now.design.job input.now end) (λ run. (piece_of input.now run).bytes) }
    ensures run { IfOk result (IsWithin input.now) }
    ensures within { IfErr result (IsIn input.now) }
{
    let directives = directives_in(alloc, input, end)?;
    label_after(
        alloc,
        input,
        job,
        directive_of(Verb::Label, directives.as_slice()),
    )
}

// The same for this directive, or for none.
fn label_after(
    alloc: Global,
    input: &[u8],
    job: &Accepted,
    directive: Option<Directive>,
) -> Result<Run, DirectivesRefused>
    requires directive { IfSome directive (AreWithin input.now) }
    requires few { length input.now < 2 ^ 32 }
    ensures label { Yields result (label_after job.now.design.job input.now directive) (λ run. (piece_of input.now run).bytes) }
    ensures run { IfOk result (IsWithin input.now) }
    ensures within { IfErr result (IsIn input.now) }
{
    match directive {
        Some(directive) => checked_label(alloc, input, job, directive.rest),
        None => Ok(Run { at: 0, end: 0 }),
    }
}

// A run whose words are labels.
fn checked_label(
    alloc: Global,
    input: &[u8],
    job: &Accepted,
    run: Run,
) -> Result<Run, DirectivesRefused>
    requires run { IsWithin input.now run }
    requires few { length input.now < 2 ^ 32 }
    ensures label { Yields result (checked_label input.now run (labels_listed job.now.design.job input.now run)) (λ run. (piece_of input.now run).bytes) }
    ensures run { IfOk result (IsWithin input.now) }
    ensures within { IfErr result (IsIn input.now) }
{
    let layout = Layout::of(alloc, &job.design)?;
    match labels_in(alloc, &layout, input, run) {
        Ok(labels) => {
            drop(labels);
            Ok(run)
        }
        Err(LabelsRefused::Word(word)) => Err(DirectivesRefused::Rule(DirectiveFault::Label(word))),
        Err(LabelsRefused::NoMemory) => Err(DirectivesRefused::NoMemory),
    }
}
