// The violations in a tree: what the rules find, each with what is said of it.
ghost use Rattle.std.specs.Prelude.{◌≡◌, IfOk};
ghost use Rattle.kp_width.specs.Widths.{width_broken};
ghost use Rattle.kp_stage.specs.Stages.{broken_of};
ghost use Rattle.kp_image.specs.Sections.{sections_of};
ghost use Rattle.kp_base.specs.First.{first};
ghost use Rattle.kp_frontend.specs.{Judging.broken_in, inner.Reading.IsCountable};
ghost use Rattle.kp_view_explain.specs.inner.Found.{first_rule};

use kp_ast::Job;
use kp_base::{NoMemory, Place};
use kp_image::section_findings;
use kp_stage::stage_findings;
use kp_view_message::{Message, SectionMessage, StageMessage, width_message};
use kp_width::width_findings;
use std::alloc::Global;

/// The most violations or warnings that are listed for one text.
pub(crate) const MOST: usize = 20;

/// A violated rule, with the place that the rule names.
#[derive(Clone, Copy)]
pub(crate) struct Finding<'t> {
    pub place: Place,
    pub message: Message<'t>,
}

/// The violations of names and widths, up to 20; where there are none, those of stages; where there are none of them, those of sections. The first is the
/// verdict on the tree. The only error is out of memory.
#[tactic(auto, unfolding(kp_frontend::specs::Judging::broken_in), using(crate::proofs::Found::chosen, crate::proofs::Found::passed))]
pub(crate) fn violations<'t>(
    alloc: Global,
    text: &'t [u8],
    job: &'t Job,
) -> Result<Vec<Finding<'t>>, NoMemory>
    requires { IsCountable job.now }
    ensures { IfOk result (λ all. first_rule all.items ≡ broken_in job.now) }
{
    let all = of_widths(alloc, text, job)?;
    if !all.is_empty() {
        return Ok(all);
    }
    let all = of_stages(alloc, text, job)?;
    if !all.is_empty() {
        return Ok(all);
    }
    of_sections(alloc, text, job)
}

#[tactic(auto, using(crate::proofs::Found::of_widths))]
fn of_widths<'t>(alloc: Global, text: &'t [u8], job: &'t Job) -> Result<Vec<Finding<'t>>, NoMemory>
    requires { IsCountable job.now }
    ensures { IfOk result (λ all. first_rule all.items ≡ width_broken job.now) }
{
    let found = width_findings(alloc, job, MOST)?;
    let found = found.as_slice();
    let mut all = Vec::new(alloc);
    for finding in found {
        all.push(Finding {
            place: finding.place,
            message: width_message(text, job, *finding),
        })?;
    }
    Ok(all)
}

#[tactic(auto, using(crate::proofs::Found::of_stages))]
fn of_stages<'t>(alloc: Global, text: &'t [u8], job: &'t Job) -> Result<Vec<Finding<'t>>, NoMemory>
    ensures { IfOk result (λ all. first_rule all.items ≡ broken_of job.now) }
{
    let found = stage_findings(alloc, job, MOST)?;
    let found = found.as_slice();
    let mut all = Vec::new(alloc);
    for finding in found {
        all.push(Finding {
            place: finding.place,
            message: Message::Stage(StageMessage::of(text, job, *finding)),
        })?;
    }
    Ok(all)
}

#[tactic(auto, using(crate::proofs::Found::of_sections))]
fn of_sections<'t>(alloc: Global, text: &'t [u8], job: &Job) -> Result<Vec<Finding<'t>>, NoMemory>
    ensures { IfOk result (λ all. first_rule all.items ≡ first (sections_of job.now).asked) }
{
    let found = section_findings(alloc, job, MOST)?;
    let found = found.as_slice();
    let mut all = Vec::new(alloc);
    for finding in found {
        all.push(Finding {
            place: finding.place,
            message: Message::Section(SectionMessage::of(text, *finding)),
        })?;
    }
    Ok(all)
}
