// The text of a verdict.
ghost use Rattle.std.specs.Prelude.{◌≡◌, ◌<◌, ◌++◌, length, IfOk};
ghost use Rattle.kp_machine.specs.Slots.{targets_of};
ghost use Rattle.kp_view_same.specs.Texts.{IsOfJob, difference_text, part_text, verdict_status, verdict_text};

use kp_base::NoMemory;
use kp_same::{Difference, Part, Verdict};
use kp_stage::Design;
use kp_synth_stage::Slots;
use std::alloc::Global;

/// The status of a verdict.
pub(crate) fn status_of(verdict: Verdict) -> u8
    ensures { result ≡ verdict_status verdict }
{
    match verdict {
        Verdict::Alike => 0,
        Verdict::Targets | Verdict::Samples | Verdict::Start | Verdict::NotShown(_) => 7,
    }
}

/// The line of a verdict, which names a target of this job.
#[tactic(auto, unfolding(crate::specs::Texts::verdict_text))]
pub(crate) fn line_of(alloc: Global, design: &Design, verdict: Verdict) -> Result<Vec<u8>, NoMemory>
    requires { IsOfJob design.now.job verdict }
    ensures { IfOk result (λ text. text.items ≡ verdict_text design.now.job verdict) }
{
    let mut text = Vec::new(alloc);
    match verdict {
        Verdict::Alike => text.extend_from_slice(b"same\n")?,
        Verdict::Targets => text.extend_from_slice(b"not shown: targets\n")?,
        Verdict::Samples => text.extend_from_slice(b"not shown: samples\n")?,
        Verdict::Start => text.extend_from_slice(b"not shown: start\n")?,
        Verdict::NotShown(difference) => write_difference(alloc, &mut text, design, difference)?,
    }
    Ok(text)
}

// The line of a difference.
fn write_difference(
    alloc: Global,
    text: &mut Vec<u8>,
    design: &Design,
    difference: Difference,
) -> Result<(), NoMemory>
    requires { difference.target < length (targets_of design.now.job.decls) }
    ensures { IfOk result (λ u. text.new.items ≡ text.old.items ++ difference_text design.now.job difference) }
{
    let slots = Slots::of(alloc, design)?;
    text.extend_from_slice(b"not shown: ")?;
    text.extend_from_slice(slots.targets[difference.target].name().bytes())?;
    text.extend_from_slice(part_of(difference.part))?;
    Ok(())
}

fn part_of(part: Part) -> &'static [u8]
    ensures { result.now ≡ part_text part }
{
    match part {
        Part::Result => b": result\n",
        Part::Address => b": address\n",
        Part::Enable => b": enable\n",
        Part::Value => b": value\n",
    }
}
