// The names and widths of a complete job.
ghost use Rattle.std.specs.Prelude.{◌≡◌, ◌<◌, ◌^◌, OnOk, IfOk, length, sum_by, take};
ghost use Rattle.kp_base.specs.First.{Answers, first};
ghost use Rattle.kp_base.specs.Findings.{findings, with_answers};
ghost use Rattle.kp_width.specs.Declarations.{functions_in};
ghost use Rattle.kp_width.specs.Widths.{after_all, all_answers, widths_of, width_answers, width_broken};
ghost use Rattle.kp_width.specs.inner.Steps.{HasRoom};

use crate::declarations::note_decls;
use crate::fault::{WidthFault, refusal_of};
use crate::names::Names;
use crate::statements::note_blocks;
use kp_ast::{Block, Decl, Job, Widths};
use kp_base::{Finding, Findings, List, NoMemory, Refused};
use std::alloc::Global;

/// The names of a job with their widths. Errors: the first of the rules E5 to E14 and E26 that it violates, in text order; or out of memory.
#[tactic(auto, using(crate::proofs::Listed::judged, crate::proofs::Listed::accepted))]
pub fn widths(alloc: Global, job: &Job) -> Result<Widths, Refused>
    requires few_functions { sum_by functions_in job.now.decls < 2 ^ 32 }
    requires few_blocks { length job.now.blocks < 2 ^ 32 }
    ensures answer { Answers result (width_broken job.now) (λ w. w.entries ≡ (widths_of job.now).value) }
    ensures names { OnOk result (first (widths_of job.now).asked ≡ None) }
{
    let mut names = Names::new(alloc);
    let mut found = Findings::new(alloc, 1);
    note_all(
        &mut names,
        &mut found,
        job.decls.as_slice(),
        job.blocks.as_slice(),
    )?;
    match found.as_slice().first() {
        Some(finding) => Err(Refused::Rule(refusal_of(*finding))),
        None => Ok(Widths {
            entries: List::new(names.into_entries()),
        }),
    }
}

/// The violations of the rules E5 to E14 and E26 in a job, in text order, up to `most`: of each declaration and each statement the first. The
/// name of a refused one is doubtful, and what uses it is not listed. The only error is out of memory.
#[tactic(auto, using(kp_base::proofs::Collecting::first_of_all))]
pub fn width_findings(
    alloc: Global,
    job: &Job,
    most: usize,
) -> Result<Findings<Finding<WidthFault>>, NoMemory>
    requires few_functions { sum_by functions_in job.now.decls < 2 ^ 32 }
    requires few_blocks { length job.now.blocks < 2 ^ 32 }
    ensures { IfOk result (λ f. f.found ≡ take most (findings (width_answers job.now))) }
{
    let mut names = Names::new(alloc);
    let mut found = Findings::new(alloc, most);
    note_all(
        &mut names,
        &mut found,
        job.decls.as_slice(),
        job.blocks.as_slice(),
    )?;
    Ok(found)
}

fn note_all(
    names: &mut Names,
    found: &mut Findings<Finding<WidthFault>>,
    decls: &[Decl],
    blocks: &[Block],
) -> Result<(), NoMemory>
    requires few_functions { sum_by functions_in decls.now < 2 ^ 32 }
    requires few_blocks { length blocks.now < 2 ^ 32 }
    ensures found { OnOk result (found.new ≡ with_answers found.old (all_answers names.old decls.now blocks.now)) }
    ensures names { OnOk result (HasRoom found.new → names.new ≡ after_all names.old decls.now blocks.now) }
{
    note_decls(names, found, decls)?;
    note_blocks(names, found, decls, blocks)?;
    Ok(())
}
