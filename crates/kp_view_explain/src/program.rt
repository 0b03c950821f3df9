// The explanation of an assembler program.
ghost use Rattle.std.specs.Prelude.{◌≡◌, ◌≢◌, ◌≤◌, length, Bool, IfOk};
ghost use Rattle.kp_asm.specs.Faults.{refusal_of};
ghost use Rattle.kp_frontend.specs.Judging.{most_bytes};
ghost use Rattle.kp_view_texts.specs.Marks.{program_mark};
ghost use Rattle.kp_view_explain.specs.{Showing.ShowsPlace, inner.Shown.ExplainsShown};
ghost use Rattle.kp_view_explain.specs.declared.words.Subject.TheVariants as subjects;

use crate::explanation::Explanation;
use kp_asm::{Misread, ProgramFault, read_program, refusal_of};
use kp_base::{Finding, NoMemory};
use kp_view_texts::write_program;
use std::alloc::Global;

/// The explanation of a program that is not too long: the first rule that it violates.
pub(crate) fn explain_program(
    alloc: Global,
    file: &[u8],
    text: &[u8],
) -> Result<Explanation, NoMemory>
    requires { length text.now ≤ most_bytes }
    ensures said { IfOk result (λ e. (strict : Bool) → ExplainsShown subjects.Program strict file.now text.now e.status e.text.items) }
    ensures low { IfOk result (λ e. (e.status ≤ 2) × (e.status ≢ 1)) }
{
    match read_program(alloc, text) {
        Ok(_) => Ok(Explanation::silent(alloc)),
        Err(Misread::NoMemory) => Err(NoMemory),
        Err(Misread::Found(finding)) => Ok(misread(alloc, file, text, finding)?),
    }
}

// A program that violates a rule.
#[tactic(auto, using(crate::proofs::Places::noted))]
fn misread(
    alloc: Global,
    file: &[u8],
    text: &[u8],
    finding: Finding<ProgramFault>,
) -> Result<Explanation, NoMemory>
    ensures status { IfOk result (λ e. e.status ≡ 2) }
    ensures shown { IfOk result (λ e. ShowsPlace file.now text.now (refusal_of finding) (program_mark text.now finding.place) e.text.items) }
{
    let mut facts = Vec::new(alloc);
    write_program(alloc, &mut facts, text, finding)?;
    let refusal = refusal_of(finding);
    Ok(Explanation::refused(alloc, file, refusal, facts.as_slice())?)
}
