// The explanation of a job with a script of the debugger after it.
ghost use Rattle.std.specs.Prelude.{◌≡◌, ◌≢◌, ◌≤◌, length, Bool, IfOk};
ghost use Rattle.kp_frontend.specs.Judging.{most_bytes};
ghost use Rattle.kp_view_explain.specs.Listing.{ListsNext};
ghost use Rattle.kp_view_explain.specs.declared.words.Subject.TheVariants as subjects;
ghost use Rattle.kp_view_explain.specs.inner.Shown.{ExplainsScript, ExplainsShown};

use crate::explanation::Explanation;
use crate::of_job::explain_head;
use kp_base::{NoMemory, Refused};
use kp_debug_script::{Misread, commands_of, refusal_of};
use kp_frontend::{Head, judge_head};
use kp_view_texts::write_script;
use std::alloc::Global;

/// The explanation of a text that is not too long: the first rule that the job at its head violates, or else the script.
pub(crate) fn explain_debugged(
    alloc: Global,
    file: &[u8],
    text: &[u8],
) -> Result<Explanation, NoMemory>
    requires { length text.now ≤ most_bytes }
    ensures said { IfOk result (λ e. (strict : Bool) → ExplainsShown subjects.Debugged strict file.now text.now e.status e.text.items) }
    ensures low { IfOk result (λ e. (e.status ≤ 2) × (e.status ≢ 1)) }
    ensures next { IfOk result (λ e. ListsNext file.now text.now e.text.items) }
{
    match judge_head(alloc, text) {
        Ok(head) => {
            let said = explain_script(alloc, file, text, &head)?;
            drop(head);
            Ok(said)
        }
        Err(Refused::NoMemory) => Err(NoMemory),
        Err(Refused::Rule(refusal)) => Ok(explain_head(alloc, file, text, refusal)?),
    }
}

// The same where the job violates no rule.
#[tactic(auto, using(crate::proofs::Inputs::accepted_script, crate::proofs::Inputs::refused_script))]
fn explain_script(
    alloc: Global,
    file: &[u8],
    text: &[u8],
    head: &Head,
) -> Result<Explanation, NoMemory>
    requires short { length text.now ≤ most_bytes }
    requires within { head.now.rest ≤ length text.now }
    ensures said { IfOk result (λ e. ExplainsScript head.now.job.design.job.decls file.now text.now head.now.rest e.status e.text.items) }
    ensures low { IfOk result (λ e. (e.status ≤ 2) × (e.status ≢ 1)) }
{
    let decls = head.job.design.job().decls.as_slice();
    match commands_of(alloc, text, head.rest, decls) {
        Ok(_) => Ok(Explanation::silent(alloc)),
        Err(Misread::NoMemory) => Err(NoMemory),
        Err(Misread::Found(finding)) => {
            let mut facts = Vec::new(alloc);
            write_script(alloc, &mut facts, text, decls, finding)?;
            let refusal = refusal_of(finding);
            Ok(Explanation::refused(alloc, file, refusal, facts.as_slice())?)
        }
    }
}
