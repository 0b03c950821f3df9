// The explanation of a job.
ghost use Rattle.std.specs.Prelude.{◌≡◌, ◌≢◌, ◌≤◌, [], length, Err, IfOk, OnOk};
ghost use Rattle.kp_frontend.specs.{Judging.broken_in, Judging.most_bytes, Judging.JudgesHeadText, inner.Reading.IsCountable, inner.Reading.IsRead};
ghost use Rattle.kp_view_texts.specs.Heads.{rule_head};
ghost use Rattle.kp_view_explain.specs.Messages.{Grows};
ghost use Rattle.kp_view_message.specs.Texts.{message_text};
ghost use Rattle.kp_view_explain.specs.{Explaining.BeginsWith, Explaining.warned, Listing.ListsNext, Printed.IsPrinted, Printed.Prints, Showing.ShowsPlace, Showing.job_mark};
ghost use Rattle.kp_view_explain.specs.declared.words.Subject.TheVariants as subjects;
ghost use Rattle.kp_view_explain.specs.inner.{Found.IsOfTree, Naming.SaysMessage, Shown.ExplainsShown};

use crate::explanation::Explanation;
use crate::passes::{Finding, MOST, violations};
use crate::reading::{Reading, read};
use crate::report::{write_finding, write_message, write_warning};
use crate::warning::warning_of;
use kp_ast::Job;
use kp_base::{Finding as At, NoMemory, Refusal};
use kp_lex::tail;
use kp_lint::{Lint, lints};
use kp_parse::Parsed;
use kp_view_message::{Message, ReadingFault};
use std::alloc::Global;

/// The explanation of a job that is not too long: the first rule that it violates, and further violations, or warnings.
#[tactic(auto, using(crate::proofs::Said::unread_said, crate::proofs::Said::unread_low, crate::proofs::Said::unread_next))]
pub(crate) fn explain_job(
    alloc: Global,
    file: &[u8],
    strict: bool,
    text: &[u8],
) -> Result<Explanation, NoMemory>
    requires { length text.now ≤ most_bytes }
    ensures said { IfOk result (λ e. ExplainsShown subjects.Job strict file.now text.now e.status e.text.items) }
    ensures low { IfOk result (λ e. (e.status ≤ 2) × (e.status ≢ 1)) }
    ensures next { IfOk result (λ e. ListsNext file.now text.now e.text.items) }
{
    match read(alloc, file, text)? {
        Reading::Refused(said) => Ok(said),
        Reading::Tree(parsed) => {
            let said = explain_read(alloc, file, strict, text, &parsed)?;
            drop(parsed);
            Ok(said)
        }
    }
}

// The same for a text that has this tree at its head.
#[tactic(auto, using(crate::proofs::Said::tail_said, crate::proofs::Said::tail_next, crate::proofs::Said::broken_said, crate::proofs::Said::broken_low, crate::proofs::Said::broken_next, crate::proofs::Said::right_said, crate::proofs::Said::right_next))]
fn explain_read(
    alloc: Global,
    file: &[u8],
    strict: bool,
    text: &[u8],
    parsed: &Parsed,
) -> Result<Explanation, NoMemory>
    requires short { length text.now ≤ most_bytes }
    requires read { IsRead text.now parsed.now }
    ensures said { IfOk result (λ e. ExplainsShown subjects.Job strict file.now text.now e.status e.text.items) }
    ensures low { IfOk result (λ e. (e.status ≤ 2) × (e.status ≢ 1)) }
    ensures next { IfOk result (λ e. ListsNext file.now text.now e.text.items) }
{
    if let Some(place) = tail(text, parsed.rest) {
        let message = Message::Reading(ReadingFault::AfterEnd);
        return Ok(explain_rule(alloc, file, text, Refusal::e(4, place), message, &[])?);
    }
    match explain_tree(alloc, file, text, &parsed.job)? {
        Some(said) => Ok(said),
        None => {
            let text = warnings(alloc, file, text, &parsed.job)?;
            let status = warning_status(strict, text.as_slice());
            Ok(Explanation { status, text })
        }
    }
}

/// The explanation of a text that is not too long, where this is the first rule that the job at its head violates: the rule, and further violations. The only
/// error is out of memory.
#[tactic(auto, using(crate::proofs::Said::unread_head, crate::proofs::Said::broken_head, crate::proofs::Said::no_head, crate::proofs::Places::begins))]
pub fn explain_head(
    alloc: Global,
    file: &[u8],
    text: &[u8],
    refusal: Refusal,
) -> Result<Explanation, NoMemory>
    requires short { length text.now ≤ most_bytes }
    requires judged { JudgesHeadText text.now (Err refusal) }
    ensures status { IfOk result (λ e. e.status ≡ 2) }
    ensures begins { IfOk result (λ e. BeginsWith (rule_head file.now refusal) e.text.items) }
    ensures shown { IfOk result (λ e. ShowsPlace file.now text.now refusal (job_mark text.now refusal) e.text.items) }
    ensures next { IfOk result (λ e. ListsNext file.now text.now e.text.items) }
{
    match read(alloc, file, text)? {
        Reading::Refused(said) => Ok(said),
        Reading::Tree(parsed) => {
            let said = explain_tree(alloc, file, text, &parsed.job)?;
            drop(parsed);
            match said {
                Some(said) => Ok(said),
                // Not reached, since the tree violates a rule.
                None => Ok(Explanation::silent(alloc)),
            }
        }
    }
}

// The explanation of the first rule that a tree violates, and of further violations; none where it violates none.
fn explain_tree(
    alloc: Global,
    file: &[u8],
    text: &[u8],
    job: &Job,
) -> Result<Option<Explanation>, NoMemory>
    requires { IsCountable job.now }
    ensures { IfOk result (λ said. IsOfTree file.now text.now (broken_in job.now) said) }
{
    let found = violations(alloc, text, job)?;
    match found.as_slice() {
        [] => Ok(None),
        [first, others @ ..] => {
            let refusal = Refusal::e(first.message.rule(), first.place);
            Ok(Some(explain_rule(alloc, file, text, refusal, first.message, others)?))
        }
    }
}

/// The explanation of this rule, with its message, and of further violations.
#[tactic(auto, using(crate::proofs::Places::noted_job, crate::proofs::Places::shown_further, crate::proofs::Places::message_further))]
pub(crate) fn explain_rule(
    alloc: Global,
    file: &[u8],
    text: &[u8],
    refusal: Refusal,
    message: Message<'_>,
    others: &[Finding<'_>],
) -> Result<Explanation, NoMemory>
    ensures status { IfOk result (λ e. e.status ≡ 2) }
    ensures shown { IfOk result (λ e. ShowsPlace file.now text.now refusal (job_mark text.now refusal) e.text.items) }
    ensures message { IfOk result (λ e. SaysMessage file.now refusal (message_text message.entry) e.text.items) }
{
    let mut facts = Vec::new(alloc);
    write_message(alloc, &mut facts, text, refusal.place, message)?;
    write_others(alloc, &mut facts, file, text, others)?;
    Ok(Explanation::refused(alloc, file, refusal, facts.as_slice())?)
}

#[tactic(auto, using(crate::proofs::Places::stays))]
fn write_others(
    alloc: Global,
    out: &mut Vec<u8>,
    file: &[u8],
    text: &[u8],
    found: &[Finding<'_>],
) -> Result<(), NoMemory>
    ensures { OnOk result (Grows out.old.items out.new.items) }
{
    for finding in found {
        write_finding(alloc, out, text, file, finding)?;
    }
    Ok(())
}

// What is printed for a job that violates no rule: its first warnings.
fn warnings(alloc: Global, file: &[u8], text: &[u8], job: &Job) -> Result<Vec<u8>, NoMemory>
    ensures { IfOk result (λ out. IsPrinted file.now text.now job.now out.items) }
{
    let found = lints(alloc, job, MOST)?;
    let mut out = Vec::new(alloc);
    write_warnings(alloc, &mut out, file, text, job, found.as_slice())?;
    Ok(out)
}

fn write_warnings(
    alloc: Global,
    out: &mut Vec<u8>,
    file: &[u8],
    text: &[u8],
    job: &Job,
    found: &[At<Lint>],
) -> Result<(), NoMemory>
    ensures { OnOk result (Prints file.now text.now job.now found.now out.old.items out.new.items) }
{
    for lint in found {
        write_warning(
            alloc,
            out,
            text,
            file,
            lint.place,
            warning_of(text, job, *lint),
        )?;
    }
    Ok(())
}

// The status for warnings.
fn warning_status(strict: bool, text: &[u8]) -> u8
    ensures status { result ≡ warned strict text.now }
    ensures low { (result ≤ 2) × (result ≢ 1) }
{
    if strict && 0 < text.len() { 2 } else { 0 }
}
