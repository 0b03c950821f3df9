// Designs: checked jobs.
ghost use Rattle.std.specs.Prelude.{◌≡◌, ◌∷◌, [], None, Ok, IfOk, OnOk, take};
ghost use Rattle.kp_base.specs.{First.Answers, First.first, Check.after, Findings.findings, Findings.with_answers};
ghost use Rattle.kp_ast.specs.Size.{capped_bodies};
ghost use Rattle.kp_width.specs.Widths.{widths_of};
ghost use Rattle.kp_stage.specs.Facts.{facts_of};
ghost use Rattle.kp_stage.specs.Rules.{asked_by, broken_by};
ghost use Rattle.kp_stage.specs.Sizes.{sizes_of};
ghost use Rattle.kp_stage.specs.Counts.{counts_of, summary_of};
ghost use Rattle.kp_stage.specs.Stages.{answers_of, broken_of};
ghost use Rattle.kp_stage.specs.Design.{IsSound, plan};

use crate::counts::{Counts, Summary, count};
use crate::facts::Facts;
use crate::fault::{Found, StageFault};
use crate::rules::note_job;
use crate::sizes::size_of;
use kp_ast::{Job, Widths, body_sizes};
use kp_base::{Finding, Findings, NoMemory, Refusal, Refused};
use std::alloc::Global;
use std::marker::Model;

/// A job that violates no rule of names, widths and stages, with the widths of its names.
pub struct Design {
    job: Job,
    widths: Widths,
    summary: Summary,
}

impl Drop for Design {
    fn drop(self) {
        let Design {
            job,
            widths,
            summary: _,
        } = self;
        drop(job);
        drop(widths);
    }
}

impl Model for Design {
    ghost use Rattle.std.specs.Coded.{codes};
    ghost use Rattle.kp_ast.specs.contracts.tree.ExprKind as e;
    ghost use Rattle.kp_stage.specs.Design.{Plan, IsKept, plan};

    ghost Value = { Plan };

    ghost coded = { Prim.hlevel (codes, e.the_row.coded) };

    ghost view = { λ d. plan d.job d.widths.entries };

    ghost invariant = { λ d. IsKept (plan d.job d.widths.entries) d.summary };
}

impl Design {
    /// The design of a job whose names and widths are valid. Errors: the first of the rules E15 to E25, E34, E35, E28
    /// and E29 that it violates, in this order, at the first position in the text; or out of memory. On an error the
    /// job and the widths have been dropped.
    pub fn new(alloc: Global, job: Job, widths: Widths) -> Result<Design, Refused>
        requires names { first (widths_of job).asked ≡ None }
        requires widths { widths.entries ≡ (widths_of job).value }
        ensures { Answers result (broken_of job) (λ d. d ≡ plan job widths.entries) }
    {
        let summary = examine(alloc, &job)?;
        Ok(Design {
            job,
            widths,
            summary,
        })
    }

    /// The job.
    pub fn job(&self) -> &Job
        ensures job { result.now ≡ self.now.job }
        ensures sound { IsSound self.now }
    {
        &self.job
    }

    /// The names of the job with their widths.
    pub fn widths(&self) -> &Widths
        ensures { result.now.entries ≡ self.now.entries }
    {
        &self.widths
    }

    /// The numbers of the machine.
    pub fn summary(&self) -> Summary
        ensures { result ≡ summary_of self.now.job }
    {
        self.summary
    }
}

/// The violations of the rules of stages in a job, up to `most`: of E15 to E25, then E34 and E35, each in text order, then of E28, then of E29. Of each
/// rule one violation is listed in a declaration or a statement: the first. The only error is out of memory.
pub fn stage_findings(
    alloc: Global,
    job: &Job,
    most: usize,
) -> Result<Findings<Finding<StageFault>>, NoMemory>
    ensures { IfOk result (λ f. f.found ≡ take most (findings (answers_of job.now))) }
{
    let mut notes = Findings::new(alloc, most);
    note_rules(alloc, &mut notes, job)?;
    note_numbers(alloc, &mut notes, job)?;
    Ok(notes)
}

// The numbers of a job, or the first rule of stages that it violates.
fn examine(alloc: Global, job: &Job) -> Result<Summary, Refused>
    ensures { Answers result (broken_of job.now) (λ s. s ≡ summary_of job.now) }
{
    match checked(alloc, job)? {
        Ok(summary) => Ok(summary),
        Err(finding) => Err(Refused::Rule(Refusal::e(finding.fault.rule(), finding.place))),
    }
}

// The numbers of a job, or the first violation.
fn checked(alloc: Global, job: &Job) -> Result<Result<Summary, Found>, NoMemory>
    ensures { IfOk result (λ r. r ≡ after (first (answers_of job.now)) (Ok (summary_of job.now))) }
{
    match broken_rule(alloc, job)? {
        Some(finding) => Ok(Err(finding)),
        None => {
            let bodies = body_sizes(alloc, job.decls.as_slice())?;
            Ok(numbers(job, bodies.as_slice()))
        }
    }
}

// The first violation of the rules E15 to E25, E34 and E35.
#[tactic(auto, unfolding(crate::specs::Rules::broken_by), using(kp_base::proofs::Collecting::first_of_all, kp_base::proofs::Collecting::first_taken))]
fn broken_rule(alloc: Global, job: &Job) -> Result<Option<Found>, NoMemory>
    ensures { IfOk result (λ broken. broken ≡ broken_by (facts_of job.now) job.now) }
{
    let mut notes = Findings::new(alloc, 1);
    note_rules(alloc, &mut notes, job)?;
    Ok(notes.as_slice().first().copied())
}

// Notes the violations of the rules E15 to E25, E34 and E35.
fn note_rules(alloc: Global, notes: &mut Findings<Found>, job: &Job) -> Result<(), NoMemory>
    ensures { OnOk result (notes.new ≡ with_answers notes.old (asked_by (facts_of job.now) job.now)) }
{
    let facts = Facts::of(alloc, job)?;
    note_job(notes, &facts, job)
}

// Notes the violations of E28 and E29.
fn note_numbers(alloc: Global, notes: &mut Findings<Found>, job: &Job) -> Result<(), NoMemory>
    ensures { OnOk result (notes.new ≡ with_answers notes.old (first (sizes_of job.now).asked ∷ first (counts_of job.now).asked ∷ [])) }
{
    let bodies = body_sizes(alloc, job.decls.as_slice())?;
    notes.note(size_of(job, bodies.as_slice()).err())?;
    notes.note(count(job).err())
}

// The numbers of a job that keeps the other rules, or the first violation of E28 and E29.
fn numbers(job: &Job, bodies: &[u32]) -> Result<Summary, Found>
    requires rules { broken_by (facts_of job.now) job.now ≡ None }
    requires bodies { bodies.now ≡ capped_bodies job.now.decls }
    ensures { result ≡ after (first (first (sizes_of job.now).asked ∷ first (counts_of job.now).asked ∷ [])) (Ok (summary_of job.now)) }
{
    let size = size_of(job, bodies)?;
    let counts = count(job)?;
    Ok(summarize(job, size, counts))
}

#[tactic(auto, using(crate::proofs::Totals::size_total, crate::proofs::Totals::counts_total), unfolding(crate::specs::Counts::summary_of))]
fn summarize(job: &Job, size: u32, counts: Counts) -> Summary
    requires rules { broken_by (facts_of job.now) job.now ≡ None }
    requires size { size ≡ (sizes_of job.now).value }
    requires counts { counts ≡ (counts_of job.now).value }
    ensures { result ≡ summary_of job.now }
{
    Summary {
        stages: stage_count(job),
        regs: counts.regs,
        files: counts.files,
        pipes: counts.pipes,
        results: counts.results,
        hints: counts.hints,
        reads: counts.reads,
        guesses: counts.guesses,
        size,
        samples: counts.samples,
    }
}

// The number of stages, which E15 bounds.
#[tactic(auto, using(crate::proofs::Unbroken::few_stages))]
fn stage_count(job: &Job) -> u32
    requires { broken_by (facts_of job.now) job.now ≡ None }
    ensures { result ≡ job.now.stages.value }
{
    job.stages.value as u32
}
