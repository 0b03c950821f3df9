// The job that an input describes, or the first rule that the input violates.
ghost use Rattle.std.specs.Prelude.{◌≡◌, ◌≤◌, length, IfOk};
ghost use Rattle.kp_base.specs.First.{Answers};
ghost use Rattle.kp_frontend.specs.Judging.{broken_in, most_bytes};
ghost use Rattle.kp_frontend.specs.Accepting.{AnswersText, AnswersHead};
ghost use Rattle.kp_frontend.specs.inner.Reading.{AnswersTree, AnswersRead, IsCountable};

use crate::accepted::{Accepted, Head};
use kp_ast::Job;
use kp_base::{Refusal, Refused};
use kp_image::start;
use kp_lex::{lex, tail};
use kp_parse::{Parsed, parse};
use kp_stage::Design;
use kp_width::widths;
use std::alloc::Global;

/// The verdict on a text that is not too long: its job, or the first rule that it violates. The error `NoMemory` is no verdict on the text.
#[tactic(auto, using(crate::proofs::Judged::judged))]
pub fn judge(alloc: Global, text: &[u8]) -> Result<Accepted, Refused>
    requires { length text.now ≤ most_bytes }
    ensures { AnswersText text.now result }
{
    let job = read_tree(alloc, text)?;
    accept(alloc, job)
}

/// The verdict on the head of a text that is not too long: its job, and the offset where the rest starts, after the
/// job's `end`; or the first rule that the head violates. The text after the `end` isn't read. The error `NoMemory`
/// is no verdict on the text.
pub fn judge_head(alloc: Global, text: &[u8]) -> Result<Head, Refused>
    requires { length text.now ≤ most_bytes }
    ensures answer { AnswersHead text.now result }
    ensures within { IfOk result (λ h. h.rest ≤ length text.now) }
{
    let Parsed { job: tree, rest } = read_head(alloc, text)?;
    let job = accept(alloc, tree)?;
    Ok(Head { job, rest })
}

// The tree of a text that ends with its `end`.
fn read_tree(alloc: Global, text: &[u8]) -> Result<Job, Refused>
    requires { length text.now ≤ most_bytes }
    ensures { AnswersTree text.now result }
{
    let Parsed { job, rest } = read_head(alloc, text)?;
    match tail(text, rest) {
        Some(place) => Err(Refused::Rule(Refusal::e(4, place))),
        None => Ok(job),
    }
}

// The tree at the head of a text.
fn read_head(alloc: Global, text: &[u8]) -> Result<Parsed, Refused>
    requires { length text.now ≤ most_bytes }
    ensures { AnswersRead text.now result }
{
    let lexed = lex(alloc, text)?;
    parse(alloc, &lexed, text)
}

// The design and the sections of a tree, or the first rule that it violates.
#[tactic(auto, unfolding(crate::specs::Judging::broken_in))]
fn accept(alloc: Global, job: Job) -> Result<Accepted, Refused>
    requires { IsCountable job }
    ensures { Answers result (broken_in job) (λ a. a.design.job ≡ job) }
{
    let widths = widths(alloc, &job)?;
    let design = Design::new(alloc, job, widths)?;
    let sections = start(alloc, &design)?;
    Ok(Accepted { design, sections })
}
