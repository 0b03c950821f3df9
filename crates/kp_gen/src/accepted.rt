// A generated job violates no rule, so each step of the rules accepts it.
ghost use Rattle.std.specs.Prelude.{◌≡◌, ◌<◌, ◌^◌, length, sum_by, IfOk, None};
ghost use Rattle.kp_base.specs.First.{first};
ghost use Rattle.kp_width.specs.Declarations.{functions_in};
ghost use Rattle.kp_width.specs.Widths.{widths_of};
ghost use Rattle.kp_stage.specs.Design.{plan};
ghost use Rattle.kp_stage.specs.Start.{start_of, stall_word, input};
ghost use Rattle.kp_stage.specs.Stages.{broken_of};
ghost use Rattle.kp_image.specs.{Sections.sections_of, Spans.word_in, Feeds.row_in};
ghost use Rattle.kp_gen.specs.Generated.{gen_job};

use crate::job::generate;
use crate::stages::{
    a_generated_job_is_small, generated_sections_are_right, generated_stages_are_right,
};
use crate::widths::generated_names_are_right;
use kp_ast::{Job, Widths};
use kp_base::{NoMemory, Refused};
use kp_frontend::Accepted;
use kp_image::{Sections, start};
use kp_stage::Design;
use kp_width::widths;
use std::alloc::Global;

/// The generated job of this number: its design, its start state, and the stall words of its one entry. It violates no rule, so the only error is out
/// of memory.
pub fn generated(alloc: Global, number: u64) -> Result<Accepted, NoMemory>
    ensures { IfOk result (λ a. a.design.job ≡ gen_job number) }
{
    let job = generate(alloc, number)?;
    a_generated_job_is_small();
    generated_names_are_right();
    generated_stages_are_right();
    generated_sections_are_right();
    let widths = widths_of(alloc, &job)?;
    let design = design_of(alloc, job, widths)?;
    let sections = sections_of(alloc, &design)?;
    Ok(Accepted { design, sections })
}

// The widths of the names of a job that violates no rule of them.
fn widths_of(alloc: Global, job: &Job) -> Result<Widths, NoMemory>
    requires few_functions { sum_by functions_in job.now.decls < 2 ^ 32 }
    requires few_blocks { length job.now.blocks < 2 ^ 32 }
    requires right { first (widths_of job.now).asked ≡ None }
    ensures { IfOk result (λ w. w.entries ≡ (widths_of job.now).value) }
{
    match widths(alloc, job) {
        Ok(widths) => Ok(widths),
        Err(Refused::NoMemory) => Err(NoMemory),
        Err(Refused::Rule(_)) => unreachable!(),
    }
}

// The design of a job that violates no rule of stages.
fn design_of(alloc: Global, job: Job, widths: Widths) -> Result<Design, NoMemory>
    requires names { first (widths_of job).asked ≡ None }
    requires widths { widths.entries ≡ (widths_of job).value }
    requires stages { broken_of job ≡ None }
    ensures { IfOk result (λ d. d ≡ plan job widths.entries) }
{
    match Design::new(alloc, job, widths) {
        Ok(design) => Ok(design),
        Err(Refused::NoMemory) => Err(NoMemory),
        Err(Refused::Rule(_)) => unreachable!(),
    }
}

// The sections of a job that violates no rule of them.
fn sections_of(alloc: Global, design: &Design) -> Result<Sections, NoMemory>
    requires { first (sections_of design.now.job).asked ≡ None }
    ensures start { IfOk result (λ s. s.start ≡ start_of design.now.job) }
    ensures stalls { IfOk result (λ s. word_in s.stalls ≡ stall_word design.now.job) }
    ensures inputs { IfOk result (λ s. row_in s.inputs ≡ input design.now.job) }
{
    match start(alloc, design) {
        Ok(sections) => Ok(sections),
        Err(Refused::NoMemory) => Err(NoMemory),
        Err(Refused::Rule(_)) => unreachable!(),
    }
}
