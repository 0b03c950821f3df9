// The sections of a job.
ghost use Rattle.std.specs.Prelude.{◌≡◌, ◌≤◌, ℕ, IfOk, None};
ghost use Rattle.std.specs.List.{All};
ghost use Rattle.kp_base.specs.First.{Answers, first};
ghost use Rattle.kp_stage.specs.Start.{start_of, image_of, stalls_of, stall_word, inputs_of, input, IsStartOf, AreSamples};
ghost use Rattle.kp_image.specs.{Sections.sections_of, Sections.stall_of, inner.Fits.StartFits, Spans.word_in, Feeds.row_in, inner.Kept.InputsFit};

use crate::check::{check, entries};
use crate::inputs::InputPattern;
use crate::stalls::StallPattern;
use crate::state::start_state;
use kp_ast::Job;
use kp_base::{NoMemory, Refused};
use kp_stage::{Design, Start};
use std::alloc::Global;

/// The contents of a job's sections.
pub struct Sections {
    pub start: Start,
    pub stalls: StallPattern,
    pub inputs: InputPattern,
}

impl Drop for Sections {
    fn drop(self) {
        let Sections {
            start,
            stalls,
            inputs,
        } = self;
        drop(start);
        drop(stalls);
        drop(inputs);
    }
}

/// The start state of a design, its stall words and the values of its samples. Errors: the first of the rules E30 to
/// E32, E36, E37, E8, E10 and E13 that a section violates, in text order; or out of memory.
#[tactic(auto, using(crate::proofs::Given::start_fits, crate::proofs::Given::stalls_right, crate::proofs::Given::inputs_fit, crate::proofs::Given::starts, crate::proofs::Given::few_stages_of))]
pub fn start(alloc: Global, d: &Design) -> Result<Sections, Refused>
    ensures rules { Answers result (first (sections_of d.now.job).asked) (λ s. (s.start ≡ start_of d.now.job) × (word_in s.stalls ≡ stall_word d.now.job) × (row_in s.inputs ≡ input d.now.job)) }
    ensures suits { IfOk result (λ s. IsStartOf d.now.job s.start) }
    ensures rows { IfOk result (λ s. (cycle : ℕ) → AreSamples d.now.job.decls (row_in s.inputs cycle)) }
{
    let job = d.job();
    check(alloc, job)?;
    Ok(read_sections(alloc, job)?)
}

// The sections of a job that violates no rule.
#[tactic(auto, using(crate::proofs::Patterns::words_of_pattern, crate::proofs::Feeding::rows_of_feeds))]
fn read_sections(alloc: Global, job: &Job) -> Result<Sections, NoMemory>
    requires few { job.now.stages.value ≤ 12 }
    requires start { All (StartFits (image_of job.now)) job.now.decls }
    requires stalls { All (λ e. stall_of job.now.stages.value e ≡ None) (stalls_of job.now) }
    requires inputs { All (InputsFit (inputs_of job.now)) job.now.decls }
    ensures start { IfOk result (λ s. s.start ≡ start_of job.now) }
    ensures stalls { IfOk result (λ s. word_in s.stalls ≡ stall_word job.now) }
    ensures inputs { IfOk result (λ s. row_in s.inputs ≡ input job.now) }
{
    let start = start_state(alloc, job)?;
    let stalls = StallPattern::of(alloc, job.stages.value, entries(&job.stalls))?;
    let inputs = InputPattern::of(alloc, entries(&job.inputs), job.decls.as_slice())?;
    Ok(Sections {
        start,
        stalls,
        inputs,
    })
}
