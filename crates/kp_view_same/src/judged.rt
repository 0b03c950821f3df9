// An input, as it is judged.
ghost use Rattle.std.specs.Prelude.{◌≤◌, ℕ, List, length, IfOk};
ghost use Rattle.kp_frontend.specs.Judging.{most_bytes};
ghost use Rattle.kp_view_same.specs.inner.Inputs.{Holds, IsJudged, IsShort};

use crate::input::Input;
use kp_base::{NoMemory, Refused};
use kp_frontend::{Accepted, judge};
use kp_view_explain::{Explanation, Subject, explain, explain_excess};
use std::alloc::Global;

/// A job that violates no rule, or what is said of the first rule that an input violates.
#[derive(Drop)]
pub(crate) enum Judged {
    Job(Accepted),
    Refused(Explanation),
}

/// Judges an input from a file of this name.
#[tactic(auto, using(crate::proofs::Judging::of_excess))]
pub(crate) fn judge_input(alloc: Global, file: &[u8], input: &Input) -> Result<Judged, NoMemory>
    requires { IsShort input.now }
    ensures { IfOk result (λ j. (taken : List ℕ) → Holds input.now taken → IsJudged file.now taken j) }
{
    match input {
        Input::Text(text) => judged_text(alloc, file, text.as_slice()),
        Input::TooLong => Ok(Judged::Refused(explain_excess(alloc, file)?)),
    }
}

// The same of a text that is not too long.
#[tactic(auto, using(crate::proofs::Judging::accepted, crate::proofs::Judging::refused))]
fn judged_text(alloc: Global, file: &[u8], text: &[u8]) -> Result<Judged, NoMemory>
    requires { length text.now ≤ most_bytes }
    ensures { IfOk result (IsJudged file.now text.now) }
{
    match judge(alloc, text) {
        Ok(job) => Ok(Judged::Job(job)),
        Err(Refused::NoMemory) => Err(NoMemory),
        Err(Refused::Rule(_)) => Ok(Judged::Refused(explain(
            alloc,
            file,
            Subject::Job,
            false,
            text,
        )?)),
    }
}
