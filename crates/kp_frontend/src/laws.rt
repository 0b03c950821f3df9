//! Properties of the definitions of this crate. Each function does nothing: its contract is the law.
ghost use Rattle.std.specs.Prelude.{◌≡◌, ℕ, List, Result};
ghost use Rattle.kp_base.specs.declared.refusal.Refusal.{Refusal};
ghost use Rattle.kp_base.specs.First.{first};
ghost use Rattle.kp_ast.specs.declared.tree.Job.{Job};
ghost use Rattle.kp_frontend.specs.{Judging.Judges, Judging.JudgesHead};

/// An input has one verdict: one job, or one first violated rule at one position.
pub fn an_input_has_one_verdict()
    ensures some { (input : List ℕ) → (verdict : Result Job Refusal) × Judges input verdict }
    ensures one { (input : List ℕ) (a b : Result Job Refusal) → Judges input a → Judges input b → a ≡ b }
{}

/// The head of an input has one verdict: one job and one offset where the rest starts, or one first violated rule at one position.
pub fn a_head_has_one_verdict()
    ensures some { (input : List ℕ) → (verdict : Result (Job × ℕ) Refusal) × JudgesHead input verdict }
    ensures one { (input : List ℕ) (a b : Result (Job × ℕ) Refusal) → JudgesHead input a → JudgesHead input b → a ≡ b }
{}
