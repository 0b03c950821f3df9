//! Laws about all generated jobs. Each function has an empty body: its clauses are laws.
ghost use Rattle.std.specs.Prelude.{◌≡◌, ◌≤◌, ℕ, None, length, sum_by};
ghost use Rattle.kp_base.specs.First.{first};
ghost use Rattle.kp_width.specs.Declarations.{functions_in};
ghost use Rattle.kp_stage.specs.Stages.{broken_of};
ghost use Rattle.kp_image.specs.Sections.{sections_of};
ghost use Rattle.kp_frontend.specs.Judging.{broken_in};
ghost use Rattle.kp_gen.specs.Generated.{gen_job};

/// A generated job has no function, at most 10 stages and at most 109 declarations.
#[tactic(auto, using(crate::proofs::Small::generated_no_functions, crate::proofs::Small::generated_few_blocks, crate::proofs::Small::generated_few_decls))]
pub fn a_generated_job_is_small()
    ensures functions { (start : ℕ) → sum_by functions_in (gen_job start).decls ≡ 0 }
    ensures blocks { (start : ℕ) → length (gen_job start).blocks ≤ 10 }
    ensures decls { (start : ℕ) → length (gen_job start).decls ≤ 109 }
{}

/// A generated job violates no rule of stages.
#[tactic(auto, using(crate::proofs::Holds::generated_stages_hold))]
pub fn generated_stages_are_right()
    ensures { (start : ℕ) → broken_of (gen_job start) ≡ None }
{}

/// A generated job violates no rule of the sections.
#[tactic(auto, using(crate::proofs::Holds::generated_sections_hold))]
pub fn generated_sections_are_right()
    ensures { (start : ℕ) → first (sections_of (gen_job start)).asked ≡ None }
{}

/// So a generated job violates none of the rules of a job.
#[tactic(auto, using(crate::proofs::Unbroken::generated_unbroken))]
pub fn a_generated_job_violates_no_rule()
    ensures { (start : ℕ) → broken_in (gen_job start) ≡ None }
{}
