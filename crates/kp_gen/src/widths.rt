//! A law about all generated jobs. The function has an empty body: its clause is the law.
ghost use Rattle.std.specs.Prelude.{◌≡◌, ℕ, None};
ghost use Rattle.kp_base.specs.First.{first};
ghost use Rattle.kp_width.specs.Widths.{widths_of};
ghost use Rattle.kp_gen.specs.Generated.{gen_job};

/// A generated job violates no rule of names and widths.
#[tactic(auto, using(crate::proofs::NamesHold::generated_names_hold))]
pub fn generated_names_are_right()
    ensures { (start : ℕ) → first (widths_of (gen_job start)).asked ≡ None }
{}
