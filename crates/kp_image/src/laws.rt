//! A law of the definitions of this crate. The function does nothing: its contract is the law.
ghost use Rattle.std.specs.Prelude.{◌≡◌, None};
ghost use Rattle.kp_base.specs.First.{first};
ghost use Rattle.kp_ast.specs.declared.tree.Job.{Job};
ghost use Rattle.kp_width.specs.Widths.{widths_of};
ghost use Rattle.kp_stage.specs.Start.{start_of, IsStartOf};
ghost use Rattle.kp_image.specs.Sections.{sections_of};

/// A job that violates no rule of names, widths and sections has a state in which a machine can start.
#[tactic(auto, using(crate::proofs::Given::starts))]
pub fn a_start_state_fits()
    ensures { (job : Job) → first (widths_of job).asked ≡ None → first (sections_of job).asked ≡ None → IsStartOf job (start_of job) }
{}
