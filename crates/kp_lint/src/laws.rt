//! The laws. Each function does nothing: its contract is the law.

ghost use Rattle.std.specs.Prelude.{ℕ, List};
ghost use Rattle.kp_ast.specs.declared.tree.Job.{Job};
ghost use Rattle.kp_lint.specs.Claims.{AreInVain, IsBetweenStages, UnsetIsZero};

/// Before the first statement of a stage the results are those before the stage, and after the last one those before the next stage.
#[tactic(auto, using(crate::proofs::Steps::between))]
pub fn the_statements_of_a_stage_join_it_to_the_next()
    ensures { (job : Job) → IsBetweenStages job }
{}

/// A set in vain never takes place: in no instruction of the sequential machine, on any state and with any samples, does it set its result, or another one.
#[tactic(auto, using(crate::proofs::Vain::are_in_vain))]
pub fn a_set_in_vain_never_takes_place()
    ensures { (job : Job) → AreInVain job }
{}

/// An instruction that doesn't set a result without an enable writes 0 to its target.
#[tactic(auto, using(crate::proofs::Zero::unset_is_zero))]
pub fn an_unset_result_is_written_as_zero()
    ensures { (job : Job) → UnsetIsZero job }
{}
