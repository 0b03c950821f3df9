//! Worked runs of small machines, by computation: they show that the laws aren't vacuous. The machines, their inputs
//! and their rows are defined in `specs/Examples.antt`.
#![tactic(auto, using(crate::proofs::SpeculativeRuns::accepted), unfolding(crate::specs::Pipeline::next_stage, crate::specs::Pipeline::next_visible, crate::specs::Pipeline::next_hints, crate::specs::Pipeline::ue, crate::specs::Pipeline::back, crate::specs::Pipeline::outcome, crate::specs::Pipeline::stall, crate::specs::Pipeline::above, crate::specs::Pipeline::from_stages, crate::specs::Sequential::before_stage, crate::specs::Sequential::seq, crate::specs::SpeculativeTimeline::next_hold, crate::specs::SpeculativeTimeline::moves_on, crate::specs::SpeculativeTimeline::blocked, crate::specs::SpeculativeTimeline::waits, crate::specs::SpeculativeTimeline::ready_above, crate::specs::SpeculativeTimeline::ready_from, crate::specs::SpeculativeTimeline::setting_stage))]

ghost use Rattle.std.specs.Prelude.{◌≡◌, ℕ, List, [], ◌∷◌};
ghost use Rattle.kp_pipeline.specs.Examples.{RunsAs, quiets, zeros, no_hints};
ghost use Rattle.kp_pipeline.specs.Rows.{pipe, taken};
ghost use Rattle.kp_pipeline.specs.Timeline.{no_samples, start_hold};
ghost use Rattle.kp_pipeline.specs.SpeculativeTimeline.{timeline_rows, timeline_rows_taking};
ghost use Rattle.kp_pipeline.specs.RightPath.{NoWrongGuess};
ghost use Rattle.kp_pipeline.specs.SpeculativeExamples.{right3, right3_rows, sees5, sees5_inputs, sees5_rows};

/// Whether a stage that uses a sample waits depends on the present value alone: if that value needs no operand, the stage moves on.
pub fn sees5_looks_at_the_present_sample()
    ensures shown { (pipe sees5 zeros no_hints sees5_inputs).rows ≡ sees5_rows }
    ensures timeline { timeline_rows_taking sees5 zeros no_samples start_hold sees5_inputs ≡ sees5_rows }
{}

/// A guess that is always correct costs nothing.
pub fn right3_never_waits()
    ensures run { RunsAs right3 zeros no_hints (quiets 4) right3_rows (4 ∷ 3 ∷ 2 ∷ []) }
    ensures guesses { NoWrongGuess right3 zeros (taken right3 (quiets 4) right3_rows) no_hints start_hold (quiets 4) }
{}
