//! Worked runs of small machines, by computation: they show that the laws aren't vacuous. The machines, their inputs
//! and their rows are defined in `specs/Examples.antt`.
#![tactic(auto, using(crate::proofs::WorkedRuns::accepted), unfolding(crate::specs::Pipeline::next_stage, crate::specs::Pipeline::next_visible, crate::specs::Pipeline::next_hints, crate::specs::Pipeline::ue, crate::specs::Pipeline::back, crate::specs::Pipeline::outcome, crate::specs::Pipeline::stall, crate::specs::Pipeline::above, crate::specs::Pipeline::from_stages, crate::specs::Sequential::before_stage, crate::specs::Sequential::seq, crate::specs::Timeline::next_hold, crate::specs::Timeline::moves_on, crate::specs::Timeline::blocked, crate::specs::Timeline::waits, crate::specs::Timeline::ready_above, crate::specs::Timeline::ready_from, crate::specs::Timeline::setting_stage))]

ghost use Rattle.std.specs.Prelude.{◌≡◌, ℕ, ◌≤◌, List, [], ◌∷◌, ◌+◌};
ghost use Rattle.kp_pipeline.specs.Accepted.{AcceptedButForWindow};
ghost use Rattle.kp_pipeline.specs.Claims.{Legal};
ghost use Rattle.kp_pipeline.specs.Examples.{RunsAs, late3, late3_rows, late3_stalls, late3_stalled_rows, near, near_start, near_rows, unk4, unk4_rows, ghw4, ghw4_start, ghw4_rows, hint3, hint3_rows, smp3, smp3_inputs, smp3_rows, early, quiets, zeros, ones, no_hints};
ghost use Rattle.kp_pipeline.specs.Rows.{pipe};
ghost use Rattle.kp_pipeline.specs.Timeline.{start_hold, timeline_rows};

/// A read waits for a result that is set late.
pub fn late3_waits()
    ensures run { RunsAs late3 ones no_hints (quiets 5) late3_rows (3 ∷ 2 ∷ 2 ∷ []) }
    ensures value { (pipe late3 ones no_hints (quiets 5)).visible 5 0 0 ≡ 3 }
    ensures timeline { timeline_rows late3 ones start_hold (quiets 5) ≡ late3_rows }
{}

/// A fresh result of a stalled stage isn't forwarded.
pub fn late3_waits_for_a_stalled_stage()
    ensures run { RunsAs late3 ones no_hints late3_stalls late3_stalled_rows (2 ∷ 2 ∷ 1 ∷ []) }
    ensures value { (pipe late3 ones no_hints late3_stalls).visible 5 0 0 ≡ 2 }
    ensures timeline { timeline_rows late3 ones start_hold late3_stalls ≡ late3_stalled_rows }
{}

/// The nearest of several hits is forwarded: with the farthest, word 1 would be 12 after six cycles.
pub fn near_takes_the_nearest()
    ensures run { RunsAs near near_start no_hints (quiets 7) near_rows (7 ∷ 6 ∷ 5 ∷ 4 ∷ []) }
    ensures before { (pipe near near_start no_hints (quiets 7)).visible 6 0 1 ≡ 13 }
    ensures value { (pipe near near_start no_hints (quiets 7)).visible 7 0 1 ≡ 14 }
{}

/// An unknown intent is a hit without a value.
pub fn unk4_waits_for_the_intent()
    ensures run { RunsAs unk4 (λ t a. 5) no_hints (quiets 5) unk4_rows (3 ∷ 2 ∷ 2 ∷ 1 ∷ []) }
    ensures value { (pipe unk4 (λ t a. 5) no_hints (quiets 5)).visible 5 0 0 ≡ 5 }
    ensures timeline { timeline_rows unk4 (λ t a. 5) start_hold (quiets 5) ≡ unk4_rows }
{}

/// A wrong guess of a register whose older writer turns out not to write is found, and leaves no trace.
pub fn ghw4_rolls_back()
    ensures run { RunsAs ghw4 ghw4_start no_hints (quiets 4) ghw4_rows (2 ∷ 1 ∷ 1 ∷ 1 ∷ []) }
    ensures x { (pipe ghw4 ghw4_start no_hints (quiets 4)).visible 4 0 0 ≡ 5 }
    ensures y { (pipe ghw4 ghw4_start no_hints (quiets 4)).visible 4 1 0 ≡ 5 }
    ensures later { (pipe ghw4 ghw4_start no_hints (quiets 6)).visible 5 1 0 ≡ 5 }
{}

/// A hint with a wrong value costs a rollback and nothing else.
pub fn hint3_rolls_back()
    ensures run { RunsAs hint3 ones no_hints (quiets 3) hint3_rows (1 ∷ 1 ∷ 1 ∷ []) }
    ensures value { (pipe hint3 ones no_hints (quiets 3)).visible 3 0 0 ≡ 2 }
{}

/// An instruction takes the sample value of the cycle in which it leaves the sample's stage.
pub fn smp3_takes_the_sample_that_it_leaves_with()
    ensures run { RunsAs smp3 zeros no_hints smp3_inputs smp3_rows (3 ∷ 2 ∷ 1 ∷ []) }
    ensures value { (pipe smp3 zeros no_hints smp3_inputs).visible 4 0 0 ≡ 7 }
{}

/// The window rule is necessary: a machine that satisfies all other rules, but writes target 1 before the guess of
/// target 0 is found wrong, has an illegal run.
pub fn window_rule_is_needed()
    ensures others { AcceptedButForWindow early }
    ensures window { early.last_guessed ≤ early.write_stage 1 + 1 → ⊥ }
    ensures illegal { Legal early zeros (quiets 5) (pipe early zeros no_hints (quiets 5)) → ⊥ }
{}
