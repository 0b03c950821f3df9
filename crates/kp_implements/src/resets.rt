//! Properties of every netlist that restarts whenever its reset is raised, however it was built, and whatever its other registers are.

ghost use Rattle.std.specs.Prelude.{◌≡◌, ℕ, suc, List, ◌∷◌, ◌++◌, drop, length, true};
ghost use Rattle.kp_pipeline.specs.Claims.{Moves, HighestStays};
ghost use Rattle.kp_pipeline.specs.Timeline.{start_hold, timeline_rows};
ghost use Rattle.kp_stage.specs.Counts.{summary_of};
ghost use Rattle.kp_machine.specs.Machine.{machine_of};
ghost use Rattle.kp_net.specs.Netlist.{Net, Input, State, state_after, last_of};
ghost use Rattle.kp_machine.specs.Words.{HasWord};
ghost use Rattle.kp_implements.specs.{Naming.value_shown, Shows.Shows, Traces.trace_of, Traces.inputs_seen, Traces.AreQuiet};
ghost use Rattle.kp_implements.specs.{Legal.value_from, Legal.IsLegalFrom, Anew.trace_from, Anew.left_by_reset, Anew.HasMemory, Anew.BeginsAnew};
ghost use Rattle.kp_implements.specs.Cuts.{to_reset, since, begins_with};

use kp_machine::laws::{
    a_design_is_legal, a_design_moves, rows_of_a_design_are_the_timeline,
    the_highest_full_stage_of_a_design_stays,
};
use kp_stage::Design;

/// In whatever state with complete files the reset is raised, at power-up or in a run: from then until the reset is
/// raised again, the run of a netlist that restarts is legal for the sequential machine that starts with the start
/// values of the registers, and with the contents of the files in this state (`legal`). It is live (`moves`), and its
/// highest full stage is never squashed (`stays`).
pub fn a_netlist_that_begins_anew_is_legal_and_moves(design: &Design)
    ensures legal { (net : Net) (st : State) (i : Input) (ins : List Input) → BeginsAnew net design.now.job → HasMemory net st → i.reset ≡ true → AreQuiet ins
        → IsLegalFrom design.now.job (left_by_reset design.now.job (value_shown design.now.job net st)) (inputs_seen design.now.job ins)
        (trace_from design.now.job net (state_after net i st) ins) }
    ensures moves { (net : Net) (st : State) (i : Input) (ins : List Input) → BeginsAnew net design.now.job → HasMemory net st → i.reset ≡ true → AreQuiet ins
        → Moves (machine_of design.now.job) (inputs_seen design.now.job ins) (trace_from design.now.job net (state_after net i st) ins) }
    ensures stays { (net : Net) (st : State) (i : Input) (ins : List Input) → BeginsAnew net design.now.job → HasMemory net st → i.reset ≡ true → AreQuiet ins
        → HighestStays (machine_of design.now.job).stages (trace_from design.now.job net (state_after net i st) ins).rows }
{
    a_design_is_legal(design);
    a_design_moves(design);
    the_highest_full_stage_of_a_design_stays(design);
}

/// If a design has no guesses and no samples, the rows from there on are those of the timeline of that machine.
pub fn a_netlist_that_begins_anew_has_no_needless_stall(design: &Design)
    requires guesses { (summary_of design.now.job).guesses ≡ 0 }
    requires samples { (summary_of design.now.job).samples ≡ 0 }
    ensures { (net : Net) (st : State) (i : Input) (ins : List Input) → BeginsAnew net design.now.job → HasMemory net st → i.reset ≡ true → AreQuiet ins
        → (trace_from design.now.job net (state_after net i st) ins).rows
        ≡ timeline_rows (machine_of design.now.job) (left_by_reset design.now.job (value_shown design.now.job net st)) start_hold (inputs_seen design.now.job ins) }
{
    rows_of_a_design_are_the_timeline(design);
}

/// No input after the last reset of a list of inputs raises it, and the input just before these, if there was a reset, does.
pub fn to_reset_leads_to_the_last_reset()
    ensures quiet { (ins : List Input) → AreQuiet (drop (to_reset ins) ins) }
    ensures raised { (ins : List Input) (n : ℕ) → to_reset ins ≡ suc n
        → (before : List Input) × (i : Input) × (ins ≡ before ++ i ∷ drop (to_reset ins) ins) × (n ≡ length before) × (i.reset ≡ true) }
{}

/// So for EVERY list of inputs, with resets wherever they are raised: the run from the last reset on, or from the
/// start if there is none, is legal for the sequential machine that starts there, and live. Each stretch between two
/// resets is the last one of a prefix of the list.
pub fn every_run_is_legal_and_moves_from_its_last_reset_on(design: &Design)
    ensures legal { (net : Net) (ins : List Input) → Shows net design.now.job → BeginsAnew net design.now.job
        → IsLegalFrom design.now.job (begins_with design.now.job (trace_of design.now.job net ins) (to_reset ins))
        (inputs_seen design.now.job (drop (to_reset ins) ins)) (since (to_reset ins) (trace_of design.now.job net ins)) }
    ensures moves { (net : Net) (ins : List Input) → Shows net design.now.job → BeginsAnew net design.now.job
        → Moves (machine_of design.now.job) (inputs_seen design.now.job (drop (to_reset ins) ins)) (since (to_reset ins) (trace_of design.now.job net ins)) }
{
    a_design_is_legal(design);
    a_design_moves(design);
}

/// The values of registers and files in the last state of a run, and so the contents with which the machine restarts
/// after a reset, are those of the sequential machine of the stretch since the last reset, after as many instructions
/// as have passed their write stages in it.
pub fn memory_is_what_instructions_left(design: &Design)
    ensures { (net : Net) (ins : List Input) (t a : ℕ) → Shows net design.now.job → BeginsAnew net design.now.job → HasWord design.now.job t a
        → value_shown design.now.job net (last_of net ins) t a
        ≡ value_from design.now.job (begins_with design.now.job (trace_of design.now.job net ins) (to_reset ins))
        (inputs_seen design.now.job (drop (to_reset ins) ins)) (since (to_reset ins) (trace_of design.now.job net ins)).rows
        (length (drop (to_reset ins) ins)) t a }
{
    every_run_is_legal_and_moves_from_its_last_reset_on(design);
}
