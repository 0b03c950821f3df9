//! Properties of every netlist that shows the pipelined machine of a design, however it was built, and whatever its other registers are.

ghost use Rattle.std.specs.Prelude.{◌≡◌, List};
ghost use Rattle.kp_pipeline.specs.Claims.{Moves, HighestStays};
ghost use Rattle.kp_pipeline.specs.Timeline.{start_hold, timeline_rows};
ghost use Rattle.kp_stage.specs.Counts.{summary_of};
ghost use Rattle.kp_stage.specs.Start.{start_of};
ghost use Rattle.kp_machine.specs.Machine.{machine_of, state_of};
ghost use Rattle.kp_net.specs.Netlist.{Net, Input};
ghost use Rattle.kp_sched.specs.Runs.{IsLegal};
ghost use Rattle.kp_implements.specs.{Shows.Shows, Traces.trace_of, Traces.inputs_seen, Traces.AreQuiet};

use kp_machine::laws::rows_of_a_design_are_the_timeline;
use kp_sched::laws::what_shows_alike_is_legal_and_moves;
use kp_stage::Design;

/// For every list of inputs that never raise the reset, each register and each word of a file has its value in the
/// sequential machine after as many instructions as there were update enables of its write stage (`legal`); in each
/// stall-free cycle the highest full stage updates, and any n of these retire an instruction, where n is the number
/// of stages (`moves`); and the highest full stage is never squashed (`stays`).
pub fn a_netlist_that_shows_is_legal_and_moves(design: &Design)
    ensures legal { (net : Net) (ins : List Input) → Shows net design.now.job → AreQuiet ins
        → IsLegal design.now.job (inputs_seen design.now.job ins) (trace_of design.now.job net ins) }
    ensures moves { (net : Net) (ins : List Input) → Shows net design.now.job → AreQuiet ins
        → Moves (machine_of design.now.job) (inputs_seen design.now.job ins) (trace_of design.now.job net ins) }
    ensures stays { (net : Net) (ins : List Input) → Shows net design.now.job → AreQuiet ins
        → HighestStays (machine_of design.now.job).stages (trace_of design.now.job net ins).rows }
{
    what_shows_alike_is_legal_and_moves(design);
}

/// No needless stall: if a design has no guesses and no samples, the rows of the netlist are those of the timeline,
/// which is computed from the values of the sequential machine alone.
pub fn a_netlist_that_shows_has_no_needless_stall(design: &Design)
    requires guesses { (summary_of design.now.job).guesses ≡ 0 }
    requires samples { (summary_of design.now.job).samples ≡ 0 }
    ensures { (net : Net) (ins : List Input) → Shows net design.now.job → AreQuiet ins
        → (trace_of design.now.job net ins).rows
        ≡ timeline_rows (machine_of design.now.job) (state_of design.now.job (start_of design.now.job)) start_hold (inputs_seen design.now.job ins) }
{
    rows_of_a_design_are_the_timeline(design);
}
