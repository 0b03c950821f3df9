//! Laws about all netlists that were read from a text. Each function does nothing: its contract is the law.
ghost use Rattle.std.specs.Prelude.{ℕ, List};
ghost use Rattle.kp_net.specs.Netlist.{Net};
ghost use Rattle.kp_implements.specs.Shows.{HasOutputs};
ghost use Rattle.kp_cycle.specs.Steps.{ShowsRows};
ghost use Rattle.kp_vlog.specs.Denote.{Denotes};

use kp_vlog::laws::a_text_denotes_a_named_netlist;

/// The netlist that a text denotes can be run with a monitor, whether it is the job's or not: `ext` has at most 12 bits, `full` and `ue` are as wide
/// as `ext`, and `back` has 4 bits.
pub fn a_netlist_that_was_read_has_its_outputs()
    ensures { (at : ℕ) (text : List ℕ) (net : Net) → Denotes at text net → HasOutputs net }
{
    a_text_denotes_a_named_netlist();
}

/// And that is what the simulator of netlists requires.
pub fn a_netlist_with_its_outputs_shows_rows()
    ensures shows { (net : Net) → HasOutputs net → ShowsRows net }
    ensures has { (net : Net) → ShowsRows net → HasOutputs net }
{}
