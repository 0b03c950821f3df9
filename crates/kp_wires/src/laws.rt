//! The law of this crate. The function does nothing: its contract is the law.
ghost use Rattle.std.specs.Prelude.{List, All};
ghost use Rattle.kp_ast.specs.declared.tree.Job.{Job};
ghost use Rattle.kp_build.specs.Names.{Scope};
ghost use Rattle.kp_net.specs.Netlist.{Net};
ghost use Rattle.kp_synth.specs.Known.{HasStages};
ghost use Rattle.kp_synth_registers.specs.declared.outcome.Outcome.{Outcome};
ghost use Rattle.kp_wires.specs.{Table.wires_of, Truth.IsTrue};

/// In each cycle each wire of the table has the value of its signal in its stage of the pipelined machine.
pub fn wires_have_their_signals()
    ensures { (net : Net) (job : Job) (outs : List Outcome) (names : List Scope) → HasStages net job outs names → All (IsTrue job net) (wires_of net job outs names) }
{}
