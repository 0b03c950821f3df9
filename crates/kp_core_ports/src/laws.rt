//! Properties of the definitions of this crate. Each function does nothing: its contract is the law.
ghost use Rattle.std.specs.Prelude.{ℕ, List, ◌++◌};
ghost use Rattle.kp_ast.specs.declared.tree.Job.{Job};
ghost use Rattle.kp_net.specs.Netlist.{Net};
ghost use Rattle.kp_net.specs.Names.{IsNamed};
ghost use Rattle.kp_net.specs.Parts.{NetOk};
ghost use Rattle.kp_vlog.specs.Canon.{canon};
ghost use Rattle.kp_core_ports.specs.{declared.port.Port.Port, Core.header_ports, Core.added_lines, Core.core_text, Extended.IsExtended};

/// Without the ports in its header and the lines before its end, a module with ports is the canonical text of its netlist.
#[tactic(auto, unfolding(crate::specs::Core::core_text), using(crate::proofs::Extending::extended))]
pub fn without_added()
    ensures { (net : Net) (job : Job) (ports : List Port) (more : List ℕ) → NetOk net → IsNamed net
        → IsExtended (canon net) (header_ports job ports) (added_lines net job ports ++ more) (core_text net job ports more) }
{}
