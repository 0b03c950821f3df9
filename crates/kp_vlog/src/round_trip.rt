//! The law that the canonical text of a netlist denotes the netlist. The function does nothing: its contract is the law.
ghost use Rattle.kp_net.specs.Names.{IsNamed};
ghost use Rattle.kp_net.specs.Netlist.{Net};
ghost use Rattle.kp_net.specs.Parts.{NetOk};
ghost use Rattle.kp_vlog.specs.Canon.{canon};
ghost use Rattle.kp_vlog.specs.Denote.{Denotes};

/// The canonical text of a well-formed netlist with names that a text can denote violates no rule and denotes the netlist.
#[tactic(auto, using(crate::proofs::Round::round))]
pub fn a_canonical_text_denotes_its_netlist()
    ensures { (net : Net) → NetOk net → IsNamed net → Denotes 0 (canon net) net }
{}
