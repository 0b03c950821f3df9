//! The law of this crate. The function does nothing: its contract is the law.
ghost use Rattle.std.specs.Prelude.{List};
ghost use Rattle.kp_wires.specs.declared.wire.Wire.{Wire};
ghost use Rattle.kp_depth.specs.{Statements.NamesExactly, declared.stages.Path.Path};

/// The wires whose statements are named beside a path are exactly those of the table whose node is on it.
#[tactic(auto, using(crate::proofs::OnPath::names_exactly))]
pub fn the_statements_on_a_path_are_named()
    ensures { (wires : List Wire) (path : Path) → NamesExactly wires path }
{}
