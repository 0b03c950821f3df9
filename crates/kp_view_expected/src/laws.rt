//! Properties of the definitions of this crate. Each function does nothing: its contract is the law.
ghost use Rattle.std.specs.Prelude.{◌≡◌, ◌↔◌, length};
ghost use Rattle.kp_view_expected.specs.GoesOn.{Lists};
ghost use Rattle.kp_view_expected.specs.Texts.{IsNamed};
ghost use Rattle.kp_view_expected.specs.declared.set.Expected.{Expected};
ghost use Rattle.kp_view_expected.specs.declared.token_class.TokenClass.{TokenClass};

/// The list that is written for a set names exactly the classes of the set.
#[tactic(auto, using(crate::proofs::Named::named_exactly))]
pub fn a_list_names_its_set()
    ensures { (e : Expected) → length e.listed ≡ 53 → (c : TokenClass) → Lists e c ↔ IsNamed e c }
{}
