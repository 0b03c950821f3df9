//! What the definitions of rejections mean, as contracts of functions that do nothing.
ghost use Rattle.std.specs.Prelude.{◌≡◌, ◌<◌, ℕ, List, ◌∷◌, ◌++◌, Option, length, get_or, MatchOption};
ghost use Rattle.kp_base.specs.First.{first};
ghost use Rattle.kp_base.specs.declared.refusal.Refusal.{Refusal};

/// The first violated rule comes after answers that name no rule; where no answer names one, there is no first.
pub fn first_is_first()
    ensures found { (before rest : List (Option Refusal)) (broken : Refusal)
        → ((k : ℕ) → k < length before → get_or before k None ≡ None) → first (before ++ Some broken ∷ rest) ≡ Some broken }
    ensures none { (asked : List (Option Refusal))
        → ((k : ℕ) → k < length asked → get_or asked k None ≡ None) → first asked ≡ None }
{}
