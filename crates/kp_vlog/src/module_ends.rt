//! Laws about the end of a first module. Each function does nothing: its contract is the law.
ghost use Rattle.std.specs.Prelude.{◌≡◌, ◌+◌, ◌≤◌, ℕ, List, length};
ghost use Rattle.kp_vlog.specs.Splitting.{FirstEnds};

/// The first module of a text ends at exactly one offset, which is within the text.
pub fn a_first_module_ends_at_one_place()
    ensures some { (at : ℕ) (text : List ℕ) → (to : ℕ) × FirstEnds at text to }
    ensures one { (at : ℕ) (text : List ℕ) (to other : ℕ) → FirstEnds at text to → FirstEnds at text other → to ≡ other }
    ensures after { (at : ℕ) (text : List ℕ) (to : ℕ) → FirstEnds at text to → at ≤ to }
    ensures within { (at : ℕ) (text : List ℕ) (to : ℕ) → FirstEnds at text to → to ≤ at + length text }
{}
