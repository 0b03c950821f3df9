//! Consequences of the definitions of dumps.

ghost use Rattle.std.specs.Prelude.{◌≡◌, ◌≤◌, ℕ, None, Some, get_or, Ok};
ghost use Rattle.kp_bits.specs.Word.{Word};
ghost use Rattle.kp_vcd.specs.{Held.held, Held.Changes, Text.dump_text, Fitting.FitsForm, Reading.verdict};
ghost use Rattle.kp_vcd.specs.Recording.{Values, recorded, Lasts};
ghost use Rattle.kp_vcd.specs.declared.dump.Dump.{Dump};

/// If a signal that has a value had one at each time before, the dump of the changes has each value at its time (`held`), and no change repeats the
/// value before (`changes`).
pub fn the_changes_of_values_hold_them()
    ensures held { (d : Dump) (values : ℕ → Values) (n : ℕ) → d.moments ≡ recorded values n → Lasts values n
        → (T s : ℕ) (w : Word) → T ≤ n → get_or (values T) s None ≡ Some w → held d s T ≡ Some w }
    ensures changes { (d : Dump) (values : ℕ → Values) (n : ℕ) → d.moments ≡ recorded values n → Lasts values n → Changes d }
{}

/// The text that `write_dump` writes for a dump that fits the form violates no rule, and is read as this dump.
pub fn the_text_of_a_dump_is_read_as_this_dump()
    ensures { (d : Dump) → FitsForm d → verdict (dump_text d) ≡ Ok d }
{}
