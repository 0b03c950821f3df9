//! What the offset of a place means, as a contract of a function that does nothing.
ghost use Rattle.std.specs.Prelude.{◌≡◌, ℕ, List, ◌++◌, length};
ghost use Rattle.kp_base.specs.Place.{place_after};
ghost use Rattle.kp_view_excerpt.specs.Lines.{AreLines, IsInLine, first_line, from_place, offset_at};

/// The place of a byte of a text, which `place_of` of kp_base returns, is found again: its offset is that of the byte, and the rest of its line begins there.
/// Of a line in which the byte is after a carriage return this is not said.
pub fn the_place_of_a_byte_is_found()
    ensures offset { (lines part rest : List ℕ) → AreLines lines → IsInLine part
        → offset_at (lines ++ (part ++ rest)) (place_after (lines ++ part)) ≡ length (lines ++ part) }
    ensures line { (lines part rest : List ℕ) → AreLines lines → IsInLine part
        → from_place (lines ++ (part ++ rest)) (place_after (lines ++ part)) ≡ first_line rest }
{}
