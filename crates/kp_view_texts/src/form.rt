// What follows the mnemonic of an instruction, as messages write it.
ghost use Rattle.std.specs.Prelude.{◌≡◌};
ghost use Rattle.kp_view_texts.specs.Forms.{form_text, piece_text};

use kp_asm::Piece;

/// How a message names a piece of an instruction.
pub(crate) fn piece_text(piece: Piece) -> &'static str
    ensures { result.now ≡ piece_text piece }
{
    match piece {
        Piece::Register => "a register such as `r1`",
        Piece::Signed | Piece::Unsigned | Piece::Any => "a number",
        Piece::Label => "a label",
        Piece::Comma => "`,`",
        Piece::Open => "`(`",
        Piece::Close => "`)`",
        Piece::End => "the end of the line",
    }
}

/// How a message writes what follows a mnemonic of this form.
pub(crate) fn form_text(form: &[Piece]) -> &'static str
    ensures { result.now ≡ form_text form.now }
{
    match form {
        [Piece::Register, _, Piece::Register, _, Piece::Register, ..] => " rd, ra, rb",
        [Piece::Register, _, Piece::Register, ..] => " rd, ra, number",
        [Piece::Register, _, Piece::Label, ..] => " ra, label",
        [Piece::Register, _, _, Piece::Open, ..] => " rd, number(ra)",
        [Piece::Register, _, _, ..] => " rd, number",
        [Piece::Register, ..] => " ra",
        [Piece::Label, ..] => " label",
        [Piece::End, ..] => "",
        _ => " number",
    }
}
