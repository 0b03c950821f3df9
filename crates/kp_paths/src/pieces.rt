// Pieces of a row.
ghost use Rattle.std.specs.Prelude.{◌≡◌, ◌≤◌, ◌++◌, codes, decimal, length, map, string_bytes};
ghost use Rattle.kp_base.specs.Writer.{Wrote};
ghost use Rattle.kp_paths.specs.Text.{brackets as brackets_of, label, place_text};

use crate::stage_names::write_stage_left;
use kp_ast::ReadStmt;
use kp_base::{Piece, Sink, Writer};

// The longest label: two names of at most 64 bytes, ` = ` and `[..]`.
pub(crate) const LONGEST: usize = 135;

// The length of the label of a read.
pub(crate) fn label_length(read: &ReadStmt) -> usize
    ensures value { result ≡ length (label read.now) }
    ensures few { result ≤ LONGEST }
{
    read.name.name.bytes().len() + 3 + read.target.name.bytes().len() + brackets(read).len()
}

// The brackets of a read of a file.
pub(crate) fn brackets(read: &ReadStmt) -> &[u8]
    ensures value { result.now ≡ brackets_of read.now }
    ensures few { length result.now ≤ 4 }
{
    if read.address.is_some() { b"[..]" } else { b"" }
}

// The label of a read.
pub(crate) fn write_label<'a, K: Sink>(read: &'a ReadStmt, out: &mut Writer<'_, K>)
    ensures { Wrote K.held K.faults out.old out.new (label read.now) }
{
    out.pieces(&[
        Piece::Text(read.name.name.bytes()),
        Piece::Text(b" = "),
        Piece::Text(read.target.name.bytes()),
        Piece::Text(brackets(read)),
    ])
}

// Spaces, a line and a stage.
pub(crate) fn write_place<K: Sink>(
    names: &[String],
    pad: usize,
    line: u32,
    k: usize,
    out: &mut Writer<'_, K>,
)
    ensures { Wrote K.held K.faults out.old out.new (place_text (map string_bytes names.now) pad line k) }
{
    out.pieces(&[
        Piece::Spaces(pad),
        Piece::Column(6, u64::from(line)),
        Piece::Text(b"  "),
    ]);
    write_stage_left(names, k, out)
}
