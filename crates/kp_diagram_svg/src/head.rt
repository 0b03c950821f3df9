// The head of a picture: its size, its title and its headline.
ghost use Rattle.std.specs.Prelude.{◌≡◌, ◌≤◌};
ghost use Rattle.kp_base.specs.Writer.{Wrote};
ghost use Rattle.kp_diagram_svg.specs.Sizes.{height_of, width_of};
ghost use Rattle.kp_diagram_svg.specs.Picture.{head, plural, shapes, title};

use crate::texts::{SHAPES, TITLE};
use kp_base::{Piece, Sink, Writer};

/// Writes the head of a picture of a machine of this name, with cells of this half width, and this many cycles and rows.
pub(crate) fn write_head<K: Sink>(
    name: &[u8],
    stages: u8,
    half: u64,
    cycles: u64,
    rows: u64,
    out: &mut Writer<'_, K>,
)
    requires half { 14 ≤ half }
    requires few { half ≤ 46 }
    requires cycles { cycles ≤ 1000 }
    requires rows { rows ≤ 1000 }
    ensures { Wrote K.held K.faults out.old out.new (head name.now stages half cycles rows) }
{
    write_title(
        name,
        u64::from(stages),
        cycles,
        width(half, cycles),
        height(rows),
        out,
    );
    write_shapes(half, cycles, rows, out)
}

fn width(half: u64, cycles: u64) -> u64
    requires half { half ≤ 46 }
    requires cycles { cycles ≤ 1000 }
    ensures { result ≡ width_of half cycles }
{
    (2 * half + 228 + 288).max(cycles * (2 * half + 4) + 116)
}

fn height(rows: u64) -> u64
    requires { rows ≤ 1000 }
    ensures { result ≡ height_of rows }
{
    28 * rows + 105 + 167
}

// The size, the title and the headline of a picture.
fn write_title<'a, K: Sink>(
    name: &'a [u8],
    stages: u64,
    cycles: u64,
    width: u64,
    height: u64,
    out: &mut Writer<'_, K>,
)
    ensures { Wrote K.held K.faults out.old out.new (title name.now stages cycles width height) }
{
    let s = plural(cycles);
    out.fill(
        TITLE,
        &[
            Piece::Number(width),
            Piece::Number(height),
            Piece::Number(width),
            Piece::Number(height),
            Piece::Text(name),
            Piece::Number(stages),
            Piece::Number(cycles),
            Piece::Text(s),
            Piece::Text(name),
            Piece::Number(stages),
            Piece::Number(cycles),
            Piece::Text(s),
        ],
    )
}

fn plural<'a>(count: u64) -> &'a [u8]
    ensures { result.now ≡ plural count }
{
    if count == 1 { b"" } else { b"s" }
}

// The shapes of cells of this half width, and the grid.
fn write_shapes<K: Sink>(half: u64, cycles: u64, rows: u64, out: &mut Writer<'_, K>)
    requires half { 14 ≤ half }
    requires few { half ≤ 46 }
    requires cycles { cycles ≤ 1000 }
    requires rows { rows ≤ 1000 }
    ensures { Wrote K.held K.faults out.old out.new (shapes half cycles rows) }
{
    let column = 2 * half + 4;
    out.fill(
        SHAPES,
        &[
            Piece::Number(half),
            Piece::Number(2 * half),
            Piece::Number(half - 6),
            Piece::Number(2 * (half - 6)),
            Piece::Number(half),
            Piece::Number(half),
            Piece::Number(half),
            Piece::Number(half),
            Piece::Number(half - 13),
            Piece::Number(2 * (half - 13)),
            Piece::Number(half - 11),
            Piece::Number(half - 11),
            Piece::Number(half - 11),
            Piece::Number(half + 2),
            Piece::Number(28 * rows),
            Piece::Number(half + 2),
            Piece::Number(column),
            Piece::Number(28 * rows),
            Piece::Number(cycles * column),
        ],
    )
}
