// Pieces of a text.
ghost use Rattle.std.specs.Prelude.{◌≡◌, flat_map};
ghost use Rattle.kp_diagram_text.specs.Text.{counted as counted_text, in_column, spaces};
ghost use Rattle.kp_diagram_text.specs.{Writing.Wrote, inner.Pieces.piece_text};

use crate::writer::Writing;
use itoa::Buffer;
use kp_base::Sink;

/// A piece of a text.
#[derive(Clone, Copy)]
pub(crate) enum Piece<'a> {
    Text(&'a [u8]),
    Number(u64),
    /// A number at the right end of a column of this width.
    Column(usize, u64),
    Spaces(usize),
}

// Writes the pieces in order.
#[tactic(auto, using(crate::proofs::InOrder::each_more, crate::proofs::InOrder::each_all, crate::proofs::InOrder::wrote_none))]
pub(crate) fn write_parts<K: Sink>(writing: &mut Writing, sink: &mut K, pieces: &[Piece<'_>])
    ensures { Wrote (K.held sink.old) (K.faults sink.old) writing.old (K.held sink.new) (K.faults sink.new) writing.new (flat_map piece_text pieces.now) }
{
    for piece in pieces {
        write_piece(writing, sink, *piece);
    }
}

pub(crate) fn write_piece<K: Sink>(writing: &mut Writing, sink: &mut K, piece: Piece<'_>)
    ensures { Wrote (K.held sink.old) (K.faults sink.old) writing.old (K.held sink.new) (K.faults sink.new) writing.new (piece_text piece.entry) }
{
    match piece {
        Piece::Text(text) => writing.put(sink, text),
        Piece::Number(number) => {
            let mut buffer = Buffer::new();
            writing.put(sink, buffer.format(number).as_bytes())
        }
        Piece::Column(width, number) => {
            let mut buffer = Buffer::new();
            write_column(width, buffer.format(number).as_bytes(), writing, sink)
        }
        Piece::Spaces(count) => write_spaces(count, writing, sink),
    }
}

// A text at the right end of a column.
fn write_column<K: Sink>(width: usize, text: &[u8], writing: &mut Writing, sink: &mut K)
    ensures { Wrote (K.held sink.old) (K.faults sink.old) writing.old (K.held sink.new) (K.faults sink.new) writing.new (in_column width text.now) }
{
    let room = width.saturating_sub(text.len());
    write_spaces(room, writing, sink);
    writing.put(sink, text)
}

// `count` spaces.
#[tactic(auto, using(crate::proofs::InOrder::up_none))]
fn write_spaces<K: Sink>(count: usize, writing: &mut Writing, sink: &mut K)
    ensures { Wrote (K.held sink.old) (K.faults sink.old) writing.old (K.held sink.new) (K.faults sink.new) writing.new (spaces count) }
{
    let blank = [b' '; 64];
    let mut left = count;
    while left > 0 {
        let here = left.min(64);
        writing.put(sink, &blank[..here]);
        left -= here;
    }
}

// One text for a count of 1, and another for any other.
pub(crate) fn counted<'a>(count: u64, one: &'a [u8], more: &'a [u8]) -> &'a [u8]
    ensures { result.now ≡ counted_text count one.now more.now }
{
    if count == 1 { one } else { more }
}
