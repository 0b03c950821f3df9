// Pieces of a text.
ghost use Rattle.std.specs.Prelude.{flat_map};
ghost use Rattle.kp_base.specs.Bytes.{Writes};
ghost use Rattle.kp_base.specs.Causes.{HasCause};
ghost use Rattle.kp_bits.specs.Spelling.{spelling};
ghost use Rattle.kp_report.specs.{Texts.ending_of, inner.Pieces.piece_text, inner.Pieces.samples_text};

use itoa::Buffer;
use kp_base::{Sink, SinkFault, write_all, write_pieces};
use kp_bits::Bits;

/// A piece of a text: bytes, a number, a value as a literal, or the end of the line of a value, with the number of instructions that it reflects if
/// that is given.
#[derive(Clone, Copy)]
pub(crate) enum Piece<'a> {
    Text(&'a [u8]),
    Count(u32),
    Number(u64),
    Value(Bits),
    Ending(Option<u64>),
    /// The number of samples, if there are any, and the end of the line of an accepted job.
    Samples(u32),
}

/// Writes the pieces in order.
pub(crate) fn put_pieces<K: Sink>(sink: &mut K, pieces: &[Piece<'_>]) -> Result<(), SinkFault>
    ensures text { Writes (K.held sink.old) (K.held sink.new) (flat_map piece_text pieces.now) result }
    ensures cause { HasCause (K.faults sink.old) (K.faults sink.new) result }
{
    for piece in pieces {
        write_piece(sink, piece)?;
    }
    Ok(())
}

fn write_piece<K: Sink>(sink: &mut K, piece: &Piece<'_>) -> Result<(), SinkFault>
    ensures text { Writes (K.held sink.old) (K.held sink.new) (piece_text piece.now) result }
    ensures cause { HasCause (K.faults sink.old) (K.faults sink.new) result }
{
    match piece {
        Piece::Text(text) => write_all(sink, text),
        Piece::Count(count) => {
            let mut digits = Buffer::new();
            write_all(sink, digits.format(*count).as_bytes())
        }
        Piece::Number(number) => {
            let mut digits = Buffer::new();
            write_all(sink, digits.format(*number).as_bytes())
        }
        Piece::Value(value) => write_value(*value, sink),
        Piece::Ending(behind) => write_ending(*behind, sink),
        Piece::Samples(count) => write_samples(*count, sink),
    }
}

fn write_value<K: Sink>(value: Bits, sink: &mut K) -> Result<(), SinkFault>
    ensures text { Writes (K.held sink.old) (K.held sink.new) (spelling value) result }
    ensures cause { HasCause (K.faults sink.old) (K.faults sink.new) result }
{
    let mut spelled = [0; 20];
    let length = value.spell(&mut spelled);
    write_all(sink, &spelled[..length])
}

#[tactic(auto, unfolding(crate::specs::Texts::ending_of))]
fn write_ending<K: Sink>(behind: Option<u64>, sink: &mut K) -> Result<(), SinkFault>
    ensures text { Writes (K.held sink.old) (K.held sink.new) (ending_of behind) result }
    ensures cause { HasCause (K.faults sink.old) (K.faults sink.new) result }
{
    let Some(count) = behind else {
        return write_all(sink, b"\n");
    };
    let mut digits = Buffer::new();
    let pieces = [
        b" after ".as_slice(),
        digits.format(count).as_bytes(),
        b"\n".as_slice(),
    ];
    write_pieces(sink, &pieces)
}

fn write_samples<K: Sink>(count: u32, sink: &mut K) -> Result<(), SinkFault>
    ensures text { Writes (K.held sink.old) (K.held sink.new) (samples_text count) result }
    ensures cause { HasCause (K.faults sink.old) (K.faults sink.new) result }
{
    if count == 0 {
        return write_all(sink, b"\n");
    }
    let mut digits = Buffer::new();
    let pieces = [
        b" samples ".as_slice(),
        digits.format(count).as_bytes(),
        b"\n".as_slice(),
    ];
    write_pieces(sink, &pieces)
}
