// The line of a value, with or without the number of instructions that it reflects.
ghost use Rattle.kp_base.specs.Bytes.{Writes};
ghost use Rattle.kp_base.specs.Causes.{HasCause};
ghost use Rattle.kp_report.specs.States.{line_of_word};
ghost use Rattle.kp_report.specs.Texts.{register_line, word_line};

use crate::pieces::{Piece, put_pieces};
use kp_base::{Sink, SinkFault};
use kp_bits::Bits;

/// Writes the line of a register; `after N` ends it if the number of instructions that the value reflects is given. A fault comes only from the sink,
/// which then has a prefix of the line.
#[tactic(auto, unfolding(crate::specs::Texts::register_value))]
pub fn write_register<K: Sink>(
    name: &[u8],
    value: Bits,
    behind: Option<u64>,
    sink: &mut K,
) -> Result<(), SinkFault>
    ensures text { Writes (K.held sink.old) (K.held sink.new) (register_line name.now value behind) result }
    ensures cause { HasCause (K.faults sink.old) (K.faults sink.new) result }
{
    let pieces = [
        Piece::Text(name),
        Piece::Text(b" = "),
        Piece::Value(value),
        Piece::Ending(behind),
    ];
    put_pieces(sink, &pieces)
}

/// Writes the line of a word of a file unless the word is 0; `after N` ends it if the number of instructions that the value reflects is given. A
/// fault comes only from the sink, which then has a prefix of the line.
pub fn write_word<K: Sink>(
    name: &[u8],
    address: u32,
    value: Bits,
    behind: Option<u64>,
    sink: &mut K,
) -> Result<(), SinkFault>
    ensures text { Writes (K.held sink.old) (K.held sink.new) (line_of_word name.now value.width behind address value.value) result }
    ensures cause { HasCause (K.faults sink.old) (K.faults sink.new) result }
{
    if value.value() == 0 {
        return Ok(());
    }
    write_word_line(name, address, value, behind, sink)
}

/// Writes the line of a word of a file, whatever the word is.
#[tactic(auto, unfolding(crate::specs::Texts::word_value))]
pub fn write_word_line<K: Sink>(
    name: &[u8],
    address: u32,
    value: Bits,
    behind: Option<u64>,
    sink: &mut K,
) -> Result<(), SinkFault>
    ensures text { Writes (K.held sink.old) (K.held sink.new) (word_line name.now address value behind) result }
    ensures cause { HasCause (K.faults sink.old) (K.faults sink.new) result }
{
    let pieces = [
        Piece::Text(name),
        Piece::Text(b"["),
        Piece::Count(address),
        Piece::Text(b"] = "),
        Piece::Value(value),
        Piece::Ending(behind),
    ];
    put_pieces(sink, &pieces)
}
