// The line of a run.
ghost use Rattle.kp_base.specs.Bytes.{Writes};
ghost use Rattle.kp_base.specs.Causes.{HasCause};
ghost use Rattle.kp_report.specs.Line.{totals_line};

use crate::pieces::{Piece, put_pieces};
use kp_base::{Sink, SinkFault};

/// The totals of a run of a job.
#[derive(Clone, Copy)]
pub struct Totals {
    pub stages: u64,
    pub registers: u64,
    pub cycles: u64,
    /// The number of retired instructions.
    pub retired: u64,
    /// The number of cycles in which stage 0 accepted no instruction.
    pub waits: u64,
    /// The sum of the values of the registers, modulo 2^64.
    pub sum: u64,
}

/// Writes the number of a generated job and the totals of its run, in one line. A fault comes only from the sink, which then has a prefix of the
/// line.
pub fn write_totals<K: Sink>(number: u64, totals: Totals, sink: &mut K) -> Result<(), SinkFault>
    ensures text { Writes (K.held sink.old) (K.held sink.new) (totals_line number totals) result }
    ensures cause { HasCause (K.faults sink.old) (K.faults sink.new) result }
{
    let pieces = [
        Piece::Text(b"gen "),
        Piece::Number(number),
        Piece::Text(b" stages "),
        Piece::Number(totals.stages),
        Piece::Text(b" registers "),
        Piece::Number(totals.registers),
        Piece::Text(b" cycles "),
        Piece::Number(totals.cycles),
        Piece::Text(b" retired "),
        Piece::Number(totals.retired),
        Piece::Text(b" waits "),
        Piece::Number(totals.waits),
        Piece::Text(b" sum "),
        Piece::Number(totals.sum),
        Piece::Text(b"\n"),
    ];
    put_pieces(sink, &pieces)
}
