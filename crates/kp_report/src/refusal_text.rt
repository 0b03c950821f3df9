// The lines of a refusal and of an accepted job.
ghost use Rattle.std.specs.Prelude.{◌≡◌};
ghost use Rattle.kp_base.specs.Bytes.{Writes};
ghost use Rattle.kp_base.specs.Causes.{HasCause};
ghost use Rattle.kp_stage.specs.Counts.{summary_of};
ghost use Rattle.kp_report.specs.Texts.{refusal_line, family_letter, accepted_line};

use crate::pieces::{Piece, put_pieces};
use kp_base::{Family, Refusal, Sink, SinkFault};
use kp_stage::{Design, Summary};

/// Writes the line of a refusal. A fault comes only from the sink, which then has a prefix of the line.
#[tactic(auto, unfolding(crate::specs::Texts::refusal_line))]
pub fn write_refusal<K: Sink>(refusal: Refusal, sink: &mut K) -> Result<(), SinkFault>
    ensures text { Writes (K.held sink.old) (K.held sink.new) (refusal_line refusal) result }
    ensures cause { HasCause (K.faults sink.old) (K.faults sink.new) result }
{
    let pieces = [
        Piece::Text(b"refused "),
        Piece::Text(letter(refusal.family)),
        Piece::Number(u64::from(refusal.number)),
        Piece::Text(b" "),
        Piece::Count(refusal.place.line),
        Piece::Text(b":"),
        Piece::Count(refusal.place.col),
        Piece::Text(b"\n"),
    ];
    put_pieces(sink, &pieces)
}

fn letter(family: Family) -> &'static [u8]
    ensures { result.now ≡ family_letter family }
{
    match family {
        Family::E => b"E",
        Family::V => b"V",
        Family::A => b"A",
    }
}

/// Writes the line of an accepted job: its name and its numbers. A fault comes only from the sink, which then has a prefix of the line.
pub fn write_accepted<K: Sink>(design: &Design, sink: &mut K) -> Result<(), SinkFault>
    ensures text { Writes (K.held sink.old) (K.held sink.new) (accepted_line design.now.job.name.name (summary_of design.now.job)) result }
    ensures cause { HasCause (K.faults sink.old) (K.faults sink.new) result }
{
    write_numbers(design.job().name.name.bytes(), design.summary(), sink)
}

fn write_numbers<K: Sink>(name: &[u8], numbers: Summary, sink: &mut K) -> Result<(), SinkFault>
    ensures text { Writes (K.held sink.old) (K.held sink.new) (accepted_line name.now numbers) result }
    ensures cause { HasCause (K.faults sink.old) (K.faults sink.new) result }
{
    let pieces = [
        Piece::Text(b"accepted "),
        Piece::Text(name),
        Piece::Text(b" stages "),
        Piece::Count(numbers.stages),
        Piece::Text(b" regs "),
        Piece::Count(numbers.regs),
        Piece::Text(b" files "),
        Piece::Count(numbers.files),
        Piece::Text(b" pipes "),
        Piece::Count(numbers.pipes),
        Piece::Text(b" results "),
        Piece::Count(numbers.results),
        Piece::Text(b" hints "),
        Piece::Count(numbers.hints),
        Piece::Text(b" reads "),
        Piece::Count(numbers.reads),
        Piece::Text(b" guesses "),
        Piece::Count(numbers.guesses),
        Piece::Text(b" size "),
        Piece::Count(numbers.size),
        Piece::Samples(numbers.samples),
    ];
    put_pieces(sink, &pieces)
}
