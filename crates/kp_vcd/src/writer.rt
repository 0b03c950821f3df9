// The text of a dump.
ghost use Rattle.std.specs.Prelude.{◌≡◌, ◌+◌, ◌<◌, ◌≤◌, ◌/◌, ◌%◌, ◌^◌, ◌++◌, length};
ghost use Rattle.kp_base.specs.Bytes.{Writes};
ghost use Rattle.kp_base.specs.Causes.{HasCause};
ghost use Rattle.kp_vcd.specs.Text.{kind_word, declaration, signal_line, signal_lines, bit_digits, value_text, code_line, change_line, change_lines, time_line, moment_lines, head_words, name_line, end_lines, dump_text};

use crate::dump::{Change, Dump, Moment, Signal};
use itoa::Buffer;
use kp_base::{Sink, SinkFault, write_all, write_pieces};
use kp_bits::Bits;

/// Writes the text of a dump. A fault comes only from the sink, which then has a prefix of the text. Allocates nothing.
#[tactic(auto, using(kp_base::proofs::Bytes::writes_next, kp_base::proofs::Bytes::part_more))]
pub fn write_dump<K: Sink>(dump: &Dump, sink: &mut K) -> Result<(), SinkFault>
    ensures text { Writes (K.held sink.old) (K.held sink.new) (dump_text dump.now) result }
    ensures cause { HasCause (K.faults sink.old) (K.faults sink.new) result }
{
    write_head(dump.module.bytes(), sink)?;
    write_body(dump, sink)
}

// The unit of time and the module.
#[tactic(auto, using(kp_base::proofs::Bytes::writes_next, kp_base::proofs::Bytes::part_more))]
fn write_head<K: Sink>(name: &[u8], sink: &mut K) -> Result<(), SinkFault>
    ensures text { Writes (K.held sink.old) (K.held sink.new) (head_words ++ name_line name.now) result }
    ensures cause { HasCause (K.faults sink.old) (K.faults sink.new) result }
{
    write_head_words(sink)?;
    write_name(name, sink)
}

#[tactic(auto, unfolding(crate::specs::Text::head_words))]
fn write_head_words<K: Sink>(sink: &mut K) -> Result<(), SinkFault>
    ensures text { Writes (K.held sink.old) (K.held sink.new) head_words result }
    ensures cause { HasCause (K.faults sink.old) (K.faults sink.new) result }
{
    write_all(sink, b"$timescale 1 ns $end\n$scope module ")
}

#[tactic(auto, unfolding(crate::specs::Text::name_line))]
fn write_name<K: Sink>(name: &[u8], sink: &mut K) -> Result<(), SinkFault>
    ensures text { Writes (K.held sink.old) (K.held sink.new) (name_line name.now) result }
    ensures cause { HasCause (K.faults sink.old) (K.faults sink.new) result }
{
    write_pieces(sink, &[name, b" $end\n".as_slice()])
}

// The signals, and all that follows them.
#[tactic(auto, using(kp_base::proofs::Bytes::writes_next, kp_base::proofs::Bytes::part_more))]
fn write_body<K: Sink>(dump: &Dump, sink: &mut K) -> Result<(), SinkFault>
    ensures text { Writes (K.held sink.old) (K.held sink.new) (signal_lines 0 dump.now.signals ++ (end_lines ++ moment_lines dump.now.moments)) result }
    ensures cause { HasCause (K.faults sink.old) (K.faults sink.new) result }
{
    write_signals(dump.signals.as_slice(), sink)?;
    write_rest(dump.moments.as_slice(), sink)
}

fn write_signals<K: Sink>(signals: &[Signal], sink: &mut K) -> Result<(), SinkFault>
    ensures text { Writes (K.held sink.old) (K.held sink.new) (signal_lines 0 signals.now) result }
    ensures cause { HasCause (K.faults sink.old) (K.faults sink.new) result }
{
    for (number, signal) in signals.iter().enumerate() {
        write_signal(number, signal, sink)?;
    }
    Ok(())
}

fn write_signal<K: Sink>(number: usize, signal: &Signal, sink: &mut K) -> Result<(), SinkFault>
    ensures text { Writes (K.held sink.old) (K.held sink.new) (signal_line number signal.now) result }
    ensures cause { HasCause (K.faults sink.old) (K.faults sink.new) result }
{
    let kind = kind_word(signal.reg);
    write_declaration(kind, signal.width, number, signal.name.bytes(), sink)
}

#[tactic(auto, unfolding(crate::specs::Text::declaration))]
fn write_declaration<K: Sink>(
    kind: &[u8],
    width: u8,
    number: usize,
    name: &[u8],
    sink: &mut K,
) -> Result<(), SinkFault>
    ensures text { Writes (K.held sink.old) (K.held sink.new) (declaration kind.now width number name.now) result }
    ensures cause { HasCause (K.faults sink.old) (K.faults sink.new) result }
{
    let (mut bits, mut code) = (Buffer::new(), Buffer::new());
    let pieces = [
        b"$var ".as_slice(),
        kind,
        b" ".as_slice(),
        bits.format(width).as_bytes(),
        b" s".as_slice(),
        code.format(number).as_bytes(),
        b" ".as_slice(),
        name,
        b" $end\n".as_slice(),
    ];
    write_pieces(sink, &pieces)
}

fn kind_word(reg: bool) -> &'static [u8]
    ensures { result.now ≡ kind_word reg }
{
    if reg { b"reg" } else { b"wire" }
}

// The end of the declarations, and the moments.
#[tactic(auto, using(kp_base::proofs::Bytes::writes_next, kp_base::proofs::Bytes::part_more))]
fn write_rest<K: Sink>(moments: &[Moment], sink: &mut K) -> Result<(), SinkFault>
    ensures text { Writes (K.held sink.old) (K.held sink.new) (end_lines ++ moment_lines moments.now) result }
    ensures cause { HasCause (K.faults sink.old) (K.faults sink.new) result }
{
    write_end(sink)?;
    write_moments(moments, sink)
}

#[tactic(auto, unfolding(crate::specs::Text::end_lines))]
fn write_end<K: Sink>(sink: &mut K) -> Result<(), SinkFault>
    ensures text { Writes (K.held sink.old) (K.held sink.new) end_lines result }
    ensures cause { HasCause (K.faults sink.old) (K.faults sink.new) result }
{
    write_all(sink, b"$upscope $end\n$enddefinitions $end\n")
}

fn write_moments<K: Sink>(moments: &[Moment], sink: &mut K) -> Result<(), SinkFault>
    ensures text { Writes (K.held sink.old) (K.held sink.new) (moment_lines moments.now) result }
    ensures cause { HasCause (K.faults sink.old) (K.faults sink.new) result }
{
    for moment in moments {
        write_moment(moment, sink)?;
    }
    Ok(())
}

#[tactic(auto, using(kp_base::proofs::Bytes::writes_next, kp_base::proofs::Bytes::part_more))]
fn write_moment<K: Sink>(moment: &Moment, sink: &mut K) -> Result<(), SinkFault>
    ensures text { Writes (K.held sink.old) (K.held sink.new) (time_line moment.now.at ++ change_lines moment.now.changes) result }
    ensures cause { HasCause (K.faults sink.old) (K.faults sink.new) result }
{
    write_time(moment.at, sink)?;
    write_changes(moment.changes.as_slice(), sink)
}

#[tactic(auto, unfolding(crate::specs::Text::time_line))]
fn write_time<K: Sink>(at: u64, sink: &mut K) -> Result<(), SinkFault>
    ensures text { Writes (K.held sink.old) (K.held sink.new) (time_line at) result }
    ensures cause { HasCause (K.faults sink.old) (K.faults sink.new) result }
{
    let mut digits = Buffer::new();
    let pieces = [
        b"#".as_slice(),
        digits.format(at).as_bytes(),
        b"\n".as_slice(),
    ];
    write_pieces(sink, &pieces)
}

fn write_changes<K: Sink>(changes: &[Change], sink: &mut K) -> Result<(), SinkFault>
    ensures text { Writes (K.held sink.old) (K.held sink.new) (change_lines changes.now) result }
    ensures cause { HasCause (K.faults sink.old) (K.faults sink.new) result }
{
    for change in changes {
        write_change(*change, sink)?;
    }
    Ok(())
}

#[tactic(auto, using(kp_base::proofs::Bytes::writes_next, kp_base::proofs::Bytes::part_more))]
fn write_change<K: Sink>(change: Change, sink: &mut K) -> Result<(), SinkFault>
    ensures text { Writes (K.held sink.old) (K.held sink.new) (change_line change) result }
    ensures cause { HasCause (K.faults sink.old) (K.faults sink.new) result }
{
    write_value(change.value, sink)?;
    write_code(change.signal, sink)
}

#[tactic(auto, unfolding(crate::specs::Text::value_text))]
fn write_value<K: Sink>(value: Bits, sink: &mut K) -> Result<(), SinkFault>
    ensures text { Writes (K.held sink.old) (K.held sink.new) (value_text value) result }
    ensures cause { HasCause (K.faults sink.old) (K.faults sink.new) result }
{
    let mut room = [0; 64];
    let width = usize::from(value.width());
    write_bits(value.value(), &mut room[..width]);
    if width == 1 {
        write_all(sink, &room[..1])
    } else {
        write_pieces(sink, &[b"b".as_slice(), &room[..width], b" ".as_slice()])
    }
}

// Fills `out` with the lowest bits of the number as digits, the highest first.
#[tactic(auto, using(crate::proofs::Digits::bits_more, crate::proofs::Digits::bits_all))]
fn write_bits(n: u64, out: &mut [u8])
    requires { length out.old ≤ 64 }
    ensures { out.new ≡ bit_digits (length out.old) n }
{
    let count = out.len();
    for i in 0..count {
        out[i] = bit_digit(n, count - 1 - i);
    }
}

fn bit_digit(n: u64, place: usize) -> u8
    requires { place < 64 }
    ensures { result ≡ 48 + n / 2 ^ place % 2 }
{
    b'0' + ((n >> place) % 2) as u8
}

#[tactic(auto, unfolding(crate::specs::Text::code_line))]
fn write_code<K: Sink>(signal: u32, sink: &mut K) -> Result<(), SinkFault>
    ensures text { Writes (K.held sink.old) (K.held sink.new) (code_line signal) result }
    ensures cause { HasCause (K.faults sink.old) (K.faults sink.new) result }
{
    let mut digits = Buffer::new();
    let pieces = [
        b"s".as_slice(),
        digits.format(signal).as_bytes(),
        b"\n".as_slice(),
    ];
    write_pieces(sink, &pieces)
}
