// The state of a sequential machine, as text.
ghost use Rattle.std.specs.Prelude.{◌≡◌, ◌<◌, ◌^◌, length, None};
ghost use Rattle.std.specs.List.{All};
ghost use Rattle.kp_base.specs.Bytes.{Writes};
ghost use Rattle.kp_base.specs.Causes.{HasCause};
ghost use Rattle.kp_machine.specs.Slots.{targets_of};
ghost use Rattle.kp_seq.specs.Running.{state};
ghost use Rattle.kp_machine.specs.Words.{target};
ghost use Rattle.kp_report.specs.States.{no_counts, lines_of_words, lines_of, targets_in, state_lines, text_after};
ghost use Rattle.kp_report.specs.Texts.{after_line};
ghost use Rattle.kp_report.specs.inner.Targets.{StandsAt, HasWords, IsSmall};

use crate::pieces::{Piece, put_pieces};
use crate::values::{write_register, write_word};
use kp_ast::Decl;
use kp_base::{Sink, SinkFault};
use kp_seq::SeqMachine;
use kp_stage::Design;

/// Writes the number of instructions that a machine of the design has executed, and its state after them: each register and file in the order of
/// declaration. A fault comes only from the sink, which then has a prefix of the text.
#[tactic(auto, using(kp_base::proofs::Bytes::writes_next, kp_base::proofs::Bytes::part_more, crate::proofs::Files::few_words))]
pub fn write_run_after<K: Sink>(
    count: u32,
    machine: &SeqMachine<'_>,
    design: &Design,
    sink: &mut K,
) -> Result<(), SinkFault>
    requires targets { targets_of design.now.job.decls ≡ targets_of machine.now.job.decls }
    requires few { length design.now.job.decls < 2 ^ 32 }
    ensures text { Writes (K.held sink.old) (K.held sink.new) (text_after count design.now.job.decls (state machine.now)) result }
    ensures cause { HasCause (K.faults sink.old) (K.faults sink.new) result }
{
    write_count(count, sink)?;
    write_state(machine, design.job().decls.as_slice(), sink)
}

#[tactic(auto, unfolding(crate::specs::Texts::after_line))]
fn write_count<K: Sink>(count: u32, sink: &mut K) -> Result<(), SinkFault>
    ensures text { Writes (K.held sink.old) (K.held sink.new) (after_line count) result }
    ensures cause { HasCause (K.faults sink.old) (K.faults sink.new) result }
{
    let pieces = [
        Piece::Text(b"after "),
        Piece::Count(count),
        Piece::Text(b"\n"),
    ];
    put_pieces(sink, &pieces)
}

// Each register and file in the order of declaration.
fn write_state<K: Sink>(
    machine: &SeqMachine<'_>,
    decls: &[Decl],
    sink: &mut K,
) -> Result<(), SinkFault>
    requires targets { targets_of decls.now ≡ targets_of machine.now.job.decls }
    requires few { length decls.now < 2 ^ 32 }
    requires small { All IsSmall decls.now }
    ensures text { Writes (K.held sink.old) (K.held sink.new) (state_lines 0 no_counts (state machine.now) decls.now) result }
    ensures cause { HasCause (K.faults sink.old) (K.faults sink.new) result }
{
    let mut t = 0u32;
    for decl in decls {
        write_target(machine, t, decl, sink)?;
        t += targets_in(decl);
    }
    Ok(())
}

/// How many targets a declaration declares: 1 for a register or a file, and otherwise 0.
pub fn targets_in(decl: &Decl) -> u32
    ensures { result ≡ targets_in decl.now }
{
    match decl {
        Decl::Reg(_, _, _) | Decl::File(_, _, _) => 1,
        _ => 0,
    }
}

// A register or file, which is target number `target`.
fn write_target<K: Sink>(
    machine: &SeqMachine<'_>,
    t: u32,
    decl: &Decl,
    sink: &mut K,
) -> Result<(), SinkFault>
    requires { StandsAt machine.now.job t decl.now }
    ensures text { Writes (K.held sink.old) (K.held sink.new) (lines_of decl.now None (state machine.now t)) result }
    ensures cause { HasCause (K.faults sink.old) (K.faults sink.new) result }
{
    match decl {
        Decl::Reg(name, _, _) => write_register(name.name.bytes(), machine.value(t, 0), None, sink),
        Decl::File(name, _, address) => {
            write_words(machine, t, name.name.bytes(), 1 << address.value, sink)
        }
        _ => Ok(()),
    }
}

// The words of a file that are not 0.
fn write_words<K: Sink>(
    machine: &SeqMachine<'_>,
    t: u32,
    name: &[u8],
    count: u32,
    sink: &mut K,
) -> Result<(), SinkFault>
    requires { HasWords machine.now.job t count }
    ensures text { Writes (K.held sink.old) (K.held sink.new) (lines_of_words name.now (target machine.now.job t).width None (state machine.now t) 0 count) result }
    ensures cause { HasCause (K.faults sink.old) (K.faults sink.new) result }
{
    for address in 0..count {
        write_word(name, address, machine.value(t, address), None, sink)?;
    }
    Ok(())
}
