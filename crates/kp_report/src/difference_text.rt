// The text of a run in which a value differs from the expected one.
ghost use Rattle.std.specs.Prelude.{◌≡◌, ◌<◌, ◌≤◌, ◌++◌, ◌∷◌, [], length, get_or};
ghost use Rattle.kp_base.specs.Bytes.{Writes};
ghost use Rattle.kp_base.specs.Causes.{HasCause};
ghost use Rattle.kp_machine.specs.Slots.{targets_of};
ghost use Rattle.kp_machine.specs.Words.{no_slot};
ghost use Rattle.kp_report.specs.States.{targets_in};
ghost use Rattle.kp_report.specs.Texts.{word_named, cycle_differing, values_differing};
ghost use Rattle.kp_report.specs.Differing.{differing_text};

use crate::pieces::{Piece, put_pieces};
use crate::runs::write_rows;
use crate::states::targets_in;
use kp_ast::Decl;
use kp_base::{Sink, SinkFault, write_all};
use kp_bits::Bits;
use kp_run::{Board, Difference};

/// Writes the rows of a run of a job before the cycle of a difference, and a line for the difference: its cycle, the register or the word of a file,
/// the value found and the value expected. A fault comes only from the sink, which then has a prefix of the text.
#[tactic(auto, using(kp_base::proofs::Bytes::writes_next, kp_base::proofs::Bytes::part_more))]
pub fn write_difference<K: Sink>(
    board: &Board<'_>,
    difference: &Difference,
    sink: &mut K,
) -> Result<(), SinkFault>
    requires cycle { difference.now.cycle ≤ length board.now.cycles.rows.items }
    requires there { difference.now.target < length (targets_of board.now.design.now.job.decls) }
    ensures text { Writes (K.held sink.old) (K.held sink.new)
        (differing_text board.now.cycles.monitor.stages board.now.design.now.job board.now.cycles.rows.items difference.now) result }
    ensures cause { HasCause (K.faults sink.old) (K.faults sink.new) result }
{
    let job = board.design.job();
    let stages = board.cycles.monitor.stages();
    let rows = board.cycles.rows.as_slice();
    write_rows(&rows[..difference.cycle as usize], stages, sink)?;
    write_line(job.decls.as_slice(), difference, sink)
}

fn write_line<K: Sink>(
    decls: &[Decl],
    difference: &Difference,
    sink: &mut K,
) -> Result<(), SinkFault>
    requires there { difference.now.target < length (targets_of decls.now) }
    ensures text { Writes (K.held sink.old) (K.held sink.new) (cycle_differing difference.now.cycle
        ++ (word_named (get_or (targets_of decls.now) difference.now.target no_slot) difference.now.address
        ++ values_differing difference.now.found difference.now.due)) result }
    ensures cause { HasCause (K.faults sink.old) (K.faults sink.new) result }
{
    write_cycle(difference.cycle, sink)?;
    write_target(decls, difference.target, difference.address, sink)?;
    write_both(difference.found, difference.due, sink)
}

#[tactic(auto, unfolding(crate::specs::Texts::cycle_differing))]
fn write_cycle<K: Sink>(cycle: u32, sink: &mut K) -> Result<(), SinkFault>
    ensures text { Writes (K.held sink.old) (K.held sink.new) (cycle_differing cycle) result }
    ensures cause { HasCause (K.faults sink.old) (K.faults sink.new) result }
{
    let pieces = [
        Piece::Text(b"differs "),
        Piece::Count(cycle),
        Piece::Text(b" "),
    ];
    put_pieces(sink, &pieces)
}

#[tactic(auto, unfolding(crate::specs::Texts::values_differing))]
fn write_both<K: Sink>(found: Bits, due: Bits, sink: &mut K) -> Result<(), SinkFault>
    ensures text { Writes (K.held sink.old) (K.held sink.new) (values_differing found due) result }
    ensures cause { HasCause (K.faults sink.old) (K.faults sink.new) result }
{
    let pieces = [
        Piece::Text(b" "),
        Piece::Value(found),
        Piece::Text(b" "),
        Piece::Value(due),
        Piece::Text(b"\n"),
    ];
    put_pieces(sink, &pieces)
}

// The name of target number `target`, with the address if it is a file.
fn write_target<K: Sink>(
    decls: &[Decl],
    target: u32,
    address: u32,
    sink: &mut K,
) -> Result<(), SinkFault>
    requires there { target < length (targets_of decls.now) }
    ensures text { Writes (K.held sink.old) (K.held sink.new) (word_named (get_or (targets_of decls.now) target no_slot) address) result }
    ensures cause { HasCause (K.faults sink.old) (K.faults sink.new) result }
{
    let mut left = target;
    for decl in decls {
        let here = targets_in(decl);
        if left < here {
            return write_name(decl, address, sink);
        }
        left -= here;
    }
    Ok(())
}

// The name of a register, or of a word of a file. A file without address bits is written like a register.
#[tactic(auto, unfolding(crate::specs::Texts::word_named))]
fn write_name<K: Sink>(decl: &Decl, address: u32, sink: &mut K) -> Result<(), SinkFault>
    requires { targets_in decl.now ≡ 1 }
    ensures text { Writes (K.held sink.old) (K.held sink.new) (word_named (get_or (targets_of (decl.now ∷ [])) 0 no_slot) address) result }
    ensures cause { HasCause (K.faults sink.old) (K.faults sink.new) result }
{
    match decl {
        Decl::Reg(name, _, _) => write_all(sink, name.name.bytes()),
        Decl::File(name, _, width) => {
            if width.value == 0 {
                return write_all(sink, name.name.bytes());
            }
            let pieces = [
                Piece::Text(name.name.bytes()),
                Piece::Text(b"["),
                Piece::Count(address),
                Piece::Text(b"]"),
            ];
            put_pieces(sink, &pieces)
        }
        _ => Ok(()),
    }
}
