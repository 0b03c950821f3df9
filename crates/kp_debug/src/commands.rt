// What a command does to a session, and what it prints.
ghost use Rattle.std.specs.Prelude.{◌≡◌, ◌+◌, ◌<◌, ◌≤◌, ◌++◌, true, length, slice_get, option_map, OnOk};
ghost use Rattle.kp_base.specs.Bytes.{Writes};
ghost use Rattle.kp_base.specs.Causes.{HasCause};
ghost use Rattle.kp_machine.specs.Slots.{targets_of, is_register};
ghost use Rattle.kp_sched.specs.Rows.{row_seen};
ghost use Rattle.kp_machine.specs.Words.{target as target_of};
ghost use Rattle.kp_report.specs.States.{state_lines, no_counts};
ghost use Rattle.kp_debug.specs.Inspecting.{all_cycles, found_word, has_value, first_from, reached, hit_line, at_line, row_or_end, printed_by, printed, ends_in, IsOfTargets, AreOfJob};
ghost use Rattle.kp_debug.specs.inner.Standing.{IsUnderWay, IsRegisterOf, run_of, state_seen};

use crate::inputs::all_cycles;
use crate::numbers::register_at;
use crate::session::Session;
use crate::states::write_state;
use crate::values::register_shown;
use itoa::Buffer;
use kp_base::{Row, Sink, SinkFault, write_all, write_pieces};
use kp_bits::Bits;
use kp_debug_script::Command;
use kp_frontend::Accepted;
use kp_net::Netlist;
use kp_sched::row_line;

/// Executes commands in order, and writes what each of them prints.
pub(crate) fn run_commands<K: Sink>(
    session: &mut Session<'_>,
    net: &Netlist,
    job: &Accepted,
    commands: &[Command],
    sink: &mut K,
) -> Result<(), SinkFault>
    requires net { session.old.net ≡ net.now }
    requires under { IsUnderWay job.now.design.job session.old }
    requires commands { AreOfJob job.now.design.job commands.now }
    ensures net { session.new.net ≡ net.now }
    ensures under { IsUnderWay job.now.design.job session.new }
    ensures text { Writes (K.held sink.old) (K.held sink.new)
        (printed job.now.design.job (run_of job.now.design.job session.old) session.old.cycle commands.now) result }
    ensures cycle { OnOk result (session.new.cycle ≡ ends_in (run_of job.now.design.job session.old) session.old.cycle commands.now) }
    ensures cause { HasCause (K.faults sink.old) (K.faults sink.new) result }
{
    for command in commands {
        run_command(session, net, job, command, sink)?;
    }
    Ok(())
}

// Moves to the cycle that a command leads to, and writes what it prints there.
fn run_command<K: Sink>(
    session: &mut Session<'_>,
    net: &Netlist,
    job: &Accepted,
    command: &Command,
    sink: &mut K,
) -> Result<(), SinkFault>
    requires net { session.old.net ≡ net.now }
    requires under { IsUnderWay job.now.design.job session.old }
    requires command { IsOfTargets job.now.design.job command.now }
    ensures session { session.new ≡ record session.old { cycle = reached (run_of job.now.design.job session.old) session.old.cycle command.now } }
    ensures text { Writes (K.held sink.old) (K.held sink.new) (printed_by job.now.design.job (run_of job.now.design.job session.old)
        (reached (run_of job.now.design.job session.old) session.old.cycle command.now) command.now) result }
    ensures cause { HasCause (K.faults sink.old) (K.faults sink.new) result }
{
    go(session, net, job, command);
    print_command(session, net, job, command, sink)
}

// Moves to the cycle that a command leads to.
fn go(session: &mut Session<'_>, net: &Netlist, job: &Accepted, command: &Command)
    requires net { session.old.net ≡ net.now }
    requires under { IsUnderWay job.now.design.job session.old }
    requires command { IsOfTargets job.now.design.job command.now }
    ensures { session.new ≡ record session.old { cycle = reached (run_of job.now.design.job session.old) session.old.cycle command.now } }
{
    match command {
        Command::Step(n) => session.step(*n),
        Command::Back(n) => session.back(*n),
        Command::Until(target, value, n) => {
            let number = register_of(net, job, *target);
            let left = (*n).min(all_cycles() - session.cycle());
            search(session, job, *target, number, *value, left);
        }
        Command::Show => {}
        Command::Row => {}
    }
}

// The number of the register of a target in a netlist.
fn register_of(net: &Netlist, job: &Accepted, target: u32) -> u32
    requires there { target < length (targets_of job.now.design.job.decls) }
    requires kind { is_register (target_of job.now.design.job target) ≡ true }
    ensures { IsRegisterOf job.now.design.job net.now target result }
{
    register_at(net, job.design.job().decls.as_slice(), target)
}

// Moves to the first cycle in which a register has a value, at most `left` cycles on.
fn search(
    session: &mut Session<'_>,
    job: &Accepted,
    target: u32,
    number: u32,
    value: Bits,
    left: u32,
)
    requires under { IsUnderWay job.now.design.job session.old }
    requires register { IsRegisterOf job.now.design.job session.old.net target number }
    requires inside { session.old.cycle + left ≤ all_cycles }
    ensures { session.new ≡ record session.old {
      cycle = first_from (has_value (run_of job.now.design.job session.old) target value) session.old.cycle left;
    } }
{
    for _ in 0..left {
        if is_met(session, job, target, number, value) {
            return;
        }
        session.step(1);
    }
}

// Whether a register has a value in the current cycle of a session.
fn is_met(session: &Session<'_>, job: &Accepted, target: u32, number: u32, value: Bits) -> bool
    requires under { IsUnderWay job.now.design.job session.now }
    requires register { IsRegisterOf job.now.design.job session.now.net target number }
    ensures { result ≡ has_value (run_of job.now.design.job session.now) target value session.now.cycle }
{
    register_shown(session, job, target, number).value() == value.value()
}

// Writes what a command prints in the current cycle of a session, which doesn't change.
fn print_command<K: Sink>(
    session: &mut Session<'_>,
    net: &Netlist,
    job: &Accepted,
    command: &Command,
    sink: &mut K,
) -> Result<(), SinkFault>
    requires net { session.old.net ≡ net.now }
    requires under { IsUnderWay job.now.design.job session.old }
    requires command { IsOfTargets job.now.design.job command.now }
    ensures stays { session.new ≡ session.old }
    ensures text { Writes (K.held sink.old) (K.held sink.new)
        (printed_by job.now.design.job (run_of job.now.design.job session.old) session.old.cycle command.now) result }
    ensures cause { HasCause (K.faults sink.old) (K.faults sink.new) result }
{
    match command {
        Command::Step(_) => Ok(()),
        Command::Back(_) => Ok(()),
        Command::Until(target, value, _) => {
            let number = register_of(net, job, *target);
            let hit = is_met(session, job, *target, number, *value);
            write_hit(hit, session.cycle(), sink)
        }
        Command::Show => show(session, net, job, sink),
        Command::Row => print_row(session, job, sink),
    }
}

// Writes the row of the current cycle of a session, which doesn't change.
fn print_row<K: Sink>(
    session: &mut Session<'_>,
    job: &Accepted,
    sink: &mut K,
) -> Result<(), SinkFault>
    requires under { IsUnderWay job.now.design.job session.old }
    ensures stays { session.new ≡ session.old }
    ensures text { Writes (K.held sink.old) (K.held sink.new)
        (row_or_end session.old.cycle (slice_get (run_of job.now.design.job session.old).rows session.old.cycle)) result }
    ensures cause { HasCause (K.faults sink.old) (K.faults sink.new) result }
{
    let stages = job.design.job().stages.value as u8;
    let row = session.row();
    write_row(session.cycle(), stages, row, sink)
}

#[tactic(auto, unfolding(crate::specs::Inspecting::hit_line))]
fn write_hit<K: Sink>(hit: bool, cycle: u32, sink: &mut K) -> Result<(), SinkFault>
    ensures text { Writes (K.held sink.old) (K.held sink.new) (hit_line hit cycle) result }
    ensures cause { HasCause (K.faults sink.old) (K.faults sink.new) result }
{
    let mut digits = Buffer::new();
    let pieces = [
        found_word(hit),
        digits.format(cycle).as_bytes(),
        b"\n".as_slice(),
    ];
    write_pieces(sink, &pieces)
}

fn found_word(hit: bool) -> &'static [u8]
    ensures { result.now ≡ found_word hit }
{
    if hit {
        b"hit ".as_slice()
    } else {
        b"none ".as_slice()
    }
}

// Writes the current cycle of a session, and the state in it.
#[tactic(auto, using(kp_base::proofs::Bytes::writes_next, kp_base::proofs::Bytes::part_more, kp_report::proofs::Files::few_words))]
fn show<K: Sink>(
    session: &Session<'_>,
    net: &Netlist,
    job: &Accepted,
    sink: &mut K,
) -> Result<(), SinkFault>
    requires net { session.now.net ≡ net.now }
    requires under { IsUnderWay job.now.design.job session.now }
    ensures text { Writes (K.held sink.old) (K.held sink.new)
        (at_line session.now.cycle ++ state_lines 0 no_counts (state_seen job.now.design.job session.now) job.now.design.job.decls) result }
    ensures cause { HasCause (K.faults sink.old) (K.faults sink.new) result }
{
    write_at(session.cycle(), sink)?;
    write_state(session, net, job, job.design.job().decls.as_slice(), sink)
}

#[tactic(auto, unfolding(crate::specs::Inspecting::at_line))]
fn write_at<K: Sink>(cycle: u32, sink: &mut K) -> Result<(), SinkFault>
    ensures text { Writes (K.held sink.old) (K.held sink.new) (at_line cycle) result }
    ensures cause { HasCause (K.faults sink.old) (K.faults sink.new) result }
{
    let mut digits = Buffer::new();
    let pieces = [
        b"at ".as_slice(),
        digits.format(cycle).as_bytes(),
        b"\n".as_slice(),
    ];
    write_pieces(sink, &pieces)
}

// Writes the line of a row of n stages, or that the run has ended.
fn write_row<K: Sink>(cycle: u32, n: u8, row: Option<Row>, sink: &mut K) -> Result<(), SinkFault>
    requires some { 2 ≤ n }
    requires few { n ≤ 12 }
    ensures text { Writes (K.held sink.old) (K.held sink.new) (row_or_end cycle (option_map (row_seen n) row)) result }
    ensures cause { HasCause (K.faults sink.old) (K.faults sink.new) result }
{
    let Some(row) = row else {
        return write_all(sink, b"end\n");
    };
    let mut line = [0; 80];
    let length = row_line(u64::from(cycle), n, row, &mut line);
    write_all(sink, &line[..length])
}
