// The sequential machines after a run.
ghost use Rattle.std.specs.Prelude.{◌≡◌, ℕ, ◌+◌, ◌<◌, ◌≤◌, List, length, IfOk};
ghost use Rattle.std.specs.List.{All};
ghost use Rattle.kp_base.specs.declared.row.Row.{Row};
ghost use Rattle.kp_pipeline.specs.Sequential.{seq};
ghost use Rattle.kp_stage.specs.Start.{AreSamples, start_of};
ghost use Rattle.kp_machine.specs.Machine.{machine_of, sequential, state_of, values_in};
ghost use Rattle.kp_sched.specs.Monitors.{HasSeen};
ghost use Rattle.kp_sched.specs.Rows.{rows_seen};
ghost use Rattle.kp_seq.specs.Running.{state};
ghost use Rattle.kp_run.specs.Columns.{AreColumns, row_taken};
ghost use Rattle.kp_run.specs.inner.Lanes.{HaveRun};

use crate::columns::Column;
use kp_base::NoMemory;
use kp_bits::Bits;
use kp_frontend::Accepted;
use kp_sched::Monitor;
use kp_seq::SeqMachine;
use std::alloc::Global;

/// For each stage the machine after the instructions that the stage has completed, by the counts of the monitor, and one that has executed none.
/// Instruction i reads word i of each column. Each machine starts from a copy of the one for the next stage, so if the counts increase from the last
/// stage to the first, no instruction is executed twice. The only error is out of memory.
pub(crate) fn machines_after<'a>(
    alloc: Global,
    job: &'a Accepted,
    monitor: &Monitor,
    columns: &[Column],
) -> Result<Vec<SeqMachine<'a>>, NoMemory>
    requires stages { monitor.now.stages ≡ job.now.design.job.stages.value }
    requires samples { (i : ℕ) → AreSamples job.now.design.job.decls (row_taken columns.now i) }
    ensures run { IfOk result (λ ms. (rows : List Row) → HasSeen monitor.now rows
        → HaveRun job.now.design.job (λ i. values_in (row_taken columns.now i)) (rows_seen job.now.design.job.stages.value rows) ms.items) }
    ensures jobs { IfOk result (λ ms. All (λ m. m.job ≡ job.now.design.job) ms.items) }
{
    // The invariant of the type, for the proof only.
    let _kept = job.design.job();
    let mut kept = job.sections.inputs.row(alloc, 0)?;
    let room = kept.as_mut_slice();
    let mut machines = Vec::new(alloc);
    machines.push(opened(alloc, job)?)?;
    let mut ran = 0;
    for k in (0..monitor.stages()).rev() {
        let count = monitor.passed(k);
        let machine = machine_after(alloc, job, columns, room, &machines[0], ran, count)?;
        machines.insert(0, machine)?;
        ran = count;
    }
    Ok(machines)
}

// The machine of a job that has executed no instruction.
fn opened<'a>(alloc: Global, job: &'a Accepted) -> Result<SeqMachine<'a>, NoMemory>
    ensures job { IfOk result (λ m. m.job ≡ job.now.design.job) }
    ensures state { IfOk result (λ m. state m ≡ state_of job.now.design.job (start_of job.now.design.job)) }
{
    let design = &job.design;
    // The invariant of the type, for the proof only.
    let _kept = design.job();
    SeqMachine::open(alloc, design, &job.sections.start)
}

// The machine of a job after `count` instructions. It starts from a copy of one that has executed no more than these, and from the start state if
// that one has executed more. `room` is a buffer for the sample values of an instruction.
fn machine_after<'a>(
    alloc: Global,
    job: &'a Accepted,
    columns: &[Column],
    room: &mut [Bits],
    last: &SeqMachine<'a>,
    ran: u64,
    count: u64,
) -> Result<SeqMachine<'a>, NoMemory>
    requires room { length room.old ≡ length columns.now }
    requires samples { (i : ℕ) → AreSamples job.now.design.job.decls (row_taken columns.now i) }
    requires job { last.now.job ≡ job.now.design.job }
    requires state { state last.now ≡ sequential job.now.design.job (λ i. values_in (row_taken columns.now i)) ran }
    ensures room { length room.new ≡ length room.old }
    ensures job { IfOk result (λ m. m.job ≡ job.now.design.job) }
    ensures state { IfOk result (λ m. state m ≡ sequential job.now.design.job (λ i. values_in (row_taken columns.now i)) count) }
{
    if ran <= count {
        let mut machine = last.copied(alloc)?;
        advance(&mut machine, columns, room, ran, count);
        Ok(machine)
    } else {
        let mut machine = opened(alloc, job)?;
        advance(&mut machine, columns, room, 0, count);
        Ok(machine)
    }
}

// Executes the instructions from number `from` up to number `to`, which is excluded.
fn advance(machine: &mut SeqMachine<'_>, columns: &[Column], room: &mut [Bits], from: u64, to: u64)
    requires forward { from ≤ to }
    requires room { length room.old ≡ length columns.now }
    requires samples { (i : ℕ) → AreSamples machine.old.job.decls (row_taken columns.now i) }
    ensures room { length room.new ≡ length room.old }
    ensures job { machine.new.job ≡ machine.old.job }
    ensures state { (s : ℕ → ℕ → ℕ) → state machine.old ≡ seq (machine_of machine.old.job) s (λ i. values_in (row_taken columns.now i)) from
        → state machine.new ≡ seq (machine_of machine.old.job) s (λ i. values_in (row_taken columns.now i)) to }
{
    for i in from..to {
        take(columns, i, room);
        machine.step_with(room);
    }
}

/// Writes the sample values that instruction i reads to a buffer with one entry for each sample.
pub fn take(columns: &[Column], i: u64, room: &mut [Bits])
    requires { length room.old ≡ length columns.now }
    ensures { room.new ≡ row_taken columns.now i }
{
    for x in 0..room.len() {
        room[x] = columns[x].word(i);
    }
}
