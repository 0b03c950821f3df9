// The sequential machines that run in lockstep with a netlist.
ghost use Rattle.std.specs.Prelude.{◌≡◌, ℕ, ◌+◌, ◌<◌, ◌≤◌, List, length, get_or, take, true, false, ◌&&◌, IfOk};
ghost use Rattle.kp_pipeline.specs.Rows as law;
ghost use Rattle.kp_pipeline.specs.Rows.{bit, bits};
ghost use Rattle.kp_stage.specs.Start.{AreSamples};
ghost use Rattle.kp_run.specs.Columns.{row_taken};
ghost use Rattle.kp_sched.specs.Monitors.{HasSeen};
ghost use Rattle.kp_sched.specs.Rows.{bit_of, rows_seen};
ghost use Rattle.kp_watch.specs.inner.Machines.{given, AreNeeded, HaveRun};

use kp_base::{NoMemory, Row};
use kp_bits::Bits;
use kp_frontend::Accepted;
use kp_run::{Column, take, updates};
use kp_sched::Monitor;
use kp_seq::SeqMachine;
use std::alloc::Global;

/// The machines of a job in the start state: one for each stage, and one more, which executes nothing. The only error is out of memory.
pub(crate) fn machines_of(alloc: Global, job: &Accepted) -> Result<Vec<SeqMachine<'_>>, NoMemory>
    ensures { IfOk result (λ ms. (values : ℕ → ℕ → ℕ) (rows : List law.Row) → HaveRun job.now.design.job values rows 0 ms.items) }
{
    let design = &job.design;
    let stages = design.job().stages.value;
    let first = SeqMachine::open(alloc, design, &job.sections.start)?;
    let mut machines = Vec::new(alloc);
    for _ in 0..stages {
        machines.push(first.copied(alloc)?)?;
    }
    machines.push(first)?;
    Ok(machines)
}

/// Which of `count` machines have the value of a target, given the number of that machine for each target. The only error is out of memory.
pub(crate) fn needed_of(alloc: Global, homes: &[u8], count: usize) -> Result<Vec<bool>, NoMemory>
    requires { (t : ℕ) → t < length homes.now → get_or homes.now t 0 < count }
    ensures count { IfOk result (λ needed. length needed.items ≡ count) }
    ensures marks { IfOk result (λ needed. (t : ℕ) → t < length homes.now → get_or needed.items (get_or homes.now t 0) false ≡ true) }
{
    let mut needed = vec![in alloc; false; count]?;
    for t in 0..homes.len() {
        needed[usize::from(homes[t])] = true;
    }
    Ok(needed)
}

/// Each machine that has the value of a target executes one instruction more if its stage updates in the row of a cycle. The monitor has the counts
/// before that cycle. `room` is a buffer for the sample values that an instruction reads.
pub(crate) fn advance(
    job: &Accepted,
    columns: &[Column],
    needed: &[bool],
    machines: &mut [SeqMachine<'_>],
    monitor: &Monitor,
    room: &mut [Bits],
    rows: &[Row],
    cycle: u32,
)
    requires stages { monitor.now.stages ≡ job.now.design.job.stages.value }
    requires seen { HasSeen monitor.now (take cycle rows.now) }
    requires there { cycle < length rows.now }
    requires room { length room.old ≡ length columns.now }
    requires needed { AreNeeded job.now.design.job needed.now }
    requires samples { (i : ℕ) → AreSamples job.now.design.job.decls (row_taken columns.now i) }
    requires run { HaveRun job.now.design.job (given columns.now) (rows_seen job.now.design.job.stages.value rows.now) cycle machines.old }
    ensures room { length room.new ≡ length columns.now }
    ensures run { HaveRun job.now.design.job (given columns.now) (rows_seen job.now.design.job.stages.value rows.now) (cycle + 1) machines.new }
{
    // The invariant of the type, for the proof only.
    let _kept = job.design.job();
    let stages = monitor.stages();
    let ue = rows[cycle as usize].ue;
    for k in 0..stages {
        if moves(needed, ue, k, stages) {
            take(columns, monitor.passed(k), room);
            machines[usize::from(k)].step_with(room);
        }
    }
}

// Whether machine k of n executes an instruction: it is needed, and its stage updates.
fn moves(needed: &[bool], ue: u16, k: u8, n: u8) -> bool
    requires there { k < length needed.now }
    requires few { n ≤ 12 }
    ensures { result ≡ (get_or needed.now k false && bit (bits (bit_of ue) n 0) k) }
{
    needed[usize::from(k)] && updates(ue, u64::from(k), u64::from(n))
}
