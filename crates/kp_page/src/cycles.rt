// The states of a run, cycle by cycle.
ghost use Rattle.std.specs.Prelude.{◌≡◌, ◌+◌, ◌++◌, [], length, false, true};
ghost use Rattle.kp_base.specs.Bytes.{Writes};
ghost use Rattle.kp_base.specs.Causes.{HasCause};
ghost use Rattle.kp_debug.specs.Inspecting.{at_line};
ghost use Rattle.kp_run.specs.Cycles.{inputs_to};
ghost use Rattle.kp_implements.specs.Shows.{IsOfJob, Shows};
ghost use Rattle.kp_page.specs.States.{change_lines, recorded, recorded_from, recorded_in};
ghost use Rattle.kp_page.specs.Runs.{after_cycles};
ghost use Rattle.kp_page.specs.inner.Seen.{seen, seen_before, states_of};

use crate::states::write_changes;
use itoa::Buffer;
use kp_base::{Sink, SinkFault, write_pieces};
use kp_bits::Bits;
use kp_cycle::Sim;
use kp_frontend::Accepted;
use kp_run::next_cycle;

/// Writes the states of `count` cycles, and the state after the last one. Both simulators are in the start state; the first of them is one cycle behind the other.
/// `room` is a buffer for the sample values, with one entry for each sample.
#[tactic(auto, using(kp_base::proofs::Bytes::writes_next, kp_base::proofs::Bytes::part_more))]
pub(crate) fn write_states<K: Sink>(
    before: &mut Sim<'_>,
    now: &mut Sim<'_>,
    room: &mut [Bits],
    job: &Accepted,
    count: u32,
    sink: &mut K,
) -> Result<(), SinkFault>
    requires shows { Shows now.old.net job.now.design.job }
    requires now { now.old ≡ after_cycles job.now.design.job now.old.net 0 }
    requires before { before.old ≡ after_cycles job.now.design.job now.old.net 0 }
    requires room { length room.old ≡ length job.now.sections.inputs }
    ensures text { Writes (K.held sink.old) (K.held sink.new)
        (recorded job.now.design.job.decls (states_of job.now.design.job now.old.net) count) result }
    ensures cause { HasCause (K.faults sink.old) (K.faults sink.new) result }
{
    write_first(before, now, job, sink)?;
    write_later(before, now, room, job, count, sink)
}

// The start state. The earlier simulator isn't looked at.
fn write_first<K: Sink>(
    before: &Sim<'_>,
    now: &Sim<'_>,
    job: &Accepted,
    sink: &mut K,
) -> Result<(), SinkFault>
    requires net { before.now.net ≡ now.now.net }
    requires of_job { IsOfJob now.now.net job.now.design.job }
    requires now { now.now ≡ after_cycles job.now.design.job now.now.net 0 }
    ensures text { Writes (K.held sink.old) (K.held sink.new)
        (recorded_in job.now.design.job.decls (states_of job.now.design.job now.now.net) 0) result }
    ensures cause { HasCause (K.faults sink.old) (K.faults sink.new) result }
{
    write_cycle(true, before, now, job, 0, sink)
}

// The states after the first one.
fn write_later<K: Sink>(
    before: &mut Sim<'_>,
    now: &mut Sim<'_>,
    room: &mut [Bits],
    job: &Accepted,
    count: u32,
    sink: &mut K,
) -> Result<(), SinkFault>
    requires shows { Shows now.old.net job.now.design.job }
    requires now { now.old ≡ after_cycles job.now.design.job now.old.net 0 }
    requires before { before.old ≡ after_cycles job.now.design.job now.old.net 0 }
    requires room { length room.old ≡ length job.now.sections.inputs }
    ensures text { Writes (K.held sink.old) (K.held sink.new)
        (recorded_from job.now.design.job.decls (states_of job.now.design.job now.old.net) 1 count) result }
    ensures cause { HasCause (K.faults sink.old) (K.faults sink.new) result }
{
    for cycle in 0..count {
        next_cycle(now, job, room, cycle);
        write_cycle(false, before, now, job, cycle + 1, sink)?;
        next_cycle(before, job, room, cycle);
    }
    Ok(())
}

// The number of a cycle, and what changed in it.
#[tactic(auto, using(kp_base::proofs::Bytes::writes_next, kp_base::proofs::Bytes::part_more, kp_report::proofs::Files::few_words))]
fn write_cycle<K: Sink>(
    is_first: bool,
    before: &Sim<'_>,
    now: &Sim<'_>,
    job: &Accepted,
    cycle: u32,
    sink: &mut K,
) -> Result<(), SinkFault>
    requires net { before.now.net ≡ now.now.net }
    requires of_job { IsOfJob now.now.net job.now.design.job }
    ensures text { Writes (K.held sink.old) (K.held sink.new)
        (at_line cycle ++ change_lines 0 (seen_before is_first job.now.design.job before.now) (seen job.now.design.job now.now) job.now.design.job.decls) result }
    ensures cause { HasCause (K.faults sink.old) (K.faults sink.new) result }
{
    write_at(cycle, sink)?;
    write_changes(
        is_first,
        before,
        now,
        job,
        job.design.job().decls.as_slice(),
        sink,
    )
}

#[tactic(auto, unfolding(kp_debug::specs::Inspecting::at_line))]
fn write_at<K: Sink>(cycle: u32, sink: &mut K) -> Result<(), SinkFault>
    ensures text { Writes (K.held sink.old) (K.held sink.new) (at_line cycle) result }
    ensures cause { HasCause (K.faults sink.old) (K.faults sink.new) result }
{
    let mut digits = Buffer::new();
    let pieces = [
        b"at ".as_slice(),
        digits.format(cycle).as_bytes(),
        b"\n".as_slice(),
    ];
    write_pieces(sink, &pieces)
}
