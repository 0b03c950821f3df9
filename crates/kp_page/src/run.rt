// The recorded run of a job.
ghost use Rattle.std.specs.Prelude.{◌≡◌, length};
ghost use Rattle.kp_base.specs.Bytes.{Writes};
ghost use Rattle.kp_base.specs.Causes.{HasCause};
ghost use Rattle.kp_implements.specs.Shows.{Shows};
ghost use Rattle.kp_page.specs.States.{states_text};
ghost use Rattle.kp_page.specs.Runs.{after_cycles};

use crate::cycles::write_states;
use kp_base::{Sink, SinkFault};
use kp_bits::Bits;
use kp_cycle::Sim;
use kp_frontend::Accepted;
use kp_run::laws::a_job_gives_its_own_inputs;

/// Runs a netlist that implements the machine of a job for `count` cycles, under the job's own stall words and samples, and writes the states in these
/// cycles and after them. Both simulators of the netlist are in its start state, as `Sim::open` returns them; the first one is a cycle behind. `room`
/// is a buffer for the sample values, with one entry for each sample. A fault comes only from the sink, which then has a prefix of the text. Allocates
/// nothing.
pub fn write_run<K: Sink>(
    before: &mut Sim<'_>,
    now: &mut Sim<'_>,
    room: &mut [Bits],
    job: &Accepted,
    count: u32,
    sink: &mut K,
) -> Result<(), SinkFault>
    requires shows { Shows now.old.net job.now.design.job }
    requires now { now.old ≡ after_cycles job.now.design.job now.old.net 0 }
    requires before { before.old ≡ after_cycles job.now.design.job now.old.net 0 }
    requires room { length room.old ≡ length job.now.sections.inputs }
    ensures text { Writes (K.held sink.old) (K.held sink.new) (states_text job.now.design.job count) result }
    ensures cause { HasCause (K.faults sink.old) (K.faults sink.new) result }
{
    a_job_gives_its_own_inputs(job);
    write_states(before, now, room, job, count, sink)
}
