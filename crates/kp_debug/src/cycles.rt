// Cycles of a netlist whose stall words and samples are given as lists.
ghost use Rattle.std.specs.Prelude.{◌≡◌, ◌+◌, ◌*◌, ◌<◌, ◌≤◌, length, get_or};
ghost use Rattle.kp_net.specs.Netlist.{row_of, state_after};
ghost use Rattle.kp_debug.specs.Sessions.{inputs_of, SamplesFitCycles};
ghost use Rattle.kp_debug.specs.inner.Kept.{no_input, HasRun};

use kp_base::Row;
use kp_bits::Bits;
use kp_cycle::Sim;

/// Runs one cycle, with the reset not raised: `exts` has a stall word for each cycle, and `samples` the values of all sample ports, cycle by cycle.
/// Allocates nothing.
pub fn run_one(sim: &mut Sim<'_>, exts: &[u16], samples: &[Bits], cycle: u32) -> Row
    requires there { cycle < length exts.now }
    requires fits { SamplesFitCycles sim.old.net (length exts.now) samples.now }
    ensures row { result ≡ row_of sim.old.net (get_or (inputs_of (length sim.old.net.parts.samples) exts.now samples.now) cycle no_input) sim.old.state }
    ensures state { sim.new ≡ record sim.old {
      state = state_after sim.old.net (get_or (inputs_of (length sim.old.net.parts.samples) exts.now samples.now) cycle no_input) sim.old.state;
    } }
{
    let ports = sim.netlist().parts().samples.as_slice().len();
    let from = cycle as usize * ports;
    sim.step_with(exts[cycle as usize], false, &samples[from..from + ports])
}

/// Runs from one cycle to another. Allocates nothing.
pub fn run_between(sim: &mut Sim<'_>, exts: &[u16], samples: &[Bits], from: u32, to: u32)
    requires order { from ≤ to }
    requires there { to ≤ length exts.now }
    requires fits { SamplesFitCycles sim.old.net (length exts.now) samples.now }
    requires begun { HasRun sim.old (inputs_of (length sim.old.net.parts.samples) exts.now samples.now) from }
    ensures net { sim.new.net ≡ sim.old.net }
    ensures slots { sim.new.slots ≡ sim.old.slots }
    ensures run { HasRun sim.new (inputs_of (length sim.new.net.parts.samples) exts.now samples.now) to }
{
    for cycle in from..to {
        run_one(sim, exts, samples, cycle);
    }
}
