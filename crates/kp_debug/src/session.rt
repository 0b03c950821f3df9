// A session of the debugger: a run of a netlist with checkpoints.
ghost use Rattle.std.specs.Prelude.{◌≡◌, ◌+◌, ◌-◌, ◌*◌, ◌<◌, ◌≤◌, ◌^◌, length, get_or, vec_len, IfOk};
ghost use Rattle.kp_net.specs.Parts.{no_file};
ghost use Rattle.kp_cycle.specs.Steps.{ShowsRows, reg_shown, word_shown};
ghost use Rattle.kp_debug.specs.Sessions.{inputs_of, SamplesFitCycles, row_there, shown, forward, back};

use crate::cycles::{run_between, run_one};
use kp_base::{NoMemory, Row};
use kp_bits::Bits;
use kp_cycle::Sim;
use kp_net::Netlist;
use std::alloc::Global;
use std::marker::Model;

/// The number of cycles from one checkpoint to the next.
const STRIDE: u32 = 2048;

/// The number of checkpoints of a run of 100,000 cycles. It is also the number of the slot after them, which `row` uses.
const COPIES: u32 = 49;

/// A run of a netlist that is stepped through in both directions, specified by the netlist, the inputs of each cycle, and the current cycle. It
/// stores a checkpoint of the state at the cycles 0, 2,048 and so on when they are first reached, so a step back runs at most 2,047 cycles again.
pub struct Session<'n> {
    sim: Sim<'n>,
    exts: Vec<u16>,
    samples: Vec<Bits>,
    cycle: u32,
    kept: u32,
}

impl Drop for Session<'_> {
    fn drop(self) {
        let Session {
            sim,
            exts,
            samples,
            cycle: _,
            kept: _,
        } = self;
        drop(sim);
        drop(exts);
        drop(samples);
    }
}

impl<'n> Model for Session<'n> {
    ghost use Rattle.std.specs.Prelude.{length};
    ghost use Rattle.kp_debug.specs.Sessions.{Debugged, inputs_of};
    ghost use Rattle.kp_debug.specs.inner.Kept.{IsSession};

    ghost Value = { Debugged };

    ghost view = { λ s. record {
      net = s.sim.net;
      inputs = inputs_of (length s.sim.net.parts.samples) s.exts.items s.samples.items;
      cycle = s.cycle;
    } };

    ghost invariant = { λ s. IsSession s.sim s.exts.items s.samples.items s.cycle s.kept };
}

impl<'n> Session<'n> {
    /// A session at cycle 0 of the run under these stall words, one for each cycle, and the values of the sample ports, cycle by cycle. The reset is
    /// never raised. All memory is allocated here; the only error is out of memory, and both lists are dropped then.
    pub fn open(
        alloc: Global,
        net: &'n Netlist,
        exts: Vec<u16>,
        samples: Vec<Bits>,
    ) -> Result<Session<'n>, NoMemory>
        requires shows { ShowsRows net.now }
        requires few { vec_len exts ≤ 100000 }
        requires fits { SamplesFitCycles net.now (vec_len exts) samples.items }
        ensures { IfOk result (λ s. s ≡ record { net = net.now; inputs = inputs_of (length net.now.parts.samples) exts.items samples.items; cycle = 0 }) }
    {
        let mut sim = Sim::open_with(alloc, net, COPIES + 1)?;
        sim.save(0);
        Ok(Session {
            sim,
            exts,
            samples,
            cycle: 0,
            kept: 1,
        })
    }

    /// Moves `n` cycles forward, at most to the end of the run. Allocates nothing.
    pub fn step(&mut self, n: u32)
        ensures { self.new ≡ forward n self.old }
    {
        let left = self.exts.len() as u32 - self.cycle;
        for _ in 0..n.min(left) {
            self.advance();
        }
    }

    /// Moves `n` cycles back, at most to cycle 0. Allocates nothing.
    pub fn back(&mut self, n: u32)
        ensures { self.new ≡ back n self.old }
    {
        let aim = self.cycle.saturating_sub(n);
        let copy = aim / STRIDE;
        self.sim.load(copy);
        run_between(
            &mut self.sim,
            self.exts.as_slice(),
            self.samples.as_slice(),
            copy * STRIDE,
            aim,
        );
        self.cycle = aim;
    }

    /// The current cycle: how many cycles of the run have passed.
    pub fn cycle(&self) -> u32
        ensures { result ≡ self.now.cycle }
    {
        self.cycle
    }

    /// The value of register `reg` in the current cycle.
    pub fn value(&self, reg: u32) -> Bits
        requires { reg < length self.now.net.parts.regs }
        ensures { result ≡ reg_shown (shown self.now) reg }
    {
        self.sim.value(reg)
    }

    /// The word of file `file` at an address in the current cycle.
    pub fn word(&self, file: u32, address: u32) -> Bits
        requires file { file < length self.now.net.parts.files }
        requires address { address < 2 ^ (get_or self.now.net.parts.files file no_file).address_width }
        ensures { result ≡ word_shown (shown self.now) file address }
    {
        self.sim.word(file, address)
    }

    /// The row of the current cycle, which doesn't change; `None` exactly at the end of the run. Allocates nothing.
    pub fn row(&mut self) -> Option<Row>
        ensures row { result ≡ row_there self.old }
        ensures stays { self.new ≡ self.old }
    {
        if self.cycle as usize == self.exts.len() {
            return None;
        }
        self.sim.save(COPIES);
        let row = run_one(
            &mut self.sim,
            self.exts.as_slice(),
            self.samples.as_slice(),
            self.cycle,
        );
        self.sim.load(COPIES);
        Some(row)
    }

    // Runs one cycle, and stores a checkpoint of the state after it if that cycle has one.
    fn advance(&mut self)
        requires { self.old.cycle < length self.old.inputs }
        ensures { self.new ≡ forward 1 self.old }
    {
        run_one(
            &mut self.sim,
            self.exts.as_slice(),
            self.samples.as_slice(),
            self.cycle,
        );
        self.cycle += 1;
        if self.cycle == self.kept * STRIDE {
            self.sim.save(self.kept);
            self.kept += 1;
        }
    }
}
