// The simulator and its calls.
ghost use Rattle.std.specs.Prelude.{◌≡◌, ◌<◌, ◌≤◌, ◌^◌, [], ℕ, length, get_or, set, map, replicate, Some, None, IsSome, IfOk};
ghost use Rattle.kp_net.specs.Nodes.{at};
ghost use Rattle.kp_net.specs.Netlist.{Net, State, start_of, state_after, row_of, stalled, cells_of};
ghost use Rattle.kp_net.specs.Widths.{wide};
ghost use Rattle.kp_net.specs.Parts.{no_reg, no_file};
ghost use Rattle.kp_cycle.specs.Steps.{Running, ShowsRows, SamplesFit, given, reg_shown, word_shown, saved_in, written_in};
ghost use Rattle.kp_cycle_plan.specs.{Latches.IsLatched, Storage.Fits, Storage.FitsBelow, Storage.StateFits, Storage.state_of};
ghost use Rattle.kp_cycle_plan.specs.Plans.{IsPlan, OfRoots};
ghost use Rattle.kp_cycle.specs.inner.Settling.{AreFixed};

use crate::clock::{clock, note_writes};
use crate::nodes::{put_constants, settle, word};
use kp_base::{NoMemory, Row};
use kp_bits::Bits;
use kp_cycle_plan::{Latches, Memory, Step, heads_of, latches_of, plan};
use kp_net::{Netlist, NodeId};
use std::alloc::Global;
use std::marker::Model;

/// A netlist that runs; contracts see it as the netlist, its present state, and the contents of its slots.
pub struct Sim<'n> {
    net: &'n Netlist,
    heads: u32,
    steps: Vec<Step>,
    fixed: usize,
    latches: Latches,
    memory: Memory,
}

impl Drop for Sim<'_> {
    fn drop(self) {
        let Sim {
            net: _,
            heads: _,
            steps,
            fixed: _,
            latches,
            memory,
        } = self;
        drop(steps);
        drop(latches);
        drop(memory);
    }
}

impl<'n> Model for Sim<'n> {
    ghost use Rattle.std.specs.Prelude.{length, map};
    ghost use Rattle.kp_cycle_plan.specs.Latches.{IsLatched};
    ghost use Rattle.kp_cycle_plan.specs.Plans.{IsPlan};
    ghost use Rattle.kp_cycle.specs.inner.Settling.{AreFixed};
    ghost use Rattle.kp_cycle.specs.Steps.{Running, ShowsRows};
    ghost use Rattle.kp_cycle_plan.specs.Storage.{Fits, FitsBelow, StateFits, SlotsFit, state_of};

    ghost Value = { Running };

    ghost view = { λ s. record { net = s.net.now; state = state_of s.memory; slots = s.memory.slots } };

    ghost invariant = { λ s. Fits s.net.now s.memory × ShowsRows s.net.now × StateFits s.net.now (state_of s.memory) × SlotsFit s.net.now s.memory.slots × IsPlan s.net.now s.heads s.steps.items × FitsBelow s.net.now.nodes s.memory.nodes (length s.net.now.nodes) × AreFixed s.net.now.nodes s.steps.items s.fixed s.memory.nodes × IsLatched s.net.now (length s.net.now.parts.regs) s.latches.moved.items s.latches.held.items };
}

impl<'n> Sim<'n> {
    /// The netlist in its start state, without slots. All memory is allocated here; the only error is out of memory.
    pub fn open(alloc: Global, net: &'n Netlist) -> Result<Sim<'n>, NoMemory>
        requires { ShowsRows net.now }
        ensures { IfOk result (λ s. s ≡ record { net = net.now; state = start_of net.now; slots = [] }) }
    {
        Sim::open_with(alloc, net, 0)
    }

    /// The netlist in its start state, with slots for this many copies of a state, none of them saved. All memory is
    /// allocated here; the only error is out of memory.
    pub fn open_with(alloc: Global, net: &'n Netlist, slots: u32) -> Result<Sim<'n>, NoMemory>
        requires shows { ShowsRows net.now }
        requires few { slots ≤ 64 }
        ensures { IfOk result (λ s. s ≡ record { net = net.now; state = start_of net.now; slots = replicate slots None }) }
    {
        let heads = heads_of(net);
        let steps = plan(alloc, net, heads)?;
        let latches = latches_of(alloc, net)?;
        let mut memory = Memory::open(alloc, net, slots)?;
        let fixed = put_constants(net, heads, steps.as_slice(), &mut memory);
        Ok(Sim {
            net,
            heads,
            steps,
            fixed,
            latches,
            memory,
        })
    }

    /// The netlist that runs.
    pub fn netlist(&self) -> &'n Netlist
        ensures { result.now ≡ self.now.net }
    {
        self.net
    }

    /// Runs one cycle under this stall word, of which bits from the netlist's width on are ignored, without reset:
    /// `step_with` for a netlist without sample ports. All slots keep their contents. Allocates nothing.
    pub fn step(&mut self, ext: u16) -> Row
        requires { self.old.net.parts.samples ≡ [] }
        ensures row { result ≡ row_of self.old.net (stalled ext) self.old.state }
        ensures state { self.new ≡ record self.old { state = state_after self.old.net (stalled ext) self.old.state } }
    {
        self.step_with(ext, false, &[])
    }

    /// Runs one cycle under this stall word, with the reset raised or not, and with a value for each sample port. All
    /// slots keep their contents. Allocates nothing.
    pub fn step_with(&mut self, ext: u16, rst: bool, samples: &[Bits]) -> Row
        requires { SamplesFit self.old.net samples.now }
        ensures row { result ≡ row_of self.old.net (given ext rst samples.now) self.old.state }
        ensures state { self.new ≡ record self.old { state = state_after self.old.net (given ext rst samples.now) self.old.state } }
    {
        cycle(
            self.net,
            self.heads,
            self.steps.as_slice(),
            self.fixed,
            &self.latches,
            &mut self.memory,
            ext,
            rst,
            samples,
        )
    }

    /// `step_with` that also notes where files are written: `written` has an entry for each file, which becomes the address that its write port
    /// writes in this cycle, or None if it writes nothing. Allocates nothing.
    pub fn step_noting(
        &mut self,
        ext: u16,
        rst: bool,
        samples: &[Bits],
        written: &mut [Option<u32>],
    ) -> Row
        requires samples { SamplesFit self.old.net samples.now }
        requires room { length written.old ≡ length self.old.net.parts.files }
        ensures row { result ≡ row_of self.old.net (given ext rst samples.now) self.old.state }
        ensures state { self.new ≡ record self.old { state = state_after self.old.net (given ext rst samples.now) self.old.state } }
        ensures room { length written.new ≡ length self.old.net.parts.files }
        ensures written { (f : ℕ) → f < length self.old.net.parts.files → get_or written.new f None ≡ written_in self.old.net (given ext rst samples.now) self.old.state f }
    {
        let row = cycle(
            self.net,
            self.heads,
            self.steps.as_slice(),
            self.fixed,
            &self.latches,
            &mut self.memory,
            ext,
            rst,
            samples,
        );
        note_writes(self.net, &self.memory, rst, written);
        row
    }

    /// Copies the present state into a slot. The state and the other slots are unchanged. Allocates nothing.
    pub fn save(&mut self, slot: u32)
        requires { slot < length self.old.slots }
        ensures { self.new ≡ record self.old { slots = set self.old.slots slot (Some self.old.state) } }
    {
        self.memory.save(slot);
    }

    /// Restores the state that was saved in a slot. All slots keep their contents. Allocates nothing.
    pub fn load(&mut self, slot: u32)
        requires { IsSome (saved_in self.old slot) }
        ensures state { saved_in self.old slot ≡ Some self.new.state }
        ensures others { self.new ≡ record self.old { state = self.new.state } }
    {
        self.memory.load(slot);
    }

    /// The value of a register.
    pub fn value(&self, reg: u32) -> Bits
        requires { reg < length self.now.net.parts.regs }
        ensures { result ≡ reg_shown self.now reg }
    {
        let width = reg_width(self.net, reg);
        word(width, self.memory.reg(reg))
    }

    /// The word of a file at an address.
    pub fn word(&self, file: u32, address: u32) -> Bits
        requires file { file < length self.now.net.parts.files }
        requires address { address < 2 ^ (get_or self.now.net.parts.files file no_file).address_width }
        ensures { result ≡ word_shown self.now file address }
    {
        let width = file_width(self.net, file);
        word(width, self.memory.word(file, u64::from(address)))
    }

    /// All words of a file, as numbers.
    pub fn words(&self, file: u32) -> &[u64]
        requires { file < length self.now.net.parts.files }
        ensures { result.now ≡ get_or self.now.state.files file [] }
    {
        self.memory.words(file)
    }
}

fn reg_width(net: &Netlist, reg: u32) -> u8
    requires { reg < length net.now.parts.regs }
    ensures width { result ≡ (get_or net.now.parts.regs reg no_reg).start.width }
    ensures positive { 1 ≤ result }
    ensures at_most { result ≤ 64 }
{
    net.parts().regs.as_slice()[reg as usize].start.width()
}

fn file_width(net: &Netlist, file: u32) -> u8
    requires { file < length net.now.parts.files }
    ensures width { result ≡ (get_or net.now.parts.files file no_file).width }
    ensures positive { 1 ≤ result }
    ensures at_most { result ≤ 64 }
{
    net.parts().files.as_slice()[file as usize].width
}

fn cycle(
    net: &Netlist,
    heads: u32,
    steps: &[Step],
    fixed: usize,
    latches: &Latches,
    memory: &mut Memory,
    ext: u16,
    rst: bool,
    samples: &[Bits],
) -> Row
    requires plan { IsPlan net.now heads steps.now }
    requires known { FitsBelow net.now.nodes memory.old.nodes (length net.now.nodes) }
    requires fits { Fits net.now memory.old }
    requires shows { ShowsRows net.now }
    requires widths { StateFits net.now (state_of memory.old) }
    requires samples { length samples.now ≡ length net.now.parts.samples }
    requires fixed { AreFixed net.now.nodes steps.now fixed memory.old.nodes }
    requires latches { IsLatched net.now (length net.now.parts.regs) latches.now.moved.items latches.now.held.items }
    ensures fixed { AreFixed net.now.nodes steps.now fixed memory.new.nodes }
    ensures widths { StateFits net.now (state_of memory.new) }
    ensures fits { Fits net.now memory.new }
    ensures known { FitsBelow net.now.nodes memory.new.nodes (length net.now.nodes) }
    ensures row { result ≡ row_of net.now (given ext rst samples.now) (state_of memory.old) }
    ensures state { state_of memory.new ≡ state_after net.now (given ext rst samples.now) (state_of memory.old) }
    ensures slots { memory.new.slots ≡ memory.old.slots }
    ensures nodes { OfRoots net.now (λ j. get_or memory.new.nodes j 0 ≡ at (cells_of (given ext rst samples.now) (state_of memory.old)) net.now.nodes j) }
{
    settle(net, heads, fixed, steps, memory, u64::from(ext), samples);
    let parts = net.parts();
    let row = Row {
        full: output(net, memory, parts.full),
        ue: output(net, memory, parts.ue),
        back: output(net, memory, parts.back) as u8,
    };
    clock(net, latches, memory, rst);
    row
}

// The value of the node of an output.
fn output(net: &Netlist, memory: &Memory, a: NodeId) -> u16
    requires inside { a.0 < length net.now.nodes }
    requires fits { Fits net.now memory.now }
    requires narrow { wide net.now.nodes a.0 ≤ 12 }
    requires widths { FitsBelow net.now.nodes memory.now.nodes (length net.now.nodes) }
    ensures value { result ≡ get_or memory.now.nodes a.0 0 }
    ensures width { result < 2 ^ wide net.now.nodes a.0 }
{
    memory.node(a.0) as u16
}
