// The storage of a simulator: one region with the registers, the files, the saved states and the values of the nodes.
ghost use Rattle.std.specs.Prelude.{◌≡◌, ◌<◌, ◌≤◌, ◌++◌, [], length, get_or, set, take, drop, replicate, None, Some, IsSome, IfOk, All};
ghost use Rattle.std.specs.List.{sum_by};
ghost use Rattle.std.specs.Borrow.{sem};
ghost use Rattle.kp_net.specs.Netlist.{Net, start_regs, start_of};
ghost use Rattle.kp_cycle_plan.specs.{Storage.Stored, Storage.Fits, Storage.FitsBelow, Storage.state_of, Lending.LendsNodes};

use crate::slots::{Slot, carve_slots, words_of_slots};
use kp_base::NoMemory;
use kp_net::{NetFile, Netlist};
use kp_region::{Region, Span};
use std::alloc::Global;
use std::marker::Model;

/// The registers of a netlist, the words of its files and the values of its nodes, each in a span of one region. The
/// registers are in the first span, so that the index of a register is that of its word. Registers and files are adjacent,
/// so that the complete state is a span as well, and each slot is another span of its size. The nodes are in the last span.
/// Their values are no part of the state: each cycle computes those that are needed.
pub struct Memory {
    region: Region,
    reg_count: u32,
    files: Vec<Span>,
    whole: Span,
    slots: Vec<Slot>,
    nodes: Span,
}

impl Drop for Memory {
    fn drop(self) {
        let Memory {
            region,
            reg_count: _,
            files,
            whole: _,
            slots,
            nodes: _,
        } = self;
        drop(region);
        drop(files);
        drop(slots);
    }
}

impl Model for Memory {
    ghost use Rattle.std.specs.Prelude.{map};
    ghost use Rattle.kp_region.specs.Words.{span_words};
    ghost use Rattle.kp_cycle_plan.specs.Storage.{Stored};
    ghost use Rattle.kp_cycle_plan.specs.inner.Spans.{first_span, front, held, IsLast, Laid};

    ghost Value = { Stored };

    ghost view = { λ m. record {
      nodes = span_words m.region m.nodes;
      regs = span_words m.region (first_span m.reg_count);
      files = map (span_words m.region) m.files.items;
      slots = map (held m.region (first_span m.reg_count) m.files.items) m.slots.items;
    } };

    ghost invariant = { λ m. Laid (front m.region m.nodes) (first_span m.reg_count) m.files.items m.whole m.slots.items × IsLast m.nodes m.region };
}

impl Memory {
    /// The memory of a netlist in its start state: start values of registers and files, and this many slots, none of
    /// them saved. The only error is out of memory, and later calls allocate nothing.
    pub fn open(alloc: Global, net: &Netlist, slots: u32) -> Result<Memory, NoMemory>
        requires { slots ≤ 64 }
        ensures fits { IfOk result (λ m. Fits net.now m) }
        ensures regs { IfOk result (λ m. m.regs ≡ start_regs net.now) }
        ensures files { IfOk result (λ m. m.files ≡ (start_of net.now).files) }
        ensures nodes { IfOk result (λ m. FitsBelow net.now.nodes m.nodes (length net.now.nodes)) }
        ensures slots { IfOk result (λ m. m.slots ≡ replicate slots None) }
    {
        let mut memory = Memory::lay_out(alloc, net, slots)?;
        fill_regs(net, &mut memory);
        fill_files(net, &mut memory);
        Ok(memory)
    }

    // A span for the registers, one for each file, for each slot one of the size of all these together, and one for the nodes.
    #[tactic(auto, using(std::proofs::lemmas::List::Sums::sum_by_more_le))]
    fn lay_out(alloc: Global, net: &Netlist, slots: u32) -> Result<Memory, NoMemory>
        requires { slots ≤ 64 }
        ensures fits { IfOk result (λ m. Fits net.now m) }
        ensures nodes { IfOk result (λ m. FitsBelow net.now.nodes m.nodes (length net.now.nodes)) }
        ensures slots { IfOk result (λ m. m.slots ≡ replicate slots None) }
    {
        let files = net.parts().files.as_slice();
        let reg_count = net.parts().regs.as_slice().len() as u32;
        let file_words = words_of(files);
        let size = reg_count + file_words;
        let slot_words = words_of_slots(slots, size);
        let node_count = net.nodes().len() as u32;
        let mut spans = Vec::with_capacity(alloc, files.len())?;
        let mut region = Region::take(alloc, size + slot_words + node_count)?;
        let regs = region.carve(reg_count).unwrap();
        for file in files {
            let span = region.carve(file.words.as_slice().len() as u32).unwrap();
            spans.push(span)?;
        }
        let whole = Span {
            start: regs.start,
            len: size,
        };
        let copies = carve_slots(alloc, &mut region, size, slots)?;
        let nodes = region.carve(node_count).unwrap();
        Ok(Memory {
            region,
            reg_count: regs.len,
            files: spans,
            whole,
            slots: copies,
            nodes,
        })
    }

    /// The value of a node.
    pub fn node(&self, i: u32) -> u64
        requires { i < length self.now.nodes }
        ensures { result ≡ get_or self.now.nodes i 0 }
    {
        self.region.get(self.nodes, i)
    }

    /// Sets the value of a node.
    pub fn set_node(&mut self, i: u32, value: u64)
        requires { i < length self.old.nodes }
        ensures { self.new ≡ record self.old { nodes = set self.old.nodes i value } }
    {
        self.region.put(self.nodes, i, value);
    }

    /// The values of all nodes, to be changed.
    pub fn nodes_mut(&mut self) -> &mut [u64]
        ensures* writes_back { sem 𝓛 (LendsNodes self.entry result) }
        ensures value { result.now ≡ self.old.nodes }
    {
        self.region.words_mut(self.nodes)
    }

    /// Copies the first registers to the first nodes.
    pub fn show_regs(&mut self, count: u32)
        requires nodes { count ≤ length self.old.nodes }
        requires regs { count ≤ length self.old.regs }
        ensures { self.new ≡ record self.old { nodes = take count self.old.regs ++ drop count self.old.nodes } }
    {
        let from = Span {
            start: 0,
            len: count,
        };
        let to = Span {
            start: self.nodes.start,
            len: count,
        };
        self.region.copy(from, to);
    }

    /// The value of a register.
    pub fn reg(&self, i: u32) -> u64
        requires { i < length self.now.regs }
        ensures { result ≡ get_or self.now.regs i 0 }
    {
        let regs = Span {
            start: 0,
            len: self.reg_count,
        };
        self.region.get(regs, i)
    }

    /// Sets the value of a register.
    pub fn set_reg(&mut self, i: u32, value: u64)
        requires { i < length self.old.regs }
        ensures { self.new ≡ record self.old { regs = set self.old.regs i value } }
    {
        let regs = Span {
            start: 0,
            len: self.reg_count,
        };
        self.region.put(regs, i, value);
    }

    /// The word of a file at an address.
    pub fn word(&self, file: u32, address: u64) -> u64
        requires file { file < length self.now.files }
        requires address { address < length (get_or self.now.files file []) }
        ensures { result ≡ get_or (get_or self.now.files file []) address 0 }
    {
        self.region.get(self.files[file as usize], address as u32)
    }

    /// All words of a file.
    pub fn words(&self, file: u32) -> &[u64]
        requires { file < length self.now.files }
        ensures { result.now ≡ get_or self.now.files file [] }
    {
        self.region.words(self.files[file as usize])
    }

    /// Writes the word of a file at an address.
    pub fn set_word(&mut self, file: u32, address: u64, value: u64)
        requires file { file < length self.old.files }
        requires address { address < length (get_or self.old.files file []) }
        ensures { self.new ≡ record self.old { files = set self.old.files file (set (get_or self.old.files file []) address value) } }
    {
        let span = self.files[file as usize];
        self.region.put(span, address as u32, value);
    }

    /// Copies the registers and files into a slot.
    pub fn save(&mut self, slot: u32)
        requires { slot < length self.old.slots }
        ensures { self.new ≡ record self.old { slots = set self.old.slots slot (Some (state_of self.old)) } }
    {
        let copy = self.slots[slot as usize];
        self.region.copy(self.whole, copy.span);
        self.slots[slot as usize].is_saved = true;
    }

    /// Copies the contents of a slot into the registers and files.
    pub fn load(&mut self, slot: u32)
        requires { IsSome (get_or self.old.slots slot None) }
        ensures state { get_or self.old.slots slot None ≡ Some (state_of self.new) }
        ensures nodes { self.new.nodes ≡ self.old.nodes }
        ensures slots { self.new.slots ≡ self.old.slots }
    {
        let copy = self.slots[slot as usize];
        self.region.copy(copy.span, self.whole);
    }
}

// The number of words of all files.
fn words_of(files: &[NetFile]) -> u32
    requires few { length files.now ≤ 16 }
    requires small { All (λ f. length f.words ≤ 65536) files.now }
    ensures sum { result ≡ sum_by (λ f. length f.words) files.now }
    ensures at_most { result ≤ 1048576 }
{
    let mut sum = 0;
    for file in files {
        sum += file.words.as_slice().len() as u32;
    }
    sum
}

/// Sets each register to its start value.
pub fn fill_regs(net: &Netlist, memory: &mut Memory)
    requires { Fits net.now memory.old }
    ensures fits { Fits net.now memory.new }
    ensures regs { memory.new.regs ≡ start_regs net.now }
    ensures files { memory.new.files ≡ memory.old.files }
    ensures slots { memory.new.slots ≡ memory.old.slots }
    ensures nodes { memory.new.nodes ≡ memory.old.nodes }
{
    let regs = net.parts().regs.as_slice();
    for i in 0..regs.len() {
        memory.set_reg(i as u32, regs[i].start.value());
    }
}

// Fills each file with its initial words.
fn fill_files(net: &Netlist, memory: &mut Memory)
    requires { Fits net.now memory.old }
    ensures fits { Fits net.now memory.new }
    ensures regs { memory.new.regs ≡ memory.old.regs }
    ensures files { memory.new.files ≡ (start_of net.now).files }
    ensures slots { memory.new.slots ≡ memory.old.slots }
    ensures nodes { memory.new.nodes ≡ memory.old.nodes }
{
    let files = net.parts().files.as_slice();
    for i in 0..files.len() {
        fill_file(memory, i as u32, files[i].words.as_slice());
    }
}

fn fill_file(memory: &mut Memory, file: u32, words: &[u64])
    requires file { file < length memory.old.files }
    requires size { length words.now ≡ length (get_or memory.old.files file []) }
    ensures { memory.new ≡ record memory.old { files = set memory.old.files file words.now } }
{
    for i in 0..words.len() {
        memory.set_word(file, i as u64, words[i]);
    }
}
