//! The record of an instruction while it runs: the addresses of its reads, and where and in which stages its results were set.
ghost use Rattle.std.specs.Prelude.{◌≡◌, ◌+◌, [], ◌∷◌, None, get_or, set, IfOk, length, if◌then◌else◌};
ghost use Rattle.std.specs.Option.{option_map};
ghost use Rattle.kp_machine.specs.Slots.{targets_of, pipes_of};
ghost use Rattle.kp_seq.specs.inner.Resolved.{outputs};
ghost use Rattle.kp_seq.specs.inner.Notes.{narrowed, narrow_address, outlets_of, begun_notes, with_read, marked, with_marks, write_noted, setting_noted, with_results, changed_from};

use crate::instruction::{Instruction, address_by, is_enabled};
use crate::tables::{Slot, Tables, number_of, pipe_number};
use kp_ast::Decl;
use kp_base::NoMemory;
use std::alloc::Global;
use std::marker::Model;

/// A result: the number of its target, those of its enable and its address pipe, and its write stage.
#[derive(Clone, Copy)]
pub(crate) struct Outlet {
    pub target: usize,
    pub enable: Option<usize>,
    pub address: Option<usize>,
    pub stage: u64,
}

/// The results of a machine, the record of an instruction's reads and results, and, while it runs, the number of
/// reads so far and the stage in which each result was set.
pub(crate) struct Notes {
    outlets: Vec<Outlet>,
    reads: Vec<Option<u32>>,
    next: usize,
    set_in: Vec<Option<u64>>,
    writes: Vec<Option<u32>>,
    settings: Vec<u8>,
}

impl Drop for Notes {
    fn drop(self) {
        let Notes {
            outlets,
            reads,
            next: _,
            set_in,
            writes,
            settings,
        } = self;
        drop(outlets);
        drop(reads);
        drop(set_in);
        drop(writes);
        drop(settings);
    }
}

impl Model for Notes {
    ghost use Rattle.kp_seq.specs.inner.Notes.{Noted};

    ghost Value = { Noted };

    ghost view = { λ n. record { outlets = n.outlets.items; reads = n.reads.items; next = n.next; set_in = n.set_in.items; writes = n.writes.items; settings = n.settings.items } };
}

impl Notes {
    ghost use Rattle.kp_ast.specs.declared.tree.Decl.{Decl};

    /// Storage for the record of an instruction with this many reads. Error: out of memory.
    pub fn new(alloc: Global, tables: &Tables, reads: usize) -> Result<Notes, NoMemory>
        ensures outlets { IfOk result (λ n. n.outlets ≡ outlets_of tables.now.targets tables.now.pipes tables.now.decls) }
        ensures reads { IfOk result (λ n. length n.reads ≡ reads) }
        ensures set_in { IfOk result (λ n. length n.set_in ≡ length n.outlets) }
        ensures writes { IfOk result (λ n. length n.writes ≡ length n.outlets) }
        ensures settings { IfOk result (λ n. length n.settings ≡ length n.outlets) }
    {
        let outlets = outlets(
            alloc,
            tables.decls,
            tables.targets.as_slice(),
            tables.pipes.as_slice(),
        )?;
        let results = outlets.len();
        Ok(Notes {
            outlets,
            reads: vec![in alloc; None; reads]?,
            next: 0,
            set_in: vec![in alloc; None; results]?,
            writes: vec![in alloc; None; results]?,
            settings: vec![in alloc; 0; results]?,
        })
    }

    /// The record of a machine without reads and results, which takes no memory.
    pub fn none(alloc: Global) -> Notes
        ensures { result ≡ record { outlets = []; reads = []; next = 0; set_in = []; writes = []; settings = [] } }
    {
        Notes {
            outlets: Vec::new(alloc),
            reads: Vec::new(alloc),
            next: 0,
            set_in: Vec::new(alloc),
            writes: Vec::new(alloc),
            settings: Vec::new(alloc),
        }
    }

    /// A copy of the record. Error: out of memory.
    pub fn copied(&self, alloc: Global) -> Result<Notes, NoMemory>
        ensures { IfOk result (λ n. n ≡ self.now) }
    {
        Ok(Notes {
            outlets: Vec::from_slice(alloc, self.outlets.as_slice())?,
            reads: Vec::from_slice(alloc, self.reads.as_slice())?,
            next: self.next,
            set_in: Vec::from_slice(alloc, self.set_in.as_slice())?,
            writes: Vec::from_slice(alloc, self.writes.as_slice())?,
            settings: Vec::from_slice(alloc, self.settings.as_slice())?,
        })
    }

    /// The start of an instruction.
    pub fn begin(&mut self)
        ensures { self.new ≡ begun_notes self.old }
    {
        self.next = 0;
        self.set_in.as_mut_slice().fill(None);
    }

    /// The next read: its address, or None if its condition was false.
    pub fn read(&mut self, address: Option<u64>)
        ensures { self.new ≡ with_read self.old (narrow_address address) }
    {
        if self.next < self.reads.len() {
            let next = self.next;
            self.reads[next] = narrow_address(address);
            self.next += 1;
        }
    }

    /// The end of stage k: it set those results that have a value now and had none before.
    pub fn end_stage(&mut self, k: u64, under: &Instruction)
        ensures { self.new ≡ with_marks k (outputs under.now) self.old }
    {
        mark_results(
            self.outlets.as_slice(),
            self.set_in.as_mut_slice(),
            k,
            under,
        );
    }

    /// The end of the instruction.
    pub fn end(&mut self, under: &Instruction)
        ensures { self.new ≡ with_results (outputs under.now) self.old }
    {
        let outlets = self.outlets.as_slice();
        note_writes(outlets, self.writes.as_mut_slice(), under);
        note_settings(
            outlets,
            self.settings.as_mut_slice(),
            self.set_in.as_slice(),
        );
    }

    /// The addresses of the reads.
    pub fn reads(&self) -> &[Option<u32>]
        ensures { result.now ≡ self.now.reads }
    {
        self.reads.as_slice()
    }

    /// The addresses that the results wrote.
    pub fn writes(&self) -> &[Option<u32>]
        ensures { result.now ≡ self.now.writes }
    {
        self.writes.as_slice()
    }

    /// The setting stages of the results.
    pub fn settings(&self) -> &[u8]
        ensures { result.now ≡ self.now.settings }
    {
        self.settings.as_slice()
    }
}

fn outlets(
    alloc: Global,
    decls: &[Decl],
    targets: &[Slot],
    pipes: &[Slot],
) -> Result<Vec<Outlet>, NoMemory>
    ensures { IfOk result (λ outlets. outlets.items ≡ outlets_of targets.now pipes.now decls.now) }
{
    let mut outlets = Vec::new(alloc);
    for decl in decls {
        if let Decl::Target(r) = decl {
            outlets.push(Outlet {
                target: number_of(targets, &r.target.name),
                enable: pipe_number(pipes, &r.enable),
                address: pipe_number(pipes, &r.address),
                stage: r.stage.value,
            })?;
        }
    }
    Ok(outlets)
}

// An address in 32 bits. No address of an accepted machine is truncated.
fn narrow_address(address: Option<u64>) -> Option<u32>
    ensures { result ≡ narrow_address address }
{
    match address {
        Some(a) => Some(narrowed(a)),
        None => None,
    }
}

fn narrowed(a: u64) -> u32
    ensures { result ≡ narrowed 32 a }
{
    if a < 0x1_0000_0000 { a as u32 } else { 0 }
}

fn mark_results(outlets: &[Outlet], set_in: &mut [Option<u64>], k: u64, under: &Instruction)
    ensures { set_in.new ≡ changed_from (λ i o old. marked k under.now.results o old) None set_in.old 0 outlets.now }
{
    for i in 0..outlets.len() {
        mark_result(outlets[i], set_in, i, k, under);
    }
}

fn mark_result(outlet: Outlet, set_in: &mut [Option<u64>], i: usize, k: u64, under: &Instruction)
    ensures { set_in.new ≡ set set_in.old i (marked k under.now.results outlet (get_or set_in.old i None)) }
{
    if i < set_in.len() {
        set_in[i] = marked(k, under, outlet, set_in[i]);
    }
}

fn marked(k: u64, under: &Instruction, outlet: Outlet, old: Option<u64>) -> Option<u64>
    ensures { result ≡ marked k under.now.results outlet old }
{
    if old.is_some() {
        return old;
    }
    if under.has_result(outlet.target) {
        return Some(k);
    }
    None
}

fn note_writes(outlets: &[Outlet], writes: &mut [Option<u32>], under: &Instruction)
    ensures { writes.new ≡ changed_from (λ i o old. write_noted (outputs under.now) o) None writes.old 0 outlets.now }
{
    for i in 0..outlets.len() {
        note_write(outlets[i], writes, i, under);
    }
}

fn note_write(outlet: Outlet, writes: &mut [Option<u32>], i: usize, under: &Instruction)
    ensures { writes.new ≡ set writes.old i (write_noted (outputs under.now) outlet) }
{
    if i < writes.len() {
        writes[i] = write_of(under, outlet);
    }
}

fn write_of(under: &Instruction, outlet: Outlet) -> Option<u32>
    ensures { result ≡ write_noted (outputs under.now) outlet }
{
    if is_enabled(under, outlet.enable) {
        return Some(narrowed(address_by(under, outlet.address)));
    }
    None
}

fn note_settings(outlets: &[Outlet], settings: &mut [u8], set_in: &[Option<u64>])
    ensures { settings.new ≡ changed_from (λ i o old. setting_noted (get_or set_in.now i None) o) 0 settings.old 0 outlets.now }
{
    for i in 0..outlets.len() {
        note_setting(outlets[i], settings, i, set_in);
    }
}

fn note_setting(outlet: Outlet, settings: &mut [u8], i: usize, set_in: &[Option<u64>])
    ensures { settings.new ≡ set settings.old i (setting_noted (get_or set_in.now i None) outlet) }
{
    if i < settings.len() {
        settings[i] = setting_of(set_in.get(i).copied().unwrap_or(None), outlet);
    }
}

// A setting stage is a stage.
fn setting_of(set_in: Option<u64>, outlet: Outlet) -> u8
    ensures { result ≡ setting_noted set_in outlet }
{
    let stage = set_in.unwrap_or(outlet.stage);
    if stage < 256 { stage as u8 } else { 0 }
}
