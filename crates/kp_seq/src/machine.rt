// The sequential machine and its calls.
ghost use Rattle.std.specs.Prelude.{◌≡◌, ◌<◌, ◌^◌, [], IfOk, None, length, get_or};
ghost use Rattle.kp_stage.specs.Design.{IsSound};
ghost use Rattle.kp_stage.specs.Start.{IsStartOf, AreSamples};
ghost use Rattle.kp_machine.specs.Slots.{samples_of};
ghost use Rattle.kp_machine.specs.Machine.{state_of, values_in};
ghost use Rattle.kp_seq.specs.Running.{state, word_shown};
ghost use Rattle.kp_machine.specs.Words.{HasWord, after_one};
ghost use Rattle.kp_seq.specs.Recorded.{record_of};
ghost use Rattle.kp_seq.specs.Computed.{HasComputed, computed, slot_for};
ghost use Rattle.kp_seq.specs.inner.Ready.{AreTables, HasRoom, IsNoted, words_of_start};
ghost use Rattle.kp_seq.specs.inner.Resolved.{Resolves};
ghost use Rattle.kp_seq.specs.inner.Steps.{zero_bit, fitted};

use crate::computed::Computed;
use crate::instruction::{Instruction, compute, execute};
use crate::notes::Notes;
use crate::program::Program;
use crate::tables::Tables;
use crate::words::Words;
use kp_base::NoMemory;
use kp_bits::Bits;
use kp_seq_plan::Keys;
use kp_stage::{Design, Start};
use std::alloc::Global;
use std::marker::Model;
use std::rc::Rc;

/// A resolved design: the tables that are looked up while instructions run, and the program. It is made once, and no step
/// changes it, so that the copies of a machine share it.
struct Resolved<'a> {
    tables: Tables<'a>,
    program: Program,
}

impl Drop for Resolved<'_> {
    fn drop(self) {
        let Resolved { tables, program } = self;
        drop(tables);
        drop(program);
    }
}

impl<'a> Resolved<'a> {
    fn of(alloc: Global, d: &'a Design) -> Result<Resolved<'a>, NoMemory>
        ensures tables { IfOk result (λ r. AreTables d.now.job r.tables) }
        ensures program { IfOk result (λ r. Resolves r.tables d.now.job.blocks r.program) }
    {
        let keys = Keys::of(alloc, d.widths())?;
        let tables = Tables::lay_out(alloc, d, &keys)?;
        let program = Program::of(alloc, &tables, &keys, d)?;
        Ok(Resolved { tables, program })
    }

    // The same on the heap, for several machines.
    fn shared(self, alloc: Global) -> Result<Rc<Resolved<'a>>, NoMemory>
        ensures { IfOk result (λ r. r.value ≡ self.entry) }
    {
        Ok(Rc::new(alloc, self)?)
    }
}

/// The storage for running instructions: the one in flight, and scratch space for the arguments of functions.
#[derive(Drop)]
struct Desk {
    under: Instruction,
    room: Vec<u64>,
}

impl Desk {
    fn new(alloc: Global, tables: &Tables, size: usize) -> Result<Desk, NoMemory>
        ensures places { IfOk result (λ desk. HasRoom tables.now desk.under) }
        ensures room { IfOk result (λ desk. length desk.room.items ≡ size) }
    {
        let under = Instruction::new(alloc, tables)?;
        let room = vec![in alloc; 0; size]?;
        Ok(Desk { under, room })
    }
}

/// The state between instructions: the words of the targets, and the record of the last recorded instruction.
#[derive(Drop)]
struct Memory {
    words: Words,
    notes: Notes,
}

impl Memory {
    // The words of a start state, and an empty record.
    fn start(alloc: Global, tables: &Tables, d: &Design, start: &Start) -> Result<Memory, NoMemory>
        requires suits { IsStartOf d.now.job start.now }
        requires tables { AreTables d.now.job tables.now }
        ensures sound { IfOk result (λ m. IsSound d.now) }
        ensures words { IfOk result (λ m. m.words ≡ words_of_start d.now.job.decls start.now.regs start.now.files) }
        ensures notes { IfOk result (λ m. IsNoted d.now.job m.notes) }
    {
        let words = Words::start(alloc, d.job().decls.as_slice(), start)?;
        let notes = Notes::new(alloc, tables, d.summary().reads as usize)?;
        Ok(Memory { words, notes })
    }

    fn copied(alloc: Global, words: &Words, notes: &Notes) -> Result<Memory, NoMemory>
        ensures words { IfOk result (λ m. m.words ≡ words.now) }
        ensures notes { IfOk result (λ m. m.notes ≡ notes.now) }
    {
        let words = words.copied(alloc)?;
        let notes = notes.copied(alloc)?;
        Ok(Memory { words, notes })
    }
}

/// A machine that runs one instruction at a time; contracts see it as the job of its design and its present state. `unused` is
/// a record of no reads and no results, for instructions that are not recorded.
pub struct SeqMachine<'a> {
    design: &'a Design,
    resolved: Rc<Resolved<'a>>,
    under: Instruction,
    room: Vec<u64>,
    words: Words,
    notes: Notes,
    unused: Notes,
}

impl Drop for SeqMachine<'_> {
    fn drop(self) {
        let SeqMachine {
            design: _,
            resolved,
            under,
            room,
            words,
            notes,
            unused,
        } = self;
        drop(resolved);
        drop(under);
        drop(room);
        drop(words);
        drop(notes);
        drop(unused);
    }
}

impl<'a> Model for SeqMachine<'a> {
    ghost use Rattle.std.specs.Coded.{codes};
    ghost use Rattle.std.specs.Prelude.{length};
    ghost use Rattle.kp_ast.specs.contracts.tree.ExprKind as e;
    ghost use Rattle.kp_seq.specs.Running.{Running};
    ghost use Rattle.kp_seq.specs.inner.Notes.{record_by};
    ghost use Rattle.kp_seq.specs.inner.Ready.{IsReady};

    ghost Value = { Running };

    ghost coded = { Prim.hlevel (codes, e.the_row.coded) };

    ghost view = { λ m. record { job = m.design.now.job; words = m.words; last = record_by m.notes } };

    ghost invariant = { λ m. IsReady m.design.now.job m.resolved.value.tables m.resolved.value.program m.under (length m.room.items) m.words m.notes };
}

impl<'a> SeqMachine<'a> {
    /// The machine of a design in a start state. All memory is allocated here; the only error is out of memory.
    pub fn open(alloc: Global, d: &'a Design, start: &Start) -> Result<SeqMachine<'a>, NoMemory>
        requires suits { IsStartOf d.now.job start.now }
        ensures job { IfOk result (λ m. m.job ≡ d.now.job) }
        ensures state { IfOk result (λ m. state m ≡ state_of d.now.job start.now) }
    {
        let resolved = Resolved::of(alloc, d)?;
        let desk = Desk::new(alloc, &resolved.tables, d.summary().size as usize)?;
        let memory = Memory::start(alloc, &resolved.tables, d, start)?;
        let shared = resolved.shared(alloc)?;
        Ok(SeqMachine {
            design: d,
            resolved: shared,
            under: desk.under,
            room: desk.room,
            words: memory.words,
            notes: memory.notes,
            unused: Notes::none(alloc),
        })
    }

    /// A copy of the machine, with the same job and the same state; the machine itself is unchanged. The copy shares the
    /// resolved design, and has a state of its own. All memory of the copy is allocated here; the only error is out of memory.
    pub fn copied(&self, alloc: Global) -> Result<SeqMachine<'a>, NoMemory>
        ensures { IfOk result (λ m. m ≡ self.now) }
    {
        let resolved = self.resolved.clone()?;
        let desk = Desk::new(alloc, &self.resolved.as_ref().tables, self.room.len())?;
        let memory = Memory::copied(alloc, &self.words, &self.notes)?;
        Ok(SeqMachine {
            design: self.design,
            resolved,
            under: desk.under,
            room: desk.room,
            words: memory.words,
            notes: memory.notes,
            unused: Notes::none(alloc),
        })
    }

    /// Runs one instruction of a machine without samples. Allocates nothing.
    #[tactic(auto, using(crate::proofs::Sampling::no_row))]
    pub fn step(&mut self)
        requires { samples_of self.old.job.decls ≡ [] }
        ensures job { self.new.job ≡ self.old.job }
        ensures state { state self.new ≡ after_one self.old.job (state self.old) [] }
        ensures recorded { self.new.last ≡ record_of self.old.job (state self.old) (λ x. 0) }
    {
        self.step_with(&[]);
    }

    /// Runs one instruction with an input vector: a value for each sample, with its width, in the order of
    /// declaration. Allocates nothing.
    pub fn step_with(&mut self, row: &[Bits])
        requires { AreSamples self.old.job.decls row.now }
        ensures job { self.new.job ≡ self.old.job }
        ensures state { state self.new ≡ after_one self.old.job (state self.old) row.now }
        ensures recorded { self.new.last ≡ record_of self.old.job (state self.old) (values_in row.now) }
    {
        let resolved = self.resolved.as_ref();
        let room = self.room.as_mut_slice();
        execute(
            &resolved.tables,
            &resolved.program,
            row,
            &mut self.under,
            room,
            &mut self.words,
            &mut self.notes,
        );
    }

    /// Runs one instruction with an input vector as `step_with` does, but leaves the record as it was. Allocates nothing.
    pub fn step_unrecorded(&mut self, row: &[Bits])
        requires { AreSamples self.old.job.decls row.now }
        ensures job { self.new.job ≡ self.old.job }
        ensures state { state self.new ≡ after_one self.old.job (state self.old) row.now }
        ensures last { self.new.last ≡ self.old.last }
    {
        let resolved = self.resolved.as_ref();
        let room = self.room.as_mut_slice();
        execute(
            &resolved.tables,
            &resolved.program,
            row,
            &mut self.under,
            room,
            &mut self.words,
            &mut self.unused,
        );
    }

    /// A value that the next instruction computes with an input vector. The machine stays as it is. Allocates nothing.
    pub fn next_value(&mut self, row: &[Bits], what: Computed) -> u64
        requires samples { AreSamples self.old.job.decls row.now }
        requires there { HasComputed self.old.job what }
        ensures same { self.new ≡ self.old }
        ensures value { result ≡ computed self.old.job (state self.old) (values_in row.now) what }
        ensures fits { result < 2 ^ (slot_for self.old.job what).width }
    {
        let resolved = self.resolved.as_ref();
        let room = self.room.as_mut_slice();
        compute(
            &resolved.program,
            row,
            &mut self.under,
            room,
            &self.words,
            &mut self.unused,
        );
        self.under.value(what)
    }

    /// The value of a target at an address. The targets are the registers and files in the order of declaration. A register
    /// has address 0.
    pub fn value(&self, target: u32, address: u32) -> Bits
        requires { HasWord self.now.job target address }
        ensures { result ≡ word_shown self.now target address }
    {
        let target = target as usize;
        let resolved = self.resolved.as_ref();
        let width = resolved.tables.target_width(target);
        fitted(width, self.words.word(target, u64::from(address)))
    }

    /// The address that a read of the last recorded instruction had, 0 for a register, or None exactly if its condition was
    /// false. Reads are numbered from 0 in text order.
    pub fn reads(&self, read: u32) -> Option<u32>
        requires { read < length self.now.last.reads }
        ensures { result ≡ get_or self.now.last.reads read None }
    {
        self.notes.reads()[read as usize]
    }

    /// The address that a result of the last recorded instruction wrote, 0 for a register, or None exactly if its enable
    /// pipe was 0. Results are numbered from 0 in the order of declaration.
    pub fn writes(&self, result_number: u32) -> Option<u32>
        requires { result_number < length self.now.last.writes }
        ensures { result ≡ get_or self.now.last.writes result_number None }
    {
        self.notes.writes()[result_number as usize]
    }

    /// The setting stage of a result in the last recorded instruction: the stage of its first enabled set, or its write
    /// stage if there was none.
    pub fn setting(&self, result_number: u32) -> u8
        requires { result_number < length self.now.last.settings }
        ensures { result ≡ get_or self.now.last.settings result_number 0 }
    {
        self.notes.settings()[result_number as usize]
    }
}

// The word of this width and this value. In an accepted machine all values fit.
fn fitted(width: u64, value: u64) -> Bits
    ensures { result ≡ fitted width value }
{
    if width >= 1 && width <= 64 {
        Bits::new(width as u8, value).unwrap_or(zero_bit())
    } else {
        zero_bit()
    }
}

fn zero_bit() -> Bits
    ensures { result ≡ zero_bit }
{
    Bits::new(1, 0).unwrap()
}
