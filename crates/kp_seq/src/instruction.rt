//! The execution of one instruction.
ghost use Rattle.std.specs.Prelude.{◌≡◌, ◌≤◌, ◌+◌, ◌==◌, None, true, length, get_or, set, is_some, All, IfOk, if◌then◌else◌, slice_index, unwrap_or};
ghost use Rattle.kp_region.specs.Words.{laid_over};
ghost use Rattle.kp_seq_plan.specs.Codes.{value_of, space_of};
ghost use Rattle.kp_seq.specs.Recorded.{where_true};
ghost use Rattle.kp_seq.specs.inner.Ready.{HasRoom};
ghost use Rattle.kp_seq.specs.inner.Steps.{is_enabled, address_by, written_by, written_from};
ghost use Rattle.kp_seq.specs.inner.Resolved.{outputs, holds_at, value_asked, value_held, note_step, note_steps, note_stages, noted, with_place, put_pipe, set_first, with_target, begun_at, after_step, after_steps, with_row_at, with_carried, with_run, entered_at, after_stages, ran, step_space, steps_space};

use crate::computed::Computed;
use crate::notes::Notes;
use crate::places::Places;
use crate::program::{Program, Reading, Step};
use crate::tables::{Port, Tables};
use crate::words::Words;
use kp_base::NoMemory;
use kp_bits::Bits;
use kp_region::Region;
use kp_seq_plan::{Code, value};
use std::alloc::Global;
use std::marker::Model;

/// An instruction in flight: the values of the names of its stage, indexed by the names' numbers, those of its pipes,
/// and its results, indexed by their targets. Each of the three is a region, all words of which are one span. A result
/// counts only where it is set.
pub(crate) struct Instruction {
    names: Region,
    pipes: Region,
    results: Region,
    is_set: Vec<bool>,
}

impl Drop for Instruction {
    fn drop(self) {
        let Instruction {
            names,
            pipes,
            results,
            is_set,
        } = self;
        drop(names);
        drop(pipes);
        drop(results);
        drop(is_set);
    }
}

impl Model for Instruction {
    ghost use Rattle.std.specs.Prelude.{◌≡◌, length};
    ghost use Rattle.kp_seq.specs.inner.Resolved.{Raw};
    ghost use Rattle.kp_seq.specs.inner.Flight.{where_set};

    ghost Value = { Raw };

    ghost view = { λ u. record { names = u.names.words; pipes = u.pipes.words; results = where_set u.is_set.items u.results.words } };

    ghost invariant = { λ u. length u.is_set.items ≡ length u.results.words };
}

impl Instruction {
    /// Storage for an instruction in flight. Error: out of memory.
    #[tactic(auto, using(crate::proofs::Flight::where_length))]
    pub fn new(alloc: Global, tables: &Tables) -> Result<Instruction, NoMemory>
        ensures { IfOk result (λ u. HasRoom tables.now u) }
    {
        let targets = tables.targets.len();
        Ok(Instruction {
            names: zeros(alloc, tables.names.len())?,
            pipes: zeros(alloc, tables.pipes.len())?,
            results: zeros(alloc, targets)?,
            is_set: vec![in alloc; false; targets]?,
        })
    }

    // Clears the values of all pipes and results.
    fn begin(&mut self)
        ensures { self.new ≡ begun_at self.old }
    {
        self.pipes.all_mut().fill(0);
        self.is_set.as_mut_slice().fill(false);
    }

    // Sets the value under an optional index.
    fn bind(&mut self, place: Option<usize>, value: u64)
        ensures { self.new ≡ with_place self.old place value }
    {
        if let Some(place) = place {
            put_at(self.names.all_mut(), place, value);
        }
    }

    // Sets the value of a pipe.
    fn put(&mut self, pipe: usize, value: u64)
        ensures { self.new ≡ put_pipe self.old pipe value }
    {
        put_at(self.pipes.all_mut(), pipe, value);
    }

    // Sets the result of a target, unless it has a value already.
    fn set(&mut self, target: usize, value: u64)
        ensures { self.new ≡ set_first self.old target value }
    {
        if target >= self.is_set.len() || self.is_set[target] {
            return;
        }
        self.is_set[target] = true;
        put_at(self.results.all_mut(), target, value);
    }

    // The values of the names.
    fn names(&self) -> &[u64]
        ensures { result.now ≡ self.now.names }
    {
        self.names.all()
    }

    // The value of a pipe.
    fn pipe(&self, pipe: usize) -> u64
        ensures { result ≡ slice_index self.now.pipes pipe }
    {
        word_at(self.pipes.all(), pipe)
    }

    /// Whether the result of a target is set.
    pub fn has_result(&self, target: usize) -> bool
        ensures { result ≡ is_some (get_or self.now.results target None) }
    {
        target < self.is_set.len() && self.is_set[target]
    }

    // The result of a target, and 0 if it has none.
    fn result(&self, target: usize) -> u64
        ensures { result ≡ unwrap_or (get_or self.now.results target None) 0 }
    {
        if self.has_result(target) {
            word_at(self.results.all(), target)
        } else {
            0
        }
    }

    /// A value that the instruction has: that of a pipe, or of a result, which is 0 if it isn't set.
    pub fn value(&self, what: Computed) -> u64
        ensures { result ≡ value_held self.now what }
    {
        match what {
            Computed::Pipe(pipe) => self.pipe(pipe as usize),
            Computed::Result(target) => self.result(target as usize),
        }
    }

    // Binds the samples to the words of an input vector.
    fn sample(&mut self, places: &[Option<usize>], row: &[Bits])
        ensures { self.new ≡ with_row_at self.old places.now row.now }
    {
        for i in 0..places.len() {
            if i >= row.len() {
                return;
            }
            self.bind(places[i], row[i].value());
        }
    }

    // The start of a stage: the names of the samples and of the pipes are bound to their values.
    fn enter(&mut self, program: &Program, row: &[Bits])
        ensures { self.new ≡ entered_at program.now row.now self.old }
    {
        self.sample(program.samples.as_slice(), row);
        self.bring_pipes(&program.pipes);
    }

    // Binds the names of the pipes to the values of the pipes.
    fn bring_pipes(&mut self, places: &Places)
        ensures { self.new ≡ with_carried self.old 0 places.now }
    {
        if let Some(first) = places.first() {
            if self.has_run(first, places.len()) {
                self.bring_run(first);
                return;
            }
        }
        self.bring_each(places.as_slice());
    }

    // Whether there are this many names from an index on, and as many pipes.
    fn has_run(&self, first: usize, count: usize) -> bool
        ensures pipes { result ≡ true → count ≡ length self.now.pipes }
        ensures names { result ≡ true → first + count ≤ length self.now.names }
    {
        let names = self.names().len();
        count == self.pipes.all().len() && count <= names && first <= names - count
    }

    // The same where the indices of the names are in sequence, from this one on.
    fn bring_run(&mut self, first: usize)
        requires { first + length self.old.pipes ≤ length self.old.names }
        ensures { self.new ≡ with_run self.old first }
    {
        put_from(self.names.all_mut(), first, self.pipes.all());
    }

    // The same, one by one.
    fn bring_each(&mut self, places: &[Option<usize>])
        ensures { self.new ≡ with_carried self.old 0 places.now }
    {
        for i in 0..places.len() {
            let value = self.pipe(i);
            self.bind(places[i], value);
        }
    }
}

// A region of this many words, all of them in one span. Error: out of memory, also where no region has as many.
fn zeros(alloc: Global, words: usize) -> Result<Region, NoMemory>
    ensures { IfOk result (λ r. length r.words ≡ words) }
{
    let size = u32::try_from(words).ok().ok_or(NoMemory)?;
    let mut region = Region::take(alloc, size)?;
    region.carve(size).unwrap();
    Ok(region)
}

// The word at an index, and 0 if there is none.
fn word_at(words: &[u64], i: usize) -> u64
    ensures { result ≡ slice_index words.now i }
{
    if i < words.len() { words[i] } else { 0 }
}

// Sets the word at an index, if there is one.
fn put_at(words: &mut [u64], i: usize, value: u64)
    ensures { words.new ≡ set words.old i value }
{
    if i < words.len() {
        words[i] = value;
    }
}

// Overwrites words with others from an index on.
fn put_from(words: &mut [u64], first: usize, others: &[u64])
    requires { first + length others.now ≤ length words.old }
    ensures { words.new ≡ laid_over words.old first others.now }
{
    words[first..first + others.len()].copy_from_slice(others);
}

/// Runs one instruction on these words, with these words of the samples, and records what its reads and results do.
pub(crate) fn execute(
    tables: &Tables,
    program: &Program,
    row: &[Bits],
    under: &mut Instruction,
    room: &mut [u64],
    words: &mut Words,
    notes: &mut Notes,
)
    requires { All (λ s. steps_space s ≤ length room.old) program.now.stages }
    ensures words { words.new ≡ ran program.now tables.now.ports row.now under.old words.old }
    ensures under { under.new ≡ after_stages program.now words.old row.now (begun_at under.old) program.now.stages }
    ensures room { length room.new ≡ length room.old }
    ensures notes { notes.new ≡ noted program.now words.old row.now under.old notes.old }
{
    compute(program, row, under, room, words, notes);
    write(tables, under, words);
}

/// Runs all stages of one instruction on these words, which stay as they are.
pub(crate) fn compute(
    program: &Program,
    row: &[Bits],
    under: &mut Instruction,
    room: &mut [u64],
    words: &Words,
    notes: &mut Notes,
)
    requires { All (λ s. steps_space s ≤ length room.old) program.now.stages }
    ensures under { under.new ≡ after_stages program.now words.now row.now (begun_at under.old) program.now.stages }
    ensures room { length room.new ≡ length room.old }
    ensures notes { notes.new ≡ noted program.now words.now row.now under.old notes.old }
{
    under.begin();
    notes.begin();
    run_stages(program, row, under, room, words, notes);
    notes.end(under);
}

fn run_stages(
    program: &Program,
    row: &[Bits],
    under: &mut Instruction,
    room: &mut [u64],
    words: &Words,
    notes: &mut Notes,
)
    requires { All (λ s. steps_space s ≤ length room.old) program.now.stages }
    ensures under { under.new ≡ after_stages program.now words.now row.now under.old program.now.stages }
    ensures room { length room.new ≡ length room.old }
    ensures notes { notes.new ≡ note_stages program.now words.now row.now 0 under.old notes.old program.now.stages }
{
    let stages = program.stages.as_slice();
    for k in 0..stages.len() {
        under.enter(program, row);
        run_steps(under, room, stages[k].as_slice(), words, notes);
        notes.end_stage(k as u64, under);
    }
}

fn run_steps(
    under: &mut Instruction,
    room: &mut [u64],
    steps: &[Step],
    words: &Words,
    notes: &mut Notes,
)
    requires { steps_space steps.now ≤ length room.old }
    ensures under { under.new ≡ after_steps words.now under.old steps.now }
    ensures room { length room.new ≡ length room.old }
    ensures notes { notes.new ≡ note_steps words.now under.old notes.old steps.now }
{
    for step in steps {
        run_step(under, room, step, words, notes);
    }
}

fn run_step(
    under: &mut Instruction,
    room: &mut [u64],
    step: &Step,
    words: &Words,
    notes: &mut Notes,
)
    requires { step_space step.now ≤ length room.old }
    ensures under { under.new ≡ after_step words.now under.old step.now }
    ensures room { length room.new ≡ length room.old }
    ensures notes { notes.new ≡ note_step under.old notes.old step.now }
{
    match step {
        Step::Read(reading) => {
            let asked = asked(under.names(), room, reading);
            notes.read(asked);
            let value = value_read(reading, asked, words);
            under.bind(reading.place, value);
        }
        Step::Let(place, code) => {
            let value = value(code, under.names(), room);
            under.bind(*place, value);
        }
        Step::Put(pipe, code) => {
            let value = value(code, under.names(), room);
            under.put(*pipe, value);
        }
        Step::Set(target, code, when) => set_result(under, room, *target, code, when),
        Step::Nothing => {}
    }
}

// Sets a result; its first value counts.
fn set_result(
    under: &mut Instruction,
    room: &mut [u64],
    target: Option<usize>,
    code: &Code,
    when: &Code,
)
    requires { space_of code.now + space_of when.now ≤ length room.old }
    ensures under { under.new ≡ (if holds_at under.old when.now then with_target under.old target (value_of code.now under.old.names) else under.old) }
    ensures room { length room.new ≡ length room.old }
{
    let names = under.names();
    if !holds(names, room, when) {
        return;
    }
    let value = value(code, names, room);
    if let Some(target) = target {
        under.set(target, value);
    }
}

// The address of a read, or None if its condition is false.
fn asked(names: &[u64], room: &mut [u64], reading: &Reading) -> Option<u64>
    requires { space_of reading.now.address + space_of reading.now.when ≤ length room.old }
    ensures value { result ≡ where_true (value_of reading.now.when names.now == 1) (value_of reading.now.address names.now) }
    ensures room { length room.new ≡ length room.old }
{
    if holds(names, room, &reading.when) {
        return Some(value(&reading.address, names, room));
    }
    None
}

// The value of a read: 0 if its condition is false. A guess is of a register, which is read at address 0.
fn value_read(reading: &Reading, asked: Option<u64>, words: &Words) -> u64
    ensures { result ≡ value_asked words.now reading.now asked }
{
    match asked {
        Some(address) => {
            let at = if reading.is_guessed { 0 } else { address };
            words.word(reading.target, at)
        }
        None => 0,
    }
}

fn holds(names: &[u64], room: &mut [u64], when: &Code) -> bool
    requires { space_of when.now ≤ length room.old }
    ensures value { result ≡ (value_of when.now names.now == 1) }
    ensures room { length room.new ≡ length room.old }
{
    value(when, names, room) == 1
}

// Each target takes its result if that is enabled.
fn write(tables: &Tables, under: &Instruction, words: &mut Words)
    ensures { words.new ≡ written_from (outputs under.now) words.old 0 tables.now.ports }
{
    let ports = tables.ports.as_slice();
    for t in 0..ports.len() {
        write_target(under, words, t, ports[t]);
    }
}

fn write_target(under: &Instruction, words: &mut Words, t: usize, port: Option<Port>)
    ensures { words.new ≡ written_by (outputs under.now) words.old t port }
{
    let Some(port) = port else {
        return;
    };
    if is_enabled(under, port.enable) {
        words.set_word(t, address_by(under, port.address), under.result(t));
    }
}

/// A result is enabled if its enable pipe is 1, or if it has none.
pub(crate) fn is_enabled(under: &Instruction, enable: Option<usize>) -> bool
    ensures { result ≡ is_enabled (outputs under.now) enable }
{
    match enable {
        Some(pipe) => under.pipe(pipe) == 1,
        None => true,
    }
}

/// The address at which a result writes: that in its address pipe, or 0.
pub(crate) fn address_by(under: &Instruction, address: Option<usize>) -> u64
    ensures { result ≡ address_by (outputs under.now) address }
{
    match address {
        Some(pipe) => under.pipe(pipe),
        None => 0,
    }
}
