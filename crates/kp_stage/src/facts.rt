// The facts that the rules look up, in tables with lookup in about constant time.
ghost use Rattle.std.specs.Prelude.{◌≡◌, ◌==◌, [], None, length, OnOk, IfOk};
ghost use Rattle.kp_stage.specs.Facts.{facts_of, largest, largest_in, guessed};
ghost use Rattle.kp_stage.specs.inner.Tables.{look_up, with_value, with_first, less_than, with_less, named, none_named, decl_noted, decls_noted, given, between, stmt_noted, stmts_noted, ended, blocks_noted, facts_in};

use indexmap::IndexMap;
use kp_ast::{Block, Decl, Job, Name, Stmt, StmtKind};
use kp_base::NoMemory;
use std::alloc::Global;
use std::marker::Model;

// A statement: its stage, and its number in the block.
#[derive(Clone, Copy)]
pub(crate) struct Spot {
    pub stage: usize,
    pub index: usize,
}

impl Model for Spot {
    ghost use Rattle.kp_stage.specs.Facts.{At};

    ghost Value = { At };

    ghost view = { λ s. record { stage = s.stage; index = s.index } };

    ghost inverse = { λ a. record { stage = a.stage; index = a.index } };
}

// A map from names to values.
pub(crate) struct Table<V> {
    values: IndexMap<Name, V>,
}

impl<V: Drop> Drop for Table<V> {
    fn drop(self) {
        let Table { values } = self;
        drop(values);
    }
}

impl<V> Model for Table<V> {
    ghost use Rattle.std.specs.Prelude.{List, ℕ};

    ghost Value = { List (List ℕ × V) };

    ghost view = { λ t. t.values.entries };
}

impl<V: Copy> Table<V> {
    fn new(alloc: Global) -> Table<V>
        ensures { result ≡ [] }
    {
        Table {
            values: IndexMap::new(alloc),
        }
    }

    /// Whether no name has a value.
    pub fn is_empty(&self) -> bool
        ensures { result ≡ (length self.now == 0) }
    {
        self.values.is_empty()
    }

    /// The value of a name, if it has one.
    pub fn get(&self, name: &Name) -> Option<V>
        ensures { result ≡ look_up self.now name.now }
    {
        self.values.get(name).copied()
    }

    fn set(&mut self, name: &Name, value: V) -> Result<(), NoMemory>
        ensures { OnOk result (look_up self.new ≡ with_value (look_up self.old) name.now value) }
    {
        self.values.insert(name.clone()?, value)?;
        Ok(())
    }

    // Stores a value unless one is stored already.
    #[tactic(auto, using(crate::proofs::Noted::first_stays))]
    fn set_first(&mut self, name: &Name, value: V) -> Result<(), NoMemory>
        ensures { OnOk result (look_up self.new ≡ with_first (look_up self.old) name.now value) }
    {
        if self.get(name).is_some() {
            return Ok(());
        }
        self.set(name, value)
    }
}

impl Table<u64> {
    // Stores the minimum of the stored value, if any, and this one.
    fn set_less(&mut self, name: &Name, value: u64) -> Result<(), NoMemory>
        ensures { OnOk result (look_up self.new ≡ with_less (look_up self.old) name.now value) }
    {
        let kept = least(self.get(name), value);
        self.set(name, kept)
    }
}

fn least(old: Option<u64>, value: u64) -> u64
    ensures { result ≡ less_than value old }
{
    match old {
        Some(old) => old.min(value),
        None => value,
    }
}

// The facts from the declarations.
pub(crate) struct OfDecls {
    /// The number of the declaration of a hint.
    pub hints: Table<usize>,
    /// The number of the first result of a target.
    pub results: Table<usize>,
    /// The stage of a sample.
    pub samples: Table<u64>,
    /// The write stage of a result.
    pub write_stages: Table<u64>,
    /// The lowest write stage of a target.
    pub writes: Table<u64>,
}

impl Drop for OfDecls {
    fn drop(self) {
        let OfDecls {
            hints,
            results,
            samples,
            write_stages,
            writes,
        } = self;
        drop(hints);
        drop(results);
        drop(samples);
        drop(write_stages);
        drop(writes);
    }
}

impl OfDecls {
    fn of(alloc: Global, decls: &[Decl]) -> Result<OfDecls, NoMemory>
        ensures { IfOk result (λ t. named t ≡ decls_noted none_named 0 decls.now) }
    {
        let mut named = OfDecls {
            hints: Table::new(alloc),
            results: Table::new(alloc),
            samples: Table::new(alloc),
            write_stages: Table::new(alloc),
            writes: Table::new(alloc),
        };
        for (i, decl) in decls.iter().enumerate() {
            named.note(i, decl)?;
        }
        Ok(named)
    }

    fn note(&mut self, i: usize, decl: &Decl) -> Result<(), NoMemory>
        ensures { OnOk result (named self.new ≡ decl_noted (named self.old) i decl.now) }
    {
        match decl {
            Decl::Hint(named, _, _) => self.hints.set_first(&named.name, i),
            Decl::Sample(named, _, stage) => self.samples.set_first(&named.name, stage.value),
            Decl::Target(result) => {
                let stage = result.stage.value;
                self.results.set_first(&result.target.name, i)?;
                self.write_stages.set_first(&result.name.name, stage)?;
                self.writes.set_less(&result.target.name, stage)
            }
            _ => Ok(()),
        }
    }
}

// The facts from the statements.
pub(crate) struct OfStmts {
    /// The first put of a pipe.
    pub puts: Table<Spot>,
    /// The first aim of a hint.
    pub aims: Table<Spot>,
    /// For each stage the first statement that sets a result.
    pub sets: Vec<Table<usize>>,
}

impl Drop for OfStmts {
    fn drop(self) {
        let OfStmts { puts, aims, sets } = self;
        drop(puts);
        drop(aims);
        drop(sets);
    }
}

impl OfStmts {
    fn of(alloc: Global, blocks: &[Block]) -> Result<OfStmts, NoMemory>
        ensures { IfOk result (λ t. given t [] ≡ blocks_noted (between (λ q. None) (λ q. None) []) 0 blocks.now) }
    {
        let mut given = OfStmts {
            puts: Table::new(alloc),
            aims: Table::new(alloc),
            sets: Vec::new(alloc),
        };
        for (k, block) in blocks.iter().enumerate() {
            given.note_block(alloc, k, block.stmts.as_slice())?;
        }
        Ok(given)
    }

    fn note_block(&mut self, alloc: Global, k: usize, stmts: &[Stmt]) -> Result<(), NoMemory>
        ensures { OnOk result (given self.new [] ≡ ended (stmts_noted (given self.old []) k 0 stmts.now)) }
    {
        let mut sets = Table::new(alloc);
        for (j, stmt) in stmts.iter().enumerate() {
            self.note(&mut sets, k, j, &stmt.kind)?;
        }
        self.sets.push(sets)?;
        Ok(())
    }

    // Notes a statement; `sets` are the sets of its stage.
    fn note(
        &mut self,
        sets: &mut Table<usize>,
        k: usize,
        j: usize,
        stmt: &StmtKind,
    ) -> Result<(), NoMemory>
        ensures { OnOk result (given self.new sets.new ≡ stmt_noted (given self.old sets.old) k j stmt.now) }
    {
        match stmt {
            StmtKind::Put(named, _) => {
                self.puts
                    .set_first(&named.name, Spot { stage: k, index: j })
            }
            StmtKind::Aim(named, _) => {
                self.aims
                    .set_first(&named.name, Spot { stage: k, index: j })
            }
            StmtKind::Set(named, _, _) => sets.set_first(&named.name, j),
            _ => Ok(()),
        }
    }
}

pub(crate) struct Facts {
    /// The number of stages.
    pub stages: u64,
    pub named: OfDecls,
    pub given: OfStmts,
    /// The largest write stage of a guessed register, or 0.
    pub top: u64,
}

impl Drop for Facts {
    fn drop(self) {
        let Facts {
            stages: _,
            named,
            given,
            top: _,
        } = self;
        drop(named);
        drop(given);
    }
}

impl Facts {
    pub fn of(alloc: Global, job: &Job) -> Result<Facts, NoMemory>
        ensures { IfOk result (λ f. facts_in f ≡ facts_of job.now) }
    {
        let decls = job.decls.as_slice();
        let blocks = job.blocks.as_slice();
        let named = OfDecls::of(alloc, decls)?;
        let given = OfStmts::of(alloc, blocks)?;
        let top = top_of(&named.writes, blocks);
        Ok(Facts {
            stages: job.stages.value,
            named,
            given,
            top,
        })
    }
}

fn top_of(writes: &Table<u64>, blocks: &[Block]) -> u64
    ensures { result ≡ largest (look_up writes.now) 0 blocks.now }
{
    let mut top = 0;
    for block in blocks {
        top = top_in(writes, top, block.stmts.as_slice());
    }
    top
}

fn top_in(writes: &Table<u64>, from: u64, stmts: &[Stmt]) -> u64
    ensures { result ≡ largest_in (look_up writes.now) from stmts.now }
{
    let mut top = from;
    for stmt in stmts {
        top = top.max(guessed_stage(writes, &stmt.kind));
    }
    top
}

// The write stage of the target of a guess, or 0.
fn guessed_stage(writes: &Table<u64>, stmt: &StmtKind) -> u64
    ensures { result ≡ guessed (look_up writes.now) stmt.now }
{
    match stmt {
        StmtKind::Read(read) => {
            if read.guess.is_none() {
                return 0;
            }
            match writes.get(&read.target.name) {
                Some(w) => w,
                None => 0,
            }
        }
        _ => 0,
    }
}
