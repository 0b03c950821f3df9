// How many declarations and reads of each kind a machine has.
ghost use Rattle.std.specs.Prelude.{◌≡◌, true, IfOk};
ghost use Rattle.kp_width.specs.Declarations.{name_of};
ghost use Rattle.kp_stage.specs.Counts.{is_within, nothing_counted, with_decl, with_stmt, counted_of, counted_at, too_many, place_of_read, decls_counted, stmts_counted, blocks_counted, counts_of};

use crate::fault::{Counted, Found, StageFault};
use kp_ast::{Block, Decl, Job, Stmt, StmtKind};
use kp_base::Place;

/// The numbers of a machine: the number of stages, of declarations of each kind, of reads, and of guessed reads, its
/// expanded size, and the number of samples.
#[derive(Clone, Copy)]
pub struct Summary {
    pub stages: u32,
    pub regs: u32,
    pub files: u32,
    pub pipes: u32,
    pub results: u32,
    pub hints: u32,
    pub reads: u32,
    pub guesses: u32,
    pub size: u32,
    pub samples: u32,
}

#[derive(Clone, Copy)]
pub(crate) struct Counts {
    pub regs: u32,
    pub files: u32,
    pub pipes: u32,
    pub results: u32,
    pub hints: u32,
    pub functions: u32,
    pub reads: u32,
    pub guesses: u32,
    pub samples: u32,
}

impl Counts {
    fn new() -> Counts
        ensures { result ≡ nothing_counted }
    {
        Counts {
            regs: 0,
            files: 0,
            pipes: 0,
            results: 0,
            hints: 0,
            functions: 0,
            reads: 0,
            guesses: 0,
            samples: 0,
        }
    }

    fn is_within(&self) -> bool
        ensures { result ≡ is_within self.now }
    {
        self.regs <= 64
            && self.files <= 16
            && self.pipes <= 128
            && self.results <= 64
            && self.hints <= 16
            && self.functions <= 64
            && self.reads <= 256
            && self.guesses <= 8
            && self.samples <= 16
    }

    fn with_decl(self, decl: &Decl) -> Counts
        requires { is_within self ≡ true }
        ensures { result ≡ with_decl self decl.now }
    {
        let mut counts = self;
        match decl {
            Decl::Reg(_, _, _) => counts.regs += 1,
            Decl::File(_, _, _) => counts.files += 1,
            Decl::Pipe(_, _) => counts.pipes += 1,
            Decl::Target(_) => counts.results += 1,
            Decl::Hint(_, _, _) => counts.hints += 1,
            Decl::Func(_) => counts.functions += 1,
            Decl::Sample(_, _, _) => counts.samples += 1,
        }
        counts
    }

    fn with_stmt(self, stmt: &Stmt) -> Counts
        requires { is_within self ≡ true }
        ensures { result ≡ with_stmt self stmt.now }
    {
        let mut counts = self;
        if let StmtKind::Read(read) = &stmt.kind {
            counts.reads += 1;
            if read.guess.is_some() {
                counts.guesses += 1;
            }
        }
        counts
    }

    // Which of the two a read is too many of.
    fn counted(&self) -> Counted
        ensures { result ≡ counted_at self.now }
    {
        if self.reads <= 256 {
            Counted::Guesses
        } else {
            Counted::Reads
        }
    }
}

// The counts of a job, or a violation of E29.
#[tactic(auto, unfolding(crate::specs::Counts::counts_of))]
pub(crate) fn count(job: &Job) -> Result<Counts, Found>
    ensures { result ≡ (counts_of job.now).found }
{
    let counts = add_decls(job.decls.as_slice())?;
    add_blocks(counts, job.blocks.as_slice())
}

fn add_decls(decls: &[Decl]) -> Result<Counts, Found>
    ensures counts { result ≡ (decls_counted nothing_counted decls.now).found }
    ensures within { IfOk result (λ counts. is_within counts ≡ true) }
{
    let mut counts = Counts::new();
    for decl in decls {
        let more = counts.with_decl(decl);
        if !more.is_within() {
            return Err(too_many(counted_of(decl), decl_place(decl)));
        }
        counts = more;
    }
    Ok(counts)
}

fn add_blocks(from: Counts, blocks: &[Block]) -> Result<Counts, Found>
    requires { is_within from ≡ true }
    ensures { result ≡ (blocks_counted from blocks.now).found }
{
    let mut counts = from;
    for block in blocks {
        counts = add_stmts(counts, block.stmts.as_slice())?;
    }
    Ok(counts)
}

fn add_stmts(from: Counts, stmts: &[Stmt]) -> Result<Counts, Found>
    requires { is_within from ≡ true }
    ensures counts { result ≡ (stmts_counted from stmts.now).found }
    ensures within { IfOk result (λ counts. is_within counts ≡ true) }
{
    let mut counts = from;
    for stmt in stmts {
        let more = counts.with_stmt(stmt);
        if !more.is_within() {
            return Err(too_many(more.counted(), read_place(stmt)));
        }
        counts = more;
    }
    Ok(counts)
}

fn too_many(counted: Counted, place: Place) -> Found
    ensures { result ≡ too_many counted place }
{
    let fault = StageFault::TooMany(counted);
    Found { place, fault }
}

// What the declaration is one more of.
fn counted_of(decl: &Decl) -> Counted
    ensures { result ≡ counted_of decl.now }
{
    match decl {
        Decl::Reg(_, _, _) => Counted::Registers,
        Decl::File(_, _, _) => Counted::Files,
        Decl::Pipe(_, _) => Counted::Pipes,
        Decl::Target(_) => Counted::Results,
        Decl::Hint(_, _, _) => Counted::Hints,
        Decl::Func(_) => Counted::Functions,
        Decl::Sample(_, _, _) => Counted::Samples,
    }
}

fn decl_place(decl: &Decl) -> Place
    ensures { result ≡ (name_of decl.now).at }
{
    match decl {
        Decl::Reg(named, _, _)
        | Decl::File(named, _, _)
        | Decl::Pipe(named, _)
        | Decl::Hint(named, _, _)
        | Decl::Sample(named, _, _) => named.at,
        Decl::Target(result) => result.name.at,
        Decl::Func(func) => func.name.at,
    }
}

fn read_place(stmt: &Stmt) -> Place
    ensures { result ≡ place_of_read stmt.now stmt.now.kind }
{
    match &stmt.kind {
        StmtKind::Read(read) => read.name.at,
        _ => stmt.at,
    }
}
