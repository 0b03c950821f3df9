//! The tables of a job.
ghost use Rattle.std.specs.Prelude.{◌≡◌, ◌<◌, ◌++◌, None, IfOk, OnOk, length, get_or};
ghost use Rattle.kp_machine.specs.Slots.{targets_of};
ghost use Rattle.kp_sites.specs.Sites.{no_site, result_number, sited, sites_in, sites_from, writer_at, writers_to};
ghost use Rattle.kp_sites.specs.inner.Ported.{writer_with};

use kp_ast::{Block, Decl, Stmt, StmtKind};
use kp_base::NoMemory;
use kp_design::{Layout, Port, target_number};
use kp_stage::Design;
use std::alloc::Global;
use std::marker::Model;

/// A read: its stage, the number of its target, and whether it is guessed.
#[derive(Clone, Copy)]
pub struct Site {
    pub stage: usize,
    pub target: usize,
    pub guessed: bool,
}

/// How a target is written: the number of its result, the write stage, and the first stage in which it is known whether and where the
/// instruction writes.
#[derive(Clone, Copy)]
pub struct Writer {
    pub result: usize,
    pub write: u32,
    pub known: u32,
}

/// The number of stages, the reads in text order, and how each target is written.
pub struct Sites {
    stages: usize,
    reads: Vec<Site>,
    writers: Vec<Option<Writer>>,
}

impl Drop for Sites {
    fn drop(self) {
        let Sites {
            stages: _,
            reads,
            writers,
        } = self;
        drop(reads);
        drop(writers);
    }
}

impl Model for Sites {
    ghost use Rattle.kp_sites.specs.Sites.{Sited};

    ghost Value = { Sited };

    ghost view = { λ s. record { stages = s.stages; reads = s.reads.items; writers = s.writers.items } };
}

impl Sites {
    /// The tables of a design. The only error is out of memory.
    pub fn of(alloc: Global, d: &Design) -> Result<Sites, NoMemory>
        ensures { IfOk result (λ s. s ≡ sited d.now.job) }
    {
        let job = d.job();
        let reads = sites_of(alloc, job.decls.as_slice(), job.blocks.as_slice())?;
        let writers = writers_of(alloc, d)?;
        Ok(Sites {
            stages: job.stages.value as usize,
            reads,
            writers,
        })
    }

    /// The number of stages.
    pub fn stages(&self) -> usize
        ensures { result ≡ self.now.stages }
    {
        self.stages
    }

    /// The reads in text order.
    pub fn reads(&self) -> &[Site]
        ensures { result.now ≡ self.now.reads }
    {
        self.reads.as_slice()
    }

    /// A read, by its number in text order. One that doesn't exist isn't guessed.
    pub fn read(&self, number: usize) -> Site
        ensures { result ≡ get_or self.now.reads number no_site }
    {
        if number < self.reads.len() {
            self.reads[number]
        } else {
            NO_SITE
        }
    }

    /// The number of targets.
    pub fn targets(&self) -> usize
        ensures { result ≡ length self.now.writers }
    {
        self.writers.len()
    }

    /// How a target is written, if it is.
    pub fn writer(&self, target: usize) -> Option<Writer>
        ensures { result ≡ get_or self.now.writers target None }
    {
        if target < self.writers.len() {
            self.writers[target]
        } else {
            None
        }
    }
}

const NO_SITE: Site = Site {
    stage: 0,
    target: 0,
    guessed: false,
};

fn sites_of(alloc: Global, decls: &[Decl], blocks: &[Block]) -> Result<Vec<Site>, NoMemory>
    ensures { IfOk result (λ sites. sites.items ≡ sites_from (targets_of decls.now) 0 blocks.now) }
{
    let mut sites = Vec::new(alloc);
    for (k, block) in blocks.iter().enumerate() {
        add_sites(&mut sites, decls, k, block.stmts.as_slice())?;
    }
    Ok(sites)
}

fn add_sites(
    sites: &mut Vec<Site>,
    decls: &[Decl],
    k: usize,
    stmts: &[Stmt],
) -> Result<(), NoMemory>
    ensures { OnOk result (sites.new.items ≡ sites.old.items ++ sites_in (targets_of decls.now) k stmts.now) }
{
    for stmt in stmts {
        if let StmtKind::Read(read) = &stmt.kind {
            sites.push(Site {
                stage: k,
                target: target_number(decls, &read.target.name),
                guessed: read.guess.is_some(),
            })?;
        }
    }
    Ok(())
}

// How each target is written.
fn writers_of(alloc: Global, d: &Design) -> Result<Vec<Option<Writer>>, NoMemory>
    ensures { IfOk result (λ ws. ws.items ≡ writers_to d.now.job (length (targets_of d.now.job.decls))) }
{
    let layout = Layout::of(alloc, d)?;
    writers_by(alloc, &layout)
}

fn writers_by(alloc: Global, layout: &Layout) -> Result<Vec<Option<Writer>>, NoMemory>
    ensures { IfOk result (λ ws. ws.items ≡ writers_to layout.now (length (targets_of layout.now.decls))) }
{
    let mut writers = Vec::new(alloc);
    for t in 0..layout.target_count() {
        writers.push(writer_of(layout, t))?;
    }
    Ok(writers)
}

fn writer_of(layout: &Layout, t: u32) -> Option<Writer>
    requires { t < length (targets_of layout.now.decls) }
    ensures { result ≡ writer_at layout.now t }
{
    writer_with(
        layout.port(t),
        result_to(layout.job().decls.as_slice(), t as usize),
    )
}

// How a target is written, from its port and the number of its result.
fn writer_with(port: Option<Port>, number: Option<usize>) -> Option<Writer>
    ensures { result ≡ writer_with port number }
{
    let port = port?;
    let result = number?;
    Some(Writer {
        result,
        write: port.write,
        known: port.known,
    })
}

// The number of the first result of a target.
fn result_to(decls: &[Decl], t: usize) -> Option<usize>
    ensures { result ≡ result_number (targets_of decls.now) decls.now 0 t }
{
    let mut number = 0;
    for decl in decls {
        if let Decl::Target(r) = decl {
            if target_number(decls, &r.target.name) == t {
                return Some(number);
            }
            number += 1;
        }
    }
    None
}
