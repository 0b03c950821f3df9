// The table of a design.
ghost use Rattle.std.specs.Prelude.{◌≡◌, ◌≤◌, IfOk, is_some, length};
ghost use Rattle.kp_machine.specs.Slots.{targets_of};
ghost use Rattle.kp_machine.specs.Machine.{result_for};
ghost use Rattle.kp_design.specs.Fits.{port_at};
ghost use Rattle.kp_paths.specs.Table.{cell_at, sets_of as sets_of_job, target_read};

use crate::cell::{Cell, cell_of};
use crate::sets::{Placed, is_set, is_surely_set, sets_of};
use kp_ast::{Job, ReadStmt};
use kp_base::NoMemory;
use kp_design::{Layout, Port, target_number};
use kp_stage::Design;
use std::alloc::Global;
use std::marker::Model;

/// The paths of a design, seen as its job: how its targets are written, and where their results are set.
#[derive(Drop)]
pub struct Paths<'a> {
    layout: Layout<'a>,
    sets: Vec<Placed>,
}

impl<'a> Model for Paths<'a> {
    ghost use Rattle.std.specs.Prelude.{◌≡◌};
    ghost use Rattle.std.specs.Coded.{codes};
    ghost use Rattle.kp_ast.specs.contracts.tree.ExprKind as e;
    ghost use Rattle.kp_ast.specs.declared.tree.Job.{Job};
    ghost use Rattle.kp_paths.specs.Table.{sets_of};

    ghost Value = { Job };

    ghost coded = { Prim.hlevel (codes, e.the_row.coded) };

    ghost view = { λ p. p.layout };

    ghost invariant = { λ p. p.sets.items ≡ sets_of p.layout };
}

impl<'a> Paths<'a> {
    /// The paths of a design. The only error is out of memory.
    pub fn of(alloc: Global, design: &'a Design) -> Result<Paths<'a>, NoMemory>
        ensures { IfOk result (λ paths. paths ≡ design.now.job) }
    {
        let job = design.job();
        let sets = sets_of(alloc, job.decls.as_slice(), job.blocks.as_slice())?;
        let layout = Layout::of(alloc, design)?;
        Ok(Paths { layout, sets })
    }

    /// The job of the design.
    pub fn job(&self) -> &Job
        ensures { result.now ≡ self.now }
    {
        self.layout.job()
    }

    /// The number of stages.
    pub fn stages(&self) -> usize
        ensures { result ≡ self.now.stages.value }
    {
        self.layout.stages() as usize
    }

    /// What stage j has for a read in stage k.
    pub fn cell(&self, read: &ReadStmt, k: usize, j: usize) -> Cell
        ensures { result ≡ cell_at self.now read.now k j }
    {
        let target = self.target(read);
        cell_of(
            self.port(target),
            read.guess.is_some(),
            k,
            j,
            is_set(self.sets(), target, j),
            is_surely_set(self.sets(), target, j),
        )
    }

    /// Whether the target of a read is written.
    #[tactic(auto, using(crate::proofs::Ported::written_same))]
    pub fn is_written(&self, read: &ReadStmt) -> bool
        ensures { result ≡ is_some (result_for self.now (target_read self.now read.now)) }
    {
        self.port(self.target(read)).is_some()
    }

    // The sets in text order.
    fn sets(&self) -> &[Placed]
        ensures { result.now ≡ sets_of_job self.now }
    {
        self.sets.as_slice()
    }

    // The number of the target of a read.
    #[tactic(auto, using(crate::proofs::Ported::target_same))]
    fn target(&self, read: &ReadStmt) -> usize
        ensures { result ≡ target_read self.now read.now }
    {
        target_number(self.job().decls.as_slice(), &read.target.name)
    }

    // How a target is written, if it is.
    fn port(&self, target: usize) -> Option<Port>
        ensures { result ≡ port_at self.now target }
    {
        if target < self.layout.target_count() as usize {
            self.layout.port(target as u32)
        } else {
            self.no_port(target)
        }
    }

    // A target that isn't declared isn't written.
    #[tactic(auto, using(crate::proofs::Ported::no_port_same))]
    fn no_port(&self, target: usize) -> Option<Port>
        requires { length (targets_of self.now.decls) ≤ target }
        ensures { result ≡ port_at self.now target }
    {
        let _sound = self.layout.design().job();
        None
    }
}
