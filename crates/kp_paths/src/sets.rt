// The sets of a job.
ghost use Rattle.std.specs.Prelude.{◌≡◌, ◌++◌, IfOk, OnOk};
ghost use Rattle.std.specs.List.{list_any};
ghost use Rattle.kp_paths.specs.Table.{is_set_by, is_surely_set_by, set_in, sets_from, sets_in};
ghost use Rattle.kp_paths.specs.inner.Named.{number_named, placed_at};

use kp_ast::{Block, Decl, Name, Stmt, StmtKind};
use kp_base::NoMemory;
use kp_design::target_number;
use std::alloc::Global;

/// A set of a result: its stage, the number of the result's target, and whether it has no condition.
#[derive(Clone, Copy)]
pub struct Placed {
    pub stage: usize,
    pub target: usize,
    pub sure: bool,
}

/// The sets of these blocks. The only error is out of memory.
pub(crate) fn sets_of(
    alloc: Global,
    decls: &[Decl],
    blocks: &[Block],
) -> Result<Vec<Placed>, NoMemory>
    ensures { IfOk result (λ sets. sets.items ≡ sets_from decls.now 0 blocks.now) }
{
    let mut sets = Vec::new(alloc);
    for (k, block) in blocks.iter().enumerate() {
        add_sets(&mut sets, decls, k, block.stmts.as_slice())?;
    }
    Ok(sets)
}

fn add_sets(
    sets: &mut Vec<Placed>,
    decls: &[Decl],
    k: usize,
    stmts: &[Stmt],
) -> Result<(), NoMemory>
    ensures { OnOk result (sets.new.items ≡ sets.old.items ++ sets_in decls.now k stmts.now) }
{
    for stmt in stmts {
        add_set(sets, decls, k, &stmt.kind)?;
    }
    Ok(())
}

#[tactic(auto, using(crate::proofs::Named::placed_same))]
fn add_set(
    sets: &mut Vec<Placed>,
    decls: &[Decl],
    k: usize,
    stmt: &StmtKind,
) -> Result<(), NoMemory>
    ensures { OnOk result (sets.new.items ≡ sets.old.items ++ set_in decls.now k stmt.now) }
{
    match stmt {
        StmtKind::Set(named, _, when) => {
            add_placed(sets, k, when.is_none(), target_set(decls, &named.name))
        }
        _ => Ok(()),
    }
}

fn add_placed(
    sets: &mut Vec<Placed>,
    stage: usize,
    sure: bool,
    target: Option<usize>,
) -> Result<(), NoMemory>
    ensures { OnOk result (sets.new.items ≡ sets.old.items ++ placed_at stage sure target) }
{
    match target {
        Some(target) => {
            sets.push(Placed {
                stage,
                target,
                sure,
            })?;
            Ok(())
        }
        None => Ok(()),
    }
}

// The number of the target of the first result of a name.
fn target_set(decls: &[Decl], name: &Name) -> Option<usize>
    ensures { result ≡ number_named decls.now decls.now name.now }
{
    for decl in decls {
        if let Decl::Target(result) = decl {
            if *name == result.name.name {
                return Some(target_number(decls, &result.target.name));
            }
        }
    }
    None
}

/// Whether a stage up to j sets the result of a target.
pub(crate) fn is_set(sets: &[Placed], target: usize, j: usize) -> bool
    ensures { result ≡ list_any (is_set_by target j) sets.now }
{
    for set in sets {
        if set.target == target && set.stage <= j {
            return true;
        }
    }
    false
}

/// The same without a condition.
pub(crate) fn is_surely_set(sets: &[Placed], target: usize, j: usize) -> bool
    ensures { result ≡ list_any (is_surely_set_by target j) sets.now }
{
    for set in sets {
        if set.sure && set.target == target && set.stage <= j {
            return true;
        }
    }
    false
}
