// The sets of a result.
ghost use Rattle.std.specs.Prelude.{◌≡◌, ◌++◌, IfOk, OnOk};
ghost use Rattle.kp_lint.specs.Sets.{first_sure as first_sure_of, in_vain as in_vain_of, set_here, sets_from, sets_in};

use kp_ast::{Block, Name, Stmt, StmtKind};
use kp_base::{NoMemory, Place};
use std::alloc::Global;

/// A set of a result: its stage, its number in the block, its place, and whether it has no condition.
#[derive(Clone, Copy)]
pub(crate) struct PlacedSet {
    pub stage: usize,
    pub index: usize,
    pub place: Place,
    pub sure: bool,
}

/// The sets of a result in text order. The only error is out of memory.
pub(crate) fn sets_of(
    alloc: Global,
    blocks: &[Block],
    name: &Name,
) -> Result<Vec<PlacedSet>, NoMemory>
    ensures { IfOk result (λ sets. sets.items ≡ sets_from name.now 0 blocks.now) }
{
    let mut sets = Vec::new(alloc);
    for (stage, block) in blocks.iter().enumerate() {
        add_sets(&mut sets, stage, block.stmts.as_slice(), name)?;
    }
    Ok(sets)
}

fn add_sets(
    sets: &mut Vec<PlacedSet>,
    stage: usize,
    stmts: &[Stmt],
    name: &Name,
) -> Result<(), NoMemory>
    ensures { OnOk result (sets.new.items ≡ sets.old.items ++ sets_in name.now stage 0 stmts.now) }
{
    for (index, stmt) in stmts.iter().enumerate() {
        add_set(sets, stage, index, stmt, name)?;
    }
    Ok(())
}

fn add_set(
    sets: &mut Vec<PlacedSet>,
    stage: usize,
    index: usize,
    stmt: &Stmt,
    name: &Name,
) -> Result<(), NoMemory>
    ensures { OnOk result (sets.new.items ≡ sets.old.items ++ set_here name.now stage index stmt.now.at stmt.now.kind) }
{
    match &stmt.kind {
        StmtKind::Set(named, _, when) if named.name == *name => {
            let (place, sure) = (stmt.at, when.is_none());
            sets.push(PlacedSet {
                stage,
                index,
                place,
                sure,
            })?;
            Ok(())
        }
        _ => Ok(()),
    }
}

/// The first set without a condition.
pub(crate) fn first_sure(sets: &[PlacedSet]) -> Option<PlacedSet>
    ensures { result ≡ first_sure_of sets.now }
{
    for set in sets {
        if set.sure {
            return Some(*set);
        }
    }
    None
}

/// The sets after it, which never take place.
pub(crate) fn in_vain(sets: &[PlacedSet]) -> &[PlacedSet]
    ensures { result.now ≡ in_vain_of sets.now }
{
    for (i, set) in sets.iter().enumerate() {
        if set.sure {
            return &sets[i + 1..];
        }
    }
    &[]
}
