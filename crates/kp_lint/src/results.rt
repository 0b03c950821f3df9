// Warnings of results: one that isn't set, a set that never takes place, and an address or an enable that is put late.
ghost use Rattle.std.specs.Prelude.{◌≡◌, IfOk};
ghost use Rattle.std.specs.List.{list_any};
ghost use Rattle.kp_ast.specs.declared.tree.{Stmt.Stmt, ExprKind.TheViews.out-ExprKind};
ghost use Rattle.kp_lint.specs.Lints.{has_both, has_condition, is_among, is_called, is_condition, is_covered, is_read, line_at, negates, of_result, of_set, of_sets, put_after, reads, waits_for, warn_if};
ghost use Rattle.kp_lint.specs.inner.Noted.{facts_in};

use crate::alike::is_alike;
use crate::facts::Facts;
use crate::lint::{Found, Lint, Spot};
use crate::ready::ready;
use crate::sets::{PlacedSet, first_sure, in_vain, sets_of};
use kp_ast::{Block, Decl, Expr, ExprKind, Name, Named, ResultDecl, Stmt, StmtKind};
use kp_base::{NoMemory, Place};
use std::alloc::Global;

/// The warning at this place, if the test holds.
pub(crate) fn warn_if(test: bool, fault: Lint, place: Place) -> Option<Found>
    ensures { result ≡ warn_if test fault place }
{
    if test {
        Some(Found { place, fault })
    } else {
        None
    }
}

/// W1: the result that this declaration declares is never set, or some instruction may not set it.
pub(crate) fn of_sets(
    facts: &Facts<'_>,
    number: usize,
    output: &ResultDecl,
    sets: &[PlacedSet],
) -> Option<Found>
    ensures { result ≡ of_sets (facts_in facts.now) facts.now.job.now.blocks number output.now sets.now }
{
    let name = &output.name;
    if sets.is_empty() {
        return warn_if(true, Lint::NeverSet { result: number }, name.at);
    }
    let lines = [
        line_at(sets, 0),
        line_at(sets, 1),
        line_at(sets, 2),
        line_at(sets, 3),
    ];
    let unsure = output.enable.is_none()
        && first_sure(sets).is_none()
        && !is_covered(facts, facts.job.blocks.as_slice(), &name.name);
    let lint = Lint::MaybeUnset {
        result: number,
        lines,
    };
    warn_if(unsure, lint, name.at)
}

fn line_at(sets: &[PlacedSet], i: usize) -> Option<u32>
    ensures { result ≡ line_at sets.now i }
{
    match sets.get(i) {
        Some(set) => Some(set.place.line),
        None => None,
    }
}

// Whether two of the sets of a result have complementary conditions over pipes, so that one of them takes place.
fn is_covered(facts: &Facts<'_>, blocks: &[Block], name: &Name) -> bool
    ensures { result ≡ is_covered (facts_in facts.now) name.now blocks.now }
{
    blocks
        .iter()
        .any(|block| has_both(facts, blocks, name, block))
}

fn has_both(facts: &Facts<'_>, blocks: &[Block], name: &Name, block: &Block) -> bool
    ensures { result ≡ list_any (λ (s : Stmt). has_both (facts_in facts.now) name.now blocks.now s.kind) block.now.stmts }
{
    block.stmts.as_slice().iter().any(|stmt| match &stmt.kind {
        StmtKind::Set(named, _, Some(when)) => {
            named.name == *name && negates(facts, blocks, name, &when.kind)
        }
        _ => false,
    })
}

fn negates(facts: &Facts<'_>, blocks: &[Block], name: &Name, when: &ExprKind) -> bool
    ensures { result ≡ negates (facts_in facts.now) name.now blocks.now (out-ExprKind when.now) }
{
    match when {
        ExprKind::Not(p) => {
            ready(&facts.pipes, p.get()).is_some() && has_condition(blocks, name, p.get())
        }
        _ => false,
    }
}

// Whether a set of the result has a condition that is written like this one.
fn has_condition(blocks: &[Block], name: &Name, p: &Expr) -> bool
    ensures { result ≡ is_condition name.now blocks.now p.now }
{
    blocks.iter().any(|block| has_condition_in(block, name, p))
}

fn has_condition_in(block: &Block, name: &Name, p: &Expr) -> bool
    ensures { result ≡ list_any (λ (s : Stmt). has_condition name.now p.now s.kind) block.now.stmts }
{
    block.stmts.as_slice().iter().any(|stmt| match &stmt.kind {
        StmtKind::Set(named, _, Some(when)) => named.name == *name && is_alike(when, p),
        _ => false,
    })
}

/// W3 and W7: a warning of a statement and the result of this declaration.
pub(crate) fn of_result(
    alloc: Global,
    facts: &Facts<'_>,
    spot: Spot,
    stmt: &Stmt,
    number: usize,
    decl: &Decl,
) -> Result<Option<Found>, NoMemory>
    ensures { IfOk result (λ r. r ≡ of_result (facts_in facts.now) facts.now.job.now.blocks spot.stage spot.index stmt.now.at stmt.now.kind number decl.now) }
{
    let blocks = facts.job.blocks.as_slice();
    match (&stmt.kind, decl) {
        (StmtKind::Set(named, _, _), Decl::Target(output)) => {
            if named.name != output.name.name {
                return Ok(None);
            }
            let sets = sets_of(alloc, blocks, &output.name.name)?;
            Ok(of_set(spot, number, stmt.at, sets.as_slice()))
        }
        (StmtKind::Put(named, e), Decl::Target(output)) => {
            if !waits_for(blocks, &named.name, output) {
                return Ok(None);
            }
            Ok(of_put(spot, number, named.at, ready(&facts.pipes, e)))
        }
        _ => Ok(None),
    }
}

// A set that never takes place, since one without a condition is before it.
fn of_set(spot: Spot, number: usize, place: Place, sets: &[PlacedSet]) -> Option<Found>
    ensures { result ≡ of_set spot.stage spot.index number place sets.now }
{
    let first = first_sure(sets)?;
    let lint = Lint::SetInVain {
        result: number,
        stage: first.stage,
        line: first.place.line,
    };
    warn_if(is_among(spot, in_vain(sets)), lint, place)
}

fn is_among(spot: Spot, sets: &[PlacedSet]) -> bool
    ensures { result ≡ is_among spot.stage spot.index sets.now }
{
    sets.iter()
        .any(|set| set.stage == spot.stage && set.index == spot.index)
}

// Whether the pipe is the address or the enable of the result, and instructions read its target.
fn waits_for(blocks: &[Block], pipe: &Name, output: &ResultDecl) -> bool
    ensures { result ≡ waits_for blocks.now pipe.now output.now }
{
    let serves = is_called(pipe, &output.address) || is_called(pipe, &output.enable);
    serves && is_read(blocks, &output.target.name)
}

fn is_read(blocks: &[Block], target: &Name) -> bool
    ensures { result ≡ is_read target.now blocks.now }
{
    blocks.iter().any(|block| is_read_in(block, target))
}

fn is_read_in(block: &Block, target: &Name) -> bool
    ensures { result ≡ list_any (reads target.now) block.now.stmts }
{
    block.stmts.as_slice().iter().any(|stmt| match &stmt.kind {
        StmtKind::Read(read) => *target == read.target.name,
        _ => false,
    })
}

/// Whether an optional pipe has this name.
pub(crate) fn is_called(name: &Name, pipe: &Option<Named>) -> bool
    ensures { result ≡ is_called name.now pipe.now }
{
    match pipe {
        Some(named) => *name == named.name,
        None => false,
    }
}

// A pipe that is put in a later stage than its value can be computed.
fn of_put(spot: Spot, number: usize, place: Place, ready: Option<usize>) -> Option<Found>
    ensures { result ≡ put_after number spot.stage ready place }
{
    let earliest = ready?;
    let lint = Lint::PutLate {
        result: number,
        earliest,
    };
    warn_if(earliest < spot.stage, lint, place)
}
