// The warnings of a job, in the order of the text.
ghost use Rattle.std.specs.Prelude.{◌≡◌, take, IfOk, OnOk};
ghost use Rattle.kp_base.specs.Findings.{findings, with_answers};
ghost use Rattle.kp_lint.specs.Lints.{of_block, of_blocks, of_decls, of_stmt, warned_in};
ghost use Rattle.kp_lint.specs.inner.Noted.{facts_in, has};

use crate::facts::Facts;
use crate::lint::{Found, Lint, Spot};
use crate::names::{of_decl, of_local, of_port};
use crate::results::of_result;
use crate::table::Table;
use crate::used::used_in_block;
use kp_ast::{Block, Job, Stmt};
use kp_base::{Finding, Findings, NoMemory};
use std::alloc::Global;

/// The warnings for a job that violates no rule, up to `most`, in the order of the text. The only error is out of memory.
pub fn lints(alloc: Global, job: &Job, most: usize) -> Result<Findings<Finding<Lint>>, NoMemory>
    ensures { IfOk result (λ f. f.found ≡ take most (findings (warned_in job.now))) }
{
    let facts = Facts::of(alloc, job)?;
    let mut notes = Findings::new(alloc, most);
    in_decls(alloc, &mut notes, &facts)?;
    in_blocks(alloc, &mut notes, &facts)?;
    Ok(notes)
}

fn in_decls(alloc: Global, notes: &mut Findings<Found>, facts: &Facts<'_>) -> Result<(), NoMemory>
    ensures { OnOk result (notes.new ≡ with_answers notes.old (of_decls (facts_in facts.now) facts.now.job.now 0 facts.now.job.now.decls)) }
{
    for (number, decl) in facts.job.decls.as_slice().iter().enumerate() {
        notes.note(of_decl(alloc, facts, number, decl)?)?;
        notes.note(of_port(decl))?;
    }
    Ok(())
}

fn in_blocks(alloc: Global, notes: &mut Findings<Found>, facts: &Facts<'_>) -> Result<(), NoMemory>
    ensures { OnOk result (notes.new ≡ with_answers notes.old (of_blocks (facts_in facts.now) facts.now.job.now 0 facts.now.job.now.blocks)) }
{
    for (stage, block) in facts.job.blocks.as_slice().iter().enumerate() {
        in_block(alloc, notes, facts, stage, block)?;
    }
    Ok(())
}

fn in_block(
    alloc: Global,
    notes: &mut Findings<Found>,
    facts: &Facts<'_>,
    stage: usize,
    block: &Block,
) -> Result<(), NoMemory>
    ensures { OnOk result (notes.new ≡ with_answers notes.old (of_block (facts_in facts.now) facts.now.job.now stage block.now)) }
{
    let used = used_in_block(alloc, block)?;
    for (index, stmt) in block.stmts.as_slice().iter().enumerate() {
        in_stmt(alloc, notes, facts, &used, Spot { stage, index }, stmt)?;
    }
    Ok(())
}

// Where enough is found, nothing more is asked.
#[tactic(auto, using(kp_base::proofs::Collecting::full_stays))]
fn in_stmt(
    alloc: Global,
    notes: &mut Findings<Found>,
    facts: &Facts<'_>,
    used: &Table<bool>,
    spot: Spot,
    stmt: &Stmt,
) -> Result<(), NoMemory>
    ensures { OnOk result (notes.new ≡ with_answers notes.old (of_stmt (facts_in facts.now) facts.now.job.now (has used.now.entries) spot.stage spot.index stmt.now)) }
{
    if notes.is_full() {
        return Ok(());
    }
    notes.note(of_local(used, spot.stage, &stmt.kind))?;
    for (number, decl) in facts.job.decls.as_slice().iter().enumerate() {
        notes.note(of_result(alloc, facts, spot, stmt, number, decl)?)?;
    }
    Ok(())
}
