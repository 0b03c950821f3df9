// The rules E15 to E25, E34 and E35.
ghost use Rattle.std.specs.Prelude.{◌≡◌, ◌∷◌, [], map, nat_lt, nat_le, ◌+◌, ◌==◌, not, OnOk};
ghost use Rattle.kp_base.specs.{First.first, Findings.with_answers};
ghost use Rattle.kp_stage.specs.Findings.{broken_unless, broken_if};
ghost use Rattle.kp_stage.specs.Rules.{ask_head, head_fault, ask_decl, ask_block, block_fault, ask_stmt, ask_decls, ask_stmts, ask_in_block, ask_blocks, ask_values, ask_guesses, ask_pipe, may_guess, guess_fault, holds_of, is_at, or_here, asked_at, asked_by_rules, asked_by};
ghost use Rattle.kp_stage.specs.declared.fault.StageFault.TheVariants as faults;
ghost use Rattle.kp_stage.specs.inner.Tables.{facts_in};
ghost use Rattle.kp_stage.specs.inner.Asked.{asks_stmts};

use crate::facts::{Facts, Spot};
use crate::fault::{Found, StageFault};
use crate::uses::{in_guesses, in_values};
use kp_ast::{Block, Decl, Job, Name, Named, Num, ReadStmt, Stmt, StmtKind};
use kp_base::{Findings, NoMemory, Place};

/// A rule of stages, by its number. The variants are in the order in which the rules are checked.
#[derive(Clone, Copy)]
pub enum Rule {
    E15,
    E16,
    E17,
    E18,
    E19,
    E20,
    E21,
    E22,
    E23,
    E24,
    E25,
    E34,
    E35,
}

const RULES: [Rule; 13] = [
    Rule::E15,
    Rule::E16,
    Rule::E17,
    Rule::E18,
    Rule::E19,
    Rule::E20,
    Rule::E21,
    Rule::E22,
    Rule::E23,
    Rule::E24,
    Rule::E25,
    Rule::E34,
    Rule::E35,
];

// Notes the violations of the rules: by rules, and each in text order.
#[tactic(auto, unfolding(crate::specs::Rules::asked_by))]
pub(crate) fn note_job(
    notes: &mut Findings<Found>,
    facts: &Facts,
    job: &Job,
) -> Result<(), NoMemory>
    ensures { OnOk result (notes.new ≡ with_answers notes.old (asked_by (facts_in facts.now) job.now)) }
{
    in_rules(notes, facts, job, &RULES)
}

fn in_rules(
    notes: &mut Findings<Found>,
    facts: &Facts,
    job: &Job,
    rules: &[Rule],
) -> Result<(), NoMemory>
    ensures { OnOk result (notes.new ≡ with_answers notes.old (asked_by_rules (facts_in facts.now) job.now rules.now)) }
{
    for rule in rules {
        in_job(notes, facts, *rule, job)?;
    }
    Ok(())
}

// Where enough is found, nothing more is asked.
#[tactic(auto, using(kp_base::proofs::Collecting::append, kp_base::proofs::Collecting::full_stays))]
fn in_job(notes: &mut Findings<Found>, facts: &Facts, rule: Rule, job: &Job) -> Result<(), NoMemory>
    ensures { OnOk result (notes.new ≡ with_answers notes.old (asked_at (facts_in facts.now) job.now rule)) }
{
    if notes.is_full() {
        return Ok(());
    }
    notes.note(of_head(rule, job))?;
    in_decls(notes, facts, rule, job.decls.as_slice())?;
    in_blocks(notes, facts, rule, job.blocks.as_slice())
}

fn of_head(rule: Rule, job: &Job) -> Option<Found>
    ensures { result ≡ ask_head rule job.now }
{
    match rule {
        Rule::E15 => {
            let stages = job.stages.value;
            let holds = stages >= 2 && stages <= 12 && stages <= job.blocks.as_slice().len() as u64;
            broken_unless(holds, head_fault(job), job.stages.at)
        }
        _ => None,
    }
}

fn head_fault(job: &Job) -> StageFault
    ensures { result ≡ head_fault job.now }
{
    let stages = job.stages.value;
    if stages >= 2 && stages <= 12 {
        let blocks = job.blocks.as_slice().len();
        StageFault::FewBlocks { stages, blocks }
    } else {
        StageFault::StageCount { stages }
    }
}

fn in_decls(
    notes: &mut Findings<Found>,
    facts: &Facts,
    rule: Rule,
    decls: &[Decl],
) -> Result<(), NoMemory>
    ensures { OnOk result (notes.new ≡ with_answers notes.old (ask_decls (facts_in facts.now) rule 0 decls.now)) }
{
    for (i, decl) in decls.iter().enumerate() {
        notes.note(of_decl(facts, rule, i, decl))?;
    }
    Ok(())
}

#[tactic(auto, using(kp_base::proofs::Collecting::append))]
fn in_blocks(
    notes: &mut Findings<Found>,
    facts: &Facts,
    rule: Rule,
    blocks: &[Block],
) -> Result<(), NoMemory>
    ensures { OnOk result (notes.new ≡ with_answers notes.old (ask_blocks (facts_in facts.now) rule 0 blocks.now)) }
{
    for (k, block) in blocks.iter().enumerate() {
        in_block(notes, facts, rule, k, block)?;
    }
    Ok(())
}

#[tactic(auto, using(crate::proofs::Unasked::nothing_noted))]
fn in_block(
    notes: &mut Findings<Found>,
    facts: &Facts,
    rule: Rule,
    k: usize,
    block: &Block,
) -> Result<(), NoMemory>
    ensures { OnOk result (notes.new ≡ with_answers notes.old (ask_in_block (facts_in facts.now) rule k block.now)) }
{
    notes.note(of_block(facts, rule, k, block))?;
    if asks_stmts(facts, rule) {
        in_stmts(notes, facts, rule, k, block.stmts.as_slice())
    } else {
        Ok(())
    }
}

// Whether a statement can violate the rule: some rules concern only declarations and blocks, and some only names of a kind that the job may not have.
fn asks_stmts(facts: &Facts, rule: Rule) -> bool
    ensures { result ≡ asks_stmts facts.now rule }
{
    match rule {
        Rule::E15 | Rule::E19 | Rule::E22 | Rule::E24 | Rule::E35 => false,
        Rule::E17 => !facts.given.puts.is_empty(),
        Rule::E25 => !facts.named.hints.is_empty(),
        Rule::E34 => !facts.named.samples.is_empty(),
        _ => true,
    }
}

fn of_block(facts: &Facts, rule: Rule, k: usize, block: &Block) -> Option<Found>
    ensures { result ≡ ask_block (facts_in facts.now) rule k block.now }
{
    match rule {
        Rule::E15 => {
            let holds = block.number.value == k as u64 && (k as u64) < facts.stages;
            broken_unless(holds, block_fault(facts, k, block), block.number.at)
        }
        _ => None,
    }
}

fn block_fault(facts: &Facts, k: usize, block: &Block) -> StageFault
    ensures { result ≡ block_fault (facts_in facts.now) k block.now }
{
    if (k as u64) < facts.stages {
        StageFault::BlockNumber {
            found: block.number.value,
            wanted: k,
        }
    } else {
        StageFault::BlockBeyond {
            stages: facts.stages,
        }
    }
}

fn in_stmts(
    notes: &mut Findings<Found>,
    facts: &Facts,
    rule: Rule,
    k: usize,
    stmts: &[Stmt],
) -> Result<(), NoMemory>
    ensures { OnOk result (notes.new ≡ with_answers notes.old (ask_stmts (facts_in facts.now) rule k 0 stmts.now)) }
{
    for (j, stmt) in stmts.iter().enumerate() {
        notes.note(of_stmt(facts, rule, k, j, &stmt.kind))?;
    }
    Ok(())
}

fn of_decl(facts: &Facts, rule: Rule, i: usize, decl: &Decl) -> Option<Found>
    ensures { result ≡ ask_decl (facts_in facts.now) rule i decl.now }
{
    match (rule, decl) {
        (Rule::E15, Decl::Target(result)) => of_stage(facts, result.stage),
        (Rule::E15, Decl::Sample(_, _, stage)) => of_stage(facts, *stage),
        (Rule::E16, Decl::Pipe(named, _)) => broken_unless(
            facts.given.puts.get(&named.name).is_some(),
            StageFault::NeverPut,
            named.at,
        ),
        (Rule::E19, Decl::Target(result)) => {
            let stage = result.stage.value;
            first_of(
                of_pipe(facts, stage, &result.address),
                of_pipe(facts, stage, &result.enable),
            )
        }
        (Rule::E22, Decl::Target(result)) => {
            let target = &result.target;
            let first = facts.named.results.get(&target.name);
            let fault = StageFault::SecondResult {
                number: first.unwrap_or(i),
            };
            broken_unless(is_index(first, i), fault, target.at)
        }
        (Rule::E24, Decl::Target(result)) => {
            let stage = result.stage.value;
            let fault = StageFault::EarlyWrite {
                stage,
                top: facts.top,
            };
            broken_unless(is_late(facts, stage), fault, result.stage.at)
        }
        (Rule::E35, Decl::Sample(_, _, stage)) => {
            let fault = StageFault::EarlySample {
                stage: stage.value,
                top: facts.top,
            };
            broken_unless(is_late(facts, stage.value), fault, stage.at)
        }
        _ => None,
    }
}

// A stage is one of the stages.
fn of_stage(facts: &Facts, stage: Num) -> Option<Found>
    ensures { result ≡ broken_unless (nat_lt stage.value (facts_in facts.now).stages) (faults.NoStage stage.value (facts_in facts.now).stages) stage.at }
{
    let fault = StageFault::NoStage {
        found: stage.value,
        stages: facts.stages,
    };
    broken_unless(stage.value < facts.stages, fault, stage.at)
}

// Whether the stage is at least W-1.
fn is_late(facts: &Facts, stage: u64) -> bool
    ensures { result ≡ nat_le (facts_in facts.now).top (stage + 1) }
{
    facts.top <= stage || facts.top - 1 <= stage
}

fn of_pipe(facts: &Facts, stage: u64, pipe: &Option<Named>) -> Option<Found>
    ensures { result ≡ ask_pipe (facts_in facts.now) stage pipe.now }
{
    match pipe {
        Some(named) => late_put(facts.given.puts.get(&named.name), stage, named.at),
        None => None,
    }
}

// A pipe that is put in the write stage, or a later one.
fn late_put(put: Option<Spot>, write: u64, at: Place) -> Option<Found>
    ensures { result ≡ broken_if (λ p. nat_le write p.stage) (λ p. faults.PutLate p.stage write) put at }
{
    let put = put?.stage;
    let fault = StageFault::PutLate { put, write };
    broken_unless((put as u64) < write, fault, at)
}

fn of_stmt(facts: &Facts, rule: Rule, k: usize, j: usize, stmt: &StmtKind) -> Option<Found>
    ensures { result ≡ ask_stmt (facts_in facts.now) rule k j stmt.now }
{
    match (rule, stmt) {
        (Rule::E16, StmtKind::Put(named, _)) => {
            let put = facts.given.puts.get(&named.name);
            let first = or_here(&put, k, j);
            let fault = StageFault::PutAgain {
                stage: first.stage,
                index: first.index,
            };
            broken_unless(is_here(&put, k, j), fault, named.at)
        }
        (Rule::E17, _) => first_of(
            in_values(facts, Rule::E17, k, stmt),
            in_guesses(facts, Rule::E17, k, stmt),
        ),
        (Rule::E18, StmtKind::Read(read)) => {
            let write = facts.named.writes.get(&read.target.name)?;
            let fault = StageFault::ReadLate { write, here: k };
            broken_unless(k as u64 <= write, fault, read.target.at)
        }
        (Rule::E20, StmtKind::Set(named, _, _)) => {
            let write = facts.named.write_stages.get(&named.name)?;
            let fault = StageFault::SetLate { write, here: k };
            broken_unless(k as u64 <= write, fault, named.at)
        }
        (Rule::E21, StmtKind::Set(named, _, _)) => {
            let first = first_set(facts, k, &named.name);
            let fault = StageFault::SetAgain {
                index: first.unwrap_or(j),
            };
            broken_unless(is_index(first, j), fault, named.at)
        }
        (Rule::E21, StmtKind::Aim(named, _)) => {
            let aim = facts.given.aims.get(&named.name);
            let first = or_here(&aim, k, j);
            let fault = StageFault::AimedAgain {
                stage: first.stage,
                index: first.index,
            };
            broken_unless(is_here(&aim, k, j), fault, named.at)
        }
        (Rule::E23, StmtKind::Read(read)) => {
            if may_guess(facts, k, read) {
                return None;
            }
            broken_unless(false, guess_fault(facts, k, read), read.target.at)
        }
        (Rule::E25, _) => in_values(facts, Rule::E25, k, stmt),
        (Rule::E34, _) => first_of(
            in_values(facts, Rule::E34, k, stmt),
            in_guesses(facts, Rule::E34, k, stmt),
        ),
        _ => None,
    }
}

pub(crate) fn first_of(a: Option<Found>, b: Option<Found>) -> Option<Found>
    ensures { result ≡ first (a ∷ b ∷ []) }
{
    match a {
        Some(finding) => Some(finding),
        None => b,
    }
}

// The statement that is found, or this one.
fn or_here(spot: &Option<Spot>, k: usize, j: usize) -> Spot
    ensures { result ≡ or_here k j spot.now }
{
    match spot {
        Some(spot) => *spot,
        None => Spot { stage: k, index: j },
    }
}

fn is_here(spot: &Option<Spot>, k: usize, j: usize) -> bool
    ensures { result ≡ holds_of (is_at k j) spot.now }
{
    match spot {
        Some(spot) => spot.stage == k && spot.index == j,
        None => false,
    }
}

// The first statement of the stage that sets a result.
fn first_set(facts: &Facts, k: usize, name: &Name) -> Option<usize>
    ensures { result ≡ (facts_in facts.now).set_in k name.now }
{
    match facts.given.sets.get(k) {
        Some(table) => table.get(name),
        None => None,
    }
}

fn is_index(first: Option<usize>, index: usize) -> bool
    ensures { result ≡ holds_of (λ i. i == index) first }
{
    match first {
        Some(i) => i == index,
        None => false,
    }
}

fn may_guess(facts: &Facts, k: usize, read: &ReadStmt) -> bool
    ensures { result ≡ may_guess (facts_in facts.now) k read.now }
{
    if read.guess.is_none() {
        return true;
    }
    if read.address.is_some() {
        return false;
    }
    match facts.named.writes.get(&read.target.name) {
        Some(w) => w >= 2 && k as u64 <= w - 2,
        None => false,
    }
}

// What is wrong with a guess that may not be made.
fn guess_fault(facts: &Facts, k: usize, read: &ReadStmt) -> StageFault
    ensures { result ≡ guess_fault (facts_in facts.now) k read.now }
{
    if read.address.is_some() {
        return StageFault::GuessedFile;
    }
    match facts.named.writes.get(&read.target.name) {
        Some(write) => StageFault::GuessLate { write, here: k },
        None => StageFault::GuessWithoutResult,
    }
}

// The rule is violated if the test fails.
pub(crate) fn broken_unless(holds: bool, fault: StageFault, place: Place) -> Option<Found>
    ensures { result ≡ broken_unless holds fault place }
{
    if holds {
        return None;
    }
    Some(Found { place, fault })
}
