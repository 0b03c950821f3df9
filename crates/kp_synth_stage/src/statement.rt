// The nodes of single statements.
ghost use Rattle.std.specs.Prelude.{◌≡◌, suc, ◌+◌, ◌*◌, ◌<◌, ◌≤◌, List, Some, length, IfOk, ◌-◌, ◌||◌, ◌&&◌, ◌++◌, not, is_some, slice_get};
ghost use Rattle.kp_ast.specs.declared.tree.StmtKind.TheVariants as stmts;
ghost use Rattle.kp_net.specs.Nodes.{Cells, at, on};
ghost use Rattle.kp_net.specs.Widths.{wide};
ghost use Rattle.kp_net.specs.Growth.{Held, Wire, Grown};
ghost use Rattle.kp_pipeline.specs.Sequential.{first_value};
ghost use Rattle.kp_synth_registers.specs.Holding.{optional};
ghost use Rattle.kp_synth_registers.specs.Meaning.{Added, SetFits, set_value};
ghost use Rattle.kp_synth_stage.specs.declared.row.Source.{Source as ASource};
ghost use Rattle.kp_synth_stage.specs.inner.Standing.{WorkOk, StmtRight, GoesBy};
ghost use Rattle.kp_synth_stage.specs.Work.{cost_of, AreSlots};
ghost use Rattle.kp_stage.specs.Sizes.{size_of_kind};
ghost use Rattle.kp_design.specs.Numbers.{target_at};
ghost use Rattle.kp_synth_stage.specs.Rows.{SourcesOk};
ghost use Rattle.kp_synth_stage.specs.Doing.{target_of};
ghost use Rattle.kp_synth_stage.specs.Scopes.{scope_at, Bound};
ghost use Rattle.kp_synth_stage.specs.inner.Statements.{GuessOk, ReadGives, made_of};

use crate::bypass::{condition, read_source};
use crate::row::{Answer, Source};
use crate::slots::{Slots, number_of, target_named};
use crate::value::{value, value_if};
use crate::work::Work;
use kp_ast::{Expr, Named, ReadStmt};
use kp_base::NoMemory;
use kp_build::Env;
use kp_net::NodeId;
use kp_net_gates::{choose, either};
use kp_pool::Pool;
use kp_stage::Design;
use kp_synth_registers::{Made, Set};
use std::alloc::Global;

/// `let name = e;`
pub(crate) fn let_name(
    alloc: Global,
    pool: &mut Pool,
    d: &Design,
    k: usize,
    j: usize,
    name: &Named,
    e: &Expr,
    work: &mut Work,
) -> Result<(), NoMemory>
    requires right { StmtRight d.now.job k j (stmts.Let name.now e.now) }
    requires room { cost_of d.now.job (stmts.Let name.now e.now) ≤ pool.old.spare }
    requires work { WorkOk d.now.job k j pool.old work.old }
    ensures work { IfOk result (λ u. WorkOk d.now.job k (suc j) pool.new work.new) }
    ensures goes { IfOk result (λ u. (ss : List ASource) → GoesBy d.now.job k j (stmts.Let name.now e.now) pool.old work.old ss pool.new work.new) }
    ensures added { IfOk result (λ u. Added d.now.job pool.old pool.new (cost_of d.now.job (stmts.Let name.now e.now))) }
{
    let _job = d.job();
    let _spare = pool.spare();
    let node = value(alloc, pool, d, k, j, &work.env, e)?;
    work.env.bind(&name.name, node)?;
    Ok(())
}

/// `put name = e;`
pub(crate) fn put(
    alloc: Global,
    pool: &mut Pool,
    d: &Design,
    k: usize,
    j: usize,
    slots: &Slots,
    name: &Named,
    e: &Expr,
    work: &mut Work,
) -> Result<(), NoMemory>
    requires right { StmtRight d.now.job k j (stmts.Put name.now e.now) }
    requires room { cost_of d.now.job (stmts.Put name.now e.now) ≤ pool.old.spare }
    requires slots { AreSlots d.now.job slots.now }
    requires work { WorkOk d.now.job k j pool.old work.old }
    ensures work { IfOk result (λ u. WorkOk d.now.job k (suc j) pool.new work.new) }
    ensures goes { IfOk result (λ u. (ss : List ASource) → GoesBy d.now.job k j (stmts.Put name.now e.now) pool.old work.old ss pool.new work.new) }
    ensures added { IfOk result (λ u. Added d.now.job pool.old pool.new (cost_of d.now.job (stmts.Put name.now e.now))) }
{
    let _job = d.job();
    let _spare = pool.spare();
    let node = value(alloc, pool, d, k, j, &work.env, e)?;
    let x = number_of(slots.pipes.as_slice(), &name.name);
    work.puts[x] = Some(node);
    Ok(())
}

/// `aim name = e;`
pub(crate) fn aim(
    alloc: Global,
    pool: &mut Pool,
    d: &Design,
    k: usize,
    j: usize,
    slots: &Slots,
    name: &Named,
    e: &Expr,
    work: &mut Work,
) -> Result<(), NoMemory>
    requires right { StmtRight d.now.job k j (stmts.Aim name.now e.now) }
    requires room { cost_of d.now.job (stmts.Aim name.now e.now) ≤ pool.old.spare }
    requires slots { AreSlots d.now.job slots.now }
    requires work { WorkOk d.now.job k j pool.old work.old }
    ensures work { IfOk result (λ u. WorkOk d.now.job k (suc j) pool.new work.new) }
    ensures goes { IfOk result (λ u. (ss : List ASource) → GoesBy d.now.job k j (stmts.Aim name.now e.now) pool.old work.old ss pool.new work.new) }
    ensures added { IfOk result (λ u. Added d.now.job pool.old pool.new (cost_of d.now.job (stmts.Aim name.now e.now))) }
{
    let _job = d.job();
    let _spare = pool.spare();
    let node = value(alloc, pool, d, k, j, &work.env, e)?;
    let x = number_of(slots.hints.as_slice(), &name.name);
    work.aims[x] = Some(node);
    Ok(())
}

// A set combined with earlier sets of the same result in the stage.
#[tactic(auto, using(kp_net::proofs::Growing::growing))]
fn after_set(pool: &mut Pool, before: Option<Set>, enabled: NodeId, value: NodeId) -> Set
    requires room { 2 ≤ pool.old.spare }
    requires before { SetFits pool.old (wide pool.old.nodes value.0) before }
    requires enabled { Wire pool.old enabled 1 }
    requires value { value.0 < length pool.old.nodes }
    ensures fits { SetFits pool.new (wide pool.old.nodes value.0) (Some result) }
    ensures value { (c : Cells) → set_value c pool.new (Some result) ≡ first_value (set_value c pool.old before) (optional (on c pool.old.nodes enabled.0) (at c pool.old.nodes value.0)) }
    ensures grown { Grown pool.old pool.new 2 }
{
    match before {
        None => Set { enabled, value },
        Some(set) => {
            let width = pool.width(value);
            let any = either(pool, set.enabled, enabled);
            let first = choose(pool, set.enabled, set.value, value, width);
            Set {
                enabled: any,
                value: first,
            }
        }
    }
}

/// `set name = e when when;`
pub(crate) fn set(
    alloc: Global,
    pool: &mut Pool,
    d: &Design,
    k: usize,
    j: usize,
    slots: &Slots,
    name: &Named,
    e: &Expr,
    when: &Option<Expr>,
    work: &mut Work,
) -> Result<(), NoMemory>
    requires right { StmtRight d.now.job k j (stmts.Set name.now e.now when.now) }
    requires room { cost_of d.now.job (stmts.Set name.now e.now when.now) ≤ pool.old.spare }
    requires slots { AreSlots d.now.job slots.now }
    requires work { WorkOk d.now.job k j pool.old work.old }
    ensures work { IfOk result (λ u. WorkOk d.now.job k (suc j) pool.new work.new) }
    ensures goes { IfOk result (λ u. (ss : List ASource) → GoesBy d.now.job k j (stmts.Set name.now e.now when.now) pool.old work.old ss pool.new work.new) }
    ensures added { IfOk result (λ u. Added d.now.job pool.old pool.new (cost_of d.now.job (stmts.Set name.now e.now when.now))) }
{
    let job = d.job();
    let _spare = pool.spare();
    let node = value(alloc, pool, d, k, j, &work.env, e)?;
    let test = value_if(alloc, pool, d, k, j, &work.env, when)?;
    let enabled = condition(pool, test);
    match target_named(job.decls.as_slice(), slots.targets.as_slice(), &name.name) {
        Some(t) => {
            let before = work.sets[t];
            let set = after_set(pool, before, enabled, node);
            work.sets[t] = Some(set);
            Ok(())
        }
        None => unreachable!(),
    }
}

/// The source of target t.
#[tactic(auto, using(std::proofs::lemmas::Option::slice_get_read))]
pub fn source_at(sources: &[Source], t: usize) -> &Source
    requires { t < length sources.now }
    ensures { slice_get sources.now t ≡ Some result.now }
{
    &sources[t]
}

// The nodes of a read.
pub(crate) fn read_nodes(
    alloc: Global,
    pool: &mut Pool,
    d: &Design,
    k: usize,
    j: usize,
    slots: &Slots,
    sources: &[Source],
    env: &Env,
    r: &ReadStmt,
) -> Result<Answer, NoMemory>
    requires right { StmtRight d.now.job k j (stmts.Read r.now) }
    requires room { cost_of d.now.job (stmts.Read r.now) ≤ pool.old.spare }
    requires slots { AreSlots d.now.job slots.now }
    requires sources { SourcesOk d.now.job pool.old sources.now }
    requires env { Bound d.now.job (scope_at d.now.job k j) pool.old env.now }
    ensures value_wire { IfOk result (λ a. Wire pool.new a.value (target_at d.now.job (target_of d.now.job.decls r.now)).width) }
    ensures lacks_wire { IfOk result (λ a. Wire pool.new a.lacks 1) }
    ensures guess { IfOk result (λ a. GuessOk pool.new (target_at d.now.job (target_of d.now.job.decls r.now)).width r.now.guess a.guess) }
    ensures gives { IfOk result (λ a. ReadGives d.now.job k j r.now pool.old env.now sources.now pool.new a) }
    ensures added { IfOk result (λ a. Added d.now.job pool.old pool.new (8 * size_of_kind d.now.job.decls (stmts.Read r.now) + (20 * d.now.job.stages.value - 4))) }
{
    let _job = d.job();
    let _spare = pool.spare();
    let address = value_if(alloc, pool, d, k, j, env, &r.address)?;
    let when = value_if(alloc, pool, d, k, j, env, &r.when)?;
    let guess = value_if(alloc, pool, d, k, j, env, &r.guess)?;
    let t = number_of(slots.targets.as_slice(), &r.target.name);
    let source = source_at(sources, t);
    let got = read_source(alloc, pool, d, t, source, address, when, guess)?;
    Ok(Answer {
        value: got.value,
        lacks: got.lacks,
        guess,
    })
}

// A read whose truth is missing is a data hazard, or makes a guess if it is guessed.
fn note(
    pool: &mut Pool,
    hazard: NodeId,
    made: &mut Vec<Made>,
    lacks: NodeId,
    guess: Option<NodeId>,
) -> Result<NodeId, NoMemory>
    requires room { 1 ≤ pool.old.spare }
    requires hazard { Wire pool.old hazard 1 }
    requires lacks { Wire pool.old lacks 1 }
    ensures wire { IfOk result (λ n. Wire pool.new n 1) }
    ensures hazard { IfOk result (λ n. (c : Cells) → on c pool.new.nodes n.0 ≡ (on c pool.old.nodes hazard.0 || (not (is_some guess) && on c pool.old.nodes lacks.0))) }
    ensures made { IfOk result (λ n. made.new.items ≡ made.old.items ++ made_of lacks guess) }
    ensures grown { IfOk result (λ n. Grown pool.old pool.new 1) }
{
    match guess {
        None => Ok(either(pool, hazard, lacks)),
        Some(value) => {
            made.push(Made {
                pending: lacks,
                value,
            })?;
            Ok(hazard)
        }
    }
}

/// `read name = target[address] when when;` or `.. guess guess;`
pub(crate) fn read(
    alloc: Global,
    pool: &mut Pool,
    d: &Design,
    k: usize,
    j: usize,
    slots: &Slots,
    sources: &[Source],
    r: &ReadStmt,
    work: &mut Work,
) -> Result<(), NoMemory>
    requires right { StmtRight d.now.job k j (stmts.Read r.now) }
    requires room { cost_of d.now.job (stmts.Read r.now) ≤ pool.old.spare }
    requires slots { AreSlots d.now.job slots.now }
    requires sources { SourcesOk d.now.job pool.old sources.now }
    requires work { WorkOk d.now.job k j pool.old work.old }
    ensures work { IfOk result (λ u. WorkOk d.now.job k (suc j) pool.new work.new) }
    ensures goes { IfOk result (λ u. GoesBy d.now.job k j (stmts.Read r.now) pool.old work.old sources.now pool.new work.new) }
    ensures added { IfOk result (λ u. Added d.now.job pool.old pool.new (cost_of d.now.job (stmts.Read r.now))) }
{
    let _job = d.job();
    let answer = read_nodes(alloc, pool, d, k, j, slots, sources, &work.env, r)?;
    let hazard = note(
        pool,
        work.hazard,
        &mut work.made,
        answer.lacks,
        answer.guess,
    )?;
    work.hazard = hazard;
    work.env.bind(&r.name.name, answer.value)?;
    Ok(())
}
