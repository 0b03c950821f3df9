//! The traversal of an expression: a node for each part of it.
ghost use Rattle.std.specs.Prelude.{◌≡◌, ◌+◌, ◌*◌, ◌<◌, ◌≤◌, length, IfOk};
ghost use Rattle.std.specs.List.{sum_by};
ghost use Rattle.kp_ast.specs.Size.{size, bodies_of, body_size_of};
ghost use Rattle.kp_ast.specs.Checked.{checked_calls_of, checked_call};
ghost use Rattle.kp_net.specs.Growth.{Held, Grown};
ghost use Rattle.kp_build.specs.Names.{AreInside, IsSound, Gives};
ghost use Rattle.kp_build.specs.inner.Showing.{IsThere, Shows, AllShow, AllInside, words_at, values_in};

use crate::concatenation::joined;
use crate::env::Env;
use crate::operation::{chosen, inverted, number, operated, sign_extended, sliced, zero_extended};
use kp_ast::{Decl, Expr, ExprKind, Name};
use kp_base::NoMemory;
use kp_net::NodeId;
use kp_pool::Pool;
use std::alloc::Global;

/// A node with the value of an expression.
#[cycle(walk)]
#[tactic(auto, using(kp_net::proofs::Growing::growing, kp_ast::proofs::Parts::size_Not, kp_ast::proofs::Parts::size_Slice, kp_ast::proofs::Parts::size_Zext, kp_ast::proofs::Parts::size_Sext, kp_ast::proofs::Parts::size_Binary, kp_ast::proofs::Parts::size_Mux))]
pub(crate) fn node_for(
    alloc: Global,
    pool: &mut Pool,
    env: &Env,
    e: &Expr,
) -> Result<NodeId, NoMemory>
    requires room { 8 * size env.now.decls e.now ≤ pool.old.spare }
    requires inside { AreInside pool.old env.now }
    requires sound { IsSound pool.old env.now e.now }
    ensures inside { IfOk result (λ n. n.0 < length pool.new.nodes) }
    ensures gives { IfOk result (λ n. Gives pool.old env.now e.now pool.new n) }
    ensures grown { Grown pool.old pool.new (8 * size env.now.decls e.now) }
{
    match &e.kind {
        ExprKind::Lit(literal) => Ok(number(pool, *literal)),
        ExprKind::Name(name) => Ok(env.named(name)),
        ExprKind::Not(a) => {
            let a = node_for(alloc, pool, env, a.get())?;
            Ok(inverted(pool, a))
        }
        ExprKind::Binary(op, a, b) => {
            let (a, b) = two_for(alloc, pool, env, a.get(), b.get())?;
            Ok(operated(pool, *op, a, b))
        }
        ExprKind::Mux(test, a, b) => {
            let test = node_for(alloc, pool, env, test.get())?;
            let (a, b) = two_for(alloc, pool, env, a.get(), b.get())?;
            Ok(chosen(pool, test, a, b))
        }
        ExprKind::Concat(parts) => {
            let parts = nodes_for(alloc, pool, env, parts.as_slice())?;
            joined(alloc, pool, parts.as_slice())
        }
        ExprKind::Slice(a, hi, lo) => {
            let a = node_for(alloc, pool, env, a.get())?;
            Ok(sliced(pool, a, *hi, *lo))
        }
        ExprKind::Zext(a, width) => {
            let a = node_for(alloc, pool, env, a.get())?;
            Ok(zero_extended(alloc, pool, a, width.value))
        }
        ExprKind::Sext(a, width) => {
            let a = node_for(alloc, pool, env, a.get())?;
            Ok(sign_extended(alloc, pool, a, width.value))
        }
        ExprKind::Call(name, args) => {
            let args = nodes_for(alloc, pool, env, args.as_slice())?;
            called(alloc, pool, env.decls(), name, args.as_slice())
        }
    }
}

// The nodes of two expressions.
#[cycle(walk)]
fn two_for(
    alloc: Global,
    pool: &mut Pool,
    env: &Env,
    a: &Expr,
    b: &Expr,
) -> Result<(NodeId, NodeId), NoMemory>
    requires room { 8 * (size env.now.decls a.now + size env.now.decls b.now) ≤ pool.old.spare }
    requires inside { AreInside pool.old env.now }
    requires left { IsSound pool.old env.now a.now }
    requires right { IsSound pool.old env.now b.now }
    ensures inside { IfOk result (λ ns. (ns.0.0 < length pool.new.nodes) × (ns.1.0 < length pool.new.nodes)) }
    ensures gives { IfOk result (λ ns. Gives pool.old env.now a.now pool.new ns.0 × Gives pool.old env.now b.now pool.new ns.1) }
    ensures grown { Grown pool.old pool.new (8 * (size env.now.decls a.now + size env.now.decls b.now)) }
{
    let a = node_for(alloc, pool, env, a)?;
    let b = node_for(alloc, pool, env, b)?;
    Ok((a, b))
}

// A node for each expression.
#[cycle(walk)]
fn nodes_for(
    alloc: Global,
    pool: &mut Pool,
    env: &Env,
    es: &[Expr],
) -> Result<Vec<NodeId>, NoMemory>
    requires room { 8 * sum_by (size env.now.decls) es.now ≤ pool.old.spare }
    requires inside { AreInside pool.old env.now }
    requires sound { IsThere (values_in pool.old env.now es.now) }
    ensures inside { IfOk result (λ ns. AllInside pool.new ns.items) }
    ensures shows { IfOk result (λ ns. AllShow pool.new ns.items (values_in pool.old env.now es.now)) }
    ensures grown { Grown pool.old pool.new (8 * sum_by (size env.now.decls) es.now) }
{
    let mut nodes = Vec::new(alloc);
    for e in es {
        nodes.push(node_for(alloc, pool, env, e)?)?;
    }
    Ok(nodes)
}

// A node with the value of a call of the last function with this name.
#[cycle(walk)]
fn called(
    alloc: Global,
    pool: &mut Pool,
    decls: &[Decl],
    name: &Name,
    args: &[NodeId],
) -> Result<NodeId, NoMemory>
    requires room { 8 * bodies_of decls.now name.now ≤ pool.old.spare }
    requires inside { AllInside pool.old args.now }
    requires sound { IsThere (λ c. checked_calls_of decls.now name.now (words_at c pool.old args.now)) }
    ensures inside { IfOk result (λ n. n.0 < length pool.new.nodes) }
    ensures shows { IfOk result (λ n. Shows pool.new n (λ c. checked_calls_of decls.now name.now (words_at c pool.old args.now))) }
    ensures grown { Grown pool.old pool.new (8 * bodies_of decls.now name.now) }
{
    match decls.split_last() {
        None => unreachable!(),
        Some((decl, earlier)) => {
            if decl.is_function(name) {
                body(alloc, pool, earlier, decl, args)
            } else {
                called(alloc, pool, earlier, name, args)
            }
        }
    }
}

// A node with the value of a function's body, which may call the functions that are declared earlier.
#[cycle(walk)]
fn body(
    alloc: Global,
    pool: &mut Pool,
    earlier: &[Decl],
    decl: &Decl,
    args: &[NodeId],
) -> Result<NodeId, NoMemory>
    requires room { 8 * body_size_of (bodies_of earlier.now) decl.now ≤ pool.old.spare }
    requires inside { AllInside pool.old args.now }
    requires sound { IsThere (λ c. checked_call (checked_calls_of earlier.now) decl.now (words_at c pool.old args.now)) }
    ensures inside { IfOk result (λ n. n.0 < length pool.new.nodes) }
    ensures shows { IfOk result (λ n. Shows pool.new n (λ c. checked_call (checked_calls_of earlier.now) decl.now (words_at c pool.old args.now))) }
    ensures grown { Grown pool.old pool.new (8 * body_size_of (bodies_of earlier.now) decl.now) }
{
    match decl {
        Decl::Func(f) => {
            let env = Env::of_call(alloc, earlier, f.params.as_slice(), args)?;
            node_for(alloc, pool, &env, &f.body)
        }
        _ => unreachable!(),
    }
}
