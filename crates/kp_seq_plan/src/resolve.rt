//! Resolving expressions, once for all instructions.
ghost use Rattle.std.specs.Prelude.{◌≡◌, IfOk};
ghost use Rattle.std.specs.List.{position};
ghost use Rattle.kp_ast.specs.Expressions.{is_same_name};
ghost use Rattle.kp_seq_plan.specs.Names.{place_of};
ghost use Rattle.kp_seq_plan.specs.Plans.{Means, AllMean, MeansCall, MeansBody};

use crate::keys::Keys;
use crate::plan::Plan;
use kp_ast::{Boxed, Decl, Expr, ExprKind, Name, Param};
use kp_base::{List, NoMemory};
use kp_bits::checked;
use std::alloc::Global;

/// Where the names of an expression have their indices: in a stage, or among the parameters of a function.
#[derive(Clone, Copy)]
pub enum Scope<'a> {
    Stage(&'a Keys),
    Call(&'a [Param]),
}

/// The plan of an expression after these declarations. Error: out of memory.
#[cycle(resolve)]
pub fn plan_of(alloc: Global, decls: &[Decl], scope: Scope, e: &Expr) -> Result<Plan, NoMemory>
    ensures { IfOk result (λ p. Means decls.now scope.entry e.now p) }
{
    match &e.kind {
        ExprKind::Lit(literal) => Ok(Plan::Word(checked::literal(*literal))),
        ExprKind::Name(name) => Ok(Plan::Name(place_of(scope, name))),
        ExprKind::Not(a) => {
            let a = part_of(alloc, decls, scope, a.get())?;
            Ok(Plan::Not(a))
        }
        ExprKind::Binary(op, a, b) => {
            let (a, b) = parts_of(alloc, decls, scope, a.get(), b.get())?;
            Ok(Plan::Binary(*op, a, b))
        }
        ExprKind::Mux(test, a, b) => {
            let test = part_of(alloc, decls, scope, test.get())?;
            match parts_of(alloc, decls, scope, a.get(), b.get()) {
                Ok((a, b)) => Ok(Plan::Mux(test, a, b)),
                Err(error) => {
                    drop(test);
                    Err(error)
                }
            }
        }
        ExprKind::Concat(parts) => {
            let parts = plans_of(alloc, decls, scope, parts.as_slice())?;
            Ok(Plan::Concat(List::new(parts)))
        }
        ExprKind::Slice(a, hi, lo) => {
            let a = part_of(alloc, decls, scope, a.get())?;
            Ok(Plan::Slice(a, *hi, *lo))
        }
        ExprKind::Zext(a, width) => {
            let a = part_of(alloc, decls, scope, a.get())?;
            Ok(Plan::Zext(a, width.value))
        }
        ExprKind::Sext(a, width) => {
            let a = part_of(alloc, decls, scope, a.get())?;
            Ok(Plan::Sext(a, width.value))
        }
        ExprKind::Call(name, args) => {
            let args = plans_of(alloc, decls, scope, args.as_slice())?;
            call_of(alloc, decls, name, args)
        }
    }
}

// The plan of a part.
#[cycle(resolve)]
fn part_of(alloc: Global, decls: &[Decl], scope: Scope, e: &Expr) -> Result<Boxed<Plan>, NoMemory>
    ensures { IfOk result (λ p. Means decls.now scope.entry e.now p) }
{
    let plan = plan_of(alloc, decls, scope, e)?;
    Boxed::new(alloc, plan)
}

// The plans of two parts.
#[cycle(resolve)]
fn parts_of(
    alloc: Global,
    decls: &[Decl],
    scope: Scope,
    a: &Expr,
    b: &Expr,
) -> Result<(Boxed<Plan>, Boxed<Plan>), NoMemory>
    ensures { IfOk result (λ p. Means decls.now scope.entry a.now p.0 × Means decls.now scope.entry b.now p.1) }
{
    let a = part_of(alloc, decls, scope, a)?;
    match part_of(alloc, decls, scope, b) {
        Ok(b) => Ok((a, b)),
        Err(error) => {
            drop(a);
            Err(error)
        }
    }
}

// The plans of several expressions.
#[cycle(resolve)]
fn plans_of(alloc: Global, decls: &[Decl], scope: Scope, es: &[Expr]) -> Result<Vec<Plan>, NoMemory>
    ensures { IfOk result (λ ps. AllMean decls.now scope.entry es.now ps.items) }
{
    let mut plans = Vec::new(alloc);
    for e in es {
        let plan = plan_of(alloc, decls, scope, e)?;
        plans.push(plan)?;
    }
    Ok(plans)
}

// The plan of a call of the last function with this name.
#[cycle(resolve)]
fn call_of(alloc: Global, decls: &[Decl], name: &Name, args: Vec<Plan>) -> Result<Plan, NoMemory>
    ensures { IfOk result (λ p. MeansCall decls.now name.now args.items p) }
{
    match decls.split_last() {
        None => Ok(Plan::Word(None)),
        Some((decl, earlier)) => {
            if decl.is_function(name) {
                body_of(alloc, earlier, decl, args)
            } else {
                call_of(alloc, earlier, name, args)
            }
        }
    }
}

// The plan of a call of a function, whose body may call the functions that are declared earlier.
#[cycle(resolve)]
fn body_of(alloc: Global, earlier: &[Decl], decl: &Decl, args: Vec<Plan>) -> Result<Plan, NoMemory>
    ensures { IfOk result (λ p. MeansBody earlier.now decl.now args.items p) }
{
    match decl {
        Decl::Func(f) => {
            let params = f.params.as_slice();
            if args.len() != params.len() {
                return Ok(Plan::Word(None));
            }
            let body = part_of(alloc, earlier, Scope::Call(params), &f.body)?;
            Ok(Plan::Call(List::new(args), body))
        }
        _ => Ok(Plan::Word(None)),
    }
}

// The index of a name.
fn place_of(scope: Scope, name: &Name) -> Option<usize>
    ensures { result ≡ place_of scope.entry name.now }
{
    match scope {
        Scope::Stage(keys) => keys.place(name),
        Scope::Call(params) => parameter(params, name),
    }
}

// The index of a parameter.
fn parameter(params: &[Param], name: &Name) -> Option<usize>
    ensures { result ≡ position (λ p. is_same_name name.now p.name.name) params.now }
{
    params.iter().position(|p| *name == p.name.name)
}
