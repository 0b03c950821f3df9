// The declarations of a generated job.
ghost use Rattle.std.specs.Prelude.{◌≡◌, ◌++◌, ◌≤◌, [], Some, IfOk, IsTrue, OnOk, codes, length};
ghost use Rattle.kp_ast.specs.declared.tree.Decl.TheVariants as decls;
ghost use Rattle.kp_gen.specs.Generated.{named, num, target, register, pipe, result_of, for_each, all_decls};
ghost use Rattle.kp_gen.specs.inner.Spelling.{is_spelled};

use crate::draws::Route;
use crate::trees::{add, lit, named, num, numbered, spelled, target};
use kp_ast::Decl;
use kp_base::NoMemory;
use std::alloc::Global;

/// The declarations of a job with these choices. The only error is out of memory.
pub(crate) fn all_decls(alloc: Global, stages: u64, routes: &[Route]) -> Result<Vec<Decl>, NoMemory>
    requires stages { 3 ≤ stages }
    requires routes { length routes.now ≤ 35 }
    ensures { IfOk result (λ ds. ds.items ≡ all_decls stages routes.now) }
{
    let mut decls = Vec::new(alloc);
    add_decls(alloc, stages, routes, &mut decls)?;
    Ok(decls)
}

// Adds them to an empty list.
fn add_decls(
    alloc: Global,
    stages: u64,
    routes: &[Route],
    decls: &mut Vec<Decl>,
) -> Result<(), NoMemory>
    requires none { decls.old.items ≡ [] }
    requires stages { 3 ≤ stages }
    requires routes { length routes.now ≤ 35 }
    ensures { OnOk result (decls.new.items ≡ all_decls stages routes.now) }
{
    add_registers(alloc, routes, decls)?;
    add(decls, file(alloc))?;
    add_pipes(alloc, routes, decls)?;
    add(decls, file_pipe(alloc, b"AF", 8))?;
    add(decls, file_pipe(alloc, b"VF", 16))?;
    add_results(alloc, routes, decls)?;
    add(decls, file_target(alloc, stages - 1))?;
    Ok(())
}

fn file(alloc: Global) -> Result<Decl, NoMemory>
    ensures { IfOk result (λ d. d ≡ decls.File (named (codes "F")) (num 16) (num 8)) }
{
    let name = spelled(alloc, b"F")?;
    Ok(Decl::File(named(name), num(16), num(8)))
}

// A pipe for the file's result.
fn file_pipe(alloc: Global, name: &[u8], width: u64) -> Result<Decl, NoMemory>
    requires { IsTrue (is_spelled name.now) }
    ensures { IfOk result (λ d. d ≡ decls.Pipe (named name.now) (num width)) }
{
    let name = spelled(alloc, name)?;
    Ok(Decl::Pipe(named(name), num(width)))
}

fn file_target(alloc: Global, stage: u64) -> Result<Decl, NoMemory>
    ensures { IfOk result (λ d. d ≡ target (codes "CF") (codes "F") (Some (named (codes "AF"))) stage) }
{
    let name = spelled(alloc, b"CF")?;
    let file = spelled(alloc, b"F")?;
    let address = named(spelled(alloc, b"AF")?);
    Ok(target(name, file, Some(address), stage))
}

#[tactic(auto, using(crate::proofs::Rounds::each_all))]
fn add_registers(alloc: Global, routes: &[Route], decls: &mut Vec<Decl>) -> Result<(), NoMemory>
    requires { length routes.now ≤ 35 }
    ensures { OnOk result (decls.new.items ≡ decls.old.items ++ for_each (λ i r. register i) 0 routes.now) }
{
    for i in 0..routes.len() {
        add(decls, register(alloc, i as u64))?;
    }
    Ok(())
}

#[tactic(auto, using(crate::proofs::Rounds::each_all))]
fn add_pipes(alloc: Global, routes: &[Route], decls: &mut Vec<Decl>) -> Result<(), NoMemory>
    requires { length routes.now ≤ 35 }
    ensures { OnOk result (decls.new.items ≡ decls.old.items ++ for_each (λ i r. pipe i) 0 routes.now) }
{
    for i in 0..routes.len() {
        add(decls, pipe(alloc, i as u64))?;
    }
    Ok(())
}

#[tactic(auto, using(crate::proofs::Rounds::each_more, crate::proofs::Rounds::each_all))]
fn add_results(alloc: Global, routes: &[Route], decls: &mut Vec<Decl>) -> Result<(), NoMemory>
    requires { length routes.now ≤ 35 }
    ensures { OnOk result (decls.new.items ≡ decls.old.items ++ for_each result_of 0 routes.now) }
{
    for (i, route) in routes.iter().enumerate() {
        decls.push(result_of(alloc, i as u64, *route)?)?;
    }
    Ok(())
}

fn register(alloc: Global, i: u64) -> Result<Decl, NoMemory>
    requires { i ≤ 35 }
    ensures { IfOk result (λ d. d ≡ register i) }
{
    let name = numbered(alloc, b'R', i)?;
    Ok(Decl::Reg(named(name), num(16), lit(16, i + 1)))
}

fn pipe(alloc: Global, i: u64) -> Result<Decl, NoMemory>
    ensures { IfOk result (λ d. d ≡ pipe i) }
{
    let name = numbered(alloc, b'P', i)?;
    Ok(Decl::Pipe(named(name), num(16)))
}

fn result_of(alloc: Global, i: u64, route: Route) -> Result<Decl, NoMemory>
    ensures { IfOk result (λ d. d ≡ result_of i route) }
{
    let name = numbered(alloc, b'C', i)?;
    let to = numbered(alloc, b'R', i)?;
    Ok(target(name, to, None, route.write))
}
