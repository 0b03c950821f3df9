// The stages of a generated job.
ghost use Rattle.std.specs.Prelude.{◌≡◌, ◌++◌, ◌≤◌, ◌<◌, ◌-◌, [], IfOk, OnOk, length, map};
ghost use Rattle.std.specs.List.{range_with_len};
ghost use Rattle.kp_gen.specs.Generated.{read, put, set, for_each, first_stmts, file_read, address_put, value_put, sets_from, file_set, later_stmts, all_blocks};

use crate::draws::Route;
use crate::trees::{
    add, binary, block, low_byte, named, number, numbered, read_from, spelled, stmt, value,
};
use kp_ast::{Block, Stmt, StmtKind};
use kp_base::NoMemory;
use kp_bits::BinOp;
use std::alloc::Global;

/// The stages of a job with these choices. The only error is out of memory.
#[tactic(auto, using(crate::proofs::Rounds::blocks_more))]
pub(crate) fn all_blocks(
    alloc: Global,
    stages: u64,
    routes: &[Route],
) -> Result<Vec<Block>, NoMemory>
    requires stages { 3 ≤ stages }
    requires some { 4 ≤ length routes.now }
    requires routes { length routes.now ≤ 35 }
    ensures { IfOk result (λ bs. bs.items ≡ all_blocks stages routes.now) }
{
    let mut blocks = Vec::new(alloc);
    blocks.push(block(0, first_stmts(alloc, routes)?))?;
    for k in 1..stages {
        blocks.push(block(k, later_stmts(alloc, k, routes)?))?;
    }
    Ok(blocks)
}

fn first_stmts(alloc: Global, routes: &[Route]) -> Result<Vec<Stmt>, NoMemory>
    requires some { 4 ≤ length routes.now }
    requires routes { length routes.now ≤ 35 }
    ensures { IfOk result (λ ss. ss.items ≡ first_stmts routes.now) }
{
    let mut stmts = Vec::new(alloc);
    add_first(alloc, routes, &mut stmts)?;
    Ok(stmts)
}

// Adds the statements of the first stage to an empty list.
fn add_first(alloc: Global, routes: &[Route], stmts: &mut Vec<Stmt>) -> Result<(), NoMemory>
    requires none { stmts.old.items ≡ [] }
    requires some { 4 ≤ length routes.now }
    requires routes { length routes.now ≤ 35 }
    ensures { OnOk result (stmts.new.items ≡ first_stmts routes.now) }
{
    add_reads(alloc, routes, stmts)?;
    add(stmts, file_read(alloc))?;
    add_puts(alloc, routes, stmts)?;
    add(stmts, address_put(alloc))?;
    add(stmts, value_put(alloc))?;
    Ok(())
}

#[tactic(auto, using(crate::proofs::Rounds::each_all))]
fn add_reads(alloc: Global, routes: &[Route], stmts: &mut Vec<Stmt>) -> Result<(), NoMemory>
    requires { length routes.now ≤ 35 }
    ensures { OnOk result (stmts.new.items ≡ stmts.old.items ++ for_each (λ i r. read i) 0 routes.now) }
{
    for i in 0..routes.len() {
        add(stmts, read(alloc, i as u64))?;
    }
    Ok(())
}

#[tactic(auto, using(crate::proofs::Rounds::each_all))]
fn add_puts(alloc: Global, routes: &[Route], stmts: &mut Vec<Stmt>) -> Result<(), NoMemory>
    requires { length routes.now ≤ 35 }
    ensures { OnOk result (stmts.new.items ≡ stmts.old.items ++ for_each (λ i r. put (length routes.now) i) 0 routes.now) }
{
    let count = routes.len() as u64;
    for i in 0..routes.len() {
        add(stmts, put(alloc, count, i as u64))?;
    }
    Ok(())
}

fn read(alloc: Global, i: u64) -> Result<Stmt, NoMemory>
    ensures { IfOk result (λ s. s ≡ read i) }
{
    let name = numbered(alloc, b'x', i)?;
    let from = numbered(alloc, b'R', i)?;
    Ok(read_from(name, from, None))
}

fn put(alloc: Global, count: u64, i: u64) -> Result<Stmt, NoMemory>
    requires some { 0 < count }
    requires few { i ≤ 35 }
    ensures { IfOk result (λ s. s ≡ put count i) }
{
    let name = numbered(alloc, b'P', i)?;
    let a = numbered(alloc, b'x', i)?;
    let b = numbered(alloc, b'x', (i + 1) % count)?;
    let sum = binary(alloc, BinOp::Add, value(a), value(b))?;
    Ok(stmt(StmtKind::Put(named(name), sum)))
}

fn file_read(alloc: Global) -> Result<Stmt, NoMemory>
    ensures { IfOk result (λ s. s ≡ file_read) }
{
    let name = spelled(alloc, b"f")?;
    let file = spelled(alloc, b"F")?;
    let register = numbered(alloc, b'x', 1)?;
    let address = low_byte(alloc, register)?;
    Ok(read_from(name, file, Some(address)))
}

fn address_put(alloc: Global) -> Result<Stmt, NoMemory>
    ensures { IfOk result (λ s. s ≡ address_put) }
{
    let name = spelled(alloc, b"AF")?;
    let address = low_byte(alloc, numbered(alloc, b'x', 0)?)?;
    Ok(stmt(StmtKind::Put(named(name), address)))
}

fn value_put(alloc: Global) -> Result<Stmt, NoMemory>
    ensures { IfOk result (λ s. s ≡ value_put) }
{
    let name = spelled(alloc, b"VF")?;
    let read = value(spelled(alloc, b"f")?);
    Ok(stmt(StmtKind::Put(named(name), read)))
}

#[tactic(auto, using(std::proofs::Common::append_assoc))]
fn later_stmts(alloc: Global, k: u64, routes: &[Route]) -> Result<Vec<Stmt>, NoMemory>
    requires { length routes.now ≤ 35 }
    ensures { IfOk result (λ ss. ss.items ≡ later_stmts routes.now k) }
{
    let mut stmts = Vec::new(alloc);
    add_sets(alloc, k, routes, &mut stmts)?;
    if k == 1 {
        stmts.push(file_set(alloc)?)?;
    }
    Ok(stmts)
}

#[tactic(auto, using(crate::proofs::Rounds::sets_more, crate::proofs::Rounds::sets_past, crate::proofs::Rounds::sets_all))]
fn add_sets(alloc: Global, k: u64, routes: &[Route], stmts: &mut Vec<Stmt>) -> Result<(), NoMemory>
    requires { length routes.now ≤ 35 }
    ensures { OnOk result (stmts.new.items ≡ stmts.old.items ++ sets_from k 0 routes.now) }
{
    for (i, route) in routes.iter().enumerate() {
        if route.set == k {
            stmts.push(set(alloc, i as u64, *route)?)?;
        }
    }
    Ok(())
}

fn set(alloc: Global, i: u64, route: Route) -> Result<Stmt, NoMemory>
    ensures { IfOk result (λ s. s ≡ set i route) }
{
    let name = numbered(alloc, b'C', i)?;
    let own = numbered(alloc, b'P', i)?;
    let other = numbered(alloc, b'P', route.other)?;
    let shifted = binary(alloc, BinOp::Shl, value(other), number(1, 1))?;
    let mixed = binary(alloc, BinOp::Xor, value(own), shifted)?;
    Ok(stmt(StmtKind::Set(named(name), mixed, None)))
}

fn file_set(alloc: Global) -> Result<Stmt, NoMemory>
    ensures { IfOk result (λ s. s ≡ file_set) }
{
    let name = spelled(alloc, b"CF")?;
    let own = numbered(alloc, b'P', 0)?;
    let read = spelled(alloc, b"VF")?;
    let sum = binary(alloc, BinOp::Add, value(own), value(read))?;
    Ok(stmt(StmtKind::Set(named(name), sum, None)))
}
