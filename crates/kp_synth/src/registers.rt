//! The registers: those of the job first, and then the others, in the order of the keys.
ghost use Rattle.std.specs.Prelude.{◌≡◌, ℕ, ◌++◌, ◌<◌, ◌≤◌, length, drop, IfOk, OnOk};
ghost use Rattle.kp_bits.specs.Word.{word, IsWord};
ghost use Rattle.kp_machine.specs.Machine.{hint_starts};
ghost use Rattle.kp_net.specs.Growth.{Wire};
ghost use Rattle.kp_synth_registers.specs.Keys.{HasKey, key_at, key_width, keys_of};
ghost use Rattle.kp_synth_registers.specs.Meaning.{node_at};
ghost use Rattle.kp_synth.specs.inner.Built.{reg_count, visible_regs, first_start, other_reg, other_regs, net_regs, FirstsFit, SpelledReg, AllSpelled, SpelledReg};

use crate::labels::{label, numbered};
use kp_ast::Decl;
use kp_base::NoMemory;
use kp_bits::Bits;
use kp_design::Layout;
use kp_net::{NetReg, NodeId};
use kp_pool::Pool;
use kp_synth_registers::{Key, Keys};
use std::alloc::Global;

// The visible registers.
fn visible(
    alloc: Global,
    decls: &[Decl],
    starts: &[Bits],
    nexts: &[NodeId],
) -> Result<Vec<NetReg>, NoMemory>
    requires starts { reg_count decls.now ≤ length starts.now }
    requires nexts { reg_count decls.now ≤ length nexts.now }
    ensures regs { IfOk result (λ regs. regs.items ≡ visible_regs starts.now nexts.now 0 decls.now) }
    ensures spelled { IfOk result (λ regs. AllSpelled SpelledReg regs.items) }
{
    let mut regs = Vec::new(alloc);
    let mut i = 0;
    for decl in decls {
        if let Decl::Reg(named, _, _) = decl {
            let name = label(alloc, b'r', &named.name)?;
            regs.push(NetReg {
                name,
                start: starts[i],
                next: nexts[i],
            })?;
            i += 1;
        }
    }
    Ok(regs)
}

// The start values of the hints.
fn starts_of_hints(alloc: Global, decls: &[Decl]) -> Result<Vec<u64>, NoMemory>
    ensures { IfOk result (λ starts. starts.items ≡ hint_starts decls.now) }
{
    let mut starts = Vec::new(alloc);
    for decl in decls {
        if let Decl::Hint(_, _, start) = decl {
            starts.push(start.literal.value)?;
        }
    }
    Ok(starts)
}

// The start value of a register that has no name in the job: that of a hint, else 0.
#[tactic(auto, using(crate::proofs::Begins::hints_started))]
fn start_value(layout: &Layout<'_>, hints: &[u64], key: Key) -> u64
    requires has { HasKey layout.now key }
    requires hints { hints.now ≡ hint_starts layout.now.decls }
    ensures { result ≡ first_start (hint_starts layout.now.decls) key }
{
    match key {
        Key::Hint(h) => hints[h as usize],
        _ => 0,
    }
}

// A word of this width and value.
fn word_of(width: u8, value: u64) -> Bits
    requires { IsWord (word width value) }
    ensures { result ≡ word width value }
{
    Bits::new(width, value).unwrap()
}

// A register that has no name in the job. Its number is `r`, and the first such register has the number `from`.
#[tactic(auto, using(crate::proofs::Begins::first_word, kp_synth_registers::proofs::Places::key_had))]
fn other(
    alloc: Global,
    pool: &Pool,
    layout: &Layout<'_>,
    hints: &[u64],
    nexts: &[NodeId],
    from: u32,
    r: u32,
    key: Key,
) -> Result<NetReg, NoMemory>
    requires behind { from ≤ r }
    requires inside { r < length (keys_of layout.now) }
    requires key { key ≡ key_at layout.now r }
    requires hints { hints.now ≡ hint_starts layout.now.decls }
    requires fits { FirstsFit layout.now }
    requires all { length nexts.now ≡ length (keys_of layout.now) }
    requires wires { (i : ℕ) → i < length (keys_of layout.now) → Wire pool.now (node_at nexts.now i) (key_width layout.now (key_at layout.now i)) }
    ensures reg { IfOk result (λ reg. reg ≡ other_reg layout.now nexts.now from r (key_at layout.now r)) }
    ensures spelled { IfOk result (λ reg. SpelledReg reg) }
{
    let next = nexts[r as usize];
    let start = word_of(pool.width(next), start_value(layout, hints, key));
    let name = numbered(alloc, r - from)?;
    Ok(NetReg { name, start, next })
}

// Adds the registers that have no name in the job.
fn add_others(
    alloc: Global,
    regs: &mut Vec<NetReg>,
    pool: &Pool,
    layout: &Layout<'_>,
    keys: &Keys,
    hints: &[u64],
    nexts: &[NodeId],
) -> Result<(), NoMemory>
    requires keys { keys.now ≡ keys_of layout.now }
    requires within { length regs.old.items ≤ length (keys_of layout.now) }
    requires spelled { AllSpelled SpelledReg regs.old.items }
    requires hints { hints.now ≡ hint_starts layout.now.decls }
    requires fits { FirstsFit layout.now }
    requires all { length nexts.now ≡ length (keys_of layout.now) }
    requires wires { (i : ℕ) → i < length (keys_of layout.now) → Wire pool.now (node_at nexts.now i) (key_width layout.now (key_at layout.now i)) }
    ensures regs { OnOk result (regs.new.items
        ≡ regs.old.items ++ other_regs layout.now nexts.now (length regs.old.items) (length regs.old.items) (drop (length regs.old.items) (keys_of layout.now))) }
    ensures spelled { OnOk result (AllSpelled SpelledReg regs.new.items) }
{
    let count = keys.count();
    let from = regs.len() as u32;
    for r in from..count {
        let key = keys.key(r);
        regs.push(other(alloc, pool, layout, hints, nexts, from, r, key)?)?;
    }
    Ok(())
}

/// All registers. The nodes are their next nodes, and the words the start values of the registers of the job.
#[tactic(auto, using(crate::proofs::Parts::visible_counted))]
pub(crate) fn registers(
    alloc: Global,
    pool: &Pool,
    layout: &Layout<'_>,
    keys: &Keys,
    starts: &[Bits],
    nexts: &[NodeId],
) -> Result<Vec<NetReg>, NoMemory>
    requires keys { keys.now ≡ keys_of layout.now }
    requires starts { reg_count layout.now.decls ≤ length starts.now }
    requires few { reg_count layout.now.decls ≤ length (keys_of layout.now) }
    requires fits { FirstsFit layout.now }
    requires all { length nexts.now ≡ length (keys_of layout.now) }
    requires wires { (i : ℕ) → i < length (keys_of layout.now) → Wire pool.now (node_at nexts.now i) (key_width layout.now (key_at layout.now i)) }
    ensures regs { IfOk result (λ regs. regs.items ≡ net_regs layout.now starts.now nexts.now) }
    ensures spelled { IfOk result (λ regs. AllSpelled SpelledReg regs.items) }
{
    let decls = layout.job().decls.as_slice();
    let hints = starts_of_hints(alloc, decls)?;
    let mut regs = visible(alloc, decls, starts, nexts)?;
    add_others(
        alloc,
        &mut regs,
        pool,
        layout,
        keys,
        hints.as_slice(),
        nexts,
    )?;
    Ok(regs)
}
