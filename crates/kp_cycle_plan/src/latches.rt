//! How registers get their next values at the end of a cycle.
ghost use Rattle.std.specs.Prelude.{◌≡◌, ◌+◌, ◌<◌, length, IfOk};
ghost use Rattle.kp_cycle_plan.specs.Latches.{is_reg, latch_for, IsLatched};

use kp_base::NoMemory;
use kp_net::{Kind, Netlist, NodeId};
use std::alloc::Global;

/// How a register gets its next value. Most registers of a pipeline keep their value while their stage is stalled: their next node is
/// `test ? value : the register itself`, and needs no step of its own.
#[derive(Clone, Copy)]
pub enum Latch {
    /// From this node.
    Always(NodeId),
    /// From the second node if the first one is 1; else the register keeps its value.
    If(NodeId, NodeId),
}

/// A register that takes the value of a node in each cycle.
#[derive(Clone, Copy)]
pub struct Moved {
    pub reg: u32,
    pub next: NodeId,
}

/// A register that takes the value of a node if that of `test` is 1, and else keeps its own.
#[derive(Clone, Copy)]
pub struct Held {
    pub reg: u32,
    pub test: NodeId,
    pub value: NodeId,
}

/// The latches of all registers, by their kind.
pub struct Latches {
    pub moved: Vec<Moved>,
    pub held: Vec<Held>,
}

impl Drop for Latches {
    fn drop(self) {
        let Latches { moved, held } = self;
        drop(moved);
        drop(held);
    }
}

/// The latches of all registers.
pub fn latches_of(alloc: Global, net: &Netlist) -> Result<Latches, NoMemory>
    ensures { IfOk result (λ latches. IsLatched net.now (length net.now.parts.regs) latches.moved.items latches.held.items) }
{
    let mut latches = Latches {
        moved: Vec::new(alloc),
        held: Vec::new(alloc),
    };
    let count = net.parts().regs.as_slice().len() as u32;
    for r in 0..count {
        add_latch(net, r, &mut latches)?;
    }
    Ok(latches)
}

// Appends the latch of a register.
fn add_latch(net: &Netlist, r: u32, latches: &mut Latches) -> Result<(), NoMemory>
    requires inside { r < length net.now.parts.regs }
    requires latched { IsLatched net.now r latches.old.moved.items latches.old.held.items }
    ensures { IfOk result (λ _. IsLatched net.now (r + 1) latches.new.moved.items latches.new.held.items) }
{
    match latch_of(net, r as usize) {
        Latch::Always(next) => latches.moved.push(Moved { reg: r, next })?,
        Latch::If(test, value) => latches.held.push(Held {
            reg: r,
            test,
            value,
        })?,
    }
    Ok(())
}

/// The latch of a register.
pub fn latch_of(net: &Netlist, r: usize) -> Latch
    requires { r < length net.now.parts.regs }
    ensures { result ≡ latch_for net.now r }
{
    let next = net.parts().regs.as_slice()[r].next;
    let nodes = net.nodes();
    match &nodes[next.0 as usize].kind {
        Kind::Mux(test, yes, no) => {
            if shows(&nodes[no.0 as usize].kind, r as u32) {
                Latch::If(*test, *yes)
            } else {
                Latch::Always(next)
            }
        }
        _ => Latch::Always(next),
    }
}

/// Whether a node of this kind is this register.
pub fn shows(kind: &Kind, reg: u32) -> bool
    ensures { result ≡ is_reg kind.now reg }
{
    match kind {
        Kind::Reg(shown) => *shown == reg,
        _ => false,
    }
}
