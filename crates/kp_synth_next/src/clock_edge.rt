//! All nodes that close the netlist.
ghost use Rattle.std.specs.Prelude.{◌≡◌, ℕ, ◌+◌, ◌*◌, ◌≤◌, length, get_or, None, IfOk};
ghost use Rattle.kp_machine.specs.Slots.{targets_of};
ghost use Rattle.kp_net.specs.Growth.{Held, Grown};
ghost use Rattle.kp_synth_registers.specs.Keys.{keys_of};
ghost use Rattle.kp_synth_registers.specs.Meaning.{Ready, node_at};
ghost use Rattle.kp_synth_next.specs.Control.{AllSay, ShowRow};
ghost use Rattle.kp_synth_next.specs.Nexts.{Closes};

use crate::control::{Control, RowNodes};
use crate::next_values::next_nodes;
use crate::outputs::row_nodes;
use crate::rollback::steer;
use crate::write_ports::write_ports;
use kp_base::NoMemory;
use kp_design::Layout;
use kp_net::{NodeId, WritePort};
use kp_pool::Pool;
use kp_synth_registers::{Outcome, Reads};
use std::alloc::Global;

/// The nodes that close a netlist.
pub struct Ends {
    /// For each register, in the order of the keys, its next node: the one whose value it latches at the end of a cycle.
    pub nexts: Vec<NodeId>,
    /// For each target its write port. A register has none.
    pub ports: Vec<Option<WritePort>>,
    /// The outputs.
    pub row: RowNodes,
}

impl Drop for Ends {
    fn drop(self) {
        let Ends {
            nexts,
            ports,
            row: _,
        } = self;
        drop(nexts);
        drop(ports);
    }
}

/// The nodes that close the netlist, from the outcomes of the stages, the first stage first.
///
/// The only error is out of memory for the lists; some of the nodes are in the pool then.
pub fn close_nodes(
    alloc: Global,
    pool: &mut Pool,
    layout: &Layout<'_>,
    reads: &Reads,
    outs: &[Outcome],
) -> Result<Ends, NoMemory>
    requires room { 159 + 9 * length (keys_of layout.now) + 9 * length (targets_of layout.now.decls) ≤ pool.old.spare }
    requires ready { Ready layout.now pool.old reads.now }
    requires says { AllSay layout.now pool.old outs.now }
    ensures nexts { IfOk result (λ ends. length ends.nexts.items ≡ length (keys_of layout.now)) }
    ensures ports { IfOk result (λ ends. length ends.ports.items ≡ length (targets_of layout.now.decls)) }
    ensures closes { IfOk result (λ ends. Closes layout.now pool.new outs.now (node_at ends.nexts.items) (λ t. get_or ends.ports.items t None)) }
    ensures shows { IfOk result (λ ends. ShowRow layout.now pool.new ends.row) }
    ensures grown { IfOk result (λ ends. Grown pool.old pool.new (113 + 9 * length (keys_of layout.now) + 9 * length (targets_of layout.now.decls))) }
{
    let control = steer(pool, layout, reads, outs);
    let nexts = next_nodes(alloc, pool, layout, reads, outs, &control)?;
    let ports = write_ports(alloc, pool, layout, reads, outs, &control.updates)?;
    let row = row_nodes(alloc, pool, layout, reads, &control);
    Ok(Ends { nexts, ports, row })
}
