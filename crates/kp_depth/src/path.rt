// A longest path to a node.
ghost use Rattle.std.specs.Prelude.{◌≡◌, IfOk};
ghost use Rattle.kp_depth.specs.Times.{time_at, times_of};
ghost use Rattle.kp_depth.specs.Paths.{IsPath, path_length};

use crate::time::{Input, Times};
use kp_base::NoMemory;
use kp_net::{Netlist, NodeId};
use std::alloc::Global;

/// The operands of a longest path that ends in a node, from the node down. The only error is out of memory.
#[tactic(auto, using(crate::proofs::Longest::leads_none, crate::proofs::Longest::descend_more, crate::proofs::Longest::descend_lower, crate::proofs::Longest::path_found, crate::proofs::Longest::length_found))]
pub(crate) fn descend(
    alloc: Global,
    net: &Netlist,
    times: &Times,
    end: NodeId,
) -> Result<Vec<Input>, NoMemory>
    requires { times.now.all.items ≡ times_of net.now.nodes times.now.inside }
    ensures path { IfOk result (λ path. IsPath net.now.nodes times.now.inside end.0 path.items) }
    ensures length { IfOk result (λ path. path_length net.now.nodes times.now.inside end.0 path.items ≡ (time_at net.now.nodes times.now.inside end.0).arrival) }
{
    let _nodes = net.nodes();
    let mut path = Vec::new(alloc);
    let mut here = end;
    while let Some(operand) = times.at(here).chain.last {
        path.push(operand)?;
        here = operand.node;
    }
    Ok(path)
}
