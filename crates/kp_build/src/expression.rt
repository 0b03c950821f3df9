// Building the node of an expression.
ghost use Rattle.std.specs.Prelude.{◌*◌, ◌<◌, ◌≤◌, length, IfOk};
ghost use Rattle.kp_ast.specs.Size.{size};
ghost use Rattle.kp_net.specs.Growth.{Held, Grown};
ghost use Rattle.kp_build.specs.Names.{AreInside, IsSound, Gives, Means};

use crate::env::Env;
use crate::walk::node_for;
use kp_ast::Expr;
use kp_base::NoMemory;
use kp_net::NodeId;
use kp_pool::Pool;
use std::alloc::Global;

/// A node with the value of the expression, provided that the nodes of the names have the values of the names.
///
/// Needs capacity for at most 8 nodes for each unit of the expanded size, and adds only constants and operations,
/// also if it runs out of memory, which is the only error. Each node that was in the pool keeps its number and its
/// value.
pub fn expr(alloc: Global, pool: &mut Pool, env: &Env, e: &Expr) -> Result<NodeId, NoMemory>
    requires room { 8 * size env.now.decls e.now ≤ pool.old.spare }
    requires inside { AreInside pool.old env.now }
    requires sound { IsSound pool.old env.now e.now }
    ensures inside { IfOk result (λ n. n.0 < length pool.new.nodes) }
    ensures means { IfOk result (λ n. Means pool.old env.now e.now pool.new n) }
    ensures gives { IfOk result (λ n. Gives pool.old env.now e.now pool.new n) }
    ensures grown { Grown pool.old pool.new (8 * size env.now.decls e.now) }
{
    node_for(alloc, pool, env, e)
}
