// The nodes of expressions.
ghost use Rattle.std.specs.Prelude.{◌*◌, ◌<◌, ◌≤◌, IfOk};
ghost use Rattle.kp_ast.specs.Size.{size};
ghost use Rattle.kp_stage.specs.Sizes.{size_of_option};
ghost use Rattle.kp_net.specs.Widths.{AllRight};
ghost use Rattle.kp_net.specs.Growth.{Held, Wire, Grown};
ghost use Rattle.kp_build.specs.Names.{Gives};
ghost use Rattle.kp_synth_stage.specs.Scopes.{scope_at, Bound};
ghost use Rattle.kp_synth_stage.specs.inner.Statements.{width_in, IsRight, OptionRight, OptionWire, OptionGives};

use kp_ast::Expr;
use kp_base::NoMemory;
use kp_build::{Env, expr};
use kp_net::NodeId;
use kp_pool::Pool;
use kp_stage::Design;
use std::alloc::Global;

/// The value of an expression in statement j of stage k.
pub(crate) fn value(
    alloc: Global,
    pool: &mut Pool,
    d: &Design,
    k: usize,
    j: usize,
    env: &Env,
    e: &Expr,
) -> Result<NodeId, NoMemory>
    requires room { 8 * size d.now.job.decls e.now ≤ pool.old.spare }
    requires env { Bound d.now.job (scope_at d.now.job k j) pool.old env.now }
    requires right { IsRight d.now.job k j e.now }
    ensures wire { IfOk result (λ n. Wire pool.new n (width_in d.now.job k j e.now).value) }
    ensures gives { IfOk result (λ n. Gives pool.old env.now e.now pool.new n) }
    ensures right { IfOk result (λ n. AllRight pool.new.nodes) }
    ensures grown { IfOk result (λ n. Grown pool.old pool.new (8 * size d.now.job.decls e.now)) }
{
    let _job = d.job();
    let _spare = pool.spare();
    let node = expr(alloc, pool, env, e)?;
    let _left = pool.spare();
    Ok(node)
}

/// The value of an optional expression.
pub(crate) fn value_if(
    alloc: Global,
    pool: &mut Pool,
    d: &Design,
    k: usize,
    j: usize,
    env: &Env,
    e: &Option<Expr>,
) -> Result<Option<NodeId>, NoMemory>
    requires room { 8 * size_of_option d.now.job.decls e.now ≤ pool.old.spare }
    requires env { Bound d.now.job (scope_at d.now.job k j) pool.old env.now }
    requires right { OptionRight d.now.job k j e.now }
    ensures wire { IfOk result (λ n. OptionWire d.now.job k j pool.new e.now n) }
    ensures gives { IfOk result (λ n. OptionGives pool.old env.now e.now pool.new n) }
    ensures right { IfOk result (λ n. AllRight pool.new.nodes) }
    ensures grown { IfOk result (λ n. Grown pool.old pool.new (8 * size_of_option d.now.job.decls e.now)) }
{
    let _spare = pool.spare();
    match e {
        None => Ok(None),
        Some(e) => {
            let node = value(alloc, pool, d, k, j, env, e)?;
            Ok(Some(node))
        }
    }
}
