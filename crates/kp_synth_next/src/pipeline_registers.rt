//! The next values of a full bit, a pipe and a hint.
ghost use Rattle.std.specs.Prelude.{◌≡◌, ℕ, suc, ◌<◌, ◌≤◌, length, not, leb, unwrap_or};
ghost use Rattle.kp_pipeline.specs.Pipeline.{PipelineState, Inputs, ue, back, cycle, outcome};
ghost use Rattle.kp_machine.specs.Slots.{pipes_of, hints_of};
ghost use Rattle.kp_machine.specs.Machine.{machine_of};
ghost use Rattle.kp_net.specs.Growth.{Held, Wire, Grown};
ghost use Rattle.kp_design.specs.Numbers.{pipe_at, hint_at};
ghost use Rattle.kp_synth_registers.specs.Meaning.{Ready, IsTest, Gives, Says};

use kp_design::Layout;
use kp_engine::full_next;
use kp_net::NodeId;
use kp_net_gates::choose;
use kp_pool::Pool;
use kp_synth_registers::{Key, Outcome, Reads, kept, pipe_in};

/// The next full bit of the stage after a stage.
pub(crate) fn next_full(
    pool: &mut Pool,
    layout: &Layout<'_>,
    out: &Outcome,
    update: NodeId,
    swept: NodeId,
    stage: u32,
    next: u32,
) -> NodeId
    requires room { 3 ≤ pool.old.spare }
    requires next { next ≡ suc stage }
    requires says { Says layout.now pool.old next out.now }
    requires update { Wire pool.old update 1 }
    requires updates { IsTest layout.now pool.old update (λ st i. ue (machine_of layout.now) st i stage) }
    requires swept { Wire pool.old swept 1 }
    requires sweeps { IsTest layout.now pool.old swept (λ st i. not (leb (back (machine_of layout.now) st i) next)) }
    ensures wire { Wire pool.new result 1 }
    ensures is_test { IsTest layout.now pool.new result (λ st i. ((cycle (machine_of layout.now) st i).stage next).full) }
    ensures grown { Grown pool.old pool.new 3 }
{
    full_next(pool, update, out.stall, swept)
}

// The value of a pipe of an instruction that leaves a stage.
fn pipe_leaving(
    pool: &mut Pool,
    layout: &Layout<'_>,
    reads: &Reads,
    out: &Outcome,
    pipe: u32,
    stage: u32,
) -> NodeId
    requires room { 1 ≤ pool.old.spare }
    requires pipe { pipe < length (pipes_of layout.now.decls) }
    requires stage { stage < layout.now.stages.value }
    requires ready { Ready layout.now pool.old reads.now }
    requires says { Says layout.now pool.old stage out.now }
    ensures wire { Wire pool.new result (pipe_at layout.now pipe).width }
    ensures gives { Gives layout.now pool.new result (λ st i. unwrap_or ((outcome (machine_of layout.now) st i stage).puts pipe) ((st.stage stage).instruction.pipes pipe)) }
    ensures grown { Grown pool.old pool.new 1 }
{
    match out.puts.as_slice()[pipe as usize] {
        Some(node) => node,
        None => pipe_in(pool, layout, reads, pipe, stage),
    }
}

/// The next value of a pipe in the stage after a stage.
pub(crate) fn next_pipe(
    pool: &mut Pool,
    layout: &Layout<'_>,
    reads: &Reads,
    out: &Outcome,
    update: NodeId,
    pipe: u32,
    stage: u32,
    next: u32,
) -> NodeId
    requires room { 3 ≤ pool.old.spare }
    requires pipe { pipe < length (pipes_of layout.now.decls) }
    requires next { next ≡ suc stage }
    requires stage { next < layout.now.stages.value }
    requires ready { Ready layout.now pool.old reads.now }
    requires says { Says layout.now pool.old stage out.now }
    requires update { Wire pool.old update 1 }
    requires updates { IsTest layout.now pool.old update (λ st i. ue (machine_of layout.now) st i stage) }
    ensures wire { Wire pool.new result (pipe_at layout.now pipe).width }
    ensures gives { Gives layout.now pool.new result (λ st i. ((cycle (machine_of layout.now) st i).stage next).instruction.pipes pipe) }
    ensures grown { Grown pool.old pool.new 3 }
{
    let came = pipe_leaving(pool, layout, reads, out, pipe, stage);
    let own = pipe_in(pool, layout, reads, pipe, next);
    choose(pool, update, came, own, layout.pipe_width(pipe))
}

/// The next value of a hint. The outcome and the update enable are those of the stage that aims it.
pub(crate) fn next_hint(
    pool: &mut Pool,
    layout: &Layout<'_>,
    reads: &Reads,
    out: &Outcome,
    update: NodeId,
    hint: u32,
    stage: u32,
) -> NodeId
    requires room { 1 ≤ pool.old.spare }
    requires hint { hint < length (hints_of layout.now.decls) }
    requires stage { stage ≡ (machine_of layout.now).hint_stage hint }
    requires ready { Ready layout.now pool.old reads.now }
    requires says { Says layout.now pool.old stage out.now }
    requires update { Wire pool.old update 1 }
    requires updates { IsTest layout.now pool.old update (λ st i. ue (machine_of layout.now) st i stage) }
    ensures wire { Wire pool.new result (hint_at layout.now hint).width }
    ensures gives { Gives layout.now pool.new result (λ st i. (cycle (machine_of layout.now) st i).hints hint) }
    ensures grown { Grown pool.old pool.new 1 }
{
    let own = kept(pool, layout, reads, Key::Hint(hint));
    match out.aims.as_slice()[hint as usize] {
        Some(node) => choose(pool, update, node, own, layout.hint(hint).width),
        None => own,
    }
}
