//! An upper bound on the number of nodes.
ghost use Rattle.std.specs.Prelude.{◌≡◌, ◌+◌, ◌≤◌, ◌*◌};
ghost use Rattle.kp_stage.specs.Counts.{summary_of};
ghost use Rattle.kp_synth_next.specs.Bound as bounds;
ghost use Rattle.kp_synth.specs.inner.Rooms.{reading_room, inside_room, closing_room};

use kp_stage::Design;
use kp_stage::laws::the_numbers_are_few;

// The product of two numbers.
#[tactic(auto, using(crate::proofs::Room::times_few))]
fn times(a: u32, b: u32) -> u32
    requires first { a ≤ 12 }
    requires second { b ≤ 4096 }
    ensures { result ≡ a * b }
{
    a * b
}

/// The most nodes that the netlist of a design has: as many as synthesis may ask the pool for.
#[tactic(auto, using(crate::proofs::Room::enough))]
pub(crate) fn enough_nodes(design: &Design) -> u32
    ensures bound { result ≡ bounds.node_bound (summary_of design.now.job) }
    ensures few { result ≤ 16777216 }
    ensures enough { reading_room design.now.job + inside_room design.now.job + closing_room design.now.job ≤ result }
{
    let _job = design.job();
    the_numbers_are_few();
    let numbers = design.summary();
    let entries = numbers.reads
        + numbers.results
        + numbers.pipes
        + numbers.hints
        + numbers.files
        + numbers.regs
        + 1;
    let guesses = times(numbers.stages, times(numbers.stages, numbers.guesses));
    8 * numbers.size + 64 * times(numbers.stages, entries) + 64 * guesses + 4096
}
