// The inputs of each cycle of a run.
ghost use Rattle.std.specs.Prelude.{◌≡◌, IfOk, vec_len};
ghost use Rattle.kp_image.specs.{Feeds.row_in, Spans.word_in};
ghost use Rattle.kp_debug.specs.Inspecting.{all_cycles};
ghost use Rattle.kp_debug.specs.inner.Lists.{words_to, rows_to};

use kp_base::NoMemory;
use kp_bits::Bits;
use kp_image::{InputPattern, StallPattern};
use std::alloc::Global;

/// The number of cycles of a run.
#[tactic(auto, unfolding(crate::specs::Inspecting::all_cycles))]
pub(crate) fn all_cycles() -> u32
    ensures { result ≡ all_cycles }
{
    100_000
}

/// The stall words of the first `count` cycles. The only error is out of memory.
pub(crate) fn words_to(
    alloc: Global,
    stalls: &StallPattern,
    count: u32,
) -> Result<Vec<u16>, NoMemory>
    ensures words { IfOk result (λ words. words.items ≡ words_to (word_in stalls.now) count) }
    ensures many { IfOk result (λ words. vec_len words ≡ count) }
{
    let mut words = Vec::new(alloc);
    for cycle in 0..count {
        words.push(stalls.word(u64::from(cycle)))?;
    }
    Ok(words)
}

/// The values of the samples in the first `count` cycles, cycle by cycle. The only error is out of memory.
pub(crate) fn rows_to(
    alloc: Global,
    inputs: &InputPattern,
    count: u32,
) -> Result<Vec<Bits>, NoMemory>
    ensures { IfOk result (λ rows. rows.items ≡ rows_to (row_in inputs.now) count) }
{
    let mut rows = Vec::new(alloc);
    for cycle in 0..count {
        let row = inputs.row(alloc, u64::from(cycle))?;
        rows.extend_from_slice(row.as_slice())?;
    }
    Ok(rows)
}
