// Slots for saved states.
ghost use Rattle.std.specs.Prelude.{◌≡◌, ◌+◌, ◌*◌, ◌≤◌, ◌^◌, ◌<◌, ℕ, List, ◌++◌, length, get_or, map, replicate, false, IfOk, OnOk};
ghost use Rattle.kp_region.specs.{declared.span.Span.Span as Stretch, Spans.Apart};
ghost use Rattle.kp_cycle_plan.specs.inner.Spans.{no_slot};

use kp_base::NoMemory;
use kp_region::{Region, Span};
use std::alloc::Global;

/// Storage for a copy of the complete state, and whether one was saved in it.
#[derive(Clone, Copy)]
pub struct Slot {
    pub span: Span,
    pub is_saved: bool,
}

/// The number of words of this many slots of this size.
pub fn words_of_slots(count: u32, size: u32) -> u32
    requires few { count ≤ 64 }
    requires small { size < 2 ^ 25 }
    ensures words { result ≡ count * size }
    ensures at_most { result ≤ 64 * size }
{
    count * size
}

/// This many slots of this size, disjoint from all spans that were carved before. None of them was saved.
pub fn carve_slots(
    alloc: Global,
    region: &mut Region,
    size: u32,
    count: u32,
) -> Result<Vec<Slot>, NoMemory>
    requires room { region.old.used + count * size ≤ length region.old.words }
    requires few { length region.old.words < 2 ^ 32 }
    ensures count { IfOk result (λ slots. length slots.items ≡ count) }
    ensures sizes { IfOk result (λ slots. (k : ℕ) → k < count → (get_or slots.items k no_slot).span.len ≡ size) }
    ensures unsaved { IfOk result (λ slots. map (λ s. s.is_saved) slots.items ≡ replicate count false) }
    ensures apart { IfOk result (λ slots. (spans : List Stretch) → Apart region.old spans → Apart region.new (spans ++ map (λ s. s.span) slots.items)) }
    ensures used { OnOk result (region.new.used ≡ region.old.used + count * size) }
    ensures words { length region.new.words ≡ length region.old.words }
{
    let mut slots = Vec::with_capacity(alloc, count as usize)?;
    for _ in 0..count {
        let span = region.carve(size).unwrap();
        slots.push(Slot {
            span,
            is_saved: false,
        })?;
    }
    Ok(slots)
}
