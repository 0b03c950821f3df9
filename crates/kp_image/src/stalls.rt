// The stall pattern: the stages that are stalled externally.
ghost use Rattle.std.specs.Prelude.{◌≡◌, ℕ, ◌+◌, ◌^◌, ◌≤◌, ◌<◌, IfOk, None, length, map, slice_index_or, false};
ghost use Rattle.std.specs.List.{All};
ghost use Rattle.kp_stage.specs.Start.{bits_below};
ghost use Rattle.kp_image.specs.{Sections.stall_of, Spans.span_stalls, Spans.some_stalls, Spans.IsSpan, Spans.word_in};
ghost use Rattle.kp_image.specs.inner.Kept.{pattern_of, span_of};

use crate::cycles::Cycles;
use kp_ast::Stalls;
use kp_base::NoMemory;
use std::alloc::Global;
use std::marker::Model;

// An entry: a stage, and the cycles in which it is stalled.
#[derive(Clone, Copy)]
pub(crate) struct Span {
    stage: u8,
    cycles: Cycles,
}

impl Span {
    // Whether it stalls its stage in this cycle.
    fn holds(self, cycle: u64) -> bool
        requires { IsSpan self }
        ensures { result ≡ span_stalls self self.stage cycle }
    {
        self.cycles.contains(cycle)
    }
}

/// Which stages are stalled externally, for each cycle.
///
/// Bit k of a stall word is 1 if stage k is stalled.
pub struct StallPattern {
    stages: u8,
    spans: Vec<Span>,
}

impl Drop for StallPattern {
    fn drop(self) {
        let StallPattern { stages: _, spans } = self;
        drop(spans);
    }
}

impl Model for StallPattern {
    ghost use Rattle.std.specs.Prelude.{◌≤◌};
    ghost use Rattle.std.specs.List.{All};
    ghost use Rattle.kp_image.specs.Spans.{Pattern, IsSpan};

    ghost Value = { Pattern };

    ghost view = { λ p. record { stages = p.stages; spans = p.spans.items } };

    ghost invariant = { λ p. (p.stages ≤ 12) × All IsSpan p.spans.items };
}

impl StallPattern {
    /// The pattern of the entries of a stalls section that violates no rule.
    pub(crate) fn of(
        alloc: Global,
        stages: u64,
        entries: &[Stalls],
    ) -> Result<StallPattern, NoMemory>
        requires few { stages ≤ 12 }
        requires right { All (λ e. stall_of stages e ≡ None) entries.now }
        ensures { IfOk result (λ p. p ≡ pattern_of stages entries.now) }
    {
        let spans = spans(alloc, stages, entries)?;
        Ok(StallPattern {
            stages: stages as u8,
            spans,
        })
    }

    /// The stall word of a cycle. Allocates nothing.
    pub fn word(&self, cycle: u64) -> u16
        ensures { result ≡ word_in self.now cycle }
    {
        let stalled = stalled_stages(self.spans.as_slice(), cycle);
        word_of(&stalled[..usize::from(self.stages)])
    }
}

fn spans(alloc: Global, stages: u64, entries: &[Stalls]) -> Result<Vec<Span>, NoMemory>
    requires few { stages ≤ 12 }
    requires right { All (λ e. stall_of stages e ≡ None) entries.now }
    ensures { IfOk result (λ spans. spans.items ≡ map span_of entries.now) }
{
    let mut spans = Vec::new(alloc);
    for e in entries {
        spans.push(span_for(stages, e))?;
    }
    Ok(spans)
}

fn span_for(stages: u64, e: &Stalls) -> Span
    requires few { stages ≤ 12 }
    requires right { stall_of stages e.now ≡ None }
    ensures { result ≡ span_of e.now }
{
    Span {
        stage: e.stage.value as u8,
        cycles: Cycles::of(e.from, e.to, e.step),
    }
}

// The stages that are stalled in a cycle.
fn stalled_stages(spans: &[Span], cycle: u64) -> [bool; 12]
    requires { All IsSpan spans.now }
    ensures { (k : ℕ) → k < 12 → slice_index_or result k false ≡ some_stalls spans.now k cycle }
{
    let mut stalled = [false; 12];
    for span in spans {
        if span.holds(cycle) {
            stalled[usize::from(span.stage)] = true;
        }
    }
    stalled
}

// The word whose bit k is 1 if entry k is true.
fn word_of(stalled: &[bool]) -> u16
    requires { length stalled.now ≤ 12 }
    ensures { result ≡ bits_below (length stalled.now) (λ k. slice_index_or stalled.now k false) }
{
    let mut word = 0u16;
    for (k, is_stalled) in stalled.iter().enumerate() {
        if *is_stalled {
            word += 1 << k;
        }
    }
    word
}
