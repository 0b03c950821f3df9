//! The words of the targets.
ghost use Rattle.std.specs.Prelude.{◌≡◌, ◌+◌, ◌<◌, ◌≤◌, ◌^◌, [], ◌∷◌, ◌++◌, length, map, sum_by, IfOk, IfSome};
ghost use Rattle.kp_region.specs.{Words.span_words, Spans.Apart};
ghost use Rattle.kp_stage.specs.Start.{AreRegs, AreFiles};
ghost use Rattle.kp_machine.specs.Words.{state_in};
ghost use Rattle.kp_seq.specs.inner.Steps.{with_word};
ghost use Rattle.kp_seq.specs.inner.Ready.{words_of_start};

use kp_ast::Decl;
use kp_base::NoMemory;
use kp_region::{Region, Span};
use kp_stage::Start;
use std::alloc::Global;
use std::marker::Model;

/// The words of each target, in the order of declaration: one for a register, and one for each address of a file. Each
/// target has a span of one region.
pub(crate) struct Words {
    region: Region,
    targets: Vec<Span>,
}

impl Drop for Words {
    fn drop(self) {
        let Words { region, targets } = self;
        drop(region);
        drop(targets);
    }
}

impl Model for Words {
    ghost use Rattle.std.specs.Prelude.{List, ℕ, map};
    ghost use Rattle.kp_region.specs.{Words.span_words, Spans.Apart};

    ghost Value = { List (List ℕ) };

    ghost view = { λ w. map (span_words w.region) w.targets.items };

    ghost invariant = { λ w. Apart w.region w.targets.items };
}

impl Words {
    /// The words of a start state. Error: out of memory.
    pub fn start(alloc: Global, decls: &[Decl], start: &Start) -> Result<Words, NoMemory>
        requires regs { AreRegs decls.now start.now.regs }
        requires files { AreFiles decls.now start.now.files }
        ensures { IfOk result (λ words. words ≡ words_of_start decls.now start.now.regs start.now.files) }
    {
        let size = words_of(start).ok_or(NoMemory)?;
        let mut region = Region::take(alloc, size)?;
        let mut targets = Vec::new(alloc);
        let mut regs = 0;
        let mut files = 0;
        for decl in decls {
            match decl {
                Decl::Reg(_, _, _) => {
                    let value = start.regs.as_slice()[regs].value();
                    add(&mut region, &mut targets, &[value])?;
                    regs += 1;
                }
                Decl::File(_, _, _) => {
                    let words = start.files.as_slice()[files].as_slice();
                    add(&mut region, &mut targets, words)?;
                    files += 1;
                }
                _ => {}
            }
        }
        Ok(Words { region, targets })
    }

    /// A copy of the words. Error: out of memory.
    pub fn copied(&self, alloc: Global) -> Result<Words, NoMemory>
        ensures { IfOk result (λ words. words ≡ self.now) }
    {
        let region = self.region.copied(alloc)?;
        let targets = Vec::from_slice(alloc, self.targets.as_slice())?;
        Ok(Words { region, targets })
    }

    /// The word of a target at an address, and 0 if it doesn't exist.
    pub fn word(&self, target: usize, address: u64) -> u64
        ensures { result ≡ state_in self.now target address }
    {
        if target >= self.targets.len() {
            return 0;
        }
        let span = self.targets[target];
        if address >= u64::from(span.len) {
            return 0;
        }
        self.region.get(span, address as u32)
    }

    /// Writes the word of a target at an address, if it exists.
    #[tactic(auto, using(crate::proofs::Stored::past_targets, crate::proofs::Stored::past_words))]
    pub fn set_word(&mut self, target: usize, address: u64, value: u64)
        ensures { self.new ≡ with_word self.old target address value }
    {
        if target >= self.targets.len() {
            return;
        }
        let span = self.targets[target];
        if address >= u64::from(span.len) {
            return;
        }
        self.region.put(span, address as u32, value);
    }
}

// The number of words of a start state, if a region can have as many.
fn words_of(start: &Start) -> Option<u32>
    ensures { IfSome result (λ n. n ≡ length start.now.regs + sum_by length start.now.files) }
{
    let mut sum = u32::try_from(start.regs.as_slice().len()).ok()?;
    for words in start.files.as_slice() {
        sum = sum.checked_add(u32::try_from(words.as_slice().len()).ok()?)?;
    }
    Some(sum)
}

// Appends a target with these words, in a new span.
fn add(region: &mut Region, targets: &mut Vec<Span>, words: &[u64]) -> Result<(), NoMemory>
    requires apart { Apart region.old targets.old.items }
    requires few { length region.old.words < 2 ^ 32 }
    requires room { region.old.used + length words.now ≤ length region.old.words }
    ensures apart { IfOk result (λ _. Apart region.new targets.new.items) }
    ensures words { IfOk result (λ _. map (span_words region.new) targets.new.items ≡ map (span_words region.old) targets.old.items ++ words.now ∷ []) }
    ensures used { IfOk result (λ _. region.new.used ≡ region.old.used + length words.now) }
    ensures size { IfOk result (λ _. length region.new.words ≡ length region.old.words) }
{
    let span = region.carve(words.len() as u32).unwrap();
    region.fill(span, words);
    targets.push(span)?;
    Ok(())
}
