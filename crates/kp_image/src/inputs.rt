// The input pattern: the external values of the samples.
ghost use Rattle.std.specs.Prelude.{◌≡◌, ◌≤◌, ◌<◌, ◌^◌, IfOk, Some, length, slice_get};
ghost use Rattle.std.specs.List.{All};
ghost use Rattle.kp_bits.specs.Word.{IsWord, word};
ghost use Rattle.kp_image.specs.Feeds.{given_over, row_in, word_fed, FitsFeed, IsFed};
ghost use Rattle.kp_image.specs.inner.Kept.{kept_by, givens_of, feeds_of, FitsSample, InputsFit};

use crate::cycles::Cycles;
use kp_ast::{Decl, Inputs, Name};
use kp_base::NoMemory;
use kp_bits::Bits;
use std::alloc::Global;
use std::marker::Model;

// An entry: a value, and the cycles in which the sample has it.
#[derive(Clone, Copy)]
pub(crate) struct Given {
    value: u64,
    cycles: Cycles,
}

// The external values of a sample.
#[derive(Drop)]
pub(crate) struct Feed {
    width: u8,
    givens: Vec<Given>,
}

impl Model for Feed {
    ghost use Rattle.kp_image.specs.Feeds.{Fed, IsFed};

    ghost Value = { Fed };

    ghost view = { λ f. record { width = f.width; givens = f.givens.items } };

    ghost invariant = { λ f. IsFed (record { width = f.width; givens = f.givens.items }) };
}

impl Feed {
    // The value in a cycle.
    fn word(&self, cycle: u64) -> Bits
        ensures { result ≡ word_fed self.now cycle }
    {
        let value = given_value(self.width, self.givens.as_slice(), cycle);
        Bits::new(self.width, value).unwrap()
    }
}

// The value of the last entry for this cycle, or 0.
fn given_value(width: u8, givens: &[Given], cycle: u64) -> u64
    requires { All (FitsFeed width) givens.now }
    ensures value { result ≡ given_over givens.now cycle 0 }
    ensures fits { result < 2 ^ width }
{
    let mut value = 0;
    for given in givens {
        if given.cycles.contains(cycle) {
            value = given.value;
        }
    }
    value
}

/// The external values of each sample, for each cycle.
pub struct InputPattern {
    feeds: Vec<Feed>,
}

impl Drop for InputPattern {
    fn drop(self) {
        let InputPattern { feeds } = self;
        drop(feeds);
    }
}

impl Model for InputPattern {
    ghost use Rattle.std.specs.Prelude.{List};
    ghost use Rattle.kp_image.specs.Feeds.{Fed};

    ghost Value = { List Fed };

    ghost view = { λ p. p.feeds.items };
}

impl InputPattern {
    /// The pattern of the entries of an inputs section that violates no rule.
    pub(crate) fn of(
        alloc: Global,
        entries: &[Inputs],
        decls: &[Decl],
    ) -> Result<InputPattern, NoMemory>
        requires { All (InputsFit entries.now) decls.now }
        ensures { IfOk result (λ p. p ≡ feeds_of entries.now decls.now) }
    {
        let mut feeds = Vec::new(alloc);
        for decl in decls {
            if let Decl::Sample(name, width, _) = decl {
                feeds.push(feed_for(alloc, entries, &name.name, width.value)?)?;
            }
        }
        Ok(InputPattern { feeds })
    }

    /// The value of a sample in a cycle. The samples are numbered from 0 in the order of declaration. Allocates nothing.
    #[tactic(auto, using(crate::proofs::Feeding::row_at))]
    pub fn value(&self, sample: u32, cycle: u64) -> Bits
        requires { sample < length self.now }
        ensures { slice_get (row_in self.now cycle) sample ≡ Some result }
    {
        self.feeds[sample as usize].word(cycle)
    }

    /// The values of all samples in a cycle, in the order of declaration. Error: out of memory.
    pub fn row(&self, alloc: Global, cycle: u64) -> Result<Vec<Bits>, NoMemory>
        ensures { IfOk result (λ row. row.items ≡ row_in self.now cycle) }
    {
        let mut row = Vec::new(alloc);
        for feed in self.feeds.as_slice() {
            row.push(feed.word(cycle))?;
        }
        Ok(row)
    }
}

fn feed_for(alloc: Global, entries: &[Inputs], name: &Name, width: u64) -> Result<Feed, NoMemory>
    requires positive { 1 ≤ width }
    requires at_most { width ≤ 64 }
    requires fits { All (FitsSample name.now width) entries.now }
    ensures width { IfOk result (λ f. f.width ≡ width) }
    ensures givens { IfOk result (λ f. f.givens ≡ givens_of entries.now name.now) }
{
    let givens = givens(alloc, entries, name)?;
    Ok(Feed {
        width: width as u8,
        givens,
    })
}

fn givens(alloc: Global, entries: &[Inputs], name: &Name) -> Result<Vec<Given>, NoMemory>
    ensures { IfOk result (λ all. all.items ≡ givens_of entries.now name.now) }
{
    let mut all = Vec::new(alloc);
    for e in entries {
        if e.name.name == *name {
            all.push(given_from(e))?;
        }
    }
    Ok(all)
}

fn given_from(e: &Inputs) -> Given
    ensures { result ≡ kept_by e.now }
{
    Given {
        value: e.value.literal.value,
        cycles: Cycles::of(e.from, e.to, e.step),
    }
}
