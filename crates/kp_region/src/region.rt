// A region of words and its operations.
ghost use Rattle.std.specs.Prelude.{◌≡◌, ◌+◌, ◌<◌, ◌≤◌, ◌↔◌, ◌⊎◌, length, slice_index, slice_range, IfOk, OnOk, OnErr, IsErr};
ghost use Rattle.std.specs.Borrow.{sem};
ghost use Rattle.kp_region.specs.Lending.{LendsAll, LendsWords};
ghost use Rattle.kp_region.specs.Words.{IsSound, IsWithin, IsDisjoint, filled, fresh, laid_over, next_span, span_words, carved, written, copied, released};

use crate::span::Span;
use kp_base::NoMemory;
use std::alloc::Global;
use std::marker::Model;

/// The region has fewer words left than requested.
#[derive(Clone, Copy)]
pub struct Full;

/// A number of used words of a region at some moment.
#[derive(Clone, Copy)]
pub struct Mark {
    used: u32,
}

impl Model for Mark {
    ghost use Rattle.std.specs.Prelude.{ℕ};

    ghost Value = { ℕ };

    ghost view = { λ m. m.used };

    ghost inverse = { λ n. record { used = n } };
}

/// Words of 64 bits; contracts see the list of all of them and the number of those that are used.
#[derive(Drop)]
pub struct Region {
    words: Vec<u64>,
    used: u32,
}

impl Model for Region {
    ghost use Rattle.std.specs.Prelude.{◌≤◌, ◌<◌, ◌^◌, length};
    ghost use Rattle.kp_region.specs.Words.{Words};

    ghost Value = { Words };

    ghost view = { λ r. record { words = r.words.items; used = r.used } };

    ghost invariant = { λ r. (r.used ≤ length r.words.items) × (length r.words.items < 2 ^ 32) };
}

impl Region {
    /// A region of this many words. The only error is out of memory.
    pub fn take(alloc: Global, words: u32) -> Result<Region, NoMemory>
        ensures { IfOk result (λ r. r ≡ fresh words) }
    {
        let words = vec![in alloc; 0; words as usize]?;
        Ok(Region { words, used: 0 })
    }

    /// A copy of the region, in which each span has the same words. The only error is out of memory.
    pub fn copied(&self, alloc: Global) -> Result<Region, NoMemory>
        ensures { IfOk result (λ r. r ≡ self.now) }
    {
        let words = Vec::from_slice(alloc, self.words.as_slice())?;
        Ok(Region {
            words,
            used: self.used,
        })
    }

    /// Carves a new span of the next `n` words. Error: `Full` if fewer words are left.
    pub fn carve(&mut self, n: u32) -> Result<Span, Full>
        ensures span { IfOk result (λ s. s ≡ next_span self.old n) }
        ensures carved { OnOk result (self.new ≡ carved self.old n) }
        ensures full { IsErr result ↔ (length self.old.words < self.old.used + n) }
        ensures unchanged { OnErr result (self.new ≡ self.old) }
        ensures sound { IsSound self.new }
    {
        let start = self.used as usize;
        if n as usize > self.words.len() - start {
            return Err(Full);
        }
        self.words[start..start + n as usize].fill(0);
        let span = Span {
            start: self.used,
            len: n,
        };
        self.used += n;
        Ok(span)
    }

    /// The word of the span at this index.
    pub fn get(&self, s: Span, i: u32) -> u64
        requires within { IsWithin s self.now }
        requires in_span { i < s.len }
        ensures { result ≡ slice_index self.now.words (s.start + i) }
    {
        self.words[s.start as usize + i as usize]
    }

    /// All words of the span.
    pub fn words(&self, s: Span) -> &[u64]
        requires within { IsWithin s self.now }
        ensures { result.now ≡ span_words self.now s }
    {
        let start = s.start as usize;
        &self.words[start..start + s.len as usize]
    }

    /// All words of the region.
    pub fn all(&self) -> &[u64]
        ensures { result.now ≡ self.now.words }
    {
        self.words.as_slice()
    }

    /// All words of the region, to be changed.
    pub fn all_mut(&mut self) -> &mut [u64]
        ensures* writes_back { sem 𝓛 (LendsAll self.entry result) }
        ensures value { result.now ≡ self.old.words }
    {
        self.words.as_mut_slice()
    }

    /// Writes the word of the span at this index.
    pub fn put(&mut self, s: Span, i: u32, v: u64)
        requires within { IsWithin s self.old }
        requires in_span { i < s.len }
        ensures written { self.new ≡ written self.old s i v }
        ensures sound { IsSound self.new }
    {
        self.words[s.start as usize + i as usize] = v;
    }

    /// All words of the span, to be changed.
    pub fn words_mut(&mut self, s: Span) -> &mut [u64]
        requires within { IsWithin s self.old }
        ensures* writes_back { sem 𝓛 (LendsWords self.entry s result) }
        ensures value { result.now ≡ span_words self.old s }
    {
        let start = s.start as usize;
        self.words.slice_mut(start..start + s.len as usize)
    }

    /// Writes all words of the span.
    pub fn fill(&mut self, s: Span, words: &[u64])
        requires within { IsWithin s self.old }
        requires as_many { length words.now ≡ s.len }
        ensures filled { self.new ≡ filled self.old s words.now }
        ensures sound { IsSound self.new }
    {
        let start = s.start as usize;
        self.words[start..start + s.len as usize].copy_from_slice(words);
    }

    /// Copies the words of one span over those of another.
    pub fn copy(&mut self, from: Span, to: Span)
        requires same_length { from.len ≡ to.len }
        requires from_within { IsWithin from self.old }
        requires to_within { IsWithin to self.old }
        requires disjoint { IsDisjoint from to }
        ensures copied { self.new ≡ copied self.old from to }
        ensures sound { IsSound self.new }
    {
        copy_part(
            self.words.as_mut_slice(),
            from.start as usize,
            to.start as usize,
            from.len as usize,
        );
    }

    /// The present number of used words.
    pub fn mark(&self) -> Mark
        ensures mark { result ≡ self.now.used }
        ensures sound { IsSound self.now }
    {
        Mark { used: self.used }
    }

    /// Returns to a mark: everything that was carved since is free again.
    pub fn release(&mut self, m: Mark)
        requires { m ≤ self.old.used }
        ensures released { self.new ≡ released self.old m }
        ensures sound { IsSound self.new }
    {
        self.used = m.used;
    }
}

// Copies this many words to another index; no word is in both places. Two slices are copied as a block, parts of one word by word.
fn copy_part(words: &mut [u64], from: usize, to: usize, len: usize)
    requires from_inside { from + len ≤ length words.old }
    requires to_inside { to + len ≤ length words.old }
    requires disjoint { (from + len ≤ to) ⊎ (to + len ≤ from) }
    ensures { words.new ≡ laid_over words.old to (slice_range words.old from (from + len)) }
{
    if from < to {
        let (front, back) = words.split_at_mut(to);
        back[..len].copy_from_slice(&front[from..from + len]);
    } else {
        let (front, back) = words.split_at_mut(from);
        front[to..to + len].copy_from_slice(&back[..len]);
    }
}
