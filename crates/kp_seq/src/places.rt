//! The indices of the names of the pipes.
ghost use Rattle.std.specs.Prelude.{◌≡◌, ◌<◌, ◌+◌, ℕ, Some, None, IfSome, length, get_or};
ghost use Rattle.kp_seq.specs.inner.Names.{IsRun};

use std::marker::Model;

/// The indices of the names of the pipes, in the order of the pipes, and the first one if they are in sequence, as where the
/// pipes are declared together.
pub(crate) struct Places {
    items: Vec<Option<usize>>,
    first: Option<usize>,
}

impl Drop for Places {
    fn drop(self) {
        let Places { items, first: _ } = self;
        drop(items);
    }
}

impl Model for Places {
    ghost use Rattle.std.specs.Prelude.{List, Option, ℕ, IfSome};
    ghost use Rattle.kp_seq.specs.inner.Names.{IsRun};

    ghost Value = { List (Option ℕ) };

    ghost view = { λ p. p.items.items };

    ghost invariant = { λ p. IfSome p.first (λ f. IsRun f p.items.items) };
}

impl Places {
    /// These indices.
    pub fn new(items: Vec<Option<usize>>) -> Places
        ensures { result ≡ items.items }
    {
        let first = first_of(items.as_slice());
        Places { items, first }
    }

    /// The indices, in order.
    pub fn as_slice(&self) -> &[Option<usize>]
        ensures { result.now ≡ self.now }
    {
        self.items.as_slice()
    }

    /// The number of pipes.
    pub fn len(&self) -> usize
        ensures { result ≡ length self.now }
    {
        self.items.len()
    }

    /// The first index, if the others follow it in sequence.
    pub fn first(&self) -> Option<usize>
        ensures { IfSome result (λ f. IsRun f self.now) }
    {
        self.first
    }
}

// The first index, if the others follow it in sequence.
#[tactic(auto, using(crate::proofs::Carrying::run_next))]
fn first_of(places: &[Option<usize>]) -> Option<usize>
    ensures { IfSome result (λ f. IsRun f places.now) }
{
    if places.len() == 0 {
        return None;
    }
    let first = places[0]?;
    for i in 0..places.len() {
        let place = places[i]?;
        if place < i || place - i != first {
            return None;
        }
    }
    Some(first)
}
