// Findings: the ways in which a text violates a rule, with their facts.
ghost use Rattle.std.specs.Prelude.{◌≡◌, [], ◌≤◌, nat_le, length, OnOk};
ghost use Rattle.kp_base.specs.Findings.{with_answer};

use crate::{NoMemory, Place};
use std::alloc::Global;
use std::marker::Model;

/// A violation: the way in which a rule is violated, with its facts, and the position that the rule specifies.
#[derive(Clone, Copy, Debug)]
pub struct Finding<F> {
    pub place: Place,
    pub fault: F,
}

/// The first findings of a pass, in its order, up to a limit.
#[derive(Drop)]
pub struct Findings<F> {
    most: usize,
    all: Vec<F>,
}

impl<F> Model for Findings<F> {
    ghost use Rattle.kp_base.specs.Findings.{Collected};

    ghost Value = { Collected F };

    ghost view = { λ f. record { most = f.most; found = f.all.items } };
}

impl<F: Copy> Findings<F> {
    /// No findings, of up to `most`. Allocates nothing.
    pub fn new(alloc: Global, most: usize) -> Findings<F>
        ensures { result ≡ record { most = most; found = [] } }
    {
        Findings {
            most,
            all: Vec::new(alloc),
        }
    }

    /// Appends the finding, unless there are enough. The only error is out of memory.
    pub fn note(&mut self, answer: Option<F>) -> Result<(), NoMemory>
        ensures { OnOk result (self.new ≡ with_answer self.old answer) }
    {
        if let Some(finding) = answer {
            if self.all.len() < self.most {
                self.all.push(finding)?;
            }
        }
        Ok(())
    }

    /// Whether there are enough, so that no further one is appended.
    pub fn is_full(&self) -> bool
        ensures { result ≡ nat_le self.now.most (length self.now.found) }
    {
        self.most <= self.all.len()
    }

    /// The findings in the order in which they were found.
    pub fn as_slice(&self) -> &[F]
        ensures { result.now ≡ self.now.found }
    {
        self.all.as_slice()
    }
}
