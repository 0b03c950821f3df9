// The state at the end of a run.
ghost use Rattle.std.specs.Prelude.{◌≡◌, ◌<◌, ◌≤◌, ◌+◌, ◌^◌, ℕ, length, get_or, IfOk};
ghost use Rattle.kp_bits.specs.Word.{Word};
ghost use Rattle.kp_machine.specs.Words.{HasWord};
ghost use Rattle.kp_run.specs.Places.{words_at};
ghost use Rattle.kp_seq.specs.Running.{state, word_shown};
ghost use Rattle.kp_until.specs.Untils.{AreSame};
ghost use Rattle.kp_until_run.specs.Ending.{retired_in, states_in};
ghost use Rattle.kp_until_run.specs.inner.Histories.{Remembers};
ghost use Rattle.kp_until_run.specs.inner.Pasts.{AreNear, IsPast};

use crate::history::History;
use crate::past::Past;
use kp_base::NoMemory;
use kp_bits::Bits;
use kp_frontend::Accepted;
use kp_net::Netlist;
use kp_run::Place;
use kp_stage::Design;
use std::alloc::Global;
use std::marker::Model;

/// The words of a target.
#[derive(Drop)]
pub(crate) struct Words {
    pub words: Vec<Bits>,
}

/// The words of the targets of a design; contracts see them as the state of its sequential machine.
pub struct Contents<'a> {
    design: &'a Design,
    targets: Vec<Words>,
}

impl Drop for Contents<'_> {
    fn drop(self) {
        let Contents { design: _, targets } = self;
        drop(targets);
    }
}

impl<'a> Model for Contents<'a> {
    ghost use Rattle.std.specs.Coded.{codes};
    ghost use Rattle.kp_ast.specs.contracts.tree.ExprKind as e;
    ghost use Rattle.kp_seq.specs.Running.{Running};
    ghost use Rattle.kp_until_run.specs.inner.Contents.{no_record, numbers_of, FitJob};

    ghost Value = { Running };

    ghost coded = { Prim.hlevel (codes, e.the_row.coded) };

    ghost view = { λ c. record { job = c.design.now.job; words = numbers_of c.targets.items; last = no_record } };

    ghost invariant = { λ c. FitJob c.design.now.job c.targets.items };
}

impl<'a> Contents<'a> {
    /// The state after `count` instructions, which are at most four fewer than have retired in `_cycle` cycles of a run over `_limit` cycles. The only error is
    /// out of memory.
    pub(crate) fn of(
        alloc: Global,
        job: &'a Accepted,
        past: &Past,
        count: u64,
        _net: &Netlist,
        _cycle: u32,
        _limit: u32,
    ) -> Result<Contents<'a>, NoMemory>
        requires few { count ≤ retired_in job.now.design.job _cycle }
        requires many { retired_in job.now.design.job _cycle ≤ count + 4 }
        requires near { AreNear job.now.design.job _limit _cycle }
        requires past { IsPast job.now.design.job _net.now _limit _cycle past.now }
        ensures job { IfOk result (λ c. c.job ≡ job.now.design.job) }
        ensures state { IfOk result (λ c. AreSame job.now.design.job (state c) (states_in job.now.design.job _limit count)) }
    {
        let mut targets = Vec::new(alloc);
        for t in 0..past.histories.len() {
            let place = past.places[t];
            let words = words_of(alloc, &past.histories[t], place, count)?;
            targets.push(words)?;
        }
        Ok(Contents {
            design: &job.design,
            targets,
        })
    }

    /// The value of a target at an address. The targets are the registers and files in the order of declaration. A register has address 0.
    pub fn value(&self, target: u32, address: u32) -> Bits
        requires { HasWord self.now.job target address }
        ensures { result ≡ word_shown self.now target address }
    {
        self.targets[target as usize].words[address as usize]
    }
}

// The words of a target after `count` instructions. The only error is out of memory.
fn words_of(alloc: Global, history: &History, place: Place, count: u64) -> Result<Words, NoMemory>
    requires { length history.now.words.items ≡ words_at place }
    ensures count { IfOk result (λ w. length w.words.items ≡ words_at place) }
    ensures before { IfOk result (λ w. (f : ℕ → ℕ → Word) (a : ℕ) (d : Word) → Remembers f (words_at place) history.now → history.now.count ≤ count + 16 → count ≤ history.now.count
        → a < words_at place → get_or w.words.items a d ≡ f count a) }
    ensures all { IfOk result (λ w. (f : ℕ → ℕ → Word) (a : ℕ) (d : Word) → Remembers f (words_at place) history.now → history.now.count ≤ count
        → a < words_at place → get_or w.words.items a d ≡ f history.now.count a) }
{
    let mut words = Vec::new(alloc);
    for a in 0..place.words() {
        words.push(history.word_after(count, a))?;
    }
    Ok(Words { words })
}
