// The states of the sequential machine that a netlist shows, as far back as a condition needs them.
ghost use Rattle.std.specs.Prelude.{◌≡◌, ◌≢◌, ◌+◌, ◌<◌, ◌≤◌, ◌^◌, ℕ, true, false, length, get_or, IfOk, Some};
ghost use Rattle.kp_bits.specs.Word.{Word};
ghost use Rattle.kp_implements.specs.Shows.{IsOfJob};
ghost use Rattle.kp_run.specs.Cycles.{after_cycles};
ghost use Rattle.kp_run.specs.Homes.{AreHomes};
ghost use Rattle.kp_run.specs.Places.{places_in, IsPlace, word_at, words_at};
ghost use Rattle.kp_run.specs.declared.places.Place.TheVariants.{File};
ghost use Rattle.kp_watch.specs.inner.Changes.{AreNoted, noted_at};
ghost use Rattle.kp_until_run.specs.inner.Histories.{Remembers};
ghost use Rattle.kp_until_run.specs.inner.Pasts.{AreHistories, IsPast, Shown, Updates};

use crate::history::History;
use kp_base::NoMemory;
use kp_bits::Bits;
use kp_cycle::Sim;
use kp_frontend::Accepted;
use kp_run::{Place, homes_of, places_of, updates};
use std::alloc::Global;

/// For each target its register or file in a netlist, its write stage, and its history.
#[derive(Drop)]
pub(crate) struct Past {
    pub places: Vec<Place>,
    pub homes: Vec<u8>,
    pub histories: Vec<History>,
}

impl Past {
    /// The start of a run of at most `_limit` cycles. The only error is out of memory.
    pub fn open(alloc: Global, job: &Accepted, sim: &Sim<'_>, _limit: u32) -> Result<Past, NoMemory>
        requires of_job { IsOfJob sim.now.net job.now.design.job }
        requires start { sim.now ≡ after_cycles job.now.design.job sim.now.net 0 }
        requires shown { Shown job.now.design.job sim.now.net _limit }
        ensures { IfOk result (λ p. IsPast job.now.design.job sim.now.net _limit 0 p) }
    {
        let places = places_of(alloc, &job.design, sim.netlist())?;
        let homes = homes_of(alloc, &job.design)?;
        let mut histories = Vec::new(alloc);
        for t in 0..places.len() {
            let place = places[t];
            let words = words_in(alloc, sim, place)?;
            let history = History::new(words);
            histories.push(history)?;
        }
        Ok(Past {
            places,
            homes,
            histories,
        })
    }
}

/// Notes what a cycle updated, by the mask of the stages that update and the addresses that files were written at.
pub(crate) fn note_all(
    job: &Accepted,
    histories: &mut [History],
    places: &[Place],
    homes: &[u8],
    sim: &Sim<'_>,
    written: &[Option<u32>],
    ue: u16,
    cycle: u32,
    _limit: u32,
)
    requires of_job { IsOfJob sim.now.net job.now.design.job }
    requires shown { Shown job.now.design.job sim.now.net _limit }
    requires low { cycle < _limit }
    requires ran { sim.now ≡ after_cycles job.now.design.job sim.now.net (cycle + 1) }
    requires noted { AreNoted job.now.design.job sim.now.net cycle written.now }
    requires updates { Updates job.now.design.job cycle ue }
    requires places { places.now ≡ places_in job.now.design.job sim.now.net }
    requires homes { AreHomes job.now.design.job homes.now }
    requires histories { AreHistories job.now.design.job _limit cycle histories.old }
    ensures { AreHistories job.now.design.job _limit (cycle + 1) histories.new }
{
    let tree = job.design.job();
    for t in 0..histories.len() {
        let place = places[t];
        let moves = updates(ue, u64::from(homes[t]), tree.stages.value);
        note_update(&mut histories[t], moves, sim, place, written);
    }
}

// The words of a target in the state of a netlist. The only error is out of memory.
fn words_in(alloc: Global, sim: &Sim<'_>, place: Place) -> Result<Vec<Bits>, NoMemory>
    requires { IsPlace sim.now.net place }
    ensures count { IfOk result (λ words. length words.items ≡ words_at place) }
    ensures words { IfOk result (λ words. (a : ℕ) (d : Word) → a < words_at place → get_or words.items a d ≡ word_at sim.now place a) }
{
    let count = place.words();
    let mut words = Vec::with_capacity(alloc, count as usize)?;
    for address in 0..count {
        words.push(place.word(sim, address))?;
    }
    Ok(words)
}

// Notes an update of a target, if there is one.
fn note_update(
    history: &mut History,
    moves: bool,
    sim: &Sim<'_>,
    place: Place,
    written: &[Option<u32>],
)
    requires place { IsPlace sim.now.net place }
    requires files { length written.now ≡ length sim.now.net.parts.files }
    requires words { length history.old.words.items ≡ words_at place }
    requires few { history.old.count < 2 ^ 32 }
    ensures still { moves ≡ false → history.new ≡ history.old }
    ensures count { moves ≡ true → history.new.count ≡ history.old.count + 1 }
    ensures remembers { moves ≡ true → (f : ℕ → ℕ → Word) → Remembers f (words_at place) history.old
        → ((a : ℕ) → a < words_at place → noted_at written.now place ≢ Some a → f (history.old.count + 1) a ≡ f history.old.count a)
        → ((a : ℕ) → a < words_at place → f (history.old.count + 1) a ≡ word_at sim.now place a)
        → Remembers f (words_at place) history.new }
{
    if moves {
        let address = changed_in(written, place);
        let value = place.word(sim, address);
        history.update(address, value);
    }
}

// An address at which all words that changed are.
fn changed_in(written: &[Option<u32>], place: Place) -> u32
    requires files { (f words : ℕ) → place ≡ File f words → (f < length written.now) × (0 < words) }
    ensures there { result < words_at place }
    ensures others { (a : ℕ) → a < words_at place → a ≢ result → noted_at written.now place ≢ Some a }
{
    match place {
        Place::Register(_) => 0,
        Place::File(file, words) => {
            let noted = written[file as usize];
            match noted {
                Some(address) if address < words => address,
                _ => 0,
            }
        }
    }
}
