// The values of the targets of a job in a netlist, word by word.
ghost use Rattle.std.specs.Prelude.{◌≡◌, ◌<◌, ◌^◌, [], length, get_or, IfOk};
ghost use Rattle.kp_bits.specs.Word.{word};
ghost use Rattle.kp_machine.specs.Slots.{targets_of};
ghost use Rattle.kp_machine.specs.Words.{HasWord, target};
ghost use Rattle.kp_implements.specs.{Naming.value_shown, Shows.IsOfJob};
ghost use Rattle.kp_run.specs.Places.{place_in, places_in, words_at};
ghost use Rattle.kp_run.specs.inner.Finals.{AreWords, AreFinals};

use crate::places::{Place, places_of};
use kp_base::NoMemory;
use kp_bits::Bits;
use kp_cycle::Sim;
use kp_stage::Design;
use std::alloc::Global;
use std::marker::Model;

/// The words of a target.
#[derive(Drop)]
pub(crate) struct Words {
    words: Vec<Bits>,
}

impl Model for Words {
    ghost use Rattle.std.specs.Prelude.{List};
    ghost use Rattle.kp_bits.specs.Word.{Word};

    ghost Value = { List Word };

    ghost view = { λ w. w.words.items };
}

impl Words {
    /// The word at an address.
    pub fn at(&self, address: u32) -> Bits
        requires { address < length self.now }
        ensures { result ≡ get_or self.now address (word 0 0) }
    {
        self.words[address as usize]
    }
}

/// For each target of a job its words in the state of a netlist.
pub(crate) fn finals_of(
    alloc: Global,
    design: &Design,
    sim: &Sim<'_>,
) -> Result<Vec<Words>, NoMemory>
    requires of_job { IsOfJob sim.now.net design.now.job }
    requires few { length design.now.job.decls < 2 ^ 32 }
    ensures { IfOk result (λ finals. AreFinals design.now.job (value_shown design.now.job sim.now.net sim.now.state) finals.items) }
{
    let places = places_of(alloc, design, sim.netlist())?;
    let mut finals = Vec::with_capacity(alloc, places.len())?;
    for t in 0..places.len() {
        finals.push(words_of(alloc, design, sim, t as u32, places[t])?)?;
    }
    Ok(finals)
}

// The words of a target in the state of a netlist.
fn words_of(
    alloc: Global,
    design: &Design,
    sim: &Sim<'_>,
    t: u32,
    place: Place,
) -> Result<Words, NoMemory>
    requires of_job { IsOfJob sim.now.net design.now.job }
    requires target { t < length (targets_of design.now.job.decls) }
    requires place { place ≡ place_in sim.now.net (target design.now.job t) }
    ensures { IfOk result (λ words. AreWords design.now.job t (value_shown design.now.job sim.now.net sim.now.state t) words) }
{
    let count = place.words();
    let mut words = Vec::with_capacity(alloc, count as usize)?;
    for address in 0..count {
        words.push(shown(design, sim, t, place, address))?;
    }
    Ok(Words { words })
}

// The value of a target at an address in the state of a netlist.
fn shown(_design: &Design, sim: &Sim<'_>, _t: u32, place: Place, address: u32) -> Bits
    requires of_job { IsOfJob sim.now.net _design.now.job }
    requires target { _t < length (targets_of _design.now.job.decls) }
    requires place { place ≡ place_in sim.now.net (target _design.now.job _t) }
    requires address { address < words_at place }
    ensures { result ≡ word (target _design.now.job _t).width (value_shown _design.now.job sim.now.net sim.now.state _t address) }
{
    place.word(sim, address)
}
