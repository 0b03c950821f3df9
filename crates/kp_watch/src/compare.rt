// The words of a netlist, compared with those of the machines of its job.
ghost use Rattle.std.specs.Prelude.{◌≡◌, ◌+◌, ◌<◌, length, Some};
ghost use Rattle.std.specs.List.{All};
ghost use Rattle.kp_bits.specs.Word.{word};
ghost use Rattle.kp_machine.specs.Slots.{targets_of};
ghost use Rattle.kp_run.specs.Homes.{AreHomes};
ghost use Rattle.kp_run.specs.Places.{place_in, places_in, words_at};
ghost use Rattle.kp_seq.specs.Running.{state};
ghost use Rattle.kp_machine.specs.Words.{HasWord, target};
ghost use Rattle.kp_implements.specs.{Naming.value_shown, Shows.IsOfJob};
ghost use Rattle.kp_watch.specs.inner.Comparing.{Compares, ComparesTarget, ComparesWord};
ghost use Rattle.kp_watch.specs.inner.Machines.{due_by};

use kp_bits::Bits;
use kp_cycle::Sim;
use kp_frontend::Accepted;
use kp_run::{Column, Difference, Place};
use kp_seq::SeqMachine;

/// What is known of a run before it starts: for each target its register or file in the netlist, the machine that has its value, and its result; for
/// each machine whether it has the value of a target; and for each sample the values that instructions read.
pub(crate) struct Tables {
    pub places: Vec<Place>,
    pub homes: Vec<u8>,
    pub columns: Vec<Column>,
    pub results: Vec<u32>,
    pub needed: Vec<bool>,
}

impl Drop for Tables {
    fn drop(self) {
        let Tables {
            places,
            homes,
            columns,
            results,
            needed,
        } = self;
        drop(places);
        drop(homes);
        drop(columns);
        drop(results);
        drop(needed);
    }
}

/// The first word, by target and address, in which a netlist and the machines of its job differ after `cycle` cycles.
pub(crate) fn difference_in(
    job: &Accepted,
    tables: &Tables,
    sim: &Sim<'_>,
    machines: &[SeqMachine<'_>],
    cycle: u32,
) -> Option<Difference>
    requires of_job { IsOfJob sim.now.net job.now.design.job }
    requires places { tables.now.places.items ≡ places_in job.now.design.job sim.now.net }
    requires homes { AreHomes job.now.design.job tables.now.homes.items }
    requires count { length machines.now ≡ job.now.design.job.stages.value + 1 }
    requires jobs { All (λ m. m.job ≡ job.now.design.job) machines.now }
    ensures { Compares job.now.design.job (value_shown job.now.design.job sim.now.net sim.now.state) (due_by job.now.design.job machines.now) cycle result }
{
    // The invariant of the type, for the proof only.
    let _kept = job.design.job();
    for t in 0..tables.places.len() {
        let machine = &machines[usize::from(tables.homes[t])];
        if let Some(difference) = difference_at(sim, machine, t as u32, tables.places[t], cycle) {
            return Some(difference);
        }
    }
    None
}

// The first address of a target at which a netlist and a machine differ.
fn difference_at(
    sim: &Sim<'_>,
    machine: &SeqMachine<'_>,
    t: u32,
    place: Place,
    cycle: u32,
) -> Option<Difference>
    requires of_job { IsOfJob sim.now.net machine.now.job }
    requires target { t < length (targets_of machine.now.job.decls) }
    requires place { place ≡ place_in sim.now.net (target machine.now.job t) }
    ensures { ComparesTarget machine.now.job (value_shown machine.now.job sim.now.net sim.now.state t) (state machine.now t) cycle t result }
{
    for address in 0..place.words() {
        if let Some(difference) = difference_of(sim, machine, t, place, address, cycle) {
            return Some(difference);
        }
    }
    None
}

/// The difference between a netlist and a machine in a target at an address.
pub(crate) fn difference_of(
    sim: &Sim<'_>,
    machine: &SeqMachine<'_>,
    t: u32,
    place: Place,
    address: u32,
    cycle: u32,
) -> Option<Difference>
    requires of_job { IsOfJob sim.now.net machine.now.job }
    requires target { t < length (targets_of machine.now.job.decls) }
    requires place { place ≡ place_in sim.now.net (target machine.now.job t) }
    requires address { address < words_at place }
    ensures { ComparesWord machine.now.job (value_shown machine.now.job sim.now.net sim.now.state t) (state machine.now t) cycle t (Some address) result }
{
    let found = shown(sim, machine, t, place, address);
    let due = machine.value(t, address);
    if found.value() == due.value() {
        return None;
    }
    Some(Difference {
        cycle,
        target: t,
        address,
        found,
        due,
    })
}

// The value of a target of the machine's job in a netlist.
fn shown(sim: &Sim<'_>, _machine: &SeqMachine<'_>, _t: u32, place: Place, address: u32) -> Bits
    requires of_job { IsOfJob sim.now.net _machine.now.job }
    requires target { _t < length (targets_of _machine.now.job.decls) }
    requires place { place ≡ place_in sim.now.net (target _machine.now.job _t) }
    requires address { address < words_at place }
    ensures { result ≡ word (target _machine.now.job _t).width (value_shown _machine.now.job sim.now.net sim.now.state _t address) }
{
    place.word(sim, address)
}
