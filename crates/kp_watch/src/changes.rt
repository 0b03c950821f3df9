// The words that were written in a cycle, compared.
ghost use Rattle.std.specs.Prelude.{◌≡◌, ◌≢◌, ℕ, ◌<◌, length, get_or, Some};
ghost use Rattle.kp_machine.specs.Slots.{targets_of};
ghost use Rattle.kp_run.specs.Places.{place_in, words_at};
ghost use Rattle.kp_run.specs.declared.places.Place.TheVariants.{File};
ghost use Rattle.kp_seq.specs.Running.{state};
ghost use Rattle.kp_machine.specs.Words.{HasWord, target};
ghost use Rattle.kp_implements.specs.{Naming.value_shown, Shows.IsOfJob};
ghost use Rattle.kp_watch.specs.inner.Changes.{IsComparable, noted_at, last_write};
ghost use Rattle.kp_watch.specs.inner.Comparing.{Compares, ComparesTarget, ComparesWord, lower};
ghost use Rattle.kp_watch.specs.inner.Machines.{due_by};

use crate::compare::{Tables, difference_of};
use crate::lockstep::Beside;
use kp_cycle::Sim;
use kp_frontend::Accepted;
use kp_run::{Difference, Place};
use kp_sched::Monitor;
use kp_seq::SeqMachine;

/// The first word, by target and address, in which a netlist and the machines of its job differ after `cycle` cycles, if they agree in all words
/// that neither the netlist nor the last instruction of a machine wrote.
pub(crate) fn difference_after(
    job: &Accepted,
    tables: &Tables,
    both: &Beside<'_, '_>,
    cycle: u32,
) -> Option<Difference>
    requires { IsComparable job.now.design.job tables.now both.now }
    ensures { Compares job.now.design.job (value_shown job.now.design.job both.now.sim.net both.now.sim.state) (due_by job.now.design.job both.now.machines.items) cycle result }
{
    for t in 0..tables.places.len() {
        if let Some(difference) = difference_for(job, tables, both, t as u32, cycle) {
            return Some(difference);
        }
    }
    None
}

// The same for one target.
fn difference_for(
    job: &Accepted,
    tables: &Tables,
    both: &Beside<'_, '_>,
    t: u32,
    cycle: u32,
) -> Option<Difference>
    requires comparable { IsComparable job.now.design.job tables.now both.now }
    requires target { t < length (targets_of job.now.design.job.decls) }
    ensures { ComparesTarget job.now.design.job (value_shown job.now.design.job both.now.sim.net both.now.sim.state t) (due_by job.now.design.job both.now.machines.items t) cycle t result }
{
    let place = tables.places[t as usize];
    let home = tables.homes[t as usize];
    let machine = &both.machines[usize::from(home)];
    let noted = noted_at(both.written.as_slice(), place);
    let wrote = last_write(&both.monitor, machine, home, tables.results[t as usize]);
    difference_among(&both.sim, machine, t, place, noted, wrote, cycle)
}

// The address of a target that the netlist may have changed.
fn noted_at(written: &[Option<u32>], place: Place) -> Option<u32>
    requires { (f words : ℕ) → place ≡ File f words → f < length written.now }
    ensures { result ≡ noted_at written.now place }
{
    match place {
        Place::Register(_) => Some(0),
        Place::File(number, _) => written[number as usize],
    }
}

// The address that a result of the last instruction of a machine wrote, if the machine has executed an instruction.
fn last_write(monitor: &Monitor, machine: &SeqMachine<'_>, home: u8, number: u32) -> Option<u32>
    requires { home < monitor.now.stages → 0 < get_or monitor.now.passed home 0 → number < length machine.now.last.writes }
    ensures { result ≡ last_write monitor.now home machine.now.last number }
{
    if home < monitor.stages() && monitor.passed(home) > 0 {
        machine.writes(number)
    } else {
        None
    }
}

// The first address of a target at which a netlist and a machine differ, if they agree at all but these two.
fn difference_among(
    sim: &Sim<'_>,
    machine: &SeqMachine<'_>,
    t: u32,
    place: Place,
    noted: Option<u32>,
    wrote: Option<u32>,
    cycle: u32,
) -> Option<Difference>
    requires of_job { IsOfJob sim.now.net machine.now.job }
    requires target { t < length (targets_of machine.now.job.decls) }
    requires place { place ≡ place_in sim.now.net (target machine.now.job t) }
    requires elsewhere { (a : ℕ) → HasWord machine.now.job t a → noted ≢ Some a → wrote ≢ Some a → value_shown machine.now.job sim.now.net sim.now.state t a ≡ state machine.now t a }
    ensures { ComparesTarget machine.now.job (value_shown machine.now.job sim.now.net sim.now.state t) (state machine.now t) cycle t result }
{
    let first = difference_where(sim, machine, t, place, noted, cycle);
    let other = another(noted, wrote);
    let second = difference_where(sim, machine, t, place, other, cycle);
    lower(first, second)
}

// The second of two addresses, if it isn't the first.
fn another(first: Option<u32>, second: Option<u32>) -> Option<u32>
    ensures { (a : ℕ) → first ≢ Some a → result ≢ Some a → second ≢ Some a }
{
    match (first, second) {
        (Some(a), Some(b)) if a == b => None,
        _ => second,
    }
}

// The difference at an address, if there is an address and the target has it.
fn difference_where(
    sim: &Sim<'_>,
    machine: &SeqMachine<'_>,
    t: u32,
    place: Place,
    address: Option<u32>,
    cycle: u32,
) -> Option<Difference>
    requires of_job { IsOfJob sim.now.net machine.now.job }
    requires target { t < length (targets_of machine.now.job.decls) }
    requires place { place ≡ place_in sim.now.net (target machine.now.job t) }
    ensures { ComparesWord machine.now.job (value_shown machine.now.job sim.now.net sim.now.state t) (state machine.now t) cycle t address result }
{
    let Some(address) = address else {
        return None;
    };
    if address >= place.words() {
        return None;
    }
    difference_of(sim, machine, t, place, address, cycle)
}

// The one with the lower address.
fn lower(first: Option<Difference>, second: Option<Difference>) -> Option<Difference>
    ensures { result ≡ lower first second }
{
    match (first, second) {
        (Some(d), Some(e)) => {
            if e.address < d.address {
                Some(e)
            } else {
                Some(d)
            }
        }
        (Some(d), None) => Some(d),
        (None, other) => other,
    }
}
