//! The guess that is wrong in a rollback.
ghost use Rattle.std.specs.Prelude.{◌≡◌, ◌<◌, ◌≤◌, ◌-◌, IfSome, None, length};
ghost use Rattle.kp_stalls.specs.Causes.{all_retire as all_retire_in, guess_of as guess_of_in, is_lost as is_lost_in, is_met as is_met_in, is_open as is_open_in, is_open_by as is_open_by_in, only_open, producer_at as producer_at_in, producer_of as producer_of_in, wrong_guess as wrong_guess_in, wrong_of as wrong_of_in};
ghost use Rattle.kp_stalls.specs.Occupants.{at};

use crate::cause::{Guess, Producer, Wrong};
use crate::data_hazard::{is_ready, nearest_above};
use crate::occupants::Occupants;
use kp_sites::{Site, Sites, Writer};

fn is_met(occupants: &Occupants<'_>, writer: Writer, source: Option<usize>) -> bool
    requires { IfSome source (λ j. j < length occupants.now) }
    ensures { result ≡ is_met_in occupants.now writer source }
{
    match source {
        Some(j) => is_ready(writer, occupants, j),
        None => true,
    }
}

fn is_open_by(sites: &Sites, occupants: &Occupants<'_>, k: usize, writer: Option<Writer>) -> bool
    requires few { sites.now.stages ≤ length occupants.now }
    requires below { k < sites.now.stages }
    ensures { result ≡ is_open_by_in sites.now occupants.now k writer }
{
    let Some(writer) = writer else {
        return false;
    };
    k < writer.write as usize
        && is_met(
            occupants,
            writer,
            nearest_above(sites, occupants, writer, 0, k),
        )
}

// Whether the guess of a read may be wrong in stage k. `asked` says whether its condition was true.
fn is_open(
    sites: &Sites,
    occupants: &Occupants<'_>,
    k: usize,
    site: Site,
    asked: Option<u32>,
) -> bool
    requires few { sites.now.stages ≤ length occupants.now }
    requires below { k < sites.now.stages }
    ensures { result ≡ is_open_in sites.now occupants.now k site asked }
{
    site.guessed
        && site.stage < k
        && asked.is_some()
        && is_open_by(sites, occupants, k, sites.writer(site.target))
}

// The read whose guess may be wrong in stage k, if it is the only one.
#[tactic(auto, using(crate::proofs::Steps::open_step, crate::proofs::Steps::open_end))]
fn only(sites: &Sites, occupants: &Occupants<'_>, k: usize) -> Option<usize>
    requires few { sites.now.stages ≤ length occupants.now }
    requires below { k < sites.now.stages }
    ensures { result ≡ only_open sites.now occupants.now k None 0 sites.now.reads }
{
    let reported = occupants.flight(k).reported();
    let reads = sites.reads();
    let mut found = None;
    for i in 0..reads.len() {
        if is_open(sites, occupants, k, reads[i], reported.read(i)) {
            if found.is_some() {
                return None;
            }
            found = Some(i);
        }
    }
    found
}

// Whether the instructions in the stages from number `from` on all retire.
#[tactic(auto, using(crate::proofs::Steps::retire_here, crate::proofs::Steps::retire_next, crate::proofs::Steps::retire_end))]
fn all_retire(occupants: &Occupants<'_>, from: usize, stages: usize) -> bool
    ensures { result ≡ all_retire_in occupants.now (stages - from) from }
{
    for j in from..stages {
        if is_lost(occupants, j) {
            return false;
        }
    }
    true
}

// Whether a stage is full and its instruction doesn't retire.
fn is_lost(occupants: &Occupants<'_>, j: usize) -> bool
    ensures { result ≡ is_lost_in (at occupants.now j).stage }
{
    let stage = occupants.stage(j);
    stage.full && !stage.fate.retires()
}

// The instruction in the stage that makes a value.
fn producer_at(occupants: &Occupants<'_>, source: Option<usize>) -> Option<Producer>
    ensures { result ≡ producer_at_in occupants.now source }
{
    let stage = source?;
    Some(Producer {
        number: occupants.stage(stage).number,
        stage,
    })
}

// The instruction that makes the value of the register of a read, if it isn't there yet.
fn producer_of(sites: &Sites, occupants: &Occupants<'_>, k: usize, read: usize) -> Option<Producer>
    requires few { sites.now.stages ≤ length occupants.now }
    requires below { k < sites.now.stages }
    ensures { result ≡ producer_of_in sites.now occupants.now k read }
{
    let writer = sites.writer(sites.read(read).target)?;
    producer_at(occupants, nearest_above(sites, occupants, writer, 0, k))
}

fn guess_of(
    sites: &Sites,
    occupants: &Occupants<'_>,
    k: usize,
    read: Option<usize>,
) -> Option<Guess>
    requires few { sites.now.stages ≤ length occupants.now }
    requires below { k < sites.now.stages }
    ensures { result ≡ guess_of_in sites.now occupants.now k read }
{
    let read = read?;
    Some(Guess {
        read,
        guessed: None,
        value: occupants.flight(k).value(read),
        producer: producer_of(sites, occupants, k, read),
    })
}

#[tactic(auto, using(crate::proofs::Steps::retire_first))]
fn wrong_guess(sites: &Sites, occupants: &Occupants<'_>, k: usize) -> Option<Guess>
    requires few { sites.now.stages ≤ length occupants.now }
    requires below { k < sites.now.stages }
    ensures { result ≡ wrong_guess_in sites.now occupants.now k }
{
    let stages = sites.stages();
    if all_retire(occupants, k + 1, stages) {
        guess_of(sites, occupants, k, only(sites, occupants, k))
    } else {
        None
    }
}

/// The rollback of stage k.
pub(crate) fn wrong_of(sites: &Sites, occupants: &Occupants<'_>, k: usize) -> Wrong
    requires few { sites.now.stages ≤ length occupants.now }
    requires below { k < sites.now.stages }
    ensures { result ≡ wrong_of_in sites.now occupants.now k }
{
    Wrong {
        last: occupants.stage(0).number,
        guess: wrong_guess(sites, occupants, k),
    }
}
