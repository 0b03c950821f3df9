//! The read that an instruction waits for.
ghost use Rattle.std.specs.Prelude.{◌≡◌, ◌-◌, ◌<◌, ◌≤◌, IfSome, length};
ghost use Rattle.kp_stalls.specs.Causes.{first_wait, had_by, has_guess as has_guess_in, is_ready as is_ready_in, is_source as is_source_in, is_reported as is_reported_in, nearest as nearest_in, nearest_above as nearest_above_in, value_cause as value_cause_in, wait_at as wait_at_in, wait_by as wait_by_in, wait_of as wait_of_in};
ghost use Rattle.kp_stalls.specs.Occupants.{at};

use crate::cause::{Cause, Had, Wait};
use crate::occupants::{Occupants, Stage};
use kp_sites::{Site, Sites, Writer};

fn is_source(writer: Writer, occupants: &Occupants<'_>, j: usize, address: u32) -> bool
    requires { j < length occupants.now }
    ensures { result ≡ is_source_in occupants.now writer address j }
{
    occupants.stage(j).full
        && j <= writer.write as usize
        && writer.may_write(occupants.flight(j).reported(), j, address)
}

// Whether the result of the instruction in stage j is ready there.
pub(crate) fn is_ready(writer: Writer, occupants: &Occupants<'_>, j: usize) -> bool
    requires { j < length occupants.now }
    ensures { result ≡ is_ready_in writer (at occupants.now j) j }
{
    writer.is_ready(occupants.flight(j).reported(), j, occupants.stage(j).moves)
}

// The nearest stage, from one on, that may write the target of a writer at an address.
#[tactic(auto, using(crate::proofs::Steps::near_here, crate::proofs::Steps::near_next, crate::proofs::Steps::near_none))]
fn nearest(
    occupants: &Occupants<'_>,
    writer: Writer,
    address: u32,
    from: usize,
    stages: usize,
) -> Option<usize>
    requires { stages ≤ length occupants.now }
    ensures value { result ≡ nearest_in occupants.now writer address (stages - from) from }
    ensures within { IfSome result (λ j. j < length occupants.now) }
{
    for j in from..stages {
        if is_source(writer, occupants, j, address) {
            return Some(j);
        }
    }
    None
}

// The nearest stage above stage k that may write the target of a writer at an address.
#[tactic(auto, using(crate::proofs::Steps::near_first))]
pub(crate) fn nearest_above(
    sites: &Sites,
    occupants: &Occupants<'_>,
    writer: Writer,
    address: u32,
    k: usize,
) -> Option<usize>
    requires few { sites.now.stages ≤ length occupants.now }
    requires below { k < sites.now.stages }
    ensures value { result ≡ nearest_above_in sites.now occupants.now writer address k }
    ensures within { IfSome result (λ j. j < length occupants.now) }
{
    let stages = sites.stages();
    nearest(occupants, writer, address, k + 1, stages)
}

// When the value of the instruction in stage j can be had.
fn had_of(writer: Writer, occupants: &Occupants<'_>, j: usize) -> Had
    requires { j < length occupants.now }
    ensures { result ≡ had_by writer (at occupants.now j) j }
{
    if writer.known as usize > j {
        return Had::Known(writer.known);
    }
    let setting = occupants.flight(j).reported().setting(writer.result);
    if usize::from(setting) == j {
        Had::Moved
    } else {
        Had::Set(setting)
    }
}

fn wait_at(
    occupants: &Occupants<'_>,
    writer: Writer,
    read: usize,
    address: u32,
    source: Option<usize>,
) -> Option<Wait>
    requires { IfSome source (λ j. j < length occupants.now) }
    ensures { result ≡ wait_at_in occupants.now writer read address source }
{
    let j = source?;
    if is_ready(writer, occupants, j) {
        return None;
    }
    Some(Wait {
        read,
        address,
        writer: occupants.stage(j).number,
        stage: j,
        had: had_of(writer, occupants, j),
    })
}

fn wait_by(
    sites: &Sites,
    occupants: &Occupants<'_>,
    k: usize,
    read: usize,
    address: u32,
    writer: Option<Writer>,
) -> Option<Wait>
    requires few { sites.now.stages ≤ length occupants.now }
    requires below { k < sites.now.stages }
    ensures { result ≡ wait_by_in sites.now occupants.now k read address writer }
{
    let writer = writer?;
    let source = nearest_above(sites, occupants, writer, address, k);
    wait_at(occupants, writer, read, address, source)
}

// Why a read of stage k waits, if it does. `asked` is its address, if its condition was true.
fn wait_of(
    sites: &Sites,
    occupants: &Occupants<'_>,
    k: usize,
    read: usize,
    site: Site,
    asked: Option<u32>,
) -> Option<Wait>
    requires few { sites.now.stages ≤ length occupants.now }
    requires below { k < sites.now.stages }
    ensures { result ≡ wait_of_in sites.now occupants.now k read site asked }
{
    let address = asked?;
    if site.stage == k && !site.guessed {
        wait_by(
            sites,
            occupants,
            k,
            read,
            address,
            sites.writer(site.target),
        )
    } else {
        None
    }
}

// The first read of stage k that waits.
#[tactic(auto, using(crate::proofs::Steps::wait_here, crate::proofs::Steps::wait_next, crate::proofs::Steps::wait_end))]
fn first(sites: &Sites, occupants: &Occupants<'_>, k: usize) -> Option<Wait>
    requires few { sites.now.stages ≤ length occupants.now }
    requires below { k < sites.now.stages }
    ensures { result ≡ first_wait sites.now occupants.now k 0 sites.now.reads }
{
    let reported = occupants.flight(k).reported();
    let reads = sites.reads();
    for i in 0..reads.len() {
        let wait = wait_of(sites, occupants, k, i, reads[i], reported.read(i));
        if wait.is_some() {
            return wait;
        }
    }
    None
}

// Whether the read for which an instruction waits is named.
fn is_reported(sites: &Sites, stage: Stage) -> bool
    ensures { result ≡ is_reported_in sites.now stage }
{
    stage.settled && (stage.fate.retires() || !has_guess(sites.reads()))
}

fn has_guess(sites: &[Site]) -> bool
    ensures { result ≡ has_guess_in sites.now }
{
    sites.iter().any(|site| site.guessed)
}

/// The cause of an instruction in stage k that waits for a value.
pub(crate) fn value_cause(sites: &Sites, occupants: &Occupants<'_>, k: usize) -> Cause
    requires few { sites.now.stages ≤ length occupants.now }
    requires below { k < sites.now.stages }
    ensures { result ≡ value_cause_in sites.now occupants.now k }
{
    if !is_reported(sites, occupants.stage(k)) {
        return Cause::Unsure;
    }
    match first(sites, occupants, k) {
        Some(wait) => Cause::Value(wait),
        None => Cause::Unsure,
    }
}
