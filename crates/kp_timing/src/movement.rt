//! Which stages wait for data, which are blocked, and how the instructions move on.
ghost use Rattle.std.specs.Prelude.{◌≡◌, ◌-◌, ◌≤◌, ◌<◌, ◌&&◌, None, nat_le, length, get_or};
ghost use Rattle.kp_sites.specs.Reports.{may_write};
ghost use Rattle.kp_timing.specs.inner.Deciding.{met_from, is_met, is_unmet, some_unmet_from, waits_by, is_blocked_by, found_down, no_stage_found, moves_by, taken_down, taken_by, record_in, is_full};

use crate::masks::is_set;
use kp_sites::{Reported, Site, Sites, Writer};
use std::marker::Model;

/// The instructions in the stages: their numbers, and what the sequential machine reported about each.
pub(crate) struct Pipeline {
    pub hold: [Option<u64>; 12],
    pub flights: Vec<Reported>,
}

impl Drop for Pipeline {
    fn drop(self) {
        let Pipeline { hold: _, flights } = self;
        drop(flights);
    }
}

impl Model for Pipeline {
    ghost use Rattle.kp_timing.specs.inner.Deciding.{Held};

    ghost Value = { Held };

    ghost view = { λ p. record { hold = p.hold; recorded = p.flights.items } };
}

/// The stages that wait, and those that are blocked.
#[derive(Clone, Copy)]
pub(crate) struct Found {
    pub waits: [bool; 12],
    pub blocked: [bool; 13],
}

impl Pipeline {
    /// The number of the instruction in a stage. The stage is below 12.
    pub fn number(&self, k: usize) -> Option<u64>
        requires in_range { k < 12 }
        requires hold { length self.now.hold ≡ 12 }
        ensures { result ≡ get_or self.now.hold k None }
    {
        self.hold[k]
    }

    /// Whether a stage contains an instruction.
    pub fn is_full(&self, k: usize) -> bool
        requires { length self.now.hold ≡ 12 }
        ensures { result ≡ is_full self.now k }
    {
        k < 12 && self.hold[k].is_some()
    }

    // What was reported about the instruction in a stage.
    fn recorded(&self, k: usize) -> &Reported
        requires { k < length self.now.recorded }
        ensures { result.now ≡ record_in self.now k }
    {
        &self.flights[k]
    }
}

// Whether a read is met by the nearest stage, from one on, that may write its target: that stage has the result ready, or there is none.
#[tactic(auto, using(crate::proofs::Stepping::met_here, crate::proofs::Stepping::met_above, crate::proofs::Stepping::met_none))]
fn is_met_from(
    writer: Writer,
    held: &Pipeline,
    blocked: &[bool; 13],
    address: u32,
    from: usize,
    stages: usize,
) -> bool
    requires hold { length held.now.hold ≡ 12 }
    requires recorded { stages ≤ length held.now.recorded }
    requires few { stages ≤ 12 }
    ensures { result ≡ met_from held.now blocked.now writer address (stages - from) from }
{
    for k in from..stages {
        if may_write_in(writer, held, k, address) {
            return writer.is_ready(held.recorded(k), k, !blocked[k]);
        }
    }
    true
}

fn may_write_in(writer: Writer, held: &Pipeline, k: usize, address: u32) -> bool
    requires hold { length held.now.hold ≡ 12 }
    requires recorded { k < length held.now.recorded }
    ensures { result ≡ (is_full held.now k && (nat_le k writer.write && may_write writer (record_in held.now k) k address)) }
{
    held.is_full(k) && k <= writer.write as usize && writer.may_write(held.recorded(k), k, address)
}

// Whether a read in stage k is not met.
fn is_unmet(
    sites: &Sites,
    held: &Pipeline,
    blocked: &[bool; 13],
    k: usize,
    site: Site,
    asked: Option<u32>,
) -> bool
    requires hold { length held.now.hold ≡ 12 }
    requires recorded { sites.now.stages ≤ length held.now.recorded }
    requires few { sites.now.stages ≤ 12 }
    requires stage { k < 12 }
    ensures { result ≡ is_unmet sites.now held.now blocked.now k site asked }
{
    let Some(address) = asked else {
        return false;
    };
    if site.stage != k || site.guessed {
        return false;
    }
    match sites.writer(site.target) {
        Some(writer) => !is_met_from(writer, held, blocked, address, k + 1, sites.stages()),
        None => false,
    }
}

// Whether stage k waits: some read of its instruction isn't met.
fn waits(sites: &Sites, held: &Pipeline, blocked: &[bool; 13], k: usize) -> bool
    requires hold { length held.now.hold ≡ 12 }
    requires recorded { sites.now.stages ≤ length held.now.recorded }
    requires few { sites.now.stages ≤ 12 }
    requires stage { k < sites.now.stages }
    ensures { result ≡ waits_by sites.now held.now blocked.now k }
{
    held.is_full(k) && some_unmet(sites, held, blocked, k)
}

#[tactic(auto, using(crate::proofs::Stepping::reads_next))]
fn some_unmet(sites: &Sites, held: &Pipeline, blocked: &[bool; 13], k: usize) -> bool
    requires hold { length held.now.hold ≡ 12 }
    requires recorded { sites.now.stages ≤ length held.now.recorded }
    requires few { sites.now.stages ≤ 12 }
    requires stage { k < sites.now.stages }
    ensures { result ≡ some_unmet_from sites.now held.now blocked.now k 0 sites.now.reads }
{
    let recorded = held.recorded(k);
    let reads = sites.reads();
    for i in 0..reads.len() {
        if is_unmet(sites, held, blocked, k, reads[i], recorded.read(i)) {
            return true;
        }
    }
    false
}

/// Which stages wait and which are blocked under a stall word with bit k for stage k, decided from the last stage down.
#[tactic(auto, using(crate::proofs::Stepping::found_next))]
pub(crate) fn find(sites: &Sites, held: &Pipeline, ext: u16) -> Found
    requires hold { length held.now.hold ≡ 12 }
    requires recorded { sites.now.stages ≤ length held.now.recorded }
    requires few { sites.now.stages ≤ 12 }
    ensures { result ≡ found_down sites.now held.now ext sites.now.stages no_stage_found }
{
    let mut waits_in = [false; 12];
    let mut blocked = [false; 13];
    let mut k = sites.stages();
    while k > 0 {
        k -= 1;
        let is_waiting = waits(sites, held, &blocked, k);
        waits_in[k] = is_waiting;
        blocked[k] = is_blocked(held, ext, &blocked, k, is_waiting);
    }
    Found {
        waits: waits_in,
        blocked,
    }
}

// Whether stage k is blocked: it contains an instruction, and waits, is stalled from outside, or the next stage is blocked.
fn is_blocked(held: &Pipeline, ext: u16, blocked: &[bool; 13], k: usize, is_waiting: bool) -> bool
    requires hold { length held.now.hold ≡ 12 }
    requires stage { k < 12 }
    ensures { result ≡ is_blocked_by held.now ext blocked.now k is_waiting }
{
    held.is_full(k) && (is_waiting || is_set(ext, k) || blocked[k + 1])
}

impl Found {
    /// Whether a stage moves its instruction on: it contains one and isn't blocked.
    pub fn moves(&self, held: &Pipeline, k: usize) -> bool
        requires hold { length held.now.hold ≡ 12 }
        requires stage { k < 12 }
        ensures { result ≡ moves_by held.now self.now.blocked k }
    {
        held.is_full(k) && !self.blocked[k]
    }
}

/// Moves the instructions on, from the last stage down: each stage receives the instruction of the one before it if that one moves on, keeps its own
/// if it is blocked, and is empty otherwise. Stage 0 is left unchanged.
#[tactic(auto, using(crate::proofs::Moving::taken_count, crate::proofs::Stepping::taken_next))]
pub(crate) fn move_on(held: &mut Pipeline, blocked: &[bool; 13], stages: usize)
    requires hold { length held.old.hold ≡ 12 }
    requires recorded { stages ≤ length held.old.recorded }
    requires few { stages ≤ 12 }
    ensures { held.new ≡ taken_down blocked.now (stages - 1) held.old }
{
    let mut k = stages;
    while k > 1 {
        k -= 1;
        move_into(held, blocked, k);
    }
}

// Stage k receives the instruction of the one before it, keeps its own, or becomes empty.
fn move_into(held: &mut Pipeline, blocked: &[bool; 13], k: usize)
    requires hold { length held.old.hold ≡ 12 }
    requires recorded { k < length held.old.recorded }
    requires some { 1 ≤ k }
    requires few { k < 12 }
    ensures { held.new ≡ taken_by blocked.now held.old (k - 1) }
{
    if held.is_full(k - 1) && !blocked[k - 1] {
        held.hold[k] = held.hold[k - 1];
        held.flights.as_mut_slice().swap(k - 1, k);
    } else if !blocked[k] {
        held.hold[k] = None;
    }
}
