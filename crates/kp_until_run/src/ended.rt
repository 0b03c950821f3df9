// The end of a run.
ghost use Rattle.std.specs.Prelude.{◌≡◌, ◌≤◌, ◌+◌, ◌<◌, ◌^◌, ℕ, length, All, IfOk, Option, MatchOption};
ghost use Rattle.kp_implements.specs.Shows.{Shows};
ghost use Rattle.kp_seq.specs.Running.{state};
ghost use Rattle.kp_until.specs.Untils.{IsUntil};
ghost use Rattle.kp_until_run.specs.Ending.{retired_in, states_in, Ends};
ghost use Rattle.kp_until_run.specs.inner.Pasts.{AreNear, IsFoundAt, NoneAt, NoneBelow};
ghost use Rattle.kp_until_run.specs.inner.Races.{IsAt};

use crate::contents::Contents;
use crate::hunt::Found;
use crate::race::Race;
use kp_base::NoMemory;
use kp_frontend::Accepted;
use kp_machine::laws::a_design_is_accepted;
use kp_net::Netlist;
use kp_sched::laws::what_shows_alike_is_legal_and_moves;
use kp_until::Until;
use std::alloc::Global;

/// The end of a run: the number of the condition that holds, or none at the limit; the numbers of instructions and of cycles; and the state there.
#[derive(Drop)]
pub struct Ended<'a> {
    pub which: Option<usize>,
    pub retired: u64,
    pub cycles: u32,
    pub contents: Contents<'a>,
}

/// Runs a netlist of a job until one of the conditions holds of the sequential machine after the instructions that have retired, or for `limit` cycles.
/// All memory is allocated before the first cycle and after the last one. The only error is out of memory.
pub fn run_to<'a>(
    alloc: Global,
    job: &'a Accepted,
    net: &Netlist,
    untils: &[Until],
    limit: u32,
) -> Result<Ended<'a>, NoMemory>
    requires shows { Shows net.now job.now.design.job }
    requires untils { All (IsUntil job.now.design.job) untils.now }
    ensures job { IfOk result (λ e. e.contents.job ≡ job.now.design.job) }
    ensures few { IfOk result (λ e. e.retired < 2 ^ 32) }
    ensures ends { IfOk result (λ e. Ends job.now.design.job untils.now limit e.which e.retired e.cycles (state e.contents)) }
{
    // The invariant of the type, for the proof only.
    let _kept = job.design.job();
    a_design_is_accepted(&job.design);
    what_shows_alike_is_legal_and_moves(&job.design);
    let mut race = Race::open(alloc, job, net, limit)?;
    for cycle in 0..limit {
        if let Some(found) = race.found(job, net, untils, cycle, limit) {
            return met(alloc, job, net, untils, &race, found, cycle, limit);
        }
        race.step(job, net, cycle, limit);
    }
    match race.found(job, net, untils, limit, limit) {
        Some(found) => met(alloc, job, net, untils, &race, found, limit, limit),
        None => at_limit(alloc, job, net, untils, &race, limit),
    }
}

// The end of a run where a condition holds.
fn met<'a>(
    alloc: Global,
    job: &'a Accepted,
    net: &Netlist,
    _untils: &[Until],
    race: &Race<'_>,
    found: Found,
    cycle: u32,
    _limit: u32,
) -> Result<Ended<'a>, NoMemory>
    requires shows { Shows net.now job.now.design.job }
    requires within { cycle ≤ _limit }
    requires at { IsAt job.now.design.job net.now _limit cycle race.now }
    requires near { AreNear job.now.design.job _limit cycle }
    requires below { NoneBelow job.now.design.job (states_in job.now.design.job _limit) _untils.now (retired_in job.now.design.job cycle) }
    requires found { IsFoundAt job.now.design.job (states_in job.now.design.job _limit) _untils.now (retired_in job.now.design.job cycle) found }
    ensures job { IfOk result (λ e. e.contents.job ≡ job.now.design.job) }
    ensures few { IfOk result (λ e. e.retired < 2 ^ 32) }
    ensures ends { IfOk result (λ e. Ends job.now.design.job _untils.now _limit e.which e.retired e.cycles (state e.contents)) }
{
    // The invariant of the type, for the proof only.
    let _kept = job.design.job();
    let last = race.retired(job, net, cycle, _limit);
    let retired = last - found.back;
    let contents = Contents::of(alloc, job, &race.past, retired, net, cycle, _limit)?;
    Ok(Ended {
        which: Some(found.which),
        retired,
        cycles: race.reached[found.back as usize],
        contents,
    })
}

// The end of a run at the limit.
fn at_limit<'a>(
    alloc: Global,
    job: &'a Accepted,
    net: &Netlist,
    _untils: &[Until],
    race: &Race<'_>,
    limit: u32,
) -> Result<Ended<'a>, NoMemory>
    requires shows { Shows net.now job.now.design.job }
    requires at { IsAt job.now.design.job net.now limit limit race.now }
    requires near { AreNear job.now.design.job limit limit }
    requires below { NoneBelow job.now.design.job (states_in job.now.design.job limit) _untils.now (retired_in job.now.design.job limit) }
    requires none { NoneAt job.now.design.job (states_in job.now.design.job limit) _untils.now (retired_in job.now.design.job limit) }
    ensures job { IfOk result (λ e. e.contents.job ≡ job.now.design.job) }
    ensures few { IfOk result (λ e. e.retired < 2 ^ 32) }
    ensures ends { IfOk result (λ e. Ends job.now.design.job _untils.now limit e.which e.retired e.cycles (state e.contents)) }
{
    // The invariant of the type, for the proof only.
    let _kept = job.design.job();
    let retired = race.retired(job, net, limit, limit);
    let contents = Contents::of(alloc, job, &race.past, retired, net, limit, limit)?;
    Ok(Ended {
        which: None,
        retired,
        cycles: limit,
        contents,
    })
}
