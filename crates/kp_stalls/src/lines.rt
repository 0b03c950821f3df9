//! The lines of a cycle.
ghost use Rattle.std.specs.Prelude.{◌≡◌, ◌<◌, ◌≤◌, ◌++◌, List, OnOk, length};
ghost use Rattle.kp_stalls.specs.Causes.{cause_at as cause_at_in, line_of, lines_down, squashing_cause as squashing_cause_in, waiting_cause as waiting_cause_in};
ghost use Rattle.kp_stalls.specs.Occupants.{at, occupants_of, stored};

use crate::cause::{Cause, Line};
use crate::data_hazard::value_cause;
use crate::misprediction::wrong_of;
use crate::occupants::{Occupants, Stage};
use crate::window::Window;
use kp_base::NoMemory;
use kp_sites::Sites;

/// Adds the lines of a cycle in which the stages show this. The only error is out of memory.
pub fn add_lines(
    lines: &mut Vec<Line>,
    sites: &Sites,
    cycle: usize,
    stages: &[Stage],
    window: &Window<'_>,
) -> Result<(), NoMemory>
    requires { length stages.now ≡ sites.now.stages }
    ensures { OnOk result (lines.new.items ≡ lines.old.items ++ lines_down sites.now cycle (occupants_of (stored window.now.ring) stages.now) sites.now.stages) }
{
    let occupants = Occupants {
        stages,
        ring: window.ring(),
    };
    add_all(lines, sites, cycle, &occupants)
}

// The lines of all stages, from the last one down.
#[tactic(auto, using(crate::proofs::Steps::lines_step))]
fn add_all(
    lines: &mut Vec<Line>,
    sites: &Sites,
    cycle: usize,
    occupants: &Occupants<'_>,
) -> Result<(), NoMemory>
    requires { length occupants.now ≡ sites.now.stages }
    ensures { OnOk result (lines.new.items ≡ lines.old.items ++ lines_down sites.now cycle occupants.now sites.now.stages) }
{
    let mut k = sites.stages();
    while k > 0 {
        k -= 1;
        add_line(lines, cycle, occupants, k, cause_at(sites, occupants, k))?;
    }
    Ok(())
}

fn add_line(
    lines: &mut Vec<Line>,
    cycle: usize,
    occupants: &Occupants<'_>,
    k: usize,
    cause: Option<Cause>,
) -> Result<(), NoMemory>
    ensures { OnOk result (lines.new.items ≡ lines.old.items ++ line_of cycle occupants.now k cause) }
{
    if let Some(cause) = cause {
        lines.push(Line {
            cycle,
            number: occupants.stage(k).number,
            stage: k,
            cause,
        })?;
    }
    Ok(())
}

// Why the instruction in stage k waits or is squashed, if it does or is.
fn cause_at(sites: &Sites, occupants: &Occupants<'_>, k: usize) -> Option<Cause>
    requires few { sites.now.stages ≤ length occupants.now }
    requires below { k < sites.now.stages }
    ensures { result ≡ cause_at_in sites.now occupants.now k }
{
    let stage = occupants.stage(k);
    if !stage.full {
        None
    } else if stage.squashed {
        squashing_cause(sites, occupants, k)
    } else if stage.moves {
        None
    } else {
        Some(waiting_cause(sites, occupants, k))
    }
}

fn squashing_cause(sites: &Sites, occupants: &Occupants<'_>, k: usize) -> Option<Cause>
    requires few { sites.now.stages ≤ length occupants.now }
    requires below { k < sites.now.stages }
    ensures { result ≡ squashing_cause_in sites.now occupants.now k }
{
    if occupants.next_stage(k).squashed {
        None
    } else {
        Some(Cause::Squashed(wrong_of(sites, occupants, k)))
    }
}

fn waiting_cause(sites: &Sites, occupants: &Occupants<'_>, k: usize) -> Cause
    requires few { sites.now.stages ≤ length occupants.now }
    requires below { k < sites.now.stages }
    ensures { result ≡ waiting_cause_in sites.now occupants.now k }
{
    let stage = occupants.stage(k);
    let ahead = occupants.next_stage(k);
    if stage.fate.is_squashed() {
        Cause::Later
    } else if stage.held {
        Cause::Held
    } else if ahead.full && !ahead.moves {
        Cause::Ahead
    } else {
        value_cause(sites, occupants, k)
    }
}
