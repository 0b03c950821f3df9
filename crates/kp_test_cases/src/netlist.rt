//! Cases of netlists: synthesises a job, and runs its netlist.
ghost use Rattle.std.specs.Prelude.{◌≤◌, length, IfOk};
ghost use Rattle.kp_cycle.specs.Steps.{ShowsRows};
ghost use Rattle.kp_frontend.specs.Judging.{most_bytes};

use crate::cycles::add_cycles;
use crate::head::number;
use crate::report::{Report, Term};
use kp_base::NoMemory;
use kp_frontend::{Accepted, judge};
use kp_image::laws::a_start_state_fits;
use kp_net::Netlist;
use kp_synth::synth;
use std::alloc::Global;

/// The greatest length of the text of a job, in bytes.
const MOST: usize = 16_777_216;

/// Appends the line of each of the first cycles of the job's netlist, and then its last state, or the number of its nodes if the word is `nodes`.
pub fn add_netlist(report: &mut Report, alloc: Global, word: &[u8], text: &[u8]) {
    match accepted(alloc, text) {
        Some(job) => add_job(report, alloc, word, &job),
        None => report.add(&[Term::Text(b"refused\n")]),
    }
}

fn accepted(alloc: Global, text: &[u8]) -> Option<Accepted> {
    if text.len() > MOST {
        return None;
    }
    judge(alloc, text).ok()
}

fn add_job(report: &mut Report, alloc: Global, word: &[u8], job: &Accepted) {
    let Ok(net) = netlist(alloc, job) else {
        return report.fail();
    };
    if word == b"nodes".as_slice() {
        report.add(&[
            Term::Text(b"nodes "),
            Term::Number(net.nodes().len() as u64),
            Term::Text(b"\n"),
        ]);
    } else {
        add_cycles(report, alloc, &net, job, number(word));
    }
}

// The netlist of a job, in a form that a simulator accepts.
fn netlist(alloc: Global, job: &Accepted) -> Result<Netlist, NoMemory>
    ensures { IfOk result (λ net. ShowsRows net) }
{
    a_start_state_fits();
    let _job = job.design.job();
    synth(alloc, &job.design, &job.sections.start)
}
