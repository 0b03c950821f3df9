// The explanation of a Verilog text, alone or after a job.
ghost use Rattle.std.specs.Prelude.{◌≡◌, ◌≢◌, ◌≤◌, length, drop, Bool, IfOk};
ghost use Rattle.kp_vlog.specs.Denote.{Denotes};
ghost use Rattle.kp_frontend.specs.Judging.{most_bytes};
ghost use Rattle.kp_view_explain.specs.Listing.{ListsNext};
ghost use Rattle.kp_view_explain.specs.declared.words.Subject.TheVariants as subjects;
ghost use Rattle.kp_view_explain.specs.inner.Shown.{ExplainsModule, ExplainsShown, ShowsMarked};

use crate::explanation::Explanation;
use crate::of_job::explain_head;
use kp_base::{NoMemory, Refusal, Refused};
use kp_frontend::{Head, judge_head};
use kp_net::Netlist;
use kp_view_verilog::{write_other, write_verilog};
use kp_vread::{first_mismatch, read_verilog};
use std::alloc::Global;

/// The explanation of a Verilog text that is not too long: the first rule that it violates.
#[tactic(auto, using(crate::proofs::Inputs::accepted_verilog))]
pub(crate) fn explain_verilog(
    alloc: Global,
    file: &[u8],
    text: &[u8],
) -> Result<Explanation, NoMemory>
    requires { length text.now ≤ most_bytes }
    ensures said { IfOk result (λ e. (strict : Bool) → ExplainsShown subjects.Verilog strict file.now text.now e.status e.text.items) }
    ensures low { IfOk result (λ e. (e.status ≤ 2) × (e.status ≢ 1)) }
{
    match read_verilog(alloc, text, 0) {
        Ok(net) => {
            drop(net);
            Ok(Explanation::silent(alloc))
        }
        Err(Refused::NoMemory) => Err(NoMemory),
        Err(Refused::Rule(refusal)) => Ok(misread(alloc, file, text, 0, refusal)?),
    }
}

// A Verilog text from an offset on that violates a rule.
#[tactic(auto, using(crate::proofs::Places::noted_marked))]
fn misread(
    alloc: Global,
    file: &[u8],
    text: &[u8],
    from: u32,
    refusal: Refusal,
) -> Result<Explanation, NoMemory>
    requires short { length text.now ≤ most_bytes }
    requires within { from ≤ length text.now }
    ensures status { IfOk result (λ e. e.status ≡ 2) }
    ensures shown { IfOk result (λ e. ShowsMarked file.now text.now from refusal e.text.items) }
{
    let mut facts = Vec::new(alloc);
    write_verilog(alloc, &mut facts, text, from, refusal)?;
    Ok(Explanation::refused(alloc, file, refusal, facts.as_slice())?)
}

/// The explanation of a text that is not too long: the first rule that the job at its head violates, or else the Verilog text after it.
pub(crate) fn explain_watched(
    alloc: Global,
    file: &[u8],
    text: &[u8],
) -> Result<Explanation, NoMemory>
    requires { length text.now ≤ most_bytes }
    ensures said { IfOk result (λ e. (strict : Bool) → ExplainsShown subjects.Watched strict file.now text.now e.status e.text.items) }
    ensures low { IfOk result (λ e. (e.status ≤ 2) × (e.status ≢ 1)) }
    ensures next { IfOk result (λ e. ListsNext file.now text.now e.text.items) }
{
    match judge_head(alloc, text) {
        Ok(head) => {
            let said = explain_module(alloc, file, text, &head)?;
            drop(head);
            Ok(said)
        }
        Err(Refused::NoMemory) => Err(NoMemory),
        Err(Refused::Rule(refusal)) => Ok(explain_head(alloc, file, text, refusal)?),
    }
}

// The same where the job violates no rule.
fn explain_module(
    alloc: Global,
    file: &[u8],
    text: &[u8],
    head: &Head,
) -> Result<Explanation, NoMemory>
    requires short { length text.now ≤ most_bytes }
    requires within { head.now.rest ≤ length text.now }
    ensures said { IfOk result (λ e. ExplainsModule head.now.job.design.job file.now text.now head.now.rest e.status e.text.items) }
    ensures low { IfOk result (λ e. (e.status ≤ 2) × (e.status ≢ 1)) }
{
    match read_verilog(alloc, text, head.rest) {
        Ok(net) => {
            let said = explain_netlist(alloc, file, text, head, &net)?;
            drop(net);
            Ok(said)
        }
        Err(Refused::NoMemory) => Err(NoMemory),
        Err(Refused::Rule(refusal)) => Ok(misread(alloc, file, text, head.rest, refusal)?),
    }
}

// The same where the text denotes a netlist.
#[tactic(auto, using(crate::proofs::Inputs::own_netlist))]
fn explain_netlist(
    alloc: Global,
    file: &[u8],
    text: &[u8],
    head: &Head,
    net: &Netlist,
) -> Result<Explanation, NoMemory>
    requires { Denotes head.now.rest (drop head.now.rest text.now) net.now }
    ensures said { IfOk result (λ e. ExplainsModule head.now.job.design.job file.now text.now head.now.rest e.status e.text.items) }
    ensures low { IfOk result (λ e. (e.status ≤ 2) × (e.status ≢ 1)) }
{
    match first_mismatch(net, &head.job.design) {
        None => Ok(Explanation::silent(alloc)),
        Some(mismatch) => {
            let mut facts = Vec::new(alloc);
            let job = head.job.design.job();
            write_other(alloc, &mut facts, text, net, job, mismatch)?;
            let refusal = mismatch.refusal();
            Ok(Explanation::refused(alloc, file, refusal, facts.as_slice())?)
        }
    }
}
