// `watch N`: a run of a netlist, compared with the sequential machine of its job.
ghost use Rattle.std.specs.Prelude.{◌≡◌, ◌≤◌, ◌<◌, length, IfOk, IfSome, Ok, Some};
ghost use Rattle.std.proofs.Props.{props};
ghost use Rattle.kp_base.specs.Bytes.{Writes};
ghost use Rattle.kp_base.specs.Causes.{HasCause};
ghost use Rattle.kp_machine.specs.Slots.{targets_of};
ghost use Rattle.kp_implements.specs.Shows.{HasOutputs, IsOfJob};
ghost use Rattle.kp_words.specs.declared.commands.Command.TheVariants.{Watch};
ghost use Rattle.kp_tool.specs.{Due.DueFor, Watched.DueOfHead, Watched.DueOfRun, Ends.Ends, Watching.status_by, Watching.text_by};

use crate::failure::Failure;
use crate::netlist::netlist_of;
use crate::outcome::{Outcome, finish};
use kp_base::{NoMemory, Sink, SinkFault};
use kp_frontend::{Accepted, Head, judge_head};
use kp_net::Netlist;
use kp_report::{write_board, write_difference};
use kp_run::{Board, Difference};
use kp_watch::watched;
use std::alloc::Global;

/// `watch N`: runs the netlist of a Verilog text after a job over `count` cycles, and writes the run, or the run up to its first difference from the
/// sequential machine of the job.
pub fn watch<K: Sink>(alloc: Global, count: u32, input: &[u8], sink: &mut K) -> Result<u8, Failure>
    requires { length input.now ≤ 16777216 }
    ensures { Ends K.held K.faults ⊥ (DueFor (Some (Watch count)) input.now) sink.old sink.new result }
{
    let head = judge_head(alloc, input)?;
    let end = on_text(alloc, count, &head, input, sink);
    drop(head);
    end
}

// The same for the text after a job that violates no rule.
fn on_text<K: Sink>(
    alloc: Global,
    count: u32,
    head: &Head,
    input: &[u8],
    sink: &mut K,
) -> Result<u8, Failure>
    requires short { length input.now ≤ 16777216 }
    requires within { head.now.rest ≤ length input.now }
    ensures { Ends K.held K.faults ⊥ (DueOfHead count input.now (Ok (head.now.job.design.job, head.now.rest))) sink.old sink.new result }
{
    let net = netlist_of(alloc, input, head.rest, &head.job.design)?;
    let watched = compared(alloc, count, &head.job, &net);
    drop(net);
    finish(watched?, sink)
}

// The run of a netlist, and its first difference from the sequential machine, if there is one.
#[derive(Drop)]
struct Watched<'a> {
    board: Board<'a>,
    difference: Option<Difference>,
    ghost fits: { IfSome difference (λ d. (d.cycle ≤ length board.cycles.rows.items)
        × (d.target < length (targets_of board.design.now.job.decls))) } by { Prim.hlevel props },
}

// Runs a netlist under the stall words and the samples of its job, and compares it with the sequential machine. The only error is out of memory.
#[tactic(auto, using(crate::proofs::Compared::fits))]
fn compared<'a>(
    alloc: Global,
    count: u32,
    job: &'a Accepted,
    net: &Netlist,
) -> Result<Watched<'a>, NoMemory>
    requires of_job { IsOfJob net.now job.now.design.job }
    requires outputs { HasOutputs net.now }
    ensures { IfOk result (λ w. DueOfRun count job.now.design.job net.now (status_by w.difference) (text_by w.board w.difference)) }
{
    let (board, difference) = watched(alloc, job, net, count)?;
    Ok(Watched { board, difference })
}

impl Outcome for Watched<'_> {
    ghost status = { λ w. status_by w.difference };

    ghost text = { λ w. text_by w.board w.difference };

    fn write<K: Sink>(self, sink: &mut K) -> Result<u8, SinkFault> {
        let end = self.print(sink);
        drop(self);
        end
    }
}

impl Watched<'_> {
    // Writes the complete run, or its rows up to the difference and the line of the difference, and returns the status.
    fn print<K: Sink>(&self, sink: &mut K) -> Result<u8, SinkFault>
        ensures text { Writes (K.held sink.old) (K.held sink.new) (text_by self.now.board self.now.difference) result }
        ensures status { IfOk result (λ s. s ≡ status_by self.now.difference) }
        ensures cause { HasCause (K.faults sink.old) (K.faults sink.new) result }
    {
        match &self.difference {
            None => {
                write_board(&self.board, sink)?;
                Ok(0)
            }
            Some(difference) => {
                write_difference(&self.board, difference, sink)?;
                Ok(7)
            }
        }
    }
}
