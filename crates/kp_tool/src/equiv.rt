// `equiv`: the comparison of two netlists of a job.
ghost use Rattle.std.specs.Prelude.{◌≡◌, ◌≤◌, length, IfOk, Ok, Some};
ghost use Rattle.kp_words.specs.declared.commands.Command.TheVariants.{Compare};
ghost use Rattle.kp_equiv.specs.Verdicts.{IsComparable};
ghost use Rattle.kp_tool.specs.{Due.DueFor, Compared.DueOfPair, Compared.DueOfPairHead, Compared.verdict_status, Ends.Ends};

use crate::failure::Failure;
use crate::netlist::netlist_of;
use crate::outcome::{Outcome, finish};
use kp_base::{NoMemory, Sink, SinkFault, write_all};
use kp_equiv::{Verdict, compare, verdict_line};
use kp_frontend::{Head, judge_head};
use kp_net::Netlist;
use kp_vlog::first_module_end;
use std::alloc::Global;

/// `equiv`: compares the netlists of the two Verilog texts after a job, and writes the line of the verdict.
pub fn equiv<K: Sink>(alloc: Global, input: &[u8], sink: &mut K) -> Result<u8, Failure>
    requires { length input.now ≤ 16777216 }
    ensures { Ends K.held K.faults ⊥ (DueFor (Some Compare) input.now) sink.old sink.new result }
{
    let head = judge_head(alloc, input)?;
    let end = on_texts(alloc, &head, input, sink);
    drop(head);
    end
}

// The same for the texts after a job that violates no rule. All rules are checked on the first before any is checked on the second.
fn on_texts<K: Sink>(alloc: Global, head: &Head, input: &[u8], sink: &mut K) -> Result<u8, Failure>
    requires short { length input.now ≤ 16777216 }
    requires within { head.now.rest ≤ length input.now }
    ensures { Ends K.held K.faults ⊥ (DueOfPairHead input.now (Ok (head.now.job.design.job, head.now.rest))) sink.old sink.new result }
{
    let middle = first_module_end(input, head.rest);
    let first = netlist_of(
        alloc,
        &input[..middle as usize],
        head.rest,
        &head.job.design,
    )?;
    let second = netlist_of(alloc, input, middle, &head.job.design)?;
    let comparison = compared(alloc, &first, &second);
    drop(first);
    drop(second);
    finish(comparison?, sink)
}

// The verdict on two netlists, and the line that reports it.
#[derive(Drop)]
struct Comparison {
    verdict: Verdict,
    line: Vec<u8>,
}

// Compares two netlists. The only error is out of memory.
fn compared(alloc: Global, first: &Netlist, second: &Netlist) -> Result<Comparison, NoMemory>
    requires { IsComparable first.now second.now }
    ensures { IfOk result (λ c. DueOfPair first.now second.now (verdict_status c.verdict) c.line.items) }
{
    let verdict = compare(alloc, first, second)?;
    let line = verdict_line(alloc, first, second, verdict)?;
    Ok(Comparison { verdict, line })
}

impl Outcome for Comparison {
    ghost status = { λ c. verdict_status c.verdict };

    ghost text = { λ c. c.line.items };

    fn write<K: Sink>(self, sink: &mut K) -> Result<u8, SinkFault> {
        write_all(sink, &self.line)?;
        Ok(status_of(self.verdict))
    }
}

// 0 if all roots agree, and otherwise 7.
fn status_of(verdict: Verdict) -> u8
    ensures { result ≡ verdict_status verdict }
{
    match verdict {
        Verdict::Same => 0,
        Verdict::Differs(_) => 7,
    }
}
