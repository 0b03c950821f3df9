// `pipe`: the pipelined machine of a job, as Verilog.
ghost use Rattle.std.specs.Prelude.{IfOk};
ghost use Rattle.kp_words.specs.declared.commands.JobCommand.TheVariants.{Pipe};
ghost use Rattle.kp_vlog.specs.Canon.{canon};
ghost use Rattle.kp_tool.specs.{Due.DueOfJob, Written.IsVerilogOf, Ends.Ends};

use crate::failure::Failure;
use crate::outcome::{Outcome, finish};
use kp_base::{NoMemory, Sink, SinkFault};
use kp_frontend::Accepted;
use kp_net::Netlist;
use kp_synth::synth;
use kp_vlog::round_trip::a_canonical_text_denotes_its_netlist;
use kp_vwrite::write_verilog;
use std::alloc::Global;

/// `pipe`: synthesises the pipelined machine of a job, and writes its netlist as a Verilog module.
pub fn pipe<K: Sink>(alloc: Global, job: &Accepted, sink: &mut K) -> Result<u8, Failure>
    ensures { Ends K.held K.faults ⊥ (DueOfJob Pipe job.now.design.job) sink.old sink.new result }
{
    let net = pipelined(alloc, job)?;
    finish(net, sink)
}

// The netlist of the job's pipelined machine, whose canonical text denotes it. The only error is out of memory.
#[tactic(auto, using(crate::proofs::Registers::one_for_each_key))]
fn pipelined(alloc: Global, job: &Accepted) -> Result<Netlist, NoMemory>
    ensures { IfOk result (λ net. IsVerilogOf job.now.design.job (canon net)) }
{
    // The invariant of the type, for the proof only.
    let _kept = job.design.job();
    a_canonical_text_denotes_its_netlist();
    let net = synth(alloc, &job.design, &job.sections.start)?;
    // The invariant of the netlist.
    let _parts = net.parts();
    Ok(net)
}

impl Outcome for Netlist {
    ghost status = { λ _. 0 };

    ghost text = { λ net. canon net };

    fn write<K: Sink>(self, sink: &mut K) -> Result<u8, SinkFault> {
        write_verilog(&self, sink)?;
        Ok(0)
    }
}
