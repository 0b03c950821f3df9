// The complete text.
ghost use Rattle.kp_base.specs.Bytes.{Writes};
ghost use Rattle.kp_base.specs.Causes.{HasCause};
ghost use Rattle.kp_base.specs.Writer.{Wrote};
ghost use Rattle.kp_vlog.specs.Canon.{canon};

use crate::header::{write_files, write_header, write_integer, write_regs};
use crate::nodes::{write_nodes, write_outs};
use crate::state::{write_body, write_fills, write_values};
use kp_base::{Sink, SinkFault, Writer};
use kp_net::Netlist;

fn write_whole<K: Sink>(net: &Netlist, out: &mut Writer<'_, K>)
    ensures { Wrote K.held K.faults out.old out.new (canon net.now) }
{
    let parts = net.parts();
    let regs = parts.regs.as_slice();
    let files = parts.files.as_slice();
    write_header(net, out);
    write_regs(regs, out);
    write_files(files, out);
    write_integer(files, out);
    write_nodes(parts, net.nodes(), out);
    write_outs(parts, out);
    write_values(b"    ", b" = ", regs, out);
    write_fills(files, out);
    out.put(b"  end\n  always @(posedge clk) begin\n");
    write_body(parts, out);
    out.put(b"  end\nendmodule\n")
}

/// Appends the canonical text of the netlist, or a prefix of it if the sink fails. A fault comes only from the sink. Allocates nothing.
#[tactic(auto, using(kp_base::proofs::Writing::ended_text, kp_base::proofs::Writing::ended_cause))]
pub fn write_verilog<K: Sink>(net: &Netlist, sink: &mut K) -> Result<(), SinkFault>
    ensures text { Writes (K.held sink.old) (K.held sink.new) (canon net.now) result }
    ensures cause { HasCause (K.faults sink.old) (K.faults sink.new) result }
{
    let mut out = Writer::new(sink);
    write_whole(net, &mut out);
    out.finish()
}
