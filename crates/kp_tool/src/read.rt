// `read`: the netlist that a Verilog text denotes.
ghost use Rattle.std.specs.Prelude.{◌≤◌, length, Some};
ghost use Rattle.kp_words.specs.declared.commands.Command.TheVariants.{Read};
ghost use Rattle.kp_tool.specs.{Due.DueFor, Ends.Ends};

use crate::failure::Failure;
use crate::outcome::finish;
use kp_base::Sink;
use kp_vread::read_verilog;
use std::alloc::Global;

/// `read`: writes the canonical text of the netlist that a Verilog text denotes.
pub fn read<K: Sink>(alloc: Global, input: &[u8], sink: &mut K) -> Result<u8, Failure>
    requires { length input.now ≤ 16777216 }
    ensures { Ends K.held K.faults ⊥ (DueFor (Some Read) input.now) sink.old sink.new result }
{
    match read_verilog(alloc, input, 0) {
        Ok(net) => finish(net, sink),
        Err(refused) => Err(Failure::misread(refused)),
    }
}
