// A sink in memory that grows.
ghost use Rattle.std.specs.Prelude.{◌≡◌, [], Some, IfOk};
ghost use Rattle.kp_vlog.specs.Canon.{canon};

use kp_base::{Failed, NoMemory, Sink};
use kp_net::Netlist;
use kp_vwrite::write_verilog;
use std::alloc::Global;

/// What was written. A write fails if there is no memory for it.
#[derive(Drop)]
struct Kept {
    bytes: Vec<u8>,
    faults: u64,
}

impl Sink for Kept {
    ghost held = { λ s. Some s.bytes.items };

    ghost faults = { λ s. s.faults };

    fn write(&mut self, piece: &[u8]) -> Result<usize, Failed> {
        match self.bytes.extend_from_slice(piece) {
            Ok(()) => Ok(piece.len()),
            Err(_) => {
                self.faults = self.faults.saturating_add(1);
                Err(Failed)
            }
        }
    }
}

/// The canonical text of a netlist. The only error is out of memory.
pub fn canonical_text(alloc: Global, net: &Netlist) -> Result<Vec<u8>, NoMemory>
    ensures { IfOk result (λ text. text.items ≡ canon net.now) }
{
    let mut kept = Kept {
        bytes: Vec::new(alloc),
        faults: 0,
    };
    match write_verilog(net, &mut kept) {
        Ok(()) => Ok(kept.bytes),
        Err(_) => Err(NoMemory),
    }
}
