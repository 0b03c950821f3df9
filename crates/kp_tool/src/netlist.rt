// The netlist of a Verilog module after a job.
ghost use Rattle.std.specs.Prelude.{◌≤◌, length, MatchResult, Ok};
ghost use Rattle.kp_tool.specs.{Compared.ReadsModule, inner.Modules.RefusesModule, inner.Modules.MisreadsModule};

use crate::failure::Failure;
use kp_base::Refused;
use kp_net::Netlist;
use kp_stage::Design;
use kp_vread::{first_mismatch, read_verilog};
use std::alloc::Global;

/// The netlist of the module that starts at an offset of a text, if it is one of the job. A violated rule is the first of V1 to V6.
pub fn netlist_of(
    alloc: Global,
    text: &[u8],
    from: u32,
    design: &Design,
) -> Result<Netlist, Failure>
    requires short { length text.now ≤ 16777216 }
    requires within { from ≤ length text.now }
    ensures { MatchResult result (λ net. ReadsModule design.now.job text.now from (Ok net))
        (λ failure. MisreadsModule design.now.job text.now from failure) }
{
    match module_of(alloc, text, from, design) {
        Ok(net) => Ok(net),
        Err(refused) => Err(Failure::misread(refused)),
    }
}

// The same, where a violated rule isn't yet known as one of Verilog.
fn module_of(alloc: Global, text: &[u8], from: u32, design: &Design) -> Result<Netlist, Refused>
    requires short { length text.now ≤ 16777216 }
    requires within { from ≤ length text.now }
    ensures { MatchResult result (λ net. ReadsModule design.now.job text.now from (Ok net))
        (λ refused. RefusesModule design.now.job text.now from refused) }
{
    let net = read_verilog(alloc, text, from)?;
    match first_mismatch(&net, design) {
        None => Ok(net),
        Some(mismatch) => Err(Refused::Rule(mismatch.refusal())),
    }
}
