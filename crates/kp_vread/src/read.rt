// Reading a text.
ghost use Rattle.std.specs.Prelude.{◌≡◌, ◌≤◌, ◌-◌, ◌^◌, None, Ok, Err, length, MatchResult};
ghost use Rattle.kp_vlog.specs.Rules.{broken};
ghost use Rattle.kp_vlog.specs.Denote.{net_of};
ghost use Rattle.kp_vlog.specs.Verdict.{AnswersNet};
ghost use Rattle.kp_vread_rules.specs.Broken.{IsBroken};
ghost use Rattle.kp_vread.specs.inner.Whole.{AnswersWhole};

use crate::build::build;
use kp_base::Refused;
use kp_net::Netlist;
use kp_vlog::{VModule, vlex};
use kp_vread_parse::vparse;
use kp_vread_rules::check_module;
use std::alloc::Global;

/// The netlist that a Verilog text denotes from an offset on. Nodes are the wires of the text in the order of their assignments; none is removed.
///
/// Errors: V1 where no token starts, else V2 at the first token at which no module can continue, else the first of V3, V4 and V5 that the module
/// violates, each at its first position; and out of memory. Positions are counted from the start of the text.
pub fn read_verilog(alloc: Global, text: &[u8], from: u32) -> Result<Netlist, Refused>
    requires within { from ≤ length text.now }
    requires fits { length text.now ≤ 16777216 }
    ensures { MatchResult result (λ net. AnswersNet text.now from (Ok net)) (λ refused. AnswersNet text.now from (Err refused)) }
{
    let whole = read_module(alloc, text, from)?;
    let netlist = checked(alloc, text, &whole);
    drop(whole);
    netlist
}

// The netlist of a module of the text, if it violates no rule.
fn checked(alloc: Global, text: &[u8], whole: &VModule) -> Result<Netlist, Refused>
    requires fits { length text.now ≤ 2 ^ 32 - 2 }
    requires samples { length whole.now.samples ≤ 16777216 }
    requires items { length whole.now.items ≤ 16777216 }
    ensures { MatchResult result (λ net. (broken whole.now ≡ None) × (net ≡ net_of whole.now)) (IsBroken text.now whole.now) }
{
    check_module(alloc, text, whole)?;
    let netlist = build(alloc, whole)?;
    Ok(netlist)
}

// The module of a text.
fn read_module(alloc: Global, text: &[u8], from: u32) -> Result<VModule, Refused>
    requires within { from ≤ length text.now }
    requires fits { length text.now ≤ 2 ^ 32 - 2 }
    ensures { MatchResult result (λ m. AnswersWhole text.now from (Ok m)) (λ refused. AnswersWhole text.now from (Err refused)) }
{
    let tokens = vlex(alloc, text, from)?;
    vparse(alloc, text, tokens.as_slice())
}
