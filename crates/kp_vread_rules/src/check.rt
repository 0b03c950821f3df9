// The rules V3 to V5 of a module.
ghost use Rattle.std.specs.Prelude.{◌≡◌, ◌≤◌, ◌-◌, ◌^◌, ◌||◌, nat_le, length, take, None, IfOk, MatchResult};
ghost use Rattle.kp_vlog.specs.Occurrences.{names as names_of};
ghost use Rattle.kp_vlog.specs.Rules.{broken};
ghost use Rattle.kp_vread_rules.specs.{Broken.IsBroken, Findings.module_findings};

use crate::driver_rule::driver_findings;
use crate::fault::{ModuleFault, refusal_of};
use crate::name_rule::name_findings;
use crate::names::Names;
use crate::width_rule::width_findings;
use kp_base::{Finding, Findings, NoMemory, Refused};
use kp_vlog::VModule;
use std::alloc::Global;

/// Checks that a module of the text violates none of the rules V3 to V5.
///
/// Errors: the first of V3, V4 and V5 that it violates, at the first position in the text where it does; and out of memory. Positions are counted
/// from the start of the text.
pub fn check_module(alloc: Global, text: &[u8], whole: &VModule) -> Result<(), Refused>
    requires { length text.now ≤ 2 ^ 32 - 2 }
    ensures { MatchResult result (λ _. broken whole.now ≡ None) (IsBroken text.now whole.now) }
{
    let findings = module_findings(alloc, text, whole, 1)?;
    match findings.as_slice() {
        [first, ..] => Err(Refused::Rule(refusal_of(*first))),
        [] => Ok(()),
    }
}

/// The ways in which a module of the text violates the rules V3 to V5, up to this number. The first of them is the verdict.
///
/// The only error is out of memory.
pub fn module_findings(
    alloc: Global,
    text: &[u8],
    whole: &VModule,
    most: usize,
) -> Result<Findings<Finding<ModuleFault>>, NoMemory>
    requires { length text.now ≤ 2 ^ 32 - 2 }
    ensures { IfOk result (λ f. f.found ≡ take most (module_findings text.now whole.now)) }
{
    let names = Names::new(alloc, whole)?;
    findings_of(alloc, text, whole, &names, most)
}

// Those of a module with these names.
fn findings_of(
    alloc: Global,
    text: &[u8],
    whole: &VModule,
    names: &Names<'_>,
    most: usize,
) -> Result<Findings<Finding<ModuleFault>>, NoMemory>
    requires text { length text.now ≤ 2 ^ 32 - 2 }
    requires names { names.now ≡ names_of whole.now }
    ensures { IfOk result (λ f. f.found ≡ take most (module_findings text.now whole.now)) }
{
    let of_names = name_findings(alloc, text, names, most)?;
    if ends(&of_names, most) {
        return Ok(of_names);
    }
    let of_widths = width_findings(alloc, text, whole, names, most)?;
    if ends(&of_widths, most) {
        return Ok(of_widths);
    }
    driver_findings(alloc, text, whole, names, most)
}

// Whether no other rule is checked after these findings, of which there are up to this number.
fn ends(findings: &Findings<Finding<ModuleFault>>, most: usize) -> bool
    ensures { result ≡ (nat_le most (length findings.now.found) || nat_le 1 (length findings.now.found)) }
{
    let count = findings.as_slice().len();
    most <= count || 1 <= count
}
