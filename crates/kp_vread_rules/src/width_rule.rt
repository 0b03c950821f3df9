// Rule V4: ranges, literals and numbers fit, and the widths of what is connected agree.
ghost use Rattle.std.specs.Prelude.{◌≡◌, ◌+◌, ◌-◌, ◌^◌, ◌<◌, ◌≤◌, ◌++◌, [], length, take, None, IfOk, OnOk};
ghost use Rattle.kp_base.specs.Findings.{with_answers};
ghost use Rattle.kp_vlog.specs.{Occurrences.names as names_of, Rules.bad_name, Rules.reset_values};
ghost use Rattle.kp_vread_rules.specs.{Faults.in_text, Findings.width_findings as specified, WidthFaults.samples_asked, WidthFaults.header_asked, WidthFaults.outputs_asked, WidthFaults.inits_asked, WidthFaults.values_asked, WidthFaults.updates_asked};
ghost use Rattle.kp_vread_rules.specs.inner.{Asking.names_in, Asking.scope_in, Sizing.files_with, Sizing.items_by, Sizing.widths_by};

use crate::fault::{ModuleFault, placed};
use crate::names::Names;
use crate::sizes::Sizes;
use crate::width_fault::{
    Asked, wrong_back, wrong_init, wrong_item, wrong_sample, wrong_stall, wrong_update, wrong_value,
};
use kp_base::{Finding, Findings, NoMemory};
use kp_vlog::{Init, Item, ResetList, ResetValue, Update, VModule, VPort};
use std::alloc::Global;

/// The ways in which a module with correct names violates the rule, up to this number. The only error is out of memory.
pub(crate) fn width_findings(
    alloc: Global,
    text: &[u8],
    whole: &VModule,
    names: &Names<'_>,
    most: usize,
) -> Result<Findings<Finding<ModuleFault>>, NoMemory>
    requires text { length text.now ≤ 2 ^ 32 - 2 }
    requires list { names.now ≡ names_of whole.now }
    requires names { bad_name [] (names_of whole.now) ≡ None }
    ensures { IfOk result (λ f. f.found ≡ take most (specified text.now whole.now)) }
{
    let sizes = Sizes::new(alloc, whole)?;
    let asked = Asked {
        names: names.list(),
        sizes: &sizes,
    };
    let mut findings = Findings::new(alloc, most);
    note_widths(text, &asked, whole, &mut findings)?;
    Ok(findings)
}

fn note_widths<'m>(
    text: &[u8],
    asked: &Asked<'_, 'm>,
    whole: &'m VModule,
    findings: &mut Findings<Finding<ModuleFault>>,
) -> Result<(), NoMemory>
    requires { length text.now ≤ 2 ^ 32 - 2 }
    ensures { OnOk result (findings.new ≡ with_answers findings.old (in_text text.now (widths_by asked.now.sizes.now (names_in asked.now) whole.now))) }
{
    note_header(text, whole, findings)?;
    note_items(text, asked, whole.items.as_slice(), findings)?;
    note_inits(text, asked, whole.inits.as_slice(), findings)?;
    note_reset(text, asked, &whole.reset, findings)?;
    note_updates(text, asked, whole.updates.as_slice(), findings)
}

// Ports.
fn note_header(
    text: &[u8],
    whole: &VModule,
    findings: &mut Findings<Finding<ModuleFault>>,
) -> Result<(), NoMemory>
    requires { length text.now ≤ 2 ^ 32 - 2 }
    ensures { OnOk result (findings.new ≡ with_answers findings.old (in_text text.now (header_asked whole.now))) }
{
    findings.note(placed(text, wrong_stall(&whole.ext)))?;
    note_samples(text, whole.samples.as_slice(), findings)?;
    note_outputs(text, whole, findings)
}

fn note_outputs(
    text: &[u8],
    whole: &VModule,
    findings: &mut Findings<Finding<ModuleFault>>,
) -> Result<(), NoMemory>
    requires { length text.now ≤ 2 ^ 32 - 2 }
    ensures { OnOk result (findings.new ≡ with_answers findings.old (in_text text.now (outputs_asked whole.now))) }
{
    findings.note(placed(text, wrong_stall(&whole.full)))?;
    findings.note(placed(text, wrong_stall(&whole.ue)))?;
    findings.note(placed(text, wrong_back(&whole.back)))
}

#[tactic(auto, using(crate::proofs::Noting::full))]
fn note_samples(
    text: &[u8],
    ports: &[VPort],
    findings: &mut Findings<Finding<ModuleFault>>,
) -> Result<(), NoMemory>
    requires { length text.now ≤ 2 ^ 32 - 2 }
    ensures { OnOk result (findings.new ≡ with_answers findings.old (in_text text.now (samples_asked ports.now))) }
{
    for port in ports {
        if findings.is_full() {
            return Ok(());
        }
        findings.note(placed(text, wrong_sample(port)))?;
    }
    Ok(())
}

// The lines before `initial`.
#[tactic(auto, using(crate::proofs::Noting::full))]
fn note_items<'m>(
    text: &[u8],
    asked: &Asked<'_, 'm>,
    items: &'m [Item],
    findings: &mut Findings<Finding<ModuleFault>>,
) -> Result<(), NoMemory>
    requires { length text.now ≤ 2 ^ 32 - 2 }
    ensures { OnOk result (findings.new ≡ with_answers findings.old (in_text text.now (items_by asked.now.sizes.now (names_in asked.now) 0 items.now))) }
{
    let mut files = 0;
    for item in items {
        if findings.is_full() {
            return Ok(());
        }
        findings.note(placed(text, wrong_item(asked, files, item)))?;
        files = count_file(files, item);
    }
    Ok(())
}

// How many files come before the next item.
fn count_file(files: usize, item: &Item) -> usize
    requires { files < 2 ^ 64 - 1 }
    ensures { result ≡ files_with files item.now }
{
    match item {
        Item::File(_, _, _) => files + 1,
        _ => files,
    }
}

// Start values.
#[tactic(auto, using(crate::proofs::Noting::full))]
fn note_inits<'m>(
    text: &[u8],
    asked: &Asked<'_, 'm>,
    inits: &'m [Init],
    findings: &mut Findings<Finding<ModuleFault>>,
) -> Result<(), NoMemory>
    requires { length text.now ≤ 2 ^ 32 - 2 }
    ensures { OnOk result (findings.new ≡ with_answers findings.old (in_text text.now (inits_asked (scope_in asked.now) (names_in asked.now) inits.now))) }
{
    for init in inits {
        if findings.is_full() {
            return Ok(());
        }
        findings.note(placed(text, wrong_init(asked, init)))?;
    }
    Ok(())
}

// The reset list.
#[tactic(auto, using(crate::proofs::Noting::full))]
fn note_reset<'m>(
    text: &[u8],
    asked: &Asked<'_, 'm>,
    reset: &'m Option<ResetList>,
    findings: &mut Findings<Finding<ModuleFault>>,
) -> Result<(), NoMemory>
    requires { length text.now ≤ 2 ^ 32 - 2 }
    ensures { OnOk result (findings.new ≡ with_answers findings.old (in_text text.now (values_asked (scope_in asked.now) (names_in asked.now) (reset_values reset.now)))) }
{
    match reset {
        Some(list) => note_values(text, asked, list.values.as_slice(), findings),
        None => Ok(()),
    }
}

#[tactic(auto, using(crate::proofs::Noting::full))]
fn note_values<'m>(
    text: &[u8],
    asked: &Asked<'_, 'm>,
    values: &'m [ResetValue],
    findings: &mut Findings<Finding<ModuleFault>>,
) -> Result<(), NoMemory>
    requires { length text.now ≤ 2 ^ 32 - 2 }
    ensures { OnOk result (findings.new ≡ with_answers findings.old (in_text text.now (values_asked (scope_in asked.now) (names_in asked.now) values.now))) }
{
    for value in values {
        if findings.is_full() {
            return Ok(());
        }
        findings.note(placed(text, wrong_value(asked, value)))?;
    }
    Ok(())
}

// Updates.
#[tactic(auto, using(crate::proofs::Noting::full))]
fn note_updates<'m>(
    text: &[u8],
    asked: &Asked<'_, 'm>,
    updates: &'m [Update],
    findings: &mut Findings<Finding<ModuleFault>>,
) -> Result<(), NoMemory>
    requires { length text.now ≤ 2 ^ 32 - 2 }
    ensures { OnOk result (findings.new ≡ with_answers findings.old (in_text text.now (updates_asked (scope_in asked.now) (names_in asked.now) updates.now))) }
{
    for update in updates {
        if findings.is_full() {
            return Ok(());
        }
        findings.note(placed(text, wrong_update(asked, update)))?;
    }
    Ok(())
}
