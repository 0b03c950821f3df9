// The comparison.
ghost use Rattle.std.specs.Prelude.{◌≡◌, ◌+◌, ◌^◌, ◌<◌, ◌≤◌, ◌∷◌, [], length, map, None, IfOk, IfSome};
ghost use Rattle.kp_equiv.specs.{Named.reg_names, Named.file_names, Named.HasNames, Verdicts.IsComparable, Verdicts.IsVerdict, Classes.Determines};
ghost use Rattle.kp_equiv.specs.Agreement.{Register, File, Full, Ue, Back, names_of_second};
ghost use Rattle.kp_equiv.specs.Sections.{FirstNew, FirstOf, behind_ports, joined};

use crate::alike::ports_agree;
use crate::classes::Classes;
use crate::names::Names;
use crate::namesakes::{file_agrees, reg_at, register_agrees};
use crate::node_classes::classes_of;
use crate::roots::{file_count, first_of_second, first_output, reg_count};
use crate::verdict::Verdict;
use kp_base::NoMemory;
use kp_net::Netlist;
use std::alloc::Global;

/// Whether all roots of two netlists agree, and otherwise the number of the first that doesn't.
///
/// The roots are the ports, the registers of the first netlist, those that only the second has, the files of the first, and the outputs `full`, `ue`
/// and `back`. The netlists have the same files with the same widths, and in each of them no two registers, files or sample ports have the same name.
/// Each node is visited once. The only error is out of memory.
pub fn compare(alloc: Global, a: &Netlist, b: &Netlist) -> Result<Verdict, NoMemory>
    requires { IsComparable a.now b.now }
    ensures { IfOk result (IsVerdict a.now b.now) }
{
    if !ports_agree(a.parts(), b.parts()) {
        return Ok(Verdict::Differs(0));
    }
    let first = first_behind_ports(alloc, a, b)?;
    match first {
        None => Ok(Verdict::Same),
        Some(n) => Ok(Verdict::Differs(n as u32 + 1)),
    }
}

// The first root after the ports that doesn't agree, counted from the one after the ports.
fn first_behind_ports(alloc: Global, a: &Netlist, b: &Netlist) -> Result<Option<usize>, NoMemory>
    requires first { HasNames a.now }
    requires second { HasNames b.now }
    ensures first { IfOk result (FirstOf a.now b.now (behind_ports a.now b.now)) }
    ensures small { IfOk result (λ r. IfSome r (λ n. n < 2 ^ 28)) }
{
    let classes = classes_of(alloc, a, b)?;
    first_by_classes(alloc, a, b, &classes)
}

fn first_by_classes(
    alloc: Global,
    a: &Netlist,
    b: &Netlist,
    classes: &Classes,
) -> Result<Option<usize>, NoMemory>
    requires determines { Determines a.now b.now classes.now.first.items classes.now.second.items }
    requires first { HasNames a.now }
    requires second { HasNames b.now }
    ensures first { IfOk result (FirstOf a.now b.now (behind_ports a.now b.now)) }
    ensures small { IfOk result (λ r. IfSome r (λ n. n < 2 ^ 28)) }
{
    let regs = search_registers(alloc, a, b, classes)?;
    let more = search_second(alloc, a, b)?;
    let files = search_files(alloc, a, b, classes)?;
    let outputs = first_output(a, b, classes);
    Ok(first_of_sections(a, regs, more, files, outputs))
}

// The first of all sections, from the first of each.
fn first_of_sections(
    a: &Netlist,
    regs: Option<usize>,
    more: Option<usize>,
    files: Option<usize>,
    outputs: Option<usize>,
) -> Option<usize>
    requires regs { IfSome regs (λ n. n < 16777216) }
    requires more { IfSome more (λ n. n ≡ 0) }
    requires files { IfSome files (λ n. n < 16) }
    requires outputs { IfSome outputs (λ n. n < 3) }
    ensures joined { result ≡ joined (length a.now.parts.regs) regs (joined 0 more (joined (length a.now.parts.files) files outputs)) }
    ensures small { IfSome result (λ n. n < 2 ^ 28) }
{
    let back = behind(file_count(a), files, outputs);
    let front = behind(0, more, back);
    behind(reg_count(a), regs, front)
}

// The first index that was found, in two lists of which the first has `count` entries.
fn behind(count: usize, here: Option<usize>, there: Option<usize>) -> Option<usize>
    requires count { count ≤ 16777216 }
    requires there { IfSome there (λ n. n < 2 ^ 27) }
    ensures { result ≡ joined count here there }
{
    match here {
        Some(n) => Some(n),
        None => match there {
            Some(n) => Some(count + n),
            None => None,
        },
    }
}

fn search_registers(
    alloc: Global,
    a: &Netlist,
    b: &Netlist,
    classes: &Classes,
) -> Result<Option<usize>, NoMemory>
    requires determines { Determines a.now b.now classes.now.first.items classes.now.second.items }
    requires first { HasNames a.now }
    requires second { HasNames b.now }
    ensures first { IfOk result (FirstOf a.now b.now (map Register (reg_names a.now))) }
    ensures small { IfOk result (λ r. IfSome r (λ n. n < 16777216)) }
{
    let names = Names::of_regs(alloc, b.parts().regs.as_slice())?;
    Ok(first_register(a, b, &names, classes))
}

fn first_register(a: &Netlist, b: &Netlist, regs: &Names, classes: &Classes) -> Option<usize>
    requires determines { Determines a.now b.now classes.now.first.items classes.now.second.items }
    requires names { regs.now ≡ reg_names b.now }
    requires first { HasNames a.now }
    requires second { HasNames b.now }
    ensures first { FirstOf a.now b.now (map Register (reg_names a.now)) result }
    ensures small { IfSome result (λ n. n < 16777216) }
{
    for i in 0..reg_count(a) {
        if !register_agrees(a, b, regs, classes, i) {
            return Some(i);
        }
    }
    None
}

fn search_second(alloc: Global, a: &Netlist, b: &Netlist) -> Result<Option<usize>, NoMemory>
    requires first { HasNames a.now }
    ensures first { IfOk result (FirstOf a.now b.now (map Register (names_of_second a.now b.now))) }
    ensures none { IfOk result (λ r. r ≡ None → length (names_of_second a.now b.now) ≡ 0) }
    ensures small { IfOk result (λ r. IfSome r (λ n. n ≡ 0)) }
{
    let names = Names::of_regs(alloc, a.parts().regs.as_slice())?;
    Ok(first_of_second(only_in_second(b, &names)))
}

/// The first register of a netlist whose name is not among these.
pub(crate) fn only_in_second(b: &Netlist, regs: &Names) -> Option<usize>
    ensures { FirstNew regs.now b.now result }
{
    for i in 0..reg_count(b) {
        let reg = reg_at(b, i);
        if !regs.has(&reg.name) {
            return Some(i);
        }
    }
    None
}

fn search_files(
    alloc: Global,
    a: &Netlist,
    b: &Netlist,
    classes: &Classes,
) -> Result<Option<usize>, NoMemory>
    requires determines { Determines a.now b.now classes.now.first.items classes.now.second.items }
    requires first { HasNames a.now }
    requires second { HasNames b.now }
    ensures first { IfOk result (FirstOf a.now b.now (map File (file_names a.now))) }
    ensures small { IfOk result (λ r. IfSome r (λ n. n < 16)) }
{
    let names = Names::of_files(alloc, b.parts().files.as_slice())?;
    Ok(first_file(a, b, &names, classes))
}

fn first_file(a: &Netlist, b: &Netlist, files: &Names, classes: &Classes) -> Option<usize>
    requires determines { Determines a.now b.now classes.now.first.items classes.now.second.items }
    requires names { files.now ≡ file_names b.now }
    requires first { HasNames a.now }
    requires second { HasNames b.now }
    ensures first { FirstOf a.now b.now (map File (file_names a.now)) result }
    ensures small { IfSome result (λ n. n < 16) }
{
    for i in 0..file_count(a) {
        if !file_agrees(a, b, files, classes, i) {
            return Some(i);
        }
    }
    None
}
