// The line that reports a comparison.
ghost use Rattle.std.specs.Prelude.{◌≡◌, ◌+◌, ◌<◌, ◌≤◌, ◌++◌, ◌∷◌, [], length, map, get_or, codes, decimal, IfOk};
ghost use Rattle.kp_equiv.specs.{Named.file_names, Named.HasNames, Verdicts.IsComparable, Verdicts.IsVerdict, Texts.root_name, Texts.verdict_line};
ghost use Rattle.kp_equiv.specs.Agreement.{Ports, File, Full, Ue, Back, root, IsFirstDifference};
ghost use Rattle.kp_equiv.specs.Sections.{behind_regs};

use crate::comparison::only_in_second;
use crate::names::Names;
use crate::namesakes::{file_at, reg_at};
use crate::roots::{file_count, reg_count, root_count};
use crate::verdict::Verdict;
use itoa::Buffer;
use kp_base::NoMemory;
use kp_net::Netlist;
use std::alloc::Global;

/// The line of a verdict on two netlists, with its line feed: `same roots 6` with the number of roots, or `not shown equal r_X` with the name of the
/// first root that doesn't agree. A register and a file are named as in Verilog.
///
/// The netlists have the same files with the same widths, and in each of them no two registers, files or sample ports have the same name. The only
/// error is out of memory.
pub fn verdict_line(
    alloc: Global,
    a: &Netlist,
    b: &Netlist,
    verdict: Verdict,
) -> Result<Vec<u8>, NoMemory>
    requires comparable { IsComparable a.now b.now }
    requires verdict { IsVerdict a.now b.now verdict }
    ensures { IfOk result (λ line. line.items ≡ verdict_line a.now b.now verdict) }
{
    match verdict {
        Verdict::Same => same_line(alloc, root_count(a)),
        Verdict::Differs(root) => {
            let name = name_of(alloc, a, b, root as usize)?;
            different_line(alloc, name)
        }
    }
}

fn same_line(alloc: Global, roots: usize) -> Result<Vec<u8>, NoMemory>
    ensures { IfOk result (λ line. line.items ≡ codes "same roots " ++ decimal roots ++ codes "\n") }
{
    let mut digits = Buffer::new();
    let mut line = Vec::new(alloc);
    line.extend_from_slice(b"same roots ")?;
    line.extend_from_slice(digits.format(roots).as_bytes())?;
    line.extend_from_slice(b"\n")?;
    Ok(line)
}

fn different_line(alloc: Global, name: &[u8]) -> Result<Vec<u8>, NoMemory>
    ensures { IfOk result (λ line. line.items ≡ codes "not shown equal " ++ name.now ++ codes "\n") }
{
    let mut line = Vec::new(alloc);
    line.extend_from_slice(b"not shown equal ")?;
    line.extend_from_slice(name)?;
    line.extend_from_slice(b"\n")?;
    Ok(line)
}

// The name of the first root that doesn't agree.
fn name_of<'m>(
    alloc: Global,
    a: &'m Netlist,
    b: &'m Netlist,
    number: usize,
) -> Result<&'m [u8], NoMemory>
    requires names { HasNames a.now }
    requires first { IsFirstDifference a.now b.now number }
    ensures { IfOk result (λ name. name.now ≡ root_name (root a.now b.now number)) }
{
    if number == 0 {
        return Ok(ports_name());
    }
    let place = number - 1;
    let regs = reg_count(a);
    if place < regs {
        return Ok(reg_at(a, place).name.bytes());
    }
    let known = Names::of_regs(alloc, a.parts().regs.as_slice())?;
    match only_in_second(b, &known) {
        Some(i) => Ok(reg_at(b, i).name.bytes()),
        None => Ok(name_behind(a, place - regs)),
    }
}

fn ports_name() -> &'static [u8]
    ensures { result.now ≡ root_name Ports }
{
    b"ports"
}

// The name of a root after those of the registers.
fn name_behind(a: &Netlist, place: usize) -> &[u8]
    requires { place < length a.now.parts.files + 3 }
    ensures { result.now ≡ root_name (get_or (behind_regs a.now) place Ports) }
{
    let files = file_count(a);
    if place < files {
        file_at(a, place).name.bytes()
    } else {
        output_name(place - files)
    }
}

fn output_name(place: usize) -> &'static [u8]
    requires { place < 3 }
    ensures { result.now ≡ root_name (get_or (Full ∷ Ue ∷ Back ∷ []) place Ports) }
{
    match place {
        0 => b"full",
        1 => b"ue",
        _ => b"back",
    }
}
