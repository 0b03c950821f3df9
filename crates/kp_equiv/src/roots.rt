// The roots of two netlists, counted, and those that are not compared by name.
ghost use Rattle.std.specs.Prelude.{◌≡◌, ◌<◌, ◌≤◌, ◌∷◌, [], length, map, None, IfSome};
ghost use Rattle.kp_net.specs.Netlist.{Net};
ghost use Rattle.kp_equiv.specs.{Classes.Determines, Named.reg_names, Sections.FirstNew, Sections.FirstOf};
ghost use Rattle.kp_equiv.specs.Agreement.{Register, Full, Ue, Back, names_of_second, roots, AllAgree};

use crate::classes::Classes;
use kp_net::Netlist;

/// The number of registers of a netlist.
pub fn reg_count(net: &Netlist) -> usize
    ensures value { result ≡ length net.now.parts.regs }
    ensures few { result ≤ 16777216 }
{
    net.parts().regs.as_slice().len()
}

/// The number of files of a netlist.
pub fn file_count(net: &Netlist) -> usize
    ensures value { result ≡ length net.now.parts.files }
    ensures few { result ≤ 16 }
{
    net.parts().files.as_slice().len()
}

/// The number of roots that a netlist has with any other one with which all of them agree.
pub fn root_count(net: &Netlist) -> usize
    ensures { (other : Net) → AllAgree net.now other → result ≡ length (roots net.now other) }
{
    reg_count(net) + file_count(net) + 4
}

/// The first root that doesn't agree among the registers that only the second of two netlists has, counted from 0. `found` is the result of a search
/// for the first such register. None of them ever agrees.
pub fn first_of_second(found: Option<usize>) -> Option<usize>
    ensures first { (a b : Net) → FirstNew (reg_names a) b found → FirstOf a b (map Register (names_of_second a b)) result }
    ensures none { (a b : Net) → FirstNew (reg_names a) b found → result ≡ None → length (names_of_second a b) ≡ 0 }
    ensures small { IfSome result (λ n. n ≡ 0) }
{
    match found {
        Some(_) => Some(0),
        None => None,
    }
}

/// The first output of two netlists that doesn't agree, given exact classes.
pub fn first_output(a: &Netlist, b: &Netlist, classes: &Classes) -> Option<usize>
    requires determines { Determines a.now b.now classes.now.first.items classes.now.second.items }
    ensures first { FirstOf a.now b.now (Full ∷ Ue ∷ Back ∷ []) result }
    ensures small { IfSome result (λ n. n < 3) }
{
    let (p, q) = (a.parts(), b.parts());
    if !classes.alike(a, b, p.full, q.full) {
        Some(0)
    } else if !classes.alike(a, b, p.ue, q.ue) {
        Some(1)
    } else if !classes.alike(a, b, p.back, q.back) {
        Some(2)
    } else {
        None
    }
}
