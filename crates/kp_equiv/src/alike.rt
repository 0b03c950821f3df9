// The parts of two netlists other than the nodes, compared.
ghost use Rattle.std.specs.Prelude.{◌≡◌, ◌<◌, length};
ghost use Rattle.std.specs.Bool.{Decides};
ghost use Rattle.kp_net.specs.Parts.{WriteOk};
ghost use Rattle.kp_equiv.specs.{Alike.Alike, Classes.Determines, Agreement.RegsAlike, Agreement.WritesAlike, Agreement.FilesAlike, inner.Inputs.same_port};

use crate::classes::Classes;
use kp_net::{NetFile, NetReg, Netlist, Parts, Port, WritePort};

/// Whether the inputs are equal: the reset, the width of the stall word and the sample ports.
pub fn ports_agree(p: &Parts, q: &Parts) -> bool
    ensures { Decides result ((p.now.reset ≡ q.now.reset) × (p.now.ext ≡ q.now.ext) × (p.now.samples ≡ q.now.samples)) }
{
    p.reset == q.reset
        && p.ext == q.ext
        && are_same_ports(p.samples.as_slice(), q.samples.as_slice())
}

// Whether two lists have the same ports.
fn are_same_ports(xs: &[Port], ys: &[Port]) -> bool
    ensures { Decides result (xs.now ≡ ys.now) }
{
    if xs.len() != ys.len() {
        return false;
    }
    for i in 0..xs.len() {
        if !is_same_port(&xs[i], &ys[i]) {
            return false;
        }
    }
    true
}

fn is_same_port(x: &Port, y: &Port) -> bool
    ensures { result ≡ same_port x.now y.now }
{
    x.width == y.width && x.name.bytes() == y.name.bytes()
}

/// Whether two registers have the same start value and equivalent next values, given exact classes.
pub fn regs_are_alike(a: &Netlist, b: &Netlist, classes: &Classes, r: &NetReg, q: &NetReg) -> bool
    requires determines { Determines a.now b.now classes.now.first.items classes.now.second.items }
    requires in_first { r.now.next.0 < length a.now.nodes }
    requires in_second { q.now.next.0 < length b.now.nodes }
    ensures { Decides result (RegsAlike a.now b.now r.now q.now) }
{
    r.start == q.start && classes.alike(a, b, r.next, q.next)
}

/// Whether two files have the same start words and equivalent write ports, given exact classes.
pub fn files_are_alike(
    a: &Netlist,
    b: &Netlist,
    classes: &Classes,
    f: &NetFile,
    g: &NetFile,
) -> bool
    requires determines { Determines a.now b.now classes.now.first.items classes.now.second.items }
    requires in_first { WriteOk a.now.nodes f.now.width f.now.address_width f.now.port }
    requires in_second { WriteOk b.now.nodes g.now.width g.now.address_width g.now.port }
    ensures { Decides result (FilesAlike a.now b.now f.now g.now) }
{
    f.words.as_slice() == g.words.as_slice() && writes_are_alike(a, b, classes, f, g)
}

fn writes_are_alike(a: &Netlist, b: &Netlist, classes: &Classes, f: &NetFile, g: &NetFile) -> bool
    requires determines { Determines a.now b.now classes.now.first.items classes.now.second.items }
    requires in_first { WriteOk a.now.nodes f.now.width f.now.address_width f.now.port }
    requires in_second { WriteOk b.now.nodes g.now.width g.now.address_width g.now.port }
    ensures { Decides result (WritesAlike a.now b.now f.now.port g.now.port) }
{
    match &f.port {
        None => g.port.is_none(),
        Some(p) => match &g.port {
            None => false,
            Some(q) => ports_are_alike(a, b, classes, p, q),
        },
    }
}

fn ports_are_alike(
    a: &Netlist,
    b: &Netlist,
    classes: &Classes,
    p: &WritePort,
    q: &WritePort,
) -> bool
    requires determines { Determines a.now b.now classes.now.first.items classes.now.second.items }
    requires enable_in_first { p.now.enable.0 < length a.now.nodes }
    requires address_in_first { p.now.address.0 < length a.now.nodes }
    requires value_in_first { p.now.value.0 < length a.now.nodes }
    requires enable_in_second { q.now.enable.0 < length b.now.nodes }
    requires address_in_second { q.now.address.0 < length b.now.nodes }
    requires value_in_second { q.now.value.0 < length b.now.nodes }
    ensures { Decides result (Alike a.now b.now p.now.enable q.now.enable × Alike a.now b.now p.now.address q.now.address × Alike a.now b.now p.now.value q.now.value) }
{
    classes.alike(a, b, p.enable, q.enable)
        && classes.alike(a, b, p.address, q.address)
        && classes.alike(a, b, p.value, q.value)
}
