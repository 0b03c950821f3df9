//! Nodes as text, and their depths.
use crate::operations::name_of;
use crate::report::{Report, Term};
use kp_net::{Kind, Node, NodeId};

/// The most nodes of a circuit.
pub const ROOM: u32 = 256;

/// Appends the line of a node: its name, number, width, depth and kind.
pub fn add_node(report: &mut Report, nodes: &[Node], name: &[u8], id: NodeId) {
    let Some(node) = nodes.get(id.0 as usize) else {
        return;
    };
    report.add(&[
        Term::Text(name),
        Term::Text(b" = "),
        Term::Number(u64::from(id.0)),
        Term::Text(b", width "),
        Term::Number(u64::from(node.width)),
        Term::Text(b", depth "),
        Term::Number(u64::from(depth(nodes, id))),
        Term::Text(b": "),
    ]);
    add_kind(report, &node.kind);
    report.add(&[Term::Text(b"\n")]);
}

// Appends the kind of a node: its operation with its numbers, including those of nodes.
fn add_kind(report: &mut Report, kind: &Kind) {
    match kind {
        Kind::Const(value) => add_numbers(report, b"const", &[*value]),
        Kind::Ext => add_numbers(report, b"ext", &[]),
        Kind::Sample(port) => add_numbers(report, b"sample", &[u64::from(*port)]),
        Kind::Reg(reg) => add_numbers(report, b"reg", &[u64::from(*reg)]),
        Kind::Word(file, a) => add_numbers(report, b"file", &[u64::from(*file), u64::from(a.0)]),
        Kind::Not(a) => add_nodes(report, b"not", &[*a]),
        Kind::Binary(op, a, b) => add_nodes(report, name_of(*op), &[*a, *b]),
        Kind::Mux(test, yes, no) => add_nodes(report, b"mux", &[*test, *yes, *no]),
        Kind::Concat(parts) => add_nodes(report, b"join", parts.nodes()),
        Kind::Slice(a, hi, lo) => {
            add_numbers(
                report,
                b"part",
                &[u64::from(a.0), u64::from(*hi), u64::from(*lo)],
            )
        }
    }
}

fn add_numbers(report: &mut Report, name: &[u8], numbers: &[u64]) {
    report.add(&[Term::Text(name)]);
    for number in numbers {
        report.add(&[Term::Text(b" "), Term::Number(*number)]);
    }
}

fn add_nodes(report: &mut Report, name: &[u8], nodes: &[NodeId]) {
    report.add(&[Term::Text(name)]);
    for node in nodes {
        report.add(&[Term::Text(b" "), Term::Number(u64::from(node.0))]);
    }
}

// The depth of a node.
fn depth(nodes: &[Node], id: NodeId) -> u32 {
    let mut depths = [0u32; 256];
    for i in 0..nodes.len() {
        if i < 256 {
            depths[i] = depth_of(&depths, &nodes[i].kind);
        }
    }
    at(&depths, id)
}

fn at(depths: &[u32; 256], id: NodeId) -> u32 {
    let place = id.0 as usize;
    if place < 256 { depths[place] } else { 0 }
}

// The depth of a node of this kind, from those of the nodes before it.
fn depth_of(depths: &[u32; 256], kind: &Kind) -> u32 {
    match kind {
        Kind::Const(_) | Kind::Ext | Kind::Sample(_) | Kind::Reg(_) => 0,
        Kind::Word(_, a) | Kind::Not(a) | Kind::Slice(a, _, _) => over(depths, &[*a]),
        Kind::Binary(_, a, b) => over(depths, &[*a, *b]),
        Kind::Mux(test, yes, no) => over(depths, &[*test, *yes, *no]),
        Kind::Concat(parts) => over(depths, parts.nodes()),
    }
}

// One more than the greatest depth of these operands.
fn over(depths: &[u32; 256], operands: &[NodeId]) -> u32 {
    let mut most = 0u32;
    for a in operands {
        let depth = at(depths, *a);
        if most < depth {
            most = depth;
        }
    }
    most.saturating_add(1)
}
