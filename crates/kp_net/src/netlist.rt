// Netlists: nodes and the ports, registers, files and outputs around them.
ghost use Rattle.std.specs.Prelude.{◌≡◌};
ghost use Rattle.kp_net.specs.Netlist.{Net};
ghost use Rattle.kp_net.specs.Parts.{NetOk};

use crate::label::Label;
use crate::node::{Node, NodeId};
use kp_base::List;
use kp_bits::Bits;
use std::marker::Model;

/// An input port other than the stall word. Its values have `width` bits.
#[derive(Drop)]
pub struct Port {
    pub name: Label,
    pub width: u8,
}

/// A register: its start value, and the node whose value it latches at the end of each cycle.
#[derive(Drop)]
pub struct NetReg {
    pub name: Label,
    pub start: Bits,
    pub next: NodeId,
}

/// The write port of a file: at the end of a cycle in which `enable` is 1, the word at `address` becomes `value`.
#[derive(Clone, Copy)]
pub struct WritePort {
    pub enable: NodeId,
    pub address: NodeId,
    pub value: NodeId,
}

/// A file of 2^`address_width` words of `width` bits, with its initial words.
#[derive(Drop)]
pub struct NetFile {
    pub name: Label,
    pub width: u8,
    pub address_width: u8,
    pub words: List<u64>,
    pub port: Option<WritePort>,
}

/// All parts of a netlist other than its nodes.
pub struct Parts {
    pub name: Label,
    /// The width of the stall word.
    pub ext: u8,
    /// Whether the netlist has a reset, which sets each register to its start value.
    pub reset: bool,
    pub samples: List<Port>,
    pub regs: List<NetReg>,
    pub files: List<NetFile>,
    /// The output `full`: the stages that hold an instruction.
    pub full: NodeId,
    /// The output `ue`: the stages that update.
    pub ue: NodeId,
    /// The output `back`: the stage of a wrong guess.
    pub back: NodeId,
}

impl Drop for Parts {
    fn drop(self) {
        let Parts {
            name,
            ext: _,
            reset: _,
            samples,
            regs,
            files,
            full: _,
            ue: _,
            back: _,
        } = self;
        drop(name);
        drop(samples);
        drop(regs);
        drop(files);
    }
}

/// A netlist: operands precede the nodes that use them, widths fit, and each reference is to an existing part.
pub struct Netlist {
    nodes: Vec<Node>,
    parts: Parts,
}

impl Drop for Netlist {
    fn drop(self) {
        let Netlist { nodes, parts } = self;
        drop(nodes);
        drop(parts);
    }
}

impl Model for Netlist {
    ghost use Rattle.kp_net.specs.Netlist.{Net};
    ghost use Rattle.kp_net.specs.Parts.{NetOk};

    ghost Value = { Net };

    ghost view = { λ n. record { nodes = n.nodes.items; parts = n.parts } };

    ghost invariant = { λ n. NetOk (record { nodes = n.nodes.items; parts = n.parts }) };
}

impl Netlist {
    /// The netlist of these nodes, in this order, with these parts. Allocates nothing.
    pub fn from_nodes(nodes: Vec<Node>, parts: Parts) -> Netlist
        requires { NetOk (record { nodes = nodes.items; parts = parts }) }
        ensures { result ≡ record { nodes = nodes.items; parts = parts } }
    {
        Netlist { nodes, parts }
    }

    /// The nodes, indexed by their numbers.
    pub fn nodes(&self) -> &[Node]
        ensures nodes { result.now ≡ self.now.nodes }
        ensures right { NetOk self.now }
    {
        self.nodes.as_slice()
    }

    /// All parts other than the nodes.
    pub fn parts(&self) -> &Parts
        ensures parts { result.now ≡ self.now.parts }
        ensures right { NetOk self.now }
    {
        &self.parts
    }
}
