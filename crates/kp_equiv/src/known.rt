// The names of a netlist, and the shapes of nodes in terms of them.
ghost use Rattle.std.specs.Prelude.{◌≡◌, ◌<◌, ◌≤◌, length, map, All, IfOk};
ghost use Rattle.kp_net.specs.Parts.{CellOk};
ghost use Rattle.kp_net.specs.Widths.{KindOk, NodeOk};
ghost use Rattle.kp_bits.specs.Operators.{commutes};
ghost use Rattle.kp_equiv.specs.{Named.HasNames, Classes.class_in};
ghost use Rattle.kp_equiv.specs.inner.Shapes.{known_of, AreFew, shape, shape_kind, least, greatest, first_of_pair, second_of_pair};

use crate::classes::class_of;
use crate::names::Names;
use kp_base::NoMemory;
use kp_bits::BinOp;
use kp_net::{Kind, Netlist, Node, NodeId, Operands};
use std::alloc::Global;
use std::marker::Model;

/// The names of a netlist's registers, files and sample ports.
pub(crate) struct Known<'m> {
    pub regs: Names<'m>,
    pub files: Names<'m>,
    pub samples: Names<'m>,
}

impl Drop for Known<'_> {
    fn drop(self) {
        let Known {
            regs,
            files,
            samples,
        } = self;
        drop(regs);
        drop(files);
        drop(samples);
    }
}

impl<'m> Model for Known<'m> {
    ghost use Rattle.kp_equiv.specs.inner.Shapes.{Known as Listed};

    ghost Value = { Listed };

    ghost view = { λ k. record { regs = k.regs; files = k.files; samples = k.samples } };
}

impl<'m> Known<'m> {
    /// The names of this netlist. The only error is out of memory.
    pub fn new(alloc: Global, net: &'m Netlist) -> Result<Known<'m>, NoMemory>
        requires { HasNames net.now }
        ensures known { IfOk result (λ k. k ≡ known_of net.now) }
        ensures few { IfOk result AreFew }
    {
        let parts = net.parts();
        let regs = Names::of_regs(alloc, parts.regs.as_slice())?;
        let files = Names::of_files(alloc, parts.files.as_slice())?;
        let samples = Names::of_samples(alloc, parts.samples.as_slice())?;
        Ok(Known {
            regs,
            files,
            samples,
        })
    }

    /// The shape of a node whose operands have these classes.
    pub fn shape(&self, alloc: Global, net: &Netlist, classes: &[NodeId], n: &Node) -> Node
        requires few { AreFew self.now }
        requires right { NodeOk net.now.nodes (length classes.now) n.now }
        requires cell { CellOk net.now.nodes net.now.parts n.now.width n.now.kind }
        ensures { result ≡ shape self.now net.now.parts (class_in classes.now) n.now }
    {
        Node {
            width: n.width,
            kind: self.kind(alloc, net, classes, n.width, &n.kind),
        }
    }

    fn kind(&self, alloc: Global, net: &Netlist, classes: &[NodeId], width: u8, kind: &Kind) -> Kind
        requires few { AreFew self.now }
        requires right { KindOk net.now.nodes (length classes.now) width kind.now }
        requires cell { CellOk net.now.nodes net.now.parts width kind.now }
        ensures { result ≡ shape_kind self.now net.now.parts (class_in classes.now) kind.now }
    {
        let parts = net.parts();
        match kind {
            Kind::Const(value) => Kind::Const(*value),
            Kind::Ext => Kind::Ext,
            Kind::Sample(s) => {
                let port = &parts.samples.as_slice()[*s as usize];
                Kind::Sample(self.samples.place(&port.name))
            }
            Kind::Reg(r) => {
                let reg = &parts.regs.as_slice()[*r as usize];
                Kind::Reg(self.regs.place(&reg.name))
            }
            Kind::Word(f, address) => {
                let file = &parts.files.as_slice()[*f as usize];
                Kind::Word(self.files.place(&file.name), class_of(classes, *address))
            }
            Kind::Not(a) => Kind::Not(class_of(classes, *a)),
            Kind::Binary(op, a, b) => binary(*op, class_of(classes, *a), class_of(classes, *b)),
            Kind::Mux(test, yes, no) => Kind::Mux(
                class_of(classes, *test),
                class_of(classes, *yes),
                class_of(classes, *no),
            ),
            Kind::Concat(nodes) => Kind::Concat(joined(alloc, classes, nodes)),
            Kind::Slice(a, hi, lo) => Kind::Slice(class_of(classes, *a), *hi, *lo),
        }
    }
}

// The operands of a commutative operator are put in the order of their classes.
fn binary(op: BinOp, a: NodeId, b: NodeId) -> Kind
    ensures { result ≡ Kind.Binary op (first_of_pair (commutes op) a b) (second_of_pair (commutes op) a b) }
{
    if op.commutes() {
        Kind::Binary(op, NodeId(a.0.min(b.0)), NodeId(a.0.max(b.0)))
    } else {
        Kind::Binary(op, a, b)
    }
}

fn joined(alloc: Global, classes: &[NodeId], nodes: &Operands) -> Operands
    requires { All (λ x. x.0 < length classes.now) nodes.now }
    ensures { result ≡ map (class_in classes.now) nodes.now }
{
    let parts = nodes.nodes();
    let mut there = [NodeId(0); 12];
    for i in 0..parts.len() {
        there[i] = class_of(classes, parts[i]);
    }
    Operands::new(alloc, &there[..parts.len()])
}
