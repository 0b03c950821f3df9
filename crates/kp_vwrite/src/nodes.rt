// The nodes, and the outputs.
ghost use Rattle.std.specs.Prelude.{◌≡◌, ◌<◌, ◌≤◌, ◌++◌, codes, length, get_or};
ghost use Rattle.kp_bits.specs.Spelling.{spelling};
ghost use Rattle.kp_bits.specs.Word.{IsWord, word};
ghost use Rattle.kp_net.specs.Parts.{no_port, no_reg, no_file};
ghost use Rattle.kp_vlog.specs.Canon.{sign, wire};
ghost use Rattle.kp_base.specs.Writer.{Wrote};
ghost use Rattle.kp_vwrite.specs.Texts.{part_text, right_text, parts_text, joined_text, node_text, nodes_text, outs_text, KindSafe, NodeSafe, AllSafe};

use kp_base::{Piece, Sink, Writer};
use kp_bits::{BinOp, Bits};
use kp_net::{Kind, NetFile, NetReg, Node, NodeId, Parts, Port};

fn sign_of<'a>(op: BinOp) -> &'a [u8]
    ensures { result.now ≡ sign op }
{
    match op {
        BinOp::And => b" & ",
        BinOp::Or => b" | ",
        BinOp::Xor => b" ^ ",
        BinOp::Add => b" + ",
        BinOp::Sub => b" - ",
        BinOp::Mul => b" * ",
        BinOp::Eq => b" == ",
        BinOp::Lt => b" < ",
        BinOp::Shl => b" << ",
        BinOp::Shr => b" >> ",
    }
}

fn write_part<K: Sink>(part: NodeId, out: &mut Writer<'_, K>)
    ensures { Wrote K.held K.faults out.old out.new (part_text part) }
{
    out.put(b", n");
    out.number(u64::from(part.0))
}

#[tactic(auto, using(kp_base::proofs::Writing::each_more, kp_base::proofs::Writing::each_all, kp_base::proofs::Writing::wrote_none))]
fn write_parts<K: Sink>(parts: &[NodeId], out: &mut Writer<'_, K>)
    ensures { Wrote K.held K.faults out.old out.new (parts_text parts.now) }
{
    for part in parts {
        write_part(*part, out);
    }
}

/// Writes the concatenation of nodes, as `{n1, n2}`.
pub fn write_joined<K: Sink>(parts: &[NodeId], out: &mut Writer<'_, K>)
    ensures { Wrote K.held K.faults out.old out.new (joined_text parts.now) }
{
    match parts {
        [] => out.put(b"{}"),
        [first, rest @ ..] => {
            out.put(b"{n");
            out.number(u64::from(first.0));
            write_parts(rest, out);
            out.put(b"}")
        }
    }
}

fn sample_name(ports: &[Port], number: usize) -> &[u8]
    requires { number < length ports.now }
    ensures { result.now ≡ (get_or ports.now number no_port).name }
{
    ports[number].name.bytes()
}

fn reg_name(regs: &[NetReg], number: usize) -> &[u8]
    requires { number < length regs.now }
    ensures { result.now ≡ (get_or regs.now number no_reg).name }
{
    regs[number].name.bytes()
}

fn file_name(files: &[NetFile], number: usize) -> &[u8]
    requires { number < length files.now }
    ensures { result.now ≡ (get_or files.now number no_file).name }
{
    files[number].name.bytes()
}

// A word, such as `8'h0b`.
pub fn write_literal<K: Sink>(value: Bits, out: &mut Writer<'_, K>)
    ensures { Wrote K.held K.faults out.old out.new (spelling value) }
{
    let mut room = [0; 20];
    let length = value.spell(&mut room);
    out.put(&room[..length])
}

/// A word of this width and value.
pub fn word_of(width: u8, value: u64) -> Bits
    requires { IsWord (word width value) }
    ensures { result ≡ word width value }
{
    Bits::new(width, value).unwrap()
}

fn write_binary<K: Sink>(op: BinOp, a: NodeId, b: NodeId, out: &mut Writer<'_, K>)
    ensures { Wrote K.held K.faults out.old out.new (wire a ++ (sign op ++ (wire b ++ codes ";\n"))) }
{
    out.put(b"n");
    out.number(u64::from(a.0));
    out.put(sign_of(op));
    out.fill(b"n@;\n", &[Piece::Number(u64::from(b.0))])
}

/// Writes the right side of a node's assignment, and the end of the line.
#[tactic(auto, unfolding(kp_base::specs::Texts::filled, crate::specs::Texts::right_text))]
pub fn write_right<'a, K: Sink>(
    parts: &'a Parts,
    width: u8,
    kind: &'a Kind,
    out: &mut Writer<'_, K>,
)
    requires { KindSafe parts.now width kind.now }
    ensures { Wrote K.held K.faults out.old out.new (right_text parts.now width kind.now) }
{
    match kind {
        Kind::Const(value) => {
            write_literal(word_of(width, *value), out);
            out.put(b";\n")
        }
        Kind::Ext => out.put(b"ext;\n"),
        Kind::Sample(port) => {
            out.put(sample_name(parts.samples.as_slice(), *port as usize));
            out.put(b";\n")
        }
        Kind::Reg(reg) => {
            out.put(reg_name(parts.regs.as_slice(), *reg as usize));
            out.put(b";\n")
        }
        Kind::Concat(operands) => {
            write_joined(operands.nodes(), out);
            out.put(b";\n")
        }
        Kind::Word(file, a) => out.fill(
            b"@[n@];\n",
            &[
                Piece::Text(file_name(parts.files.as_slice(), *file as usize)),
                Piece::Number(u64::from(a.0)),
            ],
        ),
        Kind::Not(a) => out.fill(b"~n@;\n", &[Piece::Number(u64::from(a.0))]),
        Kind::Binary(op, a, b) => write_binary(*op, *a, *b, out),
        Kind::Mux(test, a, b) => out.fill(
            b"n@ ? n@ : n@;\n",
            &[
                Piece::Number(u64::from(test.0)),
                Piece::Number(u64::from(a.0)),
                Piece::Number(u64::from(b.0)),
            ],
        ),
        Kind::Slice(a, hi, lo) => out.fill(
            b"n@[@:@];\n",
            &[
                Piece::Number(u64::from(a.0)),
                Piece::Number(u64::from(*hi)),
                Piece::Number(u64::from(*lo)),
            ],
        ),
    }
}

fn write_node<K: Sink>(parts: &Parts, number: usize, node: &Node, out: &mut Writer<'_, K>)
    requires { NodeSafe parts.now node.now }
    ensures { Wrote K.held K.faults out.old out.new (node_text parts.now number node.now) }
{
    let (top, number) = (u64::from(node.width - 1), number as u64);
    out.fill(
        b"  wire [@:0] n@;\n  assign n@ = ",
        &[
            Piece::Number(top),
            Piece::Number(number),
            Piece::Number(number),
        ],
    );
    write_right(parts, node.width, &node.kind, out)
}

/// Writes the wires with their assignments.
#[tactic(auto, using(kp_base::proofs::Writing::wrote_none))]
pub fn write_nodes<K: Sink>(parts: &Parts, nodes: &[Node], out: &mut Writer<'_, K>)
    requires { AllSafe parts.now nodes.now }
    ensures { Wrote K.held K.faults out.old out.new (nodes_text parts.now 0 nodes.now) }
{
    for (number, node) in nodes.iter().enumerate() {
        write_node(parts, number, node, out);
    }
}

/// Writes the assignments of the outputs, and the head of the block that follows them.
pub fn write_outs<K: Sink>(parts: &Parts, out: &mut Writer<'_, K>)
    ensures { Wrote K.held K.faults out.old out.new (outs_text parts.now) }
{
    out.fill(
        b"  assign full = n@;\n  assign ue = n@;\n  assign back = n@;\n  initial begin\n",
        &[
            Piece::Number(u64::from(parts.full.0)),
            Piece::Number(u64::from(parts.ue.0)),
            Piece::Number(u64::from(parts.back.0)),
        ],
    )
}
