//! The operations and the calls, by their names.
use kp_bits::BinOp;

/// An operation or a call.
#[derive(Clone, Copy)]
pub enum Op {
    Const,
    Bit,
    Ext,
    Sample,
    Reg,
    File,
    Not,
    Part,
    Same,
    Mux,
    Binary(BinOp),
    Join,
    Inverse,
    Both,
    Either,
    Pick,
    FullNext,
    Update,
    Stall,
    Hit,
    Mismatch,
    Select,
    Carried,
    Sweep,
}

const OPS: [(&'static str, Op); 33] = [
    ("const", Op::Const),
    ("bit", Op::Bit),
    ("ext", Op::Ext),
    ("sample", Op::Sample),
    ("reg", Op::Reg),
    ("file", Op::File),
    ("not", Op::Not),
    ("part", Op::Part),
    ("same", Op::Same),
    ("mux", Op::Mux),
    ("and", Op::Binary(BinOp::And)),
    ("or", Op::Binary(BinOp::Or)),
    ("xor", Op::Binary(BinOp::Xor)),
    ("add", Op::Binary(BinOp::Add)),
    ("sub", Op::Binary(BinOp::Sub)),
    ("mul", Op::Binary(BinOp::Mul)),
    ("eq", Op::Binary(BinOp::Eq)),
    ("lt", Op::Binary(BinOp::Lt)),
    ("shl", Op::Binary(BinOp::Shl)),
    ("shr", Op::Binary(BinOp::Shr)),
    ("join", Op::Join),
    ("inverse", Op::Inverse),
    ("both", Op::Both),
    ("either", Op::Either),
    ("pick", Op::Pick),
    ("full-next", Op::FullNext),
    ("update", Op::Update),
    ("stall", Op::Stall),
    ("hit", Op::Hit),
    ("mismatch", Op::Mismatch),
    ("select", Op::Select),
    ("carried", Op::Carried),
    ("sweep", Op::Sweep),
];

impl Op {
    /// The operation or the call with a name.
    pub fn named(wanted: &[u8]) -> Option<Op> {
        for row in &OPS {
            if row.0.as_bytes() == wanted {
                return Some(row.1);
            }
        }
        None
    }
}

/// The name of an operator.
pub fn name_of(op: BinOp) -> &'static [u8] {
    match op {
        BinOp::And => b"and",
        BinOp::Or => b"or",
        BinOp::Xor => b"xor",
        BinOp::Add => b"add",
        BinOp::Sub => b"sub",
        BinOp::Mul => b"mul",
        BinOp::Eq => b"eq",
        BinOp::Lt => b"lt",
        BinOp::Shl => b"shl",
        BinOp::Shr => b"shr",
    }
}
