// The lines of a path, and what they consist of.
ghost use Rattle.std.specs.Prelude.{◌≡◌, ◌++◌, get_or, codes, decimal, replicate, IfOk, OnOk};
ghost use Rattle.kp_net.specs.Parts.{no_file, no_port, no_reg};
ghost use Rattle.kp_synth_registers.specs.Keys.{key_at, keys_of};
ghost use Rattle.kp_vlog.specs.Canon.{sign, wire};
ghost use Rattle.kp_depth.specs.Paths.{kind_at};
ghost use Rattle.kp_depth.specs.Statements.{origin};
ghost use Rattle.kp_depth.specs.inner.Named.{IsSource};
ghost use Rattle.kp_depth.specs.Text as text;

use crate::ends::Holder;
use crate::statements::{notes, origin_after};
use crate::time::{Input, Time, Times};
use itoa::Buffer;
use kp_base::NoMemory;
use kp_bits::BinOp;
use kp_core_ports::{Names, add_stored};
use kp_design::Layout;
use kp_net::{Kind, Netlist, NodeId};
use kp_synth_registers::{Key, Keys};
use kp_wires::Wire;
use std::alloc::Global;

// What the lines of a netlist are written from.
#[derive(Drop)]
pub(crate) struct Source<'a> {
    pub net: &'a Netlist,
    pub layout: &'a Layout<'a>,
    pub keys: &'a Keys,
    pub names: &'a Names,
    pub wires: &'a [Wire],
    pub times: &'a Times,
}

pub(crate) fn add_number(out: &mut Vec<u8>, number: u64) -> Result<(), NoMemory>
    ensures { OnOk result (out.new.items ≡ out.old.items ++ decimal number) }
{
    let mut digits = Buffer::new();
    out.extend_from_slice(digits.format(number).as_bytes())?;
    Ok(())
}

#[tactic(auto, using(std::proofs::Common::append_assoc))]
fn add_wire(out: &mut Vec<u8>, node: NodeId) -> Result<(), NoMemory>
    ensures { OnOk result (out.new.items ≡ out.old.items ++ wire node) }
{
    out.extend_from_slice(b"n")?;
    add_number(out, node.0 as u64)
}

#[tactic(auto, unfolding(crate::specs::Text::hundredths), using(std::proofs::Common::append_assoc))]
pub(crate) fn add_hundredths(out: &mut Vec<u8>, n: u64) -> Result<(), NoMemory>
    ensures { OnOk result (out.new.items ≡ out.old.items ++ text.hundredths n) }
{
    add_number(out, n / 100)?;
    out.extend_from_slice(b".")?;
    add_number(out, n % 100 / 10)?;
    add_number(out, n % 10)
}

#[tactic(auto, using(crate::proofs::Texts::blank_more))]
fn add_blanks(out: &mut Vec<u8>, count: usize) -> Result<(), NoMemory>
    ensures { OnOk result (out.new.items ≡ out.old.items ++ replicate count 32) }
{
    for blanks in 0..count {
        out.push(b' ')?;
    }
    Ok(())
}

// Appends a text at the right end of a column.
#[tactic(auto, using(std::proofs::Common::append_assoc))]
pub(crate) fn add_right(out: &mut Vec<u8>, width: usize, piece: &[u8]) -> Result<(), NoMemory>
    ensures { OnOk result (out.new.items ≡ out.old.items ++ text.at_right width piece.now) }
{
    add_blanks(out, width.saturating_sub(piece.len()))?;
    out.extend_from_slice(piece)?;
    Ok(())
}

// Appends a text at the left end of a column.
#[tactic(auto, using(std::proofs::Common::append_assoc))]
fn add_left(out: &mut Vec<u8>, width: usize, piece: &[u8]) -> Result<(), NoMemory>
    ensures { OnOk result (out.new.items ≡ out.old.items ++ text.at_left width piece.now) }
{
    out.extend_from_slice(piece)?;
    add_blanks(out, width.saturating_sub(piece.len()))
}

#[tactic(auto, using(crate::proofs::Texts::nothing_first))]
pub(crate) fn add_length(alloc: Global, out: &mut Vec<u8>, n: u64) -> Result<(), NoMemory>
    ensures { OnOk result (out.new.items ≡ out.old.items ++ text.at_right 9 (text.hundredths n)) }
{
    let mut piece = Vec::new(alloc);
    add_hundredths(&mut piece, n)?;
    add_right(out, 9, piece.as_slice())
}

impl Source<'_> {
    pub(crate) fn key(&self, r: u32) -> Key
        requires { self.now.keys.now ≡ keys_of self.now.layout.now }
        ensures { result ≡ key_at self.now.layout.now r }
    {
        if r < self.keys.count() {
            self.keys.key(r)
        } else {
            Key::Full(0)
        }
    }

    fn register_name(&self, r: u32) -> &[u8]
        ensures { result.now ≡ (get_or self.now.net.now.parts.regs r no_reg).name }
    {
        match self.net.parts().regs.as_slice().get(r as usize) {
            Some(reg) => reg.name.bytes(),
            None => b"",
        }
    }

    fn file_name(&self, f: u32) -> &[u8]
        ensures { result.now ≡ (get_or self.now.net.now.parts.files f no_file).name }
    {
        match self.net.parts().files.as_slice().get(f as usize) {
            Some(file) => file.name.bytes(),
            None => b"",
        }
    }

    fn sample_name(&self, s: u32) -> &[u8]
        ensures { result.now ≡ (get_or self.now.net.now.parts.samples s no_port).name }
    {
        match self.net.parts().samples.as_slice().get(s as usize) {
            Some(port) => port.name.bytes(),
            None => b"",
        }
    }
}

// Appends the name of a register and what it holds.
#[tactic(auto, using(std::proofs::Common::append_assoc))]
fn add_register(out: &mut Vec<u8>, source: &Source<'_>, r: u32) -> Result<(), NoMemory>
    requires { IsSource source.now.layout.now source.now.keys.now source.now.names.now }
    ensures { OnOk result (out.new.items ≡ out.old.items ++ text.register_text source.now.layout.now source.now.net.now r) }
{
    out.extend_from_slice(source.register_name(r))?;
    out.extend_from_slice(b" (")?;
    add_stored(out, source.layout, source.names, source.key(r))?;
    out.extend_from_slice(b")")?;
    Ok(())
}

#[tactic(auto, using(std::proofs::Common::append_assoc))]
pub(crate) fn add_holder(
    out: &mut Vec<u8>,
    source: &Source<'_>,
    holder: Holder,
) -> Result<(), NoMemory>
    requires { IsSource source.now.layout.now source.now.keys.now source.now.names.now }
    ensures { OnOk result (out.new.items ≡ out.old.items ++ text.holder_text source.now.layout.now source.now.net.now holder) }
{
    match holder {
        Holder::Register(r) => add_register(out, source, r),
        Holder::File(f) => add_piece(out, source.file_name(f)),
        Holder::Address(f) => {
            out.extend_from_slice(b"the address of ")?;
            add_piece(out, source.file_name(f))
        }
    }
}

pub(crate) fn add_piece(out: &mut Vec<u8>, piece: &[u8]) -> Result<(), NoMemory>
    ensures { OnOk result (out.new.items ≡ out.old.items ++ piece.now) }
{
    out.extend_from_slice(piece)?;
    Ok(())
}

fn sign_of(op: BinOp) -> &'static [u8]
    ensures { result.now ≡ sign op }
{
    match op {
        BinOp::And => b" & ",
        BinOp::Or => b" | ",
        BinOp::Xor => b" ^ ",
        BinOp::Add => b" + ",
        BinOp::Sub => b" - ",
        BinOp::Mul => b" * ",
        BinOp::Eq => b" == ",
        BinOp::Lt => b" < ",
        BinOp::Shl => b" << ",
        BinOp::Shr => b" >> ",
    }
}

// Appends what the wire of a node is assigned.
#[tactic(auto, using(std::proofs::Common::append_assoc))]
fn add_assigned(out: &mut Vec<u8>, source: &Source<'_>, kind: &Kind) -> Result<(), NoMemory>
    requires { IsSource source.now.layout.now source.now.keys.now source.now.names.now }
    ensures { OnOk result (out.new.items ≡ out.old.items ++ text.assigned source.now.layout.now source.now.net.now kind.now) }
{
    match kind {
        Kind::Const(_) => add_piece(out, b"constant"),
        Kind::Ext => add_piece(out, b"ext"),
        Kind::Sample(s) => add_piece(out, source.sample_name(*s)),
        Kind::Reg(r) => add_register(out, source, *r),
        Kind::Word(f, a) => {
            out.extend_from_slice(source.file_name(*f))?;
            out.extend_from_slice(b"[")?;
            add_wire(out, *a)?;
            add_piece(out, b"]")
        }
        Kind::Binary(op, a, b) => {
            add_wire(out, *a)?;
            out.extend_from_slice(sign_of(*op))?;
            add_wire(out, *b)
        }
        Kind::Mux(test, a, b) => {
            add_wire(out, *test)?;
            out.extend_from_slice(b" ? ")?;
            add_wire(out, *a)?;
            out.extend_from_slice(b" : ")?;
            add_wire(out, *b)
        }
        Kind::Not(a) => {
            out.extend_from_slice(b"~")?;
            add_wire(out, *a)
        }
        Kind::Concat(_) => add_piece(out, b"{..}"),
        Kind::Slice(a, hi, lo) => {
            add_wire(out, *a)?;
            add_bits(out, *hi, *lo)
        }
    }
}

#[tactic(auto, using(std::proofs::Common::append_assoc))]
fn add_bits(out: &mut Vec<u8>, hi: u8, lo: u8) -> Result<(), NoMemory>
    ensures { OnOk result (out.new.items ≡ out.old.items ++ (codes "[" ++ (decimal hi ++ (codes ":" ++ (decimal lo ++ codes "]"))))) }
{
    out.extend_from_slice(b"[")?;
    add_number(out, hi as u64)?;
    out.extend_from_slice(b":")?;
    add_number(out, lo as u64)?;
    add_piece(out, b"]")
}

// Appends the wire of a node with what it is assigned.
#[tactic(auto, using(std::proofs::Common::append_assoc))]
fn add_wire_text(out: &mut Vec<u8>, source: &Source<'_>, node: NodeId) -> Result<(), NoMemory>
    requires { IsSource source.now.layout.now source.now.keys.now source.now.names.now }
    ensures { OnOk result (out.new.items ≡ out.old.items
        ++ text.wire_text source.now.layout.now source.now.net.now node.0 (kind_at source.now.net.now.nodes node.0)) }
{
    add_wire(out, node)?;
    out.extend_from_slice(b" = ")?;
    match source.net.nodes().get(node.0 as usize) {
        Some(known) => add_assigned(out, source, &known.kind),
        None => add_piece(out, b"constant"),
    }
}

// Appends a text, with another one beside it in the next column.
#[tactic(auto, using(std::proofs::Common::append_assoc))]
fn add_beside(out: &mut Vec<u8>, piece: &[u8], note: &[u8]) -> Result<(), NoMemory>
    ensures { OnOk result (out.new.items ≡ out.old.items ++ text.beside piece.now note.now) }
{
    if note.is_empty() {
        return add_piece(out, piece);
    }
    add_left(out, 32, piece)?;
    add_piece(out, note)
}

// Appends the time of a node, if it has one of its own.
fn add_time(alloc: Global, out: &mut Vec<u8>, within: bool, time: &Time) -> Result<(), NoMemory>
    ensures { OnOk result (out.new.items ≡ out.old.items ++ text.at_right 9 (text.time_text within time.now)) }
{
    if within {
        add_right(out, 9, b"")
    } else {
        add_length(alloc, out, time.arrival)
    }
}

#[tactic(auto, using(std::proofs::Common::append_assoc, crate::proofs::Texts::nothing_first))]
fn add_wire_line(
    alloc: Global,
    out: &mut Vec<u8>,
    source: &Source<'_>,
    node: NodeId,
    within: bool,
    time: &Time,
    note: &[u8],
) -> Result<(), NoMemory>
    requires { IsSource source.now.layout.now source.now.keys.now source.now.names.now }
    ensures { OnOk result (out.new.items ≡ out.old.items
        ++ text.wire_line source.now.layout.now source.now.net.now node.0 (text.time_text within time.now) (kind_at source.now.net.now.nodes node.0) note.now) }
{
    let mut piece = Vec::new(alloc);
    add_wire_text(&mut piece, source, node)?;
    add_time(alloc, out, within, time)?;
    out.extend_from_slice(b"  ")?;
    add_beside(out, piece.as_slice(), note)?;
    add_piece(out, b"\n")
}

fn costs(within: bool, time: &Time) -> bool
    ensures { result ≡ text.costs within time.now }
{
    !within && (time.chain.latest < time.arrival || time.chain.last.is_none())
}

fn is_listed(within: bool, time: &Time, note: &[u8]) -> bool
    ensures { result ≡ text.is_listed within time.now note.now }
{
    if note.is_empty() {
        costs(within, time)
    } else {
        true
    }
}

// Appends the line of a node of a path after a part from this stage, if it is listed.
pub(crate) fn add_step(
    alloc: Global,
    out: &mut Vec<u8>,
    source: &Source<'_>,
    from: u32,
    within: bool,
    node: NodeId,
) -> Result<(), NoMemory>
    requires { IsSource source.now.layout.now source.now.keys.now source.now.names.now }
    ensures { OnOk result (out.new.items ≡ out.old.items
        ++ text.step_text source.now.layout.now source.now.net.now source.now.wires.now source.now.times.now.all.items from within node.0) }
{
    let note = notes(alloc, source, from, node)?;
    let time = source.times.at(node);
    if is_listed(within, &time, note.as_slice()) {
        add_wire_line(alloc, out, source, node, within, &time, note.as_slice())?;
    }
    Ok(())
}

// Appends the lines of a path, from its first node on, and finds the stage that it comes from.
#[tactic(auto, using(crate::proofs::Texts::steps_more, crate::proofs::Texts::origin_more))]
pub(crate) fn add_steps(
    alloc: Global,
    out: &mut Vec<u8>,
    source: &Source<'_>,
    steps: &[Input],
) -> Result<u32, NoMemory>
    requires { IsSource source.now.layout.now source.now.keys.now source.now.names.now }
    ensures text { OnOk result (out.new.items ≡ out.old.items
        ++ text.steps_text source.now.layout.now source.now.net.now source.now.wires.now source.now.times.now.all.items steps.now) }
    ensures from { IfOk result (λ from. from ≡ origin source.now.layout.now source.now.net.now source.now.wires.now steps.now) }
{
    let count = steps.len();
    let mut from = 0;
    for done in 0..count {
        let operand = steps[count - 1 - done];
        add_step(alloc, out, source, from, operand.within, operand.node)?;
        from = origin_after(source, from, operand.node);
    }
    Ok(from)
}
