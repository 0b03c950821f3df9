// The line with the module's name and its ports, and the declarations of registers and files.
ghost use Rattle.std.specs.Prelude.{◌≡◌, ◌<◌, ◌≤◌, ◌^◌, All, length};
ghost use Rattle.kp_net.specs.Widths.{wide};
ghost use Rattle.kp_net.specs.Parts.{PortOk};
ghost use Rattle.kp_base.specs.Writer.{Wrote};
ghost use Rattle.kp_vwrite.specs.Texts.{reset_text, start_text, ranged_text, samples_text, outputs_text, header_text, regs_text, file_text, files_text, integer_text, FileSafe};

use kp_base::{Piece, Sink, Writer};
use kp_net::{NetFile, NetReg, Netlist, NodeId, Parts, Port};

// The port of the reset, if there is one.
fn reset_piece(parts: &Parts) -> &[u8]
    ensures { result.now ≡ reset_text parts.now.reset }
{
    if parts.reset {
        b"input wire rst, "
    } else {
        b""
    }
}

// Up to the port of the stalls.
fn write_start<K: Sink>(parts: &Parts, out: &mut Writer<'_, K>)
    requires { 1 ≤ parts.now.ext }
    ensures { Wrote K.held K.faults out.old out.new (start_text parts.now) }
{
    out.fill(
        b"module @(input wire clk, @input wire [@:0] ext, ",
        &[
            Piece::Text(parts.name.bytes()),
            Piece::Text(reset_piece(parts)),
            Piece::Number(u64::from(parts.ext - 1)),
        ],
    )
}

// A name with the range of its bits.
fn write_ranged<'a, K: Sink>(
    front: &'a [u8],
    width: u8,
    name: &'a [u8],
    end: &'a [u8],
    out: &mut Writer<'_, K>,
)
    requires { 1 ≤ width }
    ensures { Wrote K.held K.faults out.old out.new (ranged_text front.now width name.now end.now) }
{
    out.fill(
        b"@@:0] @@",
        &[
            Piece::Text(front),
            Piece::Number(u64::from(width - 1)),
            Piece::Text(name),
            Piece::Text(end),
        ],
    )
}

#[tactic(auto, using(kp_base::proofs::Writing::each_more, kp_base::proofs::Writing::each_all, kp_base::proofs::Writing::wrote_none))]
fn write_samples<K: Sink>(ports: &[Port], out: &mut Writer<'_, K>)
    requires { All PortOk ports.now }
    ensures { Wrote K.held K.faults out.old out.new (samples_text ports.now) }
{
    for port in ports {
        write_ranged(b"input wire [", port.width, port.name.bytes(), b", ", out);
    }
}

// The width of a node.
#[tactic(auto, using(crate::proofs::Safe::width_is, crate::proofs::Safe::width_positive))]
fn width_of(net: &Netlist, id: NodeId) -> u8
    requires { id.0 < length net.now.nodes }
    ensures value { result ≡ wide net.now.nodes id.0 }
    ensures positive { 1 ≤ result }
{
    net.nodes()[id.0 as usize].width
}

fn write_outputs<K: Sink>(full: u8, ue: u8, back: u8, out: &mut Writer<'_, K>)
    requires full { 1 ≤ full }
    requires ue { 1 ≤ ue }
    requires back { 1 ≤ back }
    ensures { Wrote K.held K.faults out.old out.new (outputs_text full ue back) }
{
    out.fill(
        b"output wire [@:0] full, output wire [@:0] ue, output wire [@:0] back);\n",
        &[
            Piece::Number(u64::from(full - 1)),
            Piece::Number(u64::from(ue - 1)),
            Piece::Number(u64::from(back - 1)),
        ],
    )
}

/// Writes the line with the module's name and its ports.
pub fn write_header<K: Sink>(net: &Netlist, out: &mut Writer<'_, K>)
    ensures { Wrote K.held K.faults out.old out.new (header_text net.now.nodes net.now.parts) }
{
    let parts = net.parts();
    let full = width_of(net, parts.full);
    let ue = width_of(net, parts.ue);
    let back = width_of(net, parts.back);
    write_start(parts, out);
    write_samples(parts.samples.as_slice(), out);
    write_outputs(full, ue, back, out)
}

#[tactic(auto, using(kp_base::proofs::Writing::each_more, kp_base::proofs::Writing::each_all, kp_base::proofs::Writing::wrote_none))]
pub fn write_regs<K: Sink>(regs: &[NetReg], out: &mut Writer<'_, K>)
    ensures { Wrote K.held K.faults out.old out.new (regs_text regs.now) }
{
    for reg in regs {
        write_ranged(b"  reg [", reg.start.width(), reg.name.bytes(), b";\n", out);
    }
}

/// The number of words that an address of this width selects from.
pub fn word_count(address_width: u8) -> u32
    requires { address_width ≤ 16 }
    ensures value { result ≡ 2 ^ address_width }
    ensures positive { 1 ≤ result }
{
    1 << address_width
}

pub fn write_file<K: Sink>(file: &NetFile, out: &mut Writer<'_, K>)
    requires { FileSafe file.now }
    ensures { Wrote K.held K.faults out.old out.new (file_text file.now) }
{
    let last = word_count(file.address_width) - 1;
    out.fill(
        b"  reg [@:0] @ [0:@];\n",
        &[
            Piece::Number(u64::from(file.width - 1)),
            Piece::Text(file.name.bytes()),
            Piece::Number(u64::from(last)),
        ],
    )
}

#[tactic(auto, using(kp_base::proofs::Writing::each_more, kp_base::proofs::Writing::each_all, kp_base::proofs::Writing::wrote_none))]
pub fn write_files<K: Sink>(files: &[NetFile], out: &mut Writer<'_, K>)
    requires { All FileSafe files.now }
    ensures { Wrote K.held K.faults out.old out.new (files_text files.now) }
{
    for file in files {
        write_file(file, out);
    }
}

#[tactic(auto, using(kp_base::proofs::Writing::wrote_none), unfolding(crate::specs::Texts::integer_text))]
pub fn write_integer<K: Sink>(files: &[NetFile], out: &mut Writer<'_, K>)
    ensures { Wrote K.held K.faults out.old out.new (integer_text files.now) }
{
    if let [_, ..] = files {
        out.put(b"  integer i;\n")
    }
}
