// The blocks that set the start values of registers and files, and that update them.
ghost use Rattle.std.specs.Prelude.{◌<◌, ◌≤◌, ◌^◌, All, true};
ghost use Rattle.kp_base.specs.Writer.{Wrote};
ghost use Rattle.kp_vwrite.specs.Texts.{value_text, values_text, fill_text, word_text, words_text, contents_text, fills_text, update_text, updates_text, port_text, ports_text, changes_text, body_text, FileSafe};

use crate::header::word_count;
use crate::nodes::{word_of, write_literal};
use kp_base::{Piece, Sink, Writer};
use kp_net::{NetFile, NetReg, Parts};

// The start value of a register, with this assignment operator.
fn write_value<'a, K: Sink>(
    margin: &'a [u8],
    sign: &'a [u8],
    reg: &'a NetReg,
    out: &mut Writer<'_, K>,
)
    ensures { Wrote K.held K.faults out.old out.new (value_text margin.now sign.now reg.now) }
{
    out.fill(
        b"@@@",
        &[
            Piece::Text(margin),
            Piece::Text(reg.name.bytes()),
            Piece::Text(sign),
        ],
    );
    write_literal(reg.start, out);
    out.put(b";\n")
}

#[tactic(auto, using(kp_base::proofs::Writing::each_more, kp_base::proofs::Writing::each_all, kp_base::proofs::Writing::wrote_none))]
pub fn write_values<K: Sink>(margin: &[u8], sign: &[u8], regs: &[NetReg], out: &mut Writer<'_, K>)
    ensures { Wrote K.held K.faults out.old out.new (values_text margin.now sign.now regs.now) }
{
    for reg in regs {
        write_value(margin, sign, reg, out);
    }
}

// The loop that sets each word of a file to zero.
fn write_fill<K: Sink>(file: &NetFile, out: &mut Writer<'_, K>)
    requires { FileSafe file.now }
    ensures { Wrote K.held K.faults out.old out.new (fill_text file.now) }
{
    let count = u64::from(word_count(file.address_width));
    out.fill(
        b"    for (i = 0; i < @; i = i + 1) @[i] = ",
        &[Piece::Number(count), Piece::Text(file.name.bytes())],
    );
    write_literal(word_of(file.width, 0), out);
    out.put(b";\n")
}

#[tactic(auto, using(kp_base::proofs::Writing::wrote_none), unfolding(crate::specs::Texts::word_text))]
fn write_word<K: Sink>(name: &[u8], width: u8, address: usize, value: u64, out: &mut Writer<'_, K>)
    requires positive { 1 ≤ width }
    requires at_most { width ≤ 64 }
    requires fits { value < 2 ^ width }
    ensures { Wrote K.held K.faults out.old out.new (word_text name.now width address value) }
{
    if value == 0 {
        return;
    }
    out.fill(
        b"    @[@] = ",
        &[Piece::Text(name), Piece::Number(address as u64)],
    );
    write_literal(word_of(width, value), out);
    out.put(b";\n")
}

#[tactic(auto, using(kp_base::proofs::Writing::wrote_none))]
fn write_words<K: Sink>(name: &[u8], width: u8, words: &[u64], out: &mut Writer<'_, K>)
    requires positive { 1 ≤ width }
    requires at_most { width ≤ 64 }
    requires fit { All (λ v. v < 2 ^ width) words.now }
    ensures { Wrote K.held K.faults out.old out.new (words_text name.now width 0 words.now) }
{
    for (address, word) in words.iter().enumerate() {
        write_word(name, width, address, *word, out);
    }
}

pub fn write_contents<K: Sink>(file: &NetFile, out: &mut Writer<'_, K>)
    requires { FileSafe file.now }
    ensures { Wrote K.held K.faults out.old out.new (contents_text file.now) }
{
    write_fill(file, out);
    write_words(file.name.bytes(), file.width, file.words.as_slice(), out)
}

#[tactic(auto, using(kp_base::proofs::Writing::each_more, kp_base::proofs::Writing::each_all, kp_base::proofs::Writing::wrote_none))]
pub fn write_fills<K: Sink>(files: &[NetFile], out: &mut Writer<'_, K>)
    requires { All FileSafe files.now }
    ensures { Wrote K.held K.faults out.old out.new (fills_text files.now) }
{
    for file in files {
        write_contents(file, out);
    }
}

// A register's value after the cycle, as `    r_X <= n3;`.
fn write_update<'a, K: Sink>(margin: &'a [u8], reg: &'a NetReg, out: &mut Writer<'_, K>)
    ensures { Wrote K.held K.faults out.old out.new (update_text margin.now reg.now) }
{
    out.fill(
        b"@@ <= n@;\n",
        &[
            Piece::Text(margin),
            Piece::Text(reg.name.bytes()),
            Piece::Number(u64::from(reg.next.0)),
        ],
    )
}

#[tactic(auto, using(kp_base::proofs::Writing::each_more, kp_base::proofs::Writing::each_all, kp_base::proofs::Writing::wrote_none))]
fn write_updates<K: Sink>(margin: &[u8], regs: &[NetReg], out: &mut Writer<'_, K>)
    ensures { Wrote K.held K.faults out.old out.new (updates_text margin.now regs.now) }
{
    for reg in regs {
        write_update(margin, reg, out);
    }
}

#[tactic(auto, using(kp_base::proofs::Writing::wrote_none), unfolding(kp_base::specs::Texts::filled, crate::specs::Texts::port_text))]
fn write_port<'a, K: Sink>(margin: &'a [u8], file: &'a NetFile, out: &mut Writer<'_, K>)
    ensures { Wrote K.held K.faults out.old out.new (port_text margin.now file.now) }
{
    match file.port {
        Some(port) => {
            out.fill(
                b"@if (n@) @[n@] <= n@;\n",
                &[
                    Piece::Text(margin),
                    Piece::Number(u64::from(port.enable.0)),
                    Piece::Text(file.name.bytes()),
                    Piece::Number(u64::from(port.address.0)),
                    Piece::Number(u64::from(port.value.0)),
                ],
            )
        }
        None => (),
    }
}

#[tactic(auto, using(kp_base::proofs::Writing::each_more, kp_base::proofs::Writing::each_all, kp_base::proofs::Writing::wrote_none))]
fn write_ports<K: Sink>(margin: &[u8], files: &[NetFile], out: &mut Writer<'_, K>)
    ensures { Wrote K.held K.faults out.old out.new (ports_text margin.now files.now) }
{
    for file in files {
        write_port(margin, file, out);
    }
}

fn write_changes<K: Sink>(margin: &[u8], parts: &Parts, out: &mut Writer<'_, K>)
    ensures { Wrote K.held K.faults out.old out.new (changes_text margin.now parts.now) }
{
    write_updates(margin, parts.regs.as_slice(), out);
    write_ports(margin, parts.files.as_slice(), out)
}

fn write_with_reset<K: Sink>(parts: &Parts, out: &mut Writer<'_, K>)
    ensures { Wrote K.held K.faults out.old out.new (body_text true parts.now) }
{
    out.put(b"    if (rst) begin\n");
    write_values(b"      ", b" <= ", parts.regs.as_slice(), out);
    out.put(b"    end else begin\n");
    write_changes(b"      ", parts, out);
    out.put(b"    end\n")
}

pub fn write_body<K: Sink>(parts: &Parts, out: &mut Writer<'_, K>)
    ensures { Wrote K.held K.faults out.old out.new (body_text parts.now.reset parts.now) }
{
    if parts.reset {
        write_with_reset(parts, out)
    } else {
        write_changes(b"    ", parts, out)
    }
}
