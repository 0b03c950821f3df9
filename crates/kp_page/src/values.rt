// The registers and words of a netlist that store the targets of its job.
ghost use Rattle.std.specs.Prelude.{◌≡◌, ◌++◌, ℕ, codes, get_or, None};
ghost use Rattle.kp_base.specs.Bytes.{Writes};
ghost use Rattle.kp_base.specs.Causes.{HasCause};
ghost use Rattle.kp_bits.specs.Word.{word};
ghost use Rattle.kp_debug.specs.inner.Standing.{IsFileOf, IsRegisterOf};
ghost use Rattle.kp_machine.specs.Words.{HasWord, target};
ghost use Rattle.kp_implements.specs.{Naming.file_names, Naming.place_among, Naming.register_names, Shows.IsOfJob};
ghost use Rattle.kp_report.specs.Texts.{word_line as line_of_word};
ghost use Rattle.kp_page.specs.States.{change_line};
ghost use Rattle.kp_page.specs.inner.Seen.{seen, seen_before};

use itoa::Buffer;
use kp_ast::Name;
use kp_base::{Sink, SinkFault, write_pieces};
use kp_bits::Bits;
use kp_cycle::Sim;
use kp_frontend::Accepted;
use kp_net::Netlist;

/// The number of the register `r_X` for the name X, or the number of registers if none has this name.
pub(crate) fn register_named(net: &Netlist, name: &Name) -> u32
    ensures { result ≡ place_among (register_names net.now) (codes "r_" ++ name.now) }
{
    kp_implements::register_named(net.parts().regs.as_slice(), name)
}

/// The number of the file `f_X` for the name X, or the number of files if none has this name.
pub(crate) fn file_named(net: &Netlist, name: &Name) -> u32
    ensures { result ≡ place_among (file_names net.now) (codes "f_" ++ name.now) }
{
    kp_implements::file_named(net.parts().files.as_slice(), name)
}

/// The value of the register of a target, which is register `number` of the netlist.
pub(crate) fn register_shown(sim: &Sim<'_>, _job: &Accepted, _t: u32, number: u32) -> Bits
    requires of_job { IsOfJob sim.now.net _job.now.design.job }
    requires register { IsRegisterOf _job.now.design.job sim.now.net _t number }
    ensures { result ≡ word (target _job.now.design.job _t).width (seen _job.now.design.job sim.now _t 0) }
{
    sim.value(number)
}

/// The word of the file of a target, which is file `number` of the netlist.
pub(crate) fn word_shown(sim: &Sim<'_>, _job: &Accepted, _t: u32, number: u32, address: u32) -> Bits
    requires of_job { IsOfJob sim.now.net _job.now.design.job }
    requires file { IsFileOf _job.now.design.job sim.now.net _t number }
    requires there { HasWord _job.now.design.job _t address }
    ensures { result ≡ word (target _job.now.design.job _t).width (seen _job.now.design.job sim.now _t address) }
{
    sim.word(number, address)
}

/// The words of the file of a target in an earlier state, which is file `number` of the netlist; none before the first cycle.
pub(crate) fn words_before<'s>(
    is_first: bool,
    before: &'s Sim<'_>,
    _job: &Accepted,
    _t: u32,
    number: u32,
) -> &'s [u64]
    requires of_job { IsOfJob before.now.net _job.now.design.job }
    requires file { IsFileOf _job.now.design.job before.now.net _t number }
    ensures { (λ (a : ℕ). get_or result.now a 0) ≡ seen_before is_first _job.now.design.job before.now _t }
{
    if is_first { &[] } else { before.words(number) }
}

/// The word at an address, or 0 where there is none.
pub(crate) fn word_at(words: &[u64], address: u32) -> u64
    ensures { result ≡ get_or words.now address 0 }
{
    if (address as usize) < words.len() {
        words[address as usize]
    } else {
        0
    }
}

/// Writes the line of a word of a file where it differs from an earlier value.
pub(crate) fn write_change<K: Sink>(
    name: &[u8],
    address: u32,
    old: u64,
    value: Bits,
    sink: &mut K,
) -> Result<(), SinkFault>
    ensures text { Writes (K.held sink.old) (K.held sink.new) (change_line name.now value.width address old value.value) result }
    ensures cause { HasCause (K.faults sink.old) (K.faults sink.new) result }
{
    if value.value() == old {
        return Ok(());
    }
    write_word_line(name, address, value, sink)
}

#[tactic(auto, unfolding(kp_report::specs::Texts::word_value, kp_report::specs::Texts::ending_of))]
fn write_word_line<K: Sink>(
    name: &[u8],
    address: u32,
    value: Bits,
    sink: &mut K,
) -> Result<(), SinkFault>
    ensures text { Writes (K.held sink.old) (K.held sink.new) (line_of_word name.now address value None) result }
    ensures cause { HasCause (K.faults sink.old) (K.faults sink.new) result }
{
    let mut digits = Buffer::new();
    let mut spelled = [0; 20];
    let length = value.spell(&mut spelled);
    let pieces = [
        name,
        b"[".as_slice(),
        digits.format(address).as_bytes(),
        b"] = ".as_slice(),
        &spelled[..length],
        b"\n".as_slice(),
    ];
    write_pieces(sink, &pieces)
}
