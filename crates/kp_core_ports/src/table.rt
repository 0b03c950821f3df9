// The lines of the table.
ghost use Rattle.std.specs.Prelude.{◌≡◌, ◌<◌, ◌++◌, decimal, length, IfOk, OnOk};
ghost use Rattle.kp_machine.specs.Slots.{hints_of, pipes_of, targets_of};
ghost use Rattle.kp_design.specs.Numbers.{guess_at};
ghost use Rattle.kp_synth_registers.specs.Keys.{key_at, keys_of};
ghost use Rattle.kp_core_ports.specs.Names.{guess_in, in_stage, name_line, names_of, names_text, stored};

use crate::names::{Names, name_at};
use itoa::Buffer;
use kp_ast::Name;
use kp_base::NoMemory;
use kp_design::{GuessSlot, Layout};
use kp_net::Netlist;
use kp_synth_registers::{Key, Keys};
use std::alloc::Global;

/// The table of the registers of a netlist of a job: a line for each, in their order. The only error is out of memory.
#[tactic(auto, unfolding(crate::specs::Names::names_text))]
pub fn names_text(alloc: Global, net: &Netlist, layout: &Layout<'_>) -> Result<Vec<u8>, NoMemory>
    requires regs { length net.now.parts.regs ≡ length (keys_of layout.now) }
    ensures { IfOk result (λ text. text.items ≡ names_text net.now layout.now) }
{
    let names = Names::of(alloc, layout.job().decls.as_slice())?;
    let keys = Keys::of(alloc, layout)?;
    let mut text = Vec::new(alloc);
    for register in 0..keys.count() {
        add_line(&mut text, net, layout, &names, register, keys.key(register))?;
    }
    Ok(text)
}

// Appends the line of a register.
#[tactic(auto, unfolding(crate::specs::Names::name_line), using(std::proofs::Common::append_assoc))]
fn add_line(
    out: &mut Vec<u8>,
    net: &Netlist,
    layout: &Layout<'_>,
    names: &Names,
    register: u32,
    key: Key,
) -> Result<(), NoMemory>
    requires regs { length net.now.parts.regs ≡ length (keys_of layout.now) }
    requires inside { register < length (keys_of layout.now) }
    requires key { key ≡ key_at layout.now register }
    requires targets { names.now.targets.items ≡ names_of (targets_of layout.now.decls) }
    requires pipes { names.now.pipes.items ≡ names_of (pipes_of layout.now.decls) }
    requires hints { names.now.hints.items ≡ names_of (hints_of layout.now.decls) }
    ensures { OnOk result (out.new.items ≡ out.old.items ++ name_line net.now layout.now register) }
{
    let reg = &net.parts().regs.as_slice()[register as usize];
    out.extend_from_slice(reg.name.bytes())?;
    out.extend_from_slice(b" ")?;
    add_stored(out, layout, names, key)?;
    out.extend_from_slice(b"\n")?;
    Ok(())
}

/// Appends what the register of a key stores, by the names of the job. The only error is out of memory.
pub fn add_stored(
    out: &mut Vec<u8>,
    layout: &Layout<'_>,
    names: &Names,
    key: Key,
) -> Result<(), NoMemory>
    requires targets { names.now.targets.items ≡ names_of (targets_of layout.now.decls) }
    requires pipes { names.now.pipes.items ≡ names_of (pipes_of layout.now.decls) }
    requires hints { names.now.hints.items ≡ names_of (hints_of layout.now.decls) }
    ensures { OnOk result (out.new.items ≡ out.old.items ++ stored layout.now key) }
{
    let targets = names.targets.as_slice();
    match key {
        Key::Visible(t) => add_named(out, b"register ", name_at(targets, t)),
        Key::Full(k) => add_number(out, b"full ", k),
        Key::Pipe(x, k) => add_in_stage(out, b"pipe ", name_at(names.pipes.as_slice(), x), k),
        Key::Valid(t, k) => add_in_stage(out, b"set ", name_at(targets, t), k),
        Key::Value(t, k) => add_in_stage(out, b"result ", name_at(targets, t), k),
        Key::Pending(g, k) => add_guess(out, b"pending ", targets, guess_at(layout, g), k),
        Key::Guess(g, k) => add_guess(out, b"guess ", targets, guess_at(layout, g), k),
        Key::Hint(h) => add_named(out, b"hint ", name_at(names.hints.as_slice(), h)),
    }
}

// Appends a kind and a name.
#[tactic(auto, using(std::proofs::Common::append_assoc))]
fn add_named(out: &mut Vec<u8>, kind: &[u8], name: &[u8]) -> Result<(), NoMemory>
    ensures { OnOk result (out.new.items ≡ out.old.items ++ (kind.now ++ name.now)) }
{
    out.extend_from_slice(kind)?;
    out.extend_from_slice(name)?;
    Ok(())
}

// Appends a kind or a blank, and a number.
#[tactic(auto, using(std::proofs::Common::append_assoc))]
fn add_number(out: &mut Vec<u8>, kind: &[u8], number: u32) -> Result<(), NoMemory>
    ensures { OnOk result (out.new.items ≡ out.old.items ++ (kind.now ++ decimal number)) }
{
    let mut digits = Buffer::new();
    add_named(out, kind, digits.format(number).as_bytes())
}

// Appends a kind, a name and a stage.
#[tactic(auto, unfolding(crate::specs::Names::in_stage), using(std::proofs::Common::append_assoc))]
fn add_in_stage(out: &mut Vec<u8>, kind: &[u8], name: &[u8], stage: u32) -> Result<(), NoMemory>
    ensures { OnOk result (out.new.items ≡ out.old.items ++ (kind.now ++ in_stage name.now stage)) }
{
    add_named(out, kind, name)?;
    add_number(out, b" ", stage)
}

// Appends a kind, the register of a guess, the stage of which it is stored, and that of the guessed read.
#[tactic(auto, unfolding(crate::specs::Names::guess_in), using(std::proofs::Common::append_assoc))]
fn add_guess(
    out: &mut Vec<u8>,
    kind: &[u8],
    targets: &[Name],
    guess: GuessSlot,
    stage: u32,
) -> Result<(), NoMemory>
    ensures { OnOk result (out.new.items ≡ out.old.items ++ (kind.now ++ guess_in targets.now guess stage)) }
{
    add_in_stage(out, kind, name_at(targets, guess.register), stage)?;
    add_number(out, b" ", guess.stage)
}

// The guess with this number, or one of register 0 in stage 0.
fn guess_at(layout: &Layout<'_>, number: u32) -> GuessSlot
    ensures { result ≡ guess_at layout.now number }
{
    match layout.guesses().get(number as usize) {
        Some(guess) => *guess,
        None => GuessSlot {
            stage: 0,
            index: 0,
            register: 0,
            width: 0,
            write: 0,
        },
    }
}
