//! The values that were guessed, read from the registers of a netlist that runs.
//!
//! `specs/Guessed.antt` defines the value that was guessed for a register, by the guesses that are pending in a stage of the pipeline.

ghost use Rattle.std.specs.Prelude.{◌≡◌, ◌<◌, ◌≤◌, ◌^◌, ◌%◌, true, length};
ghost use Rattle.std.specs.List.{list_any};
ghost use Rattle.kp_bits.specs.Word.{word};
ghost use Rattle.kp_net.specs.Netlist.{cells_of, stalled};
ghost use Rattle.kp_pipeline.specs.Pipeline.{Inputs, PipelineState};
ghost use Rattle.kp_synth_registers.specs.Holding.{Holds, kept_in};
ghost use Rattle.kp_synth_registers.specs.Keys.{HasKey, key_width, keys_of};
ghost use Rattle.kp_design.specs.{Numbers.guess_at, Numbers.guesses_of, Spans.is_carried};
ghost use Rattle.kp_stalls_run.specs.Guessed.{guessed_word, is_other_guess};
ghost use Rattle.kp_stalls_run.specs.inner.Held.{first_word, held_from, is_disputed as is_disputed_in, is_other_value, word_of};

use kp_bits::Bits;
use kp_cycle::Sim;
use kp_design::{GuessSlot, Layout};
use kp_synth_registers::{Key, Keys};

/// The value that was guessed for a register, by the guesses that a stage holds in a netlist whose registers hold the state of the pipeline.
pub(crate) fn guessed(
    layout: &Layout<'_>,
    keys: &Keys,
    sim: &Sim<'_>,
    stage: usize,
    register: usize,
) -> Option<Bits>
    requires keys { keys.now ≡ keys_of layout.now }
    requires registers { length sim.now.net.parts.regs ≡ length (keys_of layout.now) }
    requires few { length (guesses_of layout.now) ≤ 8 }
    requires stage { stage < layout.now.stages.value }
    ensures { (st : PipelineState) (i : Inputs) → Holds layout.now (cells_of (stalled 0) sim.now.state) st i
        → result ≡ guessed_word layout.now register (st.stage stage).pending }
{
    let found = first(layout, keys, sim, stage, register);
    if is_disputed(layout, keys, sim, stage, register, &found) {
        None
    } else {
        found
    }
}

// Whether a guess of a register that is pending in a stage has another value than the one that was found, if one was.
fn is_disputed(
    layout: &Layout<'_>,
    keys: &Keys,
    sim: &Sim<'_>,
    stage: usize,
    register: usize,
    found: &Option<Bits>,
) -> bool
    requires keys { keys.now ≡ keys_of layout.now }
    requires registers { length sim.now.net.parts.regs ≡ length (keys_of layout.now) }
    requires few { length (guesses_of layout.now) ≤ 8 }
    requires stage { stage < layout.now.stages.value }
    ensures { result ≡ is_disputed_in register (held_from layout.now (cells_of (stalled 0) sim.now.state) stage 0 (guesses_of layout.now)) found.now }
{
    match *found {
        Some(value) => differs(layout, keys, sim, stage, register, value),
        None => false,
    }
}

// The first guess of a register that is pending in a stage.
#[tactic(auto, using(crate::proofs::GuessSteps::first_here, crate::proofs::GuessSteps::first_next, crate::proofs::GuessSteps::first_end))]
fn first(
    layout: &Layout<'_>,
    keys: &Keys,
    sim: &Sim<'_>,
    stage: usize,
    register: usize,
) -> Option<Bits>
    requires keys { keys.now ≡ keys_of layout.now }
    requires registers { length sim.now.net.parts.regs ≡ length (keys_of layout.now) }
    requires few { length (guesses_of layout.now) ≤ 8 }
    requires stage { stage < layout.now.stages.value }
    ensures { result ≡ first_word layout.now (cells_of (stalled 0) sim.now.state) stage register 0 (guesses_of layout.now) }
{
    for g in 0..layout.guesses().len() {
        let value = pending(layout, keys, sim, g as u32, stage, register);
        if value.is_some() {
            return value;
        }
    }
    None
}

// Whether a guess of a register that is pending in a stage has another value.
#[tactic(auto, using(crate::proofs::GuessSteps::other_here, crate::proofs::GuessSteps::other_next, crate::proofs::GuessSteps::other_end))]
fn differs(
    layout: &Layout<'_>,
    keys: &Keys,
    sim: &Sim<'_>,
    stage: usize,
    register: usize,
    value: Bits,
) -> bool
    requires keys { keys.now ≡ keys_of layout.now }
    requires registers { length sim.now.net.parts.regs ≡ length (keys_of layout.now) }
    requires few { length (guesses_of layout.now) ≤ 8 }
    requires stage { stage < layout.now.stages.value }
    ensures { result ≡ list_any (is_other_guess register value.value) (held_from layout.now (cells_of (stalled 0) sim.now.state) stage 0 (guesses_of layout.now)) }
{
    for g in 0..layout.guesses().len() {
        if is_other(pending(layout, keys, sim, g as u32, stage, register), value) {
            return true;
        }
    }
    false
}

fn is_other(found: Option<Bits>, value: Bits) -> bool
    ensures { result ≡ is_other_value value.value found }
{
    match found {
        Some(other) => other.value() != value.value(),
        None => false,
    }
}

// The value of a guess, if it is one of a register that is pending in a stage.
fn pending(
    layout: &Layout<'_>,
    keys: &Keys,
    sim: &Sim<'_>,
    guess: u32,
    stage: usize,
    register: usize,
) -> Option<Bits>
    requires keys { keys.now ≡ keys_of layout.now }
    requires registers { length sim.now.net.parts.regs ≡ length (keys_of layout.now) }
    requires guess { guess < length (guesses_of layout.now) }
    requires stage { stage < layout.now.stages.value }
    ensures { result ≡ word_of layout.now (cells_of (stalled 0) sim.now.state) stage register guess (guess_at layout.now guess) }
{
    let slot = layout.guess(guess);
    let _fits = layout.stages();
    let stage = stage as u32;
    if can_be_pending(slot, stage)
        && kept(layout, keys, sim, Key::Pending(guess, stage), 1).value() == 1
        && slot.register as usize == register
    {
        Some(kept(layout, keys, sim, Key::Guess(guess, stage), slot.width))
    } else {
        None
    }
}

// Whether a guess can be pending in a stage.
fn can_be_pending(slot: GuessSlot, stage: u32) -> bool
    ensures { result ≡ is_carried slot stage }
{
    slot.stage < stage && stage < slot.write
}

// What the register of a key holds.
#[tactic(auto, using(kp_synth_registers::proofs::Places::has_place, kp_synth_registers::proofs::Places::place_is), unfolding(kp_synth_registers::specs::Holding::kept_in))]
fn kept(layout: &Layout<'_>, keys: &Keys, sim: &Sim<'_>, key: Key, width: u8) -> Bits
    requires keys { keys.now ≡ keys_of layout.now }
    requires registers { length sim.now.net.parts.regs ≡ length (keys_of layout.now) }
    requires key { HasKey layout.now key }
    requires width { width ≡ key_width layout.now key }
    requires positive { 1 ≤ width }
    requires at_most { width ≤ 64 }
    ensures { result ≡ word width (kept_in layout.now (cells_of (stalled 0) sim.now.state) key) }
{
    low_bits(sim.value(keys.place(key)).value(), width)
}

// A word of the lowest bits of a number.
fn low_bits(n: u64, width: u8) -> Bits
    requires positive { 1 ≤ width }
    requires at_most { width ≤ 64 }
    ensures { result ≡ word width (n % 2 ^ width) }
{
    Bits::new(width, mask(n, width)).unwrap()
}

#[tactic(auto, using(std::proofs::lemmas::Nat::and_mask, std::proofs::lemmas::Nat::pow_pos, kp_bits::proofs::Powers::mask_of))]
fn mask(n: u64, width: u8) -> u64
    requires positive { 1 ≤ width }
    requires at_most { width ≤ 64 }
    ensures value { result ≡ n % 2 ^ width }
    ensures fits { result < 2 ^ width }
{
    n & (u64::MAX >> (64 - width))
}
