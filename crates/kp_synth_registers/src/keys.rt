//! The keys of a design, in the order of the registers.
ghost use Rattle.std.specs.Prelude.{◌≡◌, ◌<◌, ◌≤◌, ◌-◌, ◌++◌, ◌∷◌, [], length, get_or, if◌then◌else◌, IfOk, OnOk};
ghost use Rattle.kp_machine.specs.Slots.{targets_of, pipes_of, hints_of};
ghost use Rattle.kp_design.specs.Numbers.{guesses_of};
ghost use Rattle.kp_design.specs.Spans.{is_carried};
ghost use Rattle.kp_synth_registers.specs.declared.key.Key.TheVariants.{Full};
ghost use Rattle.kp_synth_registers.specs.Keys.{visible_keys, pipe_keys, result_keys, guess_keys, stage_keys, stages_keys, hint_keys, keys_of, place_in};

use crate::key::Key;
use kp_base::NoMemory;
use kp_design::{GuessSlot, Layout};
use std::alloc::Global;
use std::marker::Model;

/// What each register of a netlist stores, in the order of the registers.
pub struct Keys {
    keys: Vec<Key>,
}

impl Drop for Keys {
    fn drop(self) {
        let Keys { keys } = self;
        drop(keys);
    }
}

impl Model for Keys {
    ghost use Rattle.std.specs.Prelude.{◌≤◌, List, length};
    ghost use Rattle.kp_synth_registers.specs.declared.key.Key.{Key};

    ghost Value = { List Key };

    ghost view = { λ k. k.keys.items };

    ghost invariant = { λ k. length k.keys.items ≤ 4096 };
}

impl Keys {
    /// The keys of a design. Error: out of memory.
    pub fn of(alloc: Global, layout: &Layout<'_>) -> Result<Keys, NoMemory>
        ensures { IfOk result (λ keys. keys ≡ keys_of layout.now) }
    {
        let keys = all_keys(alloc, layout)?;
        Ok(Keys { keys })
    }

    /// The number of registers.
    pub fn count(&self) -> u32
        ensures count { result ≡ length self.now }
        ensures few { result ≤ 4096 }
    {
        self.keys.len() as u32
    }

    /// What a register stores.
    pub fn key(&self, register: u32) -> Key
        requires { register < length self.now }
        ensures { result ≡ get_or self.now register (Full 0) }
    {
        self.keys[register as usize]
    }

    /// The number of the first register of a key, or the number of registers if there is none.
    pub fn place(&self, key: Key) -> u32
        ensures { result ≡ place_in self.now key }
    {
        place(self.keys.as_slice(), key) as u32
    }
}

// The index of a key in a list, or the length of the list.
fn place(keys: &[Key], key: Key) -> usize
    ensures place { result ≡ place_in keys.now key }
    ensures within { result ≤ length keys.now }
{
    for (r, x) in keys.iter().enumerate() {
        if key == *x {
            return r;
        }
    }
    keys.len()
}

// Adds a key if a test is passed.
fn add_if(keys: &mut Vec<Key>, test: bool, key: Key) -> Result<(), NoMemory>
    ensures { OnOk result (keys.new.items ≡ keys.old.items ++ (if test then key ∷ [] else [])) }
{
    if test {
        keys.push(key)?;
    }
    Ok(())
}

// Adds the visible registers.
fn add_visible(keys: &mut Vec<Key>, layout: &Layout<'_>) -> Result<(), NoMemory>
    ensures { OnOk result (keys.new.items ≡ keys.old.items ++ visible_keys 0 (targets_of layout.now.decls)) }
{
    for t in 0..layout.target_count() {
        add_if(keys, layout.is_register(t), Key::Visible(t))?;
    }
    Ok(())
}

// Adds the pipes of a stage.
fn add_pipes(keys: &mut Vec<Key>, stage: u32, layout: &Layout<'_>) -> Result<(), NoMemory>
    ensures { OnOk result (keys.new.items ≡ keys.old.items ++ pipe_keys layout.now stage 0 (pipes_of layout.now.decls)) }
{
    for x in 0..layout.pipe_count() {
        add_if(keys, layout.is_piped(x, stage), Key::Pipe(x, stage))?;
    }
    Ok(())
}

// Adds the results of a stage.
fn add_results(keys: &mut Vec<Key>, stage: u32, layout: &Layout<'_>) -> Result<(), NoMemory>
    ensures { OnOk result (keys.new.items ≡ keys.old.items ++ result_keys layout.now stage 0 (targets_of layout.now.decls)) }
{
    for t in 0..layout.target_count() {
        let is_stored = layout.is_stored(t, stage);
        add_if(keys, is_stored, Key::Valid(t, stage))?;
        add_if(keys, is_stored, Key::Value(t, stage))?;
    }
    Ok(())
}

// Whether a guess can be pending in a stage.
fn is_carried(slot: GuessSlot, stage: u32) -> bool
    ensures { result ≡ is_carried slot stage }
{
    slot.stage < stage && stage < slot.write
}

// Adds the guesses of a stage.
fn add_guesses(keys: &mut Vec<Key>, stage: u32, slots: &[GuessSlot]) -> Result<(), NoMemory>
    requires few { length slots.now ≤ 65536 }
    ensures { OnOk result (keys.new.items ≡ keys.old.items ++ guess_keys stage 0 slots.now) }
{
    for (g, slot) in slots.iter().enumerate() {
        if is_carried(*slot, stage) {
            keys.push(Key::Pending(g as u32, stage))?;
            keys.push(Key::Guess(g as u32, stage))?;
        }
    }
    Ok(())
}

// Adds the registers of a stage.
#[tactic(auto, using(std::proofs::Common::append_assoc))]
fn add_stage(keys: &mut Vec<Key>, stage: u32, layout: &Layout<'_>) -> Result<(), NoMemory>
    requires few { length (guesses_of layout.now) ≤ 65536 }
    ensures { OnOk result (keys.new.items ≡ keys.old.items ++ stage_keys layout.now stage) }
{
    keys.push(Key::Full(stage))?;
    add_pipes(keys, stage, layout)?;
    add_results(keys, stage, layout)?;
    add_guesses(keys, stage, layout.guesses())
}

// Adds the registers of the stages from one on.
fn add_stages(keys: &mut Vec<Key>, stages: u32, layout: &Layout<'_>) -> Result<(), NoMemory>
    requires some { 1 ≤ stages }
    requires few { length (guesses_of layout.now) ≤ 65536 }
    ensures { OnOk result (keys.new.items ≡ keys.old.items ++ stages_keys layout.now (stages - 1) 1) }
{
    for k in 1..stages {
        add_stage(keys, k, layout)?;
    }
    Ok(())
}

// Adds the hints.
fn add_hints(keys: &mut Vec<Key>, layout: &Layout<'_>) -> Result<(), NoMemory>
    ensures { OnOk result (keys.new.items ≡ keys.old.items ++ hint_keys 0 (hints_of layout.now.decls)) }
{
    for h in 0..layout.hint_count() {
        keys.push(Key::Hint(h))?;
    }
    Ok(())
}

// All keys. There are few, since the design violates no rule.
fn all_keys(alloc: Global, layout: &Layout<'_>) -> Result<Vec<Key>, NoMemory>
    ensures keys { IfOk result (λ keys. keys.items ≡ keys_of layout.now) }
    ensures few { IfOk result (λ keys. length keys.items ≤ 4096) }
{
    let design = layout.design();
    let _job = design.job();
    let stages = layout.stages();
    let mut keys = Vec::new(alloc);
    add_visible(&mut keys, layout)?;
    add_stages(&mut keys, stages, layout)?;
    add_hints(&mut keys, layout)?;
    Ok(keys)
}
