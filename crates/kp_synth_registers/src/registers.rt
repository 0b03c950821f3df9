//! The nodes that read the registers, the samples, the stall word and the files.
ghost use Rattle.std.specs.Prelude.{◌≡◌, ℕ, ◌+◌, ◌%◌, ◌^◌, ◌<◌, ◌≤◌, length, IfOk, OnOk, false};
ghost use Rattle.kp_pipeline.specs.Pipeline.{PipelineState, Inputs};
ghost use Rattle.kp_machine.specs.Slots.{targets_of, samples_of, is_register};
ghost use Rattle.kp_machine.specs.Machine.{files_before};
ghost use Rattle.kp_net.specs.Nodes.{Cells, at};
ghost use Rattle.kp_net.specs.Growth.{Held, Wire};
ghost use Rattle.kp_synth_registers.specs.Keys.{HasKey, key_width, key_at, keys_of};
ghost use Rattle.kp_design.specs.Numbers.{target_at, sample_at};
ghost use Rattle.kp_design.specs.Fits.{IsWidth};
ghost use Rattle.kp_synth_registers.specs.Holding.{Holds};
ghost use Rattle.kp_synth_registers.specs.Meaning.{Gives, Ready, Added};
ghost use Rattle.kp_synth_registers.specs.inner.First.{FirstRead, FirstSamples};

use crate::key::Key;
use crate::keys::Keys;
use kp_base::{List, NoMemory};
use kp_design::Layout;
use kp_net::{Kind, Node, NodeId};
use kp_pool::Pool;
use std::alloc::Global;

/// The nodes that are built before those of the stages. Their meaning in contracts is `Ready`.
pub struct Reads {
    /// What each register stores.
    pub keys: Keys,
    /// One for each register, in the order of the keys: it has the value of the register.
    pub registers: List<NodeId>,
    /// One for each sample: it has the value of the sample.
    pub samples: List<NodeId>,
    /// The node with the value of the stall word.
    pub ext: NodeId,
}

impl Drop for Reads {
    fn drop(self) {
        let Reads {
            keys,
            registers,
            samples,
            ext: _,
        } = self;
        drop(keys);
        drop(registers);
        drop(samples);
    }
}

// The width of a register.
fn width_of(layout: &Layout<'_>, key: Key) -> u8
    requires { HasKey layout.now key }
    ensures width { result ≡ key_width layout.now key }
    ensures fits { IsWidth result }
{
    match key {
        Key::Visible(t) => layout.width(t),
        Key::Pipe(x, _) => layout.pipe_width(x),
        Key::Value(t, _) => layout.width(t),
        Key::Guess(g, _) => layout.guess(g).width,
        Key::Hint(h) => layout.hint(h).width,
        _ => 1,
    }
}

// The node that reads a register.
#[tactic(auto, using(crate::proofs::Cells::reg_value, crate::proofs::Cells::reg_added))]
fn register(pool: &mut Pool, layout: &Layout<'_>, r: u32, width: u8) -> NodeId
    requires room { 1 ≤ pool.old.spare }
    requires inside { r < length (keys_of layout.now) }
    requires width { width ≡ key_width layout.now (key_at layout.now r) }
    requires fits { IsWidth width }
    ensures wire { Wire pool.new result (key_width layout.now (key_at layout.now r)) }
    ensures value { (c : Cells) → at c pool.new.nodes result.0 ≡ c.reg r % 2 ^ key_width layout.now (key_at layout.now r) }
    ensures added { Added layout.now pool.old pool.new 1 }
{
    pool.node(Node {
        width,
        kind: Kind::Reg(r),
    })
}

// The node of a sample.
#[tactic(auto, using(crate::proofs::Cells::sample_gives, crate::proofs::Cells::sample_added))]
fn sample(pool: &mut Pool, layout: &Layout<'_>, x: u32) -> NodeId
    requires room { 1 ≤ pool.old.spare }
    requires inside { x < length (samples_of layout.now.decls) }
    ensures wire { Wire pool.new result (sample_at layout.now x).width }
    ensures gives { Gives layout.now pool.new result (λ st i. i.samples x) }
    ensures added { Added layout.now pool.old pool.new 1 }
{
    pool.node(Node {
        width: layout.sample(x),
        kind: Kind::Sample(x),
    })
}

// The node of the stall word.
#[tactic(auto, using(crate::proofs::Cells::ext_value, crate::proofs::Cells::ext_added))]
fn stall_word(pool: &mut Pool, layout: &Layout<'_>) -> NodeId
    requires room { 1 ≤ pool.old.spare }
    ensures wire { Wire pool.new result layout.now.stages.value }
    ensures value { (c : Cells) → at c pool.new.nodes result.0 ≡ c.ext % 2 ^ layout.now.stages.value }
    ensures added { Added layout.now pool.old pool.new 1 }
{
    pool.node(Node {
        width: layout.stages() as u8,
        kind: Kind::Ext,
    })
}

// The nodes of the registers.
fn registers(
    alloc: Global,
    pool: &mut Pool,
    layout: &Layout<'_>,
    keys: &Keys,
) -> Result<List<NodeId>, NoMemory>
    requires keys { keys.now ≡ keys_of layout.now }
    requires room { length (keys_of layout.now) ≤ pool.old.spare }
    ensures count { IfOk result (λ nodes. length nodes ≡ length (keys_of layout.now)) }
    ensures read { IfOk result (λ nodes. FirstRead layout.now pool.new nodes) }
    ensures added { OnOk result (Added layout.now pool.old pool.new (length (keys_of layout.now))) }
{
    let mut nodes = Vec::new(alloc);
    for r in 0..keys.count() {
        let width = width_of(layout, keys.key(r));
        nodes.push(register(pool, layout, r, width))?;
    }
    Ok(List::new(nodes))
}

// The nodes of the samples.
fn samples(alloc: Global, pool: &mut Pool, layout: &Layout<'_>) -> Result<List<NodeId>, NoMemory>
    requires room { length (samples_of layout.now.decls) ≤ pool.old.spare }
    ensures count { IfOk result (λ nodes. length nodes ≡ length (samples_of layout.now.decls)) }
    ensures read { IfOk result (λ nodes. FirstSamples layout.now pool.new nodes) }
    ensures added { OnOk result (Added layout.now pool.old pool.new (length (samples_of layout.now.decls))) }
{
    let mut nodes = Vec::new(alloc);
    for x in 0..layout.sample_count() {
        nodes.push(sample(pool, layout, x))?;
    }
    Ok(List::new(nodes))
}

/// Builds the nodes that read the registers, the samples and the stall word. They are the first nodes of a job. Error: out of memory.
pub fn read_cells(alloc: Global, pool: &mut Pool, layout: &Layout<'_>) -> Result<Reads, NoMemory>
    requires room { length (keys_of layout.now) + length (samples_of layout.now.decls) + 1 ≤ pool.old.spare }
    ensures ready { IfOk result (λ reads. Ready layout.now pool.new reads) }
    ensures added { OnOk result (Added layout.now pool.old pool.new (length (keys_of layout.now) + length (samples_of layout.now.decls) + 1)) }
{
    let keys = Keys::of(alloc, layout)?;
    let registers = registers(alloc, pool, layout, &keys)?;
    let samples = samples(alloc, pool, layout)?;
    let ext = stall_word(pool, layout);
    Ok(Reads {
        keys,
        registers,
        samples,
        ext,
    })
}

/// The word of a file at an address, as it is at the start of the cycle. `file` is the number of the target among the files.
#[tactic(auto, using(crate::proofs::Cells::word_added))]
pub fn word_in(
    pool: &mut Pool,
    layout: &Layout<'_>,
    target: u32,
    file: u32,
    address: NodeId,
) -> NodeId
    requires room { 1 ≤ pool.old.spare }
    requires target { target < length (targets_of layout.now.decls) }
    requires is_file { is_register (target_at layout.now target) ≡ false }
    requires file { file ≡ files_before (targets_of layout.now.decls) target }
    requires address { Wire pool.old address (target_at layout.now target).address }
    ensures wire { Wire pool.new result (target_at layout.now target).width }
    ensures value { (c : Cells) (st : PipelineState) (i : Inputs) → Holds layout.now c st i → at c pool.new.nodes result.0 ≡ st.visible target (at c pool.old.nodes address.0) }
    ensures added { Added layout.now pool.old pool.new 1 }
{
    pool.node(Node {
        width: layout.width(target),
        kind: Kind::Word(file, address),
    })
}
