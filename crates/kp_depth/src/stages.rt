// The longest paths of the stages, and the bits of their registers.
ghost use Rattle.std.specs.Prelude.{◌≡◌, ◌+◌, ◌*◌, ◌<◌, ◌≤◌, None, fold, length, get_or, IfOk};
ghost use Rattle.kp_net.specs.Parts.{no_reg};
ghost use Rattle.kp_synth_registers.specs.Keys.{keys_of};
ghost use Rattle.kp_depth.specs.Times.{known_time, times_of};
ghost use Rattle.kp_depth.specs.Ends.{ends_of as all_ends};
ghost use Rattle.kp_depth.specs.Depths.{bits_below, held_bits, held_in, is_at as is_at_end, is_same_sort, row_count as row_number, IsDepth, IsLongest, IsRow};
ghost use Rattle.kp_depth.specs.inner.Latest.{is_later as is_later_end, later as later_end, Reaches};

use crate::ends::{End, Sort, ends_of};
use crate::path::descend;
use crate::time::{Input, Times};
use kp_base::NoMemory;
use kp_design::Layout;
use kp_net::Netlist;
use kp_synth_registers::{Key, Keys};
use std::alloc::Global;

/// A longest path: its end, the operands from there down, and its length.
#[derive(Drop)]
pub struct Path {
    pub end: End,
    pub steps: Vec<Input>,
    pub length: u64,
}

/// The longest paths of a stage, and the number of bits in the registers after it.
#[derive(Drop)]
pub struct Row {
    pub to_data: Option<Path>,
    pub to_control: Option<Path>,
    pub bits: u64,
}

/// The times of the nodes of a netlist, and a row for each stage. Where files are outside, a last row has the addresses of words.
#[derive(Drop)]
pub struct Depths {
    pub times: Times,
    pub rows: Vec<Row>,
}

impl Sort {
    fn is(self, other: Sort) -> bool
        ensures { result ≡ is_same_sort self other }
    {
        match self {
            Sort::Data => matches!(other, Sort::Data),
            Sort::Control => matches!(other, Sort::Control),
        }
    }
}

fn is_at(end: End, stage: u32, sort: Sort) -> bool
    ensures { result ≡ is_at_end stage sort end }
{
    end.stage == stage && end.sort.is(sort)
}

fn is_later(times: &Times, end: End, best: Option<End>) -> bool
    ensures { result ≡ is_later_end (known_time times.now.all.items) best end }
{
    match best {
        None => true,
        Some(best) => times.at(best.node).arrival < times.at(end.node).arrival,
    }
}

fn later(times: &Times, stage: u32, sort: Sort, best: Option<End>, end: End) -> Option<End>
    ensures { result ≡ later_end (known_time times.now.all.items) stage sort best end }
{
    if is_at(end, stage, sort) && is_later(times, end, best) {
        Some(end)
    } else {
        best
    }
}

// The end of a stage that is reached last.
#[tactic(auto, using(crate::proofs::Latest::latest_none, crate::proofs::Latest::latest_more))]
fn latest(times: &Times, ends: &[End], stage: u32, sort: Sort) -> Option<End>
    ensures { Reaches (known_time times.now.all.items) stage sort ends.now result }
{
    let mut best = None;
    for end in ends {
        best = later(times, stage, sort, best, *end);
    }
    best
}

// A longest path to the ends of a stage, if it has any.
#[tactic(auto, using(crate::proofs::Latest::longest_of))]
fn longest(
    alloc: Global,
    net: &Netlist,
    times: &Times,
    ends: &[End],
    stage: u32,
    sort: Sort,
) -> Result<Option<Path>, NoMemory>
    requires { times.now.all.items ≡ times_of net.now.nodes times.now.inside }
    ensures { IfOk result (λ path. IsLongest net.now.nodes times.now.inside stage sort ends.now path) }
{
    let _nodes = net.nodes();
    let Some(end) = latest(times, ends, stage, sort) else {
        return Ok(None);
    };
    let steps = descend(alloc, net, times, end.node)?;
    let length = times.at(end.node).arrival;
    Ok(Some(Path { end, steps, length }))
}

/// The stage whose state a register holds, or 0 if it belongs to none.
pub(crate) fn held_by(key: Key) -> u32
    ensures { result ≡ held_in key }
{
    match key {
        Key::Full(k)
        | Key::Pipe(_, k)
        | Key::Valid(_, k)
        | Key::Value(_, k)
        | Key::Pending(_, k)
        | Key::Guess(_, k) => k,
        Key::Visible(_) | Key::Hint(_) => 0,
    }
}

// The bits of a register, if it holds the state of a stage.
fn bits_of(net: &Netlist, layout: &Layout<'_>, keys: &Keys, stage: u32, r: u32) -> u8
    requires keys { keys.now ≡ keys_of layout.now }
    requires regs { length net.now.parts.regs ≡ length (keys_of layout.now) }
    requires inside { r < length (keys_of layout.now) }
    ensures { result ≡ held_bits layout.now net.now stage r }
{
    if held_by(keys.key(r)) == stage {
        net.parts().regs.as_slice()[r as usize].start.width()
    } else {
        0
    }
}

// The bits of all registers that hold the state of a stage.
fn bits_in(net: &Netlist, layout: &Layout<'_>, keys: &Keys, stage: u32) -> u64
    requires keys { keys.now ≡ keys_of layout.now }
    requires regs { length net.now.parts.regs ≡ length (keys_of layout.now) }
    ensures { result ≡ bits_below layout.now net.now stage (length (keys_of layout.now)) }
{
    let mut bits: u64 = 0;
    for r in 0..keys.count() {
        bits += bits_of(net, layout, keys, stage, r) as u64;
    }
    bits
}

fn row_of(
    alloc: Global,
    net: &Netlist,
    layout: &Layout<'_>,
    keys: &Keys,
    times: &Times,
    ends: &[End],
    stage: u32,
) -> Result<Row, NoMemory>
    requires keys { keys.now ≡ keys_of layout.now }
    requires regs { length net.now.parts.regs ≡ length (keys_of layout.now) }
    requires times { times.now.all.items ≡ times_of net.now.nodes times.now.inside }
    requires few { stage ≤ 4096 }
    ensures { IfOk result (λ row. IsRow layout.now net.now times.now.inside ends.now stage row) }
{
    let to_data = longest(alloc, net, times, ends, stage, Sort::Data)?;
    let to_control = longest(alloc, net, times, ends, stage, Sort::Control)?;
    let bits = bits_in(net, layout, keys, stage + 1);
    Ok(Row {
        to_data,
        to_control,
        bits,
    })
}

fn row_count(layout: &Layout<'_>, inside: bool) -> u32
    ensures value { result ≡ row_number layout.now inside }
    ensures few { result ≤ 4096 }
{
    if inside {
        layout.stages()
    } else {
        layout.stages() + 1
    }
}

/// The depths of a netlist of a design. The only error is out of memory.
pub fn depths_of(
    alloc: Global,
    net: &Netlist,
    layout: &Layout<'_>,
    inside: bool,
) -> Result<Depths, NoMemory>
    requires { length net.now.parts.regs ≡ length (keys_of layout.now) }
    ensures depth { IfOk result (λ depths. IsDepth layout.now net.now inside depths) }
    ensures few { IfOk result (λ depths. length depths.rows.items ≤ 4096) }
{
    let times = Times::of(alloc, net.nodes(), inside)?;
    let keys = Keys::of(alloc, layout)?;
    let ends = ends_of(alloc, net, layout, &keys, inside)?;
    let mut rows = Vec::new(alloc);
    for k in 0..row_count(layout, inside) {
        let row = row_of(alloc, net, layout, &keys, &times, ends.as_slice(), k)?;
        rows.push(row)?;
    }
    Ok(Depths { times, rows })
}
