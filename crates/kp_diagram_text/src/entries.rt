// The instructions that have a line in a window.
ghost use Rattle.std.specs.Prelude.{◌≡◌, ◌<◌, ◌≤◌, ◌∷◌, [], ◌++◌, All, IfOk, OnOk, cond, false, get_or, length, map};
ghost use Rattle.kp_diagram.specs.Diagram.{is_last, retires as does_retire};
ghost use Rattle.kp_diagram.specs.Flights.{carried, entering};
ghost use Rattle.kp_diagram_text.specs.Charts.{IsDrawable, ext_of, rows_of};
ghost use Rattle.kp_diagram_text.specs.Labelled.{IsEntry, fetch_at};
ghost use Rattle.kp_diagram_text.specs.Windows.{IsWindow, placed_seen, window_lines};
ghost use Rattle.kp_diagram_text.specs.Marks.{shown};

use crate::cells::{Mark, fetches_next, mark_of, next_place};
use crate::chart::Chart;
use crate::window::{Placed, Window};
use kp_base::NoMemory;
use std::alloc::Global;

/// An instruction that has a line: its number, the first cycle of the window in which it is in a stage, counted from the start of the window, and this stage.
#[derive(Clone, Copy)]
pub struct Entry {
    pub number: u64,
    pub cycle: usize,
    pub stage: u8,
}

/// The instructions that have a line in a window, in the order of the lines. The only error is out of memory.
pub fn entries_of(
    alloc: Global,
    chart: &Chart<'_>,
    window: &Window<'_>,
) -> Result<Vec<Entry>, NoMemory>
    requires drawable { IsDrawable chart.now }
    requires window { IsWindow chart.now window.now }
    ensures entries { IfOk result (λ entries. map (fetch_at chart.now) entries.items ≡ window_lines chart.now window.now) }
    ensures within { IfOk result (λ entries. All (IsEntry chart.now) entries.items) }
{
    let mut entries = Vec::new(alloc);
    add_flight(chart, window.flight, &mut entries)?;
    add_entering(chart, window.numbers, &mut entries)?;
    Ok(entries)
}

// Appends the instructions in flight.
fn add_flight(
    _chart: &Chart<'_>,
    flight: &[Placed],
    entries: &mut Vec<Entry>,
) -> Result<(), NoMemory>
    requires some { 1 ≤ length _chart.now.rows.now }
    requires placed { All (λ (p : Placed). p.stage < _chart.now.stages) flight.now }
    requires within { All (IsEntry _chart.now) entries.old.items }
    ensures entries { OnOk result (map (fetch_at _chart.now) entries.new.items
        ≡ map (fetch_at _chart.now) entries.old.items ++ carried _chart.now.stages (ext_of _chart.now) 0 (rows_of _chart.now) (map placed_seen flight.now)) }
    ensures within { OnOk result (All (IsEntry _chart.now) entries.new.items) }
{
    for placed in flight {
        entries.push(Entry {
            number: placed.number,
            cycle: 0,
            stage: placed.stage,
        })?;
    }
    Ok(())
}

// Appends those that enter after the first cycle.
fn add_entering(
    chart: &Chart<'_>,
    numbers: &[u64],
    entries: &mut Vec<Entry>,
) -> Result<(), NoMemory>
    requires drawable { IsDrawable chart.now }
    requires numbers { length numbers.now ≡ length chart.now.rows.now }
    requires within { All (IsEntry chart.now) entries.old.items }
    ensures entries { OnOk result (map (fetch_at chart.now) entries.new.items
        ≡ map (fetch_at chart.now) entries.old.items ++ entering chart.now.stages (ext_of chart.now) 0 (λ T. get_or numbers.now T 0) false (rows_of chart.now)) }
    ensures within { OnOk result (All (IsEntry chart.now) entries.new.items) }
{
    let mut enters = false;
    for cycle in 0..chart.rows.len() {
        add_entry(chart, enters, numbers[cycle], cycle, entries)?;
        enters = fetches_next(chart.stages, chart.rows[cycle]);
    }
    Ok(())
}

// Appends the instruction that enters stage 0 in a cycle, if one does.
fn add_entry(
    _chart: &Chart<'_>,
    enters: bool,
    number: u64,
    cycle: usize,
    entries: &mut Vec<Entry>,
) -> Result<(), NoMemory>
    requires drawable { IsDrawable _chart.now }
    requires cycle { cycle < length _chart.now.rows.now }
    requires within { All (IsEntry _chart.now) entries.old.items }
    ensures entries { OnOk result (map (fetch_at _chart.now) entries.new.items
        ≡ map (fetch_at _chart.now) entries.old.items ++ cond enters (fetch_at _chart.now (record { number = number; cycle = cycle; stage = 0 }) ∷ []) []) }
    ensures within { OnOk result (All (IsEntry _chart.now) entries.new.items) }
{
    if enters {
        entries.push(Entry {
            number,
            cycle,
            stage: 0,
        })?;
    }
    Ok(())
}

/// Whether an instruction that has a line leaves the last stage in the window: it is followed through the rows.
pub fn retires(chart: &Chart<'_>, entry: Entry) -> bool
    requires drawable { IsDrawable chart.now }
    requires entry { IsEntry chart.now entry }
    ensures { result ≡ does_retire chart.now.stages (fetch_at chart.now entry).cells }
{
    let mut place = Some(entry.stage);
    for cycle in entry.cycle..chart.rows.len() {
        match place {
            None => return false,
            Some(k) => {
                let row = chart.rows[cycle];
                let mark = mark_of(chart.stages, chart.words[cycle], row, k);
                if leaves(chart.stages, mark, cycle, k) {
                    return true;
                }
                place = next_place(chart.stages, row, k);
            }
        }
    }
    false
}

// Whether an instruction with this mark in stage k of n leaves the last stage.
fn leaves(n: u8, mark: Mark, _cycle: usize, k: u8) -> bool
    requires { k < n }
    ensures { result ≡ is_last n (record { cycle = _cycle; stage = k; mark = shown mark }) }
{
    k + 1 == n && matches!(mark, Mark::Moves)
}
