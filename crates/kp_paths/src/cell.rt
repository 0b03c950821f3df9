// The cells of the table.
ghost use Rattle.std.specs.Prelude.{◌≡◌, ◌≤◌, length};
ghost use Rattle.kp_paths.specs.Text.{cell_word};
ghost use Rattle.kp_paths.specs.inner.Ported.{cell_by, had_cell, later_cell};
ghost use Rattle.kp_paths.specs.Cells.{unmet};

use kp_design::Port;

/// What a stage has for a read.
#[derive(Clone, Copy)]
pub enum Cell {
    /// The stage of the read itself.
    Reads,
    /// The stage can't give it a value.
    Empty,
    /// It has no value for the read, which waits.
    Wait,
    /// It has no value for the read, which goes on with its guess.
    Guess,
    /// It has a value where a set has taken place.
    Maybe,
    /// It has a value once it isn't stalled.
    Bypass,
}

impl Cell {
    /// The word of a cell.
    pub fn word(self) -> &'static [u8]
        ensures value { result.now ≡ cell_word self }
        ensures few { length result.now ≤ 6 }
    {
        match self {
            Cell::Reads => b"reads",
            Cell::Empty => b".",
            Cell::Wait => b"wait",
            Cell::Guess => b"guess",
            Cell::Maybe => b"maybe",
            Cell::Bypass => b"bypass",
        }
    }
}

// The cell of stage j for a read in stage k, from how its target is written and whether it has been set.
pub(crate) fn cell_of(
    port: Option<Port>,
    is_guessed: bool,
    k: usize,
    j: usize,
    is_set: bool,
    is_surely_set: bool,
) -> Cell
    ensures { result ≡ cell_by port is_guessed k j is_set is_surely_set }
{
    if j == k {
        Cell::Reads
    } else {
        later_cell_of(port, is_guessed, k, j, is_set, is_surely_set)
    }
}

fn later_cell_of(
    port: Option<Port>,
    is_guessed: bool,
    k: usize,
    j: usize,
    is_set: bool,
    is_surely_set: bool,
) -> Cell
    ensures { result ≡ later_cell port is_guessed k j is_set is_surely_set }
{
    match port {
        Some(port) => {
            if k < j && j <= port.write as usize {
                had_cell_of(port, is_guessed, j, is_set, is_surely_set)
            } else {
                Cell::Empty
            }
        }
        None => Cell::Empty,
    }
}

fn had_cell_of(port: Port, is_guessed: bool, j: usize, is_set: bool, is_surely_set: bool) -> Cell
    ensures { result ≡ had_cell port is_guessed j is_set is_surely_set }
{
    if j < port.known as usize {
        unmet_cell(is_guessed)
    } else if is_surely_set || j == port.write as usize {
        Cell::Bypass
    } else if is_set {
        Cell::Maybe
    } else {
        unmet_cell(is_guessed)
    }
}

fn unmet_cell(is_guessed: bool) -> Cell
    ensures { result ≡ unmet is_guessed }
{
    if is_guessed { Cell::Guess } else { Cell::Wait }
}
