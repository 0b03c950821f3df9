// The depths as text.
ghost use Rattle.std.specs.Prelude.{◌≡◌, ◌<◌, ◌≤◌, ◌++◌, length, get_or, Some, IfOk, OnOk};
ghost use Rattle.kp_depth.specs.Depths.{no_row};
ghost use Rattle.kp_depth.specs.inner.Named.{IsSource};
ghost use Rattle.kp_depth.specs.Text as text;

use crate::ends::Holder;
use crate::lines::{
    Source, add_holder, add_hundredths, add_length, add_number, add_piece, add_right, add_step,
    add_steps,
};
use crate::stages::{Depths, Path, Row};
use itoa::Buffer;
use kp_base::NoMemory;
use kp_core_ports::Names;
use kp_design::Layout;
use kp_net::Netlist;
use kp_synth_registers::Keys;
use kp_wires::Wire;
use std::alloc::Global;

#[tactic(auto, using(std::proofs::Common::append_assoc))]
fn add_stage(out: &mut Vec<u8>, source: &Source<'_>, k: u32) -> Result<(), NoMemory>
    ensures { OnOk result (out.new.items ≡ out.old.items ++ text.stage_name source.now.layout.now k) }
{
    if k == source.layout.stages() {
        add_piece(out, b"words")
    } else {
        out.extend_from_slice(b"stage ")?;
        add_number(out, k as u64)
    }
}

#[tactic(auto, using(std::proofs::Common::append_assoc))]
fn add_path_name(
    out: &mut Vec<u8>,
    source: &Source<'_>,
    k: u32,
    sort: &[u8],
) -> Result<(), NoMemory>
    ensures { OnOk result (out.new.items ≡ out.old.items ++ text.path_name source.now.layout.now k sort.now) }
{
    out.extend_from_slice(b"\n")?;
    add_stage(out, source, k)?;
    add_piece(out, sort)
}

#[tactic(auto, using(std::proofs::Common::append_assoc))]
fn add_path_end(out: &mut Vec<u8>, source: &Source<'_>, path: &Path) -> Result<(), NoMemory>
    requires { IsSource source.now.layout.now source.now.keys.now source.now.names.now }
    ensures { OnOk result (out.new.items ≡ out.old.items ++ text.path_end source.now.layout.now source.now.net.now path.now) }
{
    add_hundredths(out, path.length)?;
    out.extend_from_slice(b" to ")?;
    add_holder(out, source, path.end.holder)?;
    add_piece(out, b"\n")
}

#[tactic(auto, using(std::proofs::Common::append_assoc))]
fn add_path_lines(
    alloc: Global,
    out: &mut Vec<u8>,
    source: &Source<'_>,
    path: &Path,
) -> Result<(), NoMemory>
    requires { IsSource source.now.layout.now source.now.keys.now source.now.names.now }
    ensures { OnOk result (out.new.items ≡ out.old.items
        ++ text.path_lines source.now.layout.now source.now.net.now source.now.wires.now source.now.times.now.all.items path.now) }
{
    let from = add_steps(alloc, out, source, path.steps.as_slice())?;
    add_step(alloc, out, source, from, false, path.end.node)
}

// Appends a path of stage k.
#[tactic(auto, using(std::proofs::Common::append_assoc))]
fn add_path(
    alloc: Global,
    out: &mut Vec<u8>,
    source: &Source<'_>,
    k: u32,
    sort: &[u8],
    path: &Path,
) -> Result<(), NoMemory>
    requires { IsSource source.now.layout.now source.now.keys.now source.now.names.now }
    ensures { OnOk result (out.new.items ≡ out.old.items
        ++ text.path_text source.now.layout.now source.now.net.now source.now.wires.now source.now.times.now.all.items k sort.now (Some path.now)) }
{
    add_path_name(out, source, k, sort)?;
    add_path_end(out, source, path)?;
    add_path_lines(alloc, out, source, path)
}

fn add_path_of(
    alloc: Global,
    out: &mut Vec<u8>,
    source: &Source<'_>,
    k: u32,
    sort: &[u8],
    path: &Option<Path>,
) -> Result<(), NoMemory>
    requires { IsSource source.now.layout.now source.now.keys.now source.now.names.now }
    ensures { OnOk result (out.new.items ≡ out.old.items
        ++ text.path_text source.now.layout.now source.now.net.now source.now.wires.now source.now.times.now.all.items k sort.now path.now) }
{
    match path {
        Some(path) => add_path(alloc, out, source, k, sort, path),
        None => Ok(()),
    }
}

#[tactic(auto, using(std::proofs::Common::append_assoc))]
fn add_paths(
    alloc: Global,
    out: &mut Vec<u8>,
    source: &Source<'_>,
    k: u32,
    row: &Row,
) -> Result<(), NoMemory>
    requires { IsSource source.now.layout.now source.now.keys.now source.now.names.now }
    ensures { OnOk result (out.new.items ≡ out.old.items
        ++ text.paths_text source.now.layout.now source.now.net.now source.now.wires.now source.now.times.now.all.items k row.now) }
{
    add_path_of(alloc, out, source, k, b", data: ", &row.to_data)?;
    add_path_of(alloc, out, source, k, b", control: ", &row.to_control)
}

fn add_length_of(alloc: Global, out: &mut Vec<u8>, path: &Option<Path>) -> Result<(), NoMemory>
    ensures { OnOk result (out.new.items ≡ out.old.items ++ text.at_right 9 (text.length_text path.now)) }
{
    match path {
        Some(path) => add_length(alloc, out, path.length),
        None => add_right(out, 9, b"-"),
    }
}

fn add_row_name(out: &mut Vec<u8>, stages: u32, k: u32) -> Result<(), NoMemory>
    ensures { OnOk result (out.new.items ≡ out.old.items ++ text.at_right 5 (text.row_name stages k)) }
{
    if k == stages {
        add_right(out, 5, b"words")
    } else {
        let mut digits = Buffer::new();
        add_right(out, 5, digits.format(k).as_bytes())
    }
}

fn holder_at(path: &Option<Path>) -> Option<Holder>
    ensures { result ≡ text.holder_at path.now }
{
    match path {
        Some(path) => Some(path.end.holder),
        None => None,
    }
}

// What takes the end of the longer one of two paths.
fn longer_to(a: &Option<Path>, b: &Option<Path>) -> Option<Holder>
    ensures { result ≡ text.longer_to a.now b.now }
{
    match a {
        Some(path) => {
            if path.length < length_of(b) {
                holder_at(b)
            } else {
                Some(path.end.holder)
            }
        }
        None => holder_at(b),
    }
}

fn add_end(out: &mut Vec<u8>, source: &Source<'_>, holder: Option<Holder>) -> Result<(), NoMemory>
    requires { IsSource source.now.layout.now source.now.keys.now source.now.names.now }
    ensures { OnOk result (out.new.items ≡ out.old.items ++ text.end_text source.now.layout.now source.now.net.now holder) }
{
    match holder {
        Some(holder) => add_holder(out, source, holder),
        None => add_piece(out, b"-"),
    }
}

#[tactic(auto, using(std::proofs::Common::append_assoc))]
fn add_numbers(
    alloc: Global,
    out: &mut Vec<u8>,
    stages: u32,
    k: u32,
    row: &Row,
) -> Result<(), NoMemory>
    ensures { OnOk result (out.new.items ≡ out.old.items ++ text.numbers_text stages k row.now) }
{
    let mut digits = Buffer::new();
    add_row_name(out, stages, k)?;
    add_length_of(alloc, out, &row.to_data)?;
    add_length_of(alloc, out, &row.to_control)?;
    add_right(out, 12, digits.format(row.bits).as_bytes())?;
    add_piece(out, b"   ")
}

// Appends the row of stage k.
#[tactic(auto, using(std::proofs::Common::append_assoc))]
fn add_row(
    alloc: Global,
    out: &mut Vec<u8>,
    source: &Source<'_>,
    k: u32,
    row: &Row,
) -> Result<(), NoMemory>
    requires { IsSource source.now.layout.now source.now.keys.now source.now.names.now }
    ensures { OnOk result (out.new.items ≡ out.old.items ++ text.row_text source.now.layout.now source.now.net.now k row.now) }
{
    add_numbers(alloc, out, source.layout.stages(), k, row)?;
    add_end(out, source, longer_to(&row.to_data, &row.to_control))?;
    add_piece(out, b"\n")
}

fn length_of(path: &Option<Path>) -> u64
    ensures { result ≡ text.length_of path.now }
{
    match path {
        Some(path) => path.length,
        None => 0,
    }
}

fn longest_of(rows: &[Row]) -> u64
    ensures { result ≡ text.longest_of rows.now }
{
    let mut longest: u64 = 0;
    for row in rows {
        longest = longest.max(length_of(&row.to_data).max(length_of(&row.to_control)));
    }
    longest
}

fn name_of<'a>(layout: &'a Layout<'_>) -> &'a [u8]
    ensures { result.now ≡ layout.now.name.name }
{
    layout.job().name.name.bytes()
}

#[tactic(auto, using(std::proofs::Common::append_assoc))]
fn add_title(out: &mut Vec<u8>, name: &[u8], stages: u32) -> Result<(), NoMemory>
    ensures { OnOk result (out.new.items ≡ out.old.items ++ text.title_text name.now stages) }
{
    out.extend_from_slice(name)?;
    out.extend_from_slice(b": ")?;
    add_number(out, stages as u64)?;
    add_piece(out, b" stages")
}

#[tactic(auto, using(std::proofs::Common::append_assoc))]
fn add_head(out: &mut Vec<u8>, name: &[u8], stages: u32, longest: u64) -> Result<(), NoMemory>
    ensures { OnOk result (out.new.items ≡ out.old.items ++ text.head_text name.now stages longest) }
{
    add_title(out, name, stages)?;
    add_columns(out, longest)
}

#[tactic(auto, using(std::proofs::Common::append_assoc))]
fn add_columns(out: &mut Vec<u8>, longest: u64) -> Result<(), NoMemory>
    ensures { OnOk result (out.new.items ≡ out.old.items ++ text.columns_text longest) }
{
    add_longest_head(out)?;
    add_longest(out, longest)
}

#[tactic(auto, unfolding(crate::specs::Text::longest_head))]
fn add_longest_head(out: &mut Vec<u8>) -> Result<(), NoMemory>
    ensures { OnOk result (out.new.items ≡ out.old.items ++ text.longest_head) }
{
    out.extend_from_slice(b", longest path ")?;
    Ok(())
}

#[tactic(auto, using(std::proofs::Common::append_assoc))]
fn add_longest(out: &mut Vec<u8>, longest: u64) -> Result<(), NoMemory>
    ensures { OnOk result (out.new.items ≡ out.old.items ++ (text.hundredths longest ++ text.table_head)) }
{
    add_hundredths(out, longest)?;
    add_table_head(out)
}

#[tactic(auto, unfolding(crate::specs::Text::table_head))]
fn add_table_head(out: &mut Vec<u8>) -> Result<(), NoMemory>
    ensures { OnOk result (out.new.items ≡ out.old.items ++ text.table_head) }
{
    out.extend_from_slice(b"\n\nstage     data  control  bits after   longest path to\n")?;
    Ok(())
}

fn add_row_at(
    alloc: Global,
    out: &mut Vec<u8>,
    source: &Source<'_>,
    rows: &[Row],
    k: usize,
) -> Result<(), NoMemory>
    requires few { k ≤ 4096 }
    requires inside { k < length rows.now }
    requires names { IsSource source.now.layout.now source.now.keys.now source.now.names.now }
    ensures { OnOk result (out.new.items ≡ out.old.items ++ text.row_text source.now.layout.now source.now.net.now k (get_or rows.now k no_row)) }
{
    add_row(alloc, out, source, k as u32, &rows[k])
}

#[tactic(auto, using(std::proofs::Common::append_assoc))]
fn add_rows(
    alloc: Global,
    out: &mut Vec<u8>,
    source: &Source<'_>,
    rows: &[Row],
) -> Result<(), NoMemory>
    requires few { length rows.now ≤ 4096 }
    requires names { IsSource source.now.layout.now source.now.keys.now source.now.names.now }
    ensures { OnOk result (out.new.items ≡ out.old.items ++ text.texts_below (text.row_text source.now.layout.now source.now.net.now) rows.now (length rows.now)) }
{
    for k in 0..rows.len() {
        add_row_at(alloc, out, source, rows, k)?;
    }
    Ok(())
}

fn add_paths_at(
    alloc: Global,
    out: &mut Vec<u8>,
    source: &Source<'_>,
    rows: &[Row],
    k: usize,
) -> Result<(), NoMemory>
    requires few { k ≤ 4096 }
    requires inside { k < length rows.now }
    requires names { IsSource source.now.layout.now source.now.keys.now source.now.names.now }
    ensures { OnOk result (out.new.items ≡ out.old.items
        ++ text.paths_text source.now.layout.now source.now.net.now source.now.wires.now source.now.times.now.all.items k (get_or rows.now k no_row)) }
{
    add_paths(alloc, out, source, k as u32, &rows[k])
}

#[tactic(auto, using(std::proofs::Common::append_assoc))]
fn add_all_paths(
    alloc: Global,
    out: &mut Vec<u8>,
    source: &Source<'_>,
    rows: &[Row],
) -> Result<(), NoMemory>
    requires few { length rows.now ≤ 4096 }
    requires names { IsSource source.now.layout.now source.now.keys.now source.now.names.now }
    ensures { OnOk result (out.new.items ≡ out.old.items
        ++ text.texts_below (text.paths_text source.now.layout.now source.now.net.now source.now.wires.now source.now.times.now.all.items) rows.now (length rows.now)) }
{
    for k in 0..rows.len() {
        add_paths_at(alloc, out, source, rows, k)?;
    }
    Ok(())
}

/// The text of the depths of a netlist of a design, with the table of its wires. The only error is out of memory.
#[tactic(auto, unfolding(crate::specs::Text::depth_text), using(std::proofs::Common::append_assoc))]
pub fn depth_text(
    alloc: Global,
    net: &Netlist,
    layout: &Layout<'_>,
    wires: &[Wire],
    depths: &Depths,
) -> Result<Vec<u8>, NoMemory>
    requires { length depths.now.rows.items ≤ 4096 }
    ensures { IfOk result (λ all. all.items ≡ text.depth_text layout.now net.now wires.now depths.now) }
{
    let names = Names::of(alloc, layout.job().decls.as_slice())?;
    let keys = Keys::of(alloc, layout)?;
    let source = Source {
        net,
        layout,
        keys: &keys,
        names: &names,
        wires,
        times: &depths.times,
    };
    let rows = depths.rows.as_slice();
    let mut out = Vec::new(alloc);
    add_head(&mut out, name_of(layout), layout.stages(), longest_of(rows))?;
    add_rows(alloc, &mut out, &source, rows)?;
    add_all_paths(alloc, &mut out, &source, rows)?;
    Ok(out)
}
