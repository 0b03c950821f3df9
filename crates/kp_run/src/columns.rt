// The sample values that the instructions of a run read.
ghost use Rattle.std.specs.Prelude.{◌≡◌, ℕ, ◌<◌, ◌≤◌, ◌^◌, length, get_or, IfOk};
ghost use Rattle.kp_bits.specs.Word.{word};
ghost use Rattle.kp_bits.specs.Operators.{no_word};
ghost use Rattle.kp_pipeline.specs.Rows.{bit, bits};
ghost use Rattle.kp_image.specs.Feeds.{row_in};
ghost use Rattle.kp_machine.specs.Slots.{sample_stages};
ghost use Rattle.kp_net.specs.Netlist.{run};
ghost use Rattle.kp_sched.specs.Rows.{bit_of, rows_seen};
ghost use Rattle.kp_implements.specs.{Naming.sample_ports, Shows.HasOutputs};
ghost use Rattle.kp_run.specs.Columns.{AreColumns, words_taken, word_taken};
ghost use Rattle.kp_run.specs.Cycles.{inputs_to};

use crate::cycles::cycles_of;
use kp_ast::Decl;
use kp_base::{NoMemory, Row};
use kp_bits::Bits;
use kp_frontend::Accepted;
use kp_image::InputPattern;
use kp_net::Netlist;
use std::alloc::Global;
use std::marker::Model;

/// The values that instructions read from a sample: one for each instruction that leaves the sample's stage, in order, and one for all others.
#[derive(Drop)]
pub struct Column {
    words: Vec<Bits>,
    none: Bits,
}

impl Model for Column {
    ghost use Rattle.kp_run.specs.Columns.{Taken};

    ghost Value = { Taken };

    ghost view = { λ c. record { words = c.words.items; none = c.none } };
}

impl Column {
    /// The value that instruction i reads.
    pub fn word(&self, i: u64) -> Bits
        ensures { result ≡ word_taken self.now i }
    {
        let i = i as usize;
        if i < self.words.len() {
            self.words[i]
        } else {
            self.none
        }
    }
}

/// For each sample of a job the values that the instructions of a run with these rows read. The only error is out of memory.
pub fn columns_of(alloc: Global, job: &Accepted, rows: &[Row]) -> Result<Vec<Column>, NoMemory>
    ensures { IfOk result (λ columns. AreColumns job.now.design.job rows.now columns.items) }
{
    let tree = job.design.job();
    let stages = stages_of(alloc, tree.decls.as_slice())?;
    let inputs = &job.sections.inputs;
    let mut columns = Vec::new(alloc);
    for x in 0..stages.len() {
        columns.push(column_for(alloc, inputs, x as u32, stages[x], tree.stages.value, rows)?)?;
    }
    Ok(columns)
}

/// The same for the rows of a netlist in its run over `count` cycles. It runs here only for a job that has samples. The only error is out of memory.
pub fn columns_in(
    alloc: Global,
    job: &Accepted,
    net: &Netlist,
    count: u32,
) -> Result<Vec<Column>, NoMemory>
    requires outputs { HasOutputs net.now }
    requires samples { net.now.parts.samples ≡ sample_ports job.now.design.job }
    ensures { IfOk result (λ columns. AreColumns job.now.design.job (run net.now (inputs_to job.now.design.job count)).rows columns.items) }
{
    let stages = stages_of(alloc, job.design.job().decls.as_slice())?;
    if stages.len() == 0 {
        return Ok(Vec::new(alloc));
    }
    let cycles = cycles_of(alloc, job, net, count)?;
    columns_of(alloc, job, cycles.rows.as_slice())
}

// The stages of the samples.
fn stages_of(alloc: Global, decls: &[Decl]) -> Result<Vec<u64>, NoMemory>
    ensures { IfOk result (λ stages. stages.items ≡ sample_stages decls.now) }
{
    let mut stages = Vec::new(alloc);
    for decl in decls {
        if let Decl::Sample(_, _, stage) = decl {
            stages.push(stage.value)?;
        }
    }
    Ok(stages)
}

// The values that instructions read from sample x, whose stage is k of n.
fn column_for(
    alloc: Global,
    inputs: &InputPattern,
    x: u32,
    k: u64,
    n: u64,
    rows: &[Row],
) -> Result<Column, NoMemory>
    requires sample { x < length inputs.now }
    requires few { n ≤ 12 }
    ensures words { IfOk result (λ c. c.words ≡ words_taken (row_in inputs.now) x k 0 (rows_seen n rows.now)) }
    ensures none { IfOk result (λ c. c.none ≡ word (get_or (row_in inputs.now 0) x no_word).width 0) }
{
    let mut words = Vec::new(alloc);
    for cycle in 0..rows.len() {
        if updates(rows[cycle].ue, k, n) {
            words.push(inputs.value(x, cycle as u64))?;
        }
    }
    let none = zero(inputs.value(x, 0).width());
    Ok(Column { words, none })
}

fn zero(width: u8) -> Bits
    requires positive { 1 ≤ width }
    requires at_most { width ≤ 64 }
    ensures { result ≡ word width 0 }
{
    Bits::new(width, 0).unwrap()
}

/// Whether stage k of n updates, according to a mask of update enables with bit k for stage k.
pub fn updates(ue: u16, k: u64, n: u64) -> bool
    requires { n ≤ 12 }
    ensures { result ≡ bit (bits (bit_of ue) n 0) k }
{
    k < n && is_set(ue, k)
}

fn is_set(ue: u16, k: u64) -> bool
    requires { k < 16 }
    ensures { result ≡ bit_of ue k }
{
    (ue >> k) % 2 == 1
}
