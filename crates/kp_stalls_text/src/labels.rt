// The labels of the reads.
ghost use Rattle.std.specs.Prelude.{◌≡◌, ◌++◌, IfOk, OnOk};
ghost use Rattle.kp_stalls_text.specs.Labels.{label_at, label_in, labels_from, labels_in};

use kp_ast::{Block, Stmt, StmtKind};
use kp_base::NoMemory;
use std::alloc::Global;
use std::marker::Model;

/// A read: the name of its target, whether that is a file, and the line.
#[derive(Drop)]
pub(crate) struct Label {
    name: Vec<u8>,
    is_file: bool,
    line: u32,
}

impl Model for Label {
    ghost use Rattle.kp_stalls_text.specs.Labels.{Labelled};

    ghost Value = { Labelled };

    ghost view = { λ l. record { name = l.name.items; file = l.is_file; line = l.line } };
}

/// The labels of the reads in these blocks, in text order. The only error is out of memory.
pub(crate) fn labels_of(alloc: Global, blocks: &[Block]) -> Result<Vec<Label>, NoMemory>
    ensures { IfOk result (λ labels. labels.items ≡ labels_from blocks.now) }
{
    let mut labels = Vec::new(alloc);
    for block in blocks {
        add_labels(alloc, &mut labels, block.stmts.as_slice())?;
    }
    Ok(labels)
}

fn add_labels(alloc: Global, labels: &mut Vec<Label>, stmts: &[Stmt]) -> Result<(), NoMemory>
    ensures { OnOk result (labels.new.items ≡ labels.old.items ++ labels_in stmts.now) }
{
    for stmt in stmts {
        add_label(alloc, labels, &stmt.kind)?;
    }
    Ok(())
}

fn add_label(alloc: Global, labels: &mut Vec<Label>, stmt: &StmtKind) -> Result<(), NoMemory>
    ensures { OnOk result (labels.new.items ≡ labels.old.items ++ label_in stmt.now) }
{
    if let StmtKind::Read(read) = stmt {
        labels.push(Label {
            name: Vec::from_slice(alloc, read.target.name.bytes())?,
            is_file: read.address.is_some(),
            line: read.name.at.line,
        })?;
    }
    Ok(())
}

/// The name of the target of read number i.
pub(crate) fn name_of(labels: &[Label], i: usize) -> &[u8]
    ensures { result.now ≡ (label_at labels.now i).name }
{
    if i < labels.len() {
        let label = &labels[i];
        label.name.as_slice()
    } else {
        b""
    }
}

/// Whether it is a file.
pub(crate) fn is_file(labels: &[Label], i: usize) -> bool
    ensures { result ≡ (label_at labels.now i).file }
{
    if i < labels.len() {
        let label = &labels[i];
        label.is_file
    } else {
        false
    }
}

/// The line of read number i.
pub(crate) fn line_of(labels: &[Label], i: usize) -> u32
    ensures { result ≡ (label_at labels.now i).line }
{
    if i < labels.len() {
        let label = &labels[i];
        label.line
    } else {
        0
    }
}
