//! A circuit, line by line: what its lines declare, name and connect.
ghost use Rattle.std.specs.Prelude.{◌<◌};

use crate::gates::{constant_of, is_there};
use crate::line::{Line, cut, number};
use kp_base::List;
use kp_bits::Bits;
use kp_net::{Label, NetFile, NetReg, NodeId, Parts, Port, WritePort};
use kp_pool::Pool;
use std::alloc::Global;
use std::mem;

/// The lines that name no node, by their first words.
#[derive(Clone, Copy)]
enum Form {
    Empty,
    Sample,
    Reg,
    File,
    Next,
    Write,
    Full,
    Ue,
    Back,
    Cycle,
    Ext,
    Reset,
    Only,
}

const FORMS: [(&'static str, Form); 14] = [
    ("", Form::Empty),
    ("sample", Form::Sample),
    ("reg", Form::Reg),
    ("file", Form::File),
    ("next", Form::Next),
    ("write", Form::Write),
    ("full", Form::Full),
    ("ue", Form::Ue),
    ("back", Form::Back),
    ("cycle", Form::Cycle),
    ("reset-cycle", Form::Cycle),
    ("ext", Form::Ext),
    ("reset", Form::Reset),
    ("only", Form::Only),
];

impl Form {
    fn of(word: &[u8]) -> Option<Form> {
        for row in &FORMS {
            if row.0.as_bytes() == word {
                return Some(row.1);
            }
        }
        None
    }
}

/// What a line names: a port, a register, a file or a node. A call names several nodes, each by its own part after the name.
#[derive(Clone, Copy)]
struct Named<'t> {
    /// The word that declares it: `sample`, `reg`, `file`, or `=` for a node.
    sort: &'t [u8],
    name: &'t [u8],
    part: &'static str,
    cell: Cell,
}

/// The index of what is named, among those of its sort, and its width, which isn't stored for a node.
#[derive(Clone, Copy)]
pub struct Cell {
    pub place: u32,
    pub width: u8,
}

/// What a name denotes that no line has named: nothing exists at this index.
const ABSENT: Cell = Cell {
    place: u32::MAX,
    width: 0,
};

/// The contents of the lines of a circuit.
pub struct Circuit<'t> {
    named: Vec<Named<'t>>,
    samples: Vec<Port>,
    regs: Vec<NetReg>,
    files: Vec<NetFile>,
    /// The width of the stall word.
    pub ext: u8,
    reset: bool,
    full: Option<NodeId>,
    ue: Option<NodeId>,
    back: Option<NodeId>,
    pub only_rows: bool,
    /// Whether there is a cycle to run.
    pub runs: bool,
}

impl<'t> Drop for Circuit<'t> {
    fn drop(self) {
        let Circuit {
            named,
            samples,
            regs,
            files,
            ext: _,
            reset: _,
            full: _,
            ue: _,
            back: _,
            only_rows: _,
            runs: _,
        } = self;
        drop(named);
        drop(samples);
        drop(regs);
        drop(files);
    }
}

impl<'t> Circuit<'t> {
    /// A circuit without nodes, with a stall word of one bit.
    pub fn new(alloc: Global) -> Circuit<'t> {
        Circuit {
            named: Vec::new(alloc),
            samples: Vec::new(alloc),
            regs: Vec::new(alloc),
            files: Vec::new(alloc),
            ext: 1,
            reset: false,
            full: None,
            ue: None,
            back: None,
            only_rows: false,
            runs: false,
        }
    }

    /// What a word names, among those of a sort. A name that is present already keeps its meaning.
    pub fn find(&self, sort: &[u8], word: &[u8]) -> Cell {
        for named in self.named.as_slice() {
            if named.sort == sort && named.is(word) {
                return named.cell;
            }
        }
        ABSENT
    }

    /// The node that word i of a line names, or one that is in no pool.
    pub fn node(&self, line: Line<'_>, i: usize) -> NodeId {
        NodeId(self.find(b"=", line.word(i)).place)
    }

    /// Gives these nodes the name that a line starts with, each with its part. Returns whether there was memory for them.
    pub fn name(&mut self, line: Line<'t>, nodes: &[(&'static str, NodeId)]) -> bool {
        for (part, node) in nodes {
            let cell = Cell {
                place: node.0,
                width: 0,
            };
            let named = Named {
                sort: line.word(1),
                name: line.word(0),
                part: *part,
                cell,
            };
            if self.named.push(named).is_err() {
                return false;
            }
        }
        true
    }

    /// Processes a line that names no node. Returns whether it is well-formed.
    pub fn take(&mut self, alloc: Global, pool: &Pool, line: Line<'t>) -> bool {
        let Some(form) = Form::of(line.word(0)) else {
            return false;
        };
        match form {
            Form::Empty => true,
            Form::Sample | Form::Reg | Form::File => self.declare(alloc, form, line),
            Form::Next => self.connect(pool, line),
            Form::Write => self.connect_file(pool, line),
            Form::Full | Form::Ue | Form::Back => self.show(pool, form, line),
            _ => self.set(form, line),
        }
    }

    // Adds a port, a register or a file, and its name.
    fn declare(&mut self, alloc: Global, form: Form, line: Line<'t>) -> bool {
        let (place, is_added) = match form {
            Form::Sample => (
                self.samples.len(),
                add(&mut self.samples, port_of(alloc, line)),
            ),
            Form::Reg => (self.regs.len(), add(&mut self.regs, reg_of(alloc, line))),
            _ => (self.files.len(), add(&mut self.files, file_of(alloc, line))),
        };
        let (Some(width), true) = (line.small(2), is_added && place < 16777216) else {
            return false;
        };
        let cell = Cell {
            place: place as u32,
            width,
        };
        let named = Named {
            sort: line.word(0),
            name: line.word(1),
            part: "",
            cell,
        };
        self.named.push(named).is_ok()
    }

    // Connects a register to its next value.
    fn connect(&mut self, pool: &Pool, line: Line<'_>) -> bool {
        let place = self.find(b"reg", line.word(1)).place as usize;
        let next = self.node(line, 2);
        if !is_there(pool, next) {
            return false;
        }
        match self.regs.get_mut(place) {
            Some(reg) => {
                reg.next = next;
                true
            }
            None => false,
        }
    }

    // Connects a file to its write port.
    fn connect_file(&mut self, pool: &Pool, line: Line<'_>) -> bool {
        let place = self.find(b"file", line.word(1)).place as usize;
        let port = WritePort {
            enable: self.node(line, 2),
            address: self.node(line, 3),
            value: self.node(line, 4),
        };
        if !is_there(pool, port.enable)
            || !is_there(pool, port.address)
            || !is_there(pool, port.value)
        {
            return false;
        }
        match self.files.get_mut(place) {
            Some(file) => {
                file.port = Some(port);
                true
            }
            None => false,
        }
    }

    // Connects an output to a node.
    fn show(&mut self, pool: &Pool, form: Form, line: Line<'_>) -> bool {
        let node = self.node(line, 1);
        if !is_there(pool, node) {
            return false;
        }
        match form {
            Form::Full => self.full = Some(node),
            Form::Ue => self.ue = Some(node),
            _ => self.back = Some(node),
        }
        true
    }

    // The lines that set a property of the complete circuit.
    fn set(&mut self, form: Form, line: Line<'_>) -> bool {
        match form {
            Form::Cycle => self.runs = true,
            Form::Reset => self.reset = true,
            Form::Only => self.only_rows = true,
            _ => match line.small(1) {
                Some(width) => self.ext = width,
                None => return false,
            },
        }
        true
    }

    /// The parts, if the pool has capacity for the outputs. An output that no line sets is 0. The parts are moved out of the circuit.
    pub fn parts(&mut self, alloc: Global, pool: &mut Pool) -> Option<Parts> {
        let full = or_zero(pool, self.full, self.ext)?;
        let ue = or_zero(pool, self.ue, self.ext)?;
        let back = or_zero(pool, self.back, 4)?;
        Some(Parts {
            name: label(alloc, b"m_circuit")?,
            ext: self.ext,
            reset: self.reset,
            samples: List::new(mem::replace(&mut self.samples, Vec::new(alloc))),
            regs: List::new(mem::replace(&mut self.regs, Vec::new(alloc))),
            files: List::new(mem::replace(&mut self.files, Vec::new(alloc))),
            full,
            ue,
            back,
        })
    }
}

impl<'t> Named<'t> {
    fn is(&self, word: &[u8]) -> bool {
        let (name, part) = cut(word, b'.');
        name == self.name && part == self.part.as_bytes()
    }
}

// Adds an item, if there is one, and memory for it.
fn add<T: Drop>(items: &mut Vec<T>, item: Option<T>) -> bool {
    match item {
        Some(item) => items.push(item).is_ok(),
        None => false,
    }
}

fn port_of(alloc: Global, line: Line<'_>) -> Option<Port> {
    let width = line.small(2)?;
    let name = label(alloc, line.word(1))?;
    Some(Port { name, width })
}

fn reg_of(alloc: Global, line: Line<'_>) -> Option<NetReg> {
    let start = line.bits(2)?;
    let name = label(alloc, line.word(1))?;
    let next = NodeId(0);
    Some(NetReg { name, start, next })
}

fn file_of(alloc: Global, line: Line<'_>) -> Option<NetFile> {
    let width = line.small(2)?;
    let address_width = line.small(3)?;
    let words = words_of(alloc, line, address_width)?;
    let name = label(alloc, line.word(1))?;
    Some(NetFile {
        name,
        width,
        address_width,
        words: List::new(words),
        port: None,
    })
}

// The words of a file, of which those that are not given are 0.
fn words_of(alloc: Global, line: Line<'_>, address_width: u8) -> Option<Vec<u64>> {
    if 16 < address_width {
        return None;
    }
    let mut words = Vec::new(alloc);
    let mut rest = line.after(4);
    for _ in 0..1usize << address_width {
        let (word, after) = cut(rest, b' ');
        rest = after;
        let value = match number(word) {
            Some(value) => value,
            None => 0,
        };
        words.push(value).ok()?;
    }
    Some(words)
}

// A name of 1 to 70 bytes.
fn label(alloc: Global, name: &[u8]) -> Option<Label> {
    if name.is_empty() || 70 < name.len() {
        return None;
    }
    Label::new(alloc, name).ok()
}

fn or_zero(pool: &mut Pool, node: Option<NodeId>, width: u8) -> Option<NodeId> {
    match node {
        Some(node) => Some(node),
        None => constant_of(pool, Bits::new(width, 0)),
    }
}
