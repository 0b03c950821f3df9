// The names of a job with their kinds, scopes and widths.
use crate::name::Name;
use kp_base::List;

/// Where a name is in scope: to the end of the text, of a function, or of a stage block. Functions and blocks are
/// numbered in text order, from 0.
#[derive(Clone, Copy)]
pub enum Scope {
    Text,
    Function(u32),
    Stage(u32),
}

/// The kind of a name. A file has the width of its addresses.
#[derive(Clone, Copy)]
pub enum NameKind {
    Reg,
    File(u8),
    Pipe,
    Target,
    Hint,
    Sample,
    Func,
    Param,
    Read,
    Let,
}

/// A declared name, with the width of its values.
#[derive(Drop)]
pub struct Entry {
    pub name: Name,
    pub scope: Scope,
    pub kind: NameKind,
    pub width: u8,
}

/// The entries of all declared names, in text order.
#[derive(Drop)]
pub struct Widths {
    pub entries: List<Entry>,
}
