// The names in scope, in tables with lookup in about constant time.
ghost use Rattle.std.specs.Prelude.{◌≡◌, ◌++◌, ◌∷◌, [], None, OnOk, MatchOption, nat_eq, ⊤};
ghost use Rattle.std.specs.Cmp.Lexicographic.{pointwise};
ghost use Rattle.indexmap.specs.IndexMap.{insert_entry};
ghost use Rattle.kp_width.specs.Names.{look_up, find, bound_width, is_of_block, is_value_in, nothing, opened, with_entry, with_text, with_local, declared_text, declared_local, doubtful, doubted_text, doubted_local, sense, takes, used};
ghost use Rattle.kp_width.specs.Widths.{listed};

use crate::fault::{Position, WidthFault, found_at};
use indexmap::IndexMap;
use kp_ast::{Entry, Name, NameKind, Scope};
use kp_base::{Finding, NoMemory, Place};
use std::alloc::Global;
use std::marker::Model;

// The meaning of a name: its kind and width, and the number of its declaration. It is doubtful if that is refused.
#[derive(Clone, Copy)]
pub(crate) struct Meaning {
    pub kind: NameKind,
    pub width: u8,
    pub from: usize,
    pub doubtful: bool,
}

impl Model for Meaning {
    ghost use Rattle.kp_width.specs.Names.{Sense};

    ghost Value = { Sense };

    ghost view = { λ m. record { kind = m.kind; width = m.width; from = m.from; doubtful = m.doubtful } };

    ghost inverse = { λ s. record { kind = s.kind; width = s.width; from = s.from; doubtful = s.doubtful } };
}

impl Meaning {
    pub fn new(kind: NameKind, width: u8, from: usize) -> Meaning
        ensures { result ≡ sense kind width from }
    {
        Meaning {
            kind,
            width,
            from,
            doubtful: false,
        }
    }
}

// Names with their meanings, in the order in which they were added.
pub(crate) struct Table {
    meanings: IndexMap<Name, Meaning>,
}

impl Drop for Table {
    fn drop(self) {
        let Table { meanings } = self;
        drop(meanings);
    }
}

impl Model for Table {
    ghost use Rattle.std.specs.Prelude.{List, ℕ};
    ghost use Rattle.kp_width.specs.Names.{Sense};

    ghost Value = { List (List ℕ × Sense) };

    ghost view = { λ t. t.meanings.entries };
}

impl Table {
    fn new(alloc: Global) -> Table
        ensures { result ≡ [] }
    {
        Table {
            meanings: IndexMap::new(alloc),
        }
    }

    fn get(&self, name: &Name) -> Option<Meaning>
        ensures { result ≡ look_up self.now name.now }
    {
        self.meanings.get(name).copied()
    }

    // Adds a name that is not in the table yet.
    fn add(&mut self, name: Name, meaning: Meaning) -> Result<(), NoMemory>
        requires { look_up self.old name ≡ None }
        ensures { OnOk result (self.new ≡ self.old ++ (name, meaning) ∷ []) }
    {
        self.meanings.insert(name, meaning)?;
        Ok(())
    }

    // From now on, the name is doubtful.
    fn doubt(&mut self, name: Name) -> Result<(), NoMemory>
        ensures { OnOk result (self.new ≡ insert_entry (pointwise nat_eq) self.old name doubtful) }
    {
        let meaning = Meaning {
            kind: NameKind::Reg,
            width: 0,
            from: 0,
            doubtful: true,
        };
        self.meanings.insert(name, meaning)?;
        Ok(())
    }
}

// The names in scope at a position in the text, and the entries of all that were declared before it.
pub(crate) struct Names {
    text: Table,
    local: Table,
    here: Scope,
    entries: Vec<Entry>,
    doubts: bool,
}

impl Drop for Names {
    fn drop(self) {
        let Names {
            text,
            local,
            here: _,
            entries,
            doubts: _,
        } = self;
        drop(text);
        drop(local);
        drop(entries);
    }
}

impl Model for Names {
    ghost use Rattle.kp_width.specs.Names.{Scoped};

    ghost Value = { Scoped };

    ghost view = { λ n. record { text = n.text; local = n.local; here = n.here; entries = n.entries.items; doubts = n.doubts } };
}

impl Names {
    /// The start of the text: no name is in scope, and there are no entries.
    pub fn new(alloc: Global) -> Names
        ensures { result ≡ nothing }
    {
        Names {
            text: Table::new(alloc),
            local: Table::new(alloc),
            here: Scope::Text,
            entries: Vec::new(alloc),
            doubts: false,
        }
    }

    /// Opens the scope of a function, a block or the text itself.
    pub fn open(&mut self, scope: Scope)
        ensures { self.new ≡ opened self.old scope }
    {
        self.local = Table::new(*self.entries.allocator());
        self.here = scope;
    }

    /// The meaning of a name, if it is in scope.
    pub fn find(&self, name: &Name) -> Option<Meaning>
        ensures value { result ≡ find self.now name.now }
        ensures text { MatchOption result (look_up self.now.text name.now ≡ None) (λ _. ⊤) }
    {
        match self.local.get(name) {
            Some(meaning) => Some(meaning),
            None => self.text.get(name),
        }
    }

    /// Which function or block is open.
    pub fn here(&self) -> Scope
        ensures { result ≡ self.now.here }
    {
        self.here
    }

    /// The meaning of a name in scope that the position accepts. Errors: E6 if it isn't in scope, E7 if the position doesn't accept its kind, or it is doubtful.
    pub fn used(
        &self,
        position: Position,
        name: &Name,
        at: Place,
    ) -> Result<Meaning, Finding<WidthFault>>
        ensures { result ≡ (used self.now position name.now at).found }
    {
        let here = self.here;
        match self.find(name) {
            None => {
                let bound = self.bound_width(name);
                Err(found_at(at, WidthFault::NotInScope { here, bound }))
            }
            Some(meaning) => {
                if meaning.doubtful {
                    Err(found_at(at, WidthFault::Doubtful))
                } else if fits(here, position, meaning.kind) {
                    Ok(meaning)
                } else {
                    let fault = WidthFault::WrongKind {
                        found: meaning.kind,
                        from: meaning.from,
                        wanted: position,
                        here,
                    };
                    Err(found_at(at, fault))
                }
            }
        }
    }

    // The width of the first name of a block that is this one.
    fn bound_width(&self, name: &Name) -> Option<u8>
        ensures { result ≡ bound_width self.now.entries name.now }
    {
        for entry in self.entries.as_slice() {
            if is_of_block(entry.scope) && entry.name == *name {
                return Some(entry.width);
            }
        }
        None
    }

    /// Adds the entry of a name.
    pub fn enter(&mut self, scope: Scope, name: &Name, meaning: Meaning) -> Result<(), NoMemory>
        ensures { OnOk result (self.new ≡ with_entry self.old scope name.now meaning) }
    {
        self.entries.push(Entry {
            name: name.clone()?,
            scope,
            kind: meaning.kind,
            width: meaning.width,
        })?;
        Ok(())
    }

    /// Brings a name into scope to the end of the text, and closes the open scope. Error: out of memory.
    pub fn add_text(&mut self, name: &Name, meaning: Meaning) -> Result<(), NoMemory>
        requires { look_up self.old.text name.now ≡ None }
        ensures { OnOk result (self.new ≡ with_text self.old name.now meaning) }
    {
        self.open(Scope::Text);
        self.text.add(name.clone()?, meaning)
    }

    /// Declares a name of the text. Error: out of memory.
    pub fn declare_text(&mut self, name: &Name, meaning: Meaning) -> Result<(), NoMemory>
        requires { look_up self.old.text name.now ≡ None }
        ensures { OnOk result (self.new ≡ declared_text self.old name.now meaning) }
    {
        self.enter(Scope::Text, name, meaning)?;
        self.add_text(name, meaning)
    }

    /// Declares a name of the open function or block. Error: out of memory.
    pub fn declare_local(&mut self, name: &Name, meaning: Meaning) -> Result<(), NoMemory>
        requires { find self.old name.now ≡ None }
        ensures { OnOk result (self.new ≡ declared_local self.old name.now meaning) }
    {
        self.enter(self.here, name, meaning)?;
        self.local.add(name.clone()?, meaning)
    }

    /// A name whose declaration is refused is doubtful to the end of the text. Error: out of memory.
    pub fn doubt_text(&mut self, name: &Name) -> Result<(), NoMemory>
        ensures { OnOk result (self.new ≡ doubted_text self.old name.now) }
    {
        self.open(Scope::Text);
        self.doubts = true;
        self.entries.clear();
        self.text.doubt(name.clone()?)
    }

    /// A name whose statement is refused is doubtful to the end of the open block. Error: out of memory.
    pub fn doubt_local(&mut self, name: &Name) -> Result<(), NoMemory>
        ensures { OnOk result (self.new ≡ doubted_local self.old name.now) }
    {
        self.doubts = true;
        self.local.doubt(name.clone()?)
    }

    /// What is listed of an item whose first violation this is: nothing if it follows from another one.
    pub fn listed(&self, finding: Finding<WidthFault>) -> Option<Finding<WidthFault>>
        ensures { result ≡ listed self.now finding }
    {
        if self.doubts && finding.fault.is_doubtful() {
            None
        } else {
            Some(finding)
        }
    }

    /// The entries of all names that were declared, in text order.
    pub fn into_entries(self) -> Vec<Entry>
        ensures { result.items ≡ self.entries }
    {
        let Names {
            text: _,
            local: _,
            here: _,
            entries,
            doubts: _,
        } = self;
        entries
    }
}

fn is_of_block(scope: Scope) -> bool
    ensures { result ≡ is_of_block scope }
{
    matches!(scope, Scope::Stage(_))
}

fn fits(here: Scope, position: Position, kind: NameKind) -> bool
    ensures { result ≡ takes position here kind }
{
    match position {
        Position::Value => is_value_in(here, kind),
        Position::Register => matches!(kind, NameKind::Reg),
        Position::File => matches!(kind, NameKind::File(_)),
        Position::Pipe => matches!(kind, NameKind::Pipe),
        Position::Result => matches!(kind, NameKind::Target),
        Position::Hint => matches!(kind, NameKind::Hint),
        Position::Callee => matches!(kind, NameKind::Func),
    }
}

// Whether an expression in this scope may use the value of a name.
fn is_value_in(here: Scope, kind: NameKind) -> bool
    ensures { result ≡ is_value_in here kind }
{
    match here {
        Scope::Function(_) => matches!(kind, NameKind::Param),
        Scope::Text | Scope::Stage(_) => matches!(
            kind,
            NameKind::Pipe | NameKind::Hint | NameKind::Sample | NameKind::Read | NameKind::Let
        ),
    }
}
