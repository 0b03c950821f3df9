// What names are, and what is wanted at a place.
ghost use Rattle.std.specs.Prelude.{◌≡◌, Some};
ghost use Rattle.kp_view_help.specs.Texts.{kind_of, kind_text, wanted_text};

use kp_ast::NameKind;
use std::fmt;

/// What a name names.
#[derive(Clone, Copy)]
pub enum Kind {
    Register,
    File,
    Pipe,
    Output,
    Hint,
    Sample,
    Function,
    Parameter,
    Read,
    Local,
}

impl Kind {
    /// What a name of this kind names.
    pub fn of(kind: NameKind) -> Kind
        ensures { result ≡ kind_of kind }
    {
        match kind {
            NameKind::Reg => Kind::Register,
            NameKind::File(_) => Kind::File,
            NameKind::Pipe => Kind::Pipe,
            NameKind::Target => Kind::Output,
            NameKind::Hint => Kind::Hint,
            NameKind::Sample => Kind::Sample,
            NameKind::Func => Kind::Function,
            NameKind::Param => Kind::Parameter,
            NameKind::Read => Kind::Read,
            NameKind::Let => Kind::Local,
        }
    }

    fn text(self) -> &'static str
        ensures { result.now ≡ kind_text self }
    {
        match self {
            Kind::Register => "register",
            Kind::File => "file",
            Kind::Pipe => "pipe",
            Kind::Output => "result",
            Kind::Hint => "hint",
            Kind::Sample => "sample",
            Kind::Function => "function",
            Kind::Parameter => "parameter",
            Kind::Read => "name given by `read`",
            Kind::Local => "name given by `let`",
        }
    }
}

impl fmt::Display for Kind {
    ghost output = { λ kind. Some (kind_text kind) };

    fn fmt<W: fmt::Write>(&self, f: &mut fmt::Formatter<W>) -> fmt::Result {
        f.write_str(self.text())
    }
}

/// What may stand at a place.
#[derive(Clone, Copy)]
pub enum Wanted {
    /// A value in a stage.
    Value,
    /// A value in a function.
    Parameter,
    Register,
    File,
    Pipe,
    Output,
    Hint,
    Function,
}

impl Wanted {
    fn text(self) -> &'static str
        ensures { result.now ≡ wanted_text self }
    {
        match self {
            Wanted::Value => "a pipe, a sample, or a name of this stage",
            Wanted::Parameter => "a parameter of the function",
            Wanted::Register => "a register",
            Wanted::File => "a file",
            Wanted::Pipe => "a pipe",
            Wanted::Output => "a result",
            Wanted::Hint => "a hint",
            Wanted::Function => "a function",
        }
    }
}

impl fmt::Display for Wanted {
    ghost output = { λ wanted. Some (wanted_text wanted) };

    fn fmt<W: fmt::Write>(&self, f: &mut fmt::Formatter<W>) -> fmt::Result {
        f.write_str(self.text())
    }
}
