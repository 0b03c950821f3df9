// What sentences take from the text and from its tree.
ghost use Rattle.std.specs.Prelude.{◌≡◌, find, option_map, position};
ghost use Rattle.std.specs.List.{list_any};
ghost use Rattle.kp_width.specs.Declarations.{name_of};
ghost use Rattle.kp_view_excerpt.specs.Tokens.{token_at};
ghost use Rattle.kp_view_message.specs.Names.{bytes_of};
ghost use Rattle.kp_view_message.specs.Sites.{addresses_at, binds, binds_before, binds_here, binds_in, declares, differs_in_case, holder, is_named_before, is_own, literal_at, other_case, pipe_in, puts, stmts_in};

use kp_ast::{Block, Decl, Job, NameKind, Named, Param, ResultDecl, Scope, Stmt, StmtKind};
use kp_base::Place;
use kp_bits::{Literal, read_literal};
use kp_view_excerpt::token_at;
use kp_view_help::Word;
use kp_width::declared_name;

/// A place of a text, with the tree of the text.
#[derive(Clone, Copy)]
pub(crate) struct Site<'t> {
    pub text: &'t [u8],
    pub job: &'t Job,
    pub place: Place,
}

impl<'t> Site<'t> {
    /// The token at the place.
    pub fn word(self) -> Word<'t>
        ensures { result.0.now ≡ token_at self.entry.text.now self.entry.place }
    {
        Word(token_at(self.text, self.place))
    }

    /// The literal at a place, if one is there.
    pub fn literal(self, at: Place) -> Option<Literal>
        ensures { result ≡ literal_at self.entry.text.now at }
    {
        match read_literal(token_at(self.text, at)) {
            Ok(literal) => Some(literal),
            Err(_) => None,
        }
    }

    /// Whether the address of a result is at the place.
    pub fn is_address(self) -> bool
        ensures { result ≡ list_any (addresses_at self.entry.place) self.entry.job.now.decls }
    {
        let decls = self.job.decls.as_slice();
        decls.iter().any(|decl| addresses_at(decl, self.place))
    }

    /// The name of the declaration whose start value is at the place.
    pub fn started(self) -> Option<&'t Named> {
        let Place { line, col } = self.place;
        for decl in self.job.decls.as_slice() {
            match decl {
                Decl::Reg(named, _, start) | Decl::Hint(named, _, start)
                    if start.at.line == line && start.at.col == col => {
                    return Some(named);
                }
                _ => {}
            }
        }
        None
    }
}

// Whether a declaration has an address at a place.
fn addresses_at(decl: &Decl, place: Place) -> bool
    ensures { result ≡ addresses_at place decl.now }
{
    match decl {
        Decl::Target(
            ResultDecl {
                address: Some(pipe),
                ..
            },
        ) => { pipe.at.line == place.line && pipe.at.col == place.col }
        _ => false,
    }
}

/// The name that the declaration of this number declares.
pub(crate) fn declared(job: &Job, number: usize) -> Option<&Named> {
    match job.decls.as_slice().get(number) {
        Some(decl) => Some(declared_name(decl)),
        None => None,
    }
}

/// The number of the first declaration of a name.
pub(crate) fn first_declared(job: &Job, name: Word<'_>) -> Option<usize>
    ensures { result ≡ position (declares name.entry.0.now) job.now.decls }
{
    job.decls
        .as_slice()
        .iter()
        .position(|decl| declared_name(decl).name.bytes() == name.0)
}

/// The number of the first declaration of a function with this name.
pub(crate) fn function_named(job: &Job, name: Word<'_>) -> Option<usize> {
    job.decls.as_slice().iter().position(|decl| match decl {
        Decl::Func(func) => func.name.name.bytes() == name.0,
        _ => false,
    })
}

/// The name of a parameter of the function with this number of a declaration.
pub(crate) fn parameter(job: &Job, function: usize, index: usize) -> Option<&Named> {
    match parameters(job, function).get(index) {
        Some(param) => Some(&param.name),
        None => None,
    }
}

fn parameters(job: &Job, function: usize) -> &[Param] {
    match job.decls.as_slice().get(function) {
        Some(Decl::Func(func)) => func.params.as_slice(),
        _ => &[],
    }
}

/// The declaration of a name in scope, which is of this kind, where the look-up of it gave this number of a declaration.
pub(crate) fn in_scope<'t>(
    job: &'t Job,
    name: Word<'_>,
    kind: NameKind,
    from: usize,
    here: Scope,
) -> Option<&'t Named> {
    match (kind, here) {
        (NameKind::Param, _) => {
            let index = parameters(job, from)
                .iter()
                .position(|param| param.name.name.bytes() == name.0)?;
            parameter(job, from, index)
        }
        (NameKind::Read | NameKind::Let, Scope::Stage(stage)) => {
            bound_name(local(job, stage as usize, name))
        }
        _ => declared(job, from),
    }
}

/// The first stage in which a name is bound.
pub(crate) fn bound_stage(job: &Job, name: Word<'_>) -> Option<usize>
    ensures { result ≡ position (binds_in name.entry.0.now) job.now.blocks }
{
    job.blocks
        .as_slice()
        .iter()
        .position(|block| is_bound_in(block, name))
}

fn is_bound_in(block: &Block, name: Word<'_>) -> bool
    ensures { result ≡ binds_in name.entry.0.now block.now }
{
    block
        .stmts
        .as_slice()
        .iter()
        .any(|stmt| binds(&stmt.kind, name))
}

fn binds(stmt: &StmtKind, name: Word<'_>) -> bool
    ensures { result ≡ binds name.entry.0.now stmt.now }
{
    match stmt {
        StmtKind::Read(read) => read.name.name.bytes() == name.0,
        StmtKind::Let(named, _) => named.name.bytes() == name.0,
        _ => false,
    }
}

/// Whether a name that isn't in scope at a site is declared before it, or bound before it in the same stage: the site is in this definition.
pub(crate) fn is_own(site: Site<'_>, name: Word<'_>, here: Scope) -> bool
    ensures { result ≡ is_own name.entry.0.now site.entry.place site.entry.job.now here }
{
    declares_before(site.job.decls.as_slice(), name, site.place)
        || binds_here(site.job, name, site.place, here)
}

fn declares_before(decls: &[Decl], name: Word<'_>, place: Place) -> bool
    ensures { result ≡ list_any (λ d. is_named_before name.entry.0.now place (name_of d)) decls.now }
{
    decls
        .iter()
        .any(|decl| is_named_before(declared_name(decl), name, place))
}

fn binds_here(job: &Job, name: Word<'_>, place: Place, here: Scope) -> bool
    ensures { result ≡ binds_here name.entry.0.now place job.now here }
{
    match here {
        Scope::Stage(stage) => any_binds_before(stmts_in(job, stage as usize), name, place),
        _ => false,
    }
}

fn any_binds_before(stmts: &[Stmt], name: Word<'_>, place: Place) -> bool
    ensures { result ≡ list_any (λ s. binds_before name.entry.0.now place s.kind) stmts.now }
{
    stmts
        .iter()
        .any(|stmt| binds_before(&stmt.kind, name, place))
}

fn binds_before(stmt: &StmtKind, name: Word<'_>, place: Place) -> bool
    ensures { result ≡ binds_before name.entry.0.now place stmt.now }
{
    match stmt {
        StmtKind::Read(read) => is_named_before(&read.name, name, place),
        StmtKind::Let(named, _) => is_named_before(named, name, place),
        _ => false,
    }
}

fn is_named_before(named: &Named, name: Word<'_>, place: Place) -> bool
    ensures { result ≡ is_named_before name.entry.0.now place named.now }
{
    let Place { line, col } = named.at;
    named.name.bytes() == name.0 && (line < place.line || line == place.line && col < place.col)
}

fn stmts_in(job: &Job, stage: usize) -> &[Stmt]
    ensures { result.now ≡ stmts_in job.now stage }
{
    match job.blocks.as_slice().get(stage) {
        Some(block) => block.stmts.as_slice(),
        None => &[],
    }
}

/// The first declared name that differs from this one in the case of letters alone.
pub(crate) fn other_case<'t>(job: &'t Job, name: Word<'_>) -> Option<Word<'t>>
    ensures { option_map bytes_of result ≡ other_case name.entry.0.now job.now }
{
    let decl = job.decls.as_slice().iter().find(|decl| differs_in_case(
        declared_name(decl).name.bytes(),
        name.0,
    ))?;
    Some(Word::of(&declared_name(decl).name))
}

fn differs_in_case(a: &[u8], b: &[u8]) -> bool
    ensures { result ≡ differs_in_case a.now b.now }
{
    a.eq_ignore_ascii_case(b) && a != b
}

/// The pipe into which this earlier stage puts the value of a name.
pub(crate) fn holder<'t>(
    site: Site<'t>,
    name: Word<'_>,
    here: usize,
    stage: usize,
) -> Option<Word<'t>>
    ensures { option_map bytes_of result ≡ holder site.entry.text.now site.entry.job.now name.entry.0.now here stage }
{
    if stage < here {
        pipe_in(first_put(site.text, stmts_in(site.job, stage), name))
    } else {
        None
    }
}

// The first statement that puts the value of a name.
fn first_put<'t>(text: &[u8], stmts: &'t [Stmt], name: Word<'_>) -> Option<&'t Stmt>
    ensures { option_map (λ s. s.now) result ≡ find (λ s. puts text.now name.entry.0.now s.kind) stmts.now }
{
    stmts.iter().find(|stmt| puts(text, &stmt.kind, name))
}

fn pipe_in<'t>(stmt: Option<&'t Stmt>) -> Option<Word<'t>>
    ensures { option_map bytes_of result ≡ pipe_in (option_map (λ s. s.now) stmt.entry) }
{
    match &stmt?.kind {
        StmtKind::Put(pipe, _) => Some(Word::of(&pipe.name)),
        _ => None,
    }
}

// Whether a statement puts a value whose outermost token is this name.
fn puts(text: &[u8], stmt: &StmtKind, name: Word<'_>) -> bool
    ensures { result ≡ puts text.now name.entry.0.now stmt.now }
{
    match stmt {
        StmtKind::Put(_, value) => token_at(text, value.place) == name.0,
        _ => false,
    }
}

/// The first statement of a stage that binds a name.
pub(crate) fn local<'t>(job: &'t Job, stage: usize, name: Word<'_>) -> Option<&'t StmtKind> {
    let stmts = job.blocks.as_slice().get(stage)?.stmts.as_slice();
    let number = stmts.iter().position(|stmt| binds(&stmt.kind, name))?;
    Some(&stmts.get(number)?.kind)
}

/// The name that a statement binds.
pub(crate) fn bound_name(stmt: Option<&StmtKind>) -> Option<&Named> {
    match stmt {
        Some(StmtKind::Read(read)) => Some(&read.name),
        Some(StmtKind::Let(named, _)) => Some(named),
        _ => None,
    }
}

/// The word of a name: no bytes where there is none.
pub(crate) fn word_of<'t>(named: Option<&'t Named>) -> Word<'t> {
    match named {
        Some(named) => Word::of(&named.name),
        None => Word(&[]),
    }
}

/// The line of a name: 0 where there is none.
pub(crate) fn line_of(named: Option<&Named>) -> u64 {
    match named {
        Some(named) => u64::from(named.at.line),
        None => 0,
    }
}
