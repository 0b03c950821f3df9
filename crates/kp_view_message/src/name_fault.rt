// Sentences on names (E5, E6, E7 and E26).
ghost use Rattle.std.specs.Prelude.{◌≡◌, [], None, Some, position};
ghost use Rattle.kp_view_help.specs.declared.help.Help.TheVariants as help;
ghost use Rattle.kp_view_message.specs.{Sites.binds_in, Widths.bits_in, inner.Places.places};
ghost use Rattle.kp_view_message.specs.Names.{again_help, AreElsewhereHelps, AreOwnHelps, AreScopeHelps, AreStageHelps, instead, kind_help, needs_address, through_pipe, wanted_in};

use crate::sentence::Sentence;
use crate::site::{
    Site, bound_name, bound_stage, declared, first_declared, function_named, holder, in_scope,
    is_own, line_of, local, other_case,
};
use kp_ast::{Job, NameKind, Scope, StmtKind};
use kp_view_help::{Help, Kind, Term, Terms, Wanted, Word};
use kp_width::Position;

/// A name that is in scope already is declared.
pub(crate) fn declared_again<'t>(
    job: &'t Job,
    name: Word<'t>,
    found: NameKind,
    from: usize,
    here: Scope,
) -> Sentence<'t>
    ensures helps { result.helps ≡ (again_help found here, None) }
    ensures widths { bits_in result.terms ≡ [] }
{
    let earlier = in_scope(job, name, found, from, here);
    let terms = Terms::Three(
        Term::Word(name),
        Term::Kind(Kind::of(found)),
        Term::Number(line_of(earlier)),
    );
    Sentence::new("`{}` is declared already, as a {} (line {})", terms).with(again_help(
        found, here,
    ))
}

fn again_help<'t>(found: NameKind, here: Scope) -> Option<Help<'t>>
    ensures { result ≡ again_help found here }
{
    match (found, here) {
        (NameKind::Pipe, Scope::Stage(_)) => Some(Help::PipeIsPut),
        _ => None,
    }
}

/// A name that isn't in scope at this site: where it is declared, if it is anywhere.
pub(crate) fn not_in_scope<'t>(
    site: Site<'t>,
    name: Word<'t>,
    here: Scope,
    width: Option<u8>,
) -> Sentence<'t>
    ensures helps { AreScopeHelps site.entry.text.now name.entry site.entry.job.now site.entry.place here width result.helps }
    ensures widths { bits_in result.terms ≡ [] }
{
    let job = site.job;
    if is_own(site, name, here) {
        return own_definition(job, name);
    }
    if let Some(number) = first_declared(job, name) {
        return declared_below(name, line_of(declared(job, number)));
    }
    match here {
        Scope::Stage(here) => not_in_stage(site, name, here as usize, width),
        _ => undeclared(name),
    }
}

// A name in its own definition.
#[tactic(auto, using(crate::proofs::Said::own))]
fn own_definition<'t>(job: &'t Job, name: Word<'t>) -> Sentence<'t>
    ensures helps { AreOwnHelps name.entry job.now result.helps }
    ensures widths { bits_in result.terms ≡ [] }
{
    let meant = match other_case(job, name) {
        Some(other) => Some(Help::OtherCase(other)),
        None => Some(Help::OwnDefinition),
    };
    Sentence::new(
        "`{}` isn't known in its own definition",
        Terms::One(Term::Word(name)),
    )
    .with(meant)
}

// The same for a name that isn't declared before the stages.
fn not_in_stage<'t>(site: Site<'t>, name: Word<'t>, here: usize, width: Option<u8>) -> Sentence<'t>
    ensures helps { AreStageHelps site.entry.text.now name.entry site.entry.job.now here width (position (binds_in name.entry.0.now) site.entry.job.now.blocks) result.helps }
    ensures widths { bits_in result.terms ≡ [] }
{
    let job = site.job;
    let Some(stage) = bound_stage(job, name) else {
        return undeclared(name);
    };
    let stmt = local(job, stage, name);
    let line = line_of(bound_name(stmt));
    if stage == here {
        return declared_below(name, line);
    }
    let terms = Terms::Three(
        Term::Word(name),
        Term::Number(stage as u64),
        Term::Number(line),
    );
    Sentence {
        helps: elsewhere_helps(site, name, here, width, stage),
        ..Sentence::new(elsewhere(stmt), terms)
    }
}

// What helps where another stage binds the name: a pipe that holds it, and else a new one.
#[tactic(auto, using(crate::proofs::Said::held))]
fn elsewhere_helps<'t>(
    site: Site<'t>,
    name: Word<'t>,
    here: usize,
    width: Option<u8>,
    stage: usize,
) -> (Option<Help<'t>>, Option<Help<'t>>)
    ensures { AreElsewhereHelps site.entry.text.now name.entry site.entry.job.now here width stage result }
{
    let second = match holder(site, name, here, stage) {
        Some(pipe) => Some(Help::HeldBy(pipe)),
        None => through_pipe(name, here, width, stage),
    };
    (Some(Help::KnownThere(stage)), second)
}

fn undeclared<'t>(name: Word<'t>) -> Sentence<'t>
    ensures helps { result.helps ≡ (None, None) }
    ensures widths { bits_in result.terms ≡ [] }
{
    Sentence::new(
        "`{}` is declared nowhere before this",
        Terms::One(Term::Word(name)),
    )
}

fn declared_below<'t>(name: Word<'t>, line: u64) -> Sentence<'t>
    ensures helps { result.helps ≡ (Some help.MoveUp, None) }
    ensures widths { bits_in result.terms ≡ [] }
{
    let terms = Terms::Two(Term::Word(name), Term::Number(line));
    Sentence::new("`{}` is declared only in line {}, after this use", terms).with(Some(
        Help::MoveUp,
    ))
}

// The text for a name that this statement of another stage binds.
fn elsewhere(stmt: Option<&StmtKind>) -> &'static str
    ensures { places result.now ≡ 3 }
{
    match stmt {
        Some(StmtKind::Read(_)) => "`{}` isn't known here: it is read in stage {} (line {})",
        _ => "`{}` isn't known here: it is defined by `let` in stage {} (line {})",
    }
}

// A later stage gets the value through a pipe.
fn through_pipe<'t>(
    name: Word<'t>,
    here: usize,
    width: Option<u8>,
    stage: usize,
) -> Option<Help<'t>>
    ensures { result ≡ through_pipe name.entry here width stage }
{
    if stage < here {
        Some(Help::ThroughPipe { name, stage, width })
    } else {
        None
    }
}

/// A name of another kind than is wanted at its place.
pub(crate) fn wrong_kind<'t>(
    job: &'t Job,
    name: Word<'t>,
    found: NameKind,
    from: usize,
    wanted: Position,
    here: Scope,
) -> Sentence<'t>
    ensures helps { result.helps ≡ (kind_help name.entry found wanted here, None) }
    ensures widths { bits_in result.terms ≡ [] }
{
    let word = Term::Word(name);
    let line = Term::Number(line_of(in_scope(job, name, found, from, here)));
    let sentence = match (found, wanted) {
        (NameKind::File(_), Position::Register) => Sentence::new(
            "`{}` is a file (line {}), and needs an address",
            Terms::Two(word, line),
        ),
        (NameKind::Reg, Position::File) => Sentence::new(
            "`{}` is a register (line {}), and has no address",
            Terms::Two(word, line),
        ),
        _ => Sentence::new(
            "`{}` is a {} (line {}); {} is wanted here",
            Terms::Four(
                word,
                Term::Kind(Kind::of(found)),
                line,
                Term::Wanted(wanted_in(wanted, here)),
            ),
        ),
    };
    sentence.with(kind_help(name, found, wanted, here))
}

// What helps there.
fn kind_help<'t>(name: Word<'t>, found: NameKind, wanted: Position, here: Scope) -> Option<Help<'t>>
    ensures { result ≡ kind_help name.entry found wanted here }
{
    if needs_address(found, wanted) {
        return Some(Help::WithAddress(name));
    }
    instead(name, Kind::of(found), wanted_in(wanted, here))
}

// Whether a file is where a register may stand.
fn needs_address(found: NameKind, wanted: Position) -> bool
    ensures { result ≡ needs_address found wanted }
{
    matches!((found, wanted), (NameKind::File(_), Position::Register))
}

fn wanted_in(position: Position, here: Scope) -> Wanted
    ensures { result ≡ wanted_in position here }
{
    match (position, here) {
        (Position::Value, Scope::Function(_)) => Wanted::Parameter,
        (Position::Value, _) => Wanted::Value,
        (Position::Register, _) => Wanted::Register,
        (Position::File, _) => Wanted::File,
        (Position::Pipe, _) => Wanted::Pipe,
        (Position::Result, _) => Wanted::Output,
        (Position::Hint, _) => Wanted::Hint,
        (Position::Callee, _) => Wanted::Function,
    }
}

// What to write in the place of a name of another kind than is wanted.
fn instead<'t>(name: Word<'t>, kind: Kind, wanted: Wanted) -> Option<Help<'t>>
    ensures { result ≡ instead name.entry kind wanted }
{
    Some(match (kind, wanted) {
        (Kind::Register, Wanted::Value) => Help::ReadRegister(name),
        (Kind::File, Wanted::Value) => Help::ReadFile(name),
        (Kind::Pipe, Wanted::Output) => Help::WritePut(name),
        (Kind::Output, Wanted::Pipe) => Help::WriteSet(name),
        (Kind::Register, Wanted::Pipe | Wanted::Output) => Help::SetItsResult(name),
        (Kind::Hint, Wanted::Pipe | Wanted::Output) => Help::WriteAim(name),
        _ => return None,
    })
}

/// A call with another number of arguments than its function has parameters.
pub(crate) fn argument_count<'t>(
    job: &'t Job,
    name: Word<'t>,
    found: usize,
    wanted: usize,
    function: usize,
) -> Sentence<'t>
    ensures helps { result.helps ≡ (None, None) }
    ensures widths { bits_in result.terms ≡ [] }
{
    let terms = Terms::Four(
        Term::Word(name),
        Term::Number(line_of(declared(job, function))),
        Term::Number(wanted as u64),
        Term::Number(found as u64),
    );
    Sentence::new(
        "the function `{}` (line {}) takes {} arguments; this call has {}",
        terms,
    )
}

/// A call of a function that is declared only where this many declarations precede, or later.
pub(crate) fn called_early<'t>(job: &'t Job, name: Word<'t>, before: usize) -> Sentence<'t>
    ensures helps { result.helps ≡ (None, None) }
    ensures widths { bits_in result.terms ≡ [] }
{
    let word = Term::Word(name);
    match function_named(job, name) {
        Some(number) if number != before => Sentence::new(
            "the function `{}` is declared only in line {}, after this call",
            Terms::Two(word, Term::Number(line_of(declared(job, number)))),
        ),
        _ => Sentence::new("the function `{}` can't call itself", Terms::One(word)),
    }
}
