// Warnings of names: those of declarations and of their ports, and local ones.
ghost use Rattle.std.specs.Prelude.{◌≡◌, IfOk};
ghost use Rattle.std.specs.List.{list_any};
ghost use Rattle.kp_lint.specs.Lints.{has_keyword_port, is_pipe_used, of_decl, of_local, of_port, uses_pipe, writes};
ghost use Rattle.kp_lint.specs.inner.Noted.{facts_in, has};

use crate::facts::Facts;
use crate::lint::{Found, Lint};
use crate::results::{is_called, of_sets, warn_if};
use crate::sets::sets_of;
use crate::table::Table;
use kp_ast::{Decl, Name, StmtKind};
use kp_base::NoMemory;
use std::alloc::Global;

/// W1 and W4 to W6: the warning of this declaration.
pub(crate) fn of_decl(
    alloc: Global,
    facts: &Facts<'_>,
    number: usize,
    decl: &Decl,
) -> Result<Option<Found>, NoMemory>
    ensures { IfOk result (λ r. r ≡ of_decl (facts_in facts.now) facts.now.job.now number decl.now) }
{
    let blocks = facts.job.blocks.as_slice();
    Ok(match decl {
        Decl::Target(output) => {
            let sets = sets_of(alloc, blocks, &output.name.name)?;
            of_sets(facts, number, output, sets.as_slice())
        }
        Decl::Pipe(named, _) => {
            warn_if(
                !is_pipe_used(facts, &named.name),
                Lint::UnusedPipe,
                named.at,
            )
        }
        Decl::Hint(named, _, _) => {
            warn_if(!has(&facts.used, &named.name), Lint::UnusedHint, named.at)
        }
        Decl::Sample(named, _, _) => {
            warn_if(!has(&facts.used, &named.name), Lint::UnusedSample, named.at)
        }
        Decl::Func(func) => {
            let named = &func.name;
            warn_if(
                !has(&facts.used, &named.name),
                Lint::UnusedFunction,
                named.at,
            )
        }
        Decl::Reg(named, _, _) => {
            warn_if(!has_result(facts, &named.name), Lint::NoResult, named.at)
        }
        Decl::File(_, _, _) => None,
    })
}

fn has(used: &Table<bool>, name: &Name) -> bool
    ensures { result ≡ has used.now.entries name.now }
{
    used.get(name).is_some()
}

// Whether an expression uses a pipe, or it is the address or the enable of a result.
fn is_pipe_used(facts: &Facts<'_>, name: &Name) -> bool
    ensures { result ≡ is_pipe_used (facts_in facts.now) facts.now.job.now.decls name.now }
{
    has(&facts.used, name) || uses_pipe(facts, name)
}

fn uses_pipe(facts: &Facts<'_>, name: &Name) -> bool
    ensures { result ≡ list_any (uses_pipe name.now) facts.now.job.now.decls }
{
    facts.job.decls.as_slice().iter().any(|decl| match decl {
        Decl::Target(output) => {
            is_called(name, &output.address) || is_called(name, &output.enable)
        }
        _ => false,
    })
}

fn has_result(facts: &Facts<'_>, target: &Name) -> bool
    ensures { result ≡ list_any (writes target.now) facts.now.job.now.decls }
{
    facts.job.decls.as_slice().iter().any(|decl| match decl {
        Decl::Target(output) => *target == output.target.name,
        _ => false,
    })
}

/// W8: the port of a sample is a keyword of SystemVerilog.
pub(crate) fn of_port(decl: &Decl) -> Option<Found>
    ensures { result ≡ of_port decl.now }
{
    match decl {
        Decl::Sample(named, _, _) => {
            warn_if(has_keyword_port(&named.name), Lint::KeywordPort, named.at)
        }
        _ => None,
    }
}

fn has_keyword_port(name: &Name) -> bool
    ensures { result ≡ has_keyword_port name.now }
{
    let name = name.bytes();
    name == b"always".as_slice()
        || name == b"eventually".as_slice()
        || name == b"nexttime".as_slice()
        || name == b"until".as_slice()
        || name == b"until_with".as_slice()
}

/// W5: a local name that no expression of the stage uses. A read with a guess serves where nothing uses its name.
pub(crate) fn of_local(used: &Table<bool>, stage: usize, stmt: &StmtKind) -> Option<Found>
    ensures { result ≡ of_local (has used.now.entries) stage stmt.now }
{
    let lint = Lint::UnusedLocal { stage };
    match stmt {
        StmtKind::Read(read) => {
            let named = &read.name;
            warn_if(
                read.guess.is_none() && !has(used, &named.name),
                lint,
                named.at,
            )
        }
        StmtKind::Let(named, _) => warn_if(!has(used, &named.name), lint, named.at),
        _ => None,
    }
}
