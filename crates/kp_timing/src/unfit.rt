//! What has no timeline: guessed reads and samples.
ghost use Rattle.std.specs.Prelude.{◌≡◌};
ghost use Rattle.kp_timing.specs.Unfit.{untimed, is_before, earlier, samples_at, guesses_at, guesses_in, first_of, first_place};

use kp_ast::{Block, Decl, Job, Stmt, StmtKind};
use kp_base::{Place, Refusal};

/// E38 at the first position in the text of a guessed read's target or of a sample's declared name, if there is one.
#[tactic(auto, unfolding(crate::specs::Unfit::untimed), using(crate::proofs::Places::first_both))]
pub fn untimed(job: &Job) -> Option<Refusal>
    ensures { result ≡ untimed job.now }
{
    let first = first_sample(job.decls.as_slice());
    let first = first_guess(job.blocks.as_slice(), first);
    let place = first?;
    Some(Refusal::e(38, place))
}

fn first_sample(decls: &[Decl]) -> Option<Place>
    ensures { result ≡ first_place (samples_at decls.now) }
{
    let mut first = None;
    for decl in decls {
        if let Decl::Sample(named, _, _) = decl {
            first = Some(earlier(first, named.at));
        }
    }
    first
}

#[tactic(auto, using(crate::proofs::Places::guesses_next))]
fn first_guess(blocks: &[Block], before: Option<Place>) -> Option<Place>
    ensures { result ≡ first_of before (guesses_at blocks.now) }
{
    let mut first = before;
    for block in blocks {
        first = first_in(block.stmts.as_slice(), first);
    }
    first
}

fn first_in(stmts: &[Stmt], before: Option<Place>) -> Option<Place>
    ensures { result ≡ first_of before (guesses_in stmts.now) }
{
    let mut first = before;
    for stmt in stmts {
        if let StmtKind::Read(read) = &stmt.kind {
            if read.guess.is_some() {
                first = Some(earlier(first, read.target.at));
            }
        }
    }
    first
}

// The position that comes first in the text.
fn earlier(found: Option<Place>, b: Place) -> Place
    ensures { result ≡ earlier found b }
{
    match found {
        Some(a) => { if is_before(b, a) { b } else { a } }
        None => b,
    }
}

fn is_before(a: Place, b: Place) -> bool
    ensures { result ≡ is_before a b }
{
    a.line < b.line || (a.line == b.line && a.col < b.col)
}
