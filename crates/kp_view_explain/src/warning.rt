// What is said of a warning.
ghost use Rattle.std.specs.Prelude.{slice_get};
ghost use Rattle.kp_view_explain.specs.Warned.{SaysOf};
ghost use Rattle.kp_view_explain.specs.inner.Outputs.{IsOutput};

use kp_ast::{Decl, Job};
use kp_base::Finding;
use kp_lint::Lint;
use kp_view_excerpt::token_at;
use kp_view_help::{Kind, Word};
use kp_view_message::Warning;

// What a sentence prints of a result.
#[derive(Clone, Copy)]
struct Output<'t> {
    name: Word<'t>,
    target: Word<'t>,
    file: bool,
    stage: u64,
}

/// What is said of a warning for the job that this text describes.
pub(crate) fn warning_of<'t>(text: &'t [u8], job: &'t Job, found: Finding<Lint>) -> Warning<'t>
    ensures { SaysOf text.now job.now found.place found.fault result }
{
    let name = Word(token_at(text, found.place));
    match found.fault {
        Lint::NeverSet { result } => Warning::NeverSet {
            result: name,
            target: output_at(job, result).target,
        },
        Lint::MaybeUnset { result, lines } => {
            let output = output_at(job, result);
            Warning::MaybeUnset {
                result: name,
                target: output.target,
                file: output.file,
                stage: output.stage,
                lines,
            }
        }
        Lint::SetInVain {
            result,
            stage,
            line,
        } => Warning::SetInVain {
            result: output_at(job, result).name,
            stage,
            line,
        },
        Lint::UnusedPipe => Warning::UnusedPipe(name),
        Lint::UnusedLocal { stage } => Warning::UnusedLocal { name, stage },
        Lint::UnusedHint => {
            let kind = Kind::Hint;
            Warning::UnusedName { name, kind }
        }
        Lint::UnusedSample => {
            let kind = Kind::Sample;
            Warning::UnusedName { name, kind }
        }
        Lint::UnusedFunction => {
            let kind = Kind::Function;
            Warning::UnusedName { name, kind }
        }
        Lint::NoResult => Warning::NoResult(name),
        Lint::KeywordPort => Warning::KeywordPort(name),
        Lint::PutLate { result, earliest } => Warning::PutLate {
            name,
            target: output_at(job, result).target,
            earliest,
        },
    }
}

// The result that the declaration of this number declares.
fn output_at(job: &Job, number: usize) -> Output<'_>
    ensures { IsOutput (slice_get job.now.decls number) result }
{
    match job.decls.as_slice().get(number) {
        Some(Decl::Target(output)) => Output {
            name: Word::of(&output.name.name),
            target: Word::of(&output.target.name),
            file: output.address.is_some(),
            stage: output.stage.value,
        },
        _ => Output {
            name: Word(&[]),
            target: Word(&[]),
            file: false,
            stage: 0,
        },
    }
}
