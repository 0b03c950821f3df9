// From a source to a status and standard error.
ghost use Rattle.std.specs.Prelude.{◌≡◌, ◌≢◌, ◌≤◌, ℕ, Bool, List, Some, IfOk, IsErrOf};
ghost use Rattle.std.specs.Io.KnownBytes.{Appends};
ghost use Rattle.kp_base.specs.Bytes.{AppendsPart};
ghost use Rattle.kp_base.specs.Causes.{Rose};
ghost use Rattle.kp_frontend.specs.Judging.{too_long};
ghost use Rattle.kp_view_explain.specs.Explaining.{IsExplained, IsFinal, Says};
ghost use Rattle.kp_view_explain.specs.declared.top.Stop.TheVariants as stop;
ghost use Rattle.kp_view_explain.specs.declared.words.Subject.{Subject as SubjectOf};

use crate::explanation::Explanation;
use crate::text::explain;
use crate::words::Subject;
use kp_base::{NoMemory, Place, ReadAll, Refusal, Sink, Source, read_all, write_all};
use kp_view_texts::write_head;
use std::alloc::Global;

/// Why nothing is said of an input.
#[derive(Clone, Copy)]
pub enum Stop {
    ReadFault,
    NoMemory,
}

impl From<NoMemory> for Stop {
    ghost from_gives = { λ _ s. s ≡ stop.NoMemory };

    fn from(_: NoMemory) -> Self {
        Stop::NoMemory
    }
}

/// Explains the input of a source, under the name of its file: writes to standard error, and returns the status. It is 0 for an input that violates no
/// rule, 2 where it violates one or, with `strict`, where there are warnings for a job, 3 for a fault of the source, 4 for a fault of the sink, and 5
/// for out of memory.
pub fn explain_source<S: Source, E: Sink>(
    alloc: Global,
    file: &[u8],
    subject: Subject,
    strict: bool,
    source: &mut S,
    err: &mut E,
) -> u8
    // Any status but 3, 4 and 5 is the specified one for the bytes of the source, and the whole text was written.
    ensures due { IsFinal result → (text : List ℕ) × IsExplained subject strict file.now (S.left source.old) (S.left source.new) result text
        × Appends (E.held err.old) (E.held err.new) text }

    // A fault only if the source or the sink failed in this call, and out of memory only with nothing written.
    ensures read_fault { result ≡ 3 → Rose (S.faults source.old) (S.faults source.new) × (err.new ≡ err.old) }
    ensures write_fault { result ≡ 4 → Rose (E.faults err.old) (E.faults err.new)
        × (status : ℕ) × (text : List ℕ) × IsExplained subject strict file.now (S.left source.old) (S.left source.new) status text
        × AppendsPart (E.held err.old) (E.held err.new) text }
    ensures no_memory { result ≡ 5 → err.new ≡ err.old }
    ensures statuses { (result ≤ 5) × (result ≢ 1) }
{
    match explanation(alloc, file, subject, strict, source) {
        Ok(Explanation { status, text }) => match write_all(err, text.as_slice()) {
            Ok(()) => status,
            Err(_) => 4,
        },
        Err(Stop::ReadFault) => 3,
        Err(Stop::NoMemory) => 5,
    }
}

// What is said of the input of a source.
fn explanation<S: Source>(
    alloc: Global,
    file: &[u8],
    subject: Subject,
    strict: bool,
    source: &mut S,
) -> Result<Explanation, Stop>
    ensures explained { IfOk result (λ e. IsExplained subject strict file.now (S.left source.old) (S.left source.new) e.status e.text.items) }
    ensures low { IfOk result (λ e. (e.status ≤ 2) × (e.status ≢ 1)) }
    ensures fault { IsErrOf result stop.ReadFault → Rose (S.faults source.old) (S.faults source.new) }
{
    match read_all(alloc, source) {
        Ok(input) => Ok(explain(alloc, file, subject, strict, input.as_slice())?),
        Err(ReadAll::TooLong) => Ok(explain_excess(alloc, file)?),
        Err(ReadAll::Fault) => Err(Stop::ReadFault),
        Err(ReadAll::NoMemory) => Err(Stop::NoMemory),
    }
}

/// What is said of an input that is longer than it may be. The only error is out of memory.
pub fn explain_excess(alloc: Global, file: &[u8]) -> Result<Explanation, NoMemory>
    ensures said { IfOk result (λ e. (subject : SubjectOf) (strict : Bool) (input : List ℕ) → Says subject strict file.now input (Some too_long) e.status e.text.items) }
    ensures low { IfOk result (λ e. e.status ≡ 2) }
{
    let mut text = Vec::new(alloc);
    write_head(&mut text, file, Refusal::e(3, Place::START))?;
    text.extend_from_slice(b"the input has more than 16,777,216 bytes\n")?;
    Ok(Explanation { status: 2, text })
}
