// The explanation of a text.
ghost use Rattle.std.specs.Prelude.{◌≡◌, ◌≢◌, ◌≤◌, length, IfOk};
ghost use Rattle.kp_frontend.specs.Judging.{most_bytes};
ghost use Rattle.kp_view_explain.specs.Explaining.{ExplainsText, HasJob, ShowsFirst};
ghost use Rattle.kp_view_explain.specs.Listing.{ListsNext};
ghost use Rattle.kp_view_explain.specs.declared.words.Subject.TheVariants as subjects;

use crate::explanation::Explanation;
use crate::of_job::explain_job;
use crate::program::explain_program;
use crate::script::explain_debugged;
use crate::verilog::{explain_verilog, explain_watched};
use crate::words::Subject;
use kp_base::NoMemory;
use std::alloc::Global;

/// The explanation of a text that is not too long, under the name of its file: the first rule that it violates, with the facts that it rests on and for
/// a job further violations, or the warnings for a job. With `strict` warnings count as errors. The only error is out of memory.
pub fn explain(
    alloc: Global,
    file: &[u8],
    subject: Subject,
    strict: bool,
    text: &[u8],
) -> Result<Explanation, NoMemory>
    requires { length text.now ≤ most_bytes }
    ensures said { IfOk result (λ e. ExplainsText subject strict file.now text.now e.status e.text.items) }
    ensures low { IfOk result (λ e. (e.status ≤ 2) × (e.status ≢ 1)) }
    ensures next { HasJob subject → IfOk result (λ e. ListsNext file.now text.now e.text.items) }
    ensures shown { IfOk result (λ e. ShowsFirst subject file.now text.now e.text.items) }
{
    match subject {
        Subject::Job => explain_job(alloc, file, strict, text),
        Subject::Verilog => Ok(explain_verilog(alloc, file, text)?),
        Subject::Watched => Ok(explain_watched(alloc, file, text)?),
        Subject::Program => Ok(explain_program(alloc, file, text)?),
        Subject::Debugged => Ok(explain_debugged(alloc, file, text)?),
    }
}
