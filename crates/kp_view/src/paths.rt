// `paths`: where each read takes its value from.
ghost use Rattle.std.specs.Prelude.{None, map, string_bytes};
ghost use Rattle.kp_paths.specs.Text.{paths_text};
ghost use Rattle.kp_view.specs.Due.{Says};
ghost use Rattle.kp_view.specs.Ends.{Ends};

use crate::failure::Failure;
use kp_base::Sink;
use kp_frontend::Accepted;
use kp_paths::{Paths, write_paths};
use std::alloc::Global;

/// Writes the table of the forwarding paths of a job, with these names of its stages.
pub fn paths<K: Sink>(
    alloc: Global,
    names: &[String],
    job: &Accepted,
    out: &mut K,
) -> Result<(), Failure>
    ensures { Ends K.held K.faults ⊥ (Says 0 (paths_text (map string_bytes names.now) job.now.design.job)) None out.old out.new result }
{
    let paths = Paths::of(alloc, &job.design)?;
    let end = write_paths(&paths, names, out);
    drop(paths);
    Ok(end?)
}
