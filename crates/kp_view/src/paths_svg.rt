// `paths --svg`: where each read takes its value from, as a picture.
ghost use Rattle.std.specs.Prelude.{None, map, string_bytes};
ghost use Rattle.kp_paths.specs.Picture.{paths_svg_text};
ghost use Rattle.kp_view.specs.Due.{Says};
ghost use Rattle.kp_view.specs.Ends.{Ends};

use crate::failure::Failure;
use kp_base::Sink;
use kp_frontend::Accepted;
use kp_paths::{Paths, write_paths_svg};
use std::alloc::Global;

/// Draws the forwarding paths of a job, with these names of its stages.
pub fn paths_svg<K: Sink>(
    alloc: Global,
    names: &[String],
    job: &Accepted,
    out: &mut K,
) -> Result<(), Failure>
    ensures { Ends K.held K.faults ⊥ (Says 0 (paths_svg_text (map string_bytes names.now) job.now.design.job)) None out.old out.new result }
{
    let paths = Paths::of(alloc, &job.design)?;
    let end = write_paths_svg(&paths, names, out);
    drop(paths);
    Ok(end?)
}
