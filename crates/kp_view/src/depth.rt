// `depth`: the longest path of each stage.
ghost use Rattle.std.specs.Prelude.{◌≡◌, None, IfOk};
ghost use Rattle.kp_view.specs.Depths.{IsDepthText};
ghost use Rattle.kp_view.specs.Due.{Says, are_inside};
ghost use Rattle.kp_view.specs.Ends.{Ends};

use crate::failure::Failure;
use kp_base::{NoMemory, Sink, write_all};
use kp_depth::{depth_text, depths_of};
use kp_design::Layout;
use kp_frontend::Accepted;
use kp_synth::synth_stages;
use kp_view_words::Memories;
use kp_wires::wires_of;
use std::alloc::Global;

fn is_inside(memories: Memories) -> bool
    ensures { result ≡ are_inside memories }
{
    match memories {
        Memories::Inside => true,
        Memories::Outside => false,
    }
}

// The text of the longest paths of a job.
#[tactic(auto, using(crate::proofs::Netlists::all_registers, crate::proofs::Netlists::depth_is))]
fn text_of(alloc: Global, memories: Memories, job: &Accepted) -> Result<Vec<u8>, NoMemory>
    ensures { IfOk result (λ text. IsDepthText job.now.design.job (are_inside memories) text.items) }
{
    // The invariant of the type, for the proof only.
    let _kept = job.design.job();
    let built = synth_stages(alloc, &job.design, &job.sections.start)?;
    let layout = Layout::of(alloc, &job.design)?;
    let wires = wires_of(alloc, &layout, &built)?;
    let depths = depths_of(alloc, &built.net, &layout, is_inside(memories))?;
    let text = depth_text(alloc, &built.net, &layout, wires.as_slice(), &depths)?;
    Ok(text)
}

fn written<K: Sink>(text: &[u8], out: &mut K) -> Result<(), Failure>
    ensures { Ends K.held K.faults ⊥ (Says 0 text.now) None out.old out.new result }
{
    Ok(write_all(out, text)?)
}

/// Writes the longest paths of the stages of a job.
pub fn depth<K: Sink>(
    alloc: Global,
    memories: Memories,
    job: &Accepted,
    out: &mut K,
) -> Result<(), Failure>
    ensures { Ends K.held K.faults ⊥ (λ status text. (status ≡ 0) × IsDepthText job.now.design.job (are_inside memories) text) None out.old out.new result }
{
    let text = text_of(alloc, memories, job)?;
    let end = written(text.as_slice(), out);
    drop(text);
    end
}
