// The job that a number generates.
ghost use Rattle.std.specs.Prelude.{◌≡◌, IfOk, [], ◌∷◌, ◌≤◌, length};
ghost use Rattle.kp_gen.specs.Generated.{gen_job, job_of, all_stalls};

use crate::declared::all_decls;
use crate::draws::{Route, Shape};
use crate::stated::all_blocks;
use crate::trees::{named, num, spelled};
use kp_ast::{Job, Stalls};
use kp_base::{List, NoMemory};
use std::alloc::Global;

/// The generated job of this number. The only error is out of memory.
pub fn generate(alloc: Global, start: u64) -> Result<Job, NoMemory>
    ensures { IfOk result (λ job. job ≡ gen_job start) }
{
    let shape = Shape::drawn(alloc, start)?;
    job_of(alloc, shape.stages, shape.routes.as_slice())
}

// The job with these choices.
#[tactic(auto, unfolding(crate::specs::Generated::job_of))]
fn job_of(alloc: Global, stages: u64, routes: &[Route]) -> Result<Job, NoMemory>
    requires stages { 3 ≤ stages }
    requires some { 4 ≤ length routes.now }
    requires routes { length routes.now ≤ 35 }
    ensures { IfOk result (λ job. job ≡ job_of stages routes.now) }
{
    let stalls = all_stalls(alloc, stages)?;
    let name = named(spelled(alloc, b"gen")?);
    let decls = all_decls(alloc, stages, routes)?;
    let blocks = all_blocks(alloc, stages, routes)?;
    Ok(Job {
        name,
        stages: num(stages),
        decls: List::new(decls),
        blocks: List::new(blocks),
        image: None,
        stalls: Some(List::new(stalls)),
        inputs: None,
    })
}

fn all_stalls(alloc: Global, stages: u64) -> Result<Vec<Stalls>, NoMemory>
    requires { 3 ≤ stages }
    ensures { IfOk result (λ ss. ss.items ≡ all_stalls stages) }
{
    let mut stalls = Vec::new(alloc);
    stalls.push(Stalls {
        stage: num(stages - 1),
        from: num(5),
        to: num(100_000),
        step: Some(num(7)),
    })?;
    Ok(stalls)
}
