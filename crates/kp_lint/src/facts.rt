// What the warnings look up, in tables with lookup in about constant time.
ghost use Rattle.std.specs.Prelude.{◌≡◌, IfOk};
ghost use Rattle.kp_lint.specs.Lints.{facts_of};
ghost use Rattle.kp_lint.specs.inner.Noted.{facts_in};

use crate::ready::pipes_of;
use crate::table::Table;
use crate::used::used_in;
use kp_ast::Job;
use kp_base::NoMemory;
use std::alloc::Global;

#[derive(Drop)]
pub(crate) struct Facts<'t> {
    pub job: &'t Job,
    /// The names that expressions use.
    pub used: Table<bool>,
    /// The first stage in which each pipe can be used.
    pub pipes: Table<usize>,
}

impl<'t> Facts<'t> {
    pub fn of(alloc: Global, job: &'t Job) -> Result<Facts<'t>, NoMemory>
        ensures job { IfOk result (λ f. f.job.now ≡ job.now) }
        ensures facts { IfOk result (λ f. facts_in f ≡ facts_of job.now) }
    {
        let (decls, blocks) = (job.decls.as_slice(), job.blocks.as_slice());
        let used = used_in(alloc, decls, blocks)?;
        let pipes = pipes_of(alloc, blocks)?;
        Ok(Facts { job, used, pipes })
    }
}
