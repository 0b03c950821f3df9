// Which result each target has.
ghost use Rattle.std.specs.Prelude.{◌≡◌, ℕ, ◌<◌, ◌^◌, length, get_or, IfOk};
ghost use Rattle.kp_machine.specs.Slots.{targets_of};
ghost use Rattle.kp_watch.specs.inner.Results.{result_number, AreResults};

use kp_ast::Decl;
use kp_base::NoMemory;
use kp_design::target_number;
use kp_frontend::Accepted;
use std::alloc::Global;

/// For each of `count` targets the number of its result, or the number of results if it has none. The only error is out of memory.
pub(crate) fn results_of(alloc: Global, job: &Accepted, count: usize) -> Result<Vec<u32>, NoMemory>
    requires { count ≡ length (targets_of job.now.design.job.decls) }
    ensures { IfOk result (λ numbers. AreResults job.now.design.job numbers.items) }
{
    let decls = job.design.job().decls.as_slice();
    let mut numbers = Vec::new(alloc);
    for t in 0..count {
        numbers.push(result_number(decls, t))?;
    }
    Ok(numbers)
}

// The number of the first result to a target, or the number of results if there is none.
fn result_number(decls: &[Decl], t: usize) -> u32
    requires { length decls.now < 2 ^ 32 }
    ensures { result ≡ result_number (targets_of decls.now) decls.now t }
{
    let mut number = 0;
    for decl in decls {
        if let Decl::Target(r) = decl {
            if target_number(decls, &r.target.name) == t {
                return number;
            }
            number += 1;
        }
    }
    number
}
