//! The effect of several steps. Each function has an empty body: its clause is a law.
ghost use Rattle.std.specs.Prelude.{◌≡◌, ℕ, List, length};
ghost use Rattle.kp_bits.specs.Word.{Word};
ghost use Rattle.kp_ast.specs.declared.tree.Job.{Job};
ghost use Rattle.kp_pipeline.specs.Sequential.{seq};
ghost use Rattle.kp_machine.specs.Machine.{machine_of};
ghost use Rattle.kp_machine.specs.Words.{after_rows, given_by};

/// After a step for each input vector of a list the state of a machine is that of the sequential run in which each
/// instruction has its input vector.
pub fn steps_are_the_run()
    ensures { (job : Job) (s : ℕ → ℕ → ℕ) (rows : List (List Word))
        → after_rows job s rows ≡ seq (machine_of job) s (given_by rows) (length rows) }
{}
