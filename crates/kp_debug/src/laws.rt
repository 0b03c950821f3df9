//! Laws of the debugger's commands. Each function does nothing: its contract is the law.

ghost use Rattle.std.specs.Prelude.{◌≡◌, ◌+◌, ◌<◌, ◌≤◌, ℕ, Bool, true, false, List, Ok};
ghost use Rattle.kp_ast.specs.declared.tree.Job.{Job};
ghost use Rattle.kp_debug_script.specs.{Scripts.script_of, declared.command.Command.Command};
ghost use Rattle.kp_debug.specs.Inspecting.{first_from, AreOfJob};

/// A search over at most n cycles passes no cycle in which its condition is true (`first`), and if there is none it ends at the last cycle (`last`).
pub fn a_search_ends_at_the_first()
    ensures within { (holds : ℕ → Bool) (cycle n : ℕ) → (cycle ≤ first_from holds cycle n) × (first_from holds cycle n ≤ cycle + n) }
    ensures first { (holds : ℕ → Bool) (cycle n k : ℕ) → cycle ≤ k → k < first_from holds cycle n → holds k ≡ false }
    ensures last { (holds : ℕ → Bool) (cycle n : ℕ) → holds (first_from holds cycle n) ≡ false → first_from holds cycle n ≡ cycle + n }
{}

/// The commands of a script that violates no rule are about registers of its job.
pub fn a_script_is_of_its_job()
    ensures { (job : Job) (text : List ℕ) (from : ℕ) (commands : List Command) → script_of job.decls text from ≡ Ok commands → AreOfJob job commands }
{}
