//! Properties of a job that violates no rule of stages. Each function has an empty body: its clauses are laws.
ghost use Rattle.std.specs.Prelude.{◌≡◌, ◌≤◌, ℕ, List, Some, None, Contains, IsTrue, IsFalse};
ghost use Rattle.kp_bits.specs.Word.{Word};
ghost use Rattle.kp_ast.specs.Expressions.{Env, eval};
ghost use Rattle.kp_ast.specs.Size.{size};
ghost use Rattle.kp_ast.specs.declared.tree.Expr.{Expr};
ghost use Rattle.kp_ast.specs.declared.tree.Job.{Job};
ghost use Rattle.kp_ast.specs.declared.tree.Stmt.{Stmt};
ghost use Rattle.kp_stage.specs.Counts.{summary_of, AreFew};
ghost use Rattle.kp_stage.specs.Sizes.{size_of_job};
ghost use Rattle.kp_stage.specs.Stages.{broken_of};
ghost use Rattle.kp_stage.specs.Uses.{statement_at, plain_in, exprs_in, uses, sets, aims, is_pipe, is_hint, IsPutBefore};

/// A pipe that an expression in stage k uses is put in a stage before k (E16, E17).
pub fn a_pipe_is_put_before_it_is_used()
    ensures { (job : Job) → broken_of job ≡ None → (k j : ℕ) (s : Stmt) → statement_at job k j ≡ Some s
        → (e : Expr) → Contains (exprs_in s.kind) e → (q : List ℕ) → IsTrue (uses q e) → IsTrue (is_pipe job q) → IsPutBefore job q k }
{}

/// A result is set at most once in a stage, and a hint is aimed at most once in the machine (E21).
pub fn a_result_is_set_once_in_a_stage()
    ensures result { (job : Job) → broken_of job ≡ None → (q : List ℕ) (k i j : ℕ) (s t : Stmt)
        → statement_at job k i ≡ Some s → IsTrue (sets q s.kind) → statement_at job k j ≡ Some t → IsTrue (sets q t.kind) → i ≡ j }
    ensures hint { (job : Job) → broken_of job ≡ None → (q : List ℕ) (k i l j : ℕ) (s t : Stmt)
        → statement_at job k i ≡ Some s → IsTrue (aims q s.kind) → statement_at job l j ≡ Some t → IsTrue (aims q t.kind)
        → (k ≡ l) × (i ≡ j) }
{}

/// Hints occur only in guesses and aims, so the value of any other expression doesn't depend on the hints (E25).
pub fn hints_count_in_guesses_and_aims_alone()
    ensures names { (job : Job) → broken_of job ≡ None → (k j : ℕ) (s : Stmt) → statement_at job k j ≡ Some s
        → (e : Expr) → Contains (plain_in s.kind) e → (q : List ℕ) → IsTrue (uses q e) → IsFalse (is_hint job q) }
    ensures values { (job : Job) → broken_of job ≡ None → (k j : ℕ) (s : Stmt) → statement_at job k j ≡ Some s
        → (e : Expr) → Contains (plain_in s.kind) e → (a b : Env)
        → ((q : List ℕ) → IsFalse (is_hint job q) → a.names q ≡ b.names q)
        → ((q : List ℕ) (args : List Word) → a.calls q args ≡ b.calls q args) → eval a e ≡ eval b e }
{}

/// The expanded size of a machine, in which each call also counts the body of its function, is at most 100,000, and
/// so is that of each expression in it (E28).
pub fn sizes_bound_the_work()
    ensures machine { (job : Job) → broken_of job ≡ None → size_of_job job ≤ 100000 }
    ensures expression { (job : Job) → broken_of job ≡ None → (k j : ℕ) (s : Stmt) → statement_at job k j ≡ Some s
        → (e : Expr) → Contains (exprs_in s.kind) e → size job.decls e ≤ 100000 }
{}

/// The numbers of the machine are within their limits (E15, E28, E29).
#[tactic(auto, using(crate::proofs::Bounds::numbers_few))]
pub fn the_numbers_are_few()
    ensures { (job : Job) → broken_of job ≡ None → AreFew (summary_of job) }
{}
