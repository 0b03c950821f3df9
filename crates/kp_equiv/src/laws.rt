//! Consequences of the agreement of all roots of two netlists. Each function does nothing: its contract is the law.
ghost use Rattle.std.specs.Prelude.{◌≡◌, ◌+◌, length};
ghost use Rattle.kp_ast.specs.declared.tree.Job.{Job};
ghost use Rattle.kp_net.specs.Names.{IsNamed};
ghost use Rattle.kp_net.specs.Netlist.{Net};
ghost use Rattle.kp_net.specs.Parts.{NetOk};
ghost use Rattle.kp_implements.specs.{Shows.IsOfJob, Naming.module_name, Anew.BeginsAnew};
ghost use Rattle.kp_equiv.specs.{declared.verdict.Verdict.Verdict, Agreement.AllAgree, Verdicts.IsComparable, Verdicts.IsVerdict, Runs.RunAlike};
ghost use Rattle.kp_equiv.specs.declared.verdict.Verdict.TheVariants.{Same};
ghost use Rattle.kp_equiv.specs.Showing.{renamed, ShowsButName};

/// The comparison theorem: for every list of inputs the netlists have the same rows, and the same values of all registers and file words,
/// by name.
pub fn netlists_whose_roots_agree_run_alike()
    ensures { (a b : Net) → NetOk a → NetOk b → IsComparable a b → AllAgree a b → RunAlike a b }
{}

/// So if one of them implements the pipelined machine of a job up to its module's name, so does the other.
pub fn netlists_whose_roots_agree_show_the_same()
    ensures second { (a b : Net) (job : Job) → NetOk a → NetOk b → IsComparable a b → AllAgree a b → ShowsButName a job → ShowsButName b job }
    ensures first { (a b : Net) (job : Job) → NetOk a → NetOk b → IsComparable a b → AllAgree a b → ShowsButName b job → ShowsButName a job }
{}

/// And if one implements that machine and restarts correctly after each reset, over the contents that the memories have at that time, so does the
/// other.
pub fn netlists_whose_roots_agree_begin_anew_alike()
    ensures second { (a b : Net) (job : Job) → NetOk a → NetOk b → IsComparable a b → AllAgree a b → ShowsButName a job
        → BeginsAnew (renamed a (module_name job)) job → BeginsAnew (renamed b (module_name job)) job }
    ensures first { (a b : Net) (job : Job) → NetOk a → NetOk b → IsComparable a b → AllAgree a b → ShowsButName b job
        → BeginsAnew (renamed b (module_name job)) job → BeginsAnew (renamed a (module_name job)) job }
{}

/// Netlists that are both of one job, with names that a text can contain, can be compared.
pub fn netlists_of_one_job_are_comparable()
    ensures { (a b : Net) (job : Job) → IsNamed a → IsNamed b → IsOfJob a job → IsOfJob b job → IsComparable a b }
{}

/// Two netlists that can be compared have exactly one verdict.
pub fn two_netlists_have_one_verdict()
    ensures some { (a b : Net) → NetOk a → NetOk b → IsComparable a b → (verdict : Verdict) × IsVerdict a b verdict }
    ensures one { (a b : Net) (verdict other : Verdict) → IsVerdict a b verdict → IsVerdict a b other → verdict ≡ other }
{}

/// A well-formed netlist agrees with itself in all roots (`itself`), and if two agree in all roots, so they do in the other order (`turned`).
pub fn agreement_of_all_roots_is_symmetric()
    ensures itself { (a : Net) → NetOk a → IsVerdict a a Same }
    ensures turned { (a b : Net) → NetOk a → NetOk b → IsComparable a b → IsVerdict a b Same → IsVerdict b a Same }
{}
