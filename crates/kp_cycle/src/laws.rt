//! Consequences of the clauses of the simulator. Each function does nothing: its contract is the law.
ghost use Rattle.std.specs.Prelude.{◌≡◌, ℕ, List, Option, None, Some, get_or};
ghost use Rattle.kp_base.specs.declared.row.Row.{Row};
ghost use Rattle.kp_net.specs.Netlist.{Net, Input, State, start_of, row_of, last_of, run};
ghost use Rattle.kp_cycle.specs.Steps.{Running, saved_in, reg_shown, word_shown};
ghost use Rattle.kp_cycle.specs.Runs.{Steps, IsStep, Fed, Calls};

/// After any calls of `step` and `step_with` the rows and the state, and with it the values of registers and the
/// words of files, are those of the run of the netlist over the inputs of these calls.
#[tactic(auto, using(crate::proofs::Running::rows_of_run, crate::proofs::Running::state_of_run, crate::proofs::Running::value_of_run, crate::proofs::Running::word_of_run))]
pub fn steps_are_the_run()
    ensures rows { (net : Net) (slots : List (Option State)) (inputs : List Input) (rows : List Row) (t : Running) → Steps (record { net = net; state = start_of net; slots = slots }) inputs rows t
        → rows ≡ (run net inputs).rows }
    ensures state { (net : Net) (slots : List (Option State)) (inputs : List Input) (rows : List Row) (t : Running) → Steps (record { net = net; state = start_of net; slots = slots }) inputs rows t
        → t ≡ record { net = net; state = last_of net inputs; slots = slots } }
    ensures values { (net : Net) (slots : List (Option State)) (inputs : List Input) (rows : List Row) (t : Running) (r : ℕ) → Steps (record { net = net; state = start_of net; slots = slots }) inputs rows t
        → reg_shown t r ≡ reg_shown (record { net = net; state = last_of net inputs; slots = slots }) r }
    ensures words { (net : Net) (slots : List (Option State)) (inputs : List Input) (rows : List Row) (t : Running) (f a : ℕ) → Steps (record { net = net; state = start_of net; slots = slots }) inputs rows t
        → word_shown t f a ≡ word_shown (record { net = net; state = last_of net inputs; slots = slots }) f a }
{}

/// With calls of `save` and `load` among them, in any order, the state, and with it the values of registers and the
/// words of files, is that of the run of the netlist over the inputs that led to it: a load restores the inputs up to
/// the time when its slot was saved. And a row is that of the run after these inputs.
#[tactic(auto, using(crate::proofs::Running::state_of_calls, crate::proofs::Running::slot_of_calls))]
pub fn calls_are_the_run()
    ensures state { (net : Net) (n : ℕ) (fed : Fed) (s : Running) → Calls net n fed s → s.state ≡ last_of net fed.present }
    ensures rows { (net : Net) (n : ℕ) (fed : Fed) (s : Running) (input : Input) (row : Row) (t : Running) → Calls net n fed s → IsStep s input row t
        → row ≡ row_of net input (last_of net fed.present) }
    ensures slots { (net : Net) (n : ℕ) (fed : Fed) (s : Running) (slot : ℕ) (inputs : List Input) → Calls net n fed s
        → get_or fed.slots slot None ≡ Some inputs → saved_in s slot ≡ Some (last_of net inputs) }
{}
