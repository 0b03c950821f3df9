//! Laws about the definitions of this crate. Each function does nothing: its contract is the law.
ghost use Rattle.std.specs.Prelude.{◌≡◌, ℕ, List, All};
ghost use Rattle.kp_ast.specs.declared.tree.Job.{Job};
ghost use Rattle.kp_net.specs.Netlist.{Net, Input, State, start_of};
ghost use Rattle.kp_net.specs.Parts.{NetOk};
ghost use Rattle.kp_implements.specs.{Shows.Shows, Anew.trace_from, Anew.HasMemory};
ghost use Rattle.kp_core_ports.specs.declared.port.Ask.TheVariants.{Peek, Show};
ghost use Rattle.kp_core.specs.{Loading.IsLoad, Loading.Cycle, Loading.after_cycle, Values.port_value, Values.state_in};

/// The output of `show R` is the value of R that is visible in the run, and the output of `peek F` the word of F at the address at its port that is.
pub fn show_and_peek_show_what_is_visible()
    ensures show { (job : Job) (net : Net) (s : State) (ins : List Input) (i : Input) (T t a : ℕ)
        → port_value job net i (state_in net s ins T) a (Show t) ≡ (trace_from job net s ins).visible T t 0 }
    ensures peek { (job : Job) (net : Net) (s : State) (ins : List Input) (i : Input) (T t a : ℕ)
        → port_value job net i (state_in net s ins T) a (Peek t) ≡ (trace_from job net s ins).visible T t a }
{}

/// The files of a module are complete at power-up (`start`), and in each cycle they stay so, with resets and loads (`kept`): so a run can begin after any cycle
/// that raises the reset.
pub fn files_stay_complete()
    ensures start { (net : Net) → NetOk net → HasMemory net (start_of net) }
    ensures kept { (net : Net) (job : Job) (st : State) (c : Cycle) → NetOk net → Shows net job → HasMemory net st → All (IsLoad job) c.loads
        → HasMemory net (after_cycle net job st c) }
{}
