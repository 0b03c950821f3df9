//! The law of this crate. The function does nothing: its contract is the law.
ghost use Rattle.std.specs.Prelude.{◌≡◌, List, All, true, false};
ghost use Rattle.kp_ast.specs.declared.tree.Job.{Job};
ghost use Rattle.kp_stage.specs.declared.start.Start.{Start};
ghost use Rattle.kp_stage.specs.Start.{start_of};
ghost use Rattle.kp_machine.specs.Machine.{state_of};
ghost use Rattle.kp_net.specs.Netlist.{Net, Input, State, start_of as net_start, state_after, last_of};
ghost use Rattle.kp_net.specs.Growth.{Held};
ghost use Rattle.kp_synth_registers.specs.declared.outcome.Outcome.{Outcome};
ghost use Rattle.kp_synth_next.specs.Closed.{Closed};
ghost use Rattle.kp_synth_next.specs.Shows.{ShowsOver, ShowsAnew, HasWords, HoldsFrom, left_by_reset, shown_word};

/// A netlist whose registers latch the values specified by their keys, whose write ports write the values that the
/// targets take, whose outputs mean the row, and which starts with the start state of the job, shows the pipelined
/// machine of the job over all inputs that never reset it (`over`), and after a reset of any state the one that
/// starts with the state after the reset (`anew`). Each state that it reaches contains all words of the files
/// (`words`). In each state its registers hold the state of that pipeline (`holds`, `holds_anew`).
pub fn closed_netlist_shows_the_pipeline()
    ensures over { (job : Job) (net : Net) (start : Start) (outs : List Outcome) (p : Held) (ins : List Input)
        → Closed job net start outs p → start ≡ start_of job → All (λ (i : Input). i.reset ≡ false) ins → ShowsOver net job ins }
    ensures words { (job : Job) (net : Net) (start : Start) (outs : List Outcome) (p : Held) (ins : List Input)
        → Closed job net start outs p → HasWords net job (last_of net ins) }
    ensures anew { (job : Job) (net : Net) (start : Start) (outs : List Outcome) (p : Held) (s : State) (i : Input) (ins : List Input)
        → Closed job net start outs p → start ≡ start_of job → HasWords net job s → i.reset ≡ true → All (λ (j : Input). j.reset ≡ false) ins
        → ShowsAnew net job s i ins }
    ensures holds { (job : Job) (net : Net) (start : Start) (outs : List Outcome) (p : Held) (ins : List Input)
        → Closed job net start outs p → start ≡ start_of job → All (λ (i : Input). i.reset ≡ false) ins
        → HoldsFrom net job (net_start net) (state_of job (start_of job)) ins }
    ensures holds_anew { (job : Job) (net : Net) (start : Start) (outs : List Outcome) (p : Held) (s : State) (i : Input) (ins : List Input)
        → Closed job net start outs p → start ≡ start_of job → HasWords net job s → i.reset ≡ true → All (λ (j : Input). j.reset ≡ false) ins
        → HoldsFrom net job (state_after net i s) (left_by_reset job (shown_word job s)) ins }
{}
