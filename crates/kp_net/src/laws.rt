//! Laws of the definitions of this crate. Each function does nothing: its contract is the law.
ghost use Rattle.std.specs.Prelude.{◌≡◌, ℕ, ◌+◌, ◌<◌, ◌^◌, List, [], ◌∷◌, ◌++◌, length, get_or, true, false};
ghost use Rattle.kp_bits.specs.Word.{word};
ghost use Rattle.kp_net.specs.declared.node.Node.{Node};
ghost use Rattle.kp_net.specs.Nodes.{Cells, word_of_kind, word_of_node, word_at, at};
ghost use Rattle.kp_net.specs.Widths.{wide, no_node, is_cell, AllRight};
ghost use Rattle.kp_net.specs.Depth.{depth, depth_of};
ghost use Rattle.kp_net.specs.Growth.{Held, Kept};
ghost use Rattle.kp_net.specs.Netlist.{Net, Input, State, start_regs, state_after, row_of, run, last_of, resets, states_from, rows_from, restarted};

/// The word of a node has the node's width and fits it, whatever the cells hold.
#[tactic(auto, using(crate::proofs::Values::word_is, crate::proofs::Values::at_fits))]
pub fn words_fit()
    ensures width { (c : Cells) (ns : List Node) (i : ℕ) → i < length ns → word_at c ns i ≡ word (wide ns i) (at c ns i) }
    ensures value { (c : Cells) (ns : List Node) (i : ℕ) → i < length ns → at c ns i < 2 ^ wide ns i }
{}

/// In a well-formed list the word of each node is computed from the words of its operands, as an equation of the netlist.
#[tactic(auto, using(crate::proofs::Values::word_there))]
pub fn equations_hold()
    ensures { (c : Cells) (ns : List Node) (i : ℕ) → AllRight ns → i < length ns
        → word_at c ns i ≡ word_of_node c (word_at c ns) (get_or ns i no_node) }
{}

/// There the values of constants and the results of operations are exact: nothing is truncated.
pub fn operations_are_exact()
    ensures { (c : Cells) (ns : List Node) (i : ℕ) → AllRight ns → i < length ns
        → is_cell (get_or ns i no_node).kind ≡ false
        → word_at c ns i ≡ word_of_kind c (word_at c ns) (wide ns i) (get_or ns i no_node).kind }
{}

/// One more input yields one more state and one more row: those of one cycle from the last state.
#[tactic(auto, using(crate::proofs::Runs::states_more, crate::proofs::Runs::rows_more, crate::proofs::Runs::last_more))]
pub fn runs_go_on()
    ensures states { (net : Net) (inputs : List Input) (i : Input)
        → (run net (inputs ++ i ∷ [])).states ≡ (run net inputs).states ++ state_after net i (last_of net inputs) ∷ [] }
    ensures rows { (net : Net) (inputs : List Input) (i : Input)
        → (run net (inputs ++ i ∷ [])).rows ≡ (run net inputs).rows ++ row_of net i (last_of net inputs) ∷ [] }
    ensures last { (net : Net) (inputs : List Input) (i : Input)
        → last_of net (inputs ++ i ∷ []) ≡ state_after net i (last_of net inputs) }
{}

/// A reset sets each register to its start value and changes no file. From there on the run is that of the same netlist
/// with files that start with the words they have at that time.
#[tactic(auto, using(crate::proofs::Resets::reset_state, crate::proofs::Resets::states_anew, crate::proofs::Resets::rows_anew))]
pub fn a_reset_starts_anew()
    ensures state { (net : Net) (i : Input) (st : State) → resets net i ≡ true
        → state_after net i st ≡ record { regs = start_regs net; files = st.files } }
    ensures states { (net : Net) (before : List Input) (i : Input) (inputs : List Input) → resets net i ≡ true
        → states_from net (state_after net i (last_of net before)) inputs ≡ (run (restarted net (last_of net before).files) inputs).states }
    ensures rows { (net : Net) (before : List Input) (i : Input) (inputs : List Input) → resets net i ≡ true
        → rows_from net (state_after net i (last_of net before)) inputs ≡ (run (restarted net (last_of net before).files) inputs).rows }
{}

/// The depth of a well-formed node is computed from those of its operands, and stays the same while a pool grows.
#[tactic(auto, using(crate::proofs::Depths::depth_there, crate::proofs::Depths::depth_kept))]
pub fn depths_stay()
    ensures of_operands { (ns : List Node) (i : ℕ) → AllRight ns → i < length ns → depth ns i ≡ depth_of (depth ns) (get_or ns i no_node).kind }
    ensures kept { (p q : Held) (k i : ℕ) → Kept p q k → i < length p.nodes → depth q.nodes i ≡ depth p.nodes i }
{}
