// Laws about all Verilog texts. Each function does nothing: its contract is the law.
ghost use Rattle.std.specs.Prelude.{◌≡◌, ◌≤◌, ℕ, List, None, length};
ghost use Rattle.kp_net.specs.Netlist.{Net};
ghost use Rattle.kp_net.specs.Names.{IsNamed};
ghost use Rattle.kp_net.specs.Parts.{NetOk};
ghost use Rattle.kp_vlog.specs.declared.tree.VModule.{VModule};
ghost use Rattle.kp_vlog.specs.Rules.{Fault, broken};
ghost use Rattle.kp_vlog.specs.Denote.{net_of, IsModule, Denotes};
ghost use Rattle.kp_base.specs.Refusal.{v_rule};
ghost use Rattle.kp_vlog.specs.Verdict.{Breaks, IsRefused};
ghost use Rattle.kp_vlog.specs.Canon.{canon};
ghost use Rattle.kp_vlog.specs.Examples.{counter, counter_text, store, store_text};
ghost use Rattle.kp_vlog.specs.Wrong.{AllBroken, wrong_tokens, wrong_grammar, wrong_names, wrong_widths, wrong_drivers, wide_ue, no_reset_list};

/// The netlist that a text denotes is well-formed: operands come before the nodes that use them, widths fit, and everything that is named exists. The
/// text is at most 16 MiB long, so that its nodes, registers and sample ports fit a netlist.
pub fn a_text_denotes_a_right_netlist()
    ensures { (at : ℕ) (text : List ℕ) (net : Net) → length text ≤ 16777216 → Denotes at text net → NetOk net }
{}

/// And its names, and the widths of its outputs, are those that a text can denote.
pub fn a_text_denotes_a_named_netlist()
    ensures { (at : ℕ) (text : List ℕ) (net : Net) → Denotes at text net → IsNamed net }
{}

/// A text has at most one module, and denotes at most one netlist.
pub fn a_text_has_one_module()
    ensures module { (at : ℕ) (text : List ℕ) (m n : VModule) → IsModule at text m → IsModule at text n → m ≡ n }
    ensures netlist { (at : ℕ) (text : List ℕ) (net other : Net) → Denotes at text net → Denotes at text other → net ≡ other }
{}

/// A text violates at most one of the rules V1 to V5, at one position; and if it denotes a netlist, it violates none.
pub fn a_text_breaks_one_rule()
    ensures one { (from : ℕ) (text : List ℕ) (f g : Fault) → Breaks from text f → Breaks from text g → f ≡ g }
    ensures none { (from : ℕ) (text : List ℕ) (net : Net) (f : Fault) → Denotes from text net → Breaks from text f → ⊥ }
{}

/// Examples of the meaning: the texts of a counter, and of a netlist with each kind of node, a file with and one without a write port, a reset and a
/// sample port.
#[tactic(auto, using(crate::proofs::Examples::counter_denotes, crate::proofs::Examples::store_denotes))]
pub fn examples_denote_their_netlists()
    ensures counter { Denotes 0 counter_text counter }
    ensures store { Denotes 0 store_text store }
{}

/// And these are the canonical texts of the two netlists.
#[tactic(auto, using(crate::proofs::Examples::counter_canonical, crate::proofs::Examples::store_canonical))]
pub fn examples_are_canonical()
    ensures counter { canon counter ≡ counter_text }
    ensures store { canon store ≡ store_text }
{}

/// Examples of the rules: a module with every form, and replacements for its lines, each of which violates one sentence of a rule, at the line and
/// the column that the rule specifies.
pub fn wrong_lines_are_examples()
    ensures tokens { AllBroken wrong_tokens }
    ensures grammar { AllBroken wrong_grammar }
    ensures names { AllBroken wrong_names }
    ensures widths { AllBroken wrong_widths }
    ensures drivers { AllBroken wrong_drivers }
    ensures ue { IsRefused wide_ue 0 (v_rule 5 (record { line = 1; col = 125 })) }
    ensures reset { IsRefused no_reset_list 0 (v_rule 5 (record { line = 1; col = 39 })) }
{}
