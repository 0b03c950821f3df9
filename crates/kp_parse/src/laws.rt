// Properties of the tokens of every text.
ghost use Rattle.std.specs.Prelude.{◌≡◌, ◌⊎◌, ℕ, List};
ghost use Rattle.kp_base.specs.declared.refusal.Refusal.{Refusal};
ghost use Rattle.kp_ast.specs.declared.tree.Job.{Job};
ghost use Rattle.kp_lex.specs.declared.token.Token.{Token};
ghost use Rattle.kp_parse.specs.Sentence.{IsTree, Breaks};

/// A text has at most one tree.
pub fn a_text_has_one_tree()
    ensures { (text : List ℕ) (tokens : List Token) (i j : Job) → IsTree text tokens i → IsTree text tokens j → i ≡ j }
{}

/// A text violates at most one of the rules E4 and E27, at one position; and if it has a tree, it violates none.
pub fn a_text_breaks_one_rule()
    ensures one { (text : List ℕ) (tokens : List Token) (r s : Refusal) → Breaks text tokens r → Breaks text tokens s → r ≡ s }
    ensures none { (text : List ℕ) (tokens : List Token) (j : Job) (r : Refusal) → IsTree text tokens j → Breaks text tokens r → ⊥ }
{}

/// A text has a tree, or it violates one of the two rules.
pub fn a_text_has_a_verdict()
    ensures { (text : List ℕ) (tokens : List Token) → ((j : Job) × IsTree text tokens j) ⊎ ((r : Refusal) × Breaks text tokens r) }
{}
