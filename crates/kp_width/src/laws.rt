//! Properties of the definition of widths. Each function has an empty body: its clauses are laws.
ghost use Rattle.std.specs.Prelude.{◌≡◌, ℕ, List, map, Some, None, true};
ghost use Rattle.kp_base.specs.First.{first};
ghost use Rattle.kp_bits.specs.Word.{Word};
ghost use Rattle.kp_ast.specs.Expressions.{Env, eval, calls_of};
ghost use Rattle.kp_ast.specs.declared.tree.Decl.{Decl};
ghost use Rattle.kp_ast.specs.declared.tree.Expr.{Expr};
ghost use Rattle.kp_ast.specs.declared.tree.Job.{Job};
ghost use Rattle.kp_width.specs.Names.{Sense, Scoped, is_callee, look_up, nothing};
ghost use Rattle.kp_width.specs.Expressions.{width_of, params_of};
ghost use Rattle.kp_width.specs.Declarations.{declarations_of};
ghost use Rattle.kp_width.specs.Soundness.{HasWidth, AreArguments, Suits};
ghost use Rattle.kp_width.specs.TextOrder.{declared_names};
ghost use Rattle.kp_width.specs.Widths.{widths_of, width_answers};

/// There is one entry for every declared name, in text order.
#[tactic(auto, using(crate::proofs::Entries::names_of_entries))]
pub fn one_entry_for_each_name()
    ensures { (job : Job) → map (λ e. e.name) (widths_of job).value ≡ declared_names job }
{}

/// The first violation that is listed is the first one of all checks.
#[tactic(auto, using(crate::proofs::Listed::verdict))]
pub fn the_first_listed_is_the_verdict()
    ensures { (job : Job) → first (width_answers job) ≡ first (widths_of job).asked }
{}

/// An expression that violates no rule evaluates to a word of its width, provided that each name that may occur in it
/// does, and each call with arguments of its parameters' widths.
pub fn an_expression_has_its_width()
    ensures { (ds : List Decl) (done : ℕ) (s : Scoped) (env : Env) (e : Expr) → Suits ds s env
        → first (width_of ds done s e).asked ≡ None → HasWidth (width_of ds done s e).value (eval env e) }
{}

/// If the declarations violate no rule, each call of a function with arguments of its parameters' widths returns a
/// word of the function's width.
pub fn a_call_has_its_width()
    ensures { (ds : List Decl) (name : List ℕ) (m : Sense) (args : List Word)
        → first (declarations_of ds 0 0 nothing ds).asked ≡ None
        → look_up (declarations_of ds 0 0 nothing ds).value.text name ≡ Some m → is_callee m.kind ≡ true
        → AreArguments (params_of ds m.from) args → HasWidth m.width (calls_of ds name args) }
{}
