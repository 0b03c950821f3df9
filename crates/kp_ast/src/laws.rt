//! Properties of the meaning of expressions. Each function has an empty body: its clauses are laws.
ghost use Rattle.std.specs.Prelude.{◌≡◌, ◌⊎◌, ◌+◌, ℕ, List, [], ◌∷◌, ◌++◌, map, sum, Contains};
ghost use Rattle.kp_base.specs.declared.place.Place.{Place};
ghost use Rattle.kp_ast.specs.declared.tree.Decl.{Decl};
ghost use Rattle.kp_ast.specs.declared.tree.Decl.TheVariants as decls;
ghost use Rattle.kp_ast.specs.declared.tree.FuncDecl.{FuncDecl};
ghost use Rattle.kp_ast.specs.declared.tree.Expr.{Expr};
ghost use Rattle.kp_ast.specs.declared.tree.ExprKind.TheViews as kind;
ghost use Rattle.kp_ast.specs.Expressions.{Env, Values, eval, env_of, arguments_of, names_in, IsSameAt};
ghost use Rattle.kp_ast.specs.Size.{size, bodies_of};

/// The size of a call is 1 plus the sizes of its arguments and the size of the function's body.
pub fn size_of_call()
    ensures { (ds : List Decl) (place : Place) (name : List ℕ) (args : List Expr)
        → size ds (record { place = place; kind = kind.Call name args }) ≡ 1 + (bodies_of ds name + sum (map (size ds) args)) }
{}

/// The value of a concatenation of one part is that of the part.
pub fn one_part()
    ensures { (env : Env) (place : Place) (part : Expr)
        → eval env (record { place = place; kind = kind.Concat (part ∷ []) }) ≡ eval env part }
{}

/// The value of a choice is that of one of its branches.
pub fn choice_is_a_branch()
    ensures yes { (env : Env) (place : Place) (test a b : Expr) → (eval env test).value ≡ 1
        → eval env (record { place = place; kind = kind.Mux test a b }) ≡ eval env a }
    ensures either { (env : Env) (place : Place) (test a b : Expr)
        → (eval env (record { place = place; kind = kind.Mux test a b }) ≡ eval env a)
        ⊎ (eval env (record { place = place; kind = kind.Mux test a b }) ≡ eval env b) }
{}

/// The value of an expression depends only on the names that occur in it.
pub fn depends_on_its_names()
    ensures { (a b : Env) (e : Expr) → ((name : List ℕ) → Contains (names_in e) name → IsSameAt a b name) → eval a e ≡ eval b e }
{}

/// The value of a call of the function that is declared last is that of its body, where each parameter has the value
/// of the corresponding argument, and the functions before it are known.
pub fn call_is_its_body()
    ensures value { (ds : List Decl) (f : FuncDecl) (values : Values) (place : Place) (args : List Expr)
        → let env = env_of (ds ++ decls.Func f ∷ []) values in
        eval env (record { place = place; kind = kind.Call f.name.name args })
        ≡ eval (env_of ds (arguments_of f.params (map (eval env) args))) f.body }
    ensures size { (ds : List Decl) (f : FuncDecl) → bodies_of (ds ++ decls.Func f ∷ []) f.name.name ≡ size ds f.body }
{}
