// The trees of the description language. Each node has the position of a token of the text.
use crate::boxed::Boxed;
use crate::name::Name;
use kp_base::{List, Place};
use kp_bits::{BinOp, Literal};

/// A number as written, and its position.
#[derive(Clone, Copy)]
pub struct Num {
    pub value: u64,
    pub at: Place,
}

/// A literal as written, and its position.
#[derive(Clone, Copy)]
pub struct Lit {
    pub literal: Literal,
    pub at: Place,
}

/// A name, and its position.
#[derive(Drop)]
pub struct Named {
    pub name: Name,
    pub at: Place,
}

/// An expression.
///
/// Its position is that of its outermost operator, name, literal, call name, extension keyword, `?`, opening `[` of a
/// slice or opening `{`.
#[cycle(tree)]
pub struct Expr {
    pub place: Place,
    pub kind: ExprKind,
}

impl Drop for Expr {
    #[cycle(release)]
    fn drop(self) {
        let Expr { place: _, kind } = self;
        drop(kind);
    }
}

/// The kind of an expression.
#[cycle(tree)]
#[derive(Drop)]
pub enum ExprKind {
    Lit(Literal),
    Name(Name),
    /// `~ a`
    Not(Boxed<Expr>),
    /// `a + b`
    Binary(BinOp, Boxed<Expr>, Boxed<Expr>),
    /// `test ? yes : no`, in this order.
    Mux(Boxed<Expr>, Boxed<Expr>, Boxed<Expr>),
    /// `{ a, b }`, with the high bits first.
    Concat(List<Expr>),
    /// `a[hi:lo]`, with `hi` before `lo`.
    Slice(Boxed<Expr>, u64, u64),
    /// `zext(a, width)`
    Zext(Boxed<Expr>, Num),
    /// `sext(a, width)`
    Sext(Boxed<Expr>, Num),
    /// `f(a, b)`
    Call(Name, List<Expr>),
}

/// `read name = target[address] when when;` or `.. guess guess;`
#[derive(Drop)]
pub struct ReadStmt {
    pub name: Named,
    pub target: Named,
    pub address: Option<Expr>,
    pub when: Option<Expr>,
    pub guess: Option<Expr>,
}

/// What a statement does.
#[derive(Drop)]
pub enum StmtKind {
    Read(ReadStmt),
    /// `let name = value;`
    Let(Named, Expr),
    /// `put pipe = value;`
    Put(Named, Expr),
    /// `set result = value when condition;`
    Set(Named, Expr, Option<Expr>),
    /// `aim hint = value;`
    Aim(Named, Expr),
}

/// A statement, and the position of its first token.
#[derive(Drop)]
pub struct Stmt {
    pub at: Place,
    pub kind: StmtKind,
}

/// `stage number { .. }`
#[derive(Drop)]
pub struct Block {
    pub number: Num,
    pub stmts: List<Stmt>,
}

/// A parameter of a function.
#[derive(Drop)]
pub struct Param {
    pub name: Named,
    pub width: Num,
}

/// `result name : width -> target[address] when enable at stage;`
#[derive(Drop)]
pub struct ResultDecl {
    pub name: Named,
    pub width: Num,
    pub target: Named,
    pub address: Option<Named>,
    pub enable: Option<Named>,
    pub stage: Num,
}

/// `fn name(params) : width = body;`
#[derive(Drop)]
pub struct FuncDecl {
    pub name: Named,
    pub params: List<Param>,
    pub width: Num,
    pub body: Expr,
}

/// A declaration.
#[derive(Drop)]
pub enum Decl {
    /// `reg name : width = start;`
    Reg(Named, Num, Lit),
    /// `file name : width [address width];`
    File(Named, Num, Num),
    /// `pipe name : width;`
    Pipe(Named, Num),
    /// `hint name : width = start;`
    Hint(Named, Num, Lit),
    Target(ResultDecl),
    Func(FuncDecl),
    /// `sample name : width at stage;`
    Sample(Named, Num, Num),
}

/// An entry of the image section: `name[address] = value, value;`
#[derive(Drop)]
pub struct Image {
    pub name: Named,
    pub address: Option<Num>,
    pub values: List<Lit>,
}

/// An entry of the stalls section: `stage from a to b step p;`
#[derive(Drop)]
pub struct Stalls {
    pub stage: Num,
    pub from: Num,
    pub to: Num,
    pub step: Option<Num>,
}

/// An entry of the inputs section: `name = value from a to b step p;`
#[derive(Drop)]
pub struct Inputs {
    pub name: Named,
    pub value: Lit,
    pub from: Num,
    pub to: Num,
    pub step: Option<Num>,
}

/// A complete job. A section that is present but has no entries is an empty list.
pub struct Job {
    pub name: Named,
    pub stages: Num,
    pub decls: List<Decl>,
    pub blocks: List<Block>,
    pub image: Option<List<Image>>,
    pub stalls: Option<List<Stalls>>,
    pub inputs: Option<List<Inputs>>,
}

impl Drop for Job {
    fn drop(self) {
        let Job {
            name,
            stages: _,
            decls,
            blocks,
            image,
            stalls,
            inputs,
        } = self;
        drop(name);
        drop(decls);
        drop(blocks);
        drop(image);
        drop(stalls);
        drop(inputs);
    }
}

impl Decl {
    ghost use Rattle.std.specs.Prelude.{◌≡◌};
    ghost use Rattle.kp_ast.specs.Expressions.{is_function};

    /// Whether this is the declaration of a function with this name.
    pub fn is_function(&self, name: &Name) -> bool
        ensures { result ≡ is_function name.now self.now }
    {
        match self {
            Decl::Func(f) => f.name.name == *name,
            _ => false,
        }
    }
}
