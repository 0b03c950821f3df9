// Syntax trees at the start of a text.
ghost use Rattle.std.specs.Prelude.{◌≡◌, ◌++◌, ◌∷◌, [], IfOk, IsTrue, OnOk};
ghost use Rattle.kp_base.specs.Characters.{is_word};
ghost use Rattle.kp_gen.specs.Generated.{named, num, lit, numbered, name, number, binary, low_byte, stmt, target, read_from, block};
ghost use Rattle.kp_gen.specs.inner.Spelling.{is_spelled};

use itoa::Buffer;
use kp_ast::{
    Block, Boxed, Decl, Expr, ExprKind, Lit, Name, Named, Num, ReadStmt, ResultDecl, Stmt, StmtKind,
};
use kp_base::{List, NoMemory, Place};
use kp_bits::{BinOp, Literal};
use std::alloc::Global;

pub(crate) fn num(value: u64) -> Num
    ensures { result ≡ num value }
{
    Num {
        value,
        at: Place::START,
    }
}

pub(crate) fn lit(width: u64, value: u64) -> Lit
    ensures { result ≡ lit width value }
{
    Lit {
        literal: Literal { width, value },
        at: Place::START,
    }
}

pub(crate) fn named(name: Name) -> Named
    ensures { result ≡ named name }
{
    Named {
        name,
        at: Place::START,
    }
}

// The name of a letter and a number.
#[tactic(auto, using(crate::proofs::Spelled::numbered_is_name))]
pub(crate) fn numbered(alloc: Global, letter: u8, i: u64) -> Result<Name, NoMemory>
    requires { IsTrue (is_word letter) }
    ensures { IfOk result (λ n. n ≡ numbered letter i) }
{
    let mut digits = Buffer::new();
    let mut bytes = Vec::new(alloc);
    bytes.push(letter)?;
    bytes.extend_from_slice(digits.format(i).as_bytes())?;
    Name::new(alloc, bytes.as_slice())
}

// A name that is given as bytes.
#[tactic(auto, using(crate::proofs::Spelled::spelled_is_name))]
pub(crate) fn spelled(alloc: Global, bytes: &[u8]) -> Result<Name, NoMemory>
    requires { IsTrue (is_spelled bytes.now) }
    ensures { IfOk result (λ n. n ≡ bytes.now) }
{
    Name::new(alloc, bytes)
}

pub(crate) fn value(n: Name) -> Expr
    ensures { result ≡ name n }
{
    Expr {
        place: Place::START,
        kind: ExprKind::Name(n),
    }
}

pub(crate) fn number(width: u64, value: u64) -> Expr
    ensures { result ≡ number width value }
{
    Expr {
        place: Place::START,
        kind: ExprKind::Lit(Literal { width, value }),
    }
}

pub(crate) fn binary(alloc: Global, op: BinOp, a: Expr, b: Expr) -> Result<Expr, NoMemory>
    ensures { IfOk result (λ e. e ≡ binary op a b) }
{
    match Boxed::new(alloc, a) {
        Ok(a) => match Boxed::new(alloc, b) {
            Ok(b) => Ok(Expr {
                place: Place::START,
                kind: ExprKind::Binary(op, a, b),
            }),
            Err(error) => {
                drop(a);
                Err(error)
            }
        },
        Err(error) => {
            drop(b);
            Err(error)
        }
    }
}

pub(crate) fn low_byte(alloc: Global, n: Name) -> Result<Expr, NoMemory>
    ensures { IfOk result (λ e. e ≡ low_byte n) }
{
    let whole = Boxed::new(alloc, value(n))?;
    Ok(Expr {
        place: Place::START,
        kind: ExprKind::Slice(whole, 7, 0),
    })
}

pub(crate) fn target(n: Name, to: Name, address: Option<Named>, stage: u64) -> Decl
    ensures { result ≡ target n to address stage }
{
    Decl::Target(ResultDecl {
        name: named(n),
        width: num(16),
        target: named(to),
        address,
        enable: None,
        stage: num(stage),
    })
}

pub(crate) fn stmt(kind: StmtKind) -> Stmt
    ensures { result ≡ stmt kind }
{
    Stmt {
        at: Place::START,
        kind,
    }
}

pub(crate) fn read_from(n: Name, from: Name, address: Option<Expr>) -> Stmt
    ensures { result ≡ read_from n from address }
{
    stmt(StmtKind::Read(ReadStmt {
        name: named(n),
        target: named(from),
        address,
        when: None,
        guess: None,
    }))
}

pub(crate) fn block(number: u64, stmts: Vec<Stmt>) -> Block
    ensures { result ≡ block number stmts.items }
{
    Block {
        number: num(number),
        stmts: List::new(stmts),
    }
}

// Adds an item that has been made, in one place for all lists.
pub(crate) fn add<T: Drop>(all: &mut Vec<T>, item: Result<T, NoMemory>) -> Result<(), NoMemory>
    ensures { (x : T) → IfOk item (λ y. y ≡ x) → OnOk result (all.new.items ≡ all.old.items ++ x ∷ []) }
{
    match item {
        Ok(item) => {
            all.push(item)?;
            Ok(())
        }
        Err(error) => Err(error),
    }
}
