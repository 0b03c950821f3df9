//! The trees of the description language, and what an expression means.
//!
//! `proofs/Parts.antt` has, for each form of expression, its value and its expanded size by those of its parts.
#![tactic(auto)]

mod boxed;
pub mod laws;
mod name;
mod size;
mod tree;
mod widths;

pub use boxed::Boxed;
pub use name::Name;
pub use size::{CAP, body_sizes, expanded_size};
pub use tree::{
    Block, Decl, Expr, ExprKind, FuncDecl, Image, Inputs, Job, Lit, Named, Num, Param, ReadStmt,
    ResultDecl, Stalls, Stmt, StmtKind,
};
pub use widths::{Entry, NameKind, Scope, Widths};
