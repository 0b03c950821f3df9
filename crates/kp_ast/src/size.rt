//! The expanded size of expressions, up to a limit, computed without expanding anything.
ghost use Rattle.std.specs.Prelude.{◌≡◌, ◌+◌, ◌≤◌, min, IfOk};
ghost use Rattle.kp_ast.specs.Expressions.{is_function};
ghost use Rattle.kp_ast.specs.inner.Sizes.{sizes_with};
ghost use Rattle.kp_ast.specs.Size.{size, body_size_of, bodies_of, capped_bodies};

use crate::name::Name;
use crate::tree::{Decl, Expr, ExprKind};
use kp_base::NoMemory;
use std::alloc::Global;

/// The size at which counting ends.
pub const CAP: u32 = 100_001;

/// For each declaration the expanded size of the function's body, up to `CAP`, or 0 if it declares no function. Error: out of memory.
pub fn body_sizes(alloc: Global, decls: &[Decl]) -> Result<Vec<u32>, NoMemory>
    ensures { IfOk result (λ sizes. sizes.items ≡ capped_bodies decls.now) }
{
    let mut sizes = Vec::new(alloc);
    for (i, decl) in decls.iter().enumerate() {
        let size = declared_size(&decls[..i], sizes.as_slice(), decl);
        sizes.push(size)?;
    }
    Ok(sizes)
}

// The size of the body in one declaration, up to `CAP`, given the sizes of those before it.
fn declared_size(known: &[Decl], bodies: &[u32], decl: &Decl) -> u32
    requires { bodies.now ≡ capped_bodies known.now }
    ensures { result ≡ min (body_size_of (bodies_of known.now) decl.now) 100001 }
{
    match decl {
        Decl::Func(f) => expanded_size(known, bodies, &f.body),
        _ => 0,
    }
}

/// The expanded size of an expression after these declarations, up to `CAP`. The sizes of their bodies are those that
/// `body_sizes` returns.
#[cycle(size)]
pub fn expanded_size(decls: &[Decl], bodies: &[u32], e: &Expr) -> u32
    requires { bodies.now ≡ capped_bodies decls.now }
    ensures { result ≡ min (size decls.now e.now) 100001 }
{
    match &e.kind {
        ExprKind::Lit(_) | ExprKind::Name(_) => 1,
        ExprKind::Not(a) | ExprKind::Slice(a, _, _) | ExprKind::Zext(a, _) | ExprKind::Sext(a, _) =>
            { capped(1, expanded_size(decls, bodies, a.get())) }
        ExprKind::Binary(_, a, b) => {
            let a = expanded_size(decls, bodies, a.get());
            let b = expanded_size(decls, bodies, b.get());
            capped(1, capped(a, b))
        }
        ExprKind::Mux(test, a, b) => {
            let test = expanded_size(decls, bodies, test.get());
            let a = expanded_size(decls, bodies, a.get());
            let b = expanded_size(decls, bodies, b.get());
            capped(1, capped(test, capped(a, b)))
        }
        ExprKind::Concat(parts) => capped(1, expanded_sizes(decls, bodies, parts.as_slice())),
        ExprKind::Call(name, args) => {
            let args = expanded_sizes(decls, bodies, args.as_slice());
            capped(1, capped(body_size(decls, bodies, name), args))
        }
    }
}

#[cycle(size)]
fn expanded_sizes(decls: &[Decl], bodies: &[u32], es: &[Expr]) -> u32
    requires { bodies.now ≡ capped_bodies decls.now }
    ensures { result ≡ min (sizes_with (bodies_of decls.now) es.now) 100001 }
{
    let mut total = 0;
    for e in es {
        total = capped(total, expanded_size(decls, bodies, e));
    }
    total
}

// The size of the body of the last function with this name, up to `CAP`.
fn body_size(decls: &[Decl], bodies: &[u32], name: &Name) -> u32
    requires { bodies.now ≡ capped_bodies decls.now }
    ensures { result ≡ min (bodies_of decls.now name.now) 100001 }
{
    let mut size = 0;
    for (i, decl) in decls.iter().enumerate() {
        if decl.is_function(name) {
            size = bodies[i];
        }
    }
    size
}

// The sum, up to `CAP`.
fn capped(a: u32, b: u32) -> u32
    requires a_in { a ≤ 100001 }
    requires b_in { b ≤ 100001 }
    ensures { result ≡ min (a + b) 100001 }
{
    (a + b).min(CAP)
}
