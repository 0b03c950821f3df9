// Expressions that are written alike.
ghost use Rattle.std.specs.Prelude.{◌≡◌};
ghost use Rattle.kp_lint.specs.Alike.{alike};

use kp_ast::{Expr, ExprKind};

/// Whether two expressions are written alike. Choices, extensions, concatenations and calls aren't compared.
#[cycle(same)]
pub(crate) fn is_alike(a: &Expr, b: &Expr) -> bool
    ensures { result ≡ alike a.now b.now }
{
    match (&a.kind, &b.kind) {
        (ExprKind::Lit(l), ExprKind::Lit(m)) => l.width == m.width && l.value == m.value,
        (ExprKind::Name(p), ExprKind::Name(q)) => *p == *q,
        (ExprKind::Not(a), ExprKind::Not(b)) => is_alike(a.get(), b.get()),
        (ExprKind::Slice(a, hi, lo), ExprKind::Slice(b, high, low)) => {
            *hi == *high && *lo == *low && is_alike(a.get(), b.get())
        }
        (ExprKind::Binary(f, a, c), ExprKind::Binary(g, b, d)) => {
            f.symbol() == g.symbol() && is_alike(a.get(), b.get()) && is_alike(c.get(), d.get())
        }
        _ => false,
    }
}
