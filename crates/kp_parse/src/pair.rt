// Parts that are read one after the other.
ghost use Rattle.std.specs.Prelude.{◌≡◌, [], ◌∷◌, Ok, Err, MatchResult, MatchOption};
ghost use Rattle.kp_parse_grammar.specs.Language.{named as named_value, number as number_value, expr as expr_value};
ghost use Rattle.kp_parse_grammar.specs.inner.Stretch.{TurnsAll, EndsAll};
ghost use Rattle.kp_parse.specs.inner.Stretches.{named_symbols, numbered_symbols, whole_symbols};

use kp_ast::{Expr, Named, Num};
use kp_lex::Mark;
use kp_parse_grammar::{Fault, Tokens, whole_expression};
use std::alloc::Global;

/// A part, and the one read after it. If the latter fails, the part is dropped here, in one place for all readers.
pub(crate) fn with<A: Drop, B: Drop>(
    part: A,
    behind: Result<(B, usize), Fault>,
) -> Result<(A, B, usize), Fault>
    ensures { MatchResult result (λ x. (x.0 ≡ part) × (behind ≡ Ok (x.1, x.2))) (λ e. behind ≡ Err e) }
{
    match behind {
        Ok((next, at)) => Ok((part, next, at)),
        Err(fault) => Err(fault),
    }
}

/// A part that may be absent, where it is present.
pub(crate) fn present<A: Drop>(part: Result<(A, usize), Fault>) -> Result<(Option<A>, usize), Fault>
    ensures { MatchResult result (λ x. MatchOption x.0 ⊥ (λ a. part ≡ Ok (a, x.1))) (λ e. part ≡ Err e) }
{
    match part {
        Ok((part, at)) => Ok((Some(part), at)),
        Err(fault) => Err(fault),
    }
}

/// A name and this punctuator, and the number of the next token.
pub(crate) fn name_before(
    alloc: Global,
    tokens: &Tokens<'_>,
    mark: Mark,
    at: usize,
) -> Result<(Named, usize), Fault>
    ensures { MatchResult result (λ x. TurnsAll tokens.now (named_symbols mark) (named_value x.0 ∷ []) at x.1 1) (EndsAll tokens.now (named_symbols mark) at) }
{
    let (name, next) = tokens.name(alloc, at)?;
    let (_mark, next) = tokens.mark(mark, next)?;
    Ok((name, next))
}

/// A number and this punctuator, and the number of the next token.
pub(crate) fn number_before(
    tokens: &Tokens<'_>,
    mark: Mark,
    at: usize,
) -> Result<(Num, usize), Fault>
    ensures { MatchResult result (λ x. TurnsAll tokens.now (numbered_symbols mark) (number_value x.0 ∷ []) at x.1 1) (EndsAll tokens.now (numbered_symbols mark) at) }
{
    let (number, next) = tokens.number(at)?;
    let (_mark, next) = tokens.mark(mark, next)?;
    Ok((number, next))
}

/// An expression and this punctuator, and the number of the next token.
pub(crate) fn expression_before(
    alloc: Global,
    tokens: &Tokens<'_>,
    mark: Mark,
    at: usize,
) -> Result<(Expr, usize), Fault>
    ensures { MatchResult result (λ x. TurnsAll tokens.now (whole_symbols mark) (expr_value x.0 ∷ []) at x.1 1) (EndsAll tokens.now (whole_symbols mark) at) }
{
    let (inner, next) = whole_expression(alloc, tokens, at)?;
    match tokens.mark(mark, next) {
        Ok((_mark, next)) => Ok((inner, next)),
        Err(fault) => {
            drop(inner);
            Err(fault)
        }
    }
}
