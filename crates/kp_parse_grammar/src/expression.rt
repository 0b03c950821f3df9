// Expressions. The reader of a part takes the nesting count and the number of the part's first token; it returns the
// part, the count after it, and the number of the next token.
ghost use Rattle.std.specs.Prelude.{◌≡◌, ◌==◌, ◌≤◌, ◌<◌, ◌+◌, [], ◌∷◌, MatchOption, MatchResult, IfOk, None, true};
ghost use Rattle.kp_grammar.specs.Grammar.{Nonterminal};
ghost use Rattle.kp_ast.specs.declared.tree.ExprKind.TheViews as expressions;
ghost use Rattle.kp_lex.specs.declared.token.Mark.TheVariants as marks;
ghost use Rattle.kp_parse_grammar.specs.declared.fault.Fault.TheVariants as faults;
ghost use Rattle.kp_parse_grammar.specs.Tokens.{mark_class, IDENTIFIER, LITERAL};
ghost use Rattle.kp_parse_grammar.specs.inner.Operators.{operators_of, operator_at, HasOperator};
ghost use Rattle.kp_parse_grammar.specs.inner.Extension.{ExtendsAt, extension_of};
ghost use Rattle.kp_parse_grammar.specs.inner.Stretch.{ReadsAll, FailsAll, FailsCount, ReadsOut, FailsOut, bound_symbols, width_symbols};
ghost use Rattle.kp_parse_grammar.specs.Language.{concat_of, place as place_value, expr as expr_value, number as number_value, EXPR, CHAIN, OPERAND, UNARY, POST, PRIM, LOW, WHOLE};
ghost use Rattle.kp_parse_grammar.specs.Reading.{class_at, Finds, Reads, Fails, Lists, FailsList, Turns, Ends};

use crate::fault::Fault;
use crate::level::Level;
use crate::tokens::Tokens;
use kp_ast::{Boxed, Expr, ExprKind, Num};
use kp_base::{List, NoMemory, Place};
use kp_bits::BinOp;
use kp_lex::{Keyword, Mark, TokenKind};
use std::alloc::Global;

// The greatest nesting count of an expression.
const LIMIT: u32 = 64;

/// An expression that is not part of another one, and the number of the next token. Fails at the first token that
/// can't occur there, or that exceeds the nesting count of 64, whichever comes first.
pub fn whole_expression(
    alloc: Global,
    tokens: &Tokens<'_>,
    at: usize,
) -> Result<(Expr, usize), Fault>
    ensures { MatchResult result (λ x. Turns tokens.now (Nonterminal WHOLE) [] (expr_value x.0 ∷ []) at x.1 1) (Ends tokens.now (Nonterminal WHOLE) [] at) }
{
    let (expr, _count, next) = expression(alloc, tokens, 0, at)?;
    Ok((expr, next))
}

// The count after a token that increments it.
fn counted(count: u32, at: usize) -> Result<u32, Fault>
    requires { count ≤ 64 }
    ensures { MatchResult result (λ n. (count < 64) × (n ≡ count + 1)) (λ e. (e ≡ faults.TooDeep at) × (count ≡ 64)) }
{
    if count == LIMIT {
        return Err(Fault::TooDeep(at));
    }
    Ok(count + 1)
}

// The position of a token that increments the count, the count after it, and the number of the next token.
fn opened(
    tokens: &Tokens<'_>,
    mark: Mark,
    count: u32,
    at: usize,
) -> Result<(Place, u32, usize), Fault>
    requires { count ≤ 64 }
    ensures { MatchResult result (λ x. Finds tokens.now (mark_class mark) x.0 at x.2 × ((count < 64) × (x.1 ≡ count + 1))) (FailsCount tokens.now (mark_class mark) count at) }
{
    let (place, next) = tokens.mark(mark, at)?;
    let deeper = counted(count, at)?;
    Ok((place, deeper, next))
}

#[cycle(expression)]
fn expression(
    alloc: Global,
    tokens: &Tokens<'_>,
    count: u32,
    at: usize,
) -> Result<(Expr, u32, usize), Fault>
    requires { count ≤ 64 }
    ensures { MatchResult result (λ x. Reads tokens.now EXPR count (expr_value x.0 ∷ []) x.1 at x.2) (Fails tokens.now EXPR count at) }
{
    let (test, count, at) = chain(alloc, tokens, Level::Or, count, at)?;
    let Some((place, next)) = tokens.next_mark(Mark::Question, at) else {
        return Ok((test, count, at));
    };
    let deeper = counted(count, at)?;
    let (yes, count, behind) = expression(alloc, tokens, deeper, next)?;
    let (_colon, next) = tokens.mark(Mark::Colon, behind)?;
    let (no, count, next) = expression(alloc, tokens, count, next)?;
    let made = choice(alloc, place, test, yes, no)?;
    Ok((made, count, next))
}

fn choice(alloc: Global, place: Place, test: Expr, yes: Expr, no: Expr) -> Result<Expr, NoMemory>
    ensures { IfOk result (λ e. e ≡ record { place = place; kind = expressions.Mux test yes no }) }
{
    let test = Boxed::new(alloc, test)?;
    let yes = Boxed::new(alloc, yes)?;
    let no = Boxed::new(alloc, no)?;
    let kind = ExprKind::Mux(test, yes, no);
    Ok(Expr { place, kind })
}

fn binary(alloc: Global, place: Place, op: BinOp, left: Expr, right: Expr) -> Result<Expr, NoMemory>
    ensures { IfOk result (λ e. e ≡ record { place = place; kind = expressions.Binary op left right }) }
{
    let left = Boxed::new(alloc, left)?;
    let right = Boxed::new(alloc, right)?;
    let kind = ExprKind::Binary(op, left, right);
    Ok(Expr { place, kind })
}

fn negation(alloc: Global, place: Place, inner: Expr) -> Result<Expr, NoMemory>
    ensures { IfOk result (λ e. e ≡ record { place = place; kind = expressions.Not inner }) }
{
    let kind = ExprKind::Not(Boxed::new(alloc, inner)?);
    Ok(Expr { place, kind })
}

fn slice(alloc: Global, place: Place, inner: Expr, hi: u64, lo: u64) -> Result<Expr, NoMemory>
    ensures { IfOk result (λ e. e ≡ record { place = place; kind = expressions.Slice inner hi lo }) }
{
    let kind = ExprKind::Slice(Boxed::new(alloc, inner)?, hi, lo);
    Ok(Expr { place, kind })
}

// An operand that is extended to a width, with zeros or by its sign.
fn extended(
    alloc: Global,
    place: Place,
    keyword: Keyword,
    inner: Expr,
    width: Num,
) -> Result<Expr, NoMemory>
    ensures { IfOk result (λ e. e ≡ record { place = place; kind = extension_of keyword inner width }) }
{
    let inner = Boxed::new(alloc, inner)?;
    let kind = match keyword {
        Keyword::Zext => ExprKind::Zext(inner, width),
        _ => ExprKind::Sext(inner, width),
    };
    Ok(Expr { place, kind })
}

// The operator of the level at this token, if there is one, its position, and the number of the next token.
fn operator(tokens: &Tokens<'_>, level: Level, at: usize) -> Option<(BinOp, Place, usize)>
    ensures { MatchOption result (operator_at (class_at tokens.now at) (operators_of level) ≡ None) (λ x. HasOperator tokens.now level x.0 x.1 at x.2) }
{
    let operators = level.operators();
    for operator in operators {
        if let Some((place, next)) = tokens.next_mark(operator.0, at) {
            return Some((operator.1, place, next));
        }
    }
    None
}

// Operands of a level with its operators between them, which associate to the left.
#[cycle(expression)]
fn chain(
    alloc: Global,
    tokens: &Tokens<'_>,
    level: Level,
    count: u32,
    at: usize,
) -> Result<(Expr, u32, usize), Fault>
    requires { count ≤ 64 }
    ensures { MatchResult result (λ x. Reads tokens.now (CHAIN level) count (expr_value x.0 ∷ []) x.1 at x.2) (Fails tokens.now (CHAIN level) count at) }
{
    let (mut left, mut count, mut here) = operand(alloc, tokens, level, count, at)?;
    'operators: loop {
        let Some((op, place, next)) = operator(tokens, level, here) else {
            return Ok((left, count, here));
        };
        let deeper = counted(count, here)?;
        let (right, more, behind) = operand(alloc, tokens, level, deeper, next)?;
        let both = binary(alloc, place, op, left, right)?;
        left = both;
        count = more;
        here = behind;
        match level {
            Level::Compare => return Ok((left, count, here)),
            _ => {}
        }
    }
}

// An operand of a level: operators of the next level with their operands.
#[cycle(expression)]
fn operand(
    alloc: Global,
    tokens: &Tokens<'_>,
    level: Level,
    count: u32,
    at: usize,
) -> Result<(Expr, u32, usize), Fault>
    requires { count ≤ 64 }
    ensures { MatchResult result (λ x. Reads tokens.now (OPERAND level) count (expr_value x.0 ∷ []) x.1 at x.2) (Fails tokens.now (OPERAND level) count at) }
{
    match level {
        Level::Or => chain(alloc, tokens, Level::Xor, count, at),
        Level::Xor => chain(alloc, tokens, Level::And, count, at),
        Level::And => chain(alloc, tokens, Level::Compare, count, at),
        Level::Compare => chain(alloc, tokens, Level::Shift, count, at),
        Level::Shift => chain(alloc, tokens, Level::Sum, count, at),
        Level::Sum => chain(alloc, tokens, Level::Product, count, at),
        Level::Product => unary(alloc, tokens, count, at),
    }
}

#[cycle(expression)]
fn unary(
    alloc: Global,
    tokens: &Tokens<'_>,
    count: u32,
    at: usize,
) -> Result<(Expr, u32, usize), Fault>
    requires { count ≤ 64 }
    ensures { MatchResult result (λ x. Reads tokens.now UNARY count (expr_value x.0 ∷ []) x.1 at x.2) (Fails tokens.now UNARY count at) }
{
    let Some((place, next)) = tokens.next_mark(Mark::Tilde, at) else {
        return post(alloc, tokens, count, at);
    };
    let deeper = counted(count, at)?;
    let (inner, count, behind) = unary(alloc, tokens, deeper, next)?;
    let made = negation(alloc, place, inner)?;
    Ok((made, count, behind))
}

// An operand with its slices.
#[cycle(expression)]
fn post(
    alloc: Global,
    tokens: &Tokens<'_>,
    count: u32,
    at: usize,
) -> Result<(Expr, u32, usize), Fault>
    requires { count ≤ 64 }
    ensures { MatchResult result (λ x. Reads tokens.now POST count (expr_value x.0 ∷ []) x.1 at x.2) (Fails tokens.now POST count at) }
{
    let (mut inner, mut count, mut here) = prim(alloc, tokens, count, at)?;
    'slices: while tokens.is_mark(Mark::OpenBracket, here) {
        let (place, hi, lo, deeper, next) = bounds(tokens, count, here)?;
        let sliced = slice(alloc, place, inner, hi.value, lo.value)?;
        inner = sliced;
        count = deeper;
        here = next;
    }
    Ok((inner, count, here))
}

// `[hi:lo]`, with the position of the opening bracket and the count after it.
fn bounds(
    tokens: &Tokens<'_>,
    count: u32,
    at: usize,
) -> Result<(Place, Num, Num, u32, usize), Fault>
    requires { count ≤ 64 }
    ensures bounds { MatchResult result (λ x. ReadsAll tokens.now bound_symbols count (number_value x.2 ∷ number_value x.1 ∷ place_value x.0 ∷ []) x.3 at x.4) (FailsAll tokens.now bound_symbols count at) }
    ensures deeper { IfOk result (λ x. x.3 ≡ count + 1) }
{
    let (place, deeper, next) = opened(tokens, Mark::OpenBracket, count, at)?;
    let (hi, next) = tokens.number(next)?;
    let (lo, next) = low_of(tokens, hi, next)?;
    let (_close, next) = tokens.mark(Mark::CloseBracket, next)?;
    Ok((place, hi, lo, deeper, next))
}

// The lower end of a slice; it is the upper one if omitted.
fn low_of(tokens: &Tokens<'_>, hi: Num, at: usize) -> Result<(Num, usize), Fault>
    ensures { MatchResult result (λ x. Turns tokens.now (Nonterminal LOW) (number_value hi ∷ []) (number_value x.0 ∷ number_value hi ∷ []) at x.1 0) (Ends tokens.now (Nonterminal LOW) (number_value hi ∷ []) at) }
{
    match tokens.next_mark(Mark::Colon, at) {
        Some((_colon, next)) => tokens.number(next),
        None => Ok((hi, at)),
    }
}

#[cycle(expression)]
fn prim(
    alloc: Global,
    tokens: &Tokens<'_>,
    count: u32,
    at: usize,
) -> Result<(Expr, u32, usize), Fault>
    requires { count ≤ 64 }
    ensures { MatchResult result (λ x. Reads tokens.now PRIM count (expr_value x.0 ∷ []) x.1 at x.2) (Fails tokens.now PRIM count at) }
{
    match tokens.kind(at) {
        Some(TokenKind::Literal(_)) => literal(tokens, count, at),
        Some(TokenKind::Ident) => named(alloc, tokens, count, at),
        Some(TokenKind::Mark(Mark::OpenParenthesis)) => bracket(alloc, tokens, count, at),
        Some(TokenKind::Mark(Mark::OpenBrace)) => concatenation(alloc, tokens, count, at),
        Some(TokenKind::Keyword(Keyword::Zext)) => {
            extension(alloc, tokens, Keyword::Zext, count, at)
        }
        _ => extension(alloc, tokens, Keyword::Sext, count, at),
    }
}

fn literal(tokens: &Tokens<'_>, count: u32, at: usize) -> Result<(Expr, u32, usize), Fault>
    requires limit { count ≤ 64 }
    requires first { true ≡ (class_at tokens.now at == LITERAL) }
    ensures { MatchResult result (λ x. Reads tokens.now PRIM count (expr_value x.0 ∷ []) x.1 at x.2) (Fails tokens.now PRIM count at) }
{
    let (lit, next) = tokens.literal(at)?;
    let place = lit.at;
    let kind = ExprKind::Lit(lit.literal);
    Ok((Expr { place, kind }, count, next))
}

// `(a)`
#[cycle(expression)]
fn bracket(
    alloc: Global,
    tokens: &Tokens<'_>,
    count: u32,
    at: usize,
) -> Result<(Expr, u32, usize), Fault>
    requires limit { count ≤ 64 }
    requires first { true ≡ (class_at tokens.now at == mark_class marks.OpenParenthesis) }
    ensures { MatchResult result (λ x. Reads tokens.now PRIM count (expr_value x.0 ∷ []) x.1 at x.2) (Fails tokens.now PRIM count at) }
{
    let (_open, deeper, next) = opened(tokens, Mark::OpenParenthesis, count, at)?;
    let (inner, _count, next) = expression(alloc, tokens, deeper, next)?;
    let (_close, next) = tokens.mark(Mark::CloseParenthesis, next)?;
    Ok((inner, count, next))
}

// A name, or a call.
#[cycle(expression)]
fn named(
    alloc: Global,
    tokens: &Tokens<'_>,
    count: u32,
    at: usize,
) -> Result<(Expr, u32, usize), Fault>
    requires limit { count ≤ 64 }
    requires first { true ≡ (class_at tokens.now at == IDENTIFIER) }
    ensures { MatchResult result (λ x. Reads tokens.now PRIM count (expr_value x.0 ∷ []) x.1 at x.2) (Fails tokens.now PRIM count at) }
{
    let (named, behind) = tokens.name(alloc, at)?;
    let place = named.at;
    let Some((_open, next)) = tokens.next_mark(Mark::OpenParenthesis, behind) else {
        let kind = ExprKind::Name(named.name);
        return Ok((Expr { place, kind }, count, behind));
    };
    let deeper = counted(count, behind)?;
    let (args, next) = expressions(alloc, tokens, Mark::CloseParenthesis, deeper, next)?;
    let kind = ExprKind::Call(named.name, List::new(args));
    Ok((Expr { place, kind }, count, next))
}

#[cycle(expression)]
fn concatenation(
    alloc: Global,
    tokens: &Tokens<'_>,
    count: u32,
    at: usize,
) -> Result<(Expr, u32, usize), Fault>
    requires limit { count ≤ 64 }
    requires first { true ≡ (class_at tokens.now at == mark_class marks.OpenBrace) }
    ensures { MatchResult result (λ x. Reads tokens.now PRIM count (expr_value x.0 ∷ []) x.1 at x.2) (Fails tokens.now PRIM count at) }
{
    let (place, deeper, next) = opened(tokens, Mark::OpenBrace, count, at)?;
    let (parts, next) = expressions(alloc, tokens, Mark::CloseBrace, deeper, next)?;
    Ok((joined(place, parts), count, next))
}

// A concatenation of these parts; one part alone is that part.
fn joined(place: Place, mut parts: Vec<Expr>) -> Expr
    ensures { result ≡ concat_of place parts.items }
{
    if parts.as_slice().len() != 1 {
        let kind = ExprKind::Concat(List::new(parts));
        return Expr { place, kind };
    }
    match parts.pop() {
        Some(only) => only,
        None => {
            let kind = ExprKind::Concat(List::new(parts));
            Expr { place, kind }
        }
    }
}

// Expressions in a bracket, with commas between them, and the punctuator that closes it; `count` is the count after the
// opening bracket.
#[cycle(expression)]
fn expressions(
    alloc: Global,
    tokens: &Tokens<'_>,
    close: Mark,
    count: u32,
    at: usize,
) -> Result<(Vec<Expr>, usize), Fault>
    requires { count ≤ 64 }
    ensures { MatchResult result (λ x. Lists tokens.now (mark_class close) x.0.items count at x.1) (FailsList tokens.now (mark_class close) count at) }
{
    let (first, _count, behind) = expression(alloc, tokens, count, at)?;
    let mut all = Vec::new(alloc);
    all.push(first)?;
    let mut here = behind;
    'parts: while let Some((_comma, next)) = tokens.next_mark(Mark::Comma, here) {
        let (one, _count, behind) = expression(alloc, tokens, count, next)?;
        all.push(one)?;
        here = behind;
    }
    let (_close, next) = tokens.mark(close, here)?;
    Ok((all, next))
}

// `zext(a, width)` or `sext(a, width)`
#[cycle(expression)]
fn extension(
    alloc: Global,
    tokens: &Tokens<'_>,
    keyword: Keyword,
    count: u32,
    at: usize,
) -> Result<(Expr, u32, usize), Fault>
    requires limit { count ≤ 64 }
    requires first { ExtendsAt (class_at tokens.now at) keyword }
    ensures { MatchResult result (λ x. Reads tokens.now PRIM count (expr_value x.0 ∷ []) x.1 at x.2) (Fails tokens.now PRIM count at) }
{
    let (place, next) = tokens.keyword(keyword, at)?;
    let (_open, deeper, next) = opened(tokens, Mark::OpenParenthesis, count, next)?;
    let (inner, _count, next) = expression(alloc, tokens, deeper, next)?;
    let (width, next) = width(tokens, next)?;
    let made = extended(alloc, place, keyword, inner, width)?;
    Ok((made, count, next))
}

// `, width)`
fn width(tokens: &Tokens<'_>, at: usize) -> Result<(Num, usize), Fault>
    ensures { MatchResult result (λ x. ReadsOut tokens.now width_symbols (number_value x.0 ∷ []) at x.1) (FailsOut tokens.now width_symbols at) }
{
    let (_comma, next) = tokens.mark(Mark::Comma, at)?;
    let (width, next) = tokens.number(next)?;
    let (_close, next) = tokens.mark(Mark::CloseParenthesis, next)?;
    Ok((width, next))
}
