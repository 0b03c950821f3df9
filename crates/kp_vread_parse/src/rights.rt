// The right sides of assignments.
ghost use Rattle.std.specs.Prelude.{◌≡◌, ◌==◌, ◌&&◌, nat_lt, [], ◌∷◌, MatchResult, true};
ghost use Rattle.kp_grammar.specs.{Grammar.Nonterminal, Tables.among};
ghost use Rattle.kp_vlog.specs.declared.token.Mark.TheVariants as marks;
ghost use Rattle.kp_vlog.specs.Language.{mark_class, LITERAL, NUMBER, RIGHT, BEHIND, INDEX, NAMES, named, names as names_value, right as right_value};
ghost use Rattle.kp_vlog.specs.Words.{operator_mark};
ghost use Rattle.kp_vread_parse.specs.inner.Words.{TWO_NAMES};
ghost use Rattle.kp_vread_parse.specs.inner.Reading.{class_at, Turns, Ends};

use crate::fault::Fault;
use crate::tokens::{Fixed, Tokens};
use kp_base::List;
use kp_bits::BinOp;
use kp_vlog::{Mark, Named, Right};
use std::alloc::Global;

/// A right side.
pub(crate) fn right(alloc: Global, tokens: &Tokens<'_>, at: usize) -> Result<(Right, usize), Fault>
    ensures { MatchResult result (λ x. Turns tokens.now (Nonterminal RIGHT ∷ []) [] (right_value x.0 ∷ []) at x.1 1) (Ends tokens.now (Nonterminal RIGHT ∷ []) [] at) }
{
    if tokens.is_literal(at) {
        return constant(tokens, at);
    }
    if tokens.is(Fixed::Sign(Mark::Tilde), at) {
        return negation(alloc, tokens, at);
    }
    if tokens.is(Fixed::Sign(Mark::OpenBrace), at) {
        return concat(alloc, tokens, at);
    }
    let (first, next) = tokens.name(alloc, at)?;
    after_name(alloc, tokens, first, next)
}

// A literal.
fn constant(tokens: &Tokens<'_>, at: usize) -> Result<(Right, usize), Fault>
    requires { true ≡ (class_at tokens.now at == LITERAL) }
    ensures { MatchResult result (λ x. Turns tokens.now (Nonterminal RIGHT ∷ []) [] (right_value x.0 ∷ []) at x.1 1) (Ends tokens.now (Nonterminal RIGHT ∷ []) [] at) }
{
    let (literal, next) = tokens.literal(at)?;
    Ok((Right::Literal(literal), next))
}

// A negated wire.
fn negation(alloc: Global, tokens: &Tokens<'_>, at: usize) -> Result<(Right, usize), Fault>
    requires { true ≡ (class_at tokens.now at == mark_class marks.Tilde) }
    ensures { MatchResult result (λ x. Turns tokens.now (Nonterminal RIGHT ∷ []) [] (right_value x.0 ∷ []) at x.1 1) (Ends tokens.now (Nonterminal RIGHT ∷ []) [] at) }
{
    let next = tokens.skip(&[Fixed::Sign(Mark::Tilde)], at)?;
    let (name, next) = tokens.name(alloc, next)?;
    Ok((Right::Not(name), next))
}

// 2 to 12 wires in braces.
fn concat(alloc: Global, tokens: &Tokens<'_>, at: usize) -> Result<(Right, usize), Fault>
    requires { true ≡ (class_at tokens.now at == mark_class marks.OpenBrace) }
    ensures { MatchResult result (λ x. Turns tokens.now (Nonterminal RIGHT ∷ []) [] (right_value x.0 ∷ []) at x.1 1) (Ends tokens.now (Nonterminal RIGHT ∷ []) [] at) }
{
    let next = tokens.skip(&[Fixed::Sign(Mark::OpenBrace)], at)?;
    let (two, next) = two_names(alloc, tokens, next)?;
    let (all, next) = more_names(alloc, tokens, two, next)?;
    let next = tokens.skip(&[Fixed::Sign(Mark::CloseBrace)], next)?;
    let parts = List::new(all);
    Ok((Right::Concat(parts), next))
}

// What follows the first name of a right side.
fn after_name(
    alloc: Global,
    tokens: &Tokens<'_>,
    first: Named,
    at: usize,
) -> Result<(Right, usize), Fault>
    ensures { MatchResult result (λ x. Turns tokens.now (Nonterminal BEHIND ∷ []) (named first ∷ []) (right_value x.0 ∷ []) at x.1 0) (Ends tokens.now (Nonterminal BEHIND ∷ []) (named first ∷ []) at) }
{
    if tokens.is(Fixed::Sign(Mark::Question), at) {
        return choice(alloc, tokens, first, at);
    }
    if tokens.is(Fixed::Sign(Mark::OpenBracket), at) {
        return indexed(alloc, tokens, first, at);
    }
    match tokens.operator_at(at) {
        Some(operator) => binary(alloc, tokens, operator, first, at),
        None => Ok((Right::Name(first), at)),
    }
}

// An operator and its right operand.
fn binary(
    alloc: Global,
    tokens: &Tokens<'_>,
    operator: BinOp,
    first: Named,
    at: usize,
) -> Result<(Right, usize), Fault>
    requires { class_at tokens.now at ≡ mark_class (operator_mark operator) }
    ensures { MatchResult result (λ x. Turns tokens.now (Nonterminal BEHIND ∷ []) (named first ∷ []) (right_value x.0 ∷ []) at x.1 0) (Ends tokens.now (Nonterminal BEHIND ∷ []) (named first ∷ []) at) }
{
    let next = tokens.skip(&[Fixed::Sign(mark_of(operator))], at)?;
    let (second, next) = tokens.name(alloc, next)?;
    Ok((Right::Binary(operator, first, second), next))
}

// The two wires that the first name selects from.
fn choice(
    alloc: Global,
    tokens: &Tokens<'_>,
    test: Named,
    at: usize,
) -> Result<(Right, usize), Fault>
    requires { true ≡ (class_at tokens.now at == mark_class marks.Question) }
    ensures { MatchResult result (λ x. Turns tokens.now (Nonterminal BEHIND ∷ []) (named test ∷ []) (right_value x.0 ∷ []) at x.1 0) (Ends tokens.now (Nonterminal BEHIND ∷ []) (named test ∷ []) at) }
{
    let next = tokens.skip(&[Fixed::Sign(Mark::Question)], at)?;
    let (chosen, next) = tokens.name_before(alloc, &[Fixed::Sign(Mark::Colon)], next)?;
    let (other, next) = tokens.name(alloc, next)?;
    Ok((Right::Choice(test, chosen, other), next))
}

// A slice, or a word of a file.
fn indexed(
    alloc: Global,
    tokens: &Tokens<'_>,
    first: Named,
    at: usize,
) -> Result<(Right, usize), Fault>
    requires { true ≡ (class_at tokens.now at == mark_class marks.OpenBracket) }
    ensures { MatchResult result (λ x. Turns tokens.now (Nonterminal BEHIND ∷ []) (named first ∷ []) (right_value x.0 ∷ []) at x.1 0) (Ends tokens.now (Nonterminal BEHIND ∷ []) (named first ∷ []) at) }
{
    let next = tokens.skip(&[Fixed::Sign(Mark::OpenBracket)], at)?;
    if tokens.is_number(next) {
        return slice(tokens, first, next);
    }
    let (address, next) = tokens.name_before(alloc, &[Fixed::Sign(Mark::CloseBracket)], next)?;
    Ok((Right::Word(first, address), next))
}

// The bits of a slice.
fn slice(tokens: &Tokens<'_>, first: Named, at: usize) -> Result<(Right, usize), Fault>
    requires { true ≡ (class_at tokens.now at == NUMBER) }
    ensures { MatchResult result (λ x. Turns tokens.now (Nonterminal INDEX ∷ []) (named first ∷ []) (right_value x.0 ∷ []) at x.1 1) (Ends tokens.now (Nonterminal INDEX ∷ []) (named first ∷ []) at) }
{
    let (high, next) = tokens.number_before(&[Fixed::Sign(Mark::Colon)], at)?;
    let (low, next) = tokens.number_before(&[Fixed::Sign(Mark::CloseBracket)], next)?;
    Ok((Right::Slice(first, high, low), next))
}

// The first two names of a concatenation.
fn two_names(alloc: Global, tokens: &Tokens<'_>, at: usize) -> Result<(Vec<Named>, usize), Fault>
    ensures { MatchResult result (λ x. Turns tokens.now (TWO_NAMES) [] (names_value x.0.items ∷ []) at x.1 1) (Ends tokens.now (TWO_NAMES) [] at) }
{
    let (first, next) = tokens.name_before(alloc, &[Fixed::Sign(Mark::Comma)], at)?;
    let (second, next) = tokens.name(alloc, next)?;
    let two = vec![in alloc; first, second]?;
    Ok((two, next))
}

// The other names of a concatenation, at most ten.
fn more_names(
    alloc: Global,
    tokens: &Tokens<'_>,
    front: Vec<Named>,
    at: usize,
) -> Result<(Vec<Named>, usize), Fault>
    ensures { MatchResult result (λ x. Turns tokens.now (Nonterminal (NAMES 10) ∷ []) (names_value front.items ∷ []) (names_value x.0.items ∷ []) at x.1 0) (Ends tokens.now (Nonterminal (NAMES 10) ∷ []) (names_value front.items ∷ []) at) }
{
    let mut all = front;
    let mut left = 10;
    let mut here = at;
    'all: while goes_on(tokens, left, here) {
        let next = tokens.skip(&[Fixed::Sign(Mark::Comma)], here)?;
        let (one, next) = tokens.name(alloc, next)?;
        all.push(one)?;
        left -= 1;
        here = next;
    }
    Ok((all, here))
}

// Whether another name follows, if at most `left` may.
fn goes_on(tokens: &Tokens<'_>, left: usize, at: usize) -> bool
    ensures { result ≡ (nat_lt 0 left && (class_at tokens.now at == mark_class marks.Comma)) }
{
    left > 0 && tokens.is(Fixed::Sign(Mark::Comma), at)
}

// The punctuator of an operator.
fn mark_of(operator: BinOp) -> Mark
    ensures { result ≡ operator_mark operator }
{
    match operator {
        BinOp::And => Mark::Ampersand,
        BinOp::Or => Mark::Bar,
        BinOp::Xor => Mark::Caret,
        BinOp::Add => Mark::Plus,
        BinOp::Sub => Mark::Minus,
        BinOp::Mul => Mark::Star,
        BinOp::Eq => Mark::EqualsEquals,
        BinOp::Lt => Mark::Less,
        BinOp::Shl => Mark::ShiftLeft,
        BinOp::Shr => Mark::ShiftRight,
    }
}
