// Stages and their statements.
ghost use Rattle.std.specs.Prelude.{◌≡◌, ◌==◌, [], ◌∷◌, MatchResult, true, false, ◌-◌, length};
ghost use Rattle.kp_grammar.specs.{Grammar.Nonterminal, Tables.among};
ghost use Rattle.kp_lex.specs.declared.token.Keyword.TheVariants as keywords;
ghost use Rattle.kp_parse_grammar.specs.Tokens.{keyword_class};
ghost use Rattle.kp_parse_grammar.specs.Follow.{stmt_words};
ghost use Rattle.kp_parse_grammar.specs.inner.Stretch.{TurnsAll, EndsAll};
ghost use Rattle.kp_parse.specs.inner.Stretches.{source_symbols, bound_symbols};
ghost use Rattle.kp_parse_grammar.specs.Language.{blocks, block as block_value, stmts, stmt as stmt_value, named as named_value, expr as expr_value, perhaps_expr, STAGE, STAGES, STMTS, STMT, BINDING, ADDRESS, HEDGE, WHEN};
ghost use Rattle.kp_parse_grammar.specs.Reading.{class_at, Turns, Ends};

use crate::pair::{expression_before, name_before, number_before, present, with};
use kp_ast::{Block, Expr, Named, ReadStmt, Stmt, StmtKind};
use kp_base::List;
use kp_lex::{Keyword, Mark, TokenKind};
use kp_parse_grammar::{Fault, Tokens, whole_expression};
use std::alloc::Global;

// The terms of a read: its condition or its guess.
#[derive(Drop)]
struct Terms {
    when: Option<Expr>,
    guess: Option<Expr>,
}

/// The stages, starting with this one, and the number of the next token. Each but the first consumes at least one token.
pub(crate) fn stages(
    alloc: Global,
    tokens: &Tokens<'_>,
    first: Block,
    at: usize,
) -> Result<(Vec<Block>, usize), Fault>
    ensures { MatchResult result (λ x. Turns tokens.now (Nonterminal STAGES) (blocks (first ∷ []) ∷ []) (blocks x.0.items ∷ []) at x.1 (length x.0.items - 1)) (Ends tokens.now (Nonterminal STAGES) (blocks (first ∷ []) ∷ []) at) }
{
    let mut all = Vec::new(alloc);
    all.push(first)?;
    let mut here = at;
    'all: while tokens.is_keyword(Keyword::Stage, here) {
        let (one, next) = stage(alloc, tokens, here)?;
        all.push(one)?;
        here = next;
    }
    Ok((all, here))
}

/// `stage number { .. }`, and the number of the next token.
pub(crate) fn stage(alloc: Global, tokens: &Tokens<'_>, at: usize) -> Result<(Block, usize), Fault>
    ensures { MatchResult result (λ x. Turns tokens.now (Nonterminal STAGE) [] (block_value x.0 ∷ []) at x.1 1) (Ends tokens.now (Nonterminal STAGE) [] at) }
{
    let (_stage, next) = tokens.keyword(Keyword::Stage, at)?;
    let (number, next) = number_before(tokens, Mark::OpenBrace, next)?;
    let (all, next) = statements(alloc, tokens, next)?;
    let (_close, next) = tokens.mark(Mark::CloseBrace, next)?;
    let stmts = List::new(all);
    Ok((Block { number, stmts }, next))
}

fn statements(alloc: Global, tokens: &Tokens<'_>, at: usize) -> Result<(Vec<Stmt>, usize), Fault>
    ensures { MatchResult result (λ x. Turns tokens.now (Nonterminal STMTS) (stmts [] ∷ []) (stmts x.0.items ∷ []) at x.1 0) (Ends tokens.now (Nonterminal STMTS) (stmts [] ∷ []) at) }
{
    let mut all = Vec::new(alloc);
    let mut here = at;
    'all: while begins_statement(tokens, here) {
        let (one, next) = statement(alloc, tokens, here)?;
        all.push(one)?;
        here = next;
    }
    Ok((all, here))
}

fn begins_statement(tokens: &Tokens<'_>, at: usize) -> bool
    ensures { result ≡ among (class_at tokens.now at) stmt_words }
{
    match tokens.kind(at) {
        Some(
            TokenKind::Keyword(
                Keyword::Read | Keyword::Let | Keyword::Put | Keyword::Set | Keyword::Aim,
            ),
        ) => true,
        _ => false,
    }
}

fn statement(alloc: Global, tokens: &Tokens<'_>, at: usize) -> Result<(Stmt, usize), Fault>
    ensures { MatchResult result (λ x. Turns tokens.now (Nonterminal STMT) [] (stmt_value x.0 ∷ []) at x.1 1) (Ends tokens.now (Nonterminal STMT) [] at) }
{
    match tokens.kind(at) {
        Some(TokenKind::Keyword(Keyword::Read)) => read(alloc, tokens, at),
        Some(TokenKind::Keyword(Keyword::Let)) => local(alloc, tokens, at),
        Some(TokenKind::Keyword(Keyword::Put)) => put(alloc, tokens, at),
        Some(TokenKind::Keyword(Keyword::Set)) => set(alloc, tokens, at),
        _ => aim(alloc, tokens, at),
    }
}

// `read name = target[address] when condition;` or `.. guess guess;`
fn read(alloc: Global, tokens: &Tokens<'_>, at: usize) -> Result<(Stmt, usize), Fault>
    requires { true ≡ (class_at tokens.now at == keyword_class keywords.Read) }
    ensures { MatchResult result (λ x. Turns tokens.now (Nonterminal STMT) [] (stmt_value x.0 ∷ []) at x.1 1) (Ends tokens.now (Nonterminal STMT) [] at) }
{
    let (place, next) = tokens.taken(at);
    let (name, next) = name_before(alloc, tokens, Mark::Equals, next)?;
    let (target, address, terms, next) = source(alloc, tokens, next)?;
    let read = ReadStmt {
        name,
        target,
        address,
        when: terms.when,
        guess: terms.guess,
    };
    let kind = StmtKind::Read(read);
    Ok((Stmt { at: place, kind }, next))
}

// The target of a read, its address, its condition and its guess, and the semicolon.
fn source(
    alloc: Global,
    tokens: &Tokens<'_>,
    at: usize,
) -> Result<(Named, Option<Expr>, Terms, usize), Fault>
    ensures { MatchResult result (λ x. TurnsAll tokens.now source_symbols (perhaps_expr x.2.guess ∷ perhaps_expr x.2.when ∷ perhaps_expr x.1 ∷ named_value x.0 ∷ []) at x.3 1) (EndsAll tokens.now source_symbols at) }
{
    let (target, next) = tokens.name(alloc, at)?;
    let (address, next) = address(alloc, tokens, next)?;
    let terms = hedge(alloc, tokens, next);
    let (source, terms, next) = with((target, address), terms)?;
    let end = tokens.mark(Mark::Semicolon, next);
    let (all, _end, next) = with((source, terms), end)?;
    Ok((all.0.0, all.0.1, all.1, next))
}

fn address(alloc: Global, tokens: &Tokens<'_>, at: usize) -> Result<(Option<Expr>, usize), Fault>
    ensures { MatchResult result (λ x. Turns tokens.now (Nonterminal ADDRESS) [] (perhaps_expr x.0 ∷ []) at x.1 0) (Ends tokens.now (Nonterminal ADDRESS) [] at) }
{
    match tokens.next_mark(Mark::OpenBracket, at) {
        Some((_open, next)) => present(expression_before(alloc, tokens, Mark::CloseBracket, next)),
        None => Ok((None, at)),
    }
}

// The condition or the guess of a read, in this order.
fn hedge(alloc: Global, tokens: &Tokens<'_>, at: usize) -> Result<(Terms, usize), Fault>
    ensures { MatchResult result (λ x. Turns tokens.now (Nonterminal HEDGE) [] (perhaps_expr x.0.guess ∷ perhaps_expr x.0.when ∷ []) at x.1 0) (Ends tokens.now (Nonterminal HEDGE) [] at) }
{
    match tokens.kind(at) {
        Some(TokenKind::Keyword(Keyword::When)) => condition(alloc, tokens, at),
        _ => guess(alloc, tokens, at),
    }
}

fn condition(alloc: Global, tokens: &Tokens<'_>, at: usize) -> Result<(Terms, usize), Fault>
    requires { true ≡ (class_at tokens.now at == keyword_class keywords.When) }
    ensures { MatchResult result (λ x. Turns tokens.now (Nonterminal HEDGE) [] (perhaps_expr x.0.guess ∷ perhaps_expr x.0.when ∷ []) at x.1 0) (Ends tokens.now (Nonterminal HEDGE) [] at) }
{
    let (_when, next) = tokens.taken(at);
    let (condition, next) = whole_expression(alloc, tokens, next)?;
    let terms = Terms {
        when: Some(condition),
        guess: None,
    };
    Ok((terms, next))
}

fn guess(alloc: Global, tokens: &Tokens<'_>, at: usize) -> Result<(Terms, usize), Fault>
    requires { false ≡ (class_at tokens.now at == keyword_class keywords.When) }
    ensures { MatchResult result (λ x. Turns tokens.now (Nonterminal HEDGE) [] (perhaps_expr x.0.guess ∷ perhaps_expr x.0.when ∷ []) at x.1 0) (Ends tokens.now (Nonterminal HEDGE) [] at) }
{
    let Some((_guess, next)) = tokens.next_keyword(Keyword::Guess, at) else {
        let terms = Terms {
            when: None,
            guess: None,
        };
        return Ok((terms, at));
    };
    let (guess, next) = whole_expression(alloc, tokens, next)?;
    let terms = Terms {
        when: None,
        guess: Some(guess),
    };
    Ok((terms, next))
}

fn when(alloc: Global, tokens: &Tokens<'_>, at: usize) -> Result<(Option<Expr>, usize), Fault>
    ensures { MatchResult result (λ x. Turns tokens.now (Nonterminal WHEN) [] (perhaps_expr x.0 ∷ []) at x.1 0) (Ends tokens.now (Nonterminal WHEN) [] at) }
{
    match tokens.next_keyword(Keyword::When, at) {
        Some((_when, next)) => present(whole_expression(alloc, tokens, next)),
        None => Ok((None, at)),
    }
}

// `name = value`
fn binding(alloc: Global, tokens: &Tokens<'_>, at: usize) -> Result<(Named, Expr, usize), Fault>
    ensures { MatchResult result (λ x. Turns tokens.now (Nonterminal BINDING) [] (expr_value x.1 ∷ named_value x.0 ∷ []) at x.2 1) (Ends tokens.now (Nonterminal BINDING) [] at) }
{
    let (name, next) = name_before(alloc, tokens, Mark::Equals, at)?;
    let (value, next) = whole_expression(alloc, tokens, next)?;
    Ok((name, value, next))
}

// `name = value;`
fn bound(alloc: Global, tokens: &Tokens<'_>, at: usize) -> Result<(Named, Expr, usize), Fault>
    ensures { MatchResult result (λ x. TurnsAll tokens.now bound_symbols (expr_value x.1 ∷ named_value x.0 ∷ []) at x.2 1) (EndsAll tokens.now bound_symbols at) }
{
    let (name, next) = name_before(alloc, tokens, Mark::Equals, at)?;
    let (value, next) = expression_before(alloc, tokens, Mark::Semicolon, next)?;
    Ok((name, value, next))
}

// `let name = value;`
fn local(alloc: Global, tokens: &Tokens<'_>, at: usize) -> Result<(Stmt, usize), Fault>
    requires { true ≡ (class_at tokens.now at == keyword_class keywords.Let) }
    ensures { MatchResult result (λ x. Turns tokens.now (Nonterminal STMT) [] (stmt_value x.0 ∷ []) at x.1 1) (Ends tokens.now (Nonterminal STMT) [] at) }
{
    let (place, next) = tokens.taken(at);
    let (name, value, next) = bound(alloc, tokens, next)?;
    let kind = StmtKind::Let(name, value);
    Ok((Stmt { at: place, kind }, next))
}

// `put pipe = value;`
fn put(alloc: Global, tokens: &Tokens<'_>, at: usize) -> Result<(Stmt, usize), Fault>
    requires { true ≡ (class_at tokens.now at == keyword_class keywords.Put) }
    ensures { MatchResult result (λ x. Turns tokens.now (Nonterminal STMT) [] (stmt_value x.0 ∷ []) at x.1 1) (Ends tokens.now (Nonterminal STMT) [] at) }
{
    let (place, next) = tokens.taken(at);
    let (name, value, next) = bound(alloc, tokens, next)?;
    let kind = StmtKind::Put(name, value);
    Ok((Stmt { at: place, kind }, next))
}

// `set result = value when condition;`
fn set(alloc: Global, tokens: &Tokens<'_>, at: usize) -> Result<(Stmt, usize), Fault>
    requires { true ≡ (class_at tokens.now at == keyword_class keywords.Set) }
    ensures { MatchResult result (λ x. Turns tokens.now (Nonterminal STMT) [] (stmt_value x.0 ∷ []) at x.1 1) (Ends tokens.now (Nonterminal STMT) [] at) }
{
    let (place, next) = tokens.taken(at);
    let (name, value, next) = binding(alloc, tokens, next)?;
    let condition = when(alloc, tokens, next);
    let (bound, condition, next) = with((name, value), condition)?;
    let end = tokens.mark(Mark::Semicolon, next);
    let (all, _end, next) = with((bound, condition), end)?;
    let kind = StmtKind::Set(all.0.0, all.0.1, all.1);
    Ok((Stmt { at: place, kind }, next))
}

// `aim hint = value;`
fn aim(alloc: Global, tokens: &Tokens<'_>, at: usize) -> Result<(Stmt, usize), Fault>
    requires no_read { false ≡ (class_at tokens.now at == keyword_class keywords.Read) }
    requires no_let { false ≡ (class_at tokens.now at == keyword_class keywords.Let) }
    requires no_put { false ≡ (class_at tokens.now at == keyword_class keywords.Put) }
    requires no_set { false ≡ (class_at tokens.now at == keyword_class keywords.Set) }
    ensures { MatchResult result (λ x. Turns tokens.now (Nonterminal STMT) [] (stmt_value x.0 ∷ []) at x.1 1) (Ends tokens.now (Nonterminal STMT) [] at) }
{
    let (place, next) = tokens.keyword(Keyword::Aim, at)?;
    let (name, value, next) = bound(alloc, tokens, next)?;
    let kind = StmtKind::Aim(name, value);
    Ok((Stmt { at: place, kind }, next))
}
