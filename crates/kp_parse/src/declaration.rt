// Declarations.
ghost use Rattle.std.specs.Prelude.{◌≡◌, ◌==◌, [], ◌∷◌, length, MatchResult, true, false};
ghost use Rattle.kp_grammar.specs.{Grammar.Nonterminal, Tables.among};
ghost use Rattle.kp_lex.specs.declared.token.Keyword.TheVariants as keywords;
ghost use Rattle.kp_parse_grammar.specs.Tokens.{keyword_class};
ghost use Rattle.kp_parse_grammar.specs.Follow.{decl_words};
ghost use Rattle.kp_parse_grammar.specs.Language.{decls, decl as decl_value, param as param_value, params as params_value, perhaps_named, number as number_value, literal as literal_value, expr as expr_value, DECLS, DECL, INDEX, ENABLE, PAR, PARS};
ghost use Rattle.kp_parse_grammar.specs.Reading.{class_at, Turns, Ends};
ghost use Rattle.kp_parse_grammar.specs.inner.Stretch.{TurnsAll, EndsAll};
ghost use Rattle.kp_parse.specs.inner.Stretches.{signature_symbols, definition_symbols, start_symbols, setting_symbols};

use crate::pair::{expression_before, name_before, number_before, present};
use kp_ast::{Decl, Expr, FuncDecl, Lit, Named, Num, Param, ResultDecl};
use kp_base::List;
use kp_lex::{Keyword, Mark, TokenKind};
use kp_parse_grammar::{Fault, Tokens};
use std::alloc::Global;

/// All declarations from this token on, and the number of the next token. Each consumes at least one token.
pub(crate) fn declarations(
    alloc: Global,
    tokens: &Tokens<'_>,
    at: usize,
) -> Result<(Vec<Decl>, usize), Fault>
    ensures { MatchResult result (λ x. Turns tokens.now (Nonterminal DECLS) (decls [] ∷ []) (decls x.0.items ∷ []) at x.1 (length x.0.items)) (Ends tokens.now (Nonterminal DECLS) (decls [] ∷ []) at) }
{
    let mut all = Vec::new(alloc);
    let mut here = at;
    'all: while begins_declaration(tokens, here) {
        let (one, next) = declaration(alloc, tokens, here)?;
        all.push(one)?;
        here = next;
    }
    Ok((all, here))
}

fn begins_declaration(tokens: &Tokens<'_>, at: usize) -> bool
    ensures { result ≡ among (class_at tokens.now at) decl_words }
{
    if tokens.is_keyword(Keyword::Reg, at) {
        return true;
    }
    if tokens.is_keyword(Keyword::File, at) {
        return true;
    }
    if tokens.is_keyword(Keyword::Pipe, at) {
        return true;
    }
    if tokens.is_keyword(Keyword::Result, at) {
        return true;
    }
    if tokens.is_keyword(Keyword::Hint, at) {
        return true;
    }
    if tokens.is_keyword(Keyword::Sample, at) {
        return true;
    }
    tokens.is_keyword(Keyword::Fn, at)
}

fn declaration(alloc: Global, tokens: &Tokens<'_>, at: usize) -> Result<(Decl, usize), Fault>
    ensures { MatchResult result (λ x. Turns tokens.now (Nonterminal DECL) [] (decl_value x.0 ∷ []) at x.1 1) (Ends tokens.now (Nonterminal DECL) [] at) }
{
    match tokens.kind(at) {
        Some(TokenKind::Keyword(Keyword::Reg)) => register(alloc, tokens, at),
        Some(TokenKind::Keyword(Keyword::File)) => file(alloc, tokens, at),
        Some(TokenKind::Keyword(Keyword::Pipe)) => pipe(alloc, tokens, at),
        Some(TokenKind::Keyword(Keyword::Result)) => target(alloc, tokens, at),
        Some(TokenKind::Keyword(Keyword::Hint)) => hint(alloc, tokens, at),
        Some(TokenKind::Keyword(Keyword::Sample)) => sample(alloc, tokens, at),
        _ => function(alloc, tokens, at),
    }
}

// `reg name : width = start;`
fn register(alloc: Global, tokens: &Tokens<'_>, at: usize) -> Result<(Decl, usize), Fault>
    requires { true ≡ (class_at tokens.now at == keyword_class keywords.Reg) }
    ensures { MatchResult result (λ x. Turns tokens.now (Nonterminal DECL) [] (decl_value x.0 ∷ []) at x.1 1) (Ends tokens.now (Nonterminal DECL) [] at) }
{
    let (_reg, next) = tokens.taken(at);
    let (typed, next) = parameter(alloc, tokens, next)?;
    let (start, next) = start(tokens, next)?;
    Ok((Decl::Reg(typed.name, typed.width, start), next))
}

// `file name : width [address width];`
fn file(alloc: Global, tokens: &Tokens<'_>, at: usize) -> Result<(Decl, usize), Fault>
    requires { true ≡ (class_at tokens.now at == keyword_class keywords.File) }
    ensures { MatchResult result (λ x. Turns tokens.now (Nonterminal DECL) [] (decl_value x.0 ∷ []) at x.1 1) (Ends tokens.now (Nonterminal DECL) [] at) }
{
    let (_file, next) = tokens.taken(at);
    let (typed, next) = parameter(alloc, tokens, next)?;
    let (_open, next) = tokens.mark(Mark::OpenBracket, next)?;
    let (address, next) = number_before(tokens, Mark::CloseBracket, next)?;
    let (_end, next) = tokens.mark(Mark::Semicolon, next)?;
    Ok((Decl::File(typed.name, typed.width, address), next))
}

// `pipe name : width;`
fn pipe(alloc: Global, tokens: &Tokens<'_>, at: usize) -> Result<(Decl, usize), Fault>
    requires { true ≡ (class_at tokens.now at == keyword_class keywords.Pipe) }
    ensures { MatchResult result (λ x. Turns tokens.now (Nonterminal DECL) [] (decl_value x.0 ∷ []) at x.1 1) (Ends tokens.now (Nonterminal DECL) [] at) }
{
    let (_pipe, next) = tokens.taken(at);
    let (typed, next) = parameter(alloc, tokens, next)?;
    let (_end, next) = tokens.mark(Mark::Semicolon, next)?;
    Ok((Decl::Pipe(typed.name, typed.width), next))
}

// `result name : width -> target[address] when enable at stage;`
fn target(alloc: Global, tokens: &Tokens<'_>, at: usize) -> Result<(Decl, usize), Fault>
    requires { true ≡ (class_at tokens.now at == keyword_class keywords.Result) }
    ensures { MatchResult result (λ x. Turns tokens.now (Nonterminal DECL) [] (decl_value x.0 ∷ []) at x.1 1) (Ends tokens.now (Nonterminal DECL) [] at) }
{
    let (_result, next) = tokens.taken(at);
    let (typed, next) = parameter(alloc, tokens, next)?;
    let (_arrow, next) = tokens.mark(Mark::Arrow, next)?;
    let (target, next) = tokens.name(alloc, next)?;
    let (address, next) = index(alloc, tokens, next)?;
    let (enable, next) = enable(alloc, tokens, next)?;
    let (stage, next) = setting(tokens, Keyword::At, next)?;
    let result = ResultDecl {
        name: typed.name,
        width: typed.width,
        target,
        address,
        enable,
        stage,
    };
    Ok((Decl::Target(result), next))
}

fn index(alloc: Global, tokens: &Tokens<'_>, at: usize) -> Result<(Option<Named>, usize), Fault>
    ensures { MatchResult result (λ x. Turns tokens.now (Nonterminal INDEX) [] (perhaps_named x.0 ∷ []) at x.1 0) (Ends tokens.now (Nonterminal INDEX) [] at) }
{
    match tokens.next_mark(Mark::OpenBracket, at) {
        Some((_open, next)) => present(name_before(alloc, tokens, Mark::CloseBracket, next)),
        None => Ok((None, at)),
    }
}

fn enable(alloc: Global, tokens: &Tokens<'_>, at: usize) -> Result<(Option<Named>, usize), Fault>
    ensures { MatchResult result (λ x. Turns tokens.now (Nonterminal ENABLE) [] (perhaps_named x.0 ∷ []) at x.1 0) (Ends tokens.now (Nonterminal ENABLE) [] at) }
{
    match tokens.next_keyword(Keyword::When, at) {
        Some((_when, next)) => present(tokens.name(alloc, next)),
        None => Ok((None, at)),
    }
}

// `hint name : width = start;`
fn hint(alloc: Global, tokens: &Tokens<'_>, at: usize) -> Result<(Decl, usize), Fault>
    requires { true ≡ (class_at tokens.now at == keyword_class keywords.Hint) }
    ensures { MatchResult result (λ x. Turns tokens.now (Nonterminal DECL) [] (decl_value x.0 ∷ []) at x.1 1) (Ends tokens.now (Nonterminal DECL) [] at) }
{
    let (_hint, next) = tokens.taken(at);
    let (typed, next) = parameter(alloc, tokens, next)?;
    let (start, next) = start(tokens, next)?;
    Ok((Decl::Hint(typed.name, typed.width, start), next))
}

// `sample name : width at stage;`
fn sample(alloc: Global, tokens: &Tokens<'_>, at: usize) -> Result<(Decl, usize), Fault>
    requires { true ≡ (class_at tokens.now at == keyword_class keywords.Sample) }
    ensures { MatchResult result (λ x. Turns tokens.now (Nonterminal DECL) [] (decl_value x.0 ∷ []) at x.1 1) (Ends tokens.now (Nonterminal DECL) [] at) }
{
    let (_sample, next) = tokens.taken(at);
    let (typed, next) = parameter(alloc, tokens, next)?;
    let (stage, next) = setting(tokens, Keyword::At, next)?;
    Ok((Decl::Sample(typed.name, typed.width, stage), next))
}

// `= start;`
fn start(tokens: &Tokens<'_>, at: usize) -> Result<(Lit, usize), Fault>
    ensures { MatchResult result (λ x. TurnsAll tokens.now start_symbols (literal_value x.0 ∷ []) at x.1 1) (EndsAll tokens.now start_symbols at) }
{
    let (_equals, next) = tokens.mark(Mark::Equals, at)?;
    let (start, next) = tokens.literal(next)?;
    let (_end, next) = tokens.mark(Mark::Semicolon, next)?;
    Ok((start, next))
}

/// `keyword number;`, and the number of the next token.
pub(crate) fn setting(
    tokens: &Tokens<'_>,
    keyword: Keyword,
    at: usize,
) -> Result<(Num, usize), Fault>
    ensures { MatchResult result (λ x. TurnsAll tokens.now (setting_symbols keyword) (number_value x.0 ∷ []) at x.1 1) (EndsAll tokens.now (setting_symbols keyword) at) }
{
    let (_word, next) = tokens.keyword(keyword, at)?;
    number_before(tokens, Mark::Semicolon, next)
}

// `fn name(params) : width = body;`
fn function(alloc: Global, tokens: &Tokens<'_>, at: usize) -> Result<(Decl, usize), Fault>
    requires no_reg { false ≡ (class_at tokens.now at == keyword_class keywords.Reg) }
    requires no_file { false ≡ (class_at tokens.now at == keyword_class keywords.File) }
    requires no_pipe { false ≡ (class_at tokens.now at == keyword_class keywords.Pipe) }
    requires no_result { false ≡ (class_at tokens.now at == keyword_class keywords.Result) }
    requires no_hint { false ≡ (class_at tokens.now at == keyword_class keywords.Hint) }
    requires no_sample { false ≡ (class_at tokens.now at == keyword_class keywords.Sample) }
    ensures { MatchResult result (λ x. Turns tokens.now (Nonterminal DECL) [] (decl_value x.0 ∷ []) at x.1 1) (Ends tokens.now (Nonterminal DECL) [] at) }
{
    let (_fn, next) = tokens.keyword(Keyword::Fn, at)?;
    let (name, next) = tokens.name(alloc, next)?;
    let (params, next) = signature(alloc, tokens, next)?;
    let (width, body, next) = definition(alloc, tokens, next)?;
    let params = List::new(params);
    let function = FuncDecl {
        name,
        params,
        width,
        body,
    };
    Ok((Decl::Func(function), next))
}

// `(params)`
fn signature(alloc: Global, tokens: &Tokens<'_>, at: usize) -> Result<(Vec<Param>, usize), Fault>
    ensures { MatchResult result (λ x. TurnsAll tokens.now signature_symbols (params_value x.0.items ∷ []) at x.1 1) (EndsAll tokens.now signature_symbols at) }
{
    let (_open, next) = tokens.mark(Mark::OpenParenthesis, at)?;
    let (first, next) = parameter(alloc, tokens, next)?;
    let (params, next) = parameters(alloc, tokens, first, next)?;
    let (_close, next) = tokens.mark(Mark::CloseParenthesis, next)?;
    Ok((params, next))
}

// `: width = body;`
fn definition(alloc: Global, tokens: &Tokens<'_>, at: usize) -> Result<(Num, Expr, usize), Fault>
    ensures { MatchResult result (λ x. TurnsAll tokens.now definition_symbols (expr_value x.1 ∷ number_value x.0 ∷ []) at x.2 1) (EndsAll tokens.now definition_symbols at) }
{
    let (_colon, next) = tokens.mark(Mark::Colon, at)?;
    let (width, next) = number_before(tokens, Mark::Equals, next)?;
    let (body, next) = expression_before(alloc, tokens, Mark::Semicolon, next)?;
    Ok((width, body, next))
}

// The parameters, starting with this one.
fn parameters(
    alloc: Global,
    tokens: &Tokens<'_>,
    first: Param,
    at: usize,
) -> Result<(Vec<Param>, usize), Fault>
    ensures { MatchResult result (λ x. Turns tokens.now (Nonterminal PARS) (params_value (first ∷ []) ∷ []) (params_value x.0.items ∷ []) at x.1 0) (Ends tokens.now (Nonterminal PARS) (params_value (first ∷ []) ∷ []) at) }
{
    let mut all = Vec::new(alloc);
    all.push(first)?;
    let mut here = at;
    'all: while let Some((_comma, next)) = tokens.next_mark(Mark::Comma, here) {
        let (one, next) = parameter(alloc, tokens, next)?;
        all.push(one)?;
        here = next;
    }
    Ok((all, here))
}

// `name : width`
fn parameter(alloc: Global, tokens: &Tokens<'_>, at: usize) -> Result<(Param, usize), Fault>
    ensures { MatchResult result (λ x. Turns tokens.now (Nonterminal PAR) [] (param_value x.0 ∷ []) at x.1 1) (Ends tokens.now (Nonterminal PAR) [] at) }
{
    let (name, next) = name_before(alloc, tokens, Mark::Colon, at)?;
    let (width, next) = tokens.number(next)?;
    Ok((Param { name, width }, next))
}
