// The `initial` block.
ghost use Rattle.std.specs.Prelude.{◌≡◌, ◌==◌, [], ◌∷◌, MatchResult, true};
ghost use Rattle.kp_grammar.specs.{Grammar.Nonterminal, Tables.among};
ghost use Rattle.kp_vlog.specs.declared.token.Keyword.TheVariants as keywords;
ghost use Rattle.kp_vlog.specs.declared.token.Mark.TheVariants as marks;
ghost use Rattle.kp_vlog.specs.Language.{keyword_class, mark_class, INITS, INIT, START, named, number as number_value, literal as literal_value, init as init_value, inits as inits_value};
ghost use Rattle.kp_vread_parse.specs.inner.Words.{init_words, FILL_FROM, FILL_LIMIT, FILL_STEP, FILL_WORD};
ghost use Rattle.kp_vread_parse.specs.inner.Reading.{class_at, Turns, Ends};

use crate::fault::Fault;
use crate::tokens::{Fixed, Tokens};
use kp_vlog::{Fill, Init, Keyword, Lit, Mark, Named, Num};
use std::alloc::Global;

/// The lines of the `initial` block.
pub(crate) fn inits(
    alloc: Global,
    tokens: &Tokens<'_>,
    at: usize,
) -> Result<(Vec<Init>, usize), Fault>
    ensures { MatchResult result (λ x. Turns tokens.now (Nonterminal INITS ∷ []) (inits_value [] ∷ []) (inits_value x.0.items ∷ []) at x.1 0) (Ends tokens.now (Nonterminal INITS ∷ []) (inits_value [] ∷ []) at) }
{
    let mut all = Vec::new(alloc);
    let mut here = at;
    'all: while begins_init(tokens, here) {
        let (one, next) = init(alloc, tokens, here)?;
        all.push(one)?;
        here = next;
    }
    Ok((all, here))
}

// One line.
fn init(alloc: Global, tokens: &Tokens<'_>, at: usize) -> Result<(Init, usize), Fault>
    ensures { MatchResult result (λ x. Turns tokens.now (Nonterminal INIT ∷ []) [] (init_value x.0 ∷ []) at x.1 1) (Ends tokens.now (Nonterminal INIT ∷ []) [] at) }
{
    if tokens.is(Fixed::Word(Keyword::For), at) {
        return fill(alloc, tokens, at);
    }
    let (name, next) = tokens.name(alloc, at)?;
    start(tokens, name, next)
}

// The start value of a register or of a word.
fn start(tokens: &Tokens<'_>, name: Named, at: usize) -> Result<(Init, usize), Fault>
    ensures { MatchResult result (λ x. Turns tokens.now (Nonterminal START ∷ []) (named name ∷ []) (init_value x.0 ∷ []) at x.1 0) (Ends tokens.now (Nonterminal START ∷ []) (named name ∷ []) at) }
{
    if tokens.is(Fixed::Sign(Mark::Equals), at) {
        return reg_start(tokens, name, at);
    }
    let next = tokens.skip(&[Fixed::Sign(Mark::OpenBracket)], at)?;
    let equals = [Fixed::Sign(Mark::CloseBracket), Fixed::Sign(Mark::Equals)];
    let (index, next) = tokens.number_before(&equals, next)?;
    let (value, next) = tokens.literal_before(&[Fixed::Sign(Mark::Semicolon)], next)?;
    Ok((Init::Word(name, index, value), next))
}

// The start value of a register.
fn reg_start(tokens: &Tokens<'_>, name: Named, at: usize) -> Result<(Init, usize), Fault>
    requires { true ≡ (class_at tokens.now at == mark_class marks.Equals) }
    ensures { MatchResult result (λ x. Turns tokens.now (Nonterminal START ∷ []) (named name ∷ []) (init_value x.0 ∷ []) at x.1 0) (Ends tokens.now (Nonterminal START ∷ []) (named name ∷ []) at) }
{
    let next = tokens.skip(&[Fixed::Sign(Mark::Equals)], at)?;
    let (value, next) = tokens.literal_before(&[Fixed::Sign(Mark::Semicolon)], next)?;
    Ok((Init::Reg(name, value), next))
}

// The loop that fills a file.
fn fill(alloc: Global, tokens: &Tokens<'_>, at: usize) -> Result<(Init, usize), Fault>
    requires { true ≡ (class_at tokens.now at == keyword_class keywords.For) }
    ensures { MatchResult result (λ x. Turns tokens.now (Nonterminal INIT ∷ []) [] (init_value x.0 ∷ []) at x.1 1) (Ends tokens.now (Nonterminal INIT ∷ []) [] at) }
{
    let (counter, from, next) = fill_from(alloc, tokens, at)?;
    let (tested, limit, next) = fill_limit(alloc, tokens, next)?;
    let (stepped, old, by, next) = fill_step(alloc, tokens, next)?;
    let (file, index, value, next) = fill_word(alloc, tokens, next)?;
    let fill = Fill {
        counter,
        from,
        tested,
        limit,
        stepped,
        old,
        by,
        file,
        index,
        value,
    };
    Ok((Init::Fill(fill), next))
}

// `for`, the counter and its start value.
fn fill_from(alloc: Global, tokens: &Tokens<'_>, at: usize) -> Result<(Named, Num, usize), Fault>
    ensures { MatchResult result (λ x. Turns tokens.now (FILL_FROM) [] (number_value x.1 ∷ named x.0 ∷ []) at x.2 1) (Ends tokens.now (FILL_FROM) [] at) }
{
    let next = tokens.skip(
        &[
            Fixed::Word(Keyword::For),
            Fixed::Sign(Mark::OpenParenthesis),
        ],
        at,
    )?;
    let (counter, next) = tokens.name_before(alloc, &[Fixed::Sign(Mark::Equals)], next)?;
    let (from, next) = tokens.number_before(&[Fixed::Sign(Mark::Semicolon)], next)?;
    Ok((counter, from, next))
}

// The name that is tested, and its limit.
fn fill_limit(alloc: Global, tokens: &Tokens<'_>, at: usize) -> Result<(Named, Num, usize), Fault>
    ensures { MatchResult result (λ x. Turns tokens.now (FILL_LIMIT) [] (number_value x.1 ∷ named x.0 ∷ []) at x.2 0) (Ends tokens.now (FILL_LIMIT) [] at) }
{
    let (tested, next) = tokens.name_before(alloc, &[Fixed::Sign(Mark::Less)], at)?;
    let (limit, next) = tokens.number_before(&[Fixed::Sign(Mark::Semicolon)], next)?;
    Ok((tested, limit, next))
}

// The name that is stepped, from what, and by how much.
fn fill_step(
    alloc: Global,
    tokens: &Tokens<'_>,
    at: usize,
) -> Result<(Named, Named, Num, usize), Fault>
    ensures { MatchResult result (λ x. Turns tokens.now (FILL_STEP) [] (number_value x.2 ∷ named x.1 ∷ named x.0 ∷ []) at x.3 0) (Ends tokens.now (FILL_STEP) [] at) }
{
    let (stepped, next) = tokens.name_before(alloc, &[Fixed::Sign(Mark::Equals)], at)?;
    let (old, next) = tokens.name_before(alloc, &[Fixed::Sign(Mark::Plus)], next)?;
    let (by, next) = tokens.number_before(&[Fixed::Sign(Mark::CloseParenthesis)], next)?;
    Ok((stepped, old, by, next))
}

// The file, the index of its word, and the new value of the word.
fn fill_word(
    alloc: Global,
    tokens: &Tokens<'_>,
    at: usize,
) -> Result<(Named, Named, Lit, usize), Fault>
    ensures { MatchResult result (λ x. Turns tokens.now (FILL_WORD) [] (literal_value x.2 ∷ named x.1 ∷ named x.0 ∷ []) at x.3 0) (Ends tokens.now (FILL_WORD) [] at) }
{
    let (file, next) = tokens.name_before(alloc, &[Fixed::Sign(Mark::OpenBracket)], at)?;
    let equals = [Fixed::Sign(Mark::CloseBracket), Fixed::Sign(Mark::Equals)];
    let (index, next) = tokens.name_before(alloc, &equals, next)?;
    let (value, next) = tokens.literal_before(&[Fixed::Sign(Mark::Semicolon)], next)?;
    Ok((file, index, value, next))
}

fn begins_init(tokens: &Tokens<'_>, at: usize) -> bool
    ensures { result ≡ among (class_at tokens.now at) init_words }
{
    tokens.is_name(at) || tokens.is(Fixed::Word(Keyword::For), at)
}
