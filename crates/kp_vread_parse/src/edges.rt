// The block with the updates at the clock edge.
ghost use Rattle.std.specs.Prelude.{◌≡◌, ◌==◌, [], ◌∷◌, MatchResult, true};
ghost use Rattle.kp_grammar.specs.{Grammar.Nonterminal, Tables.among};
ghost use Rattle.kp_vlog.specs.declared.token.Keyword.TheVariants as keywords;
ghost use Rattle.kp_vlog.specs.Language.{keyword_class, BODY, CONDITION, VALUES, UPDATES, UPDATE, named, values as values_value, perhaps_reset, update as update_value, updates as updates_value};
ghost use Rattle.kp_vread_parse.specs.inner.Words.{update_words, TEST, RESET_VALUES, OTHERS, REG_UPDATE, FILE_UPDATE, FIRST};
ghost use Rattle.kp_vread_parse.specs.inner.Reading.{class_at, Turns, Ends};

use crate::fault::Fault;
use crate::tokens::{Fixed, Tokens};
use kp_base::List;
use kp_vlog::{Keyword, Mark, Named, ResetList, ResetValue, Update};
use std::alloc::Global;

/// The reset list of the block with the updates at the clock edge, if it has one; its updates are added to a list that has none.
pub(crate) fn body(
    alloc: Global,
    tokens: &Tokens<'_>,
    all: &mut Vec<Update>,
    at: usize,
) -> Result<(Option<ResetList>, usize), Fault>
    requires { all.old.items ≡ [] }
    ensures { MatchResult result (λ x. Turns tokens.now (Nonterminal BODY ∷ []) [] (updates_value all.new.items ∷ perhaps_reset x.0 ∷ []) at x.1 0) (Ends tokens.now (Nonterminal BODY ∷ []) [] at) }
{
    if tokens.is(Fixed::Word(Keyword::If), at) {
        let (test, next) = read_test(alloc, tokens, at)?;
        return condition(alloc, tokens, test, all, next);
    }
    if tokens.is_name(at) {
        let (first, next) = reg_update(alloc, tokens, at)?;
        return only_updates(alloc, tokens, first, all, next);
    }
    Ok((None, at))
}

// `if (name)`.
fn read_test(alloc: Global, tokens: &Tokens<'_>, at: usize) -> Result<(Named, usize), Fault>
    ensures { MatchResult result (λ x. Turns tokens.now (TEST) [] (named x.0 ∷ []) at x.1 1) (Ends tokens.now (TEST) [] at) }
{
    let next = tokens.skip(
        &[Fixed::Word(Keyword::If), Fixed::Sign(Mark::OpenParenthesis)],
        at,
    )?;
    let (test, next) = tokens.name_before(alloc, &[Fixed::Sign(Mark::CloseParenthesis)], next)?;
    Ok((test, next))
}

// A reset list and the other updates, or updates, the first of which is one of a file.
fn condition(
    alloc: Global,
    tokens: &Tokens<'_>,
    test: Named,
    all: &mut Vec<Update>,
    at: usize,
) -> Result<(Option<ResetList>, usize), Fault>
    requires { all.old.items ≡ [] }
    ensures { MatchResult result (λ x. Turns tokens.now (Nonterminal CONDITION ∷ []) (named test ∷ []) (updates_value all.new.items ∷ perhaps_reset x.0 ∷ []) at x.1 0) (Ends tokens.now (Nonterminal CONDITION ∷ []) (named test ∷ []) at) }
{
    if tokens.is(Fixed::Word(Keyword::Begin), at) {
        return with_reset(alloc, tokens, test, all, at);
    }
    let (first, next) = file_update(alloc, tokens, test, at)?;
    only_updates(alloc, tokens, first, all, next)
}

// This update and the ones after it, without a reset list.
fn only_updates(
    alloc: Global,
    tokens: &Tokens<'_>,
    first: Update,
    all: &mut Vec<Update>,
    at: usize,
) -> Result<(Option<ResetList>, usize), Fault>
    requires { all.old.items ≡ [] }
    ensures { MatchResult result (λ x. Turns tokens.now (FIRST) (update_value first ∷ []) (updates_value all.new.items ∷ perhaps_reset x.0 ∷ []) at x.1 0) (Ends tokens.now (FIRST) (update_value first ∷ []) at) }
{
    all.push(first)?;
    let next = updates(alloc, tokens, all, at)?;
    Ok((None, next))
}

// The reset list, and the updates after `else`.
fn with_reset(
    alloc: Global,
    tokens: &Tokens<'_>,
    reset: Named,
    all: &mut Vec<Update>,
    at: usize,
) -> Result<(Option<ResetList>, usize), Fault>
    requires class { true ≡ (class_at tokens.now at == keyword_class keywords.Begin) }
    requires none { all.old.items ≡ [] }
    ensures { MatchResult result (λ x. Turns tokens.now (Nonterminal CONDITION ∷ []) (named reset ∷ []) (updates_value all.new.items ∷ perhaps_reset x.0 ∷ []) at x.1 0) (Ends tokens.now (Nonterminal CONDITION ∷ []) (named reset ∷ []) at) }
{
    let (values, next) = read_values(alloc, tokens, at)?;
    let values = List::new(values);
    let next = read_others(alloc, tokens, all, next)?;
    Ok((Some(ResetList { reset, values }), next))
}

// The values of the reset list, from `begin` to `end`.
fn read_values(
    alloc: Global,
    tokens: &Tokens<'_>,
    at: usize,
) -> Result<(Vec<ResetValue>, usize), Fault>
    ensures { MatchResult result (λ x. Turns tokens.now (RESET_VALUES) [] (values_value x.0.items ∷ []) at x.1 0) (Ends tokens.now (RESET_VALUES) [] at) }
{
    let next = tokens.skip(&[Fixed::Word(Keyword::Begin)], at)?;
    let (values, next) = values(alloc, tokens, next)?;
    let next = tokens.skip(&[Fixed::Word(Keyword::End)], next)?;
    Ok((values, next))
}

// The updates if there is no reset, from `else` to `end`. They are added to a list that has none.
fn read_others(
    alloc: Global,
    tokens: &Tokens<'_>,
    all: &mut Vec<Update>,
    at: usize,
) -> Result<usize, Fault>
    requires { all.old.items ≡ [] }
    ensures { MatchResult result (λ x. Turns tokens.now (OTHERS) [] (updates_value all.new.items ∷ []) at x 0) (Ends tokens.now (OTHERS) [] at) }
{
    let next = tokens.skip(
        &[Fixed::Word(Keyword::Else), Fixed::Word(Keyword::Begin)],
        at,
    )?;
    let next = updates(alloc, tokens, all, next)?;
    let next = tokens.skip(&[Fixed::Word(Keyword::End)], next)?;
    Ok(next)
}

// The values of the reset list.
fn values(alloc: Global, tokens: &Tokens<'_>, at: usize) -> Result<(Vec<ResetValue>, usize), Fault>
    ensures { MatchResult result (λ x. Turns tokens.now (Nonterminal VALUES ∷ []) (values_value [] ∷ []) (values_value x.0.items ∷ []) at x.1 0) (Ends tokens.now (Nonterminal VALUES ∷ []) (values_value [] ∷ []) at) }
{
    let mut all = Vec::new(alloc);
    let mut here = at;
    'all: while tokens.is_name(here) {
        let (name, next) = tokens.name_before(alloc, &[Fixed::Sign(Mark::Arrow)], here)?;
        let (value, next) = tokens.literal_before(&[Fixed::Sign(Mark::Semicolon)], next)?;
        all.push(ResetValue { name, value })?;
        here = next;
    }
    Ok((all, here))
}

// More updates, which are added to these.
fn updates(
    alloc: Global,
    tokens: &Tokens<'_>,
    all: &mut Vec<Update>,
    at: usize,
) -> Result<usize, Fault>
    ensures { MatchResult result (λ x. Turns tokens.now (Nonterminal UPDATES ∷ []) (updates_value all.old.items ∷ []) (updates_value all.new.items ∷ []) at x 0) (Ends tokens.now (Nonterminal UPDATES ∷ []) (updates_value all.old.items ∷ []) at) }
{
    let mut here = at;
    'all: while begins_update(tokens, here) {
        let (one, next) = update(alloc, tokens, here)?;
        all.push(one)?;
        here = next;
    }
    Ok(here)
}

// One update.
fn update(alloc: Global, tokens: &Tokens<'_>, at: usize) -> Result<(Update, usize), Fault>
    ensures { MatchResult result (λ x. Turns tokens.now (Nonterminal UPDATE ∷ []) [] (update_value x.0 ∷ []) at x.1 1) (Ends tokens.now (Nonterminal UPDATE ∷ []) [] at) }
{
    if tokens.is(Fixed::Word(Keyword::If), at) {
        let (test, next) = read_test(alloc, tokens, at)?;
        return file_update(alloc, tokens, test, next);
    }
    reg_update(alloc, tokens, at)
}

// An update of a register.
fn reg_update(alloc: Global, tokens: &Tokens<'_>, at: usize) -> Result<(Update, usize), Fault>
    ensures { MatchResult result (λ x. Turns tokens.now (REG_UPDATE) [] (update_value x.0 ∷ []) at x.1 1) (Ends tokens.now (REG_UPDATE) [] at) }
{
    let (name, next) = tokens.name_before(alloc, &[Fixed::Sign(Mark::Arrow)], at)?;
    let (value, next) = tokens.name_before(alloc, &[Fixed::Sign(Mark::Semicolon)], next)?;
    Ok((Update::Reg(name, value), next))
}

// An update of a file, after its test.
fn file_update(
    alloc: Global,
    tokens: &Tokens<'_>,
    test: Named,
    at: usize,
) -> Result<(Update, usize), Fault>
    ensures { MatchResult result (λ x. Turns tokens.now (FILE_UPDATE) (named test ∷ []) (update_value x.0 ∷ []) at x.1 0) (Ends tokens.now (FILE_UPDATE) (named test ∷ []) at) }
{
    let (file, next) = tokens.name_before(alloc, &[Fixed::Sign(Mark::OpenBracket)], at)?;
    let arrow = [Fixed::Sign(Mark::CloseBracket), Fixed::Sign(Mark::Arrow)];
    let (address, next) = tokens.name_before(alloc, &arrow, next)?;
    let (value, next) = tokens.name_before(alloc, &[Fixed::Sign(Mark::Semicolon)], next)?;
    Ok((Update::File(test, file, address, value), next))
}

fn begins_update(tokens: &Tokens<'_>, at: usize) -> bool
    ensures { result ≡ among (class_at tokens.now at) update_words }
{
    tokens.is_name(at) || tokens.is(Fixed::Word(Keyword::If), at)
}
