// The sections after the stages.
ghost use Rattle.std.specs.Prelude.{[], ◌∷◌, MatchResult};
ghost use Rattle.kp_grammar.specs.Grammar.{Nonterminal};
ghost use Rattle.kp_parse_grammar.specs.Language.{perhaps_images, images as images_value, image as image_value, perhaps_stalls, stalls as stalls_value, stall as stall_value, perhaps_inputs, inputs as inputs_value, input as input_value, number as number_value, perhaps_number, literals as literals_value, IMAGE, WORDS, WORD, NUMBERED, LITS, STALLS, SPANS, SPAN, STEP, INPUTS, ENTRIES, ENTRY};
ghost use Rattle.kp_parse_grammar.specs.Reading.{Turns, Ends};
ghost use Rattle.kp_parse_grammar.specs.inner.Stretch.{TurnsAll, EndsAll};
ghost use Rattle.kp_parse.specs.inner.Stretches.{value_symbols, cycle_symbols};

use crate::pair::{name_before, number_before, present};
use kp_ast::{Image, Inputs, Lit, Num, Stalls};
use kp_base::List;
use kp_lex::{Keyword, Mark};
use kp_parse_grammar::{Fault, Tokens};
use std::alloc::Global;

/// The image section, if it is present, and the number of the next token.
pub(crate) fn image_section(
    alloc: Global,
    tokens: &Tokens<'_>,
    at: usize,
) -> Result<(Option<List<Image>>, usize), Fault>
    ensures { MatchResult result (λ x. Turns tokens.now (Nonterminal IMAGE) [] (perhaps_images x.0 ∷ []) at x.1 0) (Ends tokens.now (Nonterminal IMAGE) [] at) }
{
    let Some((_image, next)) = tokens.next_keyword(Keyword::Image, at) else {
        return Ok((None, at));
    };
    let (_open, next) = tokens.mark(Mark::OpenBrace, next)?;
    let (all, next) = images(alloc, tokens, next)?;
    let (_close, next) = tokens.mark(Mark::CloseBrace, next)?;
    Ok((Some(List::new(all)), next))
}

fn images(alloc: Global, tokens: &Tokens<'_>, at: usize) -> Result<(Vec<Image>, usize), Fault>
    ensures { MatchResult result (λ x. Turns tokens.now (Nonterminal WORDS) (images_value [] ∷ []) (images_value x.0.items ∷ []) at x.1 0) (Ends tokens.now (Nonterminal WORDS) (images_value [] ∷ []) at) }
{
    let mut all = Vec::new(alloc);
    let mut here = at;
    'all: while tokens.is_name(here) {
        let (one, next) = image(alloc, tokens, here)?;
        all.push(one)?;
        here = next;
    }
    Ok((all, here))
}

// `name[address] = value, value;`
fn image(alloc: Global, tokens: &Tokens<'_>, at: usize) -> Result<(Image, usize), Fault>
    ensures { MatchResult result (λ x. Turns tokens.now (Nonterminal WORD) [] (image_value x.0 ∷ []) at x.1 1) (Ends tokens.now (Nonterminal WORD) [] at) }
{
    let (name, next) = tokens.name(alloc, at)?;
    let (address, next) = numbered(tokens, next)?;
    let (all, next) = values(alloc, tokens, next)?;
    let image = Image {
        name,
        address,
        values: List::new(all),
    };
    Ok((image, next))
}

fn numbered(tokens: &Tokens<'_>, at: usize) -> Result<(Option<Num>, usize), Fault>
    ensures { MatchResult result (λ x. Turns tokens.now (Nonterminal NUMBERED) [] (perhaps_number x.0 ∷ []) at x.1 0) (Ends tokens.now (Nonterminal NUMBERED) [] at) }
{
    match tokens.next_mark(Mark::OpenBracket, at) {
        Some((_open, next)) => present(number_before(tokens, Mark::CloseBracket, next)),
        None => Ok((None, at)),
    }
}

// `= value, value;`
fn values(alloc: Global, tokens: &Tokens<'_>, at: usize) -> Result<(Vec<Lit>, usize), Fault>
    ensures { MatchResult result (λ x. TurnsAll tokens.now value_symbols (literals_value x.0.items ∷ []) at x.1 1) (EndsAll tokens.now value_symbols at) }
{
    let (_equals, next) = tokens.mark(Mark::Equals, at)?;
    let (first, next) = tokens.literal(next)?;
    let (all, next) = literals(alloc, tokens, first, next)?;
    let (_end, next) = tokens.mark(Mark::Semicolon, next)?;
    Ok((all, next))
}

// The literals, starting with this one.
fn literals(
    alloc: Global,
    tokens: &Tokens<'_>,
    first: Lit,
    at: usize,
) -> Result<(Vec<Lit>, usize), Fault>
    ensures { MatchResult result (λ x. Turns tokens.now (Nonterminal LITS) (literals_value (first ∷ []) ∷ []) (literals_value x.0.items ∷ []) at x.1 0) (Ends tokens.now (Nonterminal LITS) (literals_value (first ∷ []) ∷ []) at) }
{
    let mut all = Vec::new(alloc);
    all.push(first)?;
    let mut here = at;
    'all: while let Some((_comma, next)) = tokens.next_mark(Mark::Comma, here) {
        let (one, next) = tokens.literal(next)?;
        all.push(one)?;
        here = next;
    }
    Ok((all, here))
}

/// The stalls section, if it is present, and the number of the next token.
pub(crate) fn stall_section(
    alloc: Global,
    tokens: &Tokens<'_>,
    at: usize,
) -> Result<(Option<List<Stalls>>, usize), Fault>
    ensures { MatchResult result (λ x. Turns tokens.now (Nonterminal STALLS) [] (perhaps_stalls x.0 ∷ []) at x.1 0) (Ends tokens.now (Nonterminal STALLS) [] at) }
{
    let Some((_stalls, next)) = tokens.next_keyword(Keyword::Stalls, at) else {
        return Ok((None, at));
    };
    let (_open, next) = tokens.mark(Mark::OpenBrace, next)?;
    let (all, next) = spans(alloc, tokens, next)?;
    let (_close, next) = tokens.mark(Mark::CloseBrace, next)?;
    Ok((Some(List::new(all)), next))
}

fn spans(alloc: Global, tokens: &Tokens<'_>, at: usize) -> Result<(Vec<Stalls>, usize), Fault>
    ensures { MatchResult result (λ x. Turns tokens.now (Nonterminal SPANS) (stalls_value [] ∷ []) (stalls_value x.0.items ∷ []) at x.1 0) (Ends tokens.now (Nonterminal SPANS) (stalls_value [] ∷ []) at) }
{
    let mut all = Vec::new(alloc);
    let mut here = at;
    'all: while tokens.is_number(here) {
        let (one, next) = span(tokens, here)?;
        all.push(one)?;
        here = next;
    }
    Ok((all, here))
}

// `stage from a to b step p;`
fn span(tokens: &Tokens<'_>, at: usize) -> Result<(Stalls, usize), Fault>
    ensures { MatchResult result (λ x. Turns tokens.now (Nonterminal SPAN) [] (stall_value x.0 ∷ []) at x.1 1) (Ends tokens.now (Nonterminal SPAN) [] at) }
{
    let (stage, next) = tokens.number(at)?;
    let (from, to, step, next) = cycles(tokens, next)?;
    let span = Stalls {
        stage,
        from,
        to,
        step,
    };
    Ok((span, next))
}

// `from a to b step p;`
fn cycles(tokens: &Tokens<'_>, at: usize) -> Result<(Num, Num, Option<Num>, usize), Fault>
    ensures { MatchResult result (λ x. TurnsAll tokens.now cycle_symbols (perhaps_number x.2 ∷ number_value x.1 ∷ number_value x.0 ∷ []) at x.3 1) (EndsAll tokens.now cycle_symbols at) }
{
    let (_from, next) = tokens.keyword(Keyword::From, at)?;
    let (from, next) = tokens.number(next)?;
    let (_to, next) = tokens.keyword(Keyword::To, next)?;
    let (to, next) = tokens.number(next)?;
    let (step, next) = step(tokens, next)?;
    let (_end, next) = tokens.mark(Mark::Semicolon, next)?;
    Ok((from, to, step, next))
}

fn step(tokens: &Tokens<'_>, at: usize) -> Result<(Option<Num>, usize), Fault>
    ensures { MatchResult result (λ x. Turns tokens.now (Nonterminal STEP) [] (perhaps_number x.0 ∷ []) at x.1 0) (Ends tokens.now (Nonterminal STEP) [] at) }
{
    match tokens.next_keyword(Keyword::Step, at) {
        Some((_step, next)) => present(tokens.number(next)),
        None => Ok((None, at)),
    }
}

/// The inputs section, if it is present, and the number of the next token.
pub(crate) fn input_section(
    alloc: Global,
    tokens: &Tokens<'_>,
    at: usize,
) -> Result<(Option<List<Inputs>>, usize), Fault>
    ensures { MatchResult result (λ x. Turns tokens.now (Nonterminal INPUTS) [] (perhaps_inputs x.0 ∷ []) at x.1 0) (Ends tokens.now (Nonterminal INPUTS) [] at) }
{
    let Some((_inputs, next)) = tokens.next_keyword(Keyword::Inputs, at) else {
        return Ok((None, at));
    };
    let (_open, next) = tokens.mark(Mark::OpenBrace, next)?;
    let (all, next) = entries(alloc, tokens, next)?;
    let (_close, next) = tokens.mark(Mark::CloseBrace, next)?;
    Ok((Some(List::new(all)), next))
}

fn entries(alloc: Global, tokens: &Tokens<'_>, at: usize) -> Result<(Vec<Inputs>, usize), Fault>
    ensures { MatchResult result (λ x. Turns tokens.now (Nonterminal ENTRIES) (inputs_value [] ∷ []) (inputs_value x.0.items ∷ []) at x.1 0) (Ends tokens.now (Nonterminal ENTRIES) (inputs_value [] ∷ []) at) }
{
    let mut all = Vec::new(alloc);
    let mut here = at;
    'all: while tokens.is_name(here) {
        let (one, next) = entry(alloc, tokens, here)?;
        all.push(one)?;
        here = next;
    }
    Ok((all, here))
}

// `name = value from a to b step p;`
fn entry(alloc: Global, tokens: &Tokens<'_>, at: usize) -> Result<(Inputs, usize), Fault>
    ensures { MatchResult result (λ x. Turns tokens.now (Nonterminal ENTRY) [] (input_value x.0 ∷ []) at x.1 1) (Ends tokens.now (Nonterminal ENTRY) [] at) }
{
    let (name, next) = name_before(alloc, tokens, Mark::Equals, at)?;
    let (value, next) = tokens.literal(next)?;
    let (from, to, step, next) = cycles(tokens, next)?;
    let entry = Inputs {
        name,
        value,
        from,
        to,
        step,
    };
    Ok((entry, next))
}
