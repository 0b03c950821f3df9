// The name of a module, and its ports.
ghost use Rattle.std.specs.Prelude.{◌≡◌, ◌==◌, [], ◌∷◌, ◌++◌, map, MatchResult, true};
ghost use Rattle.kp_grammar.specs.Grammar.{Nonterminal};
ghost use Rattle.kp_vlog.specs.Language.{word as word_of, IDENTIFIER, WIRE, RANGE, PORT, STALLS, SAMPLES, range as range_value, port as port_value, ports as ports_value, perhaps_named, named};
ghost use Rattle.kp_vread_parse.specs.inner.Words.{symbol, HEAD, INPUTS, OUTPUTS};
ghost use Rattle.kp_vread_parse.specs.inner.Reading.{class_at, Turns, Ends};

use crate::fault::Fault;
use crate::tokens::{Fixed, Tokens};
use kp_base::List;
use kp_vlog::{Keyword, Mark, Named, Range, VPort};
use std::alloc::Global;

/// The name, and the ports up to the outputs.
#[derive(Drop)]
pub(crate) struct Inputs {
    pub name: Named,
    pub clk: Named,
    pub rst: Option<Named>,
    pub ext: VPort,
    pub samples: List<VPort>,
}

/// The outputs.
#[derive(Drop)]
pub(crate) struct Outputs {
    pub full: VPort,
    pub ue: VPort,
    pub back: VPort,
}

// The number of the token after the keyword `wire`, if it is next; else that of the next token.
fn wire(tokens: &Tokens<'_>, at: usize) -> usize
    ensures { Turns tokens.now (Nonterminal WIRE ∷ []) [] [] at result 0 }
{
    match tokens.after(Fixed::Word(Keyword::Wire), at) {
        Some(next) => next,
        None => at,
    }
}

/// `[high:low]`
pub(crate) fn range(tokens: &Tokens<'_>, at: usize) -> Result<(Range, usize), Fault>
    ensures { MatchResult result (λ x. Turns tokens.now (Nonterminal RANGE ∷ []) [] (range_value x.0 ∷ []) at x.1 0) (Ends tokens.now (Nonterminal RANGE ∷ []) [] at) }
{
    let next = tokens.skip(&[Fixed::Sign(Mark::OpenBracket)], at)?;
    let (high, next) = tokens.number_before(&[Fixed::Sign(Mark::Colon)], next)?;
    let (low, next) = tokens.number_before(&[Fixed::Sign(Mark::CloseBracket)], next)?;
    Ok((Range { high, low }, next))
}

// A port with a range, with or without `wire`.
fn port(alloc: Global, tokens: &Tokens<'_>, at: usize) -> Result<(VPort, usize), Fault>
    ensures { MatchResult result (λ x. Turns tokens.now (Nonterminal PORT ∷ []) [] (port_value x.0 ∷ []) at x.1 1) (Ends tokens.now (Nonterminal PORT ∷ []) [] at) }
{
    let (range, next) = range(tokens, wire(tokens, at))?;
    let (port, next) = tokens.name(alloc, next)?;
    Ok((VPort { range, port }, next))
}

// A port, between this keyword and these tokens.
fn port_between(
    alloc: Global,
    tokens: &Tokens<'_>,
    before: Keyword,
    after: &[Fixed],
    at: usize,
) -> Result<(VPort, usize), Fault>
    ensures { MatchResult result (λ x. Turns tokens.now (word_of before ∷ (Nonterminal PORT ∷ map symbol after.now)) [] (port_value x.0 ∷ []) at x.1 1) (Ends tokens.now (word_of before ∷ (Nonterminal PORT ∷ map symbol after.now)) [] at) }
{
    let next = tokens.skip(&[Fixed::Word(before)], at)?;
    let (port, next) = port(alloc, tokens, next)?;
    let next = tokens.skip(after, next)?;
    Ok((port, next))
}

// The stall word, perhaps with a reset port before it.
fn stalls(
    alloc: Global,
    tokens: &Tokens<'_>,
    at: usize,
) -> Result<(Option<Named>, VPort, usize), Fault>
    ensures { MatchResult result (λ x. Turns tokens.now (Nonterminal STALLS ∷ []) [] (port_value x.1 ∷ perhaps_named x.0 ∷ []) at x.2 0) (Ends tokens.now (Nonterminal STALLS ∷ []) [] at) }
{
    if tokens.is_name(at) {
        return with_reset(alloc, tokens, at);
    }
    let (range, next) = range(tokens, at)?;
    let (port, next) = tokens.name(alloc, next)?;
    let next = tokens.skip(&[Fixed::Sign(Mark::Comma)], next)?;
    Ok((None, VPort { range, port }, next))
}

// The reset port, and the stall word after it.
fn with_reset(
    alloc: Global,
    tokens: &Tokens<'_>,
    at: usize,
) -> Result<(Option<Named>, VPort, usize), Fault>
    requires { true ≡ (class_at tokens.now at == IDENTIFIER) }
    ensures { MatchResult result (λ x. Turns tokens.now (Nonterminal STALLS ∷ []) [] (port_value x.1 ∷ perhaps_named x.0 ∷ []) at x.2 0) (Ends tokens.now (Nonterminal STALLS ∷ []) [] at) }
{
    let (reset, next) = tokens.name(alloc, at)?;
    let next = tokens.skip(&[Fixed::Sign(Mark::Comma)], next)?;
    let comma = [Fixed::Sign(Mark::Comma)];
    let (ext, next) = port_between(alloc, tokens, Keyword::Input, &comma, next)?;
    Ok((Some(reset), ext, next))
}

// The sample ports.
fn samples(alloc: Global, tokens: &Tokens<'_>, at: usize) -> Result<(Vec<VPort>, usize), Fault>
    ensures { MatchResult result (λ x. Turns tokens.now (Nonterminal SAMPLES ∷ []) (ports_value [] ∷ []) (ports_value x.0.items ∷ []) at x.1 0) (Ends tokens.now (Nonterminal SAMPLES ∷ []) (ports_value [] ∷ []) at) }
{
    let mut all = Vec::new(alloc);
    let mut here = at;
    'all: while tokens.is(Fixed::Word(Keyword::Input), here) {
        let comma = [Fixed::Sign(Mark::Comma)];
        let (one, next) = port_between(alloc, tokens, Keyword::Input, &comma, here)?;
        all.push(one)?;
        here = next;
    }
    Ok((all, here))
}

/// `module` and the name, up to the sample ports.
pub(crate) fn read_inputs(
    alloc: Global,
    tokens: &Tokens<'_>,
    at: usize,
) -> Result<(Inputs, usize), Fault>
    ensures { MatchResult result (λ x. Turns tokens.now (INPUTS) [] (ports_value x.0.samples ∷ port_value x.0.ext ∷ perhaps_named x.0.rst ∷ named x.0.clk ∷ named x.0.name ∷ []) at x.1 0) (Ends tokens.now (INPUTS) [] at) }
{
    let (name, clk, next) = head(alloc, tokens, at)?;
    let (rst, ext, next) = stalls(alloc, tokens, next)?;
    let (all, next) = samples(alloc, tokens, next)?;
    let samples = List::new(all);
    let inputs = Inputs {
        name,
        clk,
        rst,
        ext,
        samples,
    };
    Ok((inputs, next))
}

// `module`, the name and the clock, up to the port after it.
fn head(alloc: Global, tokens: &Tokens<'_>, at: usize) -> Result<(Named, Named, usize), Fault>
    ensures { MatchResult result (λ x. Turns tokens.now (HEAD) [] (named x.1 ∷ named x.0 ∷ []) at x.2 0) (Ends tokens.now (HEAD) [] at) }
{
    let next = tokens.skip(&[Fixed::Word(Keyword::Module)], at)?;
    let input = [
        Fixed::Sign(Mark::OpenParenthesis),
        Fixed::Word(Keyword::Input),
    ];
    let (name, next) = tokens.name_before(alloc, &input, next)?;
    let input = [Fixed::Sign(Mark::Comma), Fixed::Word(Keyword::Input)];
    let (clk, next) = tokens.name_before(alloc, &input, wire(tokens, next))?;
    Ok((name, clk, wire(tokens, next)))
}

/// The outputs, up to the semicolon.
pub(crate) fn read_outputs(
    alloc: Global,
    tokens: &Tokens<'_>,
    at: usize,
) -> Result<(Outputs, usize), Fault>
    ensures { MatchResult result (λ x. Turns tokens.now (OUTPUTS) [] (port_value x.0.back ∷ port_value x.0.ue ∷ port_value x.0.full ∷ []) at x.1 0) (Ends tokens.now (OUTPUTS) [] at) }
{
    let comma = [Fixed::Sign(Mark::Comma)];
    let (full, next) = port_between(alloc, tokens, Keyword::Output, &comma, at)?;
    let (ue, next) = port_between(alloc, tokens, Keyword::Output, &comma, next)?;
    let end = [
        Fixed::Sign(Mark::CloseParenthesis),
        Fixed::Sign(Mark::Semicolon),
    ];
    let (back, next) = port_between(alloc, tokens, Keyword::Output, &end, next)?;
    Ok((Outputs { full, ue, back }, next))
}
