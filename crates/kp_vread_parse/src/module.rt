// Complete modules.
ghost use Rattle.std.specs.Prelude.{[], ◌∷◌, ◌++◌, MatchResult};
ghost use Rattle.kp_grammar.specs.{Grammar.Nonterminal, Machine.Accepts};
ghost use Rattle.kp_vlog.specs.Language.{MODULE, whole, named, perhaps_named, perhaps_reset, port as port_value, ports as ports_value, items as items_value, inits as inits_value, updates as updates_value};
ghost use Rattle.kp_vread_parse.specs.inner.Words.{INPUTS, OUTPUTS, LINES, STARTS, EDGE};
ghost use Rattle.kp_vread_parse.specs.inner.Reading.{Turns, Ends, ModuleGoes, FaultIs};

use crate::edges::body;
use crate::fault::Fault;
use crate::inits::inits;
use crate::items::items;
use crate::ports::{Inputs, Outputs, read_inputs, read_outputs};
use crate::tokens::{Fixed, Tokens};
use kp_base::List;
use kp_vlog::{Init, Item, Keyword, Mark, Named, ResetList, Update, VModule};
use std::alloc::Global;

// The block with the updates at the clock edge.
#[derive(Drop)]
struct Edge {
    clock: Named,
    reset: Option<ResetList>,
    updates: List<Update>,
}

// What follows the ports.
#[derive(Drop)]
struct Body {
    items: List<Item>,
    inits: List<Init>,
    edge: Edge,
}

/// The module of these tokens.
pub(crate) fn module(alloc: Global, tokens: &Tokens<'_>) -> Result<VModule, Fault>
    ensures { MatchResult result (λ m. ModuleGoes tokens.now (Accepts (whole m ∷ []))) (FaultIs tokens.now (ModuleGoes tokens.now)) }
{
    let (parsed, next) = read_module(alloc, tokens, 0)?;
    match tokens.nothing_follows(next) {
        Ok(()) => Ok(parsed),
        Err(fault) => {
            drop(parsed);
            Err(fault)
        }
    }
}

// The module, up to `endmodule`.
fn read_module(alloc: Global, tokens: &Tokens<'_>, at: usize) -> Result<(VModule, usize), Fault>
    ensures { MatchResult result (λ x. Turns tokens.now (Nonterminal MODULE ∷ []) [] (whole x.0 ∷ []) at x.1 0) (Ends tokens.now (Nonterminal MODULE ∷ []) [] at) }
{
    let (first, second, next) = read_ports(alloc, tokens, at)?;
    let (body, next) = read_body(alloc, tokens, next)?;
    let parsed = VModule {
        name: first.name,
        clk: first.clk,
        rst: first.rst,
        ext: first.ext,
        samples: first.samples,
        full: second.full,
        ue: second.ue,
        back: second.back,
        items: body.items,
        inits: body.inits,
        clock: body.edge.clock,
        reset: body.edge.reset,
        updates: body.edge.updates,
    };
    Ok((parsed, next))
}

// The name and the ports.
fn read_ports(
    alloc: Global,
    tokens: &Tokens<'_>,
    at: usize,
) -> Result<(Inputs, Outputs, usize), Fault>
    ensures { MatchResult result (λ x. Turns tokens.now (INPUTS ++ OUTPUTS) [] (port_value x.1.back ∷ port_value x.1.ue ∷ port_value x.1.full ∷ ports_value x.0.samples ∷ port_value x.0.ext ∷ perhaps_named x.0.rst ∷ named x.0.clk ∷ named x.0.name ∷ []) at x.2 0) (Ends tokens.now (INPUTS ++ OUTPUTS) [] at) }
{
    let (first, next) = read_inputs(alloc, tokens, at)?;
    let (second, next) = read_outputs(alloc, tokens, next)?;
    Ok((first, second, next))
}

// What follows the ports, up to the end.
fn read_body(alloc: Global, tokens: &Tokens<'_>, at: usize) -> Result<(Body, usize), Fault>
    ensures { MatchResult result (λ x. Turns tokens.now (LINES ++ EDGE) [] (updates_value x.0.edge.updates ∷ perhaps_reset x.0.edge.reset ∷ named x.0.edge.clock ∷ inits_value x.0.inits ∷ items_value x.0.items ∷ []) at x.1 0) (Ends tokens.now (LINES ++ EDGE) [] at) }
{
    let (items, inits, next) = lines(alloc, tokens, at)?;
    let (edge, next) = read_edge(alloc, tokens, next)?;
    let body = Body { items, inits, edge };
    Ok((body, next))
}

// The items, and the `initial` block.
fn lines(
    alloc: Global,
    tokens: &Tokens<'_>,
    at: usize,
) -> Result<(List<Item>, List<Init>, usize), Fault>
    ensures { MatchResult result (λ x. Turns tokens.now (LINES) [] (inits_value x.1 ∷ items_value x.0 ∷ []) at x.2 0) (Ends tokens.now (LINES) [] at) }
{
    let (all, next) = items(alloc, tokens, at)?;
    let items = List::new(all);
    let (starts, next) = read_inits(alloc, tokens, next)?;
    Ok((items, List::new(starts), next))
}

// The `initial` block, from this keyword to `end`.
fn read_inits(alloc: Global, tokens: &Tokens<'_>, at: usize) -> Result<(Vec<Init>, usize), Fault>
    ensures { MatchResult result (λ x. Turns tokens.now (STARTS) [] (inits_value x.0.items ∷ []) at x.1 0) (Ends tokens.now (STARTS) [] at) }
{
    let next = tokens.skip(
        &[Fixed::Word(Keyword::Initial), Fixed::Word(Keyword::Begin)],
        at,
    )?;
    let (starts, next) = inits(alloc, tokens, next)?;
    let next = tokens.skip(&[Fixed::Word(Keyword::End)], next)?;
    Ok((starts, next))
}

// The block with the updates at the clock edge, up to the end.
fn read_edge(alloc: Global, tokens: &Tokens<'_>, at: usize) -> Result<(Edge, usize), Fault>
    ensures { MatchResult result (λ x. Turns tokens.now (EDGE) [] (updates_value x.0.updates ∷ perhaps_reset x.0.reset ∷ named x.0.clock ∷ []) at x.1 0) (Ends tokens.now (EDGE) [] at) }
{
    let front = [
        Fixed::Word(Keyword::Always),
        Fixed::Sign(Mark::At),
        Fixed::Sign(Mark::OpenParenthesis),
        Fixed::Word(Keyword::Posedge),
    ];
    let next = tokens.skip(&front, at)?;
    let begin = [
        Fixed::Sign(Mark::CloseParenthesis),
        Fixed::Word(Keyword::Begin),
    ];
    let (clock, next) = tokens.name_before(alloc, &begin, next)?;
    let mut all = Vec::new(alloc);
    let (reset, next) = body(alloc, tokens, &mut all, next)?;
    let next = tokens.skip(
        &[Fixed::Word(Keyword::End), Fixed::Word(Keyword::Endmodule)],
        next,
    )?;
    let updates = List::new(all);
    let edge = Edge {
        clock,
        reset,
        updates,
    };
    Ok((edge, next))
}
