// The lines before `initial`.
ghost use Rattle.std.specs.Prelude.{◌≡◌, ◌==◌, [], ◌∷◌, MatchResult, true};
ghost use Rattle.kp_grammar.specs.{Grammar.Nonterminal, Tables.among};
ghost use Rattle.kp_vlog.specs.declared.token.Keyword.TheVariants as keywords;
ghost use Rattle.kp_vlog.specs.declared.token.Mark.TheVariants as marks;
ghost use Rattle.kp_vlog.specs.Language.{keyword_class, mark_class, ITEMS, ITEM, DECLARED, named, range as range_value, item as item_value, items as items_value};
ghost use Rattle.kp_vread_parse.specs.inner.Words.{item_words, ASSIGNMENT};
ghost use Rattle.kp_vread_parse.specs.inner.Reading.{class_at, Turns, Ends};

use crate::fault::Fault;
use crate::ports::range;
use crate::rights::right;
use crate::tokens::{Fixed, Tokens};
use kp_vlog::{Item, Keyword, Mark, Named, Range};
use std::alloc::Global;

/// The items, up to `initial`.
pub(crate) fn items(
    alloc: Global,
    tokens: &Tokens<'_>,
    at: usize,
) -> Result<(Vec<Item>, usize), Fault>
    ensures { MatchResult result (λ x. Turns tokens.now (Nonterminal ITEMS ∷ []) (items_value [] ∷ []) (items_value x.0.items ∷ []) at x.1 0) (Ends tokens.now (Nonterminal ITEMS ∷ []) (items_value [] ∷ []) at) }
{
    let mut all = Vec::new(alloc);
    let mut here = at;
    'all: while begins_item(tokens, here) {
        let (one, next) = item(alloc, tokens, here)?;
        all.push(one)?;
        here = next;
    }
    Ok((all, here))
}

// One item.
fn item(alloc: Global, tokens: &Tokens<'_>, at: usize) -> Result<(Item, usize), Fault>
    ensures { MatchResult result (λ x. Turns tokens.now (Nonterminal ITEM ∷ []) [] (item_value x.0 ∷ []) at x.1 1) (Ends tokens.now (Nonterminal ITEM ∷ []) [] at) }
{
    if tokens.is(Fixed::Word(Keyword::Reg), at) {
        return memory(alloc, tokens, at);
    }
    if tokens.is(Fixed::Word(Keyword::Integer), at) {
        return integer(alloc, tokens, at);
    }
    if tokens.is(Fixed::Word(Keyword::Wire), at) {
        return wire(alloc, tokens, at);
    }
    assignment(alloc, tokens, at)
}

// An assignment.
fn assignment(alloc: Global, tokens: &Tokens<'_>, at: usize) -> Result<(Item, usize), Fault>
    ensures { MatchResult result (λ x. Turns tokens.now (ASSIGNMENT) [] (item_value x.0 ∷ []) at x.1 1) (Ends tokens.now (ASSIGNMENT) [] at) }
{
    let next = tokens.skip(&[Fixed::Word(Keyword::Assign)], at)?;
    let (target, next) = tokens.name_before(alloc, &[Fixed::Sign(Mark::Equals)], next)?;
    let (right, next) = right(alloc, tokens, next)?;
    let item = Item::Assign(target, right);
    match tokens.skip(&[Fixed::Sign(Mark::Semicolon)], next) {
        Ok(next) => Ok((item, next)),
        Err(fault) => {
            drop(item);
            Err(fault)
        }
    }
}

// A register or a file.
fn memory(alloc: Global, tokens: &Tokens<'_>, at: usize) -> Result<(Item, usize), Fault>
    requires { true ≡ (class_at tokens.now at == keyword_class keywords.Reg) }
    ensures { MatchResult result (λ x. Turns tokens.now (Nonterminal ITEM ∷ []) [] (item_value x.0 ∷ []) at x.1 1) (Ends tokens.now (Nonterminal ITEM ∷ []) [] at) }
{
    let next = tokens.skip(&[Fixed::Word(Keyword::Reg)], at)?;
    let (range, next) = range(tokens, next)?;
    let (name, next) = tokens.name(alloc, next)?;
    declared(tokens, range, name, next)
}

// What follows the name of a register or a file.
fn declared(
    tokens: &Tokens<'_>,
    range: Range,
    name: Named,
    at: usize,
) -> Result<(Item, usize), Fault>
    ensures { MatchResult result (λ x. Turns tokens.now (Nonterminal DECLARED ∷ []) (named name ∷ range_value range ∷ []) (item_value x.0 ∷ []) at x.1 0) (Ends tokens.now (Nonterminal DECLARED ∷ []) (named name ∷ range_value range ∷ []) at) }
{
    if tokens.is(Fixed::Sign(Mark::OpenBracket), at) {
        return file(tokens, range, name, at);
    }
    let next = tokens.skip(&[Fixed::Sign(Mark::Semicolon)], at)?;
    Ok((Item::Reg(range, name), next))
}

// The range of the words of a file.
fn file(tokens: &Tokens<'_>, bits: Range, name: Named, at: usize) -> Result<(Item, usize), Fault>
    requires { true ≡ (class_at tokens.now at == mark_class marks.OpenBracket) }
    ensures { MatchResult result (λ x. Turns tokens.now (Nonterminal DECLARED ∷ []) (named name ∷ range_value bits ∷ []) (item_value x.0 ∷ []) at x.1 0) (Ends tokens.now (Nonterminal DECLARED ∷ []) (named name ∷ range_value bits ∷ []) at) }
{
    let (words, next) = range(tokens, at)?;
    let next = tokens.skip(&[Fixed::Sign(Mark::Semicolon)], next)?;
    Ok((Item::File(bits, name, words), next))
}

// The counter of a loop.
fn integer(alloc: Global, tokens: &Tokens<'_>, at: usize) -> Result<(Item, usize), Fault>
    requires { true ≡ (class_at tokens.now at == keyword_class keywords.Integer) }
    ensures { MatchResult result (λ x. Turns tokens.now (Nonterminal ITEM ∷ []) [] (item_value x.0 ∷ []) at x.1 1) (Ends tokens.now (Nonterminal ITEM ∷ []) [] at) }
{
    let next = tokens.skip(&[Fixed::Word(Keyword::Integer)], at)?;
    let (name, next) = tokens.name_before(alloc, &[Fixed::Sign(Mark::Semicolon)], next)?;
    Ok((Item::Integer(name), next))
}

// A wire.
fn wire(alloc: Global, tokens: &Tokens<'_>, at: usize) -> Result<(Item, usize), Fault>
    requires { true ≡ (class_at tokens.now at == keyword_class keywords.Wire) }
    ensures { MatchResult result (λ x. Turns tokens.now (Nonterminal ITEM ∷ []) [] (item_value x.0 ∷ []) at x.1 1) (Ends tokens.now (Nonterminal ITEM ∷ []) [] at) }
{
    let next = tokens.skip(&[Fixed::Word(Keyword::Wire)], at)?;
    let (range, next) = range(tokens, next)?;
    let (name, next) = tokens.name_before(alloc, &[Fixed::Sign(Mark::Semicolon)], next)?;
    Ok((Item::Wire(range, name), next))
}

fn begins_item(tokens: &Tokens<'_>, at: usize) -> bool
    ensures { result ≡ among (class_at tokens.now at) item_words }
{
    tokens.is(Fixed::Word(Keyword::Reg), at)
        || tokens.is(Fixed::Word(Keyword::Integer), at)
        || tokens.is(Fixed::Word(Keyword::Wire), at)
        || tokens.is(Fixed::Word(Keyword::Assign), at)
}
