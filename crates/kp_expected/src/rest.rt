// What can follow, by the symbols that are still to come.
ghost use Rattle.std.specs.Prelude.{◌≡◌, ◌↔◌, ◌++◌, ◌∷◌, [], map, reverse, option_map, true, false, length, IfOk, OnOk, MatchOption};
ghost use Rattle.kp_grammar.specs.{Grammar.Nonterminal, Tables.among, Tables.pick};
ghost use Rattle.kp_expected.specs.{Plain.plain_symbol, Plain.plain, Plain.stack, GoesOn.GoesOn, GoesOn.AreAnswers, Starts.starts, Starts.begins_with};
ghost use Rattle.kp_expected.specs.{inner.Steps.Decides, Readable.IsReadable, Readable.IsReadableName};

use crate::class::{Class, Part, Symbol};
use kp_base::NoMemory;
use std::alloc::Global;

/// Writes for each of these classes whether it can follow tokens of the classes `front`: whether some sentence of the name goes on with it. The only error is
/// out of memory.
pub fn expected<C: Class, P: Part<C>>(
    alloc: Global,
    start: P,
    front: &[C],
    classes: &[C],
    answers: &mut [bool],
) -> Result<(), NoMemory>
    requires readable { IsReadableName C.number P.rules P.tables P.ranks (P.name start) }
    requires as_many { length answers.old ≡ length classes.now }
    ensures exact { OnOk result (AreAnswers (GoesOn (plain C.number P.rules) (P.name start) tt front.now) classes.now answers.new) }
    ensures as_many { length answers.new ≡ length answers.old }
{
    let rest = after(alloc, start, front)?;
    for (i, class) in classes.iter().enumerate() {
        answers[i] = can_follow(&rest, *class);
    }
    Ok(())
}

// Whether a class can follow, for what is still to come, if anything is.
fn can_follow<C: Class, P: Part<C>>(rest: &Option<Rest<C, P>>, class: C) -> bool
    ensures { MatchOption rest.now (result ≡ false) (λ r. result ≡ starts P.tables (stack C.number P.name r.symbols.items) (C.number class)) }
{
    match rest {
        Some(rest) => rest.begins(class),
        None => false,
    }
}

// The symbols that are still to come, the next one last.
#[derive(Drop)]
struct Rest<C, P> {
    symbols: Vec<Symbol<C, P>>,
}

// What is still to come after tokens of these classes: none, where no sentence begins with them.
fn after<C: Class, P: Part<C>>(
    alloc: Global,
    start: P,
    front: &[C],
) -> Result<Option<Rest<C, P>>, NoMemory>
    requires { IsReadableName C.number P.rules P.tables P.ranks (P.name start) }
    // Some sentence goes on with a class exactly where what is still to come begins with it.
    ensures { IfOk result (λ r. (c : C) → MatchOption r (GoesOn (plain C.number P.rules) (P.name start) tt front.now c → ⊥) (λ rest. (starts P.tables (stack C.number P.name rest.symbols.items) (C.number c) ≡ true) ↔ GoesOn (plain C.number P.rules) (P.name start) tt front.now c)) }
{
    let mut rest = Rest::new(alloc, start)?;
    for class in front {
        if !rest.read(*class)? {
            return Ok(None);
        }
    }
    Ok(Some(rest))
}

impl<C: Class, P: Part<C>> Rest<C, P> {
    // A whole sentence of a name.
    fn new(alloc: Global, start: P) -> Result<Rest<C, P>, NoMemory>
        ensures { IfOk result (λ r. stack C.number P.name r.symbols.items ≡ Nonterminal (P.name start) ∷ []) }
    {
        let mut symbols = Vec::new(alloc);
        symbols.push(Symbol::Inner(start))?;
        Ok(Rest { symbols })
    }

    // Reads a token of the class; returns false where none can follow.
    fn read(&mut self, class: C) -> Result<bool, NoMemory>
        requires { IsReadable C.number P.rules P.tables P.ranks }
        ensures { IfOk result (λ b. Decides C.number P.rules P.tables b (stack C.number P.name self.old.symbols.items) class (stack C.number P.name self.new.symbols.items)) }
    {
        'parts: while let Some(symbol) = self.symbols.pop() {
            match symbol {
                Symbol::Token(wanted) => return Ok(wanted.is(class)),
                Symbol::Inner(part) => match body(part, class) {
                    Some(body) => self.push(body)?,
                    None => return Ok(false),
                },
            }
        }
        Ok(false)
    }

    // Puts the symbols before those that are still to come.
    fn push(&mut self, body: &[Symbol<C, P>]) -> Result<(), NoMemory>
        ensures { OnOk result (self.new.symbols.items ≡ self.old.symbols.items ++ reverse body.now) }
    {
        self.symbols.extend(body.iter().rev().copied())?;
        Ok(())
    }

    // Whether what is still to come begins with a token of the class.
    fn begins(&self, class: C) -> bool
        ensures { result ≡ starts P.tables (stack C.number P.name self.now.symbols.items) (C.number class) }
    {
        let symbols = self.symbols.as_slice();
        let mut answer = false;
        for symbol in symbols {
            answer = begins_with(*symbol, class, answer);
        }
        answer
    }
}

// Whether a list of symbols begins with a token of the class, for its first symbol and whether the others do.
fn begins_with<C: Class, P: Part<C>>(symbol: Symbol<C, P>, class: C, others: bool) -> bool
    ensures { result ≡ begins_with P.tables (plain_symbol C.number P.name symbol) (C.number class) others }
{
    match symbol {
        Symbol::Token(wanted) => wanted.is(class),
        Symbol::Inner(part) => {
            let rule = part.rule();
            is_among(rule.first, class) || rule.is_nullable && others
        }
    }
}

// The alternative of a name for the class of the next token: the first that begins with it, else the last one.
fn body<C: Class, P: Part<C>>(part: P, class: C) -> Option<&'static [Symbol<C, P>]>
    ensures { option_map (λ b. map (plain_symbol C.number P.name) b.now) result ≡ pick P.rules P.tables (P.name part) (C.number class) }
{
    let all = part.rule().alternatives;
    let mut chosen: Option<&'static [Symbol<C, P>]> = None;
    for one in all {
        chosen = Some(*one);
        if begins(*one, class) {
            return chosen;
        }
    }
    chosen
}

// Whether an alternative begins with a token of the class.
fn begins<C: Class, P: Part<C>>(symbols: &[Symbol<C, P>], class: C) -> bool
    ensures { result ≡ starts P.tables (map (plain_symbol C.number P.name) symbols.now) (C.number class) }
{
    match symbols {
        [] => false,
        [Symbol::Token(wanted), ..] => wanted.is(class),
        [Symbol::Inner(part), others @ ..] => {
            let rule = part.rule();
            is_among(rule.first, class) || (rule.is_nullable && begins(others, class))
        }
    }
}

fn is_among<C: Class>(classes: &[C], class: C) -> bool
    ensures { result ≡ among (C.number class) (map C.number classes.now) }
{
    for each in classes {
        if each.is(class) {
            return true;
        }
    }
    false
}
