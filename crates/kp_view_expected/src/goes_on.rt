// The classes of tokens with which some description goes on.
ghost use Rattle.std.specs.Prelude.{◌↔◌, ◌≡◌, ℕ, List, map, IfOk};
ghost use Rattle.kp_parse_grammar.specs.Tokens.{Lexeme, lexemes};
ghost use Rattle.kp_view_expected.specs.GoesOn.{class_of, GoesOn, Lists};

use crate::part::Part;
use crate::set::Expected;
use crate::token_class::TokenClass;
use kp_base::NoMemory;
use kp_lex::Token;
use std::alloc::Global;

/// The classes of tokens with which some description goes on after these tokens of a text: none, where no description begins with them.
pub fn expected(alloc: Global, front: &[Token]) -> Result<Expected, NoMemory>
    // A token is of a listed class exactly where some description begins with these tokens and this one.
    ensures { IfOk result (λ e. (text : List ℕ) (t : Lexeme) → Lists e (class_of t.kind) ↔ GoesOn (lexemes text front.now) t) }
{
    let classes = classes_of(alloc, front)?;
    let mut listed = [false; 53];
    kp_expected::expected(
        alloc,
        Part::Job,
        classes.as_slice(),
        TokenClass::all(),
        &mut listed,
    )?;
    Ok(Expected { listed })
}

fn classes_of(alloc: Global, tokens: &[Token]) -> Result<Vec<TokenClass>, NoMemory>
    ensures { IfOk result (λ classes. classes.items ≡ map (λ t. class_of t.kind) tokens.now) }
{
    let mut classes = Vec::new(alloc);
    for token in tokens {
        classes.push(TokenClass::of(token.kind))?;
    }
    Ok(classes)
}
