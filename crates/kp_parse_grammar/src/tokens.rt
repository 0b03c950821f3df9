// The tokens of a text, as the parser reads them.
ghost use Rattle.std.specs.Prelude.{◌≡◌, ◌==◌, ◌+◌, ℕ, [], ◌∷◌, drop, true, false, MatchOption, MatchResult, IfSome, All};
ghost use Rattle.kp_ast.specs.Name.{IsName};
ghost use Rattle.kp_lex.specs.declared.token.TokenKind.TheVariants as kinds;
ghost use Rattle.kp_parse_grammar.specs.Tokens.{kind_class, keyword_class, mark_class, IDENTIFIER, NUMBER, IsSpelled, lexemes};
ghost use Rattle.kp_parse_grammar.specs.Language.{NAME, NUM, LIT, named, number as number_value, literal as literal_value};
ghost use Rattle.kp_parse_grammar.specs.Reading.{class_at, class_of, Finds, Misses, Follows, Turns, Ends};
ghost use Rattle.kp_grammar.specs.Tables.{END_OF_TEXT};

use crate::fault::Fault;
use kp_ast::{Lit, Name, Named, Num};
use kp_base::Place;
use kp_lex::{Keyword, Mark, Token, TokenKind};
use std::alloc::Global;
use std::marker::Model;

/// The tokens of a text, with the text. Tokens are numbered from 0. A call that reads the token `at` fails with
/// `Fault::Wrong(at)` if that is another one, or if the text has ended.
#[derive(Drop)]
pub struct Tokens<'t> {
    text: &'t [u8],
    all: &'t [Token],
}

impl<'t> Model for Tokens<'t> {
    ghost use Rattle.std.specs.Prelude.{List, All};
    ghost use Rattle.kp_parse_grammar.specs.Tokens.{Lexeme, lexemes, IsSpelled};

    ghost Value = { List Lexeme };

    ghost view = { λ t. lexemes t.text.now t.all.now };

    ghost invariant = { λ t. All (IsSpelled t.text.now) t.all.now };
}

/// A token and its bytes.
#[derive(Clone, Copy)]
struct Spelled<'t> {
    kind: TokenKind,
    place: Place,
    bytes: &'t [u8],
}

impl<'t> Tokens<'t> {
    /// These tokens of a text.
    pub fn new(text: &'t [u8], all: &'t [Token]) -> Tokens<'t>
        requires { All (IsSpelled text.now) all.now }
        ensures { result ≡ lexemes text.now all.now }
    {
        Tokens { text, all }
    }

    /// Fails with `Fault::Wrong(at)` unless the text ends here.
    pub fn nothing_follows(&self, at: usize) -> Result<(), Fault>
        ensures { MatchResult result (λ _. drop at self.now ≡ []) (Follows self.now at) }
    {
        match self.token(at) {
            Some(_) => Err(Fault::Wrong(at)),
            None => Ok(()),
        }
    }

    // A token with its bytes, and the number of the next one; `None` from the end of the text on. Most callers compare the kind alone, so a call costs more
    // than its body.
    #[inline(always)]
    fn token(&self, at: usize) -> Option<(Spelled<'t>, usize)>
        ensures token { MatchOption result (drop at self.now ≡ [])
            (λ x. drop at self.now ≡ record { kind = x.0.kind; place = x.0.place; bytes = x.0.bytes.now } ∷ drop x.1 self.now) }
        ensures name { IfSome result (λ x. x.0.kind ≡ kinds.Ident → IsName x.0.bytes.now) }
    {
        let token = self.all.get(at)?;
        let start = token.start as usize;
        let end = start + token.len as usize;
        let spelled = Spelled {
            kind: token.kind,
            place: token.place,
            bytes: &self.text[start..end],
        };
        Some((spelled, at + 1))
    }

    /// The kind of the token; `None` from the end of the text on.
    pub fn kind(&self, at: usize) -> Option<TokenKind>
        ensures { class_of result ≡ class_at self.now at }
    {
        let (token, _next) = self.token(at)?;
        Some(token.kind)
    }

    /// Whether the token is this keyword.
    pub fn is_keyword(&self, keyword: Keyword, at: usize) -> bool
        ensures { result ≡ (class_at self.now at == keyword_class keyword) }
    {
        match self.token(at) {
            Some((token, _)) => is_this_keyword(token.kind, keyword),
            None => false,
        }
    }

    /// Whether the token is this punctuator.
    pub fn is_mark(&self, mark: Mark, at: usize) -> bool
        ensures { result ≡ (class_at self.now at == mark_class mark) }
    {
        match self.token(at) {
            Some((token, _)) => is_this_mark(token.kind, mark),
            None => false,
        }
    }

    /// Whether the token is a name.
    pub fn is_name(&self, at: usize) -> bool
        ensures { result ≡ (class_at self.now at == IDENTIFIER) }
    {
        match self.token(at) {
            Some((token, _)) => is_identifier(token.kind),
            None => false,
        }
    }

    /// Whether the token is a number.
    pub fn is_number(&self, at: usize) -> bool
        ensures { result ≡ (class_at self.now at == NUMBER) }
    {
        match self.token(at) {
            Some((token, _)) => is_number(token.kind),
            None => false,
        }
    }

    /// The position of this token, and the number of the next one, where the text has not ended.
    pub fn taken(&self, at: usize) -> (Place, usize)
        requires { false ≡ (class_at self.now at == END_OF_TEXT) }
        ensures { (class : ℕ) → true ≡ (class_at self.now at == class) → Finds self.now class result.0 at result.1 }
    {
        let Some((token, next)) = self.token(at) else {
            unreachable!()
        };
        (token.place, next)
    }

    /// The position of this keyword, and the number of the next token, if the token is this keyword.
    pub fn next_keyword(&self, keyword: Keyword, at: usize) -> Option<(Place, usize)>
        ensures { MatchOption result (false ≡ (class_at self.now at == keyword_class keyword)) (λ x. Finds self.now (keyword_class keyword) x.0 at x.1) }
    {
        let (token, next) = self.token(at)?;
        if !is_this_keyword(token.kind, keyword) {
            return None;
        }
        Some((token.place, next))
    }

    /// The position of this punctuator, and the number of the next token, if the token is this punctuator.
    pub fn next_mark(&self, mark: Mark, at: usize) -> Option<(Place, usize)>
        ensures { MatchOption result (false ≡ (class_at self.now at == mark_class mark)) (λ x. Finds self.now (mark_class mark) x.0 at x.1) }
    {
        let (token, next) = self.token(at)?;
        if !is_this_mark(token.kind, mark) {
            return None;
        }
        Some((token.place, next))
    }

    /// The position of this keyword, and the number of the next token.
    pub fn keyword(&self, keyword: Keyword, at: usize) -> Result<(Place, usize), Fault>
        ensures { MatchResult result (λ x. Finds self.now (keyword_class keyword) x.0 at x.1) (Misses self.now (keyword_class keyword) at) }
    {
        match self.next_keyword(keyword, at) {
            Some(found) => Ok(found),
            None => Err(Fault::Wrong(at)),
        }
    }

    /// The position of this punctuator, and the number of the next token.
    pub fn mark(&self, mark: Mark, at: usize) -> Result<(Place, usize), Fault>
        ensures { MatchResult result (λ x. Finds self.now (mark_class mark) x.0 at x.1) (Misses self.now (mark_class mark) at) }
    {
        match self.next_mark(mark, at) {
            Some(found) => Ok(found),
            None => Err(Fault::Wrong(at)),
        }
    }

    /// A name, and the number of the next token.
    pub fn name(&self, alloc: Global, at: usize) -> Result<(Named, usize), Fault>
        ensures { MatchResult result (λ x. Turns self.now NAME [] (named x.0 ∷ []) at x.1 1) (Ends self.now NAME [] at) }
    {
        let Some((token, next)) = self.token(at) else {
            return Err(Fault::Wrong(at));
        };
        if !is_identifier(token.kind) {
            return Err(Fault::Wrong(at));
        }
        let name = Name::new(alloc, token.bytes)?;
        let at = token.place;
        Ok((Named { name, at }, next))
    }

    /// A number, and the number of the next token.
    pub fn number(&self, at: usize) -> Result<(Num, usize), Fault>
        ensures { MatchResult result (λ x. Turns self.now NUM [] (number_value x.0 ∷ []) at x.1 1) (Ends self.now NUM [] at) }
    {
        let Some((token, next)) = self.token(at) else {
            return Err(Fault::Wrong(at));
        };
        let TokenKind::Number(value) = token.kind else {
            return Err(Fault::Wrong(at));
        };
        let at = token.place;
        Ok((Num { value, at }, next))
    }

    /// A literal, and the number of the next token.
    pub fn literal(&self, at: usize) -> Result<(Lit, usize), Fault>
        ensures { MatchResult result (λ x. Turns self.now LIT [] (literal_value x.0 ∷ []) at x.1 1) (Ends self.now LIT [] at) }
    {
        let Some((token, next)) = self.token(at) else {
            return Err(Fault::Wrong(at));
        };
        let TokenKind::Literal(literal) = token.kind else {
            return Err(Fault::Wrong(at));
        };
        let at = token.place;
        Ok((Lit { literal, at }, next))
    }
}

fn is_this_keyword(kind: TokenKind, keyword: Keyword) -> bool
    ensures { result ≡ (kind_class kind == keyword_class keyword) }
{
    match kind {
        TokenKind::Keyword(k) => k == keyword,
        _ => false,
    }
}

fn is_this_mark(kind: TokenKind, mark: Mark) -> bool
    ensures { result ≡ (kind_class kind == mark_class mark) }
{
    match kind {
        TokenKind::Mark(m) => m == mark,
        _ => false,
    }
}

fn is_identifier(kind: TokenKind) -> bool
    ensures { result ≡ (kind_class kind == IDENTIFIER) }
{
    matches!(kind, TokenKind::Ident)
}

fn is_number(kind: TokenKind) -> bool
    ensures { result ≡ (kind_class kind == NUMBER) }
{
    matches!(kind, TokenKind::Number(_))
}
