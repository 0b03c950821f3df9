// The tokens of a text, as the parser reads them.
ghost use Rattle.std.specs.Prelude.{◌≡◌, ◌==◌, ◌+◌, ◌≤◌, [], ◌∷◌, drop, length, map, true, false, MatchOption, MatchResult, IfSome, All};
ghost use Rattle.kp_vlog.specs.declared.token.VKind.TheVariants as kinds;
ghost use Rattle.kp_vlog.specs.Outcome.{token_of, word_of};
ghost use Rattle.kp_vlog.specs.Language.{word_class, keyword_class, mark_class, IDENTIFIER, NUMBER, LITERAL, ID, NUM, LIT, named, number as number_value, literal as literal_value};
ghost use Rattle.kp_vread_parse.specs.inner.Spelled.{IsSpelled};
ghost use Rattle.kp_vread_parse.specs.inner.Words.{class_of, symbol, operator_classes};
ghost use Rattle.kp_vlog.specs.Words.{operator_mark};
ghost use Rattle.kp_grammar.specs.Tables.{among};
ghost use Rattle.kp_vread_parse.specs.inner.Reading.{class_at, Follows, Turns, Ends};

use crate::fault::Fault;
use kp_bits::BinOp;
use kp_net::Label;
use kp_vlog::{Keyword, Lit, Mark, Named, Num, VKind, VToken};
use std::alloc::Global;
use std::marker::Model;

/// The tokens of a text, with the text. Tokens are numbered from 0.
#[derive(Drop)]
pub(crate) struct Tokens<'t> {
    text: &'t [u8],
    all: &'t [VToken],
}

impl<'t> Model for Tokens<'t> {
    ghost use Rattle.std.specs.Prelude.{List, All, map};
    ghost use Rattle.kp_vlog.specs.Tokens.{Token};
    ghost use Rattle.kp_vlog.specs.Outcome.{token_of};
    ghost use Rattle.kp_vread_parse.specs.inner.Spelled.{IsSpelled};

    ghost Value = { List Token };

    ghost view = { λ t. map (token_of t.text.now) t.all.now };

    ghost invariant = { λ t. All (IsSpelled t.text.now) t.all.now };
}

/// A token without a value: a keyword or a punctuator.
#[derive(Clone, Copy)]
pub(crate) enum Fixed {
    Word(Keyword),
    Sign(Mark),
}

impl Fixed {
    // Whether a token of this kind is this one.
    fn is(self, kind: VKind) -> bool
        ensures { result ≡ (word_class (word_of [] kind) == class_of self) }
    {
        match self {
            Fixed::Word(keyword) => is_this_keyword(kind, keyword),
            Fixed::Sign(mark) => is_this_mark(kind, mark),
        }
    }
}

/// A token and its bytes.
#[derive(Clone, Copy)]
struct Spelled<'t> {
    kind: VKind,
    at: u32,
    bytes: &'t [u8],
}

impl<'t> Tokens<'t> {
    /// These tokens of a text.
    pub(crate) fn new(text: &'t [u8], all: &'t [VToken]) -> Tokens<'t>
        requires { All (IsSpelled text.now) all.now }
        ensures { result ≡ map (token_of text.now) all.now }
    {
        Tokens { text, all }
    }

    /// Whether the text ends here.
    pub(crate) fn nothing_follows(&self, at: usize) -> Result<(), Fault>
        ensures { MatchResult result (λ _. drop at self.now ≡ []) (Follows self.now at) }
    {
        match self.token(at) {
            Some(_) => Err(Fault::Wrong(at)),
            None => Ok(()),
        }
    }

    // A token with its bytes, and the number of the next one; `None` from the end of the text on.
    fn token(&self, at: usize) -> Option<(Spelled<'t>, usize)>
        ensures token { MatchOption result (drop at self.now ≡ [])
            (λ x. drop at self.now ≡ record { word = word_of x.0.bytes.now x.0.kind; at = x.0.at } ∷ drop x.1 self.now) }
        ensures name { IfSome result (λ x. x.0.kind ≡ kinds.Ident → (1 ≤ length x.0.bytes.now) × (length x.0.bytes.now ≤ 70)) }
    {
        let token = self.all.get(at)?;
        let start = token.start as usize;
        let end = start + token.len as usize;
        let spelled = Spelled {
            kind: token.kind,
            at: token.start,
            bytes: &self.text[start..end],
        };
        Some((spelled, at + 1))
    }

    // The kind of a token; `None` from the end of the text on.
    fn kind(&self, at: usize) -> Option<VKind>
        ensures { MatchOption result (class_at self.now at ≡ 0) (λ k. class_at self.now at ≡ word_class (word_of [] k)) }
    {
        match self.token(at) {
            Some((token, _)) => Some(token.kind),
            None => None,
        }
    }

    /// The number of the next token, if the token is this one.
    pub(crate) fn after(&self, fixed: Fixed, at: usize) -> Option<usize>
        ensures { MatchOption result (false ≡ (class_at self.now at == class_of fixed))
            (λ next. (true ≡ (class_at self.now at == class_of fixed)) × Turns self.now (symbol fixed ∷ []) [] [] at next 1) }
    {
        let Some((token, next)) = self.token(at) else {
            return None;
        };
        if !fixed.is(token.kind) {
            return None;
        }
        Some(next)
    }

    /// Whether the token is this one.
    pub(crate) fn is(&self, fixed: Fixed, at: usize) -> bool
        ensures { result ≡ (class_at self.now at == class_of fixed) }
    {
        match self.kind(at) {
            Some(kind) => fixed.is(kind),
            None => false,
        }
    }

    /// Whether the token is a name.
    pub(crate) fn is_name(&self, at: usize) -> bool
        ensures { result ≡ (class_at self.now at == IDENTIFIER) }
    {
        match self.kind(at) {
            Some(kind) => is_identifier(kind),
            None => false,
        }
    }

    /// Whether the token is a number.
    pub(crate) fn is_number(&self, at: usize) -> bool
        ensures { result ≡ (class_at self.now at == NUMBER) }
    {
        match self.kind(at) {
            Some(kind) => is_number(kind),
            None => false,
        }
    }

    /// Whether the token is a literal.
    pub(crate) fn is_literal(&self, at: usize) -> bool
        ensures { result ≡ (class_at self.now at == LITERAL) }
    {
        match self.kind(at) {
            Some(kind) => is_literal(kind),
            None => false,
        }
    }

    /// The operator at this token, if it is one.
    pub(crate) fn operator_at(&self, at: usize) -> Option<BinOp>
        ensures { MatchOption result (among (class_at self.now at) operator_classes ≡ false) (λ op. class_at self.now at ≡ mark_class (operator_mark op)) }
    {
        match self.kind(at) {
            Some(VKind::Mark(mark)) => operator(mark),
            _ => None,
        }
    }

    /// Reads these tokens, and returns the number of the next one.
    pub(crate) fn skip(&self, given: &[Fixed], at: usize) -> Result<usize, Fault>
        ensures { MatchResult result (λ next. Turns self.now (map symbol given.now) [] [] at next 0) (Ends self.now (map symbol given.now) [] at) }
    {
        let mut here = at;
        for fixed in given {
            let Some(next) = self.after(*fixed, here) else {
                return Err(Fault::Wrong(here));
            };
            here = next;
        }
        Ok(here)
    }

    /// A name, and the number of the next token.
    pub(crate) fn name(&self, alloc: Global, at: usize) -> Result<(Named, usize), Fault>
        ensures { MatchResult result (λ x. Turns self.now (ID ∷ []) [] (named x.0 ∷ []) at x.1 1) (Ends self.now (ID ∷ []) [] at) }
    {
        let Some((token, next)) = self.token(at) else {
            return Err(Fault::Wrong(at));
        };
        let VKind::Ident = token.kind else {
            return Err(Fault::Wrong(at));
        };
        let name = Label::new(alloc, token.bytes)?;
        let at = token.at;
        Ok((Named { name, at }, next))
    }

    /// A name followed by these tokens, and the number of the next token.
    pub(crate) fn name_before(
        &self,
        alloc: Global,
        given: &[Fixed],
        at: usize,
    ) -> Result<(Named, usize), Fault>
        ensures { MatchResult result (λ x. Turns self.now (ID ∷ map symbol given.now) [] (named x.0 ∷ []) at x.1 1) (Ends self.now (ID ∷ map symbol given.now) [] at) }
    {
        let (name, next) = self.name(alloc, at)?;
        let next = self.skip(given, next)?;
        Ok((name, next))
    }

    /// A number followed by these tokens, and the number of the next token.
    pub(crate) fn number_before(&self, given: &[Fixed], at: usize) -> Result<(Num, usize), Fault>
        ensures { MatchResult result (λ x. Turns self.now (NUM ∷ map symbol given.now) [] (number_value x.0 ∷ []) at x.1 1) (Ends self.now (NUM ∷ map symbol given.now) [] at) }
    {
        let (number, next) = self.number(at)?;
        let next = self.skip(given, next)?;
        Ok((number, next))
    }

    // A number, and the number of the next token.
    fn number(&self, at: usize) -> Result<(Num, usize), Fault>
        ensures { MatchResult result (λ x. Turns self.now (NUM ∷ []) [] (number_value x.0 ∷ []) at x.1 1) (Ends self.now (NUM ∷ []) [] at) }
    {
        let Some((token, next)) = self.token(at) else {
            return Err(Fault::Wrong(at));
        };
        let VKind::Number(value) = token.kind else {
            return Err(Fault::Wrong(at));
        };
        let at = token.at;
        Ok((Num { value, at }, next))
    }

    /// A literal, and the number of the next token.
    pub(crate) fn literal(&self, at: usize) -> Result<(Lit, usize), Fault>
        ensures { MatchResult result (λ x. Turns self.now (LIT ∷ []) [] (literal_value x.0 ∷ []) at x.1 1) (Ends self.now (LIT ∷ []) [] at) }
    {
        let Some((token, next)) = self.token(at) else {
            return Err(Fault::Wrong(at));
        };
        let VKind::Literal(literal) = token.kind else {
            return Err(Fault::Wrong(at));
        };
        let at = token.at;
        Ok((Lit { literal, at }, next))
    }

    /// A literal followed by these tokens, and the number of the next token.
    pub(crate) fn literal_before(&self, given: &[Fixed], at: usize) -> Result<(Lit, usize), Fault>
        ensures { MatchResult result (λ x. Turns self.now (LIT ∷ map symbol given.now) [] (literal_value x.0 ∷ []) at x.1 1) (Ends self.now (LIT ∷ map symbol given.now) [] at) }
    {
        let (literal, next) = self.literal(at)?;
        let next = self.skip(given, next)?;
        Ok((literal, next))
    }
}

fn is_this_keyword(kind: VKind, keyword: Keyword) -> bool
    ensures { result ≡ (word_class (word_of [] kind) == keyword_class keyword) }
{
    match kind {
        VKind::Keyword(k) => k == keyword,
        _ => false,
    }
}

fn is_this_mark(kind: VKind, mark: Mark) -> bool
    ensures { result ≡ (word_class (word_of [] kind) == mark_class mark) }
{
    match kind {
        VKind::Mark(m) => m == mark,
        _ => false,
    }
}

fn is_identifier(kind: VKind) -> bool
    ensures { result ≡ (word_class (word_of [] kind) == IDENTIFIER) }
{
    matches!(kind, VKind::Ident)
}

fn is_number(kind: VKind) -> bool
    ensures { result ≡ (word_class (word_of [] kind) == NUMBER) }
{
    matches!(kind, VKind::Number(_))
}

fn is_literal(kind: VKind) -> bool
    ensures { result ≡ (word_class (word_of [] kind) == LITERAL) }
{
    matches!(kind, VKind::Literal(_))
}

// The operator of this punctuator, if it has one.
fn operator(sign: Mark) -> Option<BinOp>
    ensures { MatchOption result (among (mark_class sign) operator_classes ≡ false) (λ op. mark_class sign ≡ mark_class (operator_mark op)) }
{
    match sign {
        Mark::Ampersand => Some(BinOp::And),
        Mark::Bar => Some(BinOp::Or),
        Mark::Caret => Some(BinOp::Xor),
        Mark::Plus => Some(BinOp::Add),
        Mark::Minus => Some(BinOp::Sub),
        Mark::Star => Some(BinOp::Mul),
        Mark::EqualsEquals => Some(BinOp::Eq),
        Mark::Less => Some(BinOp::Lt),
        Mark::ShiftLeft => Some(BinOp::Shl),
        Mark::ShiftRight => Some(BinOp::Shr),
        _ => None,
    }
}
