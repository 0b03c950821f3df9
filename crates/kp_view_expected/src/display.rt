// The text of a set, as messages list it.
ghost use Rattle.std.specs.Prelude.{◌≡◌, ◌==◌, [], None, Some, codes, length, if◌then◌else◌};
ghost use Rattle.kp_view_expected.specs.Texts.{begins_expression, class_text, expected_text, group_of, group_text, has_all, in_group, is_comparison, is_last, is_operator, mark_text, thing_of, thing_text, things_of};

use crate::set::Expected;
use crate::token_class::TokenClass;
use kp_lex::{Keyword, Mark};
use std::fmt;
use std::str::from_utf8;

/// Several classes that are listed as one thing.
#[derive(Clone, Copy)]
pub(crate) enum Group {
    /// Those with which an expression begins.
    Expression,
    /// Those that go on with an expression: between operands, or of a slice.
    Operator,
    /// The same after a comparison, which can't be repeated.
    OtherOperator,
}

impl Group {
    // Whether the class is one of them.
    fn has(self, class: TokenClass) -> bool
        ensures { result ≡ in_group self class }
    {
        match self {
            Group::Expression => begins_expression(class),
            Group::Operator => is_operator(class),
            Group::OtherOperator => is_operator(class) && !is_comparison(class),
        }
    }

    // Whether the class is the last one of them, in the order of messages.
    fn ends_with(self, class: TokenClass) -> bool
        ensures { result ≡ is_last self class }
    {
        match self {
            Group::Expression => matches!(class, TokenClass::Literal),
            Group::Operator => matches!(class, TokenClass::Mark(Mark::EqualsEquals)),
            Group::OtherOperator => matches!(class, TokenClass::Mark(Mark::ShiftRight)),
        }
    }
}

fn begins_expression(class: TokenClass) -> bool
    ensures { result ≡ begins_expression class }
{
    matches!(
        class,
        TokenClass::Name
            | TokenClass::Literal
            | TokenClass::Keyword(Keyword::Zext | Keyword::Sext)
            | TokenClass::Mark(Mark::OpenParenthesis | Mark::OpenBrace | Mark::Tilde)
    )
}

fn is_operator(class: TokenClass) -> bool
    ensures { result ≡ is_operator class }
{
    matches!(
        class,
        TokenClass::Mark(
            Mark::Question
                | Mark::OpenBracket
                | Mark::Star
                | Mark::Plus
                | Mark::Minus
                | Mark::Ampersand
                | Mark::Caret
                | Mark::Bar
                | Mark::Less
                | Mark::ShiftLeft
                | Mark::ShiftRight
                | Mark::EqualsEquals
        )
    )
}

fn is_comparison(class: TokenClass) -> bool
    ensures { result ≡ is_comparison class }
{
    matches!(class, TokenClass::Mark(Mark::Less | Mark::EqualsEquals))
}

/// What is listed: a class by itself, or a group.
#[derive(Clone, Copy)]
pub(crate) enum Thing {
    Class(TokenClass),
    Group(Group),
}

impl Thing {
    // What is listed for a class, if it is in the set: a group is listed for its last class.
    fn of(group: Option<Group>, class: TokenClass, listed: bool) -> Option<Thing>
        ensures { result ≡ (if listed then thing_of group class else None) }
    {
        if !listed {
            return None;
        }
        match group {
            Some(group) if group.has(class) => {
                if group.ends_with(class) {
                    Some(Thing::Group(group))
                } else {
                    None
                }
            }
            _ => Some(Thing::Class(class)),
        }
    }
}

impl Expected {
    // The first group whose classes are all in the set.
    fn group(&self) -> Option<Group>
        ensures { result ≡ group_of self.now }
    {
        if self.has_all(Group::Expression) {
            Some(Group::Expression)
        } else if self.has_all(Group::Operator) {
            Some(Group::Operator)
        } else if self.has_all(Group::OtherOperator) {
            Some(Group::OtherOperator)
        } else {
            None
        }
    }

    fn has_all(&self, group: Group) -> bool
        ensures { result ≡ has_all self.now group }
    {
        for (i, class) in TokenClass::all().iter().enumerate() {
            if group.has(*class) && !self.listed[i] {
                return false;
            }
        }
        true
    }

    // The number of things that are listed.
    fn count(&self, group: Option<Group>) -> usize
        ensures { result ≡ length (things_of self.now group) }
    {
        let mut count = 0usize;
        for (i, class) in TokenClass::all().iter().enumerate() {
            if Thing::of(group, *class, self.listed[i]).is_some() {
                count += 1;
            }
        }
        count
    }
}

impl fmt::Display for Expected {
    ghost output = { λ e. Some (expected_text e) };

    fn fmt<W: fmt::Write>(&self, f: &mut fmt::Formatter<W>) -> fmt::Result {
        let group = self.group();
        let mut left = self.count(group);
        let mut first = true;
        for (i, class) in TokenClass::all().iter().enumerate() {
            if let Some(thing) = Thing::of(group, *class, self.listed[i]) {
                let before = separator(first, left);
                write!(f, "{before}{thing}")?;
                left = left.saturating_sub(1);
                first = false;
            }
        }
        Ok(())
    }
}

// What is written before the next of so many things.
fn separator(first: bool, left: usize) -> &'static str
    ensures { result.now ≡ (if first then [] else (if left == 1 then codes " or " else codes ", ")) }
{
    if first {
        ""
    } else if left == 1 {
        " or "
    } else {
        ", "
    }
}

impl fmt::Display for Thing {
    ghost output = { λ t. Some (thing_text t) };

    fn fmt<W: fmt::Write>(&self, f: &mut fmt::Formatter<W>) -> fmt::Result {
        match self {
            Thing::Class(class) => write!(f, "{class}"),
            Thing::Group(group) => f.write_str(group_text(*group)),
        }
    }
}

fn group_text(group: Group) -> &'static str
    ensures { result.now ≡ group_text group }
{
    match group {
        Group::Expression => "an expression",
        Group::Operator => "an operator",
        Group::OtherOperator => "an operator other than `==` and `<`",
    }
}

impl fmt::Display for TokenClass {
    ghost output = { λ c. Some (class_text c) };

    fn fmt<W: fmt::Write>(&self, f: &mut fmt::Formatter<W>) -> fmt::Result {
        match self {
            TokenClass::Keyword(keyword) => {
                let Ok(text) = from_utf8(keyword.spelling()) else {
                    unreachable!();
                };
                write!(f, "`{text}`")
            }
            TokenClass::Mark(mark) => {
                let text = mark_text(*mark);
                write!(f, "`{text}`")
            }
            TokenClass::Name => f.write_str("a name"),
            TokenClass::Number => f.write_str("a number"),
            TokenClass::Literal => f.write_str("a literal such as 8'h1f"),
        }
    }
}

// How a mark is written.
fn mark_text(mark: Mark) -> &'static str
    ensures { result.now ≡ mark_text mark }
{
    match mark {
        Mark::Semicolon => ";",
        Mark::Colon => ":",
        Mark::Comma => ",",
        Mark::Equals => "=",
        Mark::OpenParenthesis => "(",
        Mark::CloseParenthesis => ")",
        Mark::OpenBracket => "[",
        Mark::CloseBracket => "]",
        Mark::OpenBrace => "{",
        Mark::CloseBrace => "}",
        Mark::Question => "?",
        Mark::Tilde => "~",
        Mark::Star => "*",
        Mark::Plus => "+",
        Mark::Minus => "-",
        Mark::Ampersand => "&",
        Mark::Caret => "^",
        Mark::Bar => "|",
        Mark::Less => "<",
        Mark::ShiftLeft => "<<",
        Mark::ShiftRight => ">>",
        Mark::EqualsEquals => "==",
        Mark::Arrow => "->",
    }
}
