// How a table is written. A language has its classes in an enum `TokenClass` with the variants `Name`, `Number`, `Literal`, `Keyword` and `Mark`, and its
// names in an enum `Part`; `T` and `N` are the two kinds of symbols.

/// A class of tokens: `NAME`, `NUM`, `LIT`, a keyword in parentheses, or a mark in brackets.
#[macro_export]
macro_rules! token {
    (NAME) => { TokenClass::Name };
    (NUM) => { TokenClass::Number };
    (LIT) => { TokenClass::Literal };
    (($keyword:ident)) => { TokenClass::Keyword(Keyword::$keyword) };
    ([$mark:ident]) => { TokenClass::Mark(Mark::$mark) };
}

/// A list of classes of tokens.
#[macro_export]
macro_rules! tokens {
    ($($token:tt)*) => { &[$($crate::token!($token)),*] };
}

/// A symbol: a class of tokens, or a name.
#[macro_export]
macro_rules! symbol {
    (NAME) => { T($crate::token!(NAME)) };
    (NUM) => { T($crate::token!(NUM)) };
    (LIT) => { T($crate::token!(LIT)) };
    ($part:ident) => { N(Part::$part) };
    ($token:tt) => { T($crate::token!($token)) };
}

/// The row of a name that isn't empty: the classes of tokens that it begins with, and its alternatives.
#[macro_export]
macro_rules! rule {
    ($name:ident, $first:expr, $({ $($symbol:tt)* })+) => {
        Rule { first: $first, is_nullable: false, alternatives: &[$(&[$($crate::symbol!($symbol)),*]),+] }
    };
}

/// The row of a name that may be empty.
#[macro_export]
macro_rules! maybe {
    ($name:ident, $first:expr, $({ $($symbol:tt)* })*) => {
        Rule { first: $first, is_nullable: true, alternatives: &[$(&[$($crate::symbol!($symbol)),*],)* &[]] }
    };
}
