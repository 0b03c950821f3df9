// How a table of sentences is written.

/// Writes the sentence of a value: of its cases the first that it matches, as `Case(name) => "a format with {name} and {}" (another_term),`.
#[macro_export]
macro_rules! sentences {
    ($f:ident, $value:expr, { $($case:pat $(if $test:expr)? => $text:literal $(($($term:expr),+))?,)* }) => {
        match $value { $($case $(if $test)? => write!($f, $text $(, $($term),+)?)),* }
    };
}

/// The same, where all is written by one call: a text with a `{}` for each term, and the terms, up to five.
#[macro_export]
macro_rules! phrases {
    ($f:ident, $value:expr, { $($case:pat => $text:literal $([$($term:expr),+])?,)* }) => {{
        let text = match $value { $($case => $text),* };
        let terms = match $value { $($case => $crate::terms!($($($term),+)?)),* };
        write_phrase($f, text, &terms)
    }};
}

#[macro_export]
macro_rules! terms {
    () => { Terms::None };
    ($a:expr) => { Terms::One($a) };
    ($a:expr, $b:expr) => { Terms::Two($a, $b) };
    ($a:expr, $b:expr, $c:expr) => { Terms::Three($a, $b, $c) };
}
