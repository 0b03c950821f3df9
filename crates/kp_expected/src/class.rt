// The classes of tokens and the names of a grammar.
ghost use Rattle.std.specs.Prelude.{◌≡◌, ◌==◌, ℕ};
ghost use Rattle.kp_grammar.specs.{Tables.Tables, Ranks.Ranks};
ghost use Rattle.kp_expected.specs.{Plain.PlainRules, Rows.IsRowOf};

/// A class of tokens: a grammar doesn't distinguish the tokens of one class.
pub trait Class: Copy + 'static {
    /// The number of the class in the grammar.
    ghost number: { Self → ℕ };

    /// Whether both are the same class.
    fn is(self, other: Self) -> bool
        ensures { result ≡ (number other == number self) };
}

/// A symbol of an alternative: a token of a class, or a name that has alternatives.
#[derive(Clone, Copy)]
pub enum Symbol<C, P> {
    Token(C),
    Inner(P),
}

/// The row of a name: the classes of tokens with which it begins, whether it may be empty, and its alternatives, of which only the last may be empty.
pub struct Rule<C: 'static, P: 'static> {
    pub first: &'static [C],
    pub is_nullable: bool,
    pub alternatives: &'static [&'static [Symbol<C, P>]],
}

/// A name of a grammar.
pub trait Part<C: Class>: Copy + 'static {
    /// Its number in the grammar.
    ghost name: { Self → ℕ };
    /// The rules of the grammar, without what they build.
    ghost rules: { PlainRules };
    /// First and follow sets.
    ghost tables: { Tables };
    /// Before a token is read, a name leads only to names of lower rank.
    ghost ranks: { Ranks };

    /// Its row of the table.
    fn rule(self) -> &'static Rule<C, Self>
        ensures { IsRowOf C.number name rules tables self result.now };
}
