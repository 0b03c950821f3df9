// The grammar of the Verilog subset, without what it builds.
ghost use Rattle.kp_vlog.specs.inner.Follow.{tables};
ghost use Rattle.kp_view_verilog_faults.specs.inner.Plain.{name, number, plain_rules, ranks};

use crate::class::Class as TokenClass;
use kp_expected::Symbol::{Inner as N, Token as T};
use kp_expected::{Part as Names, Rule, maybe, rule, tokens};
use kp_vlog::{Keyword, Mark};

/// A name of the grammar. In a concatenation at most ten names may follow the first two, after one more at most nine, and so on.
#[derive(Clone, Copy)]
pub(crate) enum Part {
    Module,
    Wire,
    Range,
    Port,
    Stalls,
    Samples,
    Items,
    Item,
    Declared,
    Right,
    Behind,
    Index,
    Inits,
    Init,
    Start,
    Body,
    Condition,
    Values,
    Updates,
    Update,
    Names10,
    Names9,
    Names8,
    Names7,
    Names6,
    Names5,
    Names4,
    Names3,
    Names2,
    Names1,
    Names0,
}

// All classes, in the order of messages: the operators between two names are those from `<` on.
pub(crate) const CLASSES: &[TokenClass] = tokens!(
    (Module) (Input) (Output) (Wire) (Reg) (Integer) (Assign) (Initial) (Begin) (End) (For) (Always) (Posedge) (If) (Else)
    (Endmodule) [Semicolon] [Colon] [Comma] [Equals] [Arrow] [OpenParenthesis] [CloseParenthesis] [OpenBracket] [CloseBracket]
    [OpenBrace] [CloseBrace] [Tilde] [Question] [At] [Less] [Plus] [ShiftLeft] [ShiftRight] [EqualsEquals] [Minus] [Star]
    [Ampersand] [Bar] [Caret] NAME NUM LIT
);

const ITEM_WORDS: &[TokenClass] = tokens!((Reg)(Integer)(Wire)(Assign));

// In the order of the names.
static RULES: [Rule<TokenClass, Part>; 31] = [
    rule!(Module, tokens!((Module)),
        {(Module) NAME [OpenParenthesis] (Input) Wire NAME [Comma] (Input) Wire Stalls Samples (Output) Port [Comma] (Output) Port
        [Comma] (Output) Port [CloseParenthesis] [Semicolon] Items (Initial) (Begin) Inits (End) (Always) [At] [OpenParenthesis]
        (Posedge) NAME [CloseParenthesis] (Begin) Body (End) (Endmodule)}
    ),
    maybe!(Wire, tokens!((Wire)), { (Wire) }),
    rule!(Range, tokens!([OpenBracket]), {[OpenBracket] NUM [Colon] NUM [CloseBracket]}),
    rule!(Port, tokens!((Wire) [OpenBracket]), {Wire Range NAME}),
    rule!(Stalls, tokens!(NAME [OpenBracket]), {NAME [Comma] (Input) Port [Comma]} {Range NAME [Comma]}),
    maybe!(Samples, tokens!((Input)), {(Input) Port [Comma] Samples}),
    maybe!(Items, ITEM_WORDS, {Item Items}),
    rule!(Item, ITEM_WORDS,
        {(Reg) Range NAME Declared}
        {(Integer) NAME [Semicolon]}
        {(Wire) Range NAME [Semicolon]}
        {(Assign) NAME [Equals] Right [Semicolon]}
    ),
    rule!(Declared, tokens!([OpenBracket] [Semicolon]), {Range [Semicolon]} {[Semicolon]}),
    rule!(Right, tokens!(LIT NAME [Tilde] [OpenBrace]), {LIT} {[Tilde] NAME} {[OpenBrace] NAME [Comma] NAME Names10 [CloseBrace]} {NAME Behind}),
    maybe!(Behind, tokens!([Ampersand] [Bar] [Caret] [Plus] [Minus] [Star] [EqualsEquals] [Less] [ShiftLeft] [ShiftRight] [Question] [OpenBracket]),
        {[Ampersand] NAME}
        {[Bar] NAME}
        {[Caret] NAME}
        {[Plus] NAME}
        {[Minus] NAME}
        {[Star] NAME}
        {[EqualsEquals] NAME}
        {[Less] NAME}
        {[ShiftLeft] NAME}
        {[ShiftRight] NAME}
        {[Question] NAME [Colon] NAME}
        {[OpenBracket] Index}
    ),
    rule!(Index, tokens!(NUM NAME), {NUM [Colon] NUM [CloseBracket]} {NAME [CloseBracket]}),
    maybe!(Inits, tokens!(NAME (For)), {Init Inits}),
    rule!(Init, tokens!(NAME (For)),
        {(For) [OpenParenthesis] NAME [Equals] NUM [Semicolon] NAME [Less] NUM [Semicolon] NAME [Equals] NAME [Plus] NUM [CloseParenthesis]
        NAME [OpenBracket] NAME [CloseBracket] [Equals] LIT [Semicolon]}
        {NAME Start}
    ),
    rule!(Start, tokens!([Equals] [OpenBracket]), {[Equals] LIT [Semicolon]} {[OpenBracket] NUM [CloseBracket] [Equals] LIT [Semicolon]}),
    maybe!(Body, tokens!(NAME (If)), {(If) [OpenParenthesis] NAME [CloseParenthesis] Condition} {NAME [Arrow] NAME [Semicolon] Updates}),
    rule!(Condition, tokens!(NAME (Begin)),
        {(Begin) Values (End) (Else) (Begin) Updates (End)}
        {NAME [OpenBracket] NAME [CloseBracket] [Arrow] NAME [Semicolon] Updates}
    ),
    maybe!(Values, tokens!(NAME), {NAME [Arrow] LIT [Semicolon] Values}),
    maybe!(Updates, tokens!(NAME (If)), {Update Updates}),
    rule!(Update, tokens!(NAME (If)),
        {(If) [OpenParenthesis] NAME [CloseParenthesis] NAME [OpenBracket] NAME [CloseBracket] [Arrow] NAME [Semicolon]}
        {NAME [Arrow] NAME [Semicolon]}
    ),
    maybe!(Names10, tokens!([Comma]), {[Comma] NAME Names9}),
    maybe!(Names9, tokens!([Comma]), {[Comma] NAME Names8}),
    maybe!(Names8, tokens!([Comma]), {[Comma] NAME Names7}),
    maybe!(Names7, tokens!([Comma]), {[Comma] NAME Names6}),
    maybe!(Names6, tokens!([Comma]), {[Comma] NAME Names5}),
    maybe!(Names5, tokens!([Comma]), {[Comma] NAME Names4}),
    maybe!(Names4, tokens!([Comma]), {[Comma] NAME Names3}),
    maybe!(Names3, tokens!([Comma]), {[Comma] NAME Names2}),
    maybe!(Names2, tokens!([Comma]), {[Comma] NAME Names1}),
    maybe!(Names1, tokens!([Comma]), {[Comma] NAME Names0}),
    maybe!(Names0, tokens!(),),
];

impl Names<TokenClass> for Part {
    ghost name = { name };

    ghost rules = { plain_rules };

    ghost tables = { tables };

    ghost ranks = { ranks };

    fn rule(self) -> &'static Rule<TokenClass, Part> {
        &RULES[self as usize]
    }
}
