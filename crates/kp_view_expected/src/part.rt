// The grammar of machine descriptions, without what it builds.
ghost use Rattle.kp_parse_grammar.{specs.Follow.tables, proofs.Ranked.rank};
ghost use Rattle.kp_view_expected.specs.inner.Plain.{name, number, plain_rules};

use crate::token_class::TokenClass;
use kp_expected::Symbol::{Inner as N, Token as T};
use kp_expected::{Part as Names, Rule, maybe, rule, tokens};
use kp_lex::{Keyword, Mark};

/// A name of the grammar: `Or` to `Product` are the levels of operators with their operands, `MoreOr` to `MoreProduct` what may follow an operand.
#[derive(Clone, Copy)]
pub(crate) enum Part {
    Job,
    Decls,
    Decl,
    Index,
    Enable,
    Par,
    Pars,
    Stage,
    Stages,
    Stmts,
    Stmt,
    Binding,
    Address,
    Hedge,
    When,
    Whole,
    Image,
    Words,
    Word,
    Numbered,
    Lits,
    Stalls,
    Spans,
    Span,
    Step,
    Inputs,
    Entries,
    Entry,
    Expr,
    Choice,
    Or,
    MoreOr,
    Xor,
    MoreXor,
    And,
    MoreAnd,
    Compare,
    MoreCompare,
    Shift,
    MoreShift,
    Sum,
    MoreSum,
    Product,
    MoreProduct,
    Unary,
    Post,
    Slices,
    Low,
    Prim,
    Extended,
    Call,
    Exprs,
    Parts,
}

// All classes, in the order of messages.
pub(crate) const CLASSES: &[TokenClass] = tokens!(
    (Machine) (Stages) (Reg) (File) (Pipe) (Result) (Hint) (Fn) (Stage) (Read) (Let) (Put) (Set) (Aim) (Image) (Stalls) (End) (At)
    (When) (Guess) (From) (To) (Step) (Zext) (Sext) (Sample) (Inputs) [Semicolon] [Colon] [Comma] [Equals] [Arrow] [OpenParenthesis]
    [CloseParenthesis] [OpenBracket] [CloseBracket] [OpenBrace] [CloseBrace] [Question] [Tilde] [Star] [Plus] [Minus] [Ampersand]
    [Caret] [Bar] [Less] [ShiftLeft] [ShiftRight] [EqualsEquals] NAME NUM LIT
);

const DECL_WORDS: &[TokenClass] = tokens!((Reg)(File)(Pipe)(Result)(Hint)(Sample)(Fn));

const STMT_WORDS: &[TokenClass] = tokens!((Read)(Let)(Put)(Set)(Aim));

const PRIM_STARTS: &[TokenClass] = tokens!(LIT NAME [OpenParenthesis] [OpenBrace] (Zext) (Sext));

const EXPR_STARTS: &[TokenClass] =
    tokens!([Tilde] LIT NAME [OpenParenthesis] [OpenBrace] (Zext) (Sext));

// In the order of the names.
static RULES: [Rule<TokenClass, Part>; 53] = [
    rule!(Job, tokens!((Machine)), {(Machine) NAME [Semicolon] (Stages) NUM [Semicolon] Decls Stage Stages Image Stalls Inputs (End)}),
    maybe!(Decls, DECL_WORDS, {Decl Decls}),
    rule!(Decl, DECL_WORDS,
        {(Reg) Par [Equals] LIT [Semicolon]}
        {(File) Par [OpenBracket] NUM [CloseBracket] [Semicolon]}
        {(Pipe) Par [Semicolon]}
        {(Result) Par [Arrow] NAME Index Enable (At) NUM [Semicolon]}
        {(Hint) Par [Equals] LIT [Semicolon]}
        {(Sample) Par (At) NUM [Semicolon]}
        {(Fn) NAME [OpenParenthesis] Par Pars [CloseParenthesis] [Colon] NUM [Equals] Whole [Semicolon]}
    ),
    maybe!(Index, tokens!([OpenBracket]), {[OpenBracket] NAME [CloseBracket]}),
    maybe!(Enable, tokens!((When)), {(When) NAME}),
    rule!(Par, tokens!(NAME), {NAME [Colon] NUM}),
    maybe!(Pars, tokens!([Comma]), {[Comma] Par Pars}),
    rule!(Stage, tokens!((Stage)), {(Stage) NUM [OpenBrace] Stmts [CloseBrace]}),
    maybe!(Stages, tokens!((Stage)), {Stage Stages}),
    maybe!(Stmts, STMT_WORDS, {Stmt Stmts}),
    rule!(Stmt, STMT_WORDS,
        {(Read) NAME [Equals] NAME Address Hedge [Semicolon]}
        {(Let) Binding [Semicolon]}
        {(Put) Binding [Semicolon]}
        {(Set) Binding When [Semicolon]}
        {(Aim) Binding [Semicolon]}
    ),
    rule!(Binding, tokens!(NAME), {NAME [Equals] Whole}),
    maybe!(Address, tokens!([OpenBracket]), {[OpenBracket] Whole [CloseBracket]}),
    maybe!(Hedge, tokens!((When) (Guess)), {(When) Whole} {(Guess) Whole}),
    maybe!(When, tokens!((When)), {(When) Whole}),
    rule!(Whole, EXPR_STARTS, { Expr }),
    maybe!(Image, tokens!((Image)), {(Image) [OpenBrace] Words [CloseBrace]}),
    maybe!(Words, tokens!(NAME), {Word Words}),
    rule!(Word, tokens!(NAME), {NAME Numbered [Equals] LIT Lits [Semicolon]}),
    maybe!(Numbered, tokens!([OpenBracket]), {[OpenBracket] NUM [CloseBracket]}),
    maybe!(Lits, tokens!([Comma]), {[Comma] LIT Lits}),
    maybe!(Stalls, tokens!((Stalls)), {(Stalls) [OpenBrace] Spans [CloseBrace]}),
    maybe!(Spans, tokens!(NUM), {Span Spans}),
    rule!(Span, tokens!(NUM), {NUM (From) NUM (To) NUM Step [Semicolon]}),
    maybe!(Step, tokens!((Step)), {(Step) NUM}),
    maybe!(Inputs, tokens!((Inputs)), {(Inputs) [OpenBrace] Entries [CloseBrace]}),
    maybe!(Entries, tokens!(NAME), {Entry Entries}),
    rule!(Entry, tokens!(NAME), {NAME [Equals] LIT (From) NUM (To) NUM Step [Semicolon]}),
    rule!(Expr, EXPR_STARTS, {Or Choice}),
    maybe!(Choice, tokens!([Question]), {[Question] Expr [Colon] Expr}),
    rule!(Or, EXPR_STARTS, {Xor MoreOr}),
    maybe!(MoreOr, tokens!([Bar]), {[Bar] Xor MoreOr}),
    rule!(Xor, EXPR_STARTS, {And MoreXor}),
    maybe!(MoreXor, tokens!([Caret]), {[Caret] And MoreXor}),
    rule!(And, EXPR_STARTS, {Compare MoreAnd}),
    maybe!(MoreAnd, tokens!([Ampersand]), {[Ampersand] Compare MoreAnd}),
    rule!(Compare, EXPR_STARTS, {Shift MoreCompare}),
    maybe!(MoreCompare, tokens!([EqualsEquals] [Less]), {[EqualsEquals] Shift} {[Less] Shift}),
    rule!(Shift, EXPR_STARTS, {Sum MoreShift}),
    maybe!(MoreShift, tokens!([ShiftLeft] [ShiftRight]), {[ShiftLeft] Sum MoreShift} {[ShiftRight] Sum MoreShift}),
    rule!(Sum, EXPR_STARTS, {Product MoreSum}),
    maybe!(MoreSum, tokens!([Plus] [Minus]), {[Plus] Product MoreSum} {[Minus] Product MoreSum}),
    rule!(Product, EXPR_STARTS, {Unary MoreProduct}),
    maybe!(MoreProduct, tokens!([Star]), {[Star] Unary MoreProduct}),
    rule!(Unary, EXPR_STARTS, {[Tilde] Unary} {Post}),
    rule!(Post, PRIM_STARTS, {Prim Slices}),
    maybe!(Slices, tokens!([OpenBracket]), {[OpenBracket] NUM Low [CloseBracket] Slices}),
    maybe!(Low, tokens!([Colon]), {[Colon] NUM}),
    rule!(Prim, PRIM_STARTS,
        {LIT}
        {NAME Call}
        {[OpenParenthesis] Expr [CloseParenthesis]}
        {[OpenBrace] Exprs [CloseBrace]}
        {(Zext) Extended}
        {(Sext) Extended}
    ),
    rule!(Extended, tokens!([OpenParenthesis]), {[OpenParenthesis] Expr [Comma] NUM [CloseParenthesis]}),
    maybe!(Call, tokens!([OpenParenthesis]), {[OpenParenthesis] Exprs [CloseParenthesis]}),
    rule!(Exprs, EXPR_STARTS, {Expr Parts}),
    maybe!(Parts, tokens!([Comma]), {[Comma] Expr Parts}),
];

impl Names<TokenClass> for Part {
    ghost name = { name };

    ghost rules = { plain_rules };

    ghost tables = { tables };

    ghost ranks = { rank };

    fn rule(self) -> &'static Rule<TokenClass, Part> {
        &RULES[self as usize]
    }
}
