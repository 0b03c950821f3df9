// The rules of a stage's expressions: what a name in them may be (E17, E25, E34).
ghost use Rattle.std.specs.Prelude.{◌≡◌, map};
ghost use Rattle.kp_base.specs.{First.first};
ghost use Rattle.kp_stage.specs.Rules.{ask_name, ask_expr, ask_option, ask_values, ask_guesses};
ghost use Rattle.kp_stage.specs.inner.Tables.{facts_in};

use crate::facts::Facts;
use crate::fault::{Found, StageFault};
use crate::rules::{Rule, broken_unless, first_of};
use kp_ast::{Expr, ExprKind, Name, StmtKind};
use kp_base::Place;

// The first name outside a guess and an aim at which the rule is violated.
pub(crate) fn in_values(facts: &Facts, rule: Rule, k: usize, stmt: &StmtKind) -> Option<Found>
    ensures { result ≡ ask_values (facts_in facts.now) rule k stmt.now }
{
    match stmt {
        StmtKind::Read(read) => first_of(
            in_option(facts, rule, k, &read.address),
            in_option(facts, rule, k, &read.when),
        ),
        StmtKind::Let(_, e) | StmtKind::Put(_, e) => in_expr(facts, rule, k, e),
        StmtKind::Set(_, e, when) => first_of(
            in_expr(facts, rule, k, e),
            in_option(facts, rule, k, when),
        ),
        StmtKind::Aim(_, _) => None,
    }
}

// The first name in a guess or an aim at which the rule is violated.
pub(crate) fn in_guesses(facts: &Facts, rule: Rule, k: usize, stmt: &StmtKind) -> Option<Found>
    ensures { result ≡ ask_guesses (facts_in facts.now) rule k stmt.now }
{
    match stmt {
        StmtKind::Read(read) => in_option(facts, rule, k, &read.guess),
        StmtKind::Aim(_, e) => in_expr(facts, rule, k, e),
        _ => None,
    }
}

fn in_option(facts: &Facts, rule: Rule, k: usize, e: &Option<Expr>) -> Option<Found>
    ensures { result ≡ ask_option (facts_in facts.now) rule k e.now }
{
    match e {
        Some(e) => in_expr(facts, rule, k, e),
        None => None,
    }
}

// The first name in an expression at which the rule is violated.
#[cycle(names)]
fn in_expr(facts: &Facts, rule: Rule, k: usize, e: &Expr) -> Option<Found>
    ensures { result ≡ ask_expr (facts_in facts.now) rule k e.now }
{
    match &e.kind {
        ExprKind::Lit(_) => None,
        ExprKind::Name(name) => of_name(facts, rule, k, name, e.place),
        ExprKind::Not(a) | ExprKind::Slice(a, _, _) | ExprKind::Zext(a, _) | ExprKind::Sext(a, _) =>
            { in_expr(facts, rule, k, a.get()) }
        ExprKind::Binary(_, a, b) => {
            let in_a = in_expr(facts, rule, k, a.get());
            if in_a.is_some() {
                return in_a;
            }
            in_expr(facts, rule, k, b.get())
        }
        ExprKind::Mux(test, a, b) => {
            let in_test = in_expr(facts, rule, k, test.get());
            if in_test.is_some() {
                return in_test;
            }
            let in_a = in_expr(facts, rule, k, a.get());
            if in_a.is_some() {
                return in_a;
            }
            in_expr(facts, rule, k, b.get())
        }
        ExprKind::Concat(parts) => in_exprs(facts, rule, k, parts.as_slice()),
        ExprKind::Call(_, args) => in_exprs(facts, rule, k, args.as_slice()),
    }
}

#[cycle(names)]
fn in_exprs(facts: &Facts, rule: Rule, k: usize, es: &[Expr]) -> Option<Found>
    ensures { result ≡ first (map (ask_expr (facts_in facts.now) rule k) es.now) }
{
    for e in es {
        let answer = in_expr(facts, rule, k, e);
        if answer.is_some() {
            return answer;
        }
    }
    None
}

fn of_name(facts: &Facts, rule: Rule, k: usize, name: &Name, at: Place) -> Option<Found>
    ensures { result ≡ ask_name (facts_in facts.now) rule k name.now at }
{
    match rule {
        Rule::E17 => {
            let put = facts.given.puts.get(name)?;
            let fault = StageFault::UsedEarly {
                put: put.stage,
                index: put.index,
                here: k,
            };
            broken_unless(put.stage < k, fault, at)
        }
        Rule::E25 => broken_unless(
            facts.named.hints.get(name).is_none(),
            StageFault::HintAsValue,
            at,
        ),
        Rule::E34 => {
            let stage = facts.named.samples.get(name)?;
            let fault = StageFault::SampleElsewhere { stage, here: k };
            broken_unless(stage == k as u64, fault, at)
        }
        _ => None,
    }
}
