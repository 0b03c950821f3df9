// The widths of expressions, and their checks.
ghost use Rattle.std.specs.Prelude.{◌≡◌, ◌+◌, ◌≤◌, map, drop, length, slice_get, min};
ghost use Rattle.kp_width.specs.Expressions.{literal_of, is_width, value_in, binary_of, choice_of, slice_by, extension_by, sum_of, concatenation_by, is_declared, params_of, width_at, arguments_of, call_of, called_of, condition_of, part_of, value_of, width_of};
ghost use Rattle.kp_width.specs.Statements.{address_of};

use crate::fault::{Destination, Position, WidthFault, found_at};
use crate::names::{Meaning, Names};
use kp_ast::{Decl, Expr, ExprKind, Name, Num, Param};
use kp_base::{Finding, Place};
use kp_bits::{BinOp, Literal, LiteralFault};

// The width of an expression that `done` declarations precede.
#[cycle(width)]
pub(crate) fn width(
    decls: &[Decl],
    done: usize,
    names: &Names,
    e: &Expr,
) -> Result<u8, Finding<WidthFault>>
    requires { done ≤ length decls.now }
    ensures { result ≡ (width_of decls.now done names.now e.now).found }
{
    let at = e.place;
    match &e.kind {
        ExprKind::Lit(literal) => literal_width(*literal, at),
        ExprKind::Name(name) => value_width(names, name, at),
        ExprKind::Not(a) => width(decls, done, names, a.get()),
        ExprKind::Binary(op, a, b) => {
            let x = width(decls, done, names, a.get())?;
            let y = width(decls, done, names, b.get())?;
            binary_width(*op, at, a.get().place, b.get().place, x, y)
        }
        ExprKind::Mux(test, yes, no) => {
            let t = width(decls, done, names, test.get())?;
            let x = width(decls, done, names, yes.get())?;
            let y = width(decls, done, names, no.get())?;
            choice_width(at, yes.get().place, no.get().place, t, x, y)
        }
        ExprKind::Concat(parts) => concatenation_width(decls, done, names, parts.as_slice(), at),
        ExprKind::Slice(a, hi, lo) => slice_width(decls, done, names, a.get(), *hi, *lo, at),
        ExprKind::Zext(a, number) | ExprKind::Sext(a, number) => {
            extended_width(decls, done, names, a.get(), *number, at)
        }
        ExprKind::Call(name, args) => call_width(decls, done, names, name, args.as_slice(), at),
    }
}

// Names, and the kinds with one part or a list of parts, have functions of their own: so `width` keeps few results, and a small expression costs little.

fn value_width(names: &Names, name: &Name, at: Place) -> Result<u8, Finding<WidthFault>>
    ensures { result ≡ (value_in names.now name.now at).found }
{
    let meaning = names.used(Position::Value, name, at)?;
    Ok(meaning.width)
}

fn binary_width(
    op: BinOp,
    at: Place,
    left_at: Place,
    right_at: Place,
    a: u8,
    b: u8,
) -> Result<u8, Finding<WidthFault>>
    ensures { result ≡ (binary_of op at left_at right_at a b).found }
{
    if !op.is_shift() && a != b {
        let fault = WidthFault::Operands {
            op,
            left: a,
            right: b,
            left_at,
            right_at,
        };
        return Err(found_at(at, fault));
    }
    Ok(op.result_width(a))
}

fn choice_width(
    at: Place,
    left_at: Place,
    right_at: Place,
    test: u8,
    a: u8,
    b: u8,
) -> Result<u8, Finding<WidthFault>>
    ensures { result ≡ (choice_of at left_at right_at test a b).found }
{
    if test != 1 {
        return Err(found_at(at, WidthFault::Condition { found: test }));
    }
    if a != b {
        let fault = WidthFault::Branches {
            left: a,
            right: b,
            left_at,
            right_at,
        };
        return Err(found_at(at, fault));
    }
    Ok(a)
}

#[cycle(width)]
fn concatenation_width(
    decls: &[Decl],
    done: usize,
    names: &Names,
    parts: &[Expr],
    at: Place,
) -> Result<u8, Finding<WidthFault>>
    requires { done ≤ length decls.now }
    ensures { result ≡ (concatenation_by at (map (part_of decls.now done names.now) parts.now)).found }
{
    let all = sum(decls, done, names, parts)?;
    if !is_in_range(u64::from(all)) {
        return Err(found_at(at, WidthFault::JoinedWidth));
    }
    Ok(all)
}

#[cycle(width)]
fn slice_width(
    decls: &[Decl],
    done: usize,
    names: &Names,
    a: &Expr,
    hi: u64,
    lo: u64,
    at: Place,
) -> Result<u8, Finding<WidthFault>>
    requires { done ≤ length decls.now }
    ensures { result ≡ (slice_by hi lo at (part_of decls.now done names.now a.now)).found }
{
    let width = width(decls, done, names, a)?;
    if hi < lo || hi >= u64::from(width) {
        return Err(found_at(at, WidthFault::Slice { hi, lo, width }));
    }
    Ok((hi - lo + 1) as u8)
}

#[cycle(width)]
fn extended_width(
    decls: &[Decl],
    done: usize,
    names: &Names,
    a: &Expr,
    number: Num,
    at: Place,
) -> Result<u8, Finding<WidthFault>>
    requires { done ≤ length decls.now }
    ensures { result ≡ (extension_by number at (part_of decls.now done names.now a.now)).found }
{
    let from = width(decls, done, names, a)?;
    let to = number.value;
    if !is_in_range(to) {
        return Err(found_at(number.at, WidthFault::DeclaredWidth { width: to }));
    }
    if to < u64::from(from) {
        return Err(found_at(at, WidthFault::Extension { from, to }));
    }
    Ok(to as u8)
}

#[cycle(width)]
fn call_width(
    decls: &[Decl],
    done: usize,
    names: &Names,
    name: &Name,
    args: &[Expr],
    at: Place,
) -> Result<u8, Finding<WidthFault>>
    requires { done ≤ length decls.now }
    ensures { result ≡ (call_of decls.now done names.now name.now (map (part_of decls.now done names.now) args.now) at).found }
{
    let meaning = called(decls, done, names, name, args.len(), at)?;
    let params = params(decls, meaning.from);
    check_args(decls, done, names, meaning.from, params, args)?;
    Ok(meaning.width)
}

// The sum of the widths, saturating at 65.
#[cycle(width)]
fn sum(decls: &[Decl], done: usize, names: &Names, es: &[Expr]) -> Result<u8, Finding<WidthFault>>
    requires { done ≤ length decls.now }
    ensures { result ≡ (sum_of 0 (map (part_of decls.now done names.now) es.now)).found }
{
    let mut all = 0u8;
    for e in es {
        let w = width(decls, done, names, e)?;
        all = capped(all, w);
    }
    Ok(all)
}

// The sum, saturating at 65.
fn capped(a: u8, b: u8) -> u8
    requires { a ≤ 65 }
    ensures { result ≡ min (a + b) 65 }
{
    a.saturating_add(b).min(65)
}

#[cycle(width)]
fn check_args(
    decls: &[Decl],
    done: usize,
    names: &Names,
    function: usize,
    params: &[Param],
    es: &[Expr],
) -> Result<(), Finding<WidthFault>>
    requires { done ≤ length decls.now }
    ensures { result ≡ (arguments_of function params.now 0 (map (part_of decls.now done names.now) es.now)).found }
{
    for (i, e) in es.iter().enumerate() {
        let found = width(decls, done, names, e)?;
        let wanted = param_width(params, i);
        if u64::from(found) != wanted {
            let to = Destination::Parameter { function, index: i };
            return Err(found_at(e.place, WidthFault::Value { found, wanted, to }));
        }
    }
    Ok(())
}

// Checks that a value has the width of where it goes to.
pub(crate) fn check_value(
    decls: &[Decl],
    done: usize,
    names: &Names,
    e: &Expr,
    wanted: u8,
    to: Destination,
) -> Result<(), Finding<WidthFault>>
    requires { done ≤ length decls.now }
    ensures { result ≡ (value_of (part_of decls.now done names.now e.now) wanted to).found }
{
    let found = width(decls, done, names, e)?;
    if found != wanted {
        let wanted = u64::from(wanted);
        return Err(found_at(e.place, WidthFault::Value { found, wanted, to }));
    }
    Ok(())
}

// Checks a condition in a statement.
pub(crate) fn check_one_bit(
    decls: &[Decl],
    names: &Names,
    e: &Expr,
) -> Result<(), Finding<WidthFault>>
    ensures { result ≡ (condition_of (part_of decls.now (length decls.now) names.now e.now)).found }
{
    let found = width(decls, decls.len(), names, e)?;
    if found != 1 {
        return Err(found_at(e.place, WidthFault::Condition { found }));
    }
    Ok(())
}

// Checks an address in a statement, of the file with this number of a declaration.
pub(crate) fn check_address(
    decls: &[Decl],
    names: &Names,
    e: &Expr,
    wanted: u8,
    file: usize,
) -> Result<(), Finding<WidthFault>>
    ensures { result ≡ (address_of (part_of decls.now (length decls.now) names.now e.now) wanted file).found }
{
    let found = width(decls, decls.len(), names, e)?;
    if found != wanted {
        let fault = WidthFault::Address {
            found,
            wanted,
            file,
        };
        return Err(found_at(e.place, fault));
    }
    Ok(())
}

#[tactic(auto, using(kp_bits::proofs::Powers::mask_of, std::proofs::lemmas::Nat::pow_pos))]
pub(crate) fn literal_width(literal: Literal, at: Place) -> Result<u8, Finding<WidthFault>>
    ensures { result ≡ (literal_of literal at).found }
{
    let Literal { width, value } = literal;
    match literal.fit() {
        Ok(word) => Ok(word.width()),
        Err(LiteralFault::TooBig) => Err(found_at(at, WidthFault::LiteralValue { value, width })),
        Err(_) => Err(found_at(at, WidthFault::LiteralWidth { width })),
    }
}

pub(crate) fn is_in_range(w: u64) -> bool
    ensures { result ≡ is_width w }
{
    1 <= w && w <= 64
}

// The function that is called, if it is declared before the call and has this many parameters.
fn called(
    decls: &[Decl],
    done: usize,
    names: &Names,
    name: &Name,
    count: usize,
    at: Place,
) -> Result<Meaning, Finding<WidthFault>>
    requires { done ≤ length decls.now }
    ensures { result ≡ (called_of decls.now done names.now name.now count at).found }
{
    if names.find(name).is_none() && is_declared(&decls[done..], name) {
        return Err(found_at(at, WidthFault::CalledEarly { before: done }));
    }
    let meaning = names.used(Position::Callee, name, at)?;
    let wanted = params(decls, meaning.from).len();
    if count != wanted {
        let fault = WidthFault::ArgumentCount {
            found: count,
            wanted,
            function: meaning.from,
        };
        return Err(found_at(at, fault));
    }
    Ok(meaning)
}

fn is_declared(decls: &[Decl], name: &Name) -> bool
    ensures { result ≡ is_declared decls.now name.now }
{
    decls.iter().any(|d| d.is_function(name))
}

fn params(decls: &[Decl], i: usize) -> &[Param]
    ensures { result.now ≡ params_of decls.now i }
{
    match decls.get(i) {
        Some(Decl::Func(f)) => f.params.as_slice(),
        _ => &[],
    }
}

fn param_width(params: &[Param], i: usize) -> u64
    ensures { result ≡ width_at params.now i }
{
    match params.get(i) {
        Some(p) => p.width.value,
        None => 0,
    }
}
