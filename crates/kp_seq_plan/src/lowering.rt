//! Lowering of plans to codes, once for all instructions: the width of each part is computed, so that values are plain numbers.
ghost use Rattle.std.specs.Prelude.{◌≡◌, ◌+◌, ◌||◌, ◌==◌, ◌++◌, ◌∷◌, [], ℕ, Some, IfOk, IfSome, OnOk, MatchResult, sum_by};
ghost use Rattle.kp_bits.specs.Operators.{is_shift, result_width};
ghost use Rattle.kp_bits.specs.declared.operator.BinOp.{BinOp};
ghost use Rattle.std.specs.Option.{option_map, option_and_then};
ghost use Rattle.kp_bits.specs.Word.{not_of};
ghost use Rattle.kp_bits.specs.Checked.{checked_slice, checked_zext, checked_sext};
ghost use Rattle.kp_seq_plan.specs.Names.{at_place};
ghost use Rattle.kp_seq_plan.specs.Plans.{meaning, space};
ghost use Rattle.kp_seq_plan.specs.declared.code.Code.{Code};
ghost use Rattle.kp_seq_plan.specs.declared.code.Code.TheVariants as ends;
ghost use Rattle.kp_seq_plan.specs.declared.code.Code.TheViews as codes;
ghost use Rattle.kp_seq_plan.specs.declared.lowering.Missing.TheVariants as missing;
ghost use Rattle.kp_seq_plan.specs.Lowering.{IsTyped, Gives};
ghost use Rattle.kp_seq_plan.specs.inner.Parts.{Lacks, IsCode, GivesOne, GivesTwo, GivesMux, GivesWord, AreTyped, Replaces, IsMask, binary_found, join_found, both_found, values_in, joined_found, call_found, call_space};

use crate::{Code, Plan, Typed};
use kp_ast::Boxed;
use kp_base::{List, NoMemory};
use kp_bits::{BinOp, Bits};
use std::alloc::Global;

/// The code of a plan, provided that the values under its indices are words of these widths, or missing if there is
/// no width. None if the plan has no value then. Error: out of memory.
pub fn code_of(
    alloc: Global,
    plan: &Plan,
    widths: &[Option<u64>],
) -> Result<Option<Typed>, NoMemory>
    ensures { IfOk result (λ c. Gives widths.now (meaning plan.now) (space plan.now) c) }
{
    match typed_of(alloc, plan, widths) {
        Ok(code) => Ok(Some(code)),
        Err(Missing::Value) => Ok(None),
        Err(Missing::NoMemory) => Err(NoMemory),
    }
}

// Why there is no code.
#[derive(Clone, Copy)]
enum Missing {
    // The plan has no value.
    Value,
    NoMemory,
}

impl From<NoMemory> for Missing {
    ghost from_gives = { λ _ e. e ≡ missing.NoMemory };

    fn from(_: NoMemory) -> Self {
        Missing::NoMemory
    }
}

#[cycle(lowering)]
fn typed_of(alloc: Global, plan: &Plan, widths: &[Option<u64>]) -> Result<Typed, Missing>
    ensures { MatchResult result (λ c. IsTyped widths.now (meaning plan.now) (space plan.now) c) (Lacks widths.now (meaning plan.now)) }
{
    match plan {
        Plan::Word(word) => word_of(*word),
        Plan::Name(place) => name_of(widths, *place),
        Plan::Not(a) => {
            let a = typed_of(alloc, a.get(), widths)?;
            complement(alloc, a)
        }
        Plan::Binary(op, a, b) => {
            let (a, b) = two_of(alloc, a.get(), b.get(), widths)?;
            binary(alloc, *op, a, b)
        }
        Plan::Mux(test, a, b) => {
            let test = typed_of(alloc, test.get(), widths)?;
            match two_of(alloc, a.get(), b.get(), widths) {
                Ok((a, b)) => choice(alloc, test, a, b),
                Err(missing) => {
                    drop(test);
                    Err(missing)
                }
            }
        }
        Plan::Concat(parts) => joined_of(alloc, parts.as_slice(), widths),
        Plan::Slice(a, hi, lo) => {
            let a = typed_of(alloc, a.get(), widths)?;
            slice(alloc, a, *hi, *lo)
        }
        Plan::Zext(a, width) => {
            let a = typed_of(alloc, a.get(), widths)?;
            zero_extended(a, *width)
        }
        Plan::Sext(a, width) => {
            let a = typed_of(alloc, a.get(), widths)?;
            sign_extended(alloc, a, *width)
        }
        Plan::Call(args, body) => call_of(alloc, args.as_slice(), body.get(), widths),
    }
}

// The codes of two parts.
#[cycle(lowering)]
fn two_of(
    alloc: Global,
    a: &Plan,
    b: &Plan,
    widths: &[Option<u64>],
) -> Result<(Typed, Typed), Missing>
    ensures { MatchResult result (λ c. IsTyped widths.now (meaning a.now) (space a.now) c.0 × IsTyped widths.now (meaning b.now) (space b.now) c.1) (Lacks widths.now (both_found a.now b.now)) }
{
    let a = typed_of(alloc, a, widths)?;
    match typed_of(alloc, b, widths) {
        Ok(b) => Ok((a, b)),
        Err(missing) => {
            drop(a);
            Err(missing)
        }
    }
}

// The code of a concatenation, the first part in the high bits.
#[cycle(lowering)]
fn joined_of(alloc: Global, parts: &[Plan], widths: &[Option<u64>]) -> Result<Typed, Missing>
    ensures { MatchResult result (λ c. IsTyped widths.now (joined_found parts.now) (sum_by space parts.now) c) (Lacks widths.now (joined_found parts.now)) }
{
    let Some((first, rest)) = parts.split_first() else {
        return Err(Missing::Value);
    };
    let mut all = typed_of(alloc, first, widths)?;
    for part in rest {
        let low = match typed_of(alloc, part, widths) {
            Ok(low) => low,
            Err(missing) => {
                drop(all);
                return Err(missing);
            }
        };
        all = join(alloc, all, low)?;
    }
    Ok(all)
}

// The code of a call.
#[cycle(lowering)]
fn call_of(
    alloc: Global,
    args: &[Plan],
    body: &Plan,
    widths: &[Option<u64>],
) -> Result<Typed, Missing>
    ensures { MatchResult result (λ c. IsTyped widths.now (call_found args.now (meaning body.now)) (call_space args.now (space body.now)) c) (Lacks widths.now (call_found args.now (meaning body.now))) }
{
    let args = args_of(alloc, args, widths)?;
    match typed_of(alloc, body, args.widths.as_slice()) {
        Ok(body) => of_width(call(alloc, args, body.code), body.width),
        Err(missing) => {
            drop(args);
            Err(missing)
        }
    }
}

// Arguments, and their widths.
#[derive(Drop)]
struct Args {
    codes: Vec<Code>,
    widths: Vec<Option<u64>>,
}

impl Args {
    fn add(&mut self, arg: Typed) -> Result<(), NoMemory>
        ensures codes { OnOk result (self.new.codes.items ≡ self.old.codes.items ++ arg.code ∷ []) }
        ensures widths { OnOk result (self.new.widths.items ≡ self.old.widths.items ++ Some arg.width ∷ []) }
    {
        self.codes.push(arg.code)?;
        self.widths.push(Some(arg.width))?;
        Ok(())
    }
}

// The codes of arguments.
#[cycle(lowering)]
fn args_of(alloc: Global, plans: &[Plan], widths: &[Option<u64>]) -> Result<Args, Missing>
    ensures { MatchResult result (λ args. AreTyped widths.now plans.now args.codes.items args.widths.items) (Lacks widths.now (values_in plans.now)) }
{
    let mut args = Args {
        codes: Vec::new(alloc),
        widths: Vec::new(alloc),
    };
    for plan in plans {
        let arg = typed_of(alloc, plan, widths)?;
        args.add(arg)?;
    }
    Ok(args)
}

// The call of a body with these arguments.
#[tactic(auto, using(crate::proofs::Replacing::itself))]
fn call(alloc: Global, args: Args, body: Code) -> Result<Code, NoMemory>
    ensures { IfOk result (λ c. Replaces c (codes.Call args.codes.items body)) }
{
    drop(args.widths);
    match Boxed::new(alloc, body) {
        Ok(body) => Ok(Code::Call(List::new(args.codes), body)),
        Err(error) => {
            drop(args.codes);
            Err(error)
        }
    }
}

// A code of this width.
fn of_width(code: Result<Code, NoMemory>, width: u64) -> Result<Typed, Missing>
    ensures { IsCode code width result }
{
    match code {
        Ok(code) => Ok(Typed { code, width }),
        Err(_) => Err(Missing::NoMemory),
    }
}

#[tactic(auto, using(crate::proofs::Typing::word_gives, crate::proofs::Typing::word_nowhere))]
fn word_of(word: Option<Bits>) -> Result<Typed, Missing>
    ensures { GivesWord word result }
{
    match word {
        Some(word) => Ok(Typed {
            code: Code::Word(word.value()),
            width: u64::from(word.width()),
        }),
        None => Err(Missing::Value),
    }
}

#[tactic(auto, using(crate::proofs::Typing::name_gives, crate::proofs::Typing::name_nowhere, crate::proofs::Typing::name_unknown, crate::proofs::Typing::name_wrong, crate::proofs::Typing::name_past))]
fn name_of(widths: &[Option<u64>], place: Option<usize>) -> Result<Typed, Missing>
    ensures { MatchResult result (λ c. IsTyped widths.now (λ s. at_place s place) 0 c) (Lacks widths.now (λ s. at_place s place)) }
{
    let Some(place) = place else {
        return Err(Missing::Value);
    };
    if place >= widths.len() {
        return Err(Missing::Value);
    }
    let Some(width) = widths[place] else {
        return Err(Missing::Value);
    };
    if width == 0 || width > 64 {
        return Err(Missing::Value);
    }
    Ok(Typed {
        code: Code::Name(place),
        width,
    })
}

fn complement(alloc: Global, a: Typed) -> Result<Typed, Missing>
    ensures { GivesOne (option_map not_of) a result }
{
    of_width(flipped(alloc, a.code, mask(a.width)), a.width)
}

// The code of a complement.
#[tactic(auto, using(crate::proofs::Replacing::flip_is, crate::proofs::Replacing::itself))]
fn flipped(alloc: Global, a: Code, mask: u64) -> Result<Code, NoMemory>
    ensures { IfOk result (λ c. Replaces c (codes.Not a mask)) }
{
    match a {
        Code::Name(place) => Ok(Code::Flip(place, mask)),
        _ => Ok(Code::Not(Boxed::new(alloc, a)?, mask)),
    }
}

#[tactic(auto, using(crate::proofs::Typing::binary_wrong))]
fn binary(alloc: Global, op: BinOp, a: Typed, b: Typed) -> Result<Typed, Missing>
    ensures { GivesTwo (binary_found op) a b result }
{
    if !is_meant(op, a.width, b.width) {
        drop(a);
        drop(b);
        return Err(Missing::Value);
    }
    let mask = mask(a.width);
    let code = applied(alloc, op, a.code, b.code, a.width, mask);
    of_width(code, binary_width(op, a.width))
}

// The code of a binary operator.
fn applied(
    alloc: Global,
    op: BinOp,
    a: Code,
    b: Code,
    width: u64,
    mask: u64,
) -> Result<Code, NoMemory>
    ensures { IfOk result (λ c. Replaces c (codes.Binary op a b width mask)) }
{
    match single(op, &a, &b) {
        Some(code) => {
            drop(a);
            drop(b);
            Ok(code)
        }
        None => grouped(alloc, op, a, b, width, mask),
    }
}

// The code of a binary operator that a single step computes.
fn single(op: BinOp, a: &Code, b: &Code) -> Option<Code>
    ensures { (width mask : ℕ) → IfSome result (λ c. Replaces c (codes.Binary op a.now b.now width mask)) }
{
    match same(op, a, b) {
        Some(code) => Some(code),
        None => union(op, a, b),
    }
}

// The code of a binary operator that no single step computes. In a chain of `|` the last two operands become one set where they can.
fn grouped(
    alloc: Global,
    op: BinOp,
    a: Code,
    b: Code,
    width: u64,
    mask: u64,
) -> Result<Code, NoMemory>
    ensures { IfOk result (λ c. Replaces c (codes.Binary op a b width mask)) }
{
    match a {
        Code::Binary(inner, first, last, width_of_a, mask_of_a) => {
            match chained(inner, union(op, last.get(), &b)) {
                Some(set) => {
                    drop(last);
                    drop(b);
                    with_set(alloc, first, set, width, mask)
                }
                None => {
                    let left = Code::Binary(inner, first, last, width_of_a, mask_of_a);
                    pair(alloc, op, left, b, width, mask)
                }
            }
        }
        other => pair(alloc, op, other, b, width, mask),
    }
}

// The set, if the operator before it is `|`.
fn chained(inner: BinOp, set: Option<Code>) -> Option<Code>
    ensures { IfSome result (λ c. (inner ≡ BinOp.Or) × (set ≡ Some c)) }
{
    match inner {
        BinOp::Or => set,
        _ => {
            drop(set);
            None
        }
    }
}

// A chain of `|` whose last operand is this set.
fn with_set(
    alloc: Global,
    first: Boxed<Code>,
    set: Code,
    width: u64,
    mask: u64,
) -> Result<Code, NoMemory>
    ensures { IfOk result (λ c. c ≡ codes.Binary BinOp.Or first set width mask) }
{
    match Boxed::new(alloc, set) {
        Ok(last) => Ok(Code::Binary(BinOp::Or, first, last, width, mask)),
        Err(error) => {
            drop(first);
            Err(error)
        }
    }
}

// The code of a binary operator on two codes.
#[tactic(auto, using(crate::proofs::Replacing::itself))]
fn pair(alloc: Global, op: BinOp, a: Code, b: Code, width: u64, mask: u64) -> Result<Code, NoMemory>
    ensures { IfOk result (λ c. Replaces c (codes.Binary op a b width mask)) }
{
    let (left, right) = boxed(alloc, a, b)?;
    Ok(Code::Binary(op, left, right, width, mask))
}

// The code of a comparison of a name with a word.
#[tactic(auto, using(crate::proofs::Replacing::same_is))]
fn same(op: BinOp, a: &Code, b: &Code) -> Option<Code>
    ensures { (width mask : ℕ) → IfSome result (λ c. Replaces c (codes.Binary op a.now b.now width mask)) }
{
    match (op, a, b) {
        (BinOp::Eq, Code::Name(place), Code::Word(word)) => Some(Code::Same(*place, *word)),
        _ => None,
    }
}

// The code of an `|` of two sets that the same name is tested for.
fn union(op: BinOp, a: &Code, b: &Code) -> Option<Code>
    ensures or { IfSome result (λ c. op ≡ BinOp.Or) }
    ensures set { (width mask : ℕ) → IfSome result (λ c. Replaces c (codes.Binary op a.now b.now width mask)) }
{
    let (place, left) = set_of(a)?;
    let (other, right) = set_of(b)?;
    match op {
        BinOp::Or if place == other => Some(Code::Among(place, left | right)),
        _ => None,
    }
}

// The name that a code tests for a set of numbers below 64, and the set.
#[tactic(auto, using(crate::proofs::Replacing::itself))]
fn set_of(code: &Code) -> Option<(usize, u64)>
    ensures { IfSome result (λ s. Replaces (ends.Among s.0 s.1) code.now) }
{
    match code {
        Code::Same(place, word) if *word < 64 => Some((*place, 1 << *word)),
        Code::Among(place, set) => Some((*place, *set)),
        _ => None,
    }
}

// Two codes on the heap.
fn boxed(alloc: Global, a: Code, b: Code) -> Result<(Boxed<Code>, Boxed<Code>), NoMemory>
    ensures { IfOk result (λ boxes. boxes ≡ (a, b)) }
{
    match Boxed::new(alloc, a) {
        Ok(a) => match Boxed::new(alloc, b) {
            Ok(b) => Ok((a, b)),
            Err(error) => {
                drop(a);
                Err(error)
            }
        },
        Err(error) => {
            drop(b);
            Err(error)
        }
    }
}

// Whether the operands have the same width, or the operator is a shift.
fn is_meant(op: BinOp, left: u64, right: u64) -> bool
    ensures { result ≡ (is_shift op || left == right) }
{
    op.is_shift() || left == right
}

// The width of the result.
fn binary_width(op: BinOp, width: u64) -> u64
    ensures { result ≡ result_width op width }
{
    if op.is_comparison() { 1 } else { width }
}

#[tactic(auto, using(crate::proofs::Typing::mux_wrong))]
fn choice(alloc: Global, test: Typed, a: Typed, b: Typed) -> Result<Typed, Missing>
    ensures { GivesMux test a b result }
{
    if test.width != 1 || a.width != b.width {
        drop(test);
        drop(a);
        drop(b);
        return Err(Missing::Value);
    }
    of_width(mux(alloc, test.code, a.code, b.code), a.width)
}

// The code of a choice.
#[tactic(auto, using(crate::proofs::Replacing::itself))]
fn mux(alloc: Global, test: Code, a: Code, b: Code) -> Result<Code, NoMemory>
    ensures { IfOk result (λ c. Replaces c (codes.Mux test a b)) }
{
    match boxed(alloc, a, b) {
        Ok((yes, no)) => chosen_by(alloc, test, yes, no),
        Err(error) => {
            drop(test);
            Err(error)
        }
    }
}

// The code of a choice between these two.
#[tactic(auto, using(crate::proofs::Replacing::itself))]
fn chosen_by(alloc: Global, test: Code, yes: Boxed<Code>, no: Boxed<Code>) -> Result<Code, NoMemory>
    ensures { IfOk result (λ c. Replaces c (codes.Mux test yes no)) }
{
    let Some((place, word)) = tested(&test) else {
        let test = Boxed::new(alloc, test)?;
        return Ok(Code::Mux(test, yes, no));
    };
    drop(test);
    Ok(Code::Case(place, word, yes, no))
}

// The name that a code tests for being a word, and the word.
#[tactic(auto, using(crate::proofs::Replacing::case_of_same, crate::proofs::Replacing::case_of_name))]
fn tested(test: &Code) -> Option<(usize, u64)>
    ensures { (a b : Code) → IfSome result (λ x. Replaces (codes.Case x.0 x.1 a b) (codes.Mux test.now a b)) }
{
    match test {
        Code::Same(place, word) => Some((*place, *word)),
        Code::Name(place) => Some((*place, 1)),
        _ => None,
    }
}

#[tactic(auto, using(crate::proofs::Typing::join_over))]
fn join(alloc: Global, high: Typed, low: Typed) -> Result<Typed, Missing>
    ensures { GivesTwo join_found high low result }
{
    if high.width > 64 || low.width > 64 - high.width {
        drop(high);
        drop(low);
        return Err(Missing::Value);
    }
    let code = joined(alloc, high.code, low.code, low.width);
    of_width(code, high.width + low.width)
}

// The code of a concatenation of two parts.
#[tactic(auto, using(crate::proofs::Replacing::itself))]
fn joined(alloc: Global, high: Code, low: Code, width: u64) -> Result<Code, NoMemory>
    ensures { IfOk result (λ c. Replaces c (codes.Join high low width)) }
{
    let (top, bottom) = boxed(alloc, high, low)?;
    Ok(Code::Join(top, bottom, width))
}

#[tactic(auto, using(crate::proofs::Typing::slice_wrong))]
fn slice(alloc: Global, a: Typed, hi: u64, lo: u64) -> Result<Typed, Missing>
    ensures { GivesOne (option_and_then (checked_slice hi lo)) a result }
{
    if lo > hi || hi >= a.width {
        drop(a);
        return Err(Missing::Value);
    }
    let width = hi - lo + 1;
    of_width(bits(alloc, a.code, lo, mask(width)), width)
}

// The code of a slice.
#[tactic(auto, using(crate::proofs::Replacing::field_is))]
fn bits(alloc: Global, a: Code, lo: u64, mask: u64) -> Result<Code, NoMemory>
    ensures { IfOk result (λ c. Replaces c (codes.Slice a lo mask)) }
{
    match a {
        Code::Name(place) => Ok(Code::Field(place, lo, mask)),
        _ => Ok(Code::Slice(Boxed::new(alloc, a)?, lo, mask)),
    }
}

#[tactic(auto, using(crate::proofs::Typing::zext_wrong))]
fn zero_extended(a: Typed, width: u64) -> Result<Typed, Missing>
    ensures { GivesOne (option_and_then (checked_zext width)) a result }
{
    if a.width > width || width > 64 {
        drop(a);
        return Err(Missing::Value);
    }
    Ok(Typed {
        code: a.code,
        width,
    })
}

#[tactic(auto, using(crate::proofs::Typing::sext_wrong))]
fn sign_extended(alloc: Global, a: Typed, width: u64) -> Result<Typed, Missing>
    ensures { GivesOne (option_and_then (checked_sext width)) a result }
{
    if a.width > width || width > 64 {
        drop(a);
        return Err(Missing::Value);
    }
    let narrow = mask(a.width);
    let more = mask(width).wrapping_sub(narrow);
    of_width(extended(alloc, a.code, narrow / 2, more), width)
}

// The code of an extension by the sign.
#[tactic(auto, using(crate::proofs::Replacing::itself))]
fn extended(alloc: Global, a: Code, top: u64, more: u64) -> Result<Code, NoMemory>
    ensures { IfOk result (λ c. Replaces c (codes.Sext a top more)) }
{
    Ok(Code::Sext(Boxed::new(alloc, a)?, top, more))
}

// The greatest number of a width, and 0 if the width is not in 1 to 64.
#[tactic(auto, using(kp_bits::proofs::Powers::mask_of))]
fn mask(width: u64) -> u64
    ensures { IsMask width result }
{
    if width == 0 || width > 64 {
        return 0;
    }
    u64::MAX >> (64 - width)
}
