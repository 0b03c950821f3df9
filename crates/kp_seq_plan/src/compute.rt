//! The value of a code. Computing it allocates nothing: the arguments of calls are stored in scratch space of the caller.
ghost use Rattle.std.specs.Prelude.{◌≡◌, ◌≤◌, ◌+◌, length, map, All, sum_by, slice_index};
ghost use Rattle.kp_seq_plan.specs.Codes.{value_of, space_of, member};

use crate::code::Code;

/// The value of a code, given these values of its names by index. A code without parts needs no call.
#[inline]
#[cycle(compute)]
pub fn value(code: &Code, names: &[u64], room: &mut [u64]) -> u64
    requires { space_of code.now ≤ length room.old }
    ensures value { result ≡ value_of code.now names.now }
    ensures room { length room.new ≡ length room.old }
{
    match code {
        Code::Word(word) => *word,
        Code::Name(place) => held(names, *place),
        Code::Same(place, word) => u64::from(held(names, *place) == *word),
        Code::Field(place, lo, mask) => (held(names, *place) >> (*lo & 63)) & *mask,
        Code::Flip(place, mask) => mask.wrapping_sub(held(names, *place)),
        Code::Among(place, set) => member(*set, held(names, *place)),
        _ => of_parts(code, names, room),
    }
}

// The value of a code with parts. Inlined into `value`, it would make each leaf a call. A chain of cases is a loop that saves no register.
#[inline(never)]
#[cycle(compute)]
fn of_parts(code: &Code, names: &[u64], room: &mut [u64]) -> u64
    requires { space_of code.now ≤ length room.old }
    ensures value { result ≡ value_of code.now names.now }
    ensures room { length room.new ≡ length room.old }
{
    match code {
        Code::Case(place, word, a, b) => {
            if held(names, *place) == *word {
                value(a.get(), names, room)
            } else {
                value(b.get(), names, room)
            }
        }
        _ => of_others(code, names, room),
    }
}

// The value of a code, from those of its parts.
#[inline(never)]
#[cycle(compute)]
fn of_others(code: &Code, names: &[u64], room: &mut [u64]) -> u64
    requires { space_of code.now ≤ length room.old }
    ensures value { result ≡ value_of code.now names.now }
    ensures room { length room.new ≡ length room.old }
{
    match code {
        Code::Word(word) => *word,
        Code::Name(place) => held(names, *place),
        Code::Not(a, mask) => mask.wrapping_sub(value(a.get(), names, room)),
        Code::Binary(op, a, b, width, mask) => {
            let a = value(a.get(), names, room);
            let b = value(b.get(), names, room);
            op.on_words(a, b, *width, *mask)
        }
        Code::Mux(test, a, b) => {
            if value(test.get(), names, room) == 1 {
                value(a.get(), names, room)
            } else {
                value(b.get(), names, room)
            }
        }
        Code::Case(place, word, a, b) => {
            if held(names, *place) == *word {
                value(a.get(), names, room)
            } else {
                value(b.get(), names, room)
            }
        }
        Code::Join(high, low, width) => {
            let high = value(high.get(), names, room);
            let low = value(low.get(), names, room);
            (high << (*width & 63)) | low
        }
        Code::Slice(a, lo, mask) => (value(a.get(), names, room) >> (*lo & 63)) & *mask,
        Code::Sext(a, top, more) => {
            let a = value(a.get(), names, room);
            if a > *top { a.wrapping_add(*more) } else { a }
        }
        Code::Call(args, body) => called(args.as_slice(), body.get(), names, room),
        Code::Same(place, word) => u64::from(held(names, *place) == *word),
        Code::Field(place, lo, mask) => (held(names, *place) >> (*lo & 63)) & *mask,
        Code::Flip(place, mask) => mask.wrapping_sub(held(names, *place)),
        Code::Among(place, set) => member(*set, held(names, *place)),
    }
}

// The value of a body with these arguments.
#[cycle(compute)]
fn called(args: &[Code], body: &Code, names: &[u64], room: &mut [u64]) -> u64
    requires room { space_of body.now + (length args.now + sum_by space_of args.now) ≤ length room.old }
    ensures value { result ≡ value_of body.now (map (λ a. value_of a names.now) args.now) }
    ensures room { length room.new ≡ length room.old }
{
    let (values, rest) = room.split_at_mut(args.len());
    put_values(args, names, values, rest);
    value(body, values, rest)
}

// Writes the values of codes into a list.
#[cycle(compute)]
fn put_values(codes: &[Code], names: &[u64], values: &mut [u64], room: &mut [u64])
    requires count { length codes.now ≡ length values.old }
    requires room { All (λ c. space_of c ≤ length room.old) codes.now }
    ensures values { values.new ≡ map (λ c. value_of c names.now) codes.now }
    ensures room { length room.new ≡ length room.old }
{
    for i in 0..codes.len() {
        values[i] = value(&codes[i], names, room);
    }
}

// The value under an index.
#[inline]
fn held(names: &[u64], place: usize) -> u64
    ensures { result ≡ slice_index names.now place }
{
    if place < names.len() { names[place] } else { 0 }
}

// Whether a number is in a set of numbers below 64: the bit of the set at this number.
#[inline]
#[tactic(auto, using(std::proofs::lemmas::Nat::Bits::shr_and_one))]
fn member(set: u64, number: u64) -> u64
    ensures { result ≡ member set number }
{
    if number < 64 { (set >> number) & 1 } else { 0 }
}
