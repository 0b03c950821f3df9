// Words of the state, and values, as they are written.
ghost use Rattle.std.specs.Prelude.{◌≡◌, ◌==◌, ◌+◌, ◌^◌, ◌<◌, ◌≤◌, ◌||◌, nat_lt, length, position, IfOk, IfSome, option_map, Some};
ghost use Rattle.std.specs.{Char.is_digit, Char.digit_value, List.list_all};
ghost use Rattle.kp_bits.specs.Literals.{fit_of, is_numeral, is_underscore, numeral_value, number_within};
ghost use Rattle.kp_machine.specs.{Slots.targets_of, Slots.number_of, Slots.is_register, Words.HasWord, Words.target as slot_at};
ghost use Rattle.kp_until.specs.inner.Named.{declares, targets_in};
ghost use Rattle.kp_until.specs.Parts.{is_open, is_dot, ends_in, front, address_of, range_of, after_dots, index_at, index_in, after_open, checked, part_with, part_of, single, fitted, bare, literal_value, plain, after_0x, hexadecimal, value_of, IsPart};

use kp_ast::Decl;
use kp_bits::{Bits, Literal, LiteralFault, read_literal, read_number, read_numeral};
use kp_design::Layout;

/// Which words of a target.
#[derive(Clone, Copy)]
pub enum Index {
    /// No index: a register, or all words of a file.
    Whole,
    /// `[3]`.
    One(u32),
    /// `[0..15]`: both ends belong to it.
    Between(u32, u32),
    /// `[..]`.
    Others,
}

/// Words of a target.
#[derive(Clone, Copy)]
pub struct Part {
    pub target: u32,
    pub index: Index,
}

/// Why bytes name no words.
#[derive(Clone, Copy)]
pub enum PartFault {
    NoTarget,
    /// The target doesn't have these words.
    NoWord(u32),
}

/// Why bytes are no value.
#[derive(Clone, Copy)]
pub enum ValueFault {
    NoNumber,
    TooWide,
}

/// The words that bytes name in a job.
#[tactic(auto, unfolding(crate::specs::Parts::part_of))]
pub fn part_of(layout: &Layout<'_>, run: &[u8]) -> Result<Part, PartFault>
    ensures part { result ≡ part_of layout.now run.now }
    ensures fits { IfOk result (IsPart layout.now) }
{
    match find(run, b'[') {
        Some(i) => part_with(layout, &run[..i], after_open(&run[i + 1..])),
        None => part_with(layout, run, Some(Index::Whole)),
    }
}

/// The position of the first such byte.
pub(crate) fn find(run: &[u8], byte: u8) -> Option<usize>
    ensures place { result ≡ position (λ c. c == byte) run.now }
    ensures within { IfSome result (λ i. i < length run.now) }
{
    run.iter().position(|c| *c == byte)
}

/// The last byte is this one.
pub(crate) fn ends_in(byte: u8, run: &[u8]) -> bool
    ensures { result ≡ ends_in byte run.now }
{
    match run.split_last() {
        Some((last, _)) => *last == byte,
        None => false,
    }
}

/// All bytes but the last.
pub(crate) fn front(run: &[u8]) -> &[u8]
    ensures { result.now ≡ front run.now }
{
    match run.split_last() {
        Some((_, front)) => front,
        None => run,
    }
}

// What follows the `[`.
fn after_open(rest: &[u8]) -> Option<Index>
    ensures { result ≡ after_open rest.now }
{
    if ends_in(b']', rest) {
        index_in(front(rest))
    } else {
        None
    }
}

// What is in the brackets.
fn index_in(inner: &[u8]) -> Option<Index>
    ensures { result ≡ index_in inner.now }
{
    if inner == b"..".as_slice() {
        return Some(Index::Others);
    }
    match find(inner, b'.') {
        Some(i) => range_of(
            address_of(&inner[..i]),
            address_of(after_dots(&inner[i..])?),
        ),
        None => Some(Index::One(address_of(inner)?)),
    }
}

fn after_dots(run: &[u8]) -> Option<&[u8]>
    ensures { option_map (λ rest. rest.now) result ≡ after_dots run.now }
{
    match run {
        [first, second, rest @ ..] if *first == b'.' && *second == b'.' => Some(rest),
        _ => None,
    }
}

fn range_of(first: Option<u32>, last: Option<u32>) -> Option<Index>
    ensures { result ≡ range_of first last }
{
    Some(Index::Between(first?, last?))
}

fn address_of(run: &[u8]) -> Option<u32>
    ensures { result ≡ address_of run.now }
{
    u32::try_from(read_number(run)?).ok()
}

// The words of the target with this name.
fn part_with(layout: &Layout<'_>, name: &[u8], index: Option<Index>) -> Result<Part, PartFault>
    ensures part { result ≡ part_with layout.now (number_of (targets_of layout.now.decls) name.now) index }
    ensures fits { IfOk result (IsPart layout.now) }
{
    let Some(index) = index else {
        return Err(PartFault::NoTarget);
    };
    let target = number_of(layout.job().decls.as_slice(), name);
    if target < layout.target_count() as usize {
        checked(layout, target as u32, index)
    } else {
        Err(PartFault::NoTarget)
    }
}

// The number of the first target with this name, or the number of targets if none has it.
fn number_of(decls: &[Decl], name: &[u8]) -> usize
    ensures { result ≡ number_of (targets_of decls.now) name.now }
{
    let mut t = 0;
    for decl in decls {
        if declares(decl, name) {
            return t;
        }
        t += targets_in(decl);
    }
    t
}

// Whether a declaration declares a target with this name.
fn declares(decl: &Decl, name: &[u8]) -> bool
    ensures { result ≡ declares decl.now name.now }
{
    match decl {
        Decl::Reg(n, _, _) | Decl::File(n, _, _) => name == n.name.bytes(),
        _ => false,
    }
}

fn targets_in(decl: &Decl) -> usize
    ensures value { result ≡ targets_in decl.now }
    ensures small { result ≤ 1 }
{
    match decl {
        Decl::Reg(_, _, _) | Decl::File(_, _, _) => 1,
        _ => 0,
    }
}

fn checked(layout: &Layout<'_>, target: u32, index: Index) -> Result<Part, PartFault>
    requires { target < length (targets_of layout.now.decls) }
    ensures part { result ≡ checked target (slot_at layout.now target) index }
    ensures fits { IfOk result (IsPart layout.now) }
{
    let there = match index {
        Index::Whole => return Ok(Part { target, index }),
        _ if layout.is_register(target) => return Err(PartFault::NoTarget),
        Index::One(a) => has(layout, target, a),
        Index::Between(a, b) => a <= b && has(layout, target, b),
        Index::Others => true,
    };
    if there {
        Ok(Part { target, index })
    } else {
        Err(PartFault::NoWord(target))
    }
}

// Whether a target has this address.
fn has(layout: &Layout<'_>, target: u32, address: u32) -> bool
    requires { target < length (targets_of layout.now.decls) }
    ensures { result ≡ nat_lt address (2 ^ (slot_at layout.now target).address) }
{
    address < 1 << layout.address(target)
}

/// The address of a single word: that of a register is 0.
pub(crate) fn single(layout: &Layout<'_>, part: Part) -> Option<u32>
    requires { IsPart layout.now part }
    ensures address { result ≡ single (slot_at layout.now part.target) part.index }
    ensures there { IfSome result (HasWord layout.now part.target) }
{
    match part.index {
        Index::Whole if layout.is_register(part.target) => Some(0),
        Index::One(a) => Some(a),
        _ => None,
    }
}

/// The value of this width that bytes denote.
#[tactic(auto, unfolding(crate::specs::Parts::value_of))]
pub fn value_of(width: u8, run: &[u8]) -> Result<Bits, ValueFault>
    ensures { result ≡ value_of width run.now }
{
    let width = u64::from(width);
    if let Some(digits) = after_0x(run) {
        return bare(width, read_numeral(16, digits));
    }
    match read_number(run) {
        Some(value) => bare(width, Some(value)),
        None => literal_value(width, read_literal(run)),
    }
}

// The digits after `0x`.
fn after_0x(run: &[u8]) -> Option<&[u8]>
    ensures { option_map (λ digits. digits.now) result ≡ after_0x run.now }
{
    match run {
        [first, second, digits @ ..] if *first == b'0' && *second == b'x' => hexadecimal(digits),
        _ => None,
    }
}

// These digits, if they are some.
fn hexadecimal(digits: &[u8]) -> Option<&[u8]>
    ensures { option_map (λ digits. digits.now) result ≡ hexadecimal digits.now }
{
    if is_hexadecimal(digits) {
        Some(digits)
    } else {
        None
    }
}

fn is_hexadecimal(run: &[u8]) -> bool
    ensures { result ≡ is_numeral 16 run.now }
{
    let [first, rest @ ..] = run else {
        return false;
    };
    if !is_digit(*first) {
        return false;
    }
    are_digits(rest)
}

fn are_digits(run: &[u8]) -> bool
    ensures { result ≡ list_all (λ c. is_digit c 16 || is_underscore c) run.now }
{
    run.iter().all(|c| is_digit(*c) || *c == b'_')
}

fn is_digit(c: u8) -> bool
    ensures { result ≡ is_digit c 16 }
{
    digit_value(c) < 16
}

// The value of a hexadecimal digit, and 16 or more for any other byte.
fn digit_value(c: u8) -> u64
    ensures { result ≡ digit_value c }
{
    match c {
        b'0'..=b'9' => u64::from(c - b'0'),
        b'A'..=b'Z' => u64::from(c - b'A') + 10,
        b'a'..=b'z' => u64::from(c - b'a') + 10,
        _ => 36,
    }
}

fn bare(width: u64, value: Option<u64>) -> Result<Bits, ValueFault>
    ensures { result ≡ bare width value }
{
    match value {
        Some(value) => fitted(Literal { width, value }),
        None => Err(ValueFault::TooWide),
    }
}

fn literal_value(width: u64, literal: Result<Literal, LiteralFault>) -> Result<Bits, ValueFault>
    ensures { result ≡ literal_value width literal }
{
    match literal {
        Ok(literal) if literal.width == width => fitted(literal),
        Err(LiteralFault::BadDigit) => Err(ValueFault::NoNumber),
        _ => Err(ValueFault::TooWide),
    }
}

fn fitted(literal: Literal) -> Result<Bits, ValueFault>
    ensures { result ≡ fitted (fit_of literal) }
{
    literal.fit().map_err(|_| ValueFault::TooWide)
}
