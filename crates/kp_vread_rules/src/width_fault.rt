// What is wrong with the widths of a port, of a line or of an update: rule V4.
ghost use Rattle.std.specs.Prelude.{◌≡◌, ◌==◌, ◌&&◌, ◌^◌, ◌≤◌, ◌∷◌, nat_lt, nat_le, length, true};
ghost use Rattle.kp_base.specs.First.{first};
ghost use Rattle.kp_vlog.specs.Scope.{width_in, address_in};
ghost use Rattle.kp_vlog.specs.Rules.{range_fits as is_range, stall_fits as is_stall, four_bits as has_four_bits, words_fit as are_words, literal_fits as is_fitting, op_fits as is_op, width_sum as sum_of, right_fits as is_right, loop_fits as is_loop};
ghost use Rattle.kp_vlog.specs.declared.tree.Right.TheVariants as sides;
ghost use Rattle.kp_vlog.specs.declared.tree.Update.TheVariants as edges;
ghost use Rattle.kp_vread_rules.specs.Faults.{found};
ghost use Rattle.kp_vread_rules.specs.declared.fault.ModuleFault.TheVariants as modules;
ghost use Rattle.kp_vread_rules.specs.WidthFaults.{file_fault, wrong, side, value_fault, word_fault, literal_fault, op_fault, right_fault, start_fault, literal_asked, start_asked, init_asked, value_asked, update_asked};
ghost use Rattle.kp_vread_rules.specs.declared.fault.WidthFault.TheVariants as faults;
ghost use Rattle.kp_vread_rules.specs.inner.{Asking.names_in, Asking.scope_in, Sizing.item_by};

use crate::fault::{Found, ModuleFault, Side, WidthFault};
use crate::first::{Sought, first_at};
use crate::names::Occurrence;
use crate::sizes::{Sizes, address_width};
use kp_bits::{BinOp, Literal, LiteralFault};
use kp_vlog::{Fill, Init, Item, Lit, Named, Num, Range, ResetValue, Right, Update, VPort};

/// The names of a module, and their sizes.
#[derive(Drop)]
pub(crate) struct Asked<'a, 'm> {
    pub names: &'a [Occurrence<'m>],
    pub sizes: &'a Sizes<'m>,
}

impl<'m> Asked<'_, 'm> {
    fn width(&self, named: &'m Named) -> u128
        ensures width { result ≡ width_in self.now.sizes.now named.now.name }
        ensures at_most { result ≤ 2 ^ 64 }
    {
        self.sizes.width(&named.name)
    }

    // A name with its width and its declaration.
    fn side(&self, named: &'m Named) -> Side
        ensures { result ≡ side self.now.sizes.now (names_in self.now) named.now }
    {
        Side {
            name: named.at,
            width: self.width(named),
            declared: first_at(self.names, Sought::Declaration, named),
        }
    }

    // A value of this width for a target of another one.
    fn value_fault(&self, target: &'m Named, found: u128) -> WidthFault
        ensures { result ≡ value_fault self.now.sizes.now (names_in self.now) target.now found }
    {
        WidthFault::Value {
            target: self.side(target),
            found,
        }
    }

    // Whether the address has the width of those of the file.
    fn addresses(&self, file: &'m Named, address: &'m Named) -> bool
        ensures { result ≡ (width_in self.now.sizes.now address.now.name == address_in self.now.sizes.now file.now.name) }
    {
        self.width(address) == u128::from(self.sizes.address(&file.name))
    }

    // A word of a file at an address, of this width, for a target.
    fn word_fault(
        &self,
        file: &'m Named,
        address: &'m Named,
        target: &'m Named,
        found: u128,
    ) -> WidthFault
        ensures { result ≡ word_fault self.now.sizes.now (names_in self.now) file.now address.now target.now found }
    {
        if self.addresses(file, address) {
            return self.value_fault(target, found);
        }
        WidthFault::Address {
            address: self.side(address),
            file: file.at,
            wanted: self.sizes.address(&file.name),
        }
    }
}

fn found(at: u32, fault: WidthFault) -> Found
    ensures { result ≡ found at (modules.Width fault) }
{
    Found {
        at,
        fault: ModuleFault::Width(fault),
    }
}

// What is found at an offset if a check fails.
fn wrong(holds: bool, at: u32, fault: WidthFault) -> Option<Found>
    ensures { result ≡ wrong holds at fault }
{
    if holds { None } else { Some(found(at, fault)) }
}

/// The port of a sample.
pub(crate) fn wrong_sample(port: &VPort) -> Option<Found>
    ensures { result ≡ wrong (is_range port.now.range) port.now.port.at faults.Range }
{
    wrong(range_fits(&port.range), port.port.at, WidthFault::Range)
}

/// A port as wide as the stall word, which has 2 to 12 bits.
pub(crate) fn wrong_stall(port: &VPort) -> Option<Found>
    ensures { result ≡ wrong (is_stall port.now.range) port.now.port.at faults.StallRange }
{
    let Range { high, low } = port.range;
    let fits = low.value == 0 && (1 <= high.value && high.value <= 11);
    wrong(fits, port.port.at, WidthFault::StallRange)
}

/// The port `back`.
pub(crate) fn wrong_back(port: &VPort) -> Option<Found>
    ensures { result ≡ wrong (has_four_bits port.now.range) port.now.port.at faults.BackRange }
{
    let fits = port.range.low.value == 0 && port.range.high.value == 3;
    wrong(fits, port.port.at, WidthFault::BackRange)
}

fn range_fits(range: &Range) -> bool
    ensures { result ≡ is_range range.now }
{
    range.low.value == 0 && range.high.value <= 63
}

fn words_fit(words: &Range) -> bool
    ensures { result ≡ are_words words.now }
{
    words.high.value == 0 && address_width(words.low.value).is_some()
}

/// A line before `initial`, if the given number of files come before it.
#[tactic(auto, using(crate::proofs::Firsts::first_one))]
pub(crate) fn wrong_item<'m>(asked: &Asked<'_, 'm>, files: usize, item: &'m Item) -> Option<Found>
    ensures { result ≡ first (item_by asked.now.sizes.now (names_in asked.now) files item.now) }
{
    match item {
        Item::Reg(range, name) | Item::Wire(range, name) => {
            wrong(range_fits(range), name.at, WidthFault::Range)
        }
        Item::File(range, name, words) => wrong_file(files, range, name, words),
        Item::Integer(_) => None,
        Item::Assign(target, right) => wrong_assign(asked, target, right),
    }
}

// A file, if the given number of files come before it.
fn wrong_file(files: usize, range: &Range, name: &Named, words: &Range) -> Option<Found>
    ensures { result ≡ wrong (is_range range.now && (are_words words.now && nat_lt files 16)) name.now.at (file_fault range.now words.now) }
{
    if !range_fits(range) {
        return Some(found(name.at, WidthFault::Range));
    }
    if !words_fit(words) {
        return Some(found(name.at, WidthFault::Words));
    }
    wrong(files < 16, name.at, WidthFault::Files)
}

#[tactic(auto, using(crate::proofs::Firsts::wrong_found, crate::proofs::Firsts::wrong_past))]
fn wrong_assign<'m>(asked: &Asked<'_, 'm>, target: &'m Named, right: &'m Right) -> Option<Found>
    ensures { result ≡ first (wrong (is_right asked.now.sizes.now (width_in asked.now.sizes.now target.now.name) right.now) target.now.at
        (right_fault asked.now.sizes.now (names_in asked.now) target.now right.now) ∷ literal_asked right.now) }
{
    if !right_fits(asked, asked.width(target), right) {
        return Some(found(target.at, right_fault(asked, target, right)));
    }
    match right {
        Right::Literal(literal) => wrong_literal(literal),
        _ => None,
    }
}

fn right_fits<'m>(asked: &Asked<'_, 'm>, width: u128, right: &'m Right) -> bool
    requires { width ≤ 2 ^ 64 }
    ensures { result ≡ is_right asked.now.sizes.now width right.now }
{
    match right {
        Right::Literal(literal) => u128::from(literal.literal.width) == width,
        Right::Name(a) | Right::Not(a) => asked.width(a) == width,
        Right::Binary(op, a, b) => op_fits(*op, width, asked.width(a), asked.width(b)),
        Right::Choice(test, a, b) => {
            asked.width(test) == 1 && (asked.width(a) == width && asked.width(b) == width)
        }
        Right::Slice(a, high, low) => {
            has_bits(asked.width(a), *high, *low)
                && u128::from(high.value) + 1 == width + u128::from(low.value)
        }
        Right::Word(file, address) => {
            asked.width(file) == width && asked.addresses(file, address)
        }
        Right::Concat(parts) => concat_fits(asked, width, parts.as_slice()),
    }
}

fn op_fits(op: BinOp, width: u128, a: u128, b: u128) -> bool
    ensures { result ≡ is_op op width a b }
{
    let found = if op.is_comparison() { 1 } else { a };
    found == width && (op.is_shift() || a == b)
}

// Whether a wire of this width has the bits.
fn has_bits(width: u128, high: Num, low: Num) -> bool
    ensures { result ≡ (nat_le low.value high.value && nat_lt high.value width) }
{
    low.value <= high.value && u128::from(high.value) < width
}

fn concat_fits<'m>(asked: &Asked<'_, 'm>, width: u128, parts: &'m [Named]) -> bool
    ensures { result ≡ (nat_le 2 (length parts.now) && (nat_le (length parts.now) 12 && sum_of asked.now.sizes.now parts.now == width)) }
{
    2 <= parts.len() && (parts.len() <= 12 && width_sum(asked, parts) == width)
}

fn width_sum<'m>(asked: &Asked<'_, 'm>, parts: &'m [Named]) -> u128
    ensures { result ≡ sum_of asked.now.sizes.now parts.now }
{
    let mut sum = 0;
    for part in parts {
        sum += asked.width(part);
    }
    sum
}

// Why a right side doesn't fit its target.
fn right_fault<'m>(asked: &Asked<'_, 'm>, target: &'m Named, right: &'m Right) -> WidthFault
    ensures { result ≡ right_fault asked.now.sizes.now (names_in asked.now) target.now right.now }
{
    match right {
        Right::Literal(literal) => { asked.value_fault(target, u128::from(literal.literal.width)) }
        Right::Name(a) | Right::Not(a) => asked.value_fault(target, asked.width(a)),
        Right::Binary(op, a, b) => {
            op_fault(*op, asked.side(a), asked.side(b), asked.side(target))
        }
        Right::Choice(test, a, b) => choice_fault(asked, test, a, b, target),
        Right::Slice(a, high, low) => slice_fault(asked, a, *high, *low, target),
        Right::Word(file, address) => { asked.word_fault(file, address, target, asked.width(file)) }
        Right::Concat(parts) => { asked.value_fault(target, width_sum(asked, parts.as_slice())) }
    }
}

fn op_fault(op: BinOp, a: Side, b: Side, target: Side) -> WidthFault
    ensures { result ≡ op_fault op a b target }
{
    if op.is_shift() {
        WidthFault::Shifted { op, a, target }
    } else if !op.is_comparison() {
        WidthFault::Operands { op, a, b, target }
    } else if a.width == b.width {
        WidthFault::Comparison { op, target }
    } else {
        WidthFault::Compared { op, a, b }
    }
}

fn choice_fault<'m>(
    asked: &Asked<'_, 'm>,
    test: &'m Named,
    a: &'m Named,
    b: &'m Named,
    target: &'m Named,
) -> WidthFault
    ensures { result ≡ right_fault asked.now.sizes.now (names_in asked.now) target.now (sides.Choice test.now a.now b.now) }
{
    if asked.width(test) != 1 {
        return WidthFault::Test(asked.side(test));
    }
    WidthFault::Branches {
        a: asked.side(a),
        b: asked.side(b),
        target: asked.side(target),
    }
}

fn slice_fault<'m>(
    asked: &Asked<'_, 'm>,
    a: &'m Named,
    high: Num,
    low: Num,
    target: &'m Named,
) -> WidthFault
    ensures { result ≡ right_fault asked.now.sizes.now (names_in asked.now) target.now (sides.Slice a.now high low) }
{
    let width = asked.width(a);
    if has_bits(width, high, low) {
        let found = u128::from(high.value) + 1 - u128::from(low.value);
        return asked.value_fault(target, found);
    }
    WidthFault::Slice {
        high: high.value,
        low: low.value,
        width,
    }
}

fn wrong_literal(literal: &Lit) -> Option<Found>
    ensures { result ≡ wrong (is_fitting literal.now.literal) literal.now.at (literal_fault literal.now.literal) }
{
    let Literal { width, value } = literal.literal;
    match literal.literal.fit() {
        Ok(_) => None,
        Err(LiteralFault::TooBig) => Some(found(
            literal.at,
            WidthFault::LiteralValue { value, width },
        )),
        Err(_) => Some(found(literal.at, WidthFault::LiteralWidth(width))),
    }
}

/// A start value.
pub(crate) fn wrong_init<'m>(asked: &Asked<'_, 'm>, init: &'m Init) -> Option<Found>
    ensures { result ≡ first (init_asked (scope_in asked.now) (names_in asked.now) init.now) }
{
    match init {
        Init::Reg(name, value) => wrong_register(asked, name, value),
        Init::Word(file, index, value) => {
            let words = asked.sizes.words(&file.name);
            let fault = WidthFault::Index {
                words,
                found: index.value,
            };
            wrong_start(asked, file, value, index.value < words, fault)
        }
        Init::Fill(fill) => {
            let words = asked.sizes.words(&fill.file.name);
            let fault = WidthFault::Loop { words };
            wrong_start(
                asked,
                &fill.file,
                &fill.value,
                is_complete(fill, words),
                fault,
            )
        }
    }
}

/// A line of the reset list.
pub(crate) fn wrong_value<'m>(asked: &Asked<'_, 'm>, value: &'m ResetValue) -> Option<Found>
    ensures { result ≡ first (value_asked (scope_in asked.now) (names_in asked.now) value.now) }
{
    wrong_register(asked, &value.name, &value.value)
}

// The value of a register.
fn wrong_register<'m>(asked: &Asked<'_, 'm>, name: &'m Named, value: &Lit) -> Option<Found>
    ensures { result ≡ first (start_asked (scope_in asked.now) (names_in asked.now) name.now value.now true
        (value_fault asked.now.sizes.now (names_in asked.now) name.now value.now.literal.width)) }
{
    let width = u128::from(value.literal.width);
    if width == asked.width(name) {
        return wrong_literal(value);
    }
    Some(found(name.at, asked.value_fault(name, width)))
}

// The value of the words of a file, with the fault if something else is wrong.
fn wrong_start<'m>(
    asked: &Asked<'_, 'm>,
    file: &'m Named,
    value: &Lit,
    holds: bool,
    other: WidthFault,
) -> Option<Found>
    ensures { result ≡ first (start_asked (scope_in asked.now) (names_in asked.now) file.now value.now holds other) }
{
    let width = u128::from(value.literal.width);
    if width != asked.width(file) {
        return Some(found(file.at, asked.value_fault(file, width)));
    }
    if !holds {
        return Some(found(file.at, other));
    }
    wrong_literal(value)
}

// Whether the loop goes over all words of a file with this number of them.
fn is_complete(fill: &Fill, words: u64) -> bool
    ensures { result ≡ (fill.now.from.value == 0 && (fill.now.by.value == 1 && fill.now.limit.value == words)) }
{
    fill.from.value == 0 && (fill.by.value == 1 && fill.limit.value == words)
}

/// An update.
pub(crate) fn wrong_update<'m>(asked: &Asked<'_, 'm>, update: &'m Update) -> Option<Found>
    ensures { result ≡ update_asked (scope_in asked.now) (names_in asked.now) update.now }
{
    match update {
        Update::Reg(name, value) => {
            let width = asked.width(value);
            if width == asked.width(name) {
                return None;
            }
            Some(found(name.at, asked.value_fault(name, width)))
        }
        Update::File(test, file, address, value) => {
            wrong_write(asked, test, file, address, value)
        }
    }
}

// A word of a file is written.
fn wrong_write<'m>(
    asked: &Asked<'_, 'm>,
    test: &'m Named,
    file: &'m Named,
    address: &'m Named,
    value: &'m Named,
) -> Option<Found>
    ensures { result ≡ update_asked (scope_in asked.now) (names_in asked.now) (edges.File test.now file.now address.now value.now) }
{
    if asked.width(test) != 1 {
        return Some(found(file.at, WidthFault::Test(asked.side(test))));
    }
    let width = asked.width(value);
    if asked.addresses(file, address) && width == asked.width(file) {
        return None;
    }
    Some(found(file.at, asked.word_fault(file, address, file, width)))
}
