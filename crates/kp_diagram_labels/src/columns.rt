// The text beside a line, and the heading above it.
ghost use Rattle.std.specs.Prelude.{◌≡◌, ◌++◌, [], All, IfOk, OnOk, length, replicate};
ghost use Rattle.kp_bits.specs.Spelling.{hex_digits, quarters};
ghost use Rattle.kp_design.specs.Fits.{IsWidth};
ghost use Rattle.kp_diagram_labels.specs.Labels.{HasShown, IsLabel};
ghost use Rattle.kp_diagram_labels.specs.Texts.{column_text, heading, listed_text, names_text, slot_of, text_beside, text_for, text_with, value_text, values_text, wide};
ghost use Rattle.kp_listing.specs.Seen.{listing_seen};

use crate::label::{Label, Shown};
use kp_base::NoMemory;
use kp_bits::Bits;
use kp_design::Layout;
use kp_directive::bytes_of;
use kp_listing::Listing;
use kp_seq::Computed;
use std::alloc::Global;

/// The heading above labels, which a text names, and the texts of a listing.
pub fn heading_of(
    alloc: Global,
    layout: &Layout<'_>,
    text: &[u8],
    labels: &[Label],
    listing: &Listing,
) -> Result<Vec<u8>, NoMemory>
    requires { All (IsLabel layout.now text.now) labels.now }
    ensures { IfOk result (λ out. out.items ≡ heading layout.now text.now labels.now (listing_seen listing.now)) }
{
    let mut out = names_of(alloc, layout, text, labels)?;
    add_listed(&mut out, listing, &[])?;
    Ok(out)
}

fn names_of(
    alloc: Global,
    layout: &Layout<'_>,
    text: &[u8],
    labels: &[Label],
) -> Result<Vec<u8>, NoMemory>
    requires { All (IsLabel layout.now text.now) labels.now }
    ensures { IfOk result (λ out. out.items ≡ names_text layout.now text.now labels.now) }
{
    let mut out = Vec::new(alloc);
    for label in labels {
        add_column(
            &mut out,
            wide(layout, text, *label),
            bytes_of(text, label.name),
        )?;
    }
    Ok(out)
}

/// The text beside a line with these values of the labels.
pub(crate) fn text_beside(
    alloc: Global,
    layout: &Layout<'_>,
    text: &[u8],
    labels: &[Label],
    listing: &Listing,
    values: &[Option<Bits>],
) -> Result<Vec<u8>, NoMemory>
    requires labels { All (IsLabel layout.now text.now) labels.now }
    requires many { length values.now ≡ length labels.now }
    ensures { IfOk result (λ out. out.items ≡ text_beside layout.now text.now labels.now (listing_seen listing.now) values.now) }
{
    let mut out = Vec::new(alloc);
    add_values(&mut out, layout, text, labels, values)?;
    add_listed(&mut out, listing, text_for(listing, values))?;
    Ok(out)
}

// Appends the values of the labels.
fn add_values(
    out: &mut Vec<u8>,
    layout: &Layout<'_>,
    text: &[u8],
    labels: &[Label],
    values: &[Option<Bits>],
) -> Result<(), NoMemory>
    requires labels { All (IsLabel layout.now text.now) labels.now }
    requires many { length values.now ≡ length labels.now }
    ensures { OnOk result (out.new.items ≡ out.old.items ++ values_text layout.now text.now labels.now values.now) }
{
    for i in 0..labels.len() {
        add_value(out, wide(layout, text, labels[i]), values[i])?;
    }
    Ok(())
}

// The text of the address that the first value is.
fn text_for<'l>(listing: &'l Listing, values: &[Option<Bits>]) -> &'l [u8]
    ensures { result.now ≡ text_for (listing_seen listing.now) values.now }
{
    match values {
        [first, ..] => text_with(listing, *first),
        [] => &[],
    }
}

fn text_with<'l>(listing: &'l Listing, value: Option<Bits>) -> &'l [u8]
    ensures { result.now ≡ text_with (listing_seen listing.now) value }
{
    match value {
        Some(address) => listing.text_at(address.value()),
        None => &[],
    }
}

/// Appends a text of a listing, in a column that has room for each.
pub(crate) fn add_listed(out: &mut Vec<u8>, listing: &Listing, text: &[u8]) -> Result<(), NoMemory>
    ensures { OnOk result (out.new.items ≡ out.old.items ++ listed_text (listing_seen listing.now) text.now) }
{
    let width = listing.width();
    if width == 0 {
        return Ok(());
    }
    out.extend_from_slice(b" ")?;
    add_column(out, width, text)
}

// The width of the column of a label.
fn wide(layout: &Layout<'_>, text: &[u8], label: Label) -> usize
    requires { IsLabel layout.now text.now label }
    ensures { result ≡ wide layout.now text.now label }
{
    let name = bytes_of(text, label.name).len();
    let digits = usize::from(width_of(layout, label.shown).div_ceil(4));
    if name < digits { digits } else { name }
}

/// The width of what is shown.
pub(crate) fn width_of(layout: &Layout<'_>, shown: Shown) -> u8
    requires { HasShown layout.now shown }
    ensures width { result ≡ (slot_of layout.now shown).width }
    ensures fits { IsWidth result }
{
    match shown {
        Shown::Word(target, _) | Shown::Computed(Computed::Result(target)) => layout.width(target),
        Shown::Computed(Computed::Pipe(pipe)) => layout.pipe_width(pipe),
    }
}

// Appends the digits of a value, or `-`, at the left end of a column.
fn add_value(out: &mut Vec<u8>, width: usize, value: Option<Bits>) -> Result<(), NoMemory>
    ensures { OnOk result (out.new.items ≡ out.old.items ++ column_text width (value_text value)) }
{
    match value {
        Some(value) => add_word(out, width, value),
        None => add_column(out, width, b"-"),
    }
}

// Appends the digits of a word.
fn add_word(out: &mut Vec<u8>, width: usize, word: Bits) -> Result<(), NoMemory>
    ensures { OnOk result (out.new.items ≡ out.old.items ++ column_text width (hex_digits (quarters word.width) word.value)) }
{
    let mut spelled = [0; 20];
    let end = word.spell(&mut spelled);
    let digits = digits_in(word);
    add_column(out, width, &spelled[end - digits..end])
}

// How many hexadecimal digits a value has.
fn digits_in(value: Bits) -> usize
    ensures { result ≡ quarters value.width }
{
    usize::from(value.width().div_ceil(4))
}

// Appends a text at the left end of a column, and a space.
fn add_column(out: &mut Vec<u8>, width: usize, text: &[u8]) -> Result<(), NoMemory>
    ensures { OnOk result (out.new.items ≡ out.old.items ++ column_text width text.now) }
{
    out.extend_from_slice(text)?;
    let room = width.saturating_sub(text.len());
    add_spaces(out, room)?;
    out.extend_from_slice(b" ")?;
    Ok(())
}

fn add_spaces(out: &mut Vec<u8>, count: usize) -> Result<(), NoMemory>
    ensures { OnOk result (out.new.items ≡ out.old.items ++ replicate count 32) }
{
    for _i in 0..count {
        out.push(b' ')?;
    }
    Ok(())
}
