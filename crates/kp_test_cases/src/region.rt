//! Cases of regions of words.
use crate::head::{cut, number, numbers_in};
use crate::report::{Report, Term};
use kp_region::Region;
use std::alloc::Global;

/// Appends the spans that are carved from a new region, which has as many words as the head begins with.
pub fn add_region(report: &mut Report, alloc: Global, head: &[u8]) {
    let mut sizes = Vec::new(alloc);
    if numbers_in(head, b"carve", &mut sizes).is_err() {
        return report.fail();
    }
    let words = small(number(cut(head, b' ').0));
    match Region::take(alloc, words) {
        Ok(mut region) => add_spans(report, &mut region, sizes.as_slice()),
        Err(_) => report.fail(),
    }
}

// A number, or the greatest number of 32 bits if it is greater.
fn small(value: u64) -> u32 {
    if value > 0xFFFF_FFFF {
        return 0xFFFF_FFFF;
    }
    value as u32
}

fn add_spans(report: &mut Report, region: &mut Region, sizes: &[u64]) {
    for size in sizes {
        add_span(report, region, small(*size));
    }
}

fn add_span(report: &mut Report, region: &mut Region, size: u32) {
    report.add(&[
        Term::Text(b"carve "),
        Term::Number(u64::from(size)),
        Term::Text(b": "),
    ]);
    match region.carve(size) {
        Ok(span) => report.add(&[
            Term::Text(b"start "),
            Term::Number(u64::from(span.start)),
            Term::Text(b" len "),
            Term::Number(u64::from(span.len)),
            Term::Text(b"\n"),
        ]),
        Err(_) => report.add(&[Term::Text(b"full\n")]),
    }
}
