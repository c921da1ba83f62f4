//! Tests of parts by worked examples.
use crate::rows::{assert_at, assert_row};
use std::ops::Range;
use typst_base::SubRange;

/// The largest end of a part.
const MAX: usize = 4294967295;

/// Ranges, and the ends of their parts.
const KEPT: [(Range<usize>, usize); 6] = [
    (0..1, 1),
    (4..5, 5),
    (0..MAX, MAX),
    (0..MAX - 1, MAX - 1),
    (MAX - 1..MAX, MAX),
    (3..MAX + 1, MAX),
];

/// Ranges without parts.
const REFUSED: [Range<usize>; 6] = [0..0, 5..5, 5..4, MAX - 1..MAX - 1, MAX..MAX, MAX..MAX + 1];

/// Whether the part of these bytes begins where they do, and ends here.
fn is_kept(bytes: &Range<usize>, end: usize) -> bool {
    match SubRange::new(bytes.start, bytes.end) {
        Some(part) => part.to_relative() == (bytes.start..end),
        None => false,
    }
}

#[test]
fn parts_are_cut_and_never_empty(rt: HostRuntime) {
    for (bytes, end) in &KEPT {
        assert_at(&rt, "a part of a range to", bytes.end, is_kept(bytes, *end));
    }
    for bytes in &REFUSED {
        let part = SubRange::new(bytes.start, bytes.end);
        assert_at(&rt, "no part of a range to", bytes.end, part.is_none());
    }
}

#[test]
fn parts_move_by_an_offset(rt: HostRuntime) {
    let part = SubRange::new(2, 5).expect(&rt, "a part");
    let moved = if part.fits_at(10) {
        part.to_absolute(10)
    } else {
        0..0
    };
    assert_row(&rt, "it moves by 10", moved == (12..15));
    assert_row(&rt, "it fits", part.fits_at(usize::MAX - 5));
    assert_row(&rt, "it fits no more", !part.fits_at(usize::MAX - 4));
}
