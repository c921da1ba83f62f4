//! Tests of mappers by worked examples.
use crate::rows::{assert_at, assert_row, assert_text};
use std::alloc::{AllocError, Global};
use std::ops::Range;
use std::process::Abort;
use std::test::Fail;
use typst_base::{MapperError, RangeMapper, SubRange};

/// The original range of these bytes, if they are in the text.
fn map(mapper: &RangeMapper, range: Range<usize>) -> Option<Range<usize>> {
    if range.start <= range.end && range.end <= mapper.total_len() {
        Some(mapper.map(range))
    } else {
        None
    }
}

/// Whether each range maps to the original one next to it.
fn maps(mapper: &RangeMapper, rows: &[(Range<usize>, Range<usize>)]) -> bool {
    for (range, original) in rows {
        match map(mapper, range.start..range.end) {
            Some(mapped) if mapped == *original => {}
            _ => return false,
        }
    }
    true
}

/// The original part, if the part is in the text.
fn map_part(mapper: &RangeMapper, offset: usize, part: SubRange) -> Option<Range<usize>> {
    if !part.fits_at(offset) {
        return None;
    }
    let end = part.to_absolute(offset).end;
    if end > mapper.total_len() {
        return None;
    }
    Some(mapper.map_sub_range(offset, part)?.to_relative())
}

/// A range, and the original one.
type Row = (Range<usize>, Range<usize>);

/// What the segments `3..9` and `12..18` map.
const TWO: [Row; 8] = [
    (2..3, 5..6),
    (4..6, 7..9),
    (6..8, 12..14),
    (8..11, 14..17),
    (2..12, 5..18),
    (0..0, 3..3),
    (6..6, 9..9),
    (12..12, 18..18),
];

/// What the segments `2..5` and `8..10` map.
const OTHER: [Row; 3] = [(2..4, 4..9), (3..3, 5..5), (0..0, 2..2)];

/// What the bytes 10 and 21 map.
const APART: [Row; 6] = [
    (0..0, 10..10),
    (0..1, 10..11),
    (0..2, 10..22),
    (1..1, 11..11),
    (1..2, 21..22),
    (2..2, 22..22),
];

/// The bytes 10 and 21 among empty segments.
const PADDED: [Range<usize>; 7] = [10..10, 10..11, 11..11, 16..16, 21..21, 21..22, 22..22];

/// Whether the mapper of these segments has this length, and maps each range to the original one next to it.
fn are_mapped(alloc: Global, segments: &[Range<usize>], length: usize, rows: &[Row]) -> bool {
    match RangeMapper::new(alloc, segments) {
        Ok(mapper) => mapper.total_len() == length && maps(&mapper, rows),
        Err(_) => false,
    }
}

/// A part of the node at an offset, and the original part.
type Part = (usize, Range<usize>, Range<usize>);

/// Whether a mapper maps the part to the original one.
fn is_part_mapped(mapper: &RangeMapper, row: &Part) -> bool {
    let (offset, part, original) = row;
    match SubRange::new(part.start, part.end) {
        Some(part) => map_part(mapper, *offset, part) == Some(original.start..original.end),
        None => false,
    }
}

#[test]
fn ranges_map_across_gaps(rt: HostRuntime) {
    let mapped = are_mapped(rt.alloc(), &[3..9, 12..18], 12, &TWO);
    assert_row(&rt, "two segments", mapped);
    let mapped = are_mapped(rt.alloc(), &[2..5, 8..10], 5, &OTHER);
    assert_row(&rt, "two others", mapped);
    let other = RangeMapper::new(rt.alloc(), &[2..5, 8..10]).expect(&rt, "a mapper");
    let mapped = is_part_mapped(&other, &(1, 0..3, 0..6));
    assert_row(&rt, "a part", mapped);
}

#[test]
fn few_and_empty_segments_map(rt: HostRuntime) {
    let mapped = are_mapped(rt.alloc(), &[], 0, &[(0..0, 0..0)]);
    assert_row(&rt, "no segment", mapped);
    let one = [(0..0, 10..10), (0..1, 10..11), (1..1, 11..11)];
    let mapped = are_mapped(rt.alloc(), &[10..11], 1, &one);
    assert_row(&rt, "one segment", mapped);
    let mapped = are_mapped(rt.alloc(), &[10..11, 21..22], 2, &APART);
    assert_row(&rt, "two segments", mapped);
    let mapped = are_mapped(rt.alloc(), &PADDED, 2, &APART);
    assert_row(&rt, "the same among empty ones", mapped);
}

/// What the segments `0..2`, `3..5` and `7..9` map.
const PARTS: [Part; 14] = [
    (0, 0..1, 0..1),
    (0, 2..3, 3..4),
    (0, 2..4, 3..5),
    (0, 4..5, 7..8),
    (0, 1..3, 1..4),
    (0, 3..5, 4..8),
    (0, 1..5, 1..8),
    (0, 0..6, 0..9),
    (1, 0..1, 0..1),
    (1, 0..2, 0..3),
    (1, 0..4, 0..7),
    (3, 0..1, 0..1),
    (3, 0..2, 0..4),
    (4, 0..2, 0..2),
];

#[test]
fn parts_map_from_their_node(rt: HostRuntime) {
    let mapper = RangeMapper::new(rt.alloc(), &[0..2, 3..5, 7..9]).expect(&rt, "a mapper");
    for (row, part) in PARTS.iter().enumerate() {
        assert_at(&rt, "row", row, is_part_mapped(&mapper, part));
    }
}

/// Asserts that a mapper of these segments is refused because of this one.
fn assert_refused(
    rt: &impl Abort,
    alloc: Global,
    segments: &[Range<usize>],
    (start, end): (usize, usize),
) {
    let error = RangeMapper::new(alloc, segments).err();
    let refused = error == Some(MapperError::InvalidSegment { start, end });
    assert_at(rt, "the segment from", start, refused);
}

/// The text of an error.
fn text(alloc: Global, error: &MapperError) -> Result<String, AllocError> {
    format!(in alloc; "{error}")
}

/// Why a mapper of these segments is refused, or `-` if it isn't.
fn reason(alloc: Global, segments: &[Range<usize>]) -> Result<String, AllocError> {
    match RangeMapper::new(alloc, segments) {
        Ok(_) => String::from_str(alloc, "-"),
        Err(error) => text(alloc, &error),
    }
}

#[test]
fn the_first_invalid_segment_is_told(rt: HostRuntime) -> Result<(), Fail> {
    let alloc = rt.alloc();
    assert_refused(&rt, alloc, &[0..5, 2..7, 1..0], (2, 7));
    assert_refused(&rt, alloc, &[4..3, 2..7, 1..0], (4, 3));
    assert_refused(&rt, alloc, &[0..5, 5..7, 9..8], (9, 8));
    let said = reason(alloc, &[0..5, 2..7])?;
    assert_text(&rt, "a segment", &said, "invalid mapper segment: (2, 7)");
    let said = text(alloc, &MapperError::Memory)?;
    assert_text(&rt, "memory", &said, "out of memory");
    Ok(())
}
