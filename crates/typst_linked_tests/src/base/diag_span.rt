//! Tests of spans of diagnostics by worked examples.
use crate::rows::{assert_at, assert_row};
use std::num::NonZeroU64;
use std::ops::Range;
use typst_base::{DiagSpan, DiagSpanKind, FileId, Span, SpanNumber, SubRange};

/// External ranges, and the ranges that come back.
const CUT: [(Range<usize>, Range<usize>); 7] = [
    (0..0, 0..0),
    (177..233, 177..233),
    (0..8388607, 0..8388607),
    (8388606..8388607, 8388606..8388607),
    (8388608..8388609, 8388608..8388609),
    (
        70368744177662..70368744177663,
        70368744177662..70368744177663,
    ),
    (5..70368744177664, 5..70368744177663),
];

/// Whether a span is the one of these bytes of a file.
fn is_range(span: DiagSpan, id: FileId, bytes: &Range<usize>) -> bool {
    let range = bytes.start..bytes.end;
    !span.is_detached() && span.id() == Some(id) && span.get() == DiagSpanKind::Range { id, range }
}

#[test]
fn external_ranges_come_back_with_their_ends_cut(rt: HostRuntime) {
    let id = FileId::new(65535).expect(&rt, "an id");
    for (given, cut) in &CUT {
        let span = DiagSpan::from_range(id, given.start..given.end);
        assert_at(
            &rt,
            "a range that ends at",
            given.end,
            is_range(span, id, cut),
        );
    }
}

#[test]
fn a_low_value_of_an_external_range_without_its_other_end_ends_at_0(rt: HostRuntime) {
    let word = NonZeroU64::new((1 << 48) + (1 << 47) + 5).expect(&rt, "not 0");
    let span = DiagSpan::from_span(Span::from_raw(word), None);
    assert_row(&rt, "it is 5..0", is_range(span, FileId::FIRST, &(5..0)));
}

/// The bytes that a range span and a part of it point to, or `0..0` if they point to none.
fn bytes_of(range: Range<usize>, part: Option<SubRange>) -> Range<usize> {
    let id = FileId::FIRST;
    match DiagSpan::from_span(Span::from_range(id, range), part).get() {
        DiagSpanKind::Range { range, .. } => range,
        _ => 0..0,
    }
}

#[test]
fn a_part_of_a_range_is_counted_as_the_range_is(rt: HostRuntime) {
    let part = bytes_of(10..20, SubRange::new(2, 5));
    assert_row(&rt, "a part", part == (12..15));
    assert_row(&rt, "no part", bytes_of(10..20, None) == (10..20));
}

/// Whether a span is the one of a node of this number and a part of it.
fn is_part(span: DiagSpan, number: u64, part: Option<Range<usize>>) -> bool {
    match span.get() {
        DiagSpanKind::Number { num, sub_range, .. } => {
            num.0 == number && sub_range.map(|kept| kept.to_relative()) == part
        }
        _ => false,
    }
}

#[test]
fn a_part_of_a_node_is_kept(rt: HostRuntime) {
    let node = Span::from_number(FileId::FIRST, SpanNumber(5));
    let span = DiagSpan::from_span(node, SubRange::new(2, 5));
    assert_row(&rt, "a part", is_part(span, 5, Some(2..5)));
    assert_row(&rt, "no part", is_part(node.into(), 5, None));
}

#[test]
fn a_detached_diagnostic_span_gives_way(rt: HostRuntime) {
    let none = DiagSpan::detached();
    let some = DiagSpan::from_range(FileId::FIRST, 1..2);
    assert_row(&rt, "it is detached", none.is_detached());
    assert_row(&rt, "it is of no file", none.id().is_none());
    assert_row(&rt, "it is nowhere", none.get() == DiagSpanKind::Detached);
    assert_row(&rt, "it gives way", none.or(some) == some);
    assert_row(&rt, "another does not", some.or(none) == some);
}
