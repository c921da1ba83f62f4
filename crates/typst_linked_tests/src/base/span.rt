//! Tests of spans by worked examples.
use crate::rows::{assert_at, assert_row};
use std::num::{NonZeroU16, NonZeroU64};
use std::ops::Range;
use typst_base::{FileId, Span, SpanKind, SpanNumber};

/// Whether an id is made from its raw value in the other way too, and gives that value back.
fn is_id_of(id: FileId, raw: u16) -> bool {
    NonZeroU16::new(raw).map(FileId::from_raw) == Some(id) && id.into_raw().get() == raw
}

/// Whether a span gives back its file and its number.
fn gives_back(span: Span, id: FileId, num: SpanNumber) -> bool {
    !span.is_detached()
        && span.id() == Some(id)
        && span.number() == num.0
        && span.get() == SpanKind::Number { id, num }
        && Span::from_raw(span.into_raw()) == span
}

/// Whether each number comes back from a span of this file.
fn numbers_come_back(id: FileId) -> bool {
    for number in [2u64, 7, 1 << 46, (1 << 47) - 1] {
        let num = SpanNumber(number);
        if !gives_back(Span::from_number(id, num), id, num) {
            return false;
        }
    }
    true
}

#[test]
fn ids_and_numbers_come_back(rt: HostRuntime) {
    assert_row(&rt, "0 is no id", FileId::new(0).is_none());
    for raw in [1u16, 2, 65535] {
        let id = FileId::new(raw).expect(&rt, "an id");
        assert_at(&rt, "an id", raw as usize, is_id_of(id, raw));
        assert_at(&rt, "numbers of", raw as usize, numbers_come_back(id));
    }
    let first = FileId::FIRST.into_raw().get();
    assert_row(&rt, "the first id is 1", first == 1);
    assert_row(&rt, "numbers begin at 2", Span::FULL.start == 2);
    assert_row(&rt, "they end at 2^47", Span::FULL.end == 1 << 47);
}

/// Ranges, and the ranges that come back.
const CUT: [(Range<usize>, Range<usize>); 5] = [
    (0..0, 0..0),
    (177..233, 177..233),
    (0..8388607, 0..8388607),
    (8388606..8388607, 8388606..8388607),
    (0..8388613, 0..8388607),
];

/// Whether a span is the one of these bytes of a file.
fn is_range(span: Span, id: FileId, bytes: &Range<usize>) -> bool {
    let range = bytes.start..bytes.end;
    span.get() == SpanKind::Range { id, range }
}

#[test]
fn ranges_come_back_with_their_ends_cut(rt: HostRuntime) {
    let id = FileId::new(65535).expect(&rt, "an id");
    for (given, cut) in &CUT {
        let span = Span::from_range(id, given.start..given.end);
        assert_at(
            &rt,
            "a range that ends at",
            given.end,
            is_range(span, id, cut),
        );
    }
}

#[test]
fn only_the_word_1_is_detached(rt: HostRuntime) {
    let one = Span::from_raw(NonZeroU64::new(1).expect(&rt, "not 0"));
    assert_row(&rt, "1 is detached", one.is_detached());
    assert_row(&rt, "1 is the one", one == Span::detached());
    assert_row(&rt, "1 is nowhere", one.get() == SpanKind::Detached);
    let two = Span::from_raw(NonZeroU64::new(2).expect(&rt, "not 0"));
    assert_row(&rt, "2 is not detached", !two.is_detached());
    assert_row(&rt, "2 is of no file", two.id().is_none());
    assert_row(&rt, "2 is nowhere", two.get() == SpanKind::Detached);
}

#[test]
fn the_first_span_that_points_somewhere_is_found(rt: HostRuntime) {
    let five = Span::from_number(FileId::FIRST, SpanNumber(5));
    let seven = Span::from_number(FileId::FIRST, SpanNumber(7));
    let none = Span::detached();
    assert_row(&rt, "a detached one gives way", none.or(five) == five);
    assert_row(&rt, "another does not", five.or(seven) == five);
    assert_row(&rt, "nor to a detached one", five.or(none) == five);
    let found = Span::find([none, five, seven].iter().copied());
    assert_row(&rt, "the first is found", found == five);
    let found = Span::find([none, none].iter().copied());
    assert_row(&rt, "none is found", found == none);
}
