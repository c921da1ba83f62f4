//! A caller can promise that `==` of spans, of values with spans and of sets says whether both hold the same, by value
//! and by reference.
ghost use Rattle.std.specs.Prelude.{◌≡◌, ◌≢◌, ◌↔◌, IsTrue};

use crate::rows::assert_row;
use typst_base::{DiagSpan, FileId, Span, SpanNumber, Spanned, SubRange, SyntaxKind, SyntaxSet};

/// Equality of spans.
fn are_same_spans(a: Span, b: Span) -> bool
    ensures { IsTrue result ↔ (a ≡ b) }
{
    a == b
}

/// Equality of spans behind references.
fn are_same_spans_behind(a: &Span, b: &Span) -> bool
    ensures { IsTrue result ↔ (a.now ≡ b.now) }
{
    a == b
}

/// Inequality of spans behind references.
fn are_other_spans_behind(a: &Span, b: &Span) -> bool
    ensures { IsTrue result ↔ (a.now ≢ b.now) }
{
    a != b
}

/// Equality of diagnostic spans.
fn are_same_places(a: DiagSpan, b: DiagSpan) -> bool
    ensures { IsTrue result ↔ (a ≡ b) }
{
    a == b
}

/// Equality of diagnostic spans behind references.
fn are_same_places_behind(a: &DiagSpan, b: &DiagSpan) -> bool
    ensures { IsTrue result ↔ (a.now ≡ b.now) }
{
    a == b
}

/// Equality of values with spans behind references.
fn are_same_values_behind(a: &Spanned<u8>, b: &Spanned<u8>) -> bool
    ensures { IsTrue result ↔ (a.now ≡ b.now) }
{
    a == b
}

/// Equality of sets.
fn are_same_sets(a: SyntaxSet, b: SyntaxSet) -> bool
    ensures { IsTrue result ↔ (a ≡ b) }
{
    a == b
}

/// Equality of sets behind references.
fn are_same_sets_behind(a: &SyntaxSet, b: &SyntaxSet) -> bool
    ensures { IsTrue result ↔ (a.now ≡ b.now) }
{
    *a == *b
}

#[test]
fn spans_are_equal_where_file_and_number_are(rt: HostRuntime) {
    let id = FileId::FIRST;
    let other_id = FileId::new(2).expect(&rt, "an id");
    let span = Span::from_number(id, SpanNumber(5));
    let again = Span::from_number(id, SpanNumber(5));
    let other_file = Span::from_number(other_id, SpanNumber(5));
    let other_number = Span::from_number(id, SpanNumber(6));
    assert_row(&rt, "the same", are_same_spans(span, again));
    assert_row(&rt, "another file", !are_same_spans(span, other_file));
    assert_row(&rt, "another number", !are_same_spans(span, other_number));
    assert_row(&rt, "the same behind", are_same_spans_behind(&span, &again));
    assert_row(
        &rt,
        "another file behind",
        are_other_spans_behind(&span, &other_file),
    );
    let value = Spanned::new(3u8, span);
    assert_row(
        &rt,
        "values",
        are_same_values_behind(&value, &Spanned::new(3u8, again)),
    );
    assert_row(
        &rt,
        "another value",
        !are_same_values_behind(&value, &Spanned::new(4u8, span)),
    );
    assert_row(
        &rt,
        "another span",
        !are_same_values_behind(&value, &Spanned::new(3u8, other_number)),
    );
}

#[test]
fn diagnostic_spans_are_equal_where_span_and_part_are(rt: HostRuntime) {
    let span = Span::from_number(FileId::FIRST, SpanNumber(5));
    let part = SubRange::new(0, 2).expect(&rt, "a part");
    let other_part = SubRange::new(0, 3).expect(&rt, "a part");
    let place = DiagSpan::from_span(span, Some(part));
    let again = DiagSpan::from_span(span, Some(part));
    assert_row(&rt, "the same", are_same_places(place, again));
    assert_row(
        &rt,
        "the same behind",
        are_same_places_behind(&place, &again),
    );
    let other = DiagSpan::from_span(span, Some(other_part));
    assert_row(&rt, "another part", !are_same_places(place, other));
    let other = DiagSpan::from_span(span, None);
    assert_row(&rt, "no part", !are_same_places(place, other));
    let other = DiagSpan::from_span(Span::detached(), Some(part));
    assert_row(&rt, "another span", !are_same_places_behind(&place, &other));
}

#[test]
fn sets_are_equal_where_they_hold_the_same_kinds(rt: HostRuntime) {
    let hash = SyntaxSet::new().add(SyntaxKind::Hash);
    let again = SyntaxSet::new()
        .add(SyntaxKind::Let)
        .add(SyntaxKind::Hash)
        .remove(SyntaxKind::Let);
    let import = SyntaxSet::new().add(SyntaxKind::Import);
    assert_row(&rt, "the same kinds", are_same_sets(hash, again));
    assert_row(&rt, "another kind", !are_same_sets(hash, import));
    assert_row(
        &rt,
        "the same kinds behind",
        are_same_sets_behind(&hash, &again),
    );
}
