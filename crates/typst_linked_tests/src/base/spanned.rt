//! Tests of values with spans.
use crate::rows::{assert_row, assert_text};
use std::alloc::{AllocError, Global};
use std::test::Fail;
use typst_base::{DiagSpan, FileId, Span, SpanNumber, Spanned};

/// How a value with a span is shown.
fn shown(alloc: Global, value: &Spanned<u8>) -> Result<String, AllocError> {
    format!(in alloc; "{value:?}")
}

/// Whether a value that is 3 is lent with its span.
fn is_lent(value: &Spanned<u8>) -> bool {
    let lent = value.as_ref();
    *lent.v == 3 && lent.span == value.span
}

#[test]
fn a_value_keeps_its_span(rt: HostRuntime) -> Result<(), Fail> {
    let span = Span::from_number(FileId::FIRST, SpanNumber(5));
    let three = Spanned::new(3u8, span);
    assert_text(&rt, "it is shown", &shown(rt.alloc(), &three)?, "3");
    assert_row(&rt, "a lent value", is_lent(&three));
    let six = three.map(|v| v as u16 * 2);
    assert_row(&rt, "a mapped value", six.v == 6 && six.span == span);
    let nowhere: Spanned<u8> = Spanned::detached(3u8);
    assert_row(&rt, "a span", nowhere.span.is_detached());
    let hint: Spanned<u8, DiagSpan> = Spanned::detached(3u8);
    assert_row(&rt, "a diagnostic span", hint.span.is_detached());
    Ok(())
}
