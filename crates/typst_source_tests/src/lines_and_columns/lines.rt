//! Tests of where lines begin.
use crate::lines_and_columns::listed::listed;
use crate::lines_and_columns::rows::{assert_at, assert_starts};
use std::alloc::{AllocError, Global};
use std::ops::Range;
use std::process::Abort;
use std::test::Fail;
use typst_lines::Lines;

/// Where the lines of a text begin.
fn starts(alloc: Global, text: &str) -> Result<Vec<usize>, AllocError> {
    listed(alloc, &Lines::new(alloc, text)?)
}

/// Asserts that the lines of each text begin where they should.
fn assert_lines(rt: &(impl Abort + AllocGlobal), rows: &[(&str, &[usize])]) -> Result<(), Fail> {
    for (text, wanted) in rows {
        assert_starts(rt, text, &starts(rt.alloc(), text)?, wanted);
    }
    Ok(())
}

#[test]
fn a_line_begins_behind_each_line_end(rt: HostRuntime) -> Result<(), Fail> {
    assert_lines(
        &rt,
        &[
            ("", &[0]),
            ("a", &[0]),
            ("a\n", &[0, 2]),
            ("a\nb", &[0, 2]),
            ("\n\n", &[0, 1, 2]),
            ("a\u{b}b\u{c}c", &[0, 2, 4]),
        ],
    )
}

#[test]
fn a_carriage_return_and_a_line_feed_are_one_line_end(rt: HostRuntime) -> Result<(), Fail> {
    assert_lines(
        &rt,
        &[
            ("a\r\nb", &[0, 3]),
            ("a\rb", &[0, 2]),
            ("\r\r\n\n", &[0, 1, 3, 4]),
            ("\n\r", &[0, 1, 2]),
        ],
    )
}

#[test]
fn wider_characters_end_lines(rt: HostRuntime) -> Result<(), Fail> {
    assert_lines(
        &rt,
        &[
            ("\u{e4}\u{85}b", &[0, 4]),
            ("a\u{2028}b\u{2029}", &[0, 4, 8]),
            ("\r\u{2028}\n", &[0, 1, 4, 5]),
            ("\u{2028}\r\n\u{85}", &[0, 3, 5, 7]),
        ],
    )
}

#[test]
fn other_characters_with_such_bytes_end_none(rt: HostRuntime) -> Result<(), Fail> {
    assert_lines(
        &rt,
        &[
            ("\u{2026}", &[0]),
            ("\u{a8}\u{a9}", &[0]),
            ("\u{205}", &[0]),
            ("\u{e028}", &[0]),
            ("\u{2128}", &[0]),
        ],
    )
}

/// The line of a byte offset.
fn line(alloc: Global, text: &str, byte: usize) -> Result<Option<usize>, AllocError> {
    Ok(Lines::new(alloc, text)?.byte_to_line(text, byte))
}

/// Asserts that each byte offset of a text is in the line beside it.
fn assert_in_lines(
    rt: &(impl Abort + AllocGlobal),
    rows: &[(&str, usize, Option<usize>)],
) -> Result<(), Fail> {
    for (text, byte, wanted) in rows {
        assert_at(rt, text, *byte, line(rt.alloc(), text, *byte)? == *wanted);
    }
    Ok(())
}

#[test]
fn an_offset_is_in_the_last_line_that_begins_before(rt: HostRuntime) -> Result<(), Fail> {
    assert_in_lines(
        &rt,
        &[
            ("", 0, Some(0)),
            ("", 1, None),
            ("a\r\nb", 0, Some(0)),
            ("a\r\nb", 2, Some(0)),
            ("a\r\nb", 3, Some(1)),
            ("a\r\nb", 4, Some(1)),
            ("a\r\nb", 5, None),
            ("\u{e4}\n", 1, None),
            ("\u{e4}\n", 2, Some(0)),
            ("\u{e4}\n", 3, Some(1)),
        ],
    )
}

/// The bytes of a line.
fn range(alloc: Global, text: &str, line: usize) -> Result<Option<Range<usize>>, AllocError> {
    Ok(Lines::new(alloc, text)?.line_to_range(text, line))
}

/// Asserts that each line of a text has the bytes beside it.
fn assert_ranges(
    rt: &(impl Abort + AllocGlobal),
    rows: &[(&str, usize, Option<Range<usize>>)],
) -> Result<(), Fail> {
    for (text, line, wanted) in rows {
        assert_at(rt, text, *line, range(rt.alloc(), text, *line)? == *wanted);
    }
    Ok(())
}

#[test]
fn a_line_has_its_line_end(rt: HostRuntime) -> Result<(), Fail> {
    assert_ranges(
        &rt,
        &[
            ("", 0, Some(0..0)),
            ("", 1, None),
            ("a\r\nb", 0, Some(0..3)),
            ("a\r\nb", 1, Some(3..4)),
            ("a\r\nb", 2, None),
            ("a\u{2028}", 0, Some(0..4)),
            ("a\u{2028}", 1, Some(4..4)),
        ],
    )
}

/// The lines of a text.
fn lines<'a>(alloc: Global, text: &'a str) -> Result<Vec<&'a str>, AllocError> {
    let kept = Lines::new(alloc, text)?;
    let mut lines = Vec::new(alloc);
    for line in 0..kept.len_lines() {
        if let Some(range) = kept.line_to_range(text, line) {
            lines.push(&text[range])?;
        }
    }
    Ok(lines)
}

/// Asserts that each text has the lines beside it.
fn assert_texts(rt: &(impl Abort + AllocGlobal), rows: &[(&str, &[&str])]) -> Result<(), Fail> {
    for (text, wanted) in rows {
        assert_at(
            rt,
            text,
            wanted.len(),
            lines(rt.alloc(), text)?.as_slice() == *wanted,
        );
    }
    Ok(())
}

#[test]
fn a_text_is_its_lines(rt: HostRuntime) -> Result<(), Fail> {
    assert_texts(
        &rt,
        &[
            ("", &[""]),
            ("a", &["a"]),
            ("a\n", &["a\n", ""]),
            ("a\r\n\rb\n\n", &["a\r\n", "\r", "b\n", "\n", ""]),
            (
                "\u{e4}\u{85}\u{1d11e}\u{2028}c",
                &["\u{e4}\u{85}", "\u{1d11e}\u{2028}", "c"],
            ),
            ("\u{b}\u{c}\u{2029}", &["\u{b}", "\u{c}", "\u{2029}", ""]),
        ],
    )
}
