//! Tests of edits.
use crate::lines_and_columns::listed::listed;
use crate::lines_and_columns::rows::assert_starts;
use std::alloc::{AllocError, Global};
use std::ops::Range;
use std::process::Abort;
use std::test::Fail;
use typst_lines::Lines;

/// A text, which bytes of it go, what comes for them, and where the lines of the edited text begin.
type Edit<'a> = (&'a str, Range<usize>, &'a str, &'a [usize]);

/// Where the lines of a text begin after an edit that fits it.
fn edited(
    alloc: Global,
    text: &str,
    range: Range<usize>,
    with: &str,
) -> Result<Vec<usize>, AllocError> {
    let mut lines = Lines::new(alloc, text)?;
    let short = text.len() < 1000 && with.len() < 1000;
    let ordered = range.start <= range.end;
    if short && ordered && text.is_char_boundary(range.start) && text.is_char_boundary(range.end) {
        lines.edit(text, range, with)?;
        listed(alloc, &lines)
    } else {
        Ok(Vec::new(alloc))
    }
}

/// Asserts that lines begin where they should after each edit.
fn assert_edits(rt: &(impl Abort + AllocGlobal), edits: &[Edit]) -> Result<(), Fail> {
    for (text, range, with, wanted) in edits {
        let starts = edited(rt.alloc(), text, range.start..range.end, with)?;
        assert_starts(rt, text, &starts, wanted);
    }
    Ok(())
}

#[test]
fn lines_behind_an_edit_move(rt: HostRuntime) -> Result<(), Fail> {
    assert_edits(
        &rt,
        &[
            ("a\nb\nc\nd", 2..2, "xyz", &[0, 2, 7, 9]),
            ("a\nb\nc\nd", 2..4, "", &[0, 2, 4]),
            ("a\nb\nc\nd", 0..7, "", &[0]),
            ("a\nb\nc\nd", 1..6, "\n\n\n\n\n\n", &[0, 2, 3, 4, 5, 6, 7]),
            ("", 0..0, "\n", &[0, 1]),
            ("a\n", 2..2, "b\n", &[0, 2, 4]),
        ],
    )
}

#[test]
fn a_carriage_return_and_a_line_feed_are_joined_and_parted(rt: HostRuntime) -> Result<(), Fail> {
    assert_edits(
        &rt,
        &[
            ("a\r\nb", 2..2, "x", &[0, 2, 4]),
            ("a\rx\nb", 2..3, "", &[0, 3]),
            ("a\nb", 1..1, "\r", &[0, 3]),
            ("a\rb", 2..2, "\n", &[0, 3]),
            ("a\r\nb", 2..3, "", &[0, 2]),
            ("a\r\nb", 1..2, "", &[0, 2]),
            ("a\r\nb", 1..3, "", &[0]),
            ("a\r\nb", 2..2, "\r\n", &[0, 2, 4, 5]),
        ],
    )
}

#[test]
fn wider_line_ends_come_and_go(rt: HostRuntime) -> Result<(), Fail> {
    assert_edits(
        &rt,
        &[
            ("a\u{2028}b\nc", 1..4, "\u{85}", &[0, 3, 5]),
            ("a\u{2028}b\nc", 4..5, "\u{2029}\r", &[0, 4, 7, 9]),
            ("a\n\u{2028}b", 1..2, "\r", &[0, 2, 5]),
            ("a\r\u{2028}b", 2..5, "\n", &[0, 3]),
        ],
    )
}

/// Where the lines of two texts in a row begin after a third text is inserted between them, and how many lines there
/// are after it is removed again.
fn between(
    alloc: Global,
    front: &str,
    with: &str,
    back: &str,
) -> Result<(Vec<usize>, usize), AllocError> {
    let mut text = String::from_str(alloc, front)?;
    text.push_str(back)?;
    let mut lines = Lines::new(alloc, &text)?;
    if front.len() < 1000 && with.len() < 1000 && back.len() < 1000 {
        lines.replace(front, "", with, back)?;
        let starts = listed(alloc, &lines)?;
        lines.replace(front, with, "", back)?;
        Ok((starts, lines.len_lines()))
    } else {
        Ok((Vec::new(alloc), 0))
    }
}

/// Asserts where lines begin while a text is between two others, and how many there are after it is gone. A row has the
/// text in front, the one between, the one behind, where lines begin, and their number.
fn assert_between(
    rt: &(impl Abort + AllocGlobal),
    rows: &[(&str, &str, &str, &[usize], usize)],
) -> Result<(), Fail> {
    for (front, with, back, wanted, count) in rows {
        let (starts, many) = between(rt.alloc(), front, with, back)?;
        assert_starts(rt, front, &starts, wanted);
        assert_starts(rt, front, &[many], &[*count]);
    }
    Ok(())
}

#[test]
fn a_text_between_two_comes_and_goes(rt: HostRuntime) -> Result<(), Fail> {
    assert_between(
        &rt,
        &[
            ("a\r", "b", "\nc\nd", &[0, 2, 4, 6], 3),
            ("a\n", "b\n\n", "c\n", &[0, 2, 4, 5, 7], 3),
            ("", "", "", &[0], 1),
        ],
    )
}

/// Where the lines of a text of four lines begin after an edit at its end, one at its beginning, and one in between.
fn edited_in_turn(alloc: Global) -> Result<Vec<usize>, AllocError> {
    let mut lines = Lines::new(alloc, "a\nb\nc\nd")?;
    lines.replace("a\nb\nc\n", "", "x\n", "d")?;
    lines.replace("", "", "yy\n", "a\nb\nc\nx\nd")?;
    lines.replace("yy\na\n", "b\n", "", "c\nx\nd")?;
    listed(alloc, &lines)
}

#[test]
fn edits_come_in_any_order(rt: HostRuntime) -> Result<(), Fail> {
    assert_starts(
        &rt,
        "a\nb\nc\nd",
        &edited_in_turn(rt.alloc())?,
        &[0, 3, 5, 7, 9],
    );
    Ok(())
}
