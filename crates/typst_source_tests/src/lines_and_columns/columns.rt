//! Tests of columns.
use crate::lines_and_columns::rows::{assert_at, assert_place};
use std::alloc::{AllocError, Global};
use std::process::Abort;
use std::test::Fail;
use typst_lines::{ColumnUnit, Lines};

/// A count of bytes, of characters and of units of UTF-16.
type Counts = [Option<usize>; 3];

/// The characters a, an umlaut, the sign of the euro and a clef have 1, 2, 3 and 4 bytes.
const TEXT: &str = "x\na\u{e4}\u{20ac}\u{1d11e}b\n";

/// The columns of a byte offset, in bytes, characters and units of UTF-16.
fn columns(alloc: Global, text: &str, byte: usize) -> Result<Counts, AllocError> {
    let lines = Lines::new(alloc, text)?;
    Ok([
        lines.byte_to_column(text, byte, ColumnUnit::Byte),
        lines.byte_to_column(text, byte, ColumnUnit::Character),
        lines.byte_to_column(text, byte, ColumnUnit::Utf16),
    ])
}

/// Asserts that each byte offset of the text has the columns beside it.
fn assert_columns(rt: &(impl Abort + AllocGlobal), rows: &[(usize, Counts)]) -> Result<(), Fail> {
    for (byte, wanted) in rows {
        assert_at(
            rt,
            TEXT,
            *byte,
            columns(rt.alloc(), TEXT, *byte)? == *wanted,
        );
    }
    Ok(())
}

#[test]
fn a_column_counts_bytes_characters_and_units(rt: HostRuntime) -> Result<(), Fail> {
    assert_columns(
        &rt,
        &[
            (0, [Some(0), Some(0), Some(0)]),
            (1, [Some(1), Some(1), Some(1)]),
            (2, [Some(0), Some(0), Some(0)]),
            (3, [Some(1), Some(1), Some(1)]),
            (4, [None, None, None]),
            (5, [Some(3), Some(2), Some(2)]),
            (8, [Some(6), Some(3), Some(3)]),
            (9, [None, None, None]),
            (12, [Some(10), Some(4), Some(5)]),
            (13, [Some(11), Some(5), Some(6)]),
            (14, [Some(0), Some(0), Some(0)]),
            (15, [None, None, None]),
        ],
    )
}

/// The byte offsets that have a line and a column, in bytes, characters and units of UTF-16.
fn places(alloc: Global, text: &str, line: usize, column: usize) -> Result<Counts, AllocError> {
    let lines = Lines::new(alloc, text)?;
    Ok([
        lines.line_column_to_byte(text, line, column, ColumnUnit::Byte),
        lines.line_column_to_byte(text, line, column, ColumnUnit::Character),
        lines.line_column_to_byte(text, line, column, ColumnUnit::Utf16),
    ])
}

/// Asserts that each line and column of the text lead to the byte offsets beside them.
fn assert_places(
    rt: &(impl Abort + AllocGlobal),
    rows: &[(usize, usize, Counts)],
) -> Result<(), Fail> {
    for (line, column, wanted) in rows {
        let found = places(rt.alloc(), TEXT, *line, *column)?;
        assert_place(rt, *line, *column, found == *wanted);
    }
    Ok(())
}

#[test]
fn a_line_and_a_column_lead_back(rt: HostRuntime) -> Result<(), Fail> {
    assert_places(
        &rt,
        &[
            (0, 0, [Some(0), Some(0), Some(0)]),
            (0, 1, [Some(1), Some(1), Some(1)]),
            (0, 2, [None, None, None]),
            (1, 0, [Some(2), Some(2), Some(2)]),
            (1, 2, [None, Some(5), Some(5)]),
            (1, 3, [Some(5), Some(8), Some(8)]),
            (1, 4, [None, Some(12), None]),
            (1, 5, [None, Some(13), Some(12)]),
            (1, 6, [Some(8), None, Some(13)]),
            (1, 11, [Some(13), None, None]),
            (1, 12, [None, None, None]),
            (2, 0, [Some(14), Some(14), Some(14)]),
            (2, 1, [None, None, None]),
            (3, 0, [None, None, None]),
        ],
    )
}
