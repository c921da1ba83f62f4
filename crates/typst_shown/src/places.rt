//! The lines and columns of nodes.
ghost use Rattle.typst_lines.specs.LineTable.{AreLines};

use crate::row::Row;
use std::alloc::{AllocError, Global};
use typst_lines::Lines;

/// A line and a column, both from 1. Columns count characters.
#[derive(Clone, Copy, Debug, PartialEq, Eq)]
pub struct LineColumn {
    pub line: usize,
    pub column: usize,
}

/// Where the text of each row begins. It takes time in proportion to the text and the rows.
pub fn places_of(alloc: Global, text: &str, rows: &[Row]) -> Result<Vec<LineColumn>, AllocError> {
    let lines = Lines::new(alloc, text)?;
    let mut places = Vec::with_capacity(alloc, rows.len())?;
    let mut last = Reached {
        byte: 0,
        place: LineColumn { line: 1, column: 1 },
    };
    for row in rows {
        last = last.next(&lines, text, row.start);
        places.push(last.place)?;
    }
    Ok(places)
}

/// A byte of a text, and its place.
#[derive(Clone, Copy)]
struct Reached {
    byte: usize,
    place: LineColumn,
}

impl Reached {
    /// The same of a byte that isn't before this one. In one line, only the characters between the two are counted.
    fn next(self, lines: &Lines, text: &str, byte: usize) -> Reached
        requires { AreLines lines.now text.now }
    {
        let row = lines.byte_to_line(text, byte).unwrap_or(0);
        let line = row.saturating_add(1);
        let (from, column) = if line == self.place.line {
            (self.byte, self.place.column)
        } else {
            (lines.line_to_byte(row).unwrap_or(byte), 1)
        };
        let between = text.get(from..byte).unwrap_or("").chars().count();
        Reached {
            byte,
            place: LineColumn {
                line,
                column: column.saturating_add(between),
            },
        }
    }
}
