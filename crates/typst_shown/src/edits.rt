//! Edits: how they are read and placed in the text.
ghost use Rattle.std.specs.Prelude.{◌≡◌, IfOk, IsErr};
ghost use Rattle.std.specs.Str.{IsCharBoundary};
ghost use Rattle.typst_lines.specs.LineTable.{AreLines};
ghost use Rattle.typst_lines.specs.declared.ends.LineEnds.TheVariants.{Unicode};
ghost use Rattle.typst_source.specs.Fits.{FitsText};
ghost use Rattle.typst_shown.specs.PlacedEdit.{IsByteOf, IsRangeOf};

use crate::edit_line::{EditLine, LineError, Place};
use crate::line_end::without_end;
use crate::misfit::Misfit;
use crate::problem::Problem;
use std::alloc::{AllocError, Global};
use std::ops::Range;
use typst_lines::{ColumnUnit, Lines};

/// An edit, and its line in its file, from 1.
#[derive(Debug, Drop)]
pub struct NumberedEdit {
    pub(crate) line: usize,
    pub(crate) edit: EditLine,
}

/// The edits of a file. Empty lines are skipped.
pub(crate) fn parse_edits<'a>(
    alloc: Global,
    file: &'a str,
    text: &str,
) -> Result<Vec<NumberedEdit>, Problem<'a>> {
    let mut edits = Vec::new(alloc);
    for (index, line) in text.lines().enumerate() {
        if line.is_empty() {
            continue;
        }
        let number = index.saturating_add(1);
        match EditLine::parse(alloc, line) {
            Ok(edit) => edits.push(NumberedEdit { line: number, edit })?,
            Err(LineError::Memory) => return Err(Problem::Memory),
            Err(LineError::Expected { column, what }) => {
                return Err(Problem::BadEdit {
                    file,
                    line: number,
                    column,
                    expected: what,
                });
            }
        }
    }
    Ok(edits)
}

/// The bytes that an edit is about.
pub(crate) fn range_of(
    alloc: Global,
    text: &str,
    edit: &EditLine,
) -> Result<Result<Range<usize>, Misfit>, AllocError>
    ensures fits { IfOk result (λ placed. IfOk placed (FitsText text.now)) }
    ensures range { IfOk result (λ placed. IfOk placed (IsRangeOf Unicode text.now edit.now)) }
{
    let lines = Lines::new(alloc, text)?;
    Ok(placed(&lines, text, edit))
}

/// The bytes of an edit of a text with these lines, or why it doesn't fit.
fn placed(lines: &Lines, text: &str, edit: &EditLine) -> Result<Range<usize>, Misfit>
    requires { AreLines lines.now text.now }
    ensures fits { IfOk result (FitsText text.now) }
    ensures range { IfOk result (IsRangeOf lines.now.ends text.now edit.now) }
{
    let start = byte_of(lines, text, edit.start, "starts")?;
    let end = byte_of(lines, text, edit.end, "ends")?;
    if end < start {
        return Err(Misfit::Backwards { start, end });
    }
    Ok(start..end)
}

/// The byte of a place, at which the edit starts or ends.
fn byte_of(lines: &Lines, text: &str, place: Place, end: &'static str) -> Result<usize, Misfit>
    requires { AreLines lines.now text.now }
    ensures boundary { IfOk result (IsCharBoundary text.now) }
    ensures byte { IfOk result (IsByteOf lines.now.ends text.now place) }
{
    match place {
        Place::Byte(byte) => boundary(text, byte, end),
        Place::LineColumn { line, column } => {
            let (row, at) = (line.saturating_sub(1), column.saturating_sub(1));
            match lines.line_column_to_byte(text, row, at, ColumnUnit::Character) {
                Some(byte) => Ok(byte),
                None => Err(no_place(lines, text, line, column, end)),
            }
        }
    }
}

/// The byte, which must lie between two characters.
fn boundary(text: &str, byte: usize, end: &'static str) -> Result<usize, Misfit>
    ensures boundary { IfOk result (IsCharBoundary text.now) }
    ensures byte { IfOk result (λ at. at ≡ byte) }
    ensures err { IsErr result → ¬ (IsCharBoundary text.now byte) }
{
    if text.is_char_boundary(byte) {
        return Ok(byte);
    }
    let len = text.len();
    if byte > len {
        return Err(Misfit::Beyond { end, byte, len });
    }
    let is_end = |place: &usize| text.is_char_boundary(*place);
    Err(Misfit::Within {
        end,
        byte,
        first: (0..byte).rev().find(is_end).unwrap_or(0),
        behind: (byte..len).find(is_end).unwrap_or(len),
    })
}

/// Why the text has no such line and column, both from 1.
fn no_place(lines: &Lines, text: &str, line: usize, column: usize, end: &'static str) -> Misfit
    requires { AreLines lines.now text.now }
{
    let range = lines.line_to_range(text, line.saturating_sub(1));
    match range.and_then(|range| text.get(range)) {
        None => Misfit::NoLine {
            end,
            line,
            lines: lines.len_lines(),
        },
        Some(whole) => Misfit::NoColumn {
            end,
            line,
            column,
            chars: without_end(whole).chars().count(),
        },
    }
}
