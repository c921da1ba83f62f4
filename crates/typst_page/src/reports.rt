//! The errors and warnings of a step.
ghost use Rattle.typst_lines.specs.LineTable.{AreLines};

use crate::escaped::push_escaped;
use crate::step::{Step, row_of};
use std::alloc::{AllocError, Global};
use typst_lines::{ColumnUnit, Lines};
use typst_linked::place_of;
use typst_node::SyntaxDiagnostic;
use typst_shown::Shown;
use typst_shown::places::LineColumn;

/// How many bytes the list may have before the rest is left out.
const MOST_BYTES: usize = 100_000;

/// How many characters of a message or a hint are shown.
const MOST_CHARS: usize = 500;

/// Adds the errors and then the warnings, each with links to its place in the text and in the tree. Returns how many of
/// them are listed.
pub(crate) fn push_reports(
    alloc: Global,
    out: &mut String,
    step: &Step<'_>,
) -> Result<usize, AllocError> {
    if step.found.is_empty() {
        return Ok(0);
    }
    let lines = Lines::new(alloc, step.shown.text)?;
    out.push_str("<ul class=\"reports\">\n")?;
    let begin = out.len();
    let mut listed = step.found.len();
    for (index, found) in step.found.iter().enumerate() {
        if out.len().saturating_sub(begin) > MOST_BYTES {
            let more = step.found.len().saturating_sub(index);
            writeln!(out, "<li>and {more} more</li>")?;
            listed = index;
            break;
        }
        let place = place_in(&lines, &step.shown, found);
        push_report(out, step, found, place)?;
    }
    out.push_str("</ul>\n")?;
    Ok(listed)
}

/// Adds an error or a warning.
fn push_report(
    out: &mut String,
    step: &Step<'_>,
    found: &SyntaxDiagnostic,
    place: Option<LineColumn>,
) -> Result<(), AllocError> {
    let severity = if found.is_error { "error" } else { "warning" };
    write!(out, "<li class=\"{severity}\"><b>{severity}</b> ")?;
    let message = first_chars(&found.message);
    match (row_of(&step.rows, found), place) {
        (Some(row), Some(place)) => push_linked(out, step.number, row, place, message)?,
        _ => push_escaped(out, message)?,
    }
    for hint in &found.hints {
        out.push_str("<br>hint: ")?;
        push_escaped(out, first_chars(&hint.v))?;
    }
    out.push_str("</li>\n")
}

/// Adds a line and column with a link into the text, and a message with a link into the tree, both for a row of a step.
fn push_linked(
    out: &mut String,
    step: usize,
    row: usize,
    place: LineColumn,
    message: &str,
) -> Result<(), AllocError> {
    let LineColumn { line, column } = place;
    write!(out, "<a href=\"#t{step}-{row}\">{line}:{column}</a> ")?;
    write!(out, "<a href=\"#n{step}-{row}\">")?;
    push_escaped(out, message)?;
    out.push_str("</a>")
}

/// The line and the column that a report is about.
fn place_in(lines: &Lines, shown: &Shown<'_>, found: &SyntaxDiagnostic) -> Option<LineColumn>
    requires { AreLines lines.now shown.now.text.now }
{
    let range = place_of(shown.root, &found.span)?;
    let line = lines.byte_to_line(shown.text, range.start)?;
    let column = lines.byte_to_column(shown.text, range.start, ColumnUnit::Character)?;
    Some(LineColumn {
        line: line.saturating_add(1),
        column: column.saturating_add(1),
    })
}

/// The beginning of a long message.
fn first_chars(message: &str) -> &str {
    match message.char_indices().nth(MOST_CHARS) {
        Some((end, _)) => message.get(..end).unwrap_or(message),
        None => message,
    }
}
