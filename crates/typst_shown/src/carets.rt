//! Errors and warnings, each with its line of the text and with carets under the part that it is about.
ghost use Rattle.typst_lines.specs.LineTable.{AreLines};

use crate::line_end::without_end;
use crate::paint::Ink;
use crate::shown::Shown;
use std::alloc::{AllocError, Global};
use std::io;
use std::io::Write;
use std::ops::Range;
use typst_lines::{ColumnUnit, Lines};
use typst_linked::place_of;
use typst_node::SyntaxDiagnostic;
use unicode_width::UnicodeWidthStr;

/// How many characters of a long line are shown before the part.
const BEFORE: usize = 60;

/// How many characters of the part are shown.
const WITHIN: usize = 60;

/// How many characters of a long line are shown after the part.
const AFTER: usize = 40;

/// A part of a text: its line and column, both from 1, and the text before, in and after it in that line.
#[derive(Drop)]
struct Excerpt<'a> {
    line: usize,
    column: usize,
    before: &'a str,
    part: &'a str,
    behind: &'a str,
}

/// Writes the errors and then the warnings of a tree, each with a blank line before it.
pub fn write_reports<W: Write>(alloc: Global, out: &mut W, shown: &Shown<'_>) -> io::Result<()> {
    let diagnosis = shown.root.diagnosis();
    if !diagnosis.errors && !diagnosis.warnings {
        return Ok(());
    }
    let lines = Lines::new(alloc, shown.text)?;
    let (errors, warnings) = shown.root.errors_and_warnings(alloc)?;
    let is_coloured = shown.manner.is_coloured;
    for found in errors.iter().chain(warnings.iter()) {
        out.write_all(b"\n")?;
        let (severity, ink) = if found.is_error {
            ("error", Ink::Error)
        } else {
            ("warning", Ink::Warning)
        };
        let message = found.message.as_str();
        ink.write(out, is_coloured, severity)?;
        writeln!(out, ": {message}")?;
        let part = match place_of(shown.root, &found.span) {
            Some(range) => excerpt_of(&lines, shown.text, &range),
            None => None,
        };
        if let Some(part) = part {
            write_excerpt(alloc, out, shown.file, &part)?;
        }
        write_hints(out, found)?;
    }
    Ok(())
}

/// Writes the hints of a diagnostic, one per line.
fn write_hints<W: Write>(out: &mut W, found: &SyntaxDiagnostic) -> io::Result<()> {
    for hint in &found.hints {
        let hint = hint.v.as_str();
        writeln!(out, "  = hint: {hint}")?;
    }
    Ok(())
}

/// The excerpt of a part. A part of several lines is cut at the end of its first line.
fn excerpt_of<'a>(lines: &Lines, text: &'a str, part: &Range<usize>) -> Option<Excerpt<'a>>
    requires { AreLines lines.now text.now }
{
    let line = lines.byte_to_line(text, part.start)?;
    let column = lines.byte_to_column(text, part.start, ColumnUnit::Character)?;
    let whole = lines.line_to_range(text, line)?;
    let rest = text.get(part.start..whole.end)?;
    let rest = without_end(rest);
    let len = part.end.saturating_sub(part.start).min(rest.len());
    Some(Excerpt {
        line: line.saturating_add(1),
        column: column.saturating_add(1),
        before: text.get(whole.start..part.start)?,
        part: rest.get(..len)?,
        behind: rest.get(len..)?,
    })
}

/// Writes the place, the line, and carets below the part.
fn write_excerpt<W: Write>(
    alloc: Global,
    out: &mut W,
    file: &str,
    excerpt: &Excerpt<'_>,
) -> io::Result<()> {
    let Excerpt { line, column, .. } = excerpt;
    let number = format!(in alloc; "{line}")?;
    let before = last_chars(alloc, excerpt.before, BEFORE)?;
    let part = first_chars(alloc, excerpt.part, WITHIN)?;
    let behind = first_chars(alloc, excerpt.behind, AFTER)?;
    write_blanks(out, number.len())?;
    writeln!(out, "--> {file}:{line}:{column}")?;
    write_blanks(out, number.len())?;
    writeln!(out, " |")?;
    writeln!(out, "{number} | {before}{part}{behind}")?;
    write_blanks(out, number.len())?;
    write!(out, " | ")?;
    write_blanks(out, before.as_str().width())?;
    for _ in 0..part.as_str().width().max(1) {
        out.write_all(b"^")?;
    }
    out.write_all(b"\n")
}

/// Writes this many blanks.
fn write_blanks<W: Write>(out: &mut W, count: usize) -> io::Result<()> {
    for _ in 0..count {
        out.write_all(b" ")?;
    }
    Ok(())
}

/// At most `most` characters of the beginning of a text, as a terminal shows them.
fn first_chars(alloc: Global, text: &str, most: usize) -> Result<String, AllocError> {
    let mut out = String::new(alloc);
    for (index, c) in text.chars().enumerate() {
        if index == most {
            out.push('…')?;
            break;
        }
        push_shown(&mut out, c)?;
    }
    Ok(out)
}

/// At most `most` characters of the end of a text, as a terminal shows them.
fn last_chars(alloc: Global, text: &str, most: usize) -> Result<String, AllocError> {
    let count = text.chars().count();
    let mut out = String::new(alloc);
    if count > most {
        out.push('…')?;
    }
    for c in text.chars().skip(count.saturating_sub(most)) {
        push_shown(&mut out, c)?;
    }
    Ok(out)
}

/// Adds a character. A tab becomes four blanks, and any other control character `�`, so that the carets are below their
/// part.
fn push_shown(out: &mut String, c: char) -> Result<(), AllocError> {
    match c {
        '\t' => out.push_str("    "),
        other if other.is_control() => out.push('\u{fffd}'),
        other => out.push(other),
    }
}
