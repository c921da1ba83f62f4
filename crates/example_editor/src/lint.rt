//! The errors and warnings of a document, each with its line and column.
ghost use Rattle.typst_lines.specs.LineTable.{AreLines};

use anyhow::{Context, Result};
use typst_language::Typst;
use typst_lines::{ColumnUnit, Lines};
use typst_source::Source;
use typst_tree::FileId;

/// Prints the errors and then the warnings of a text.
pub(crate) fn print_errors(rt: &HostRuntime, text: String) -> Result<()> {
    let alloc = rt.alloc();
    let lines = Lines::new(alloc, &text)?;
    let source = Source::new(alloc, FileId::FIRST, &text, Typst)?;
    let (errors, warnings) = source.root().errors_and_warnings(alloc)?;
    for found in errors.iter().chain(warnings.iter()) {
        let bytes = source.place_of(&found.span).context("no place")?;
        let (line, column) = place(&lines, &text, bytes.start).context("no place")?;
        let severity = if found.is_error { "error" } else { "warning" };
        let message = found.message.as_str();
        println!(rt; "{line}:{column}: {severity}: {message}")?;
        for hint in &found.hints {
            let hint = hint.v.as_str();
            println!(rt; "  hint: {hint}")?;
        }
    }
    Ok(())
}

/// The line and the column of a byte, both from 1. Columns count characters.
fn place(lines: &Lines, text: &str, byte: usize) -> Option<(usize, usize)>
    requires { AreLines lines.now text.now }
{
    let line = lines.byte_to_line(text, byte)?;
    let column = lines.byte_to_column(text, byte, ColumnUnit::Character)?;
    Some((line.saturating_add(1), column.saturating_add(1)))
}
