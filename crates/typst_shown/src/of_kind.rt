//! The nodes of one kind, a line each.

use crate::drawing::{write_row, write_text};
use crate::listed::rows;
use crate::part::Part;
use crate::places::places_of;
use crate::report::EditReport;
use crate::shown::Shown;
use std::alloc::Global;
use std::io;
use std::io::Write;
use typst_base::SyntaxKind;

/// Writes a line for each node of a kind that is shown, with its line and column.
pub fn write_of_kind<W: Write>(
    alloc: Global,
    out: &mut W,
    shown: &Shown<'_>,
    kind: SyntaxKind,
    report: Option<&EditReport>,
) -> io::Result<()> {
    let rows = rows(alloc, shown.root)?;
    let places = places_of(alloc, shown.text, &rows)?;
    let part = Part::of(alloc, shown.wanted, shown.text)?;
    let mut rest = String::new(alloc);
    for (index, row) in rows.iter().enumerate() {
        if row.kind == kind && part.has(index, row) {
            write_row(out, shown, row, places.get(index), report)?;
            write_text(out, &mut rest, shown.text, row)?;
        }
    }
    Ok(())
}

/// The kind with a name, such as `Heading`. The case of its letters doesn't matter.
pub fn kind_named(alloc: Global, name: &str) -> io::Result<Option<SyntaxKind>> {
    for raw in 0..=u8::MAX {
        let Some(kind) = SyntaxKind::from_u8(raw) else {
            break;
        };
        let word = format!(in alloc; "{kind:?}")?;
        if word.eq_ignore_ascii_case(name) {
            return Ok(Some(kind));
        }
    }
    Ok(None)
}
