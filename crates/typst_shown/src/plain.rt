//! Only kinds and texts, with two blanks for each level. Trees are compared in this form.

use crate::listed::rows;
use crate::shown::Shown;
use std::alloc::Global;
use std::io;
use std::io::Write;
use typst_base::SyntaxKind;

/// Writes one node per line: a leaf with its text, an error with its text and message.
pub fn write_plain<W: Write>(alloc: Global, out: &mut W, shown: &Shown<'_>) -> io::Result<()> {
    let (errors, _) = shown.root.errors_and_warnings(alloc)?;
    // Each error node reports one error, and the errors come in preorder.
    let mut errors = errors.iter();
    for row in &rows(alloc, shown.root)? {
        for _ in 0..row.depth {
            out.write_all(b"  ")?;
        }
        let kind = row.kind;
        let own = shown.text.get(row.start..row.end).unwrap_or("");
        if kind == SyntaxKind::Error {
            let message = errors.next().map_or("", |error| error.message.as_str());
            writeln!(out, "Error {own:?}: {message}")?;
        } else if row.is_inner {
            writeln!(out, "{kind:?}")?;
        } else {
            writeln!(out, "{kind:?} {own:?}")?;
        }
    }
    Ok(())
}
