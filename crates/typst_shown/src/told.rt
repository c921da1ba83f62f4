//! What is told of an edit.

use crate::edits::NumberedEdit;
use crate::report::EditReport;
use std::alloc::{AllocError, Global};
use typst_node::Touched;

/// What an edit did, in two lines without an end of the second: the edit, and the counts of its report with the place of
/// the change.
pub fn told_of(
    alloc: Global,
    numbered: &NumberedEdit,
    report: &EditReport,
) -> Result<String, AllocError> {
    let NumberedEdit { line, edit } = numbered;
    let EditReport {
        done,
        bytes,
        nodes,
        new,
        moved,
        ..
    } = report;
    let (start, end) = (done.reparsed.start, done.reparsed.end);
    let kept = report.kept();
    let mut out = String::new(alloc);
    writeln!(out, "line {line}: {edit}")?;
    write!(out, "parsed {start}..{end} of {bytes} bytes; ")?;
    write!(out, "{new} of {nodes} nodes are new, ")?;
    write!(out, "{moved} moved, {kept} keep their numbers; ")?;
    match &done.touched {
        Touched::Leaf { index } => write!(out, "leaf {index}")?,
        Touched::Window(renumbered) => {
            let (first, behind) = (renumbered.window.start, renumbered.window.end);
            let tried = renumbered.tried;
            write!(out, "window {first}..{behind}, tried {tried},")?;
        }
    }
    out.push_str(" at ")?;
    push_path(&mut out, &done.path)?;
    Ok(out)
}

/// Adds a path: child indices joined by dots, or `-` for the root's.
fn push_path(out: &mut String, path: &[usize]) -> Result<(), AllocError> {
    let Some((first, rest)) = path.split_first() else {
        return out.push_str("-");
    };
    write!(out, "{first}")?;
    for index in rest {
        write!(out, ".{index}")?;
    }
    Ok(())
}
