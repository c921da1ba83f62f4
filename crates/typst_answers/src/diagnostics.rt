//! What a tree reports, and what it answers as a whole.

use crate::answers::Answers;
use std::alloc::AllocError;
use typst_tree::{SyntaxDiagnostic, SyntaxNode};

/// Writes the errors, the warnings, whether there are any, the text, and the tree for programmers.
pub fn diagnostics(out: &mut Answers, tree: &SyntaxNode) -> Result<(), AllocError> {
    let alloc = out.alloc;
    let (errors, warnings) = tree.errors_and_warnings(alloc)?;
    put_messages(out, "error", &errors);
    put_messages(out, "warning", &warnings);
    let diagnosis = tree.diagnosis();
    let has_errors = diagnosis.errors;
    let has_warnings = diagnosis.warnings;
    let text = tree.full_text(alloc)?;
    out.put_made(format!(in alloc; "diagnosis {has_errors} {has_warnings}\n"));
    out.put_made(format!(in alloc; "text {text:?}\n"));
    out.put_made(format!(in alloc; "debug {tree:?}\n"));
    Ok(())
}

/// Writes the messages, one per line.
fn put_messages(out: &mut Answers, word: &str, reports: &[SyntaxDiagnostic]) {
    let alloc = out.alloc;
    for report in reports {
        let message = report.message.as_str();
        out.put_made(format!(in alloc; "{word} {message:?}\n"));
    }
}
