//! Calls on long texts.
use crate::repeats::repeated;
use anyhow::Result;
use std::alloc::Global;
use typst_script::script;
use typst_tree::ast::{ModuleImport, Str};
use typst_tree::{SyntaxKind, SyntaxNode};

/// Makes the call of this name, and answers whether it gave the right answer.
pub fn made(alloc: Global, name: &str, length: usize) -> Result<Option<bool>> {
    let text = repeated(alloc, "", "a", length)?;
    let right = match name {
        "leaf" => is_kept(alloc, &text),
        "error" => is_told(alloc, &text),
        "warn" => is_warned(alloc, &text),
        "expected" => is_error(alloc, &text),
        "Str::get" => is_read(alloc, &text),
        "bare_name" => is_named(alloc, &text),
        "script::run" => is_shown(alloc, &text),
        _ => return Ok(None),
    };
    Ok(Some(right?))
}

/// Whether a leaf, its clone and its whole text have the text.
fn is_kept(alloc: Global, text: &str) -> Result<bool> {
    let leaf = SyntaxNode::leaf(alloc, SyntaxKind::Text, text)?;
    let same = leaf.clone()?;
    Ok(leaf.leaf_text() == text && same == leaf && same.full_text(alloc)?.as_str() == text)
}

/// Whether an error's message is reported, and its text kept.
fn is_told(alloc: Global, text: &str) -> Result<bool> {
    let mut error = SyntaxNode::error(alloc, text, text)?;
    if !error.can_hint() {
        return Ok(false);
    }
    error.hint(alloc, text)?;
    let (errors, _) = error.errors_and_warnings(alloc)?;
    let is_message = errors
        .first()
        .is_some_and(|it| it.message.as_str() == text && it.hints.len() == 1);
    Ok(is_message && error.leaf_text() == text)
}

/// Whether a warning about a long text, with a long message, is reported.
fn is_warned(alloc: Global, text: &str) -> Result<bool> {
    let mut leaf = SyntaxNode::leaf(alloc, SyntaxKind::Text, text)?;
    leaf.warn(alloc, text)?;
    let (_, warnings) = leaf.errors_and_warnings(alloc)?;
    let is_message = warnings
        .first()
        .is_some_and(|it| it.message.as_str() == text);
    Ok(is_message && leaf.leaf_text() == text)
}

/// Whether a text that isn't what was expected becomes an error that keeps it.
fn is_error(alloc: Global, text: &str) -> Result<bool> {
    let mut node = SyntaxNode::leaf(alloc, SyntaxKind::Text, text)?;
    node.expected(alloc, text)?;
    Ok(node.kind().is_error() && node.leaf_text() == text)
}

/// Whether an escape after `length` letters is read.
fn is_read(alloc: Global, text: &str) -> Result<bool> {
    let written = format!(in alloc; "\"{text}\\n\"")?;
    let wanted = format!(in alloc; "{text}\n")?;
    let leaf = SyntaxNode::leaf(alloc, SyntaxKind::Str, written.as_str())?;
    let Some(view) = leaf.cast::<Str>() else {
        return Ok(false);
    };
    Ok(view.get(alloc)?.as_str() == wanted.as_str())
}

/// Whether the name of a module is that of its file.
fn is_named(alloc: Global, text: &str) -> Result<bool> {
    let written = format!(in alloc; "\"b/{text}.typ\"")?;
    let source = SyntaxNode::leaf(alloc, SyntaxKind::Str, written.as_str())?;
    let import = SyntaxNode::inner(alloc, SyntaxKind::ModuleImport, vec![in alloc; source]?)?;
    let Some(view) = import.cast::<ModuleImport>() else {
        return Ok(false);
    };
    let name = view.bare_name(alloc, |_: &str| true, |_: &str| Ok(None))?;
    Ok(name.is_ok_and(|name| name.as_str() == text))
}

/// Whether a line of a script may have a text of this length.
fn is_shown(alloc: Global, text: &str) -> Result<bool> {
    let length = text.len();
    let lines = format!(in alloc; "leaf 6 {text}\nroot\nshow\n")?;
    let wanted = format!(in alloc; "6 1 2 {length} {text}\n")?;
    let mut out: Vec<u8> = Vec::new(alloc);
    let done = script::run(alloc, lines.as_bytes(), &mut out);
    Ok(done.is_ok() && out.as_slice() == wanted.as_bytes())
}
