//! Edits a document, and tells after each edit what was parsed anew and which nodes keep their numbers.
//!
//! An edit is a line `7..12 "Trees"`, whose range is in bytes and whose text is written with the escapes `\n`, `\"` and `\\`.

use anyhow::{Context, Result, bail};
use std::alloc::{AllocError, Global};
use std::ops::Range;
use typst_language::Typst;
use typst_node::count_nodes;
use typst_source::{Edited, Source};
use typst_tree::{FileId, Renumbered, SyntaxNode, Touched, node_at};

/// Makes the edits of a text, and prints what each did, and then the text.
pub(crate) fn make_edits(rt: &HostRuntime, text: &str, edits: &str) -> Result<()> {
    let alloc = rt.alloc();
    let mut source = Source::new(alloc, FileId::FIRST, text, Typst)?;
    for line in edits.lines() {
        let done = edit(alloc, &mut source, line)?;
        rt.println(told(alloc, &source, &done)?)?;
    }
    rt.print(source.text())?;
    Ok(())
}

/// The range of bytes that `A..B` writes.
fn range_of(word: &str) -> Option<Range<usize>> {
    let (start, end) = word.split_once("..")?;
    Some(start.parse().ok()?..end.parse().ok()?)
}

/// The text in the quotes, with its escapes read.
fn unquoted(alloc: Global, quoted: &str) -> Result<Option<String>, AllocError> {
    let Some(inside) = quoted
        .strip_prefix('"')
        .and_then(|rest| rest.strip_suffix('"'))
    else {
        return Ok(None);
    };
    let mut text = String::new(alloc);
    let mut is_escaped = false;
    for c in inside.chars() {
        match c {
            '\\' if !is_escaped => is_escaped = true,
            'n' if is_escaped => {
                text.push('\n')?;
                is_escaped = false;
            }
            other => {
                text.push(other)?;
                is_escaped = false;
            }
        }
    }
    Ok(Some(text))
}

/// What an edit did, in words.
fn told(alloc: Global, source: &Source<Typst>, done: &Edited) -> Result<String, AllocError> {
    let Range { start, end } = done.reparsed;
    let (bytes, all) = (source.text().len(), source.root().descendants());
    let mut said = format!(in alloc; "parsed {start}..{end} of {bytes} bytes; ")?;
    match &done.touched {
        Touched::Leaf { .. } => {
            write!(
                said,
                "a leaf went on, and all {all} nodes keep their numbers"
            )?;
        }
        Touched::Window(Renumbered { window, tried }) => {
            let children = match node_at(source.root(), &done.path) {
                Some(node) => node.child_slice(),
                None => &[],
            };
            let anew = count_nodes(children.get(window.start..window.end).unwrap_or(&[]));
            let kept = all.saturating_sub(anew);
            write!(said, "numbered {anew} of {all} nodes, tried {tried}; ")?;
            write!(said, "{kept} keep their numbers")?;
        }
    }
    Ok(said)
}

/// Does the edit that a line writes.
fn edit(alloc: Global, source: &mut Source<Typst>, line: &str) -> Result<Edited> {
    let (word, quoted) = line
        .split_once(' ')
        .context("an edit is written A..B \"text\"")?;
    let range = range_of(word).context("an edit begins with a range of bytes, as 7..12")?;
    let text = unquoted(alloc, quoted)?.context("the text of an edit must be in quotes")?;
    if !source.fits(&range) {
        bail!(
            "{word} isn't a range of the text's {} bytes",
            source.text().len()
        );
    }
    Ok(source.edit(alloc, range, &text)?)
}
