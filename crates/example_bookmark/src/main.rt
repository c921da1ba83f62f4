//! Keeps a heading over edits of a text by one call after each edit, and prints where it is.
#![tactic(auto)]

use anyhow::{Context, Result, ensure};
use std::ops::Range;
use typst_session::Document;
use typst_tree::{FileId, SyntaxKind};

/// The bytes that go with each edit, and the text that comes.
const EDITS: [(Range<usize>, &str); 7] = [
    // A paragraph comes before the heading.
    (0..0, "A word before.\n\n"),
    // A letter comes into its title, and the title becomes bold.
    (36..36, "s"),
    (32..37, "*Trees*"),
    // An equal heading is inserted before it, and then another one comes with its own line.
    (30..30, "= *Trees*\n\n"),
    (41..50, "= *Trees*\n\n= *Trees*"),
    // It is deleted, and the deletion is undone.
    (41..52, ""),
    (41..41, "= *Trees*\n\n"),
];

fn main(rt: HostRuntime) -> Result<()> {
    let alloc = rt.alloc();
    let text = "First words.\n\n= Tree\n\nLast words.\n";
    let mut document = Document::new(alloc, FileId::FIRST, text)?;
    let mut headings = document.root().children();
    let heading = headings
        .find(|node| node.kind() == SyntaxKind::Heading)
        .context("no heading")?;
    let mut bookmark = Some(heading.span());
    for (range, with) in &EDITS {
        let range = range.start..range.end;
        ensure!(document.fits(&range), "the edit doesn't fit");
        let done = document.edit(alloc, range, with)?;
        bookmark = bookmark.and_then(|span| done.follow(span));
        let Some(span) = bookmark else {
            println!(rt; "the heading is gone")?;
            continue;
        };
        let source = document.source();
        let Range { start, end } = source.range(alloc, span)?.context("no such node")?;
        let now = source.text().get(start..end).unwrap_or("");
        println!(rt; "bytes {start}..{end}: {now}")?;
    }
    Ok(())
}
