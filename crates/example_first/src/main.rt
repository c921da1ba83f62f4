//! Opens a text, edits it twice, and finds a heading again by following its number.
#![tactic(auto)]

use anyhow::{Context, Result, ensure};
use std::ops::Range;
use typst_lines::ColumnUnit;
use typst_session::Document;
use typst_tree::{FileId, SyntaxKind};

fn main(rt: HostRuntime) -> Result<()> {
    let alloc = rt.alloc();
    let text = "First words.\n\n= Tree\n\nLast words.\n";
    let mut document = Document::new(alloc, FileId::FIRST, text)?;
    // A span holds the number of its node.
    let mut heading = document
        .root()
        .children()
        .find(|node| node.kind() == SyntaxKind::Heading)
        .context("no heading")?
        .span();

    // Somebody writes a paragraph before the heading, and a letter into its title.
    for (at, added) in [(0, "A word before.\n\n"), (36, "s")] {
        let range = at..at;
        ensure!(document.fits(&range), "the text has no such range");
        let done = document.edit(alloc, range, added)?;
        let Range { start, end } = done.reparsed;
        println!(rt; "bytes {start}..{end} were parsed anew")?;
        heading = done.follow(heading).context("it is gone")?;
    }

    // The number leads to the heading, wherever it is now.
    let bytes = document
        .source()
        .range(alloc, heading)?
        .context("no such node")?;
    let at = document
        .byte_to_line_column(bytes.start, ColumnUnit::Character)
        .context("no place")?;
    let Range { start, end } = bytes;
    println!(rt;
        "the heading is in line {}, bytes {start}..{end}",
        at.line.saturating_add(1)
    )?;
    Ok(())
}
