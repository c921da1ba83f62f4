//! Texts of markup, with their trees and their edits.
use crate::asked::Asked;
use crate::repeats::{repeated, text_of};
use crate::stopwatch::Stopwatch;
use anyhow::{Result, ensure};
use std::alloc::{AllocError, Global};
use std::ops::Range;
use typst_language::Typst;
use typst_source::Source;
use typst_tree::FileId;

/// A paragraph of four lines, the last of which is empty.
pub const PARAGRAPH: &str =
    "= A heading\nSome *strong* words, _emphasis_ and a line.\n- an item with `raw text`\n\n";

/// How many lines the paragraph has.
const LINES: usize = 4;

/// Where a letter is inserted and removed in a paragraph, in bytes: inside the word `emphasis` of its second line.
pub const LETTER: usize = 40;

/// A text that is inserted at a byte of a paragraph, and removed again.
#[derive(Clone, Copy)]
pub struct Edit {
    /// Where the text is inserted, in bytes of the paragraph.
    pub at: usize,
    /// The text.
    pub with: &'static str,
}

/// A line of a block that an open delimiter keeps together.
const LINE: &str = "Some *strong* words, no emphasis and a line.\n";

/// An item of a list, and where a letter is inserted and removed in it, in bytes.
const ITEM: &str = "- an item with `raw text`\n";

const ITEM_LETTER: usize = 12;

/// One block with this many lines: emphasized content.
fn block(alloc: Global, lines: usize) -> Result<String, AllocError> {
    let inside = repeated(alloc, "_", LINE, lines)?;
    format!(in alloc; "{inside}_")
}

/// A text with this many lines.
pub fn text(alloc: Global, lines: usize) -> Result<String, AllocError> {
    repeated(alloc, "", PARAGRAPH, lines / LINES)
}

/// Where the paragraph in the middle of such a text begins, in bytes.
pub fn middle(lines: usize) -> usize {
    (lines / LINES / 2).saturating_mul(PARAGRAPH.len())
}

/// How many bytes a range has.
pub fn bytes(range: &Range<usize>) -> usize {
    range.end.saturating_sub(range.start)
}

/// What is typed, or none if the text is parsed as a whole.
pub fn typed(verb: &str) -> Option<Edit> {
    Some(match verb {
        "letter" => Edit {
            at: LETTER,
            with: "x",
        },
        "paragraph" => Edit {
            at: 0,
            with: PARAGRAPH,
        },
        "delimiter" => Edit { at: 12, with: "*" },
        _ => return None,
    })
}

/// Parses a text or edits it in each round. Returns how many bytes were parsed in all. The shape `block` is a text of one
/// block, `list` is one of items without a blank line, and `repeats.rt` has further ones. With the shape `far` the edits
/// are made in turns in the first paragraph and in the last one.
pub fn made(alloc: Global, watch: &mut Stopwatch<'_>, asked: Asked<'_>) -> Result<Option<usize>> {
    let text = match asked.shape {
        "block" => block(alloc, asked.size)?,
        "list" => repeated(alloc, "", ITEM, asked.size)?,
        name => match text_of(alloc, name, asked.size)? {
            Some(text) => text,
            None => text(alloc, asked.size)?,
        },
    };
    let seen = match typed(asked.verb) {
        Some(edit) => edited(alloc, watch, &text, edit, asked),
        None => parsed(alloc, watch, &text, asked.rounds),
    };
    Ok(Some(seen?))
}

/// Where the edit of a round is made, in bytes.
fn edited_at(asked: Asked<'_>, edit: Edit, round: usize) -> usize {
    let begin = match (asked.shape, round % 2) {
        ("list", _) => {
            let item = (asked.size / 2).saturating_mul(ITEM.len());
            return item.saturating_add(ITEM_LETTER);
        }
        ("far", 0) => 0,
        ("far", _) => (asked.size / LINES)
            .saturating_sub(1)
            .saturating_mul(PARAGRAPH.len()),
        _ => middle(asked.size),
    };
    begin.saturating_add(edit.at)
}

/// In each round, makes an edit of a text and takes it back.
fn edited(
    alloc: Global,
    watch: &mut Stopwatch<'_>,
    text: &str,
    edit: Edit,
    asked: Asked<'_>,
) -> Result<usize> {
    let mut source = Source::new(alloc, FileId::FIRST, text, Typst)?;
    let mut seen = 0usize;
    watch.start()?;
    for turn in 0..asked.rounds {
        let at = edited_at(asked, edit, turn);
        seen = seen.saturating_add(round(alloc, &mut source, at, edit)?);
    }
    watch.stop()?;
    ensure!(source.text() == text, "the text is another one");
    Ok(seen)
}

/// Makes an edit at a byte and takes it back, and returns how many bytes were parsed anew.
fn round(alloc: Global, source: &mut Source<Typst>, at: usize, edit: Edit) -> Result<usize> {
    let come = put(alloc, source, at..at, edit.with)?;
    let gone = put(alloc, source, at..at.saturating_add(edit.with.len()), "")?;
    Ok(come.saturating_add(gone))
}

/// Parses the whole text in each round, and returns how many bytes the trees have together. The first parse takes
/// memory that the process hasn't had before, so it is neither timed nor counted.
fn parsed(alloc: Global, watch: &mut Stopwatch<'_>, text: &str, rounds: usize) -> Result<usize> {
    let mut seen = 0usize;
    drop(Source::new(alloc, FileId::FIRST, text, Typst)?);
    for _ in 0..rounds {
        watch.start()?;
        let source = Source::new(alloc, FileId::FIRST, text, Typst)?;
        watch.stop()?;
        seen = seen.saturating_add(source.root().len());
    }
    Ok(seen)
}

/// Replaces a range of bytes by a text, and returns how many bytes were parsed anew.
fn put(
    alloc: Global,
    source: &mut Source<Typst>,
    range: Range<usize>,
    with: &str,
) -> Result<usize> {
    ensure!(source.fits(&range), "the range isn't one of the text");
    let done = source.edit(alloc, range, with)?;
    Ok(bytes(&done.reparsed))
}
