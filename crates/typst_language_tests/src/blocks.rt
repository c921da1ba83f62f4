//! Which bytes are parsed anew when a letter is typed.
use anyhow::{Result, ensure};
use std::alloc::Global;
use std::ops::Range;
use typst_base::FileId;
use typst_language::Typst;
use typst_source::Source;

/// A text, where a letter is inserted, and which bytes of the new text are then parsed.
#[derive(Clone, Copy)]
struct Row {
    shows: &'static str,
    text: &'static str,
    at: usize,
    parsed: (usize, usize),
}

/// Texts in which the letter comes at least ten bytes after the first line. So that line doesn't depend on it.
const ROWS: [Row; 14] = [
    Row {
        shows: "a line of a paragraph",
        text: "One line of a paragraph,\nand a second line of it.\n",
        at: 40,
        parsed: (25, 51),
    },
    Row {
        shows: "a line after a heading",
        text: "= A heading of some words\nA line of words after it.\n",
        at: 40,
        parsed: (26, 53),
    },
    Row {
        shows: "an item of a list",
        text: "- The first item of a list\n- and the second item of it\n",
        at: 40,
        parsed: (27, 56),
    },
    Row {
        shows: "a line after blank lines",
        text: "A line before blank lines.\n \n\nA line after blank lines.\n",
        at: 45,
        parsed: (30, 57),
    },
    Row {
        shows: "strong content that is open at the end of a line",
        text: "*An open star goes on,\nand ends in a second line.*\n",
        at: 40,
        parsed: (0, 52),
    },
    Row {
        shows: "a paragraph after strong content that a blank line ends",
        text: "*An open star of a paragraph\n\nThe paragraph after it.\n",
        at: 45,
        parsed: (30, 55),
    },
    Row {
        shows: "a comment that goes on over a line end",
        text: "A line /* a comment goes on\nin a second line */ of text.\n",
        at: 40,
        parsed: (0, 58),
    },
    Row {
        shows: "raw text that goes on over a line end",
        text: "A line with `raw text that\ngoes on` and ends there.\n",
        at: 40,
        parsed: (0, 53),
    },
    Row {
        shows: "a line after code",
        text: "#let number = 1 + 2\nA line of words after it.\n",
        at: 40,
        parsed: (20, 47),
    },
    Row {
        shows: "code in braces",
        text: "#{\n  let first = 1\n  let second = 2\n}\n",
        at: 25,
        parsed: (0, 39),
    },
    Row {
        shows: "arguments that go on over a line end",
        text: "#figure(image,\n  caption: [a caption])\n",
        at: 30,
        parsed: (0, 40),
    },
    Row {
        shows: "an equation that goes on over a line end",
        text: "$ an equation that\ngoes on $ and ends there.\n",
        at: 35,
        parsed: (0, 46),
    },
    Row {
        shows: "a bracket that is open at the end of a line",
        text: "A bracket [that goes on,\nand ends] in a second line.\n",
        at: 40,
        parsed: (0, 54),
    },
    Row {
        shows: "an indented line",
        text: "A line of a paragraph,\n  and an indented line of it.\n",
        at: 40,
        parsed: (0, 54),
    },
];

/// An item of a list without blank lines, how many there are, and where a letter is inserted in the one in the middle.
const ITEM: &str = "- an item with a few words\n";

const ITEMS: usize = 10_000;

const LETTER: usize = 20;

/// The bytes that are parsed anew when a letter is inserted in a text.
fn parsed_anew(alloc: Global, text: &str, at: usize) -> Result<Range<usize>> {
    let mut source = Source::new(alloc, FileId::FIRST, text, Typst)?;
    let range = at..at;
    ensure!(source.fits(&range), "the range doesn't fit");
    Ok(source.edit(alloc, range, "x")?.reparsed)
}

/// Fails if other bytes are parsed than a row says.
fn check_row(alloc: Global, row: &Row) -> Result<()> {
    let Range { start, end } = parsed_anew(alloc, row.text, row.at)?;
    ensure!(
        (start, end) == row.parsed,
        "{}: the bytes {start}..{end} are parsed",
        row.shows
    );
    Ok(())
}

/// Fails if a letter in a long list parses more than its item.
fn check_list(alloc: Global) -> Result<()> {
    let mut text = String::new(alloc);
    for _ in 0..ITEMS {
        text.push_str(ITEM)?;
    }
    let item = (ITEMS / 2).saturating_mul(ITEM.len());
    let Range { start, end } = parsed_anew(alloc, &text, item.saturating_add(LETTER))?;
    ensure!(
        start == item && end == item.saturating_add(ITEM.len()).saturating_add(1),
        "a list: the bytes {start}..{end} are parsed"
    );
    Ok(())
}

/// Types a letter in each text, and returns how many texts there are.
pub(crate) fn check(alloc: Global) -> Result<usize> {
    for row in &ROWS {
        check_row(alloc, row)?;
    }
    check_list(alloc)?;
    Ok(ROWS.len().saturating_add(1))
}
