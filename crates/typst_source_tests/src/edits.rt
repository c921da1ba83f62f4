//! Edits of texts that are parsed line by line.
use crate::lines::Lines;
use std::alloc::{AllocError, Global};
use std::ops::Range;
use std::process::Abort;
use std::test::Fail;
use typst_base::{DiagSpan, FileId, Span};
use typst_node::{Renumbered, Touched};
use typst_source::{Outcome, Source, SourceError, TextEdit};

/// The source of a text.
fn parsed(alloc: Global, text: &str) -> Result<Source<Lines>, SourceError> {
    Source::new(alloc, FileId::FIRST, text, Lines)
}

/// What became of an edit: the bytes that were parsed anew, and the children that were numbered anew with how many windows
/// were tried, or the leaf that went on.
fn told(alloc: Global, outcome: &Outcome) -> Result<String, AllocError> {
    match outcome {
        Outcome::Edited(done) => {
            let Range { start, end } = done.reparsed;
            match &done.touched {
                Touched::Leaf { index } => format!(in alloc; "{start}..{end} leaf {index}; "),
                Touched::Window(Renumbered { window, tried }) => {
                    let (first, behind) = (window.start, window.end);
                    format!(in alloc; "{start}..{end} {first}..{behind} of {tried}; ")
                }
            }
        }
        Outcome::Misfit => String::from_str(alloc, "misfit; "),
        Outcome::Refused(error) => format!(in alloc; "{error}; "),
    }
}

/// What became of each edit of a source.
fn ran(
    alloc: Global,
    source: &mut Source<Lines>,
    edits: &[TextEdit<'_>],
) -> Result<String, AllocError> {
    let outcomes = source.run(alloc, edits)?;
    let mut said = String::new(alloc);
    for outcome in &outcomes {
        said.push_str(told(alloc, outcome)?.as_str())?;
    }
    Ok(said)
}

/// What is said, the text of a source, and whether its tree is the one that parsing the text anew makes.
fn shown(alloc: Global, said: &str, source: &Source<Lines>) -> Result<String, SourceError> {
    let anew = parsed(alloc, source.text())?;
    let same = source.root().spanless_eq(anew.root());
    Ok(format!(in alloc; "{said}{:?} {same}", source.text())?)
}

/// What became of each edit, the text after them, and whether the tree is the one that parsing the text anew makes.
fn after(alloc: Global, text: &str, edits: &[TextEdit<'_>]) -> Result<String, SourceError> {
    let mut source = parsed(alloc, text)?;
    let said = ran(alloc, &mut source, edits)?;
    shown(alloc, &said, &source)
}

/// Asserts that what is told is what should be.
fn assert_told(
    rt: &impl Abort,
    told: Result<String, SourceError>,
    wanted: &str,
) -> Result<(), Fail> {
    let told = told?;
    assert_eq!(rt; told.as_str(), wanted);
    Ok(())
}

/// Asserts what became of the edits of a text, and the text after them.
fn assert_edits(
    rt: &(impl Abort + AllocGlobal),
    text: &str,
    edits: &[TextEdit<'_>],
    wanted: &str,
) -> Result<(), Fail> {
    assert_told(rt, after(rt.alloc(), text, edits), wanted)
}

#[test]
fn only_touched_lines_are_parsed_anew(rt: HostRuntime) -> Result<(), Fail> {
    assert_edits(
        &rt,
        "ab\ncd\nef",
        &[
            TextEdit {
                range: 4..4,
                with: "x",
            },
            TextEdit {
                range: 9..9,
                with: "\n",
            },
            TextEdit {
                range: 5..100,
                with: "",
            },
            TextEdit {
                range: 3..7,
                with: "",
            },
        ],
        "3..7 leaf 1; 7..10 2..3 of 1; misfit; 3..3 1..1 of 1; \"ab\\nef\\n\" true",
    )
}

#[test]
fn an_edit_ends_between_characters(rt: HostRuntime) -> Result<(), Fail> {
    assert_edits(
        &rt,
        "é\n",
        &[
            TextEdit {
                range: 1..1,
                with: "x",
            },
            TextEdit {
                range: 2..0,
                with: "x",
            },
            TextEdit {
                range: 0..2,
                with: "e",
            },
        ],
        "misfit; misfit; 0..2 leaf 0; \"e\\n\" true",
    )
}

#[test]
fn a_text_begins_and_ends_empty(rt: HostRuntime) -> Result<(), Fail> {
    assert_edits(
        &rt,
        "",
        &[
            TextEdit {
                range: 0..0,
                with: "a\n",
            },
            TextEdit {
                range: 0..2,
                with: "",
            },
        ],
        "0..2 0..1 of 1; 0..0 0..0 of 1; \"\" true",
    )
}

/// The span of the second of two children.
fn second(source: &Source<Lines>) -> Option<Span> {
    let [_, second] = source.root().child_slice() else {
        return None;
    };
    Some(second.span())
}

/// The range of a node by its span, before and after bytes are inserted at the beginning of the text.
fn moved(alloc: Global, source: &mut Source<Lines>, span: Span) -> Result<String, AllocError> {
    let before = source.range(alloc, span)?;
    let edit = TextEdit {
        range: 0..0,
        with: "xyz",
    };
    let _ = source.serve(alloc, &edit);
    let after = source.range(alloc, span)?;
    let told = source.place_of(&DiagSpan::from(span));
    format!(in alloc; "{before:?} {after:?} {told:?}")
}

/// The range of the second child, before and after it moves.
fn found(alloc: Global) -> Result<String, SourceError> {
    let mut source = parsed(alloc, "ab\ncd\n")?;
    let span = second(&source).ok_or(SourceError::Overflow)?;
    Ok(moved(alloc, &mut source, span)?)
}

#[test]
fn a_node_that_stays_is_found_by_its_span(rt: HostRuntime) -> Result<(), Fail> {
    assert_told(&rt, found(rt.alloc()), "Some(3..6) Some(6..9) Some(6..9)")
}

/// A source as it is written, its parser, and its parts.
fn parts(alloc: Global) -> Result<String, SourceError> {
    let source = parsed(alloc, "ab\ncd")?;
    let whole = format!(in alloc; "{source:?} of {:?}", source.parser())?;
    let (text, root, _) = source.into_parts();
    Ok(format!(in alloc; "{whole}: {text:?}, {} bytes", root.len())?)
}

#[test]
fn a_source_has_a_text_a_tree_and_a_parser(rt: HostRuntime) -> Result<(), Fail> {
    assert_told(
        &rt,
        parts(rt.alloc()),
        "Source(Markup: 5 [Text: \"ab\\n\", Text: \"cd\", End: \"\"]) of Lines: \"ab\\ncd\", 5 bytes",
    )
}

/// The text after its second byte is removed, and the bytes that were parsed anew, if that byte fits the text.
fn removed(alloc: Global, source: &mut Source<Lines>) -> Result<String, SourceError> {
    let range = 1..2;
    if !source.fits(&range) {
        return Ok(String::new(alloc));
    }
    let bytes = source.edit(alloc, range, "")?.reparsed;
    Ok(format!(in alloc; "{:?} {bytes:?}", source.text())?)
}

/// A range that fits, edited without a run.
fn edited(alloc: Global) -> Result<String, SourceError> {
    let mut source = parsed(alloc, "ab\n")?;
    removed(alloc, &mut source)
}

#[test]
fn a_range_that_fits_is_edited(rt: HostRuntime) -> Result<(), Fail> {
    assert_told(&rt, edited(rt.alloc()), "\"a\\n\" 0..2")
}

/// What an error says.
fn said(alloc: Global, error: SourceError) -> Result<String, SourceError> {
    Ok(format!(in alloc; "{error}")?)
}

/// Asserts that each error says what it should.
fn assert_errors(
    rt: &(impl Abort + AllocGlobal),
    rows: &[(SourceError, &str)],
) -> Result<(), Fail> {
    for (error, wanted) in rows {
        assert_told(rt, said(rt.alloc(), *error), wanted)?;
    }
    Ok(())
}

#[test]
fn errors_say_what_they_are(rt: HostRuntime) -> Result<(), Fail> {
    assert_errors(
        &rt,
        &[
            (
                SourceError::Unnumberable,
                "the tree has more nodes than there are numbers",
            ),
            (SourceError::Overflow, "the tree is too large"),
            (SourceError::Memory, "out of memory"),
        ],
    )
}
