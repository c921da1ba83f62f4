//! Documents by their own calls, which a program in Rattle makes without a session.
use crate::answers::{Answer, edited, place, value};
use DocumentCall::{ByteToLineColumn, Edit, LineColumnToByte, Shown};
use std::alloc::{AllocError, Global};
use std::ops::Range;
use std::test::Fail;
use typst_lines::{ColumnUnit, LineEnds};
use typst_session::{Change, Document, LineColumn, Refusal, TextChange};
use typst_tree::FileId;

/// A call on a document.
#[derive(Clone, Copy)]
enum DocumentCall {
    /// Reads the text, the lines and the tree.
    Shown,
    /// By the first byte and the end of the bytes that go, and a text.
    Edit(usize, usize, &'static str),
    /// By a byte.
    ByteToLineColumn(usize),
    /// By a line and a column.
    LineColumnToByte(usize, usize),
}

/// What the call answers. Columns count units of UTF-16.
fn answer(alloc: Global, document: &mut Document, call: DocumentCall) -> Answer {
    match call {
        DocumentCall::Shown => shown(alloc, document),
        DocumentCall::Edit(start, end, with) => edit(alloc, document, start..end, with),
        DocumentCall::ByteToLineColumn(byte) => {
            let found = document.byte_to_line_column(byte, ColumnUnit::Utf16);
            place(alloc, found.ok_or(Refusal::NoPlace))
        }
        DocumentCall::LineColumnToByte(line, column) => {
            let place = LineColumn { line, column };
            value(
                alloc,
                Ok(document.line_column_to_byte(place, ColumnUnit::Utf16)),
            )
        }
    }
}

/// The text, also as the source has it, the lines, and the tree.
fn shown(alloc: Global, document: &Document) -> Answer {
    let (text, same) = (document.text(), document.source().text());
    let lines = document.len_lines();
    Ok(format!(in alloc; "{text:?} {same:?}, {lines} lines, {:?}", document.root())?)
}

/// What an edit answers, if its range fits.
fn edit(alloc: Global, document: &mut Document, range: Range<usize>, with: &str) -> Answer {
    if !document.fits(&range) {
        return Err(Refusal::Range);
    }
    match document.edit(alloc, range, with) {
        Ok(done) => {
            let (depth, touched) = (done.path.len(), done.touched);
            let moved = done.moves.moved().0.len();
            let change = Change {
                depth,
                touched,
                moved,
            };
            let reparsed = done.reparsed;
            edited(alloc, Ok(TextChange { reparsed, change }))
        }
        Err(error) => Err(Refusal::from(error)),
    }
}

/// What the call answers, or why it is refused.
fn said(alloc: Global, document: &mut Document, call: DocumentCall) -> Result<String, AllocError> {
    match answer(alloc, document, call) {
        Ok(said) => Ok(said),
        Err(refusal) => format!(in alloc; "{refusal}"),
    }
}

/// Calls on a document whose second character has two bytes.
const CALLS: &[(DocumentCall, &str)] = &[
    (
        Shown,
        "\"b\u{e9}c\\n\" \"b\u{e9}c\\n\", 2 lines, Markup: 5 [Text: \"b\u{e9}c\", Space: \"\\n\"]",
    ),
    (
        Edit(0, 2, "x"),
        "the range doesn't fit the children or the text",
    ),
    (Edit(0, 1, "x\n"), "0..6 parsed, 0: 0..3 of 1"),
    (
        Shown,
        "\"x\\n\u{e9}c\\n\" \"x\\n\u{e9}c\\n\", 3 lines, \
        Markup: 6 [Text: \"x\", Space: \"\\n\", Text: \"\u{e9}c\", Space: \"\\n\"]",
    ),
    (ByteToLineColumn(4), "1:1"),
    (ByteToLineColumn(3), "the text has no such place"),
    (LineColumnToByte(1, 1), "Some(4)"),
    (LineColumnToByte(3, 0), "None"),
];

#[test]
fn a_document_answers_without_a_session(rt: HostRuntime) -> Result<(), Fail> {
    let alloc = rt.alloc();
    let mut document = Document::new(alloc, FileId::FIRST, "b\u{e9}c\n")?;
    for (call, wanted) in CALLS {
        let said = said(alloc, &mut document, *call)?;
        assert_eq!(rt; said.as_str(), *wanted);
    }
    Ok(())
}

/// Calls on a document with code and an equation. A line in brackets ends no block.
const CODE: &[(DocumentCall, &str)] = &[
    (Edit(5, 6, "y"), "0..11 parsed, 1: leaf 2"),
    (Edit(16, 17, "c^2"), "0..21 parsed, 2: 4..5 of 1"),
    (Edit(9, 10, "[\n2]"), "0..14 parsed, 1: 6..7 of 1"),
    (Edit(11, 11, "3 "), "0..16 parsed, 3: leaf 1"),
    (
        Shown,
        "\"#let y = [\\n3 2]\\n$a + c^2$\\n\" \"#let y = [\\n3 2]\\n$a + c^2$\\n\", 4 lines, \
        Markup: 26 [Hash: \"#\", LetBinding: 14 [Let: \"let\", Space: \" \", Ident: \"y\", Space: \" \", \
        Eq: \"=\", Space: \" \", ContentBlock: 6 [LeftBracket: \"[\", Markup: 4 [Space: \"\\n\", Text: \"3 2\"], \
        RightBracket: \"]\"]], Space: \"\\n\", Equation: 9 [Dollar: \"$\", Math: 7 [MathText: \"a\", Space: \" \", \
        MathText: \"+\", Space: \" \", MathAttach: 3 [MathText: \"c\", Hat: \"^\", MathText: \"2\"]], \
        Dollar: \"$\"], Space: \"\\n\"]",
    ),
];

#[test]
fn a_document_has_code_and_equations(rt: HostRuntime) -> Result<(), Fail> {
    let alloc = rt.alloc();
    let mut document = Document::new(alloc, FileId::FIRST, "#let x = 1\n$a + b$\n")?;
    for (call, wanted) in CODE {
        let said = said(alloc, &mut document, *call)?;
        assert_eq!(rt; said.as_str(), *wanted);
    }
    Ok(())
}

#[test]
fn line_ends_stay_over_edits_and_in_copies(rt: HostRuntime) -> Result<(), Fail> {
    let alloc = rt.alloc();
    let mut document = Document::new(alloc, FileId::FIRST, "a\x0bb\n")?;
    document.set_line_ends(alloc, LineEnds::Editor)?;
    assert_eq!(rt; document.len_lines(), 2);
    assert!(rt; edit(alloc, &mut document, 3..3, "\x0bc\n").is_ok());
    let copy = document.clone()?;
    assert_eq!(rt; copy.len_lines(), 3);
    assert_eq!(rt; copy.text(), "a\x0bb\x0bc\n\n");
    document.set_line_ends(alloc, LineEnds::Unicode)?;
    assert_eq!(rt; (document.len_lines(), copy.len_lines()), (5, 3));
    Ok(())
}
