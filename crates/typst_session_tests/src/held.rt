//! The tree and the document that a session holds.
use crate::answers::{Answer, done, edited, window};
use crate::calls::Call::{Held, Labels, Nodes, Stack};
use crate::calls::{Call, follow};
use crate::stack::StackCall::{PushCopy, PushLeaf};
use HeldCall::{Copy, Edit, Number, Open, Renumber, Replace, TakeTree};
use std::alloc::Global;
use std::test::Fail;
use typst_lines::LineEnds;
use typst_session::Session;

/// A call that changes what is held.
#[derive(Clone, Copy)]
pub(crate) enum HeldCall {
    /// By a file, and where the numbers begin and end.
    Number(u16, u64, u64),
    /// By a file, and where the numbers begin and end.
    Renumber(u16, u64, u64),
    /// Puts the tree back on the stack.
    TakeTree,
    /// By a path, the first child and the end of the children that go, and a count of nodes.
    Replace(&'static [usize], usize, usize, usize),
    /// By a file and a text.
    Open(u16, &'static [u8]),
    /// By the first byte and the end of the bytes that go, and a text.
    Edit(usize, usize, &'static [u8]),
    /// By what ends lines.
    SetLineEnds(LineEnds),
    /// Goes on with a copy of the session.
    Copy,
}

/// What the call answers.
pub(crate) fn answer(alloc: Global, session: &mut Session, call: HeldCall) -> Answer {
    match call {
        HeldCall::Number(file, start, end) => done(alloc, session.number(file, start..end)),
        HeldCall::Renumber(file, start, end) => done(alloc, session.renumber(file, start..end)),
        HeldCall::TakeTree => done(alloc, session.take_tree()),
        HeldCall::Replace(path, from, to, count) => {
            window(alloc, session.replace(alloc, path, from..to, count))
        }
        HeldCall::Open(file, text) => done(alloc, session.open(alloc, file, text)),
        HeldCall::Edit(start, end, with) => edited(alloc, session.edit(alloc, start..end, with)),
        HeldCall::SetLineEnds(ends) => done(alloc, session.set_line_ends(alloc, ends)),
        HeldCall::Copy => copied(alloc, session),
    }
}

/// Puts a copy in place of the session.
fn copied(alloc: Global, session: &mut Session) -> Answer {
    let copy = session.copy(alloc)?;
    *session = copy;
    done(alloc, Ok(()))
}

/// The end of all numbers.
const END: u64 = 1 << 47;

/// Calls on a stack of one tree.
const NUMBERED: &[(Call, &str)] = &[
    (Stack(PushCopy(&[])), "there is no tree"),
    (Held(Renumber(1, 2, 10)), "there is no tree"),
    (Held(TakeTree), "there is no tree"),
    (Held(Replace(&[], 0, 0, 1)), "there is no tree"),
    (Held(Edit(0, 0, b"")), "there is no document"),
    (Held(Number(0, 2, 10)), "the number of the file is 0"),
    (Held(Number(1, 1, 10)), "the numbers must lie in 2..2^47"),
    (
        Held(Number(1, 2, END + 1)),
        "the numbers must lie in 2..2^47",
    ),
    (
        Held(Number(1, 10, 12)),
        "there are fewer numbers than nodes",
    ),
    (Held(Number(1, 10, 13)), "done"),
    (Held(Number(1, 10, 13)), "the stack has too few nodes"),
    (Labels, "10..13[11..12 12..13]"),
    (Held(Edit(0, 0, b"")), "there is no document"),
    (Held(Replace(&[], 1, 1, 1)), "the stack has too few nodes"),
    (Stack(PushLeaf(7, b" ")), "done"),
    (Held(Replace(&[2], 0, 0, 1)), "the path leads to no node"),
    (Held(Replace(&[0], 0, 0, 1)), "the path leads to a leaf"),
    (
        Held(Replace(&[], 2, 1, 1)),
        "the range doesn't fit the children or the text",
    ),
    (
        Held(Replace(&[], 0, 3, 1)),
        "the range doesn't fit the children or the text",
    ),
    (
        Held(Replace(&[], 1, 1, 1)),
        "there are fewer numbers than nodes",
    ),
    (Held(Renumber(0, 2, 62)), "the number of the file is 0"),
    (
        Held(Renumber(3, 2, END + 1)),
        "the numbers must lie in 2..2^47",
    ),
    (
        Held(Renumber(3, 2, 4)),
        "there are fewer numbers than nodes",
    ),
    (Held(Renumber(3, 2, 62)), "done"),
    (Labels, "7..62[17..18 27..28]"),
    (Held(Replace(&[], 1, 1, 1)), "1..2 of 1"),
    (Labels, "7..62[17..18 20..21 27..28]"),
    (Stack(PushCopy(&[3])), "the path leads to no node"),
    (Held(Copy), "done"),
    (Labels, "7..62[17..18 20..21 27..28]"),
    (Stack(PushCopy(&[1])), "done"),
    (Held(TakeTree), "done"),
    (Held(TakeTree), "there is no tree"),
    (
        Nodes,
        r#"[Space: " ", Markup: 11 [Text: "Hello", Space: " ", Text: "world"]], no tree"#,
    ),
    (Held(Number(1, 10, 14)), "done"),
    (
        Nodes,
        r#"[Space: " "], Markup: 11 [Text: "Hello", Space: " ", Text: "world"]"#,
    ),
    (Labels, "10..14[11..12 12..13 13..14]"),
];

#[test]
fn a_tree_is_numbered_edited_and_taken(rt: HostRuntime) -> Result<(), Fail> {
    follow(&rt, rt.alloc(), "Markup[ Text:Hello Text:world ]", NUMBERED)
}

/// Calls on a document.
const EDITED: &[(Call, &str)] = &[
    (Held(Open(0, b"x")), "the number of the file is 0"),
    (Held(Open(1, b"\xff")), "the text isn't UTF-8"),
    (
        Held(Open(1, b"= Notes\n\nSome more text.\n\nThe last paragraph.\n")),
        "done",
    ),
    (
        Held(Renumber(1, 2, 100)),
        "the tree belongs to a document, which is edited as a text",
    ),
    (
        Held(TakeTree),
        "the tree belongs to a document, which is edited as a text",
    ),
    (
        Held(Replace(&[], 0, 0, 0)),
        "the tree belongs to a document, which is edited as a text",
    ),
    (Held(Edit(19, 23, b"\xff")), "the text isn't UTF-8"),
    (
        Held(Edit(2, 1, b"")),
        "the range doesn't fit the children or the text",
    ),
    (
        Held(Edit(46, 47, b"")),
        "the range doesn't fit the children or the text",
    ),
    (Held(Edit(19, 23, b"*text*")), "9..28 parsed, 0: 2..6 of 1"),
    (
        Nodes,
        r#"[], Markup: 48 [Heading: 7 [HeadingMarker: "=", Space: " ", Markup: 5 [Text: "Notes"]], Parbreak: "\n\n", Text: "Some more", Space: " ", Strong: 6 [Star: "*", Markup: 4 [Text: "text"], Star: "*"], Text: ".", Parbreak: "\n\n", Text: "The last paragraph.", Space: "\n"]"#,
    ),
    (Stack(PushLeaf(6, b"a")), "done"),
    (Held(Copy), "done"),
    (Held(Edit(20, 21, b"n")), "9..28 parsed, 2: leaf 0"),
    (Held(Open(2, b"")), "done"),
    (Nodes, "[Text: \"a\"], Markup: 0"),
    (Held(Copy), "done"),
    (Nodes, "[Text: \"a\"], Markup: 0"),
];

#[test]
fn a_document_is_parsed_anew_where_it_changes(rt: HostRuntime) -> Result<(), Fail> {
    follow(&rt, rt.alloc(), "", EDITED)
}
