//! Edits after which numbers are followed, and what is read of a text by its bytes and lines.
use crate::answers::{Answer, change, done, found, update, value};
use crate::calls::Call::{Change, Held, Labels, Stack};
use crate::calls::{Call, follow};
use crate::held::HeldCall::{Copy, Edit, Number, Open, Renumber, Replace};
use crate::stack::StackCall::{PushCopy, PushLeaf};
use ChangeCall::{EditedPath, FindRange, Follow, LineToRange, Reconcile, Send, TextIn, Update};
use std::alloc::Global;
use std::str;
use std::test::Fail;
use typst_session::{Refusal, Session};

/// A call that edits the tree or follows a number, or one that reads a part of a text.
#[derive(Clone, Copy)]
pub(crate) enum ChangeCall {
    /// By a path, the first child and the end of the children that go, and a count of nodes.
    Reconcile(&'static [usize], usize, usize, usize),
    /// Puts the last node in place of the tree.
    Update,
    /// By a number.
    Follow(u64),
    /// The path of the last edit.
    EditedPath,
    /// Sends the last node to a session of its own, and shows its stack.
    Send,
    /// By the first byte and the end.
    FindRange(usize, usize),
    /// By the first byte and the end, and how much room there is.
    TextIn(usize, usize, usize),
    /// By a line.
    LineToRange(usize),
}

/// What the call answers.
pub(crate) fn answer(alloc: Global, session: &mut Session, call: ChangeCall) -> Answer {
    match call {
        ChangeCall::Reconcile(path, from, to, count) => {
            change(alloc, session.reconcile(alloc, path, from..to, count))
        }
        ChangeCall::Update => update(alloc, session.update(alloc)),
        ChangeCall::Follow(number) => value(alloc, session.follow(number)),
        ChangeCall::EditedPath => value(alloc, session.edited_path()),
        ChangeCall::Send => sent(alloc, session),
        ChangeCall::FindRange(from, to) => found(alloc, session.find_range(alloc, from..to)),
        ChangeCall::TextIn(from, to, room) => text_in(alloc, session, from, to, room),
        ChangeCall::LineToRange(line) => value(alloc, session.line_to_range(line)),
    }
}

/// The stack of a session that a node was sent to.
fn sent(alloc: Global, session: &mut Session) -> Answer {
    let mut other = Session::new(alloc);
    match session.send(&mut other) {
        Ok(()) => Ok(format!(in alloc; "{:?}", other.stack.as_slice())?),
        Err(refusal) => done(alloc, Err(refusal)),
    }
}

/// A part of the text, read into a buffer with this room.
fn text_in(alloc: Global, session: &Session, from: usize, to: usize, room: usize) -> Answer {
    let mut out = vec![in alloc; b'#'; room]?;
    let mut len = 0;
    match session.text_in(from..to, &mut out, &mut len) {
        Ok(()) => match str::from_utf8(&out) {
            Ok(text) => Ok(format!(in alloc; "{text} of {len}")?),
            Err(_) => Err(Refusal::Text),
        },
        Err(refusal) => Err(refusal),
    }
}

/// Calls on a tree whose six nodes get the numbers 7, 17, .. 57.
const FOLLOWED: &[(Call, &str)] = &[
    (Change(Follow(47)), "there is no edit to follow"),
    (Change(EditedPath), "there is no edit to follow"),
    (Change(Update), "there is no tree"),
    (Change(Reconcile(&[], 0, 0, 0)), "there is no tree"),
    (Held(Number(1, 2, 122)), "done"),
    (Change(Follow(47)), "there is no edit to follow"),
    (Change(Update), "the stack has too few nodes"),
    (Stack(PushLeaf(6, b"c")), "done"),
    (
        Change(Reconcile(&[1], 1, 2, 2)),
        "the stack has too few nodes",
    ),
    (Change(Reconcile(&[0], 0, 0, 1)), "the path leads to a leaf"),
    (
        Change(Reconcile(&[2], 0, 0, 1)),
        "the path leads to no node",
    ),
    (
        Change(Reconcile(&[1], 1, 4, 1)),
        "the range doesn't fit the children or the text",
    ),
    // A text becomes another one, and keeps its number.
    (Change(Reconcile(&[1], 1, 2, 1)), "1: leaf 1"),
    (Change(Follow(47)), "47"),
    (Change(EditedPath), "[1]"),
    // A space comes before it. There is room between 37 and 47.
    (Stack(PushLeaf(7, b" ")), "done"),
    (Change(Reconcile(&[1], 1, 1, 1)), "1: 1..2 of 1"),
    (Change(Follow(47)), "47"),
    (Change(Follow(7)), "7"),
    // The whole child goes.
    (Change(Reconcile(&[], 1, 2, 0)), "0: 1..1 of 1"),
    (Change(Follow(47)), "there is no such node"),
    (Change(Follow(27)), "there is no such node"),
    (Change(Follow(17)), "17"),
    // The same tree comes in its place, and then a root of another kind.
    (Stack(PushCopy(&[])), "done"),
    (Change(Update), "0: 1..1 of 1"),
    (Change(Follow(17)), "17"),
    (Stack(PushCopy(&[0])), "done"),
    (Change(Update), "root"),
    (Change(EditedPath), "[]"),
    (Change(Follow(17)), "there is no such node"),
    // A leaf gets the number in the middle. No number is followed over new numbers.
    (Held(Renumber(1, 2, 4)), "done"),
    (Labels, "3..4"),
    (Change(Follow(2)), "there is no edit to follow"),
];

#[test]
fn numbers_are_followed_over_edits(rt: HostRuntime) -> Result<(), Fail> {
    follow(
        &rt,
        rt.alloc(),
        "Markup[ Text:a Strong[ Star:* Text:b Star:* ] ]",
        FOLLOWED,
    )
}

/// Calls on a document, which is edited as a text.
const READ: &[(Call, &str)] = &[
    (Change(FindRange(0, 1)), "there is no tree"),
    (Change(TextIn(0, 1, 1)), "there is no document"),
    (Change(LineToRange(0)), "there is no document"),
    (Change(Send), "[Text: \"b\"]"),
    (Change(Send), "[Text: \"a\"]"),
    (Change(Send), "the stack has too few nodes"),
    (Held(Open(1, b"a *b*\n\xc3\xa9")), "done"),
    (
        Change(Update),
        "the tree belongs to a document, which is edited as a text",
    ),
    (
        Change(Reconcile(&[], 0, 0, 0)),
        "the tree belongs to a document, which is edited as a text",
    ),
    (Change(FindRange(2, 5)), "[2] at 2"),
    (Change(FindRange(3, 4)), "[2, 1] at 3"),
    (Change(FindRange(2, 4)), "there is no such node"),
    (Change(TextIn(2, 6, 5)), "*b*\n# of 4"),
    (Change(TextIn(2, 6, 3)), "the buffer is too short"),
    (
        Change(TextIn(6, 7, 5)),
        "the range doesn't fit the children or the text",
    ),
    (Change(LineToRange(0)), "0..6"),
    (Change(LineToRange(1)), "6..8"),
    (Change(LineToRange(2)), "the text has no such place"),
];

#[test]
fn a_text_is_read_by_bytes_and_lines(rt: HostRuntime) -> Result<(), Fail> {
    follow(&rt, rt.alloc(), "Text:a Text:b", READ)
}

/// Calls on a tree of two nodes.
const REPLACED: &[(Call, &str)] = &[
    (Held(Number(1, 2, 42)), "done"),
    (Stack(PushLeaf(6, b"b")), "done"),
    (Change(Reconcile(&[], 0, 1, 1)), "0: leaf 0"),
    (Stack(PushLeaf(6, b"c")), "done"),
    (Held(Replace(&[], 0, 1, 1)), "0..1 of 1"),
    (Change(Follow(7)), "there is no edit to follow"),
];

#[test]
fn no_number_is_followed_over_a_replacement(rt: HostRuntime) -> Result<(), Fail> {
    follow(&rt, rt.alloc(), "Markup[ Text:a ]", REPLACED)
}

/// Calls on a tree of three nodes with few numbers, and then on a document.
const MOVED: &[(Call, &str)] = &[
    (Held(Number(1, 10, 17)), "done"),
    (Labels, "10..17[11..12 12..13]"),
    // Between 11 and 12 there is no room, so both neighbors move.
    (Stack(PushLeaf(7, b" ")), "done"),
    (Change(Reconcile(&[], 1, 1, 1)), "0: 0..3 of 2, 2 moved"),
    (Labels, "10..17[11..12 12..13 13..14]"),
    (Change(Follow(12)), "13"),
    (Change(EditedPath), "[]"),
    // A copy has the same numbers, but no edit.
    (Held(Copy), "done"),
    (Labels, "10..17[11..12 12..13 13..14]"),
    (Change(Follow(12)), "there is no edit to follow"),
    (Change(EditedPath), "there is no edit to follow"),
    // The title of a heading is its third child.
    (Held(Open(1, b"= ab\n")), "done"),
    (Held(Edit(3, 4, b"c")), "0..5 parsed, 2: leaf 0"),
    (Change(EditedPath), "[0, 2]"),
];

#[test]
fn nodes_that_stay_move_and_the_path_is_told(rt: HostRuntime) -> Result<(), Fail> {
    follow(&rt, rt.alloc(), "Markup[ Text:a Text:b ]", MOVED)
}
