//! Finding nodes of the tree that a session holds.
use crate::answers::{Answer, found, value};
use crate::calls::Call::{Find, Held};
use crate::calls::{Call, follow};
use crate::held::HeldCall::Number;
use FindCall::{
    ByNumber, ChildOfClass, Covering, LeafAt, NextTo, RangeOf, SpanlessEq, SpanlessEqText,
};
use std::alloc::Global;
use std::test::Fail;
use typst_session::Neighbor::{NextLeaf, NextSibling, PrevLeaf, PrevSibling};
use typst_session::{Neighbor, Session};
use typst_tree::Side;
use typst_tree::Side::{After, Before};

/// A call that finds a node, says where it is, or compares it.
#[derive(Clone, Copy)]
pub(crate) enum FindCall {
    /// By a number.
    ByNumber(u64),
    /// By the first byte and the end.
    Covering(usize, usize),
    /// By a cursor and a side of it.
    LeafAt(usize, Side),
    /// By a path.
    RangeOf(&'static [usize]),
    /// By a path and which neighbor.
    NextTo(&'static [usize], Neighbor),
    /// By a path, the number of a class, an index, and whether it counts from the end.
    ChildOfClass(&'static [usize], u32, usize, bool),
    /// By two paths in the same tree.
    SpanlessEq(&'static [usize], &'static [usize]),
    /// By a path, and a text whose first node is compared, in a session of its own.
    SpanlessEqText(&'static [usize], &'static [u8]),
}

/// What the call answers.
pub(crate) fn answer(alloc: Global, session: &Session, call: FindCall) -> Answer {
    match call {
        FindCall::ByNumber(number) => found(alloc, session.find(alloc, number)),
        FindCall::Covering(from, to) => found(alloc, session.find_cover(alloc, from..to)),
        FindCall::LeafAt(cursor, side) => found(alloc, session.leaf_at(alloc, cursor, side)),
        FindCall::RangeOf(path) => value(alloc, session.range(alloc, path)),
        FindCall::NextTo(path, which) => found(alloc, session.neighbor(alloc, path, which)),
        FindCall::ChildOfClass(path, class, index, from_end) => {
            value(alloc, session.child_of_class(path, class, index, from_end))
        }
        FindCall::SpanlessEq(path, other) => {
            value(alloc, session.spanless_eq(path, session, other))
        }
        FindCall::SpanlessEqText(path, text) => equals_text(alloc, session, path, text),
    }
}

/// Whether a node and the first node of a text's document are equal.
fn equals_text(alloc: Global, session: &Session, path: &[usize], text: &[u8]) -> Answer {
    let mut other = Session::new(alloc);
    other.open(alloc, 2, text)?;
    value(alloc, session.spanless_eq(path, &other, &[0]))
}

/// Calls on a tree of six nodes, before it is held and after.
const TREE: &[(Call, &str)] = &[
    (Find(ByNumber(10)), "there is no tree"),
    (Find(LeafAt(1, After)), "there is no tree"),
    (Find(Covering(0, 1)), "there is no tree"),
    (Find(RangeOf(&[])), "there is no tree"),
    (Find(NextTo(&[], NextLeaf)), "there is no tree"),
    (Find(ChildOfClass(&[], 259, 0, false)), "there is no tree"),
    (Find(SpanlessEq(&[], &[])), "there is no tree"),
    (Held(Number(1, 10, 16)), "done"),
    (Find(ByNumber(10)), "[] at 0"),
    (Find(ByNumber(14)), "[2, 0] at 6"),
    (Find(ByNumber(9)), "there is no such node"),
    (Find(ByNumber(16)), "there is no such node"),
    (Find(ByNumber(1)), "there is no such node"),
    (Find(ByNumber(1 << 47)), "there is no such node"),
    (Find(LeafAt(5, Before)), "[0] at 0"),
    (Find(LeafAt(6, After)), "[2, 0] at 6"),
    (Find(LeafAt(14, After)), "there is no such node"),
    (Find(Covering(0, 14)), "[] at 0"),
    (Find(Covering(0, 5)), "[0] at 0"),
    (Find(Covering(1, 3)), "[0] at 0"),
    (Find(Covering(4, 7)), "[] at 0"),
    (Find(Covering(7, 8)), "[2, 0] at 6"),
    (Find(Covering(6, 6)), "[1] at 5"),
    (Find(Covering(14, 14)), "[3] at 9"),
    (Find(Covering(13, 15)), "there is no such node"),
    (Find(RangeOf(&[2, 0])), "6..9"),
    (Find(RangeOf(&[2, 1])), "the path leads to no node"),
    (Find(NextTo(&[0], NextLeaf)), "[2, 0] at 6"),
    (Find(NextTo(&[0], NextSibling)), "[2] at 6"),
    (Find(NextTo(&[3], PrevLeaf)), "[2, 0] at 6"),
    (Find(NextTo(&[2], PrevSibling)), "[0] at 0"),
    (Find(NextTo(&[3], NextLeaf)), "there is no such node"),
    (Find(NextTo(&[4], NextLeaf)), "the path leads to no node"),
    (Find(SpanlessEq(&[0], &[0])), "true"),
    (Find(SpanlessEq(&[0], &[3])), "false"),
    (Find(SpanlessEqText(&[0], b"Hello")), "true"),
    (Find(SpanlessEqText(&[0], b"Hallo")), "false"),
    (Find(SpanlessEq(&[4], &[0])), "the path leads to no node"),
    (Find(SpanlessEq(&[0], &[4])), "the path leads to no node"),
];

#[test]
fn nodes_are_found(rt: HostRuntime) -> Result<(), Fail> {
    let drawing = "Markup[ Text:Hello Space:~ Strong[ Text:big ] Text:world ]";
    follow(&rt, rt.alloc(), drawing, TREE)
}

/// Calls on a binary expression.
const CLASSES: &[(Call, &str)] = &[
    (Held(Number(1, 10, 15)), "done"),
    (Find(ChildOfClass(&[], 256, 1, false)), "3"),
    (Find(ChildOfClass(&[], 256, 1, true)), "0"),
    (Find(ChildOfClass(&[], 257, 1, false)), "3"),
    (
        Find(ChildOfClass(&[], 257, 2, false)),
        "there is no such node",
    ),
    (Find(ChildOfClass(&[], 258, 0, false)), "0"),
    (Find(ChildOfClass(&[], 259, 1, true)), "2"),
    (Find(ChildOfClass(&[], 58, 0, false)), "2"),
    (
        Find(ChildOfClass(&[], 260, 0, false)),
        "no leaf or inner node can have this kind",
    ),
    (
        Find(ChildOfClass(&[4], 259, 0, false)),
        "the path leads to no node",
    ),
];

#[test]
fn children_are_found_by_their_class(rt: HostRuntime) -> Result<(), Fail> {
    let drawing = "Binary[ Int:1 Space:~ Plus:+ Ident:x ]";
    follow(&rt, rt.alloc(), drawing, CLASSES)
}
