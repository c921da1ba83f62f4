//! Reading nodes of the tree that a session holds.
use crate::answers::{Answer, info, listed, written};
use crate::calls::Call::{Held, Read};
use crate::calls::{Call, follow};
use crate::held::HeldCall::Number;
use ReadCall::{Children, FullText, LeafText, Node, Preorder};
use std::alloc::Global;
use std::test::Fail;
use typst_session::{NodeInfo, Session};

/// A call that reads a node or its subtree.
#[derive(Clone, Copy)]
pub(crate) enum ReadCall {
    /// By a path.
    Node(&'static [usize]),
    /// By a path, into a buffer of this length.
    LeafText(&'static [usize], usize),
    /// By a path, into a buffer of this length.
    FullText(&'static [usize], usize),
    /// By a path, into a buffer of this length.
    Children(&'static [usize], usize),
    /// By a path, into a buffer of this length.
    Preorder(&'static [usize], usize),
}

/// An info before a call.
const BEFORE: NodeInfo = NodeInfo {
    number: 0,
    bound: 0,
    len: 77,
    children: 0,
    descendants: 0,
    kind: 99,
    leaf: 0,
    inner: 0,
    errors: 0,
    warnings: 0,
};

/// What the call answers.
pub(crate) fn answer(alloc: Global, session: &Session, call: ReadCall) -> Answer {
    match call {
        ReadCall::Node(path) => node(alloc, session, path),
        ReadCall::LeafText(path, room) => leaf_text(alloc, session, path, room),
        ReadCall::FullText(path, room) => full_text(alloc, session, path, room),
        ReadCall::Children(path, room) => children(alloc, session, path, room),
        ReadCall::Preorder(path, room) => preorder(alloc, session, path, room),
    }
}

/// What is read of the node at a path.
fn node(alloc: Global, session: &Session, path: &[usize]) -> Answer {
    match session.node(path) {
        Ok(one) => Ok(info(alloc, &one)?),
        Err(refusal) => Err(refusal),
    }
}

/// The text of a leaf in a buffer.
fn leaf_text(alloc: Global, session: &Session, path: &[usize], room: usize) -> Answer {
    let (mut out, mut len) = (vec![in alloc; b'#'; room]?, 77);
    let outcome = session.leaf_text(path, &mut out, &mut len);
    written(alloc, outcome, len, &out)
}

/// The text of a subtree in a buffer.
fn full_text(alloc: Global, session: &Session, path: &[usize], room: usize) -> Answer {
    let (mut out, mut len) = (vec![in alloc; b'#'; room]?, 77);
    let outcome = session.full_text(alloc, path, &mut out, &mut len);
    written(alloc, outcome, len, &out)
}

/// The children of a node in a buffer.
fn children(alloc: Global, session: &Session, path: &[usize], room: usize) -> Answer {
    let (mut out, mut len) = (vec![in alloc; BEFORE; room]?, 77);
    let outcome = session.children(path, &mut out, &mut len);
    listed(alloc, outcome, len, &out)
}

/// The nodes of a subtree in a buffer.
fn preorder(alloc: Global, session: &Session, path: &[usize], room: usize) -> Answer {
    let (mut out, mut len) = (vec![in alloc; BEFORE; room]?, 77);
    let outcome = session.preorder(path, &mut out, &mut len);
    listed(alloc, outcome, len, &out)
}

/// Calls on a tree of six nodes, before it is held and after.
const TREE: &[(Call, &str)] = &[
    (Read(Node(&[])), "there is no tree"),
    (Read(LeafText(&[], 2)), "there is no tree: 77 ##"),
    (Read(FullText(&[], 2)), "there is no tree: 77 ##"),
    (
        Read(Children(&[], 1)),
        "there is no tree: 77; 99 77b 0n 0c 0..0 0000",
    ),
    (
        Read(Preorder(&[], 1)),
        "there is no tree: 77; 99 77b 0n 0c 0..0 0000",
    ),
    (Held(Number(1, 10, 16)), "done"),
    (Read(Node(&[2])), "13 3b 2n 1c 13..15 0100"),
    (Read(Node(&[2, 1])), "the path leads to no node"),
    (Read(LeafText(&[2, 0], 4)), "done: 3 big#"),
    (Read(LeafText(&[2], 2)), "done: 0 ##"),
    (Read(LeafText(&[0], 4)), "the buffer is too short: 5 ####"),
    (
        Read(LeafText(&[4], 4)),
        "the path leads to no node: 77 ####",
    ),
    (Read(FullText(&[], 16)), "done: 14 Hello bigworld##"),
    (Read(FullText(&[2], 2)), "the buffer is too short: 3 ##"),
    (Read(FullText(&[4], 2)), "the path leads to no node: 77 ##"),
    (
        Read(Children(&[], 5)),
        "done: 4; 6 5b 1n 0c 11..12 1000; 7 1b 1n 0c 12..13 1000; 13 3b 2n 1c 13..15 0100; 6 5b 1n 0c 15..16 1000; \
        99 77b 0n 0c 0..0 0000",
    ),
    (Read(Children(&[2], 0)), "the buffer is too short: 1"),
    (Read(Children(&[4], 0)), "the path leads to no node: 77"),
    (
        Read(Preorder(&[], 7)),
        "done: 6; 5 14b 6n 4c 10..16 0100; 6 5b 1n 0c 11..12 1000; 7 1b 1n 0c 12..13 1000; \
        13 3b 2n 1c 13..15 0100; 6 3b 1n 0c 14..15 1000; 6 5b 1n 0c 15..16 1000; 99 77b 0n 0c 0..0 0000",
    ),
    (
        Read(Preorder(&[2], 1)),
        "the buffer is too short: 2; 99 77b 0n 0c 0..0 0000",
    ),
    (Read(Preorder(&[4], 0)), "the path leads to no node: 77"),
];

#[test]
fn nodes_are_read_by_their_paths(rt: HostRuntime) -> Result<(), Fail> {
    let drawing = "Markup[ Text:Hello Space:~ Strong[ Text:big ] Text:world ]";
    follow(&rt, rt.alloc(), drawing, TREE)
}

/// Calls on a tree with a warning and an error.
const REMARKED: &[(Call, &str)] = &[
    (Held(Number(1, 10, 13)), "done"),
    (
        Read(Preorder(&[], 3)),
        "done: 3; 5 3b 3n 2c 10..13 0111; 6 2b 1n 0c 11..12 1001; 1 1b 1n 0c 12..13 1010",
    ),
];

#[test]
fn errors_and_warnings_are_seen_from_above(rt: HostRuntime) -> Result<(), Fail> {
    follow(
        &rt,
        rt.alloc(),
        "Markup[ Text:ab ^careful !wrong:x ]",
        REMARKED,
    )
}
