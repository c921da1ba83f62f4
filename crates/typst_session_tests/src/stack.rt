//! Nodes that are built on the stack.
use crate::answers::{Answer, done};
use crate::calls::Call::{Nodes, Stack};
use crate::calls::{Call, follow};
use StackCall::{Hint, Pop, PushError, PushLeaf, Warn, Wrap};
use std::alloc::Global;
use std::test::Fail;
use typst_session::Session;

/// A call that changes the stack alone.
#[derive(Clone, Copy)]
pub(crate) enum StackCall {
    /// By the number of a kind and a text.
    PushLeaf(u32, &'static [u8]),
    /// By a message and a text.
    PushError(&'static [u8], &'static [u8]),
    /// By a path.
    PushCopy(&'static [usize]),
    /// By the number of a kind and a count of nodes.
    Wrap(u32, usize),
    /// By a message.
    Warn(&'static [u8]),
    /// By a text.
    Hint(&'static [u8]),
    /// By a count of nodes.
    Pop(usize),
}

/// What the call answers.
pub(crate) fn answer(alloc: Global, session: &mut Session, call: StackCall) -> Answer {
    match call {
        StackCall::PushLeaf(kind, text) => done(alloc, session.push_leaf(alloc, kind, text)),
        StackCall::PushError(message, text) => done(
            alloc,
            session.push_error(alloc, message, text),
        ),
        StackCall::PushCopy(path) => done(alloc, session.push_copy(path)),
        StackCall::Wrap(kind, count) => done(alloc, session.wrap(alloc, kind, count)),
        StackCall::Warn(message) => done(alloc, session.warn(alloc, message)),
        StackCall::Hint(text) => done(alloc, session.hint(alloc, text)),
        StackCall::Pop(count) => done(alloc, session.pop(count)),
    }
}

/// Calls on an empty stack, and on one of a text and an error.
const BUILT: &[(Call, &str)] = &[
    (Stack(Warn(b"outer")), "the stack has too few nodes"),
    (Stack(Hint(b"so")), "the stack has too few nodes"),
    (Stack(Pop(1)), "the stack has too few nodes"),
    (
        Stack(PushLeaf(1, b"x")),
        "no leaf or inner node can have this kind",
    ),
    (
        Stack(PushLeaf(137, b"x")),
        "no leaf or inner node can have this kind",
    ),
    (
        Stack(PushLeaf(262, b"x")),
        "no leaf or inner node can have this kind",
    ),
    (Stack(PushLeaf(6, b"\xff")), "the text isn't UTF-8"),
    (Stack(PushLeaf(6, b"fine")), "done"),
    (Stack(Hint(b"so")), "the node takes no hints"),
    (Stack(Warn(b"\xff")), "the text isn't UTF-8"),
    (Stack(Warn(b"inner")), "done"),
    (Stack(Warn(b"outer")), "done"),
    (Stack(Hint(b"\xff")), "the text isn't UTF-8"),
    (Stack(Hint(b"so")), "done"),
    (Stack(PushError(b"\xff", b"x")), "the text isn't UTF-8"),
    (Stack(PushError(b"wrong", b"\xff")), "the text isn't UTF-8"),
    (Stack(PushError(b"wrong", b"x")), "done"),
    (Stack(Hint(b"this")), "done"),
    (Stack(Wrap(5, 3)), "the stack has too few nodes"),
    (
        Stack(Wrap(1, 2)),
        "no leaf or inner node can have this kind",
    ),
    (Stack(PushLeaf(7, b" ")), "done"),
    (Stack(PushLeaf(6, b"ab")), "done"),
    (Stack(Pop(2)), "done"),
    (Stack(Wrap(5, 2)), "done"),
    (Stack(Wrap(13, 0)), "done"),
    (
        Nodes,
        r#"[Markup: 5 [Warning: {message: "outer", hint: "so", Warning: {message: "inner", Text: "fine"}}, Error: { text: "x", message: "wrong", hint: "this" }], Strong: 0], no tree"#,
    ),
];

#[test]
fn nodes_are_built_on_the_stack(rt: HostRuntime) -> Result<(), Fail> {
    follow(&rt, rt.alloc(), "", BUILT)
}
