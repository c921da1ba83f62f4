//! Tests of the lines of replies.
use crate::asserting::assert_shown;
use std::alloc::Global;
use std::test::Fail;
use typst_script::reply::print_replies;
use typst_tree::session::{Reply, Request, Slot};
use typst_tree::{Renumbered, ReplaceError, Span};

/// The line of a reply.
fn line_of(alloc: Global, reply: Reply) -> Result<Vec<u8>, Fail> {
    let mut out: Vec<u8> = Vec::new(alloc);
    let slots = vec![in alloc;
        Slot::Ask(Request::Find(Span::detached())),
        Slot::Told(reply),
    ]?;
    print_replies(&mut out, &slots)?;
    Ok(out)
}

/// Replies without a path, and their lines.
const TOLD: [(Reply, &str); 7] = [
    (
        Reply::Renumbered(Renumbered {
            window: 0..3,
            tried: 2,
        }),
        "done window 0..3 tried 2\n",
    ),
    (Reply::Misfit, "misfit\n"),
    (Reply::Refused(ReplaceError::Unnumberable), "refused\n"),
    (Reply::Refused(ReplaceError::Overflow), "overflow\n"),
    (Reply::Refused(ReplaceError::Memory), "no memory\n"),
    (Reply::NotFound { looks: 3 }, "not found\n"),
    (Reply::NoMemory, "no memory\n"),
];

/// Paths and offsets of nodes that were found, and the lines.
const FOUND: [(&[usize], usize, &str); 6] = [
    (&[], 0, "found - offset 0\n"),
    (&[7], 4, "found 7 offset 4\n"),
    (&[0, 1], 1, "found 0.1 offset 1\n"),
    (&[0, 1, 0], 1, "found 0.1.0 offset 1\n"),
    (&[0, 1, 2, 3, 4, 5, 6], 9, "found 0.1.2.3.4.5.6 offset 9\n"),
    (
        &[10; 40],
        70_000,
        "found 10.10.10.10.10.10.10.10.10.10.10.10.10.10.10.10.10.10.10.10.10.10.10.10.10.10.10.10.10.10.10.10.10.10.10.10.10.10.10.10 offset 70000\n",
    ),
];

#[test]
fn prints_each_reply(rt: HostRuntime) -> Result<(), Fail> {
    let alloc = rt.alloc();
    for (reply, wanted) in &TOLD {
        let line = line_of(alloc, reply.clone()?)?;
        assert_shown(&rt, wanted, line.as_slice(), wanted.as_bytes());
    }
    for (path, offset, wanted) in &FOUND {
        let line = line_of(alloc, found(alloc, path, *offset)?)?;
        assert_shown(&rt, wanted, line.as_slice(), wanted.as_bytes());
    }
    Ok(())
}

/// The reply to a search that found a node.
fn found(alloc: Global, path: &[usize], offset: usize) -> Result<Reply, Fail> {
    Ok(Reply::Found {
        path: path.to_vec(alloc)?,
        offset,
        looks: 3,
    })
}
