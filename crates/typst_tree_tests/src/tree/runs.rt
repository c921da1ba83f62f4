//! Runs of edits and searches, and the trees after them.
use crate::rows::assert_text;
use crate::tree::asking::{Ask, all_said, kept, request, slots};
use std::alloc::{AllocError, Global};
use std::ops::Range;
use std::process::Abort;
use std::test::Fail;
use typst_drawn::{DrawingError, labels, numbered, sizes};
use typst_tree::session::{self, Reply, Slot};
use typst_tree::{NumberedTree, SyntaxNode};

/// A run and its result.
struct Row {
    shows: &'static str,
    tree: &'static str,
    within: Range<u64>,
    asks: &'static [Ask],
    /// The replies, and then the tree's text, its numbers and bounds, and its sizes and the ends of its children.
    outcome: &'static str,
}

/// Strong content and a text.
const STRONG: &str = "Markup[ Strong[ Star:* Markup[ Text:b ] Star:* ] Text:c ]";

/// What runs reply, and the trees that they leave.
const RUNS: [Row; 4] = [
    Row {
        shows: "every kind of request is served in order",
        tree: STRONG,
        within: 2..30,
        asks: &[
            Ask::Replace(&[0], 1..2, "Markup[ Text:x Text:y ]"),
            Ask::Find(15),
            Ask::Replace(&[0, 1], 0..1, "Text:x Text:y"),
            Ask::Replace(&[5], 0..0, ""),
            Ask::Replace(&[1], 0..0, ""),
            Ask::Answered,
            Ask::Find(14),
        ],
        outcome: "window 0..3 tried 2; [1] at 4; Refused(Unnumberable); Misfit; Misfit; NoMemory; none; \
            <*xy*c> 3..30[4..14[5..6 6..9[7..8 8..9] 9..10] 15..16] 5/8(4 5)[4/6(1 3 4)[1/1 2/3(1 2)[1/1 1/1] 1/1] 1/1]",
    },
    Row {
        shows: "nodes are found at every depth",
        tree: STRONG,
        within: 2..30,
        asks: &[
            Ask::Find(3),
            Ask::Find(4),
            Ask::Find(6),
            Ask::Find(7),
            Ask::Find(8),
            Ask::Find(15),
            Ask::Find(2),
            Ask::Find(16),
        ],
        outcome: "[] at 0; [0] at 0; [0, 1] at 1; [0, 1, 0] at 1; [0, 2] at 2; [1] at 3; none; none; \
            <*b*c> 3..30[4..14[5..6 6..8[7..8] 8..9] 15..16] 4/7(3 4)[3/5(1 2 3)[1/1 1/2(1)[1/1] 1/1] 1/1]",
    },
    Row {
        shows: "a growth three levels deep is served where there is room, and what is after it moves",
        tree: "Markup[ Strong[ Markup[ Text:a ] Star:* ] Text:c ]",
        within: 2..200,
        asks: &[
            Ask::Find(46),
            Ask::Replace(&[0, 0], 1..1, "Text:bb"),
            Ask::Find(35),
            Ask::Find(46),
            Ask::Find(90),
        ],
        outcome: "[0, 1] at 1; window 1..2 tried 1; [0, 0, 1] at 1; [0, 1] at 3; [1] at 4; \
            <abb*c> 10..200[22..82[28..42[32..33 35..36] 46..47] 90..91] 5/7(4 5)[4/5(3 4)[3/3(1 3)[1/1 2/1] 1/1] 1/1]",
    },
    Row {
        shows: "a run goes on after a refusal",
        tree: "Markup[ Text:a ]",
        within: 2..4,
        asks: &[
            Ask::Replace(&[], 0..1, "Text:z"),
            Ask::Replace(&[], 0..1, ""),
            Ask::Replace(&[], 0..0, "Text:z"),
            Ask::Find(3),
        ],
        outcome: "Refused(Unnumberable); window 0..0 tried 1; Refused(Unnumberable); none; \
            <> 2..4 0/1",
    },
];

/// The words for a tree.
fn shown(alloc: Global, tree: &SyntaxNode) -> Result<String, AllocError> {
    let text = tree.full_text(alloc)?;
    let labels = labels(alloc, tree)?;
    let sizes = sizes(alloc, tree)?;
    format!(in alloc; "<{text}> {labels} {sizes}")
}

/// The words for replies and the tree after them.
fn outcome(alloc: Global, slots: &[Slot], tree: &SyntaxNode) -> Result<String, AllocError> {
    let replies = all_said(alloc, slots)?;
    let after = shown(alloc, tree)?;
    format!(in alloc; "{replies}{after}")
}

/// Serves a run on a node.
fn run_on_a_node(alloc: Global, row: &Row) -> Result<String, DrawingError> {
    let mut tree = numbered(alloc, row.tree, row.within.start..row.within.end)?;
    let mut slots = slots(alloc, row.asks)?;
    session::run(alloc, &mut tree, &mut slots);
    Ok(outcome(alloc, &slots, &tree)?)
}

/// Serves a run on a tree that is kept numbered.
fn run_on_a_numbered_tree(alloc: Global, row: &Row) -> Result<String, DrawingError> {
    let mut tree = kept(alloc, row.tree, row.within.start..row.within.end)?;
    let mut slots = slots(alloc, row.asks)?;
    tree.run(alloc, &mut slots);
    Ok(outcome(alloc, &slots, tree.root())?)
}

/// Serves one ask on a tree that is kept numbered.
fn reply(alloc: Global, ask: &Ask, tree: &mut NumberedTree) -> Result<Reply, DrawingError> {
    Ok(match request(alloc, ask)? {
        Some(request) => tree.serve(alloc, request),
        None => Reply::NoMemory,
    })
}

/// Serves one request after the other on a tree that is kept numbered.
fn serve_each(alloc: Global, row: &Row) -> Result<String, DrawingError> {
    let mut tree = kept(alloc, row.tree, row.within.start..row.within.end)?;
    let mut slots = Vec::new(alloc);
    for ask in row.asks {
        slots.push(Slot::Told(reply(alloc, ask, &mut tree)?))?;
    }
    Ok(outcome(alloc, &slots, tree.root())?)
}

/// A way to serve a run.
#[derive(Clone, Copy)]
enum Way {
    OnANode,
    OnANumberedTree,
    OneByOne,
}

/// What each way is called.
const WAYS: [(&str, Way); 3] = [
    ("on a node", Way::OnANode),
    ("on a numbered tree", Way::OnANumberedTree),
    ("one by one", Way::OneByOne),
];

/// Serves a run in a way.
fn serve(alloc: Global, row: &Row, way: Way) -> Result<String, DrawingError> {
    match way {
        Way::OnANode => run_on_a_node(alloc, row),
        Way::OnANumberedTree => run_on_a_numbered_tree(alloc, row),
        Way::OneByOne => serve_each(alloc, row),
    }
}

/// Asserts the outcome of a run, served in each way.
fn assert_run(rt: &impl Abort, alloc: Global, row: &Row) -> Result<(), Fail> {
    for (name, way) in &WAYS {
        let said = serve(alloc, row, *way)?;
        assert_text(rt, row.shows, name, &said, row.outcome);
    }
    Ok(())
}

/// Asserts the outcome of each run.
fn assert_runs(rt: &(impl Abort + AllocGlobal), rows: &[Row]) -> Result<(), Fail> {
    for row in rows {
        assert_run(rt, rt.alloc(), row)?;
    }
    Ok(())
}

#[test]
fn requests_are_served_one_after_the_other(rt: HostRuntime) -> Result<(), Fail> {
    assert_runs(&rt, &RUNS)
}

/// How many numbers the search for 3 reads in a lone node.
fn looks_in_a_lone_node(alloc: Global) -> Result<Option<u64>, DrawingError> {
    let mut tree = numbered(alloc, "Markup[ ]", 2..4)?;
    let mut slots = slots(alloc, &[Ask::Find(3)])?;
    session::run(alloc, &mut tree, &mut slots);
    Ok(match slots.first().and_then(Slot::reply) {
        Some(Reply::NotFound { looks }) => Some(*looks),
        _ => None,
    })
}

#[test]
fn a_search_in_a_lone_node_reads_its_number(rt: HostRuntime) -> Result<(), Fail> {
    assert!(rt; looks_in_a_lone_node(rt.alloc())? == Some(1));
    Ok(())
}

/// The words for the replies of a slot that waits and of one that has its reply.
fn unserved(alloc: Global) -> Result<String, DrawingError> {
    Ok(all_said(alloc, &slots(alloc, &[Ask::Find(3), Ask::Answered])?)?)
}

#[test]
fn a_slot_that_waits_has_no_reply(rt: HostRuntime) -> Result<(), Fail> {
    let said = unserved(rt.alloc())?;
    assert_text(&rt, "two slots", "unserved", &said, "waits; NoMemory; ");
    Ok(())
}

#[test]
fn a_reply_is_copied_whole(rt: HostRuntime) -> Result<(), Fail> {
    let path = [1, 0].as_slice().to_vec(rt.alloc())?;
    let reply = Reply::Found {
        path,
        offset: 4,
        looks: 3,
    };
    assert!(rt;
        matches!(&reply.clone()?, Reply::Found { path, offset: 4, looks: 3 } if path.as_slice() == [1, 0].as_slice())
    );
    Ok(())
}
