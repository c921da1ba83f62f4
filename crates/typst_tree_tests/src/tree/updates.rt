//! Edits and new trees after which the nodes that go on keep their numbers.
use crate::rows::assert_text;
use crate::tree::asking::{kept, span_of};
use std::alloc::{AllocError, Global};
use std::ops::Range;
use std::process::Abort;
use std::test::Fail;
use typst_drawn::{DrawingError, drawn, drawn_all, labels};
use typst_tree::{Moves, NumberedTree, Renumbered, Touched};

/// A change of a tree.
enum Change {
    /// Nodes in place of children of the node at a path.
    Reconcile(&'static [usize], Range<usize>, &'static str),
    /// Another tree in place of the whole tree.
    Update(&'static str),
}

/// A tree that is numbered from 2 up to a number, a change of it, what it answers, where the nodes with some numbers are
/// after it, and the labels of the tree then.
struct Row {
    shows: &'static str,
    tree: &'static str,
    end: u64,
    change: Change,
    answer: &'static str,
    numbers: &'static [u64],
    followed: &'static str,
    labels: &'static str,
}

/// A strong text and a text.
const TREE: &str = "Markup[ Strong[ Text:a ] Text:b ]";

/// Its labels if it is numbered up to 42, and if it is numbered up to 8.
const WIDE: &str = "4..42[8..17[10..11] 19..20]";

const NARROW: &str = "2..8[3..5[4..5] 5..6]";

/// Changes, and what they leave.
const ROWS: [Row; 14] = [
    Row {
        shows: "a text changes below a node that goes on",
        tree: TREE,
        end: 42,
        change: Change::Reconcile(&[], 0..1, "Strong[ Text:x ]"),
        answer: "leaf 0 at [0]",
        numbers: &[4, 8, 10, 19],
        followed: "4 8 10 19",
        labels: WIDE,
    },
    Row {
        shows: "a text changes below a node without room",
        tree: TREE,
        end: 8,
        change: Change::Reconcile(&[], 0..1, "Strong[ Text:x ]"),
        answer: "leaf 0 at [0]",
        numbers: &[2, 3, 4, 5],
        followed: "2 3 4 5",
        labels: NARROW,
    },
    Row {
        shows: "two texts come for one",
        tree: TREE,
        end: 42,
        change: Change::Reconcile(&[], 0..1, "Strong[ Text:x Text:y ]"),
        answer: "window 0..2 of 1 at [0]",
        numbers: &[4, 8, 10, 19],
        followed: "4 8 gone 19",
        labels: "4..42[8..17[10..11 12..13] 19..20]",
    },
    Row {
        shows: "a node of another kind comes",
        tree: TREE,
        end: 42,
        change: Change::Reconcile(&[], 0..1, "Emph[ Text:a ]"),
        answer: "window 0..1 of 1 at []",
        numbers: &[4, 8, 10, 19],
        followed: "4 gone gone 19",
        labels: "4..42[5..11[6..7] 19..20]",
    },
    Row {
        shows: "a path past the children",
        tree: TREE,
        end: 42,
        change: Change::Reconcile(&[3], 0..0, "Text:x"),
        answer: "the path leads to no node: at depth 0 child 3 is wanted, but the node has 2 children",
        numbers: &[],
        followed: "",
        labels: WIDE,
    },
    Row {
        shows: "a path to a leaf",
        tree: TREE,
        end: 42,
        change: Change::Reconcile(&[1], 0..0, "Text:x"),
        answer: "the path leads to a leaf, which has no children to replace",
        numbers: &[],
        followed: "",
        labels: WIDE,
    },
    Row {
        shows: "a range past the children",
        tree: TREE,
        end: 42,
        change: Change::Reconcile(&[0], 0..2, "Text:x"),
        answer: "the range 0..2 isn't one of the node's 1 children",
        numbers: &[],
        followed: "",
        labels: WIDE,
    },
    Row {
        shows: "a refusal",
        tree: TREE,
        end: 8,
        change: Change::Reconcile(&[], 2..2, "Text:x Text:y Text:z"),
        answer: "no window of children has room for new numbers",
        numbers: &[],
        followed: "",
        labels: NARROW,
    },
    Row {
        shows: "a tree with one more text",
        tree: TREE,
        end: 42,
        change: Change::Update("Markup[ Strong[ Text:a ] Text:b Text:c ]"),
        answer: "window 2..3 of 1 at []",
        numbers: &[4, 8, 10, 19],
        followed: "4 8 10 19",
        labels: "4..42[8..17[10..11] 19..20 25..26]",
    },
    Row {
        shows: "a tree with another text",
        tree: TREE,
        end: 42,
        change: Change::Update("Markup[ Strong[ Text:x ] Text:b ]"),
        answer: "leaf 0 at [0]",
        numbers: &[4, 8, 10, 19],
        followed: "4 8 10 19",
        labels: WIDE,
    },
    Row {
        shows: "a tree of another kind",
        tree: TREE,
        end: 42,
        change: Change::Update("Heading[ Text:a ]"),
        answer: "the root",
        numbers: &[4, 8, 10, 19],
        followed: "gone gone gone gone",
        labels: "17592186044417..140737488355328[52776558133248..52776558133249]",
    },
    Row {
        shows: "a tree of more nodes than the root has numbers",
        tree: "Markup[ Text:a ]",
        end: 5,
        change: Change::Update("Markup[ Text:a Text:b ]"),
        answer: "the root",
        numbers: &[2, 3],
        followed: "gone gone",
        labels: "11728124029612..140737488355328[35184372088833..35184372088834 58640620148054..58640620148055]",
    },
    Row {
        shows: "a leaf for a leaf",
        tree: "Text:a",
        end: 12,
        change: Change::Update("Text:b"),
        answer: "the root",
        numbers: &[7],
        followed: "7",
        labels: "7..8",
    },
    Row {
        shows: "a leaf of another kind",
        tree: "Text:a",
        end: 12,
        change: Change::Update("Space:~"),
        answer: "the root",
        numbers: &[7],
        followed: "gone",
        labels: "70368744177665..70368744177666",
    },
];

/// The place of a change, in words.
fn place(alloc: Global, path: &[usize], touched: &Touched) -> Result<String, AllocError> {
    match touched {
        Touched::Leaf { index } => format!(in alloc; "leaf {index} at {path:?}"),
        Touched::Window(Renumbered { window, tried }) => {
            let (start, end) = (window.start, window.end);
            format!(in alloc; "window {start}..{end} of {tried} at {path:?}")
        }
    }
}

/// What a change answers, in words, and its moves if it was done.
fn answered(
    alloc: Global,
    tree: &mut NumberedTree,
    change: &Change,
) -> Result<(String, Option<Moves>), DrawingError> {
    match change {
        Change::Reconcile(path, range, nodes) => {
            let nodes = drawn_all(alloc, nodes)?;
            match tree.reconcile(alloc, path, range.start..range.end, nodes) {
                Ok(done) => Ok((place(alloc, &done.path, &done.touched)?, Some(done.moves))),
                Err(error) => Ok((format!(in alloc; "{error}")?, None)),
            }
        }
        Change::Update(drawing) => {
            let root = drawn(alloc, drawing)?;
            match tree.update(alloc, root) {
                Ok(done) => {
                    let said = match &done.below {
                        Some(below) => place(alloc, &below.path, &below.touched)?,
                        None => String::from_str(alloc, "the root")?,
                    };
                    Ok((said, Some(done.moves)))
                }
                Err(error) => Ok((format!(in alloc; "{error}")?, None)),
            }
        }
    }
}

/// Where the nodes with some numbers are.
fn follow(alloc: Global, moves: &Moves, numbers: &[u64]) -> Result<String, DrawingError> {
    let mut said = String::new(alloc);
    for number in numbers {
        if !said.is_empty() {
            said.push(' ')?;
        }
        match moves.follow_span(span_of(*number)?) {
            Some(now) => write!(said, "{}", now.number())?,
            None => said.push_str("gone")?,
        }
    }
    Ok(said)
}

/// Asserts what the change of a row answers and leaves.
fn assert_row(rt: &(impl Abort + AllocGlobal), row: &Row) -> Result<(), Fail> {
    let alloc = rt.alloc();
    let mut tree = kept(alloc, row.tree, 2..row.end)?;
    let (answer, moves) = answered(alloc, &mut tree, &row.change)?;
    assert_text(rt, row.shows, "answer", &answer, row.answer);
    if let Some(moves) = moves {
        let said = follow(alloc, &moves, row.numbers)?;
        assert_text(rt, row.shows, "numbers", &said, row.followed);
    }
    let now = labels(alloc, tree.root())?;
    assert_text(rt, row.shows, "labels", &now, row.labels);
    Ok(())
}

#[test]
fn nodes_that_go_on_keep_their_numbers(rt: HostRuntime) -> Result<(), Fail> {
    for row in &ROWS {
        assert_row(&rt, row)?;
    }
    Ok(())
}
