//! Edits after which the nodes that go on keep their numbers, and where each node is then.
use crate::rows::{assert_row, assert_said};
use std::alloc::Global;
use std::ops::Range;
use std::test::Fail;
use typst_base::{FileId, Span, SpanNumber};
use typst_drawn::{DrawingError, drawn_all, labels, numbered};
use typst_linked::LinkedNode;
use typst_node::{Moves, Reconciled, Renumbered, SyntaxNode, Touched};

/// A tree that is numbered from 2 on, other nodes in place of some children, and what comes of it.
struct Row {
    shows: &'static str,
    tree: &'static str,
    end: u64,
    path: &'static [usize],
    range: Range<usize>,
    others: &'static str,
    /// The path and the touched children, or the refusal.
    answer: &'static str,
    labels: &'static str,
    /// The number that each node of the old tree has now, in preorder.
    moves: &'static str,
}

/// A heading and a text. Within 2..164 the heading's text `cd` has number 30.
const HEADED: &str =
    "Markup[ Heading[ HeadingMarker:= Space:~ Markup[ Text:ab Space:~ Text:cd ] ] Text:x ]";

/// Strong content and a text. Within 2..9 no number is open.
const STRONG: &str = "Markup[ Strong[ Star:* Markup[ Text:b ] Star:* ] Text:c ]";

/// What edits leave.
const EDITS: [Row; 15] = [
    Row {
        shows: "a text in a title goes on",
        tree: HEADED,
        end: 164,
        path: &[],
        range: 0..1,
        others: "Heading[ HeadingMarker:= Space:~ Markup[ Text:ab Space:~ Text:cde ] ]",
        answer: "[0, 2] leaf 2",
        labels: "6..164[13..74[17..18 21..22 24..39[26..27 28..29 30..31]] 78..79]",
        moves: "6 13 17 21 24 26 28 30 78",
    },
    Row {
        shows: "two texts in a title don't",
        tree: HEADED,
        end: 164,
        path: &[],
        range: 0..1,
        others: "Heading[ HeadingMarker:= Space:~ Markup[ Text:abc Space:~ Text:cde ] ]",
        answer: "[0, 2] 0..3 tried 1",
        labels: "6..164[13..74[17..18 21..22 24..39[26..27 28..29 30..31]] 78..79]",
        moves: "6 13 17 21 24 - - - 78",
    },
    Row {
        shows: "strong content at the end of a title is new there",
        tree: HEADED,
        end: 2000,
        path: &[],
        range: 0..1,
        others: "Heading[ HeadingMarker:= Space:~ Markup[ Text:ab Space:~ Strong[ Star:* Markup[ Text:c ] Star:* ] Text:d ] ]",
        answer: "[0, 2] 2..4 tried 1",
        labels: "57..2000[140..890[195..196 250..251 291..498[318..319 345..346 349..406[355..356 359..370[362..363] 373..374] 412..413]] 945..946]",
        moves: "57 140 195 250 291 318 345 - 945",
    },
    Row {
        shows: "an equal heading before a heading moves it",
        tree: HEADED,
        end: 164,
        path: &[],
        range: 0..0,
        others: "Heading[ HeadingMarker:= Space:~ Markup[ Text:ab Space:~ Text:cd ] ]",
        answer: "[] 0..2 tried 2",
        labels: "6..164[7..21[8..9 9..10 10..14[11..12 12..13 13..14]] 21..35[22..23 23..24 24..28[25..26 26..27 27..28]] 78..79]",
        moves: "6 21 22 23 24 25 26 27 78",
    },
    Row {
        shows: "a removed heading is gone with all below it",
        tree: HEADED,
        end: 164,
        path: &[],
        range: 0..1,
        others: "",
        answer: "[] 0..0 tried 1",
        labels: "6..164[78..79]",
        moves: "6 - - - - - - - 78",
    },
    Row {
        shows: "a text goes on where no number is open",
        tree: STRONG,
        end: 9,
        path: &[],
        range: 0..1,
        others: "Strong[ Star:* Markup[ Text:d ] Star:* ]",
        answer: "[0, 1] leaf 0",
        labels: "2..9[3..8[4..5 5..7[6..7] 7..8] 8..9]",
        moves: "2 3 4 5 6 7 8",
    },
    Row {
        shows: "a node without room is numbered anew, and its neighbours move",
        tree: STRONG,
        end: 30,
        path: &[],
        range: 0..1,
        others: "Strong[ Star:* Markup[ Text:b Space:~ Text:d ] Star:* ]",
        answer: "[0] 0..3 tried 2",
        labels: "3..30[4..14[5..6 6..10[7..8 8..9 9..10] 10..11] 15..16]",
        moves: "3 4 5 - - 10 15",
    },
    Row {
        shows: "an error goes on with another message",
        tree: "Markup[ Text:a !m:b ]",
        end: 100,
        path: &[],
        range: 1..2,
        others: "!n:bc",
        answer: "[] leaf 1",
        labels: "10..100[26..27 42..43]",
        moves: "10 26 42",
    },
    Row {
        shows: "an inner node with another warning is new",
        tree: STRONG,
        end: 100,
        path: &[],
        range: 0..1,
        others: "Strong[ Star:* Markup[ Text:b ] Star:* ] ^m",
        answer: "[] 0..1 tried 1",
        labels: "5..100[7..26[9..10 10..14[11..12] 15..16] 47..48]",
        moves: "5 - - - - - 47",
    },
    Row {
        shows: "an inner node of another kind is new",
        tree: STRONG,
        end: 100,
        path: &[],
        range: 0..1,
        others: "Emph[ Star:* Markup[ Text:b ] Star:* ]",
        answer: "[] 0..1 tried 1",
        labels: "5..100[7..26[9..10 10..14[11..12] 15..16] 47..48]",
        moves: "5 - - - - - 47",
    },
    Row {
        shows: "a leaf of another kind is new",
        tree: STRONG,
        end: 100,
        path: &[],
        range: 1..2,
        others: "Space:c",
        answer: "[] 1..2 tried 1",
        labels: "5..100[10..44[13..14 15..21[16..17] 22..23] 58..59]",
        moves: "5 10 13 15 16 22 -",
    },
    Row {
        shows: "two siblings that change are new",
        tree: STRONG,
        end: 100,
        path: &[],
        range: 0..2,
        others: "Strong[ Star:* Markup[ Text:bb ] Star:* ] Text:cc",
        answer: "[] 0..2 tried 1",
        labels: "5..100[7..41[10..11 12..18[13..14] 19..20] 44..45]",
        moves: "5 - - - - - -",
    },
    Row {
        shows: "alike nodes stay",
        tree: STRONG,
        end: 100,
        path: &[],
        range: 0..2,
        others: "Strong[ Star:* Markup[ Text:b ] Star:* ] Text:c",
        answer: "[] 2..2 tried 1",
        labels: "5..100[10..44[13..14 15..21[16..17] 22..23] 47..48]",
        moves: "5 10 13 15 16 22 47",
    },
    Row {
        shows: "a leaf at the path stays",
        tree: "Markup[ Text:ab Text:c ]",
        end: 14,
        path: &[1],
        range: 0..0,
        others: "Text:z",
        answer: "[1] 0..0 tried 0",
        labels: "3..14[5..6 7..8]",
        moves: "3 5 7",
    },
    Row {
        shows: "without room nothing changes",
        tree: "Markup[ Text:a ]",
        end: 4,
        path: &[],
        range: 0..1,
        others: "Text:z Text:y",
        answer: "Unnumberable",
        labels: "2..4[3..4]",
        moves: "",
    },
];

/// The path and the touched children.
fn answer(alloc: Global, done: &Reconciled) -> Result<String, DrawingError> {
    let path = &done.path;
    let said = match &done.touched {
        Touched::Leaf { index } => format!(in alloc; "{path:?} leaf {index}")?,
        Touched::Window(Renumbered { window, tried }) => {
            let Range { start, end } = window;
            format!(in alloc; "{path:?} {start}..{end} tried {tried}")?
        }
    };
    Ok(said)
}

/// The numbers that the nodes of a tree have after its edit, in preorder.
fn moved(alloc: Global, old: &SyntaxNode, moves: &Moves) -> Result<String, DrawingError> {
    let mut said = String::new(alloc);
    for node in LinkedNode::new(old).preorder(alloc)? {
        let node = node?;
        if !said.is_empty() {
            said.push_str(" ")?;
        }
        match moves.follow(node.get().span().number()) {
            Some(number) => write!(said, "{number}")?,
            None => said.push_str("-")?,
        }
    }
    Ok(said)
}

/// What comes of an edit, in words.
fn reconciled(alloc: Global, row: &Row) -> Result<String, DrawingError> {
    let mut tree = numbered(alloc, row.tree, 2..row.end)?;
    let old = tree.clone()?;
    let others = drawn_all(alloc, row.others)?;
    let range = row.range.start..row.range.end;
    if !tree.edit_fits(row.path, row.range.start..row.range.end) || !tree.is_numbered() {
        return Err(DrawingError::Misplaced);
    }
    let (answer, moves) = match tree.reconcile_at(alloc, row.path, range, others) {
        Ok(done) => (answer(alloc, &done)?, moved(alloc, &old, &done.moves)?),
        Err(error) => (format!(in alloc; "{error:?}")?, String::new(alloc)),
    };
    let labels = labels(alloc, &tree)?;
    let ordered = tree.is_numbered();
    Ok(format!(in alloc; "{answer} {labels} {moves} {ordered}")?)
}

#[test]
fn nodes_that_go_on_keep_their_numbers(rt: HostRuntime) -> Result<(), Fail> {
    let alloc = rt.alloc();
    for row in &EDITS {
        let Row {
            answer,
            labels,
            moves,
            ..
        } = row;
        let wanted = format!(in alloc; "{answer} {labels} {moves} true")?;
        assert_said(&rt, row.shows, reconciled(alloc, row), &wanted);
    }
    Ok(())
}

/// A span, and the span that is answered for it after `x` came between the texts of `Markup[ Text:ab Text:c ]`, which is
/// numbered within 2..14. The texts move from 5 and 7 to 4 and 6.
struct Follow {
    shows: &'static str,
    file: u16,
    number: u64,
    now: Option<u64>,
}

const FOLLOWED: [Follow; 5] = [
    Follow {
        shows: "the root stays",
        file: 1,
        number: 3,
        now: Some(3),
    },
    Follow {
        shows: "a neighbour moves",
        file: 1,
        number: 7,
        now: Some(6),
    },
    Follow {
        shows: "a number between the neighbours is gone",
        file: 1,
        number: 6,
        now: None,
    },
    Follow {
        shows: "a number that no node had stays elsewhere",
        file: 1,
        number: 9,
        now: Some(9),
    },
    Follow {
        shows: "a number of another file stays",
        file: 2,
        number: 7,
        now: Some(7),
    },
];

/// The span of a number in a file.
fn span_of(file: u16, number: u64) -> Span {
    match FileId::new(file) {
        Some(id) if Span::FULL.contains(&number) => Span::from_number(id, SpanNumber(number)),
        _ => Span::detached(),
    }
}

/// Whether spans are followed as the rows say, and a range of bytes and a detached span stay.
fn are_followed(rt: &impl std::process::Abort, moves: &Moves) {
    for row in &FOLLOWED {
        let wanted = match row.now {
            Some(now) => Some(span_of(row.file, now)),
            None => None,
        };
        let found = moves.follow_span(span_of(row.file, row.number));
        assert_row(rt, row.shows, found == wanted);
    }
    let bytes = Span::from_range(FileId::FIRST, 5..7);
    assert_row(
        rt,
        "a range of bytes stays",
        moves.follow_span(bytes) == Some(bytes),
    );
    let nowhere = Span::detached();
    let found = moves.follow_span(nowhere);
    assert_row(rt, "a detached span stays", found == Some(nowhere));
}

#[test]
fn spans_are_followed(rt: HostRuntime) -> Result<(), Fail> {
    let alloc = rt.alloc();
    let mut tree = numbered(alloc, "Markup[ Text:ab Text:c ]", 2..14)?;
    let others = drawn_all(alloc, "Text:x")?;
    if !tree.edit_fits(&[], 1..1) || !tree.is_numbered() {
        return Err("the edit doesn't fit")?;
    }
    let done = tree.reconcile_at(alloc, &[], 1..1, others)?;
    are_followed(&rt, &done.moves);
    Ok(())
}
