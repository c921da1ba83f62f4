//! What an edit did, counted.
ghost use Rattle.std.specs.Prelude.{◌≡◌, ◌-◌, ◌^◌, ◌<◌, ◌==◌, if◌then◌else◌, Some, drop, take};
ghost use Rattle.std.specs.List.{position_or_len};
ghost use Rattle.typst_node.specs.Count.{count_of_all};
ghost use Rattle.typst_node.specs.Moves.{is_within};
ghost use Rattle.typst_shown.specs.Report.{Reports, differing, numbers_of, status_before, status_of, touched_nodes};

use std::ops::Range;
use typst_linked::node_at;
use typst_node::{SyntaxNode, Touched, count_nodes};
use typst_source::Edited;

/// What an edit did, counted in bytes and nodes of the new text and its tree.
#[derive(Clone, Debug, PartialEq, Eq, Drop)]
pub struct EditReport {
    /// What the edit answered.
    pub done: Edited,
    /// How many bytes the text has.
    pub bytes: usize,
    /// How many nodes the tree has.
    pub nodes: usize,
    /// How many nodes are new.
    pub new: usize,
    /// How many nodes went on with another number.
    pub moved: usize,
    /// The numbers of the window: from that of its first node up to the bound of its last child.
    pub numbers: Range<u64>,
}

/// What an edit did to a node of the new tree.
#[derive(Clone, Copy, Debug, PartialEq, Eq)]
pub enum NodeStatus {
    /// The node went on with its number.
    Kept,
    /// The node went on with another number.
    Moved,
    /// The node came with the edit.
    New,
}

impl EditReport {
    /// What an edit did, given the tree that it left. It takes time in proportion to the nodes of the window's part of
    /// the moves and to the children of the node that was edited.
    pub fn of(root: &SyntaxNode, done: Edited) -> EditReport
        ensures { Reports done root.now result }
    {
        let window = window_of(root, &done);
        let (before, after) = done.moves.moved();
        let (new, moved) = (
            count_nodes(window).saturating_sub(after.len()),
            count_differing(before, after),
        );
        EditReport {
            bytes: root.len(),
            nodes: root.descendants(),
            new,
            moved,
            numbers: numbers_in(window),
            done,
        }
    }

    /// How many nodes keep their numbers.
    pub fn kept(&self) -> usize
        ensures { result ≡ self.now.nodes - self.now.new - self.now.moved }
    {
        self.nodes
            .saturating_sub(self.new)
            .saturating_sub(self.moved)
    }

    /// What the edit did to the node of the new tree that has a number. It takes time in proportion to the nodes of the
    /// window, and for a node outside it none.
    pub fn status(&self, number: u64) -> NodeStatus
        ensures { result ≡ status_of self.now.numbers self.now.done.moves number }
    {
        if !is_in(&self.numbers, number) {
            return NodeStatus::Kept;
        }
        let (before, after) = self.done.moves.moved();
        match before.get(index_of(after, number)) {
            None => NodeStatus::New,
            Some(was) => status_from(*was, number),
        }
    }
}

/// Whether a number is in a range.
fn is_in(range: &Range<u64>, number: u64) -> bool
    ensures { result ≡ is_within range.now number }
{
    range.start <= number && number < range.end
}

/// What an edit did to a node that went on: the number that it had, and the one that it has.
fn status_from(was: u64, number: u64) -> NodeStatus
    ensures { result ≡ status_before (Some was) number }
{
    if was == number {
        NodeStatus::Kept
    } else {
        NodeStatus::Moved
    }
}

/// The index of the first of some numbers that is this one, or how many there are.
fn index_of(numbers: &[u64], number: u64) -> usize
    ensures { result ≡ position_or_len (λ x. x == number) numbers.now }
{
    for i in 0..numbers.len() {
        if numbers[i] == number {
            return i;
        }
    }
    numbers.len()
}

/// The children in the window of an edit, and none if a leaf went on.
fn window_of<'a>(root: &'a SyntaxNode, done: &Edited) -> &'a [SyntaxNode]
    ensures window { result.now ≡ touched_nodes done.now root.now }
    ensures fits { count_of_all result.now < 2 ^ 64 }
{
    let Touched::Window(renumbered) = &done.touched else {
        return &[];
    };
    let Some(node) = node_at(root, &done.path) else {
        return &[];
    };
    // Read for the proof: the nodes below a node are a usize.
    let _all = node.descendants();
    let Range { start, end } = renumbered.window;
    let rest = nodes_from(node.child_slice(), start);
    first_nodes(rest, end.saturating_sub(start))
}

/// The numbers of adjacent nodes and of the nodes below them.
fn numbers_in(nodes: &[SyntaxNode]) -> Range<u64>
    ensures { result ≡ numbers_of nodes.now }
{
    match (nodes.first(), nodes.last()) {
        (Some(first), Some(last)) => first.span().number()..last.upper(),
        _ => 0..0,
    }
}

/// 1 if two numbers differ, and 0 if not.
fn differ(one: u64, other: u64) -> usize
    ensures { result ≡ if one == other then 0 else 1 }
{
    if one == other { 0 } else { 1 }
}

/// How many numbers differ from those in the other list.
fn count_differing(before: &[u64], after: &[u64]) -> usize
    ensures { result ≡ differing before.now after.now }
{
    let mut sum = 0;
    for i in 0..before.len().min(after.len()) {
        sum += differ(before[i], after[i]);
    }
    sum
}

/// The nodes from an index on.
fn nodes_from(nodes: &[SyntaxNode], start: usize) -> &[SyntaxNode]
    ensures { result.now ≡ drop start nodes.now }
{
    nodes.split_at(start.min(nodes.len())).1
}

/// The first `count` nodes.
fn first_nodes(nodes: &[SyntaxNode], count: usize) -> &[SyntaxNode]
    ensures { result.now ≡ take count nodes.now }
{
    nodes.split_at(count.min(nodes.len())).0
}
