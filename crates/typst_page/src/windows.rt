//! The windows that were tried when the nodes of an edit were numbered.
ghost use Rattle.std.specs.Prelude.{◌≡◌, ◌-◌, ◌^◌, ◌≤◌, ◌↔◌, IfSome, IsSome, length, min, slice_range};
ghost use Rattle.typst_node.specs.Tree.{trees};
ghost use Rattle.typst_node.specs.Window.{width};
ghost use Rattle.typst_page.specs.Change.{BeginBefore, EndBy, IsChange, IsLastWindow, window_end, window_start};

use std::ops::Range;
use typst_node::{Renumbered, SyntaxNode, count_common_first, count_common_last};

/// Where the list of a node's children changed: how many are before the change, how many are new, and how many are
/// after it.
#[derive(Clone, Copy, Debug, PartialEq, Eq)]
pub struct Change {
    before: usize,
    changed: usize,
    behind: usize,
}

impl Change {
    /// The change that an edit made between two nodes: the children whose text was parsed anew, except those at the
    /// beginning and at the end that are what they were. The bytes are those of the new node's text. A child without a
    /// text is one of these bytes if it is at their beginning or end.
    pub fn between(old: &SyntaxNode, new: &SyntaxNode, reparsed: &Range<usize>) -> Change
        ensures { IsChange (trees old.now.children) (trees new.now.children) reparsed.now.start reparsed.now.end result }
    {
        let old_children = old.child_slice();
        let new_children = new.child_slice();
        let from = beginning_before(new, reparsed.start);
        let to = ending_by(new, reparsed.end);
        let behind = new_children.len() - to;
        let old_parsed = part(
            old_children,
            from,
            old_children.len().saturating_sub(behind),
        );
        let new_parsed = part(new_children, from, to);
        let first = count_common_first(old_parsed, new_parsed);
        let old_rest = &old_parsed[first..];
        let new_rest = &new_parsed[first..];
        let last = count_common_last(old_rest, new_rest);
        Change {
            before: from + first,
            changed: new_rest.len() - last,
            behind: behind + last,
        }
    }

    /// The window that is tried at a turn, from 0. It includes 0, 1, 2, 4, .. neighbours on each side.
    pub fn window(&self, turn: usize) -> Range<usize>
        ensures start { result.start ≡ window_start self.now turn }
        ensures end { result.end ≡ window_end self.now turn }
    {
        let width = width_at(turn);
        let end = self.before.saturating_add(self.changed);
        self.before.saturating_sub(width)..end.saturating_add(width.min(self.behind))
    }

    /// The turns of all windows that were tried. The last of them had room. None if the last isn't the window that the
    /// edit returned.
    pub fn tried(&self, done: &Renumbered) -> Option<Range<usize>>
        ensures found { IsSome result
            ↔ IsLastWindow self.now done.now.tried done.now.window.start done.now.window.end }
        ensures first { IfSome result (λ turns. turns.start ≡ 0) }
        ensures last { IfSome result (λ turns. turns.end ≡ done.now.tried) }
    {
        let last = done.tried.checked_sub(1)?;
        if self.window(last) == done.window {
            Some(0..done.tried)
        } else {
            None
        }
    }
}

/// 0 at the first turn, then 1, 2, 4, .., or the largest number that there is.
fn width_at(turn: usize) -> usize
    ensures { result ≡ min (width turn) (2 ^ 64 - 1) }
{
    match turn.checked_sub(1) {
        None => 0,
        Some(doublings) => match u32::try_from(doublings) {
            Ok(doublings) => 2usize.saturating_pow(doublings),
            Err(_) => usize::MAX,
        },
    }
}

/// The children from one index up to another, and none if there are no such children.
fn part(children: &[SyntaxNode], from: usize, to: usize) -> &[SyntaxNode]
    requires { to ≤ length children.now }
    ensures { result.now ≡ slice_range children.now from to }
{
    children.get(from..to).unwrap_or(&[])
}

/// How many children of a node end at or before a byte.
fn ending_by(node: &SyntaxNode, byte: usize) -> usize
    ensures { EndBy byte (trees node.now.children) result }
{
    // Read for the proof: the text of all children is no longer than a usize tells.
    let _bytes = node.len();
    let children = node.child_slice();
    let mut end = 0;
    for i in 0..children.len() {
        end += children[i].len();
        if end > byte {
            return i;
        }
    }
    children.len()
}

/// How many children of a node begin before a byte.
fn beginning_before(node: &SyntaxNode, byte: usize) -> usize
    ensures { BeginBefore byte (trees node.now.children) result }
{
    match byte.checked_sub(1) {
        // Each child after the first begins where the child before it ends.
        Some(last) => node
            .child_slice()
            .len()
            .min(ending_by(node, last).saturating_add(1)),
        None => 0,
    }
}
