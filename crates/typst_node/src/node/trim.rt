//! How many nodes a list has, with those below them, and how many two lists have alike at the beginning and at the end.
ghost use Rattle.std.specs.Prelude.{ℕ, ◌≡◌, ◌+◌, ◌-◌, ◌^◌, ◌<◌, ◌≤◌, List, length, reverse, slice_range};
ghost use Rattle.typst_node.specs.ChangedChildren.{IsCommonBeginning, StaysLongest, common_first, common_last};
ghost use Rattle.typst_node.specs.Count.{count_of_all};
ghost use Rattle.typst_node.specs.Tree.{Tree};

use crate::node::SyntaxNode;

/// The number of nodes in a list and below its nodes. It stops at `usize::MAX`.
///
/// It takes time in proportion to the length of the list, and no memory.
pub fn count_nodes(nodes: &[SyntaxNode]) -> usize
    ensures counted { count_of_all nodes.now < 2 ^ 64 → result ≡ count_of_all nodes.now }
    ensures limit { 2 ^ 64 ≤ count_of_all nodes.now → result ≡ 2 ^ 64 - 1 }
{
    let mut sum = 0usize;
    for node in nodes {
        sum = sum.saturating_add(node.descendants());
    }
    sum
}

/// The number of nodes that both lists have alike at the beginning, by [`SyntaxNode::spanless_eq`].
///
/// It takes no memory. It compares one pair of nodes after the other, up to the first pair that differs.
#[inline(always)]
pub fn count_common_first(nodes: &[SyntaxNode], others: &[SyntaxNode]) -> usize
    ensures is { result ≡ common_first nodes.now others.now }
    ensures longest { IsCommonBeginning nodes.now others.now result }
    ensures within { result ≤ length nodes.now }
    ensures within_others { result ≤ length others.now }
{
    let most = nodes.len().min(others.len());
    for i in 0..most {
        if !nodes[i].spanless_eq(&others[i]) {
            return i;
        }
    }
    most
}

/// The number of nodes that both lists have alike at the end, by [`SyntaxNode::spanless_eq`].
///
/// It takes no memory. It compares one pair of nodes after the other, up to the first pair that differs.
#[inline(always)]
pub fn count_common_last(nodes: &[SyntaxNode], others: &[SyntaxNode]) -> usize
    ensures is { result ≡ common_last nodes.now others.now }
    ensures longest { IsCommonBeginning (reverse nodes.now) (reverse others.now) result }
    ensures within { result ≤ length nodes.now }
    ensures within_others { result ≤ length others.now }
{
    let most = nodes.len().min(others.len());
    for i in 0..most {
        if !nodes[nodes.len() - 1 - i].spanless_eq(&others[others.len() - 1 - i]) {
            return i;
        }
    }
    most
}

/// Drops `first` nodes at the beginning and `last` nodes at the end. It takes no memory.
pub(super) fn trim(nodes: &mut Vec<SyntaxNode>, first: usize, last: usize)
    requires { first + last ≤ length nodes.old.items }
    ensures { nodes.new.items ≡ slice_range nodes.old.items first (length nodes.old.items - last) }
{
    nodes.truncate(nodes.len() - last);
    nodes.rotate_left(first);
    nodes.truncate(nodes.len() - first);
}

/// A law of all replacements of children: what stays of a range is the longest common beginning with what comes, and then
/// the longest common ending of the rest of both.
#[tactic(auto, using(crate::proofs::Trimmed::stays_longest))]
pub fn longest_ends_stay()
    ensures { (from to : ℕ) (others ts : List Tree) → StaysLongest from to others ts }
{}
