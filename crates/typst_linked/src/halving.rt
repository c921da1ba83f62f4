//! Binary search in what nodes keep in order.
ghost use Rattle.std.specs.Prelude.{◌≡◌, ◌+◌, ◌<◌, ◌≤◌, ◌^◌, length, IfSome, MatchOption};
ghost use Rattle.typst_node.specs.BinaryDigits.{binary_digits};
ghost use Rattle.typst_node.specs.Tree.{trees};
ghost use Rattle.typst_linked.specs.LeafLooks.{one_if_several};
ghost use Rattle.typst_linked.specs.Part.{EndsBefore, IsFirstEnding, IsLastAtOnce, IsLastLate, HasNoOwnText};
ghost use Rattle.typst_linked.specs.Floor.{index_behind, IsFloorOf, NumbersRise, AreAbove};

use crate::floor::{Floor, Part};
use crate::looks::Looks;
use typst_node::SyntaxNode;

/// The last node whose number is at most the wanted number, if the numbers rise. No number is read twice.
pub(crate) fn last_up_to(nodes: &[SyntaxNode], wanted: u64, looks: &mut Looks) -> Option<Floor>
    requires { looks.old + length nodes.now < 2 ^ 64 }
    ensures found { IfSome result (IsFloorOf nodes.now wanted) }
    ensures later { NumbersRise nodes.now → AreAbove nodes.now wanted (index_behind result) }
    ensures cost { looks.new ≤ looks.old + binary_digits (length nodes.now) }
    ensures few { looks.new ≤ looks.old + length nodes.now }
    ensures grows { looks.old ≤ looks.new }
    ensures least { IfSome result (λ _. looks.old < looks.new) }
{
    let mut low = 0;
    let mut high = nodes.len();
    let mut floor = None;
    while low < high {
        let middle = low + (high - low) / 2;
        let number = looks.number_of(&nodes[middle]);
        if number <= wanted {
            floor = Some(Floor {
                index: middle,
                number,
            });
            low = middle + 1;
        } else {
            high = middle;
        }
    }
    floor
}

/// The first child whose text ends at or after a goal, and where that text begins. The goal is in bytes from the
/// beginning of the children's text. No end is read twice.
pub(crate) fn first_ending(node: &SyntaxNode, goal: usize, looks: &mut Looks) -> Option<Part>
    requires { looks.old + length (trees node.now.children) < 2 ^ 64 }
    ensures found { MatchOption result (EndsBefore goal (trees node.now.children))
        (IsFirstEnding goal (trees node.now.children)) }
    ensures no_text { HasNoOwnText node.now }
    ensures cost { looks.new ≤ looks.old + binary_digits (length (trees node.now.children)) }
    ensures few { looks.new ≤ looks.old + length (trees node.now.children) }
    ensures grows { looks.old ≤ looks.new }
    ensures least { IfSome result (λ _. looks.old < looks.new) }
{
    let count = node.child_slice().len();
    let mut low = 0;
    let mut high = count;
    let mut begin = 0;
    while low < high {
        let middle = low + (high - low) / 2;
        let end = looks.end_of(node, middle);
        if end < goal {
            begin = end;
            low = middle + 1;
        } else {
            high = middle;
        }
    }
    if low == count {
        return None;
    }
    Some(Part { index: low, begin })
}

/// The last child of a node that has children, if the children before it have no text.
pub(crate) fn last_at_once(node: &SyntaxNode, looks: &mut Looks) -> Option<Part>
    requires room { looks.old + 1 < 2 ^ 64 }
    requires inner { 0 < length (trees node.now.children) }
    ensures found { MatchOption result (IsLastLate (trees node.now.children)) (IsLastAtOnce (trees node.now.children)) }
    ensures cost { looks.new ≤ looks.old + binary_digits (length (trees node.now.children)) }
    ensures few { looks.new ≤ looks.old + length (trees node.now.children) }
    ensures forks { looks.old + one_if_several (length (trees node.now.children)) ≤ looks.new }
{
    let last = node.child_slice().len() - 1;
    if last > 0 && looks.end_of(node, last - 1) > 0 {
        return None;
    }
    Some(Part {
        index: last,
        begin: 0,
    })
}
