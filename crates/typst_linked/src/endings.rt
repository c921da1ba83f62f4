//! The child at a place in the text, for nodes with few or many children.
ghost use Rattle.std.specs.Prelude.{MatchOption};
ghost use Rattle.typst_node.specs.Tree.{trees};
ghost use Rattle.typst_linked.specs.Part.{EndsBefore, IsFirstEnding, HasNoOwnText};

use crate::children::len_of_child;
use crate::floor::Part;
use crate::halving::first_ending;
use crate::looks::Looks;
use typst_node::SyntaxNode;

/// Up to this many children are read one after the other, which takes less time than binary search among so few.
const IN_ORDER: usize = 10;

/// The first child whose text ends at or after a goal, and where that text begins. The goal is in bytes from the
/// beginning of the children's text.
pub(crate) fn child_ending(node: &SyntaxNode, goal: usize) -> Option<Part>
    ensures found { MatchOption result (EndsBefore goal (trees node.now.children))
        (IsFirstEnding goal (trees node.now.children)) }
    ensures no_text { HasNoOwnText node.now }
{
    let count = node.child_slice().len();
    if count > IN_ORDER {
        return first_ending(node, goal, &mut Looks::new());
    }
    let mut begin = 0;
    for index in 0..count {
        let end = begin + len_of_child(node, index);
        if goal <= end {
            return Some(Part { index, begin });
        }
        begin = end;
    }
    None
}
