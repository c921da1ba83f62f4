//! Equality of whole trees.
ghost use Rattle.std.specs.Prelude.{◌≡◌, ◌↔◌, IsTrue};
ghost use Rattle.typst_node.specs.View.{content, below, IsConsistent};

use crate::node::spanless::{same_hints, same_kind, same_warnings};
use crate::node::{Node, SyntaxNode};
use crate::short_text::text_in;

impl SyntaxNode {
    /// Whether both trees are the same, spans and bounds included.
    #[cycle(same)]
    fn same(&self, other: &SyntaxNode) -> bool
        ensures { IsTrue result ↔ (self.now ≡ other.now) }
    {
        if self.span != other.span {
            return false;
        }
        same_warnings(self.node.warnings(), other.node.warnings()) && self.node.same(&other.node)
    }
}

impl Node {
    #[cycle(same)]
    fn same(&self, other: &Node) -> bool
        requires kept { IsConsistent self.now }
        requires other { IsConsistent other.now }
        ensures { IsTrue result ↔ ((content self.now ≡ content other.now) × (below self.now ≡ below other.now)) }
    {
        match self {
            Node::Short(kind, len, bytes) => other.is_leaf_of(*kind, text_in(*len, bytes)),
            Node::Long(kind, text) => other.is_leaf_of(*kind, text.as_str()),
            Node::Leaf(kind, leaf) => other.is_leaf_of(*kind, leaf.text.as_str()),
            Node::Inner(kind, _, inner) => match other {
                Node::Inner(other_kind, _, other_inner) => {
                    same_kind(*kind, *other_kind)
                        && inner.upper == other_inner.upper
                        && all_same(&inner.children, &other_inner.children)
                }
                Node::Short(..) | Node::Long(..) | Node::Leaf(..) | Node::Error(_) => false,
            },
            Node::Error(error) => match other {
                Node::Error(other_error) => {
                    error.text.as_str() == other_error.text.as_str()
                        && error.message.as_str() == other_error.message.as_str()
                        && same_hints(&error.hints, &other_error.hints)
                }
                Node::Short(..) | Node::Long(..) | Node::Leaf(..) | Node::Inner(..) => false,
            },
        }
    }
}

/// Whether both lists hold the same trees.
#[cycle(same)]
fn all_same(nodes: &[SyntaxNode], others: &[SyntaxNode]) -> bool
    ensures { IsTrue result ↔ (nodes.now ≡ others.now) }
{
    if nodes.len() != others.len() {
        return false;
    }
    for i in 0..nodes.len() {
        if !nodes[i].same(&others[i]) {
            return false;
        }
    }
    true
}

/// Equality of everything that the trees hold, spans and bounds included. It takes time in proportion to the smaller
/// tree.
impl PartialEq for SyntaxNode {
    ghost use Rattle.typst_node.specs.Equal.{tree_eq, tree_eq_laws};

    ghost eq = { tree_eq };

    ghost laws = { tree_eq_laws };

    fn eq(&self, other: &SyntaxNode) -> bool
        ensures is { result ≡ tree_eq self.now other.now }
        ensures same { IsTrue result ↔ (self.now ≡ other.now) }
    {
        self.same(other)
    }
}

impl Eq for SyntaxNode {
    ghost use Rattle.typst_node.specs.Equal.{tree_eq_equivalence};

    ghost laws = { tree_eq_equivalence };
}
