//! The basis of `==`, `Hash` and `Debug` for views of several kinds: their kind and their node.
ghost use Rattle.std.specs.Prelude.{◌≡◌, ◌↔◌, IsTrue, fold};
ghost use Rattle.std.specs.Option.{option_copied};
ghost use Rattle.typst_atoms.specs.SameViews.{node_input, parts_input, same_parts, same_trees};

use std::fmt;
use std::hash::{Hash, Hasher};
use typst_base::SyntaxKind;
use typst_node::{AstNode, SyntaxNode};

/// The kind of a view and its node. A placeholder has no node.
#[derive(Clone, Copy)]
pub struct Parts<'a> {
    /// The kind of the view.
    pub kind: SyntaxKind,
    /// The node, spans and bounds included.
    pub node: Option<&'a SyntaxNode>,
}

/// Whether both nodes are the same, spans and bounds included, or both are missing. It takes time at most in proportion
/// to the smaller tree, and no memory.
pub fn are_same_nodes(node: Option<&SyntaxNode>, other: Option<&SyntaxNode>) -> bool
    ensures is { result ≡ same_trees (option_copied node.entry) (option_copied other.entry) }
    ensures same { IsTrue result ↔ (option_copied node.entry ≡ option_copied other.entry) }
{
    match (node, other) {
        (Some(node), Some(other)) => node == other,
        (None, None) => true,
        _ => false,
    }
}

/// Feeds a node to a hasher, or the fact that it is missing. It takes time in proportion to the tree.
pub fn feed_node<H: Hasher>(node: Option<&SyntaxNode>, state: &mut H)
    ensures { state.new ≡ fold H.write state.old (node_input (option_copied node.entry)) }
{
    match node {
        Some(node) => {
            state.write_u8(1);
            node.hash(state);
        }
        None => state.write_u8(0),
    }
}

impl<'a> Parts<'a> {
    /// The kind and the node of a view, which determine a view of a kind or of several kinds.
    pub fn of<T: AstNode<'a>>(view: T) -> Parts<'a>
        ensures kind { result.kind ≡ T.view_kind view }
        ensures node { option_copied result.node ≡ T.node_of view }
    {
        Parts {
            kind: view.kind(),
            node: view.to_untyped(),
        }
    }

    /// Whether the kinds and the nodes are the same. It takes time at most in proportion to the smaller tree, and no
    /// memory.
    pub fn are_same(self, other: Parts<'a>) -> bool
        ensures is { result ≡ same_parts self.entry.kind (option_copied self.entry.node) other.entry.kind
            (option_copied other.entry.node) }
        ensures same { IsTrue result
            ↔ (self.entry.kind ≡ other.entry.kind × option_copied self.entry.node ≡ option_copied other.entry.node) }
    {
        self.kind == other.kind && are_same_nodes(self.node, other.node)
    }

    /// Feeds the kind and the node to a hasher. It takes time in proportion to the tree.
    pub fn feed<H: Hasher>(self, state: &mut H)
        ensures { state.new ≡ fold H.write state.old (parts_input self.entry.kind (option_copied self.entry.node)) }
    {
        state.write_u8(self.kind.to_u8());
        feed_node(self.node, state);
    }

    /// Writes the name of the kind and the node, as `Int(Int: "1")`. Without a node it writes `Int(placeholder)`.
    pub fn show<W: fmt::Write>(self, f: &mut fmt::Formatter<W>) -> fmt::Result {
        match self.node {
            Some(node) => write!(f, "{:?}({node:?})", self.kind),
            None => write!(f, "{:?}(placeholder)", self.kind),
        }
    }
}
