//! The children of a node that may be missing. The accessors of views use these reads.
ghost use Rattle.std.specs.Prelude.{◌≡◌};
ghost use Rattle.std.specs.Option.{option_copied};
ghost use Rattle.typst_node.specs.Children.{children_in, first_child, behind_first};
ghost use Rattle.typst_atoms.specs.Kinds.{is_kind};
ghost use Rattle.typst_atoms.specs.Texts.{text_in};

use typst_base::SyntaxKind;
use typst_node::SyntaxNode;

/// The children of the node. There are none if there is no node.
pub fn children<'a>(node: Option<&'a SyntaxNode>) -> &'a [SyntaxNode]
    ensures { result.now ≡ children_in (option_copied node.entry) }
{
    match node {
        Some(node) => node.child_slice(),
        None => &[],
    }
}

/// The leaf text. It is empty for an inner node, and if there is no node.
pub fn leaf_text<'a>(node: Option<&'a SyntaxNode>) -> &'a str
    ensures { result.now ≡ text_in (option_copied node.entry) }
{
    match node {
        Some(node) => node.leaf_text(),
        None => "",
    }
}

/// The first child of the kind.
pub fn first_of_kind<'a>(node: Option<&'a SyntaxNode>, kind: SyntaxKind) -> Option<&'a SyntaxNode>
    ensures { option_copied result ≡ first_child (is_kind kind) (option_copied node.entry) }
{
    children(node).iter().find(|child| child.kind() == kind)
}

/// The children after the first child of the kind. There are none if there is no such child.
pub fn behind<'a>(node: Option<&'a SyntaxNode>, kind: SyntaxKind) -> &'a [SyntaxNode]
    ensures { result.now ≡ behind_first (is_kind kind) (children_in (option_copied node.entry)) }
{
    let nodes = children(node);
    match nodes.iter().position(|node| node.kind() == kind) {
        Some(first) => &nodes[first + 1..],
        None => &[],
    }
}
