//! The place that an answer points to.
ghost use Rattle.std.specs.Prelude.{◌≡◌};
ghost use Rattle.std.specs.Option.{option_copied};
ghost use Rattle.typst_node.specs.Views.{node_kind, span_or_detached};

use typst_atoms::same_views::Parts;
use typst_tree::ast::AstNode;
use typst_tree::{Span, SyntaxKind, SyntaxNode, span_of};

/// A node of a numbered tree, by its span, or the placeholder of a kind, whose span is detached.
#[derive(Clone, Copy)]
pub struct Place {
    pub span: Span,
    pub kind: SyntaxKind,
}

impl Place {
    /// The place of the node or the placeholder that a view shows.
    pub fn of<'t, T: AstNode<'t>>(view: T) -> Place
        ensures span { result.span ≡ span_or_detached (T.node_of view) }
        ensures kind { result.kind ≡ T.view_kind view }
    {
        Place {
            span: view.span(),
            kind: view.kind(),
        }
    }

    /// The place of a node.
    pub fn of_node(node: &SyntaxNode) -> Place
        ensures span { result.span ≡ node.now.label.span }
        ensures kind { result.kind ≡ node_kind node.now }
    {
        Place {
            span: node.span(),
            kind: node.kind(),
        }
    }

    /// The place of the node or the placeholder of a view with these parts.
    pub fn of_parts(parts: Parts) -> Place
        ensures span { result.span ≡ span_or_detached (option_copied parts.entry.node) }
        ensures kind { result.kind ≡ parts.entry.kind }
    {
        Place {
            span: span_of(parts.node),
            kind: parts.kind,
        }
    }
}

/// The kind and the node of a view.
pub fn parts_of<'t, T: AstNode<'t>>(view: T) -> Parts<'t>
    ensures kind { result.kind ≡ T.view_kind view }
    ensures node { option_copied result.node ≡ T.node_of view }
{
    Parts {
        kind: view.kind(),
        node: view.to_untyped(),
    }
}
