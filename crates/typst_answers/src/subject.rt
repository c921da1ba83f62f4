//! The node or the placeholder whose accessors are read.
ghost use Rattle.std.specs.Prelude.{◌≡◌, None, Some, false, true};
ghost use Rattle.typst_answers.specs.Subject.{kind_of_subject, node_of_subject};
ghost use Rattle.typst_node.specs.Tree.{Tree};
ghost use Rattle.typst_node.specs.Views.{node_kind, span_or_detached, IsViewOf};

use crate::place::Place;
use typst_tree::ast::AstNode;
use typst_tree::{Span, SyntaxKind, SyntaxNode};

/// A node, or the placeholder of a kind.
#[derive(Clone, Copy)]
pub enum Subject<'t> {
    Node(&'t SyntaxNode),
    Blank(SyntaxKind),
}

impl<'t> Subject<'t> {
    /// The kind of the node or of the placeholder.
    pub fn kind(self) -> SyntaxKind
        ensures { result ≡ kind_of_subject self.entry }
    {
        match self {
            Subject::Node(node) => node.kind(),
            Subject::Blank(kind) => kind,
        }
    }

    /// The node's view, or the placeholder if there is no node of the view's kinds.
    pub fn view<T: AstNode<'t>>(self) -> T
        ensures node { (t : Tree) → node_of_subject self.entry ≡ Some t → T.class (node_kind t) ≡ true
            → IsViewOf T.node_of T.view_kind T.proper T.blank (Some t) result }
        ensures other { (t : Tree) → node_of_subject self.entry ≡ Some t → T.class (node_kind t) ≡ false
            → IsViewOf T.node_of T.view_kind T.proper T.blank None result }
        ensures blank { node_of_subject self.entry ≡ None
            → IsViewOf T.node_of T.view_kind T.proper T.blank None result }
    {
        if let Subject::Node(node) = self
            && let Some(view) = T::from_untyped(node)
        {
            return view;
        }
        T::placeholder()
    }

    /// The place of the node or the placeholder. A placeholder has no place in the tree.
    pub fn place(self) -> Place
        ensures span { result.span ≡ span_or_detached (node_of_subject self.entry) }
        ensures kind { result.kind ≡ kind_of_subject self.entry }
    {
        match self {
            Subject::Node(node) => Place::of_node(node),
            Subject::Blank(kind) => Place {
                span: Span::detached(),
                kind,
            },
        }
    }
}
