//! Identifiers and field accesses in math.
ghost use Rattle.std.specs.Prelude.{◌≡◌, refl};
ghost use Rattle.typst_node.specs.Children.{first_child, last_child};
ghost use Rattle.typst_atoms.specs.Kinds.{is_kind, is_math_access_kind};
ghost use Rattle.typst_atoms.specs.MathAccess.{IsMathAccessOf};
ghost use Rattle.typst_atoms.specs.Texts.{text_in};
ghost use Rattle.typst_atoms.specs.View.{atom_node};
ghost use Rattle.typst_base.specs.declared.kind.SyntaxKind.TheVariants as kinds;

use crate::casts::{cast_first, cast_last};
use crate::views as of;
use typst_base::{Span, SyntaxKind};
use typst_node::{AstNode, SyntaxNode};

/// Something in math that can be accessed: an identifier, or a field of something that can be accessed.
#[derive(Clone, Copy, Debug)]
pub enum MathAccess<'a> {
    /// An identifier: `arrow`.
    MathIdent(of::MathIdent<'a>),
    /// A field access: `arrow.r`.
    MathFieldAccess(of::MathFieldAccess<'a>),
}

impl<'a> AstNode<'a> for MathAccess<'a> {
    ghost use Rattle.typst_atoms.specs.MathAccess.{math_access_node, math_access_kind, math_access_kind_is_node_kind};

    ghost class = { is_math_access_kind };

    ghost node_of = { math_access_node };

    ghost view_kind = { math_access_kind };

    ghost blank = { kinds.MathIdent };

    ghost blank_in_class = { refl };

    ghost kind_is_node_kind = { math_access_kind_is_node_kind };

    fn from_untyped(node: &'a SyntaxNode) -> Option<Self> {
        match node.kind() {
            SyntaxKind::MathIdent => Some(MathAccess::MathIdent(of::MathIdent::of_kind(node))),
            SyntaxKind::MathFieldAccess => {
                Some(MathAccess::MathFieldAccess(of::MathFieldAccess::of_kind(node)))
            }
            _ => None,
        }
    }

    fn to_untyped(self) -> Option<&'a SyntaxNode> {
        match self {
            MathAccess::MathIdent(view) => view.to_untyped(),
            MathAccess::MathFieldAccess(view) => view.to_untyped(),
        }
    }

    fn span(self) -> Span {
        match self {
            MathAccess::MathIdent(view) => view.span(),
            MathAccess::MathFieldAccess(view) => view.span(),
        }
    }

    fn kind(self) -> SyntaxKind {
        match self {
            MathAccess::MathIdent(view) => view.kind(),
            MathAccess::MathFieldAccess(view) => view.kind(),
        }
    }

    fn placeholder() -> Self {
        MathAccess::MathIdent(of::MathIdent::placeholder())
    }
}

impl<'a> of::MathIdent<'a> {
    /// The identifier.
    pub fn get(self) -> &'a str
        ensures { result.now ≡ text_in (atom_node self.entry) }
    {
        self.leaf_text()
    }

    /// The identifier.
    pub fn as_str(self) -> &'a str
        ensures { result.now ≡ text_in (atom_node self.entry) }
    {
        self.get()
    }
}

impl<'a> of::MathFieldAccess<'a> {
    /// The target whose field is accessed.
    pub fn target(self) -> MathAccess<'a>
        ensures { IsMathAccessOf (first_child is_math_access_kind (atom_node self.entry)) result }
    {
        cast_first(self.node())
    }

    /// The field's name.
    pub fn field(self) -> of::MathIdent<'a>
        ensures { atom_node result ≡ last_child (is_kind kinds.MathIdent) (atom_node self.entry) }
    {
        cast_last(self.node())
    }
}
