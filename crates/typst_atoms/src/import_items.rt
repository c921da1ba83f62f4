//! The items of an import.
ghost use Rattle.std.specs.Prelude.{◌≡◌, refl};
ghost use Rattle.typst_node.specs.Children.{all_children, children_in, last_child};
ghost use Rattle.typst_atoms.specs.ImportItem.{item_path, item_bound_name};
ghost use Rattle.typst_node.specs.Items.{nodes_ahead, nodes_left};
ghost use Rattle.typst_atoms.specs.Kinds.{is_kind, is_import_item_kind};
ghost use Rattle.typst_atoms.specs.View.{atom_node};
ghost use Rattle.typst_base.specs.declared.kind.SyntaxKind.TheVariants as kinds;

use crate::casts::cast_all;
use crate::views::{Ident, ImportItemPath, ImportItems, RenamedImportItem};
use typst_base::{Span, SyntaxKind};
use typst_node::{AstNode, Items, SyntaxNode};

impl<'a> ImportItems<'a> {
    /// The items in order. They can be read from both ends.
    pub fn iter(self) -> Items<'a, ImportItem<'a>>
        ensures left { nodes_left is_import_item_kind result
            ≡ all_children is_import_item_kind (atom_node self.entry) }
        ensures ahead { nodes_ahead result ≡ children_in (atom_node self.entry) }
    {
        cast_all(self.node())
    }
}

/// An item of an import: `a.b`, or `a.b as c`.
#[derive(Clone, Copy, Debug)]
pub enum ImportItem<'a> {
    /// An item under its own name.
    Simple(ImportItemPath<'a>),
    /// An item under another name.
    Renamed(RenamedImportItem<'a>),
}

impl<'a> ImportItem<'a> {
    /// The path to the item.
    pub fn path(self) -> ImportItemPath<'a>
        ensures { atom_node result ≡ item_path self.entry }
    {
        match self {
            ImportItem::Simple(path) => path,
            ImportItem::Renamed(item) => item.path(),
        }
    }

    /// The item's own name, which is the name in its path.
    pub fn original_name(self) -> Ident<'a>
        ensures { atom_node result ≡ last_child (is_kind kinds.Ident) (item_path self.entry) }
    {
        self.path().name()
    }

    /// The name of the item at the place of the import: a renamed item's new name, or else its own name.
    pub fn bound_name(self) -> Ident<'a>
        ensures { atom_node result ≡ item_bound_name self.entry }
    {
        match self {
            ImportItem::Simple(path) => path.name(),
            ImportItem::Renamed(item) => item.new_name(),
        }
    }
}

impl<'a> AstNode<'a> for ImportItem<'a> {
    ghost use Rattle.typst_atoms.specs.ImportItem.{import_item_node, import_item_kind, import_item_kind_is_node_kind};

    ghost class = { is_import_item_kind };

    ghost node_of = { import_item_node };

    ghost view_kind = { import_item_kind };

    ghost blank = { kinds.ImportItemPath };

    ghost blank_in_class = { refl };

    ghost kind_is_node_kind = { import_item_kind_is_node_kind };

    fn from_untyped(node: &'a SyntaxNode) -> Option<Self> {
        match node.kind() {
            SyntaxKind::ImportItemPath => Some(ImportItem::Simple(ImportItemPath::of_kind(node))),
            SyntaxKind::RenamedImportItem => {
                Some(ImportItem::Renamed(RenamedImportItem::of_kind(node)))
            }
            _ => None,
        }
    }

    fn to_untyped(self) -> Option<&'a SyntaxNode> {
        match self {
            ImportItem::Simple(view) => view.to_untyped(),
            ImportItem::Renamed(view) => view.to_untyped(),
        }
    }

    fn span(self) -> Span {
        match self {
            ImportItem::Simple(view) => view.span(),
            ImportItem::Renamed(view) => view.span(),
        }
    }

    fn kind(self) -> SyntaxKind {
        match self {
            ImportItem::Simple(view) => view.kind(),
            ImportItem::Renamed(view) => view.kind(),
        }
    }

    fn placeholder() -> Self {
        ImportItem::Simple(ImportItemPath::placeholder())
    }
}
