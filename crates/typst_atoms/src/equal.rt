//! Equality and hashes of views by their kind and node.
ghost use Rattle.std.specs.Prelude.{◌≡◌, ◌↔◌, IsTrue};
ghost use Rattle.typst_atoms.specs.ImportItem.{import_item_kind, import_item_node};
ghost use Rattle.typst_atoms.specs.MathAccess.{math_access_kind, math_access_node};
ghost use Rattle.typst_atoms.specs.SameViews.{by_node_input, same_by_node, same_by_node_alike, same_by_node_equivalence, same_by_node_laws, same_views, same_views_alike, same_views_equivalence, same_views_laws, view_input};
ghost use Rattle.typst_atoms.specs.View.{atom_node};

use crate::import_items::ImportItem;
use crate::marker::Kind;
use crate::math_access::MathAccess;
use crate::same_views::{Parts, are_same_nodes, feed_node};
use crate::view::View;
use std::hash::{Hash, Hasher};

/// Two views of one kind are equal if they are of the same tree, spans and bounds included, or if both are
/// placeholders. A comparison takes time at most in proportion to the smaller tree, and no memory.
impl<'a, M: Kind> PartialEq for View<'a, M> {
    ghost eq = { same_by_node atom_node };

    ghost laws = { same_by_node_laws atom_node };

    fn eq(&self, other: &Self) -> bool
        ensures is { result ≡ same_by_node atom_node self.now other.now }
        ensures same { IsTrue result ↔ (atom_node self.now ≡ atom_node other.now) }
    {
        are_same_nodes(self.node(), other.node())
    }
}

impl<'a, M: Kind> Eq for View<'a, M> {
    ghost laws = { same_by_node_equivalence atom_node };
}

impl<'a, M: Kind> Hash for View<'a, M> {
    ghost hash_input = { by_node_input atom_node };

    ghost respects_eq = { same_by_node_alike atom_node };

    fn hash<H: Hasher>(&self, state: &mut H) {
        feed_node(self.node(), state);
    }
}

/// Two accesses are equal if they are of one kind, and of the same tree, spans and bounds included, or both
/// placeholders. A comparison takes time at most in proportion to the smaller tree, and no memory.
impl<'a> PartialEq for MathAccess<'a> {
    ghost eq = { same_views math_access_kind math_access_node };

    ghost laws = { same_views_laws math_access_kind math_access_node };

    fn eq(&self, other: &Self) -> bool
        ensures is { result ≡ same_views math_access_kind math_access_node self.now other.now }
        ensures same { IsTrue result
            ↔ (math_access_kind self.now ≡ math_access_kind other.now
            × math_access_node self.now ≡ math_access_node other.now) }
    {
        Parts::of(*self).are_same(Parts::of(*other))
    }
}

impl<'a> Eq for MathAccess<'a> {
    ghost laws = { same_views_equivalence math_access_kind math_access_node };
}

impl<'a> Hash for MathAccess<'a> {
    ghost hash_input = { view_input math_access_kind math_access_node };

    ghost respects_eq = { same_views_alike math_access_kind math_access_node };

    fn hash<H: Hasher>(&self, state: &mut H) {
        Parts::of(*self).feed(state);
    }
}

/// Two items are equal if they are of one kind, and of the same tree, spans and bounds included, or both placeholders.
/// A comparison takes time at most in proportion to the smaller tree, and no memory.
impl<'a> PartialEq for ImportItem<'a> {
    ghost eq = { same_views import_item_kind import_item_node };

    ghost laws = { same_views_laws import_item_kind import_item_node };

    fn eq(&self, other: &Self) -> bool
        ensures is { result ≡ same_views import_item_kind import_item_node self.now other.now }
        ensures same { IsTrue result
            ↔ (import_item_kind self.now ≡ import_item_kind other.now
            × import_item_node self.now ≡ import_item_node other.now) }
    {
        Parts::of(*self).are_same(Parts::of(*other))
    }
}

impl<'a> Eq for ImportItem<'a> {
    ghost laws = { same_views_equivalence import_item_kind import_item_node };
}

impl<'a> Hash for ImportItem<'a> {
    ghost hash_input = { view_input import_item_kind import_item_node };

    ghost respects_eq = { same_views_alike import_item_kind import_item_node };

    fn hash<H: Hasher>(&self, state: &mut H) {
        Parts::of(*self).feed(state);
    }
}
