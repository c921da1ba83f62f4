//! The items that an import brings in.
use crate::views::ImportItems;
use std::hash::Hash;

/// What an import brings in from the module.
#[derive(Clone, Copy, Debug, Hash)]
pub enum Imports<'a> {
    /// Everything: `*`.
    Wildcard,
    /// The named items: `a, b, c`.
    Items(ImportItems<'a>),
}

/// Two imports are equal if both bring in everything, or items of the same tree. Spans and bounds count. A comparison
/// takes time at most in proportion to the smaller tree, and no memory.
impl<'a> PartialEq for Imports<'a> {
    ghost use Rattle.std.specs.Prelude.{◌≡◌, ◌↔◌, IsTrue};
    ghost use Rattle.typst_ast.specs.EqualViews.{AreSameImports, imports_eq, imports_laws};

    ghost eq = { imports_eq };

    ghost laws = { imports_laws };

    fn eq(&self, other: &Self) -> bool
        ensures is { result ≡ imports_eq self.now other.now }
        ensures same { IsTrue result ↔ AreSameImports self.now other.now }
    {
        match (self, other) {
            (Imports::Wildcard, Imports::Wildcard) => true,
            (Imports::Items(view), Imports::Items(other)) => *view == *other,
            _ => false,
        }
    }
}

impl<'a> Eq for Imports<'a> {
    ghost use Rattle.typst_ast.specs.EqualViews.{imports_equivalence};

    ghost laws = { imports_equivalence };
}

#[derived]
impl<'a> Hash for Imports<'a> {
    ghost use Rattle.typst_ast.specs.EqualHashes.{imports_alike};

    ghost respects_eq = { imports_alike };
}
