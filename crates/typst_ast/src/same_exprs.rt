//! Equality, hashes and `Debug` of expressions by their kind and node.
ghost use Rattle.std.specs.Prelude.{◌≡◌, ◌↔◌, IsTrue};
ghost use Rattle.typst_ast.specs.ExprTable.{expr_kind, expr_node};

use crate::expr::Expr;
use std::fmt;
use std::hash::{Hash, Hasher};

/// Two expressions are equal if they are of one kind, and of the same tree, spans and bounds included, or both
/// placeholders. A comparison takes time at most in proportion to the smaller tree, and no memory.
impl<'a> PartialEq for Expr<'a> {
    ghost use Rattle.typst_ast.specs.EqualViews.{AreSameExprs};
    ghost use Rattle.typst_atoms.specs.SameViews.{same_views, same_views_laws};

    ghost eq = { same_views expr_kind expr_node };

    ghost laws = { same_views_laws expr_kind expr_node };

    fn eq(&self, other: &Expr<'a>) -> bool
        ensures is { result ≡ same_views expr_kind expr_node self.now other.now }
        ensures same { IsTrue result ↔ AreSameExprs self.now other.now }
    {
        self.parts().are_same(other.parts())
    }
}

impl<'a> Eq for Expr<'a> {
    ghost use Rattle.typst_atoms.specs.SameViews.{same_views_equivalence};

    ghost laws = { same_views_equivalence expr_kind expr_node };
}

impl<'a> Hash for Expr<'a> {
    ghost use Rattle.typst_atoms.specs.SameViews.{same_views_alike, view_input};

    ghost hash_input = { view_input expr_kind expr_node };

    ghost respects_eq = { same_views_alike expr_kind expr_node };

    fn hash<H: Hasher>(&self, state: &mut H) {
        self.parts().feed(state);
    }
}

impl<'a> fmt::Debug for Expr<'a> {
    /// Writes the name of the variant and the node, as `Int(Int: "1")`. Without a node it writes `Int(placeholder)`.
    fn fmt<W: fmt::Write>(&self, f: &mut fmt::Formatter<W>) -> fmt::Result {
        self.parts().show(f)
    }
}
