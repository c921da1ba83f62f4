//! Views that read alike.
ghost use Rattle.std.specs.Prelude.{◌↔◌, IsTrue};
ghost use Rattle.typst_ast.specs.Alike.{IsAlike, ReadsAlike};

use typst_node::AstNode;

/// Whether two views have equal nodes, apart from spans and bounds, or both have none.
///
/// An accessor reads nothing but the plain tree. So all accessors of such views answer alike, and the views of an
/// edited tree read as those of the same tree built anew. It takes time at most in proportion to the smaller tree, and
/// no memory.
#[tactic(auto, using(crate::proofs::PlainReads::reads_alike))]
pub fn is_alike<'a, T: AstNode<'a>>(view: T, other: T) -> bool
    ensures plain { IsTrue result ↔ IsAlike (T.node_of view) (T.node_of other) }
    ensures reads { IsTrue result → ReadsAlike (T.node_of view) (T.node_of other) }
{
    match view.to_untyped() {
        Some(node) => match other.to_untyped() {
            Some(other) => node.spanless_eq(other),
            None => false,
        },
        None => other.to_untyped().is_none(),
    }
}
