//! Accessors that answer a natural number.
ghost use Rattle.std.specs.Prelude.{◌≡◌, Some};
ghost use Rattle.typst_accessors.specs.Accessors.{natural_view};
ghost use Rattle.typst_accessors.specs.Naturals.{IsNatural};
ghost use Rattle.typst_ast.specs.Roots.{IsRootIndex};
ghost use Rattle.typst_ast.specs.View.{node_of};
ghost use Rattle.typst_atoms.specs.Texts.{text_in};
ghost use Rattle.typst_node.specs.Children.{children_in, first_of};
ghost use Rattle.typst_node.specs.Views.{node_kind};

use crate::accessor::NaturalAccessor;
use typst_ast::views::{Binary, EnumItem, Heading, MathPrimes, MathRoot, Unary};
use typst_node::SyntaxNode;

/// The index of a root, if it has one.
fn root_index(root: MathRoot) -> Option<u64>
    ensures { IsRootIndex (text_in (first_of (children_in (node_of root.entry)))) result }
{
    match root.index() {
        Some(index) => Some(index as u64),
        None => None,
    }
}

impl NaturalAccessor {
    /// The number that the accessor answers of a node of its view, if it answers one.
    pub(crate) fn read(self, node: &SyntaxNode) -> Option<u64>
        requires { node_kind node.now ≡ natural_view self }
        ensures { IsNatural self (Some node.now) result }
    {
        match self {
            NaturalAccessor::MathPrimesCount => Some(MathPrimes::of_kind(node).count() as u64),
            NaturalAccessor::HeadingDepth => Some(Heading::of_kind(node).depth().get() as u64),
            NaturalAccessor::EnumItemNumber => EnumItem::of_kind(node).number(),
            NaturalAccessor::MathRootIndex => root_index(MathRoot::of_kind(node)),
            NaturalAccessor::UnaryPrecedence => Some(Unary::of_kind(node).op().precedence() as u64),
            NaturalAccessor::BinaryPrecedence => {
                Some(Binary::of_kind(node).op().precedence() as u64)
            }
        }
    }
}
