//! Accessors of math that answer a node.
ghost use Rattle.std.specs.Prelude.{◌≡◌, Some};
ghost use Rattle.std.specs.Option.{option_copied};
ghost use Rattle.typst_accessors.specs.Math.{math_node};
ghost use Rattle.typst_accessors.specs.NodeAccessors.{math_view};
ghost use Rattle.typst_node.specs.Views.{node_kind};

use crate::node_accessor::MathAccessor;
use crate::optional::node_of_optional;
use typst_ast::views as of;
use typst_node::{AstNode, SyntaxNode};

impl MathAccessor {
    /// The node that the accessor answers of a node of its view, if the tree has it.
    pub(crate) fn read<'a>(self, node: &'a SyntaxNode) -> Option<&'a SyntaxNode>
        requires { node_kind node.now ≡ math_view self }
        ensures { option_copied result ≡ math_node self (Some node.now) }
    {
        use MathAccessor as by;
        match self {
            by::EquationBody => of::Equation::of_kind(node).body().to_untyped(),
            by::MathFieldAccessTarget => of::MathFieldAccess::of_kind(node).target().to_untyped(),
            by::MathFieldAccessField => of::MathFieldAccess::of_kind(node).field().to_untyped(),
            by::MathCallCallee => of::MathCall::of_kind(node).callee().to_untyped(),
            by::MathCallArgs => of::MathCall::of_kind(node).args().to_untyped(),
            by::MathDelimitedOpen => of::MathDelimited::of_kind(node).open().to_untyped(),
            by::MathDelimitedBody => of::MathDelimited::of_kind(node).body().to_untyped(),
            by::MathDelimitedClose => of::MathDelimited::of_kind(node).close().to_untyped(),
            by::MathAttachBase => of::MathAttach::of_kind(node).base().to_untyped(),
            by::MathAttachBottom => node_of_optional(of::MathAttach::of_kind(node).bottom()),
            by::MathAttachTop => node_of_optional(of::MathAttach::of_kind(node).top()),
            by::MathAttachPrimes => node_of_optional(of::MathAttach::of_kind(node).primes()),
            by::MathFracNum => of::MathFrac::of_kind(node).num().to_untyped(),
            by::MathFracDenom => of::MathFrac::of_kind(node).denom().to_untyped(),
            by::MathRootRadicand => of::MathRoot::of_kind(node).radicand().to_untyped(),
        }
    }
}
