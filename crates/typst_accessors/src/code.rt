//! Accessors of code that answer a node.
ghost use Rattle.std.specs.Prelude.{◌≡◌, Some};
ghost use Rattle.std.specs.Option.{option_copied};
ghost use Rattle.typst_accessors.specs.Code.{code_node};
ghost use Rattle.typst_accessors.specs.NodeAccessors.{code_view};
ghost use Rattle.typst_node.specs.Views.{node_kind};

use crate::node_accessor::CodeAccessor;
use crate::optional::node_of_optional;
use typst_ast::views as of;
use typst_node::{AstNode, SyntaxNode};

impl CodeAccessor {
    /// The node that the accessor answers of a node of its view, if the tree has it.
    pub(crate) fn read<'a>(self, node: &'a SyntaxNode) -> Option<&'a SyntaxNode>
        requires { node_kind node.now ≡ code_view self }
        ensures { option_copied result ≡ code_node self (Some node.now) }
    {
        use CodeAccessor as by;
        match self {
            by::CodeBlockBody => of::CodeBlock::of_kind(node).body().to_untyped(),
            by::ParenthesizedExpr => of::Parenthesized::of_kind(node).expr().to_untyped(),
            by::ParenthesizedPattern => of::Parenthesized::of_kind(node).pattern().to_untyped(),
            by::NamedName => of::Named::of_kind(node).name().to_untyped(),
            by::NamedExpr => of::Named::of_kind(node).expr().to_untyped(),
            by::NamedPattern => of::Named::of_kind(node).pattern().to_untyped(),
            by::KeyedKey => of::Keyed::of_kind(node).key().to_untyped(),
            by::KeyedExpr => of::Keyed::of_kind(node).expr().to_untyped(),
            by::SpreadExpr => of::Spread::of_kind(node).expr().to_untyped(),
            by::SpreadSinkIdent => node_of_optional(of::Spread::of_kind(node).sink_ident()),
            by::SpreadSinkExpr => node_of_optional(of::Spread::of_kind(node).sink_expr()),
            by::UnaryExpr => of::Unary::of_kind(node).expr().to_untyped(),
            by::BinaryLhs => of::Binary::of_kind(node).lhs().to_untyped(),
            by::BinaryRhs => of::Binary::of_kind(node).rhs().to_untyped(),
            by::FieldAccessTarget => of::FieldAccess::of_kind(node).target().to_untyped(),
            by::FieldAccessField => of::FieldAccess::of_kind(node).field().to_untyped(),
            by::FuncCallCallee => of::FuncCall::of_kind(node).callee().to_untyped(),
            by::FuncCallArgs => of::FuncCall::of_kind(node).args().to_untyped(),
            by::ClosureName => node_of_optional(of::Closure::of_kind(node).name()),
            by::ClosureParams => of::Closure::of_kind(node).params().to_untyped(),
            by::ClosureBody => of::Closure::of_kind(node).body().to_untyped(),
        }
    }
}
