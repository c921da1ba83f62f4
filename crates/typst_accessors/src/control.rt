//! Accessors of bindings, rules and control flow that answer a node.
ghost use Rattle.std.specs.Prelude.{◌≡◌, Some};
ghost use Rattle.std.specs.Option.{option_copied};
ghost use Rattle.typst_accessors.specs.Control.{control_node, let_target};
ghost use Rattle.typst_accessors.specs.NodeAccessors.{control_view};
ghost use Rattle.typst_ast.specs.View.{node_of};
ghost use Rattle.typst_node.specs.Views.{node_kind};

use crate::node_accessor::ControlAccessor;
use crate::optional::node_of_optional;
use typst_ast::{LetBindingKind, views as of};
use typst_node::{AstNode, SyntaxNode};

/// The node of a binding's target: the name of a closure, or else the pattern.
fn let_target<'a>(binding: of::LetBinding<'a>) -> Option<&'a SyntaxNode>
    ensures { option_copied result ≡ let_target (node_of binding.entry) }
{
    match binding.kind() {
        LetBindingKind::Normal(pattern) => pattern.to_untyped(),
        LetBindingKind::Closure(name) => name.to_untyped(),
    }
}

impl ControlAccessor {
    /// The node that the accessor answers of a node of its view, if the tree has it.
    pub(crate) fn read<'a>(self, node: &'a SyntaxNode) -> Option<&'a SyntaxNode>
        requires { node_kind node.now ≡ control_view self }
        ensures { option_copied result ≡ control_node self (Some node.now) }
    {
        use ControlAccessor as by;
        match self {
            by::LetBindingKind => let_target(of::LetBinding::of_kind(node)),
            by::LetBindingInit => node_of_optional(of::LetBinding::of_kind(node).init()),
            by::DestructAssignmentPattern => {
                of::DestructAssignment::of_kind(node).pattern().to_untyped()
            }
            by::DestructAssignmentValue => {
                of::DestructAssignment::of_kind(node).value().to_untyped()
            }
            by::SetRuleTarget => of::SetRule::of_kind(node).target().to_untyped(),
            by::SetRuleArgs => of::SetRule::of_kind(node).args().to_untyped(),
            by::SetRuleCondition => node_of_optional(of::SetRule::of_kind(node).condition()),
            by::ShowRuleSelector => node_of_optional(of::ShowRule::of_kind(node).selector()),
            by::ShowRuleTransform => of::ShowRule::of_kind(node).transform().to_untyped(),
            by::ContextualBody => of::Contextual::of_kind(node).body().to_untyped(),
            by::ConditionalCondition => of::Conditional::of_kind(node).condition().to_untyped(),
            by::ConditionalIfBody => of::Conditional::of_kind(node).if_body().to_untyped(),
            by::ConditionalElseBody => node_of_optional(of::Conditional::of_kind(node).else_body()),
            by::WhileLoopCondition => of::WhileLoop::of_kind(node).condition().to_untyped(),
            by::WhileLoopBody => of::WhileLoop::of_kind(node).body().to_untyped(),
            by::ForLoopPattern => of::ForLoop::of_kind(node).pattern().to_untyped(),
            by::ForLoopIterable => of::ForLoop::of_kind(node).iterable().to_untyped(),
            by::ForLoopBody => of::ForLoop::of_kind(node).body().to_untyped(),
            by::FuncReturnBody => node_of_optional(of::FuncReturn::of_kind(node).body()),
        }
    }
}
