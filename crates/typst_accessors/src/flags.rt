//! Accessors that answer a boolean.
ghost use Rattle.std.specs.Prelude.{◌≡◌, Some};
ghost use Rattle.typst_accessors.specs.Accessors.{flag_view};
ghost use Rattle.typst_accessors.specs.Flags.{IsFlag};
ghost use Rattle.typst_node.specs.Views.{node_kind};

use crate::accessor::FlagAccessor;
use typst_ast::views::{Args, Binary, Bool, Equation, Math, MathText, SmartQuote};
use typst_atoms::{Assoc, MathTextKind};
use typst_node::SyntaxNode;

impl FlagAccessor {
    /// The boolean that the accessor answers of a node of its view.
    pub(crate) fn read(self, node: &SyntaxNode) -> bool
        requires { node_kind node.now ≡ flag_view self }
        ensures { IsFlag self (Some node.now) result }
    {
        match self {
            FlagAccessor::SmartQuoteDouble => SmartQuote::of_kind(node).double(),
            FlagAccessor::MathTextIsNumber => {
                matches!(MathText::of_kind(node).get(), MathTextKind::Number(_))
            }
            FlagAccessor::BoolGet => Bool::of_kind(node).get(),
            FlagAccessor::MathWasDeparenthesized => Math::of_kind(node).was_deparenthesized(),
            FlagAccessor::EquationBlock => Equation::of_kind(node).block(),
            FlagAccessor::BinaryIsRight => {
                matches!(Binary::of_kind(node).op().assoc(), Assoc::Right)
            }
            FlagAccessor::ArgsTrailingComma => Args::of_kind(node).trailing_comma(),
        }
    }
}
