//! Accessors that answer a character.
ghost use Rattle.std.specs.Prelude.{◌≡◌, Some};
ghost use Rattle.typst_accessors.specs.Accessors.{character_view};
ghost use Rattle.typst_accessors.specs.Characters.{character_of};
ghost use Rattle.typst_node.specs.Views.{node_kind};

use crate::accessor::CharacterAccessor;
use typst_ast::views::{Escape, MathShorthand, Shorthand};
use typst_node::SyntaxNode;

impl CharacterAccessor {
    /// The character that the accessor answers of a node of its view.
    pub(crate) fn read(self, node: &SyntaxNode) -> char
        requires { node_kind node.now ≡ character_view self }
        ensures { result ≡ character_of self (Some node.now) }
    {
        match self {
            CharacterAccessor::EscapeGet => Escape::of_kind(node).get(),
            CharacterAccessor::ShorthandGet => Shorthand::of_kind(node).get(),
            CharacterAccessor::MathShorthandGet => MathShorthand::of_kind(node).get(),
        }
    }
}
