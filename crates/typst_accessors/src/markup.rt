//! Accessors of markup that answer a node.
ghost use Rattle.std.specs.Prelude.{◌≡◌, Some};
ghost use Rattle.std.specs.Option.{option_copied};
ghost use Rattle.typst_accessors.specs.Markup.{markup_node};
ghost use Rattle.typst_accessors.specs.NodeAccessors.{markup_view};
ghost use Rattle.typst_node.specs.Views.{node_kind};

use crate::node_accessor::MarkupAccessor;
use crate::optional::node_of_optional;
use typst_ast::views as of;
use typst_node::{AstNode, SyntaxNode};

impl MarkupAccessor {
    /// The node that the accessor answers of a node of its view, if the tree has it.
    pub(crate) fn read<'a>(self, node: &'a SyntaxNode) -> Option<&'a SyntaxNode>
        requires { node_kind node.now ≡ markup_view self }
        ensures { option_copied result ≡ markup_node self (Some node.now) }
    {
        use MarkupAccessor as by;
        match self {
            by::StrongBody => of::Strong::of_kind(node).body().to_untyped(),
            by::EmphBody => of::Emph::of_kind(node).body().to_untyped(),
            by::ContentBlockBody => of::ContentBlock::of_kind(node).body().to_untyped(),
            by::ListItemBody => of::ListItem::of_kind(node).body().to_untyped(),
            by::EnumItemBody => of::EnumItem::of_kind(node).body().to_untyped(),
            by::TermItemTerm => of::TermItem::of_kind(node).term().to_untyped(),
            by::TermItemDescription => of::TermItem::of_kind(node).description().to_untyped(),
            by::HeadingBody => of::Heading::of_kind(node).body().to_untyped(),
            by::RefSupplement => node_of_optional(of::Ref::of_kind(node).supplement()),
            by::RawLang => node_of_optional(of::Raw::of_kind(node).lang()),
        }
    }
}
