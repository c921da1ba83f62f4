//! Accessors that answer a text of the tree.
ghost use Rattle.std.specs.Prelude.{◌≡◌, Some};
ghost use Rattle.typst_accessors.specs.Accessors.{text_view};
ghost use Rattle.typst_accessors.specs.Texts.{IsText, unit_name};
ghost use Rattle.typst_node.specs.Views.{node_kind};

use crate::accessor::TextAccessor;
use typst_ast::views as of;
use typst_atoms::{MathTextKind, Unit};
use typst_node::SyntaxNode;

/// The text of a unit.
fn unit_text(unit: Unit) -> &'static str
    ensures { result.now ≡ unit_name unit }
{
    match unit {
        Unit::Pt => "pt",
        Unit::Mm => "mm",
        Unit::Cm => "cm",
        Unit::In => "in",
        Unit::Rad => "rad",
        Unit::Deg => "deg",
        Unit::Em => "em",
        Unit::Fr => "fr",
        Unit::Percent => "%",
    }
}

impl TextAccessor {
    /// The text that the accessor answers of a node of its view.
    pub(crate) fn read<'a>(self, node: &'a SyntaxNode) -> &'a str
        requires { node_kind node.now ≡ text_view self }
        ensures { IsText self (Some node.now) result.now }
    {
        match self {
            TextAccessor::LineCommentText => of::LineComment::of_kind(node).text(),
            TextAccessor::BlockCommentText => of::BlockComment::of_kind(node).text(),
            TextAccessor::TextGet => of::Text::of_kind(node).get(),
            TextAccessor::RawLangGet => of::RawLang::of_kind(node).get(),
            TextAccessor::LinkGet => of::Link::of_kind(node).get(),
            TextAccessor::IdentGet => of::Ident::of_kind(node).get(),
            TextAccessor::MathIdentGet => of::MathIdent::of_kind(node).get(),
            TextAccessor::LabelGet => of::Label::of_kind(node).get(),
            TextAccessor::MathTextGet => match of::MathText::of_kind(node).get() {
                MathTextKind::Grapheme(text) => text,
                MathTextKind::Number(text) => text,
            },
            TextAccessor::FloatGet => of::Float::of_kind(node).get(),
            TextAccessor::NumericNumber => of::Numeric::of_kind(node).get().0,
            TextAccessor::NumericUnit => unit_text(of::Numeric::of_kind(node).get().1),
            TextAccessor::RefTarget => of::Ref::of_kind(node).target(),
            TextAccessor::UnaryOp => of::Unary::of_kind(node).op().as_str(),
            TextAccessor::BinaryOp => of::Binary::of_kind(node).op().as_str(),
        }
    }
}
