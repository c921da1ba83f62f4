//! Accessors that answer several nodes, by their indices.
ghost use Rattle.std.specs.Prelude.{◌≡◌, map, slice_get, Some};
ghost use Rattle.std.specs.Option.{option_copied};
ghost use Rattle.typst_accessors.specs.Lists.{nodes_answered};
ghost use Rattle.typst_accessors.specs.NodeAccessors.{nodes_view};
ghost use Rattle.typst_ast.specs.Exprs.{exprs_left};
ghost use Rattle.typst_ast.specs.MathArgItem.{item_node};
ghost use Rattle.typst_ast.specs.MathArgs.{args_left, items_left};
ghost use Rattle.typst_node.specs.Items.{nodes_left};
ghost use Rattle.typst_node.specs.Views.{node_kind};

use crate::nodes_accessor::NodesAccessor;
use typst_ast::{Exprs, MathArgItem, MathArgItems, MathArgList, views as of};
use typst_node::{AstNode, Items, SyntaxNode};

/// The node of the item with an index.
fn nth_item<'a, T: AstNode<'a>>(items: Items<'a, T>, index: usize) -> Option<&'a SyntaxNode>
    ensures { option_copied result ≡ slice_get (nodes_left T.class items.entry) index }
{
    let mut items = items;
    match items.nth(index) {
        Some(view) => view.to_untyped(),
        None => None,
    }
}

/// The node of the expression or space with an index.
fn nth_expr<'a>(exprs: Exprs<'a>, index: usize) -> Option<&'a SyntaxNode>
    ensures { option_copied result ≡ slice_get (exprs_left exprs.entry) index }
{
    let mut exprs = exprs;
    match exprs.nth(index) {
        Some(expr) => expr.to_untyped(),
        None => None,
    }
}

/// The node of a part of the arguments of a call in math.
fn node_of_item<'a>(item: MathArgItem<'a>) -> Option<&'a SyntaxNode>
    ensures { option_copied result ≡ item_node item.entry }
{
    match item {
        MathArgItem::Arg(arg) => arg.to_untyped(),
        MathArgItem::Space(space) => space.to_untyped(),
        MathArgItem::Comma(_, node) => Some(node),
        MathArgItem::Semicolon(_, node) => Some(node),
        MathArgItem::LeftParen(_, node) => Some(node),
        MathArgItem::RightParen(_, node) => Some(node),
    }
}

/// The node of the part with an index of the arguments of a call in math.
fn nth_part<'a>(items: MathArgItems<'a>, index: usize) -> Option<&'a SyntaxNode>
    ensures { option_copied result ≡ slice_get (items_left items.entry) index }
{
    let mut items = items;
    match items.nth(index) {
        Some(item) => node_of_item(item),
        None => None,
    }
}

/// The node of the argument with an index of a call in math.
fn nth_arg<'a>(args: MathArgList<'a>, index: usize) -> Option<&'a SyntaxNode>
    ensures { option_copied result ≡ slice_get (map (λ p. p.0) (args_left args.entry)) index }
{
    let mut args = args;
    match args.nth(index) {
        Some(arg) => arg.arg.to_untyped(),
        None => None,
    }
}

impl NodesAccessor {
    /// The node with an index among those that the accessor answers of a node of its view, if there are as many.
    pub(crate) fn read<'a>(self, node: &'a SyntaxNode, index: usize) -> Option<&'a SyntaxNode>
        requires { node_kind node.now ≡ nodes_view self }
        ensures { option_copied result ≡ slice_get (nodes_answered self (Some node.now)) index }
    {
        use NodesAccessor as by;
        match self {
            by::MarkupExprs => nth_expr(of::Markup::of_kind(node).exprs(), index),
            by::MathExprs => nth_expr(of::Math::of_kind(node).exprs(), index),
            by::CodeExprs => nth_item(of::Code::of_kind(node).exprs(), index),
            by::RawLines => nth_item(of::Raw::of_kind(node).lines(), index),
            by::MathArgsContentItems => nth_part(
                of::MathArgs::of_kind(node).content_items(),
                index,
            ),
            by::MathArgsArgItems => nth_arg(of::MathArgs::of_kind(node).arg_items(), index),
            by::ArrayItems => nth_item(of::Array::of_kind(node).items(), index),
            by::DictItems => nth_item(of::Dict::of_kind(node).items(), index),
            by::DestructuringItems => nth_item(of::Destructuring::of_kind(node).items(), index),
            by::ArgsItems => nth_item(of::Args::of_kind(node).items(), index),
            by::ParamsChildren => nth_item(of::Params::of_kind(node).children(), index),
            by::ImportItemsIter => nth_item(of::ImportItems::of_kind(node).iter(), index),
            by::ImportItemPathIter => nth_item(of::ImportItemPath::of_kind(node).iter(), index),
        }
    }
}
