//! The arguments of a function call in math.
ghost use Rattle.std.specs.Prelude.{◌≡◌, true, false, MatchOption, IfSome, Some, length};
ghost use Rattle.std.specs.Iterator.{UpTo, YieldsFirstBy, YieldsLastBy, at_most, item_count};
ghost use Rattle.std.specs.Iterator.SizeHint.{IsWithinCount};
ghost use Rattle.typst_ast.specs.Arg.{arg_node, arg_kind, IsProperArgOf};
ghost use Rattle.typst_ast.specs.MathArgItem.{item_node, item_kind, is_proper_item, told_arg};
ghost use Rattle.typst_ast.specs.MathArgs.{nodes_ahead, nodes_ahead_of_args, items_left, told_items_left, args_left, told_args_left};
ghost use Rattle.typst_ast.specs.View.{node_of};
ghost use Rattle.typst_node.specs.Children.{children_in};
ghost use Rattle.typst_atoms.specs.Classes.{is_arg_kind};
ghost use Rattle.typst_atoms.specs.MathItems.{args_in, content_items, is_item};
ghost use Rattle.typst_node.specs.Views.{node_kind, told, told_of};

use crate::arg::Arg;
use crate::views as of;
use std::hash::Hash;
use std::iter::FusedIterator;
use typst_atoms::MathItems;
use typst_base::SyntaxKind;
use typst_node::{AstNode, SyntaxNode};

/// A part of the arguments of a function call in math.
#[derive(Clone, Copy, Debug, Hash)]
pub enum MathArgItem<'a> {
    /// An argument.
    Arg(Arg<'a>),
    /// A space.
    Space(of::Space<'a>),
    /// A comma, with its character and its node.
    Comma(char, &'a SyntaxNode),
    /// A semicolon that ends an argument, with its character and its node.
    Semicolon(char, &'a SyntaxNode),
    /// An opening paren, with its character and its node.
    LeftParen(char, &'a SyntaxNode),
    /// A closing paren, with its character and its node.
    RightParen(char, &'a SyntaxNode),
}

/// Two items are equal if they are of one variant, with equal arguments, or with the same character and the same tree.
/// Spans and bounds count. A comparison takes time at most in proportion to the smaller tree, and no memory.
impl<'a> PartialEq for MathArgItem<'a> {
    ghost use Rattle.std.specs.Prelude.{◌≡◌, ◌↔◌, IsTrue};
    ghost use Rattle.typst_ast.specs.EqualViews.{AreSameMathArgItems, math_arg_items_eq, math_arg_items_laws};

    ghost eq = { math_arg_items_eq };

    ghost laws = { math_arg_items_laws };

    fn eq(&self, other: &Self) -> bool
        ensures is { result ≡ math_arg_items_eq self.now other.now }
        ensures same { IsTrue result ↔ AreSameMathArgItems self.now other.now }
    {
        match (self, other) {
            (MathArgItem::Arg(view), MathArgItem::Arg(other)) => *view == *other,
            (MathArgItem::Space(view), MathArgItem::Space(other)) => *view == *other,
            (MathArgItem::Comma(mark, node), MathArgItem::Comma(other_mark, other)) => {
                mark == other_mark && **node == **other
            }
            (MathArgItem::Semicolon(mark, node), MathArgItem::Semicolon(other_mark, other)) => {
                mark == other_mark && **node == **other
            }
            (MathArgItem::LeftParen(mark, node), MathArgItem::LeftParen(other_mark, other)) => {
                mark == other_mark && **node == **other
            }
            (MathArgItem::RightParen(mark, node), MathArgItem::RightParen(other_mark, other)) => {
                mark == other_mark && **node == **other
            }
            _ => false,
        }
    }
}

impl<'a> Eq for MathArgItem<'a> {
    ghost use Rattle.typst_ast.specs.EqualViews.{math_arg_items_equivalence};

    ghost laws = { math_arg_items_equivalence };
}

#[derived]
impl<'a> Hash for MathArgItem<'a> {
    ghost use Rattle.typst_ast.specs.EqualHashes.{math_arg_items_alike};

    ghost respects_eq = { math_arg_items_alike };
}

/// An argument of a function call in math.
#[derive(Clone, Copy, Debug, Hash)]
pub struct MathArg<'a> {
    /// The argument.
    pub arg: Arg<'a>,
    /// Whether a semicolon comes after it before the next argument.
    pub ends_in_semicolon: bool,
}

/// Two arguments are equal if their parts are equal, and both or neither end in a semicolon. Spans and bounds count. A
/// comparison takes time at most in proportion to the smaller tree, and no memory.
impl<'a> PartialEq for MathArg<'a> {
    ghost use Rattle.std.specs.Prelude.{◌≡◌, ◌↔◌, IsTrue};
    ghost use Rattle.typst_ast.specs.EqualViews.{AreSameMathArgs, math_args_eq, math_args_laws};

    ghost eq = { math_args_eq };

    ghost laws = { math_args_laws };

    fn eq(&self, other: &Self) -> bool
        ensures is { result ≡ math_args_eq self.now other.now }
        ensures same { IsTrue result ↔ AreSameMathArgs self.now other.now }
    {
        self.arg == other.arg && self.ends_in_semicolon == other.ends_in_semicolon
    }
}

impl<'a> Eq for MathArg<'a> {
    ghost use Rattle.typst_ast.specs.EqualViews.{math_args_equivalence};

    ghost laws = { math_args_equivalence };
}

#[derived]
impl<'a> Hash for MathArg<'a> {
    ghost use Rattle.typst_ast.specs.EqualHashes.{math_args_alike};

    ghost respects_eq = { math_args_alike };
}

/// The item of a node, if a semicolon counts as an item.
fn item_of<'a>(node: &'a SyntaxNode) -> Option<MathArgItem<'a>>
    ensures { MatchOption result
        (is_item false (node_kind node.now) ≡ false)
        (λ i. told item_node item_kind is_proper_item i ≡ told_of node.now) }
{
    match node.kind() {
        SyntaxKind::Semicolon => Some(MathArgItem::Semicolon(';', node)),
        SyntaxKind::Space => Some(MathArgItem::Space(of::Space::of_kind(node))),
        SyntaxKind::Comma => Some(MathArgItem::Comma(',', node)),
        SyntaxKind::LeftParen => Some(MathArgItem::LeftParen('(', node)),
        SyntaxKind::RightParen => Some(MathArgItem::RightParen(')', node)),
        _ => Some(MathArgItem::Arg(Arg::from_untyped(node)?)),
    }
}

/// The items of the arguments of a function call in math, in order. They can be read from both ends.
///
/// All steps together read the children at most twice.
#[derive(Clone, Debug, Drop)]
pub struct MathArgItems<'a> {
    nodes: MathItems<'a>,
}

impl<'a> Iterator for MathArgItems<'a> {
    type Item = MathArgItem<'a>;

    ghost next_gives = { YieldsFirstBy (told item_node item_kind is_proper_item) told_items_left };

    ghost remaining = { item_count items_left };

    fn next(&mut self) -> Option<MathArgItem<'a>> {
        item_of(self.nodes.next()?)
    }

    /// At least 0, and at most the number of nodes that it hasn't passed yet.
    fn size_hint(&self) -> (usize, Option<usize>)
        ensures lower { IsWithinCount result.0 (at_most (length (items_left self.now))) }
        ensures upper { IfSome result.1 (UpTo (at_most (length (items_left self.now)))) }
        ensures exact { result ≡ (0, Some (length (nodes_ahead self.now))) }
    {
        self.nodes.size_hint()
    }
}

impl<'a> DoubleEndedIterator for MathArgItems<'a> {
    ghost next_back_gives = { YieldsLastBy (told item_node item_kind is_proper_item) told_items_left };

    fn next_back(&mut self) -> Option<MathArgItem<'a>> {
        item_of(self.nodes.next_back()?)
    }
}

impl<'a> FusedIterator for MathArgItems<'a> {}

/// The arguments of a function call in math, in order. They can be read from the beginning.
#[derive(Clone, Debug, Drop)]
pub struct MathArgList<'a> {
    nodes: MathItems<'a>,
}

/// The argument, if the node is one.
fn cast_arg<'a>(node: &'a SyntaxNode) -> Option<Arg<'a>>
    ensures { MatchOption result (is_arg_kind (node_kind node.now) ≡ false) (IsProperArgOf node.now) }
{
    Arg::from_untyped(node)
}

impl<'a> Iterator for MathArgList<'a> {
    type Item = MathArg<'a>;

    ghost next_gives = { YieldsFirstBy told_arg told_args_left };

    ghost remaining = { item_count args_left };

    fn next(&mut self) -> Option<MathArg<'a>> {
        let arg = self.nodes.find_map(cast_arg)?;
        Some(MathArg {
            arg,
            ends_in_semicolon: self.nodes.ends_in_semicolon(),
        })
    }

    /// At least 0, and at most the number of nodes that it hasn't passed yet.
    #[tactic(auto, using(typst_atoms::proofs::NoMore::no_more_args))]
    fn size_hint(&self) -> (usize, Option<usize>)
        ensures lower { IsWithinCount result.0 (at_most (length (args_left self.now))) }
        ensures upper { IfSome result.1 (UpTo (at_most (length (args_left self.now)))) }
        ensures exact { result ≡ (0, Some (length (nodes_ahead_of_args self.now))) }
    {
        self.nodes.size_hint()
    }
}

impl<'a> FusedIterator for MathArgList<'a> {}

impl<'a> of::MathArgs<'a> {
    /// The parts of the arguments in order: arguments, spaces, commas, parens and semicolons. They can be read from
    /// both ends. A semicolon that only ends an expression after a hash is left out.
    pub fn content_items(self) -> MathArgItems<'a>
        ensures left { items_left result ≡ content_items (children_in (node_of self.entry)) }
        ensures ahead { nodes_ahead result ≡ children_in (node_of self.entry) }
    {
        MathArgItems {
            nodes: MathItems::new(self.node()),
        }
    }

    /// The arguments in order, each with whether a semicolon ends it. They can be read from the beginning.
    pub fn arg_items(self) -> MathArgList<'a>
        ensures left { args_left result ≡ args_in (content_items (children_in (node_of self.entry))) }
        ensures ahead { nodes_ahead_of_args result ≡ children_in (node_of self.entry) }
    {
        MathArgList {
            nodes: MathItems::new(self.node()),
        }
    }
}
