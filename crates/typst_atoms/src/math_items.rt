//! The children that are items of arguments in math. They can be read from both ends.
ghost use Rattle.std.specs.Prelude.{◌≡◌, ◌&&◌, not, IfSome, Some, length};
ghost use Rattle.std.specs.Iterator.{UpTo, YieldsFirstRef, YieldsLastRef, at_most, item_count};
ghost use Rattle.std.specs.Iterator.SizeHint.{IsWithinCount};
ghost use Rattle.std.specs.Option.{option_copied};
ghost use Rattle.typst_node.specs.Children.{children_in};
ghost use Rattle.typst_atoms.specs.Classes.{is_arg_kind};
ghost use Rattle.typst_atoms.specs.HashEnds.{ends_behind_hash};
ghost use Rattle.typst_atoms.specs.Kinds.{is_kind};
ghost use Rattle.typst_atoms.specs.MathItems.{content_items, ends_in_semicolon, is_behind_hash, is_item, items_in, items_left, nodes_ahead};
ghost use Rattle.typst_base.specs.declared.kind.SyntaxKind.TheVariants as kinds;
ghost use Rattle.typst_node.specs.Views.{node_kind};

use crate::classes::is_arg;
use crate::nodes::children;
use std::iter::FusedIterator;
use typst_base::SyntaxKind;
use typst_node::SyntaxNode;

/// The children of a call's arguments in math that are items, in order. They can be read from both ends. The items are
/// arguments, spaces, commas, parens and semicolons, except a semicolon that only ends an expression after a hash.
///
/// All steps together read the children at most twice.
#[derive(Clone, Debug, Drop)]
pub struct MathItems<'a> {
    rest: &'a [SyntaxNode],
    /// Whether the nearest node before the rest that is not an argument is a hash.
    behind_hash: bool,
}

/// Whether the node is an argument.
fn is_arg_node(node: &SyntaxNode) -> bool
    ensures { result ≡ is_arg_kind (node_kind node.now) }
{
    is_arg(node.kind())
}

/// Whether the node is a hash.
fn is_hash(node: &SyntaxNode) -> bool
    ensures { result ≡ is_kind kinds.Hash (node_kind node.now) }
{
    node.kind() == SyntaxKind::Hash
}

/// Whether the last of the nodes up to `node` that is not an argument is a hash. `behind_hash` says this for the nodes
/// before `node`, and `is_arg` says whether `node` is an argument.
fn is_behind_hash(behind_hash: bool, is_arg: bool, node: &SyntaxNode) -> bool
    requires { is_arg ≡ is_arg_kind (node_kind node.now) }
    ensures { result ≡ is_behind_hash behind_hash node.now }
{
    if is_arg { behind_hash } else { is_hash(node) }
}

/// Whether the last of these nodes that is not an argument is a hash. `behind_hash` says this for the nodes before
/// them.
fn ends_behind_hash(behind_hash: bool, nodes: &[SyntaxNode]) -> bool
    ensures { result ≡ ends_behind_hash behind_hash nodes.now }
{
    match nodes.iter().rev().find(|node| !is_arg_node(node)) {
        Some(last) => is_hash(last),
        None => behind_hash,
    }
}

/// Whether the node is an item after the nodes `before`. `behind_hash` says whether the nearest node before these that
/// is not an argument is a hash.
fn is_item(behind_hash: bool, before: &[SyntaxNode], node: &SyntaxNode) -> bool
    ensures { result ≡ is_item (ends_behind_hash behind_hash before.now) (node_kind node.now) }
{
    match node.kind() {
        SyntaxKind::Semicolon => !ends_behind_hash(behind_hash, before),
        SyntaxKind::Space | SyntaxKind::Comma | SyntaxKind::LeftParen | SyntaxKind::RightParen => {
            true
        }
        kind => is_arg(kind),
    }
}

/// The same as `is_item` for the first node that is left. `is_arg` says whether it is an argument.
fn is_first_item(behind_hash: bool, is_arg: bool, node: &SyntaxNode) -> bool
    requires { is_arg ≡ is_arg_kind (node_kind node.now) }
    ensures { result ≡ is_item behind_hash (node_kind node.now) }
{
    match node.kind() {
        SyntaxKind::Semicolon => !behind_hash,
        SyntaxKind::Space | SyntaxKind::Comma | SyntaxKind::LeftParen | SyntaxKind::RightParen => {
            true
        }
        _ => is_arg,
    }
}

/// Whether the node is a semicolon that is an item.
fn is_item_semicolon(behind_hash: bool, node: &SyntaxNode) -> bool
    ensures { result ≡ (is_kind kinds.Semicolon (node_kind node.now) && not behind_hash) }
{
    node.kind() == SyntaxKind::Semicolon && !behind_hash
}

/// Whether one of these nodes before the next argument is a semicolon that is an item. `behind_hash` says whether the
/// nearest node before them that is not an argument is a hash.
fn ends_in_semicolon(mut behind_hash: bool, nodes: &[SyntaxNode]) -> bool
    ensures { result ≡ ends_in_semicolon (items_in behind_hash nodes.now) }
{
    for node in nodes {
        if is_arg_node(node) {
            return false;
        }
        if is_item_semicolon(behind_hash, node) {
            return true;
        }
        behind_hash = is_hash(node);
    }
    false
}

impl<'a> MathItems<'a> {
    /// The items among the children. There are none if there is no node.
    #[tactic(auto, using(crate::proofs::ItemLists::items_in_content))]
    pub fn new(node: Option<&'a SyntaxNode>) -> Self
        ensures left { items_left result ≡ content_items (children_in (option_copied node.entry)) }
        ensures ahead { nodes_ahead result ≡ children_in (option_copied node.entry) }
    {
        MathItems {
            rest: children(node),
            behind_hash: false,
        }
    }

    /// Whether one of the items that are left before the next argument is a semicolon. It reads the children up to that
    /// argument.
    pub fn ends_in_semicolon(&self) -> bool
        ensures { result ≡ ends_in_semicolon (items_left self.now) }
    {
        ends_in_semicolon(self.behind_hash, self.rest)
    }
}

impl<'a> Iterator for MathItems<'a> {
    type Item = &'a SyntaxNode;

    ghost next_gives = { YieldsFirstRef items_left };

    ghost remaining = { item_count items_left };

    fn next(&mut self) -> Option<&'a SyntaxNode> {
        while let [first, rest @ ..] = self.rest {
            let behind_hash = self.behind_hash;
            let is_arg = is_arg_node(first);
            self.rest = rest;
            self.behind_hash = is_behind_hash(behind_hash, is_arg, first);
            if is_first_item(behind_hash, is_arg, first) {
                return Some(first);
            }
        }
        None
    }

    /// At least 0, and at most the number of nodes that it hasn't passed yet.
    #[tactic(auto, using(crate::proofs::NoMore::no_more_items))]
    fn size_hint(&self) -> (usize, Option<usize>)
        ensures lower { IsWithinCount result.0 (at_most (length (items_left self.now))) }
        ensures upper { IfSome result.1 (UpTo (at_most (length (items_left self.now)))) }
        ensures exact { result ≡ (0, Some (length (nodes_ahead self.now))) }
    {
        (0, Some(self.rest.len()))
    }
}

impl<'a> DoubleEndedIterator for MathItems<'a> {
    ghost next_back_gives = { YieldsLastRef items_left };

    fn next_back(&mut self) -> Option<&'a SyntaxNode> {
        while let Some((last, rest)) = self.rest.split_last() {
            self.rest = rest;
            if is_item(self.behind_hash, rest, last) {
                return Some(last);
            }
        }
        None
    }
}

impl<'a> FusedIterator for MathItems<'a> {}
