//! The children in which markup and math look for their expressions. They can be read from both ends.
ghost use Rattle.std.specs.Prelude.{◌≡◌, ◌&&◌, IfSome, Some, length};
ghost use Rattle.std.specs.Iterator.{UpTo, YieldsFirstRef, YieldsLastRef, at_most, item_count};
ghost use Rattle.std.specs.Iterator.SizeHint.{IsWithinCount};
ghost use Rattle.std.specs.Option.{option_copied};
ghost use Rattle.typst_node.specs.Children.{children_in};
ghost use Rattle.typst_atoms.specs.KeptNodes.{kept_left, markup_nodes, nodes_ahead};
ghost use Rattle.typst_atoms.specs.Kinds.{is_kind};
ghost use Rattle.typst_atoms.specs.StmtEnds.{ends_in_stmt};
ghost use Rattle.typst_base.specs.declared.kind.SyntaxKind.TheVariants as kinds;
ghost use Rattle.typst_node.specs.Views.{node_kind};

use crate::nodes::children;
use std::iter::FusedIterator;
use typst_base::SyntaxKind;
use typst_node::SyntaxNode;

/// The children of a node in order. They can be read from both ends. They are either all children, or the children of
/// markup without each space directly after a statement.
///
/// Each step skips the nodes that are left out, so all steps together read the children once.
#[derive(Clone, Debug, Drop)]
pub struct KeptNodes<'a> {
    rest: &'a [SyntaxNode],
    /// Whether spaces directly after statements are left out.
    drops: bool,
    /// Whether spaces are left out and the node directly before the rest is a statement.
    behind_stmt: bool,
}

/// Whether the node is a space that is left out. `behind_stmt` says whether a statement is directly before it.
fn is_dropped(behind_stmt: bool, node: &SyntaxNode) -> bool
    ensures { result ≡ (behind_stmt && is_kind kinds.Space (node_kind node.now)) }
{
    behind_stmt && node.kind() == SyntaxKind::Space
}

/// Whether spaces after statements are left out and the last of these nodes is a statement.
#[tactic(auto, using(crate::proofs::KeptLists::ends_in_stmt_append))]
fn is_behind_stmt(drops: bool, behind_stmt: bool, nodes: &[SyntaxNode]) -> bool
    ensures { result ≡ ends_in_stmt drops behind_stmt nodes.now }
{
    match nodes.split_last() {
        Some((last, _)) => drops && last.kind().is_stmt(),
        None => behind_stmt,
    }
}

impl<'a> KeptNodes<'a> {
    /// All children of the node. There are none if there is no node.
    #[tactic(auto, using(crate::proofs::KeptLists::all_are_kept))]
    pub fn of_all(node: Option<&'a SyntaxNode>) -> Self
        ensures left { kept_left result ≡ children_in (option_copied node.entry) }
        ensures ahead { nodes_ahead result ≡ children_in (option_copied node.entry) }
    {
        KeptNodes {
            rest: children(node),
            drops: false,
            behind_stmt: false,
        }
    }

    /// The children of the node without each space directly after a statement. There are none if there is no node.
    #[tactic(auto, using(crate::proofs::KeptLists::kept_in_markup))]
    pub fn of_markup(node: Option<&'a SyntaxNode>) -> Self
        ensures left { kept_left result ≡ markup_nodes (children_in (option_copied node.entry)) }
        ensures ahead { nodes_ahead result ≡ children_in (option_copied node.entry) }
    {
        KeptNodes {
            rest: children(node),
            drops: true,
            behind_stmt: false,
        }
    }
}

impl<'a> Iterator for KeptNodes<'a> {
    type Item = &'a SyntaxNode;

    ghost next_gives = { YieldsFirstRef kept_left };

    ghost remaining = { item_count kept_left };

    fn next(&mut self) -> Option<&'a SyntaxNode> {
        while let [first, rest @ ..] = self.rest {
            let behind_stmt = self.behind_stmt;
            self.rest = rest;
            self.behind_stmt = self.drops && first.kind().is_stmt();
            if !is_dropped(behind_stmt, first) {
                return Some(first);
            }
        }
        None
    }

    /// At least 0, and at most the number of nodes that it hasn't passed yet.
    #[tactic(auto, using(crate::proofs::NoMore::no_more_kept))]
    fn size_hint(&self) -> (usize, Option<usize>)
        ensures lower { IsWithinCount result.0 (at_most (length (kept_left self.now))) }
        ensures upper { IfSome result.1 (UpTo (at_most (length (kept_left self.now)))) }
        ensures exact { result ≡ (0, Some (length (nodes_ahead self.now))) }
    {
        (0, Some(self.rest.len()))
    }
}

impl<'a> DoubleEndedIterator for KeptNodes<'a> {
    ghost next_back_gives = { YieldsLastRef kept_left };

    fn next_back(&mut self) -> Option<&'a SyntaxNode> {
        while let Some((last, rest)) = self.rest.split_last() {
            let behind_stmt = is_behind_stmt(self.drops, self.behind_stmt, rest);
            self.rest = rest;
            if !is_dropped(behind_stmt, last) {
                return Some(last);
            }
        }
        None
    }
}

impl<'a> FusedIterator for KeptNodes<'a> {}
