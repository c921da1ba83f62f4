//! Edits of numbered trees that answer a `Result`.
ghost use Rattle.std.specs.Prelude.{◌≡◌, ◌+◌, ◌^◌, ◌<◌, ◌↔◌, [], length, IfOk, OnErr, IsErrOf, IsTrue};
ghost use Rattle.typst_node.specs.Numbered.{IsNumbered, IsNumberedFor};
ghost use Rattle.typst_node.specs.Numbering.{IsTooShort};
ghost use Rattle.typst_node.specs.Edit.{edit_of};
ghost use Rattle.typst_node.specs.PlainEdit.{FitsInner};
ghost use Rattle.typst_node.specs.Updated.{IsUpdated};
ghost use Rattle.typst_node.specs.declared.node.replace.ReplaceError.TheVariants.{Overflow, Unnumberable};
ghost use Rattle.typst_tree.specs.Edits.{IsEdit, IsMisfit, IsMisfitBelow, IsReconciliation};

use crate::numbered::NumberedTree;
use std::alloc::Global;
use std::ops::Range;
use thiserror::Error;
use typst_linked::node_at;
use typst_node::{Reconciled, Renumbered, ReplaceError, SyntaxNode, Updated};

/// Why a tree wasn't edited. Nothing has changed, and the new nodes are dropped.
#[derive(Clone, Copy, Debug, PartialEq, Eq, Error)]
pub enum EditError {
    /// A child index of the path is past the children of its node.
    #[error("the path leads to no node: at depth {depth} child {index} is wanted, but the node has {children} children")]
    NoNode {
        /// How many child indices lead to the node without this child.
        depth: usize,
        /// The child index that the path has there.
        index: usize,
        /// How many children that node has.
        children: usize,
    },
    /// The path leads to a leaf or an error, which has no children to replace.
    #[error("the path leads to a leaf, which has no children to replace")]
    Leaf,
    /// The range of child indices isn't one of the node's children.
    #[error("the range {start}..{end} isn't one of the node's {children} children")]
    Range {
        /// Where the range begins.
        start: usize,
        /// Where the range ends.
        end: usize,
        /// How many children the node has.
        children: usize,
    },
    /// The edit fits, but it was refused.
    #[error("{0}")]
    Refused(ReplaceError),
}

/// # Edits
///
/// Each takes as long as [`SyntaxNode::replace_at`]. After an error nothing has changed.
impl NumberedTree {
    /// Replaces a range of the children of an inner node, and tells which children were numbered anew. The path leads
    /// to the node: child indices from the root down.
    pub fn replace(
        &mut self,
        alloc: Global,
        path: &[usize],
        range: Range<usize>,
        nodes: Vec<SyntaxNode>,
    ) -> Result<Renumbered, EditError>
        ensures edit { IsEdit (edit_of path.now range nodes.items) self.old result self.new }
        ensures numbered { IsNumberedFor self.old.label.span.file self.new }
    {
        edit(alloc, &mut self.root, path, range, nodes)
    }

    /// Inserts nodes before the child with this index, or after the last child if the index is the number of children.
    pub fn insert(
        &mut self,
        alloc: Global,
        path: &[usize],
        index: usize,
        nodes: Vec<SyntaxNode>,
    ) -> Result<Renumbered, EditError>
        ensures edit { IsEdit (record { path = path.now; from = index; to = index; others = nodes.items })
            self.old result self.new }
        ensures numbered { IsNumberedFor self.old.label.span.file self.new }
    {
        self.replace(alloc, path, index..index, nodes)
    }

    /// Removes a range of the children. It asks for no memory.
    pub fn remove(
        &mut self,
        alloc: Global,
        path: &[usize],
        range: Range<usize>,
    ) -> Result<Renumbered, EditError>
        ensures edit { IsEdit (edit_of path.now range []) self.old result self.new }
        ensures numbered { IsNumberedFor self.old.label.span.file self.new }
    {
        self.replace(alloc, path, range, Vec::new(alloc))
    }
}

/// # Edits after which nodes keep their numbers
///
/// Each takes as long as [`SyntaxNode::reconcile_at`]. After an error nothing has changed.
impl NumberedTree {
    /// Replaces a range of the children of an inner node as far down as it can, and tells what changed and where each
    /// node is now. The path leads to the node: child indices from the root down.
    ///
    /// The plain tree is then the one that [`NumberedTree::replace`] makes. The nodes that go on keep their numbers, as
    /// [`SyntaxNode::reconcile_at`] says.
    pub fn reconcile(
        &mut self,
        alloc: Global,
        path: &[usize],
        range: Range<usize>,
        nodes: Vec<SyntaxNode>,
    ) -> Result<Reconciled, EditError>
        ensures reconciliation { IsReconciliation (edit_of path.now range nodes.items) self.old result self.new }
        ensures numbered { IsNumberedFor self.old.label.span.file self.new }
    {
        reconcile(alloc, &mut self.root, path, range, nodes)
    }

    /// Puts a whole tree that any parser made in place of this one. All nodes that go on keep their numbers, as
    /// [`SyntaxNode::update`] says. So a parser that parses the whole text anew after each edit gets numbers that last.
    ///
    /// It compares the trees from both ends up to the first difference, and goes down from there.
    pub fn update(&mut self, alloc: Global, root: SyntaxNode) -> Result<Updated, ReplaceError>
        ensures updated { IfOk result (λ done. IsUpdated self.old root done self.new) }
        ensures unnumberable { IsErrOf result Unnumberable ↔ IsTooShort root 2 (2 ^ 47) }
        ensures overflow { ¬ (IsErrOf result Overflow) }
        ensures err { OnErr result (self.new ≡ self.old) }
        ensures numbered { IsNumberedFor self.old.label.span.file self.new }
    {
        self.root.update(alloc, root)
    }
}

/// Replaces a range of the children of the node at a path.
fn edit(
    alloc: Global,
    root: &mut SyntaxNode,
    path: &[usize],
    range: Range<usize>,
    nodes: Vec<SyntaxNode>,
) -> Result<Renumbered, EditError>
    requires { IsNumbered root.old }
    ensures edit { IsEdit (edit_of path.now range nodes.items) root.old result root.new }
    ensures numbered { IsNumberedFor root.old.label.span.file root.new }
{
    let (start, end) = (range.start, range.end);
    match root.try_replace_at(alloc, path, range, nodes) {
        Some(Ok(renumbered)) => Ok(renumbered),
        Some(Err(error)) => Err(EditError::Refused(error)),
        None => Err(misfit(root, path, start..end)),
    }
}

/// Whether a path leads to an inner node, and a range is one of its children.
fn fits(root: &SyntaxNode, path: &[usize], range: &Range<usize>) -> bool
    ensures { IsTrue result ↔ FitsInner path.now range.now.start range.now.end root.now }
{
    match node_at(root, path) {
        Some(node) => {
            node.is_inner() && range.start <= range.end && range.end <= node.child_slice().len()
        }
        None => false,
    }
}

/// Replaces a range of the children of the node at a path, as far down as it can.
fn reconcile(
    alloc: Global,
    root: &mut SyntaxNode,
    path: &[usize],
    range: Range<usize>,
    nodes: Vec<SyntaxNode>,
) -> Result<Reconciled, EditError>
    requires { IsNumbered root.old }
    ensures reconciliation { IsReconciliation (edit_of path.now range nodes.items) root.old result root.new }
    ensures numbered { IsNumberedFor root.old.label.span.file root.new }
{
    if fits(root, path, &range) {
        match root.reconcile_at(alloc, path, range, nodes) {
            Ok(done) => Ok(done),
            Err(error) => Err(EditError::Refused(error)),
        }
    } else {
        Err(misfit(root, path, range))
    }
}

/// Why an edit doesn't fit.
fn misfit(root: &SyntaxNode, path: &[usize], range: Range<usize>) -> EditError
    requires { ¬ (FitsInner path.now range.start range.end root.now) }
    ensures { IsMisfit path.now range.start range.end root.now result }
{
    misfit_below(root, 0, path, range)
}

/// The same, for the part of a path below a node that this many child indices lead to.
fn misfit_below(node: &SyntaxNode, depth: usize, path: &[usize], range: Range<usize>) -> EditError
    requires misfit { ¬ (FitsInner path.now range.start range.end node.now) }
    requires depth { depth + length path.now < 2 ^ 64 }
    ensures { IsMisfitBelow depth path.now range.start range.end node.now result }
{
    let children = node.child_slice();
    match path.split_first() {
        Some((index, rest)) => {
            if *index < children.len() {
                return misfit_below(&children[*index], depth + 1, rest, range);
            }
            EditError::NoNode {
                depth,
                index: *index,
                children: children.len(),
            }
        }
        None if node.is_inner() => EditError::Range {
            start: range.start,
            end: range.end,
            children: children.len(),
        },
        None => EditError::Leaf,
    }
}
