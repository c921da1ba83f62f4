//! The narrowest place of an edit: the node furthest down that holds all that changes.
ghost use Rattle.std.specs.Prelude.{[], ◌∷◌, ◌++◌, ◌≡◌, ◌+◌, ◌^◌, ◌<◌, ◌≤◌, ◌↔◌, length, OnOk, IfOk, IsTrue};
ghost use Rattle.typst_node.specs.Tree.{trees};
ghost use Rattle.typst_node.specs.Paths.{IsPath, tree_at};
ghost use Rattle.typst_node.specs.Edit.{Fits};
ghost use Rattle.typst_node.specs.EditBelow.{child_of};
ghost use Rattle.typst_node.specs.Narrower.{GoesOnAs, EndsOnAs, HasNumbersFor};
ghost use Rattle.typst_node.specs.Narrowing.{edit_in, edit_along, steps_within, ArePaired, IsEmptyTrail, IsNarrowedTo, IsTraced, LeadDown, LeadOn, RaisesBy};

use crate::node::spanless::{all_alike, same_kind, same_warnings};
use crate::node::{Node, SyntaxNode};
use std::alloc::{AllocError, Global};
use std::mem;

/// Other nodes in place of some children of the node that a path leads to.
#[derive(Drop)]
pub(super) struct PathEdit {
    pub(super) path: Vec<usize>,
    // The indices of the children that go.
    pub(super) from: usize,
    pub(super) to: usize,
    // The nodes that come.
    pub(super) others: Vec<SyntaxNode>,
}

/// The way from some children and the nodes in their place down to what changes. On it are inner nodes that go on, each
/// the only one that changes beside its siblings.
#[derive(Drop)]
pub(super) struct Trail {
    /// The indices of these nodes, from the lowest one up. The index of the highest one is among the children in the
    /// range.
    pub(super) steps: Vec<usize>,
    /// The index of the leaf or error that goes on below them, if one does.
    pub(super) leaf: Option<usize>,
}

/// The only child that changes, by its index, and the only node that comes in its place, by its index among the others.
#[derive(Clone, Copy)]
pub(super) struct Pair {
    pub(super) child: usize,
    pub(super) other: usize,
}

/// A child and the node in its place.
#[derive(Clone, Copy)]
enum Paired {
    /// They are the same apart from spans and bounds.
    Alike,
    /// The child is an inner node and goes on.
    GoesOn,
    /// The child is a leaf or an error and goes on.
    Ends,
    /// The child doesn't go on.
    Other,
}

/// # What goes on
impl SyntaxNode {
    /// The node that a path of child indices leads to.
    pub(super) fn node_at(&self, path: &[usize]) -> &SyntaxNode
        requires { IsPath path.now self.now }
        ensures { result.now ≡ tree_at path.now self.now }
    {
        match path.split_first() {
            None => self,
            Some((index, rest)) => self.child_slice()[*index].node_at(rest),
        }
    }

    /// Whether this inner node goes on as the other one.
    #[tactic(auto, using(crate::proofs::OnlyChange::shown_same, crate::proofs::OnlyChange::same_shown))]
    pub(super) fn goes_on_as(&self, other: &SyntaxNode) -> bool
        ensures { IsTrue result ↔ GoesOnAs self.now other.now }
    {
        self.is_inner()
            && other.is_inner()
            && same_kind(self.kind(), other.kind())
            && same_warnings(self.node.warnings(), other.node.warnings())
    }

    /// Whether this leaf or error goes on as the other one.
    #[tactic(auto, using(crate::proofs::OnlyChange::childless))]
    pub(super) fn ends_on_as(&self, other: &SyntaxNode) -> bool
        ensures { IsTrue result ↔ EndsOnAs self.now other.now }
    {
        self.child_slice().is_empty()
            && other.child_slice().is_empty()
            && !self.is_inner()
            && !other.is_inner()
            && same_kind(self.kind(), other.kind())
    }

    /// Whether the numbers of this node suffice for the other one.
    pub(super) fn has_numbers_for(&self, other: &SyntaxNode) -> bool
        ensures { IsTrue result ↔ HasNumbersFor self.now other.now }
    {
        (other.descendants() as u64) < self.upper().saturating_sub(self.span.number())
    }

    /// The node's children. It copies none of them, and takes no memory.
    pub(super) fn into_children(self, alloc: Global) -> Vec<SyntaxNode>
        ensures { result.items ≡ trees self.children }
    {
        let SyntaxNode { node, span: _ } = self;
        match node {
            Node::Inner(_, _, mut inner) => mem::replace(&mut inner.children, Vec::new(alloc)),
            Node::Short(..) | Node::Long(..) | Node::Leaf(..) | Node::Error(_) => Vec::new(alloc),
        }
    }
}

impl Trail {
    /// A trail with no steps.
    pub(super) fn new(alloc: Global) -> Trail
        ensures { IsEmptyTrail result }
    {
        Trail {
            steps: Vec::new(alloc),
            leaf: None,
        }
    }

    /// Adds the pair at an index, which is the only one that changes, above what is recorded of it.
    fn raise(&mut self, index: usize, paired: Paired) -> Result<(), AllocError>
        ensures { OnOk result (RaisesBy index paired self.old self.new) }
    {
        match paired {
            Paired::GoesOn => self.steps.push(index)?,
            Paired::Ends => self.leaf = Some(index),
            Paired::Alike | Paired::Other => {}
        }
        Ok(())
    }

    /// Forgets what is recorded.
    fn clear(&mut self)
        ensures { IsEmptyTrail self.new }
    {
        self.steps.clear();
        self.leaf = None;
    }
}

/// Whether both lists are the same apart from spans and bounds. If not, it records the way down to what changes.
///
/// It compares each child with the node in its place at most once.
#[cycle(trace)]
pub(super) fn trace(
    nodes: &[SyntaxNode],
    others: &[SyntaxNode],
    trail: &mut Trail,
) -> Result<bool, AllocError>
    requires { IsEmptyTrail trail.old }
    ensures { IfOk result (IsTraced nodes.now others.now trail.new) }
{
    if nodes.len() != others.len() {
        return Ok(false);
    }
    for i in 0..nodes.len() {
        match nodes[i].pair(&others[i], trail)? {
            Paired::Alike => {}
            paired => {
                if all_alike(&nodes[i + 1..], &others[i + 1..]) {
                    trail.raise(i, paired)?;
                } else {
                    trail.clear();
                }
                return Ok(false);
            }
        }
    }
    Ok(true)
}

impl SyntaxNode {
    /// Compares a child with the node in its place, and records the way down below it if it goes on.
    #[cycle(trace)]
    fn pair(&self, other: &SyntaxNode, trail: &mut Trail) -> Result<Paired, AllocError>
        requires { IsEmptyTrail trail.old }
        ensures { IfOk result (ArePaired self.now other.now trail.new) }
    {
        if self.goes_on_as(other) {
            let alike = trace(self.child_slice(), other.child_slice(), trail)?;
            return Ok(if alike { Paired::Alike } else { Paired::GoesOn });
        }
        if self.spanless_eq(other) {
            return Ok(Paired::Alike);
        }
        if self.ends_on_as(other) {
            return Ok(Paired::Ends);
        }
        Ok(Paired::Other)
    }
}

/// The number of steps down for which the numbers of the nodes suffice.
pub(super) fn count_steps(nodes: &[SyntaxNode], others: &[SyntaxNode], steps: &[usize]) -> usize
    requires { LeadDown nodes.now others.now steps.now }
    ensures is { result ≡ steps_within nodes.now others.now steps.now }
    ensures within { result ≤ length steps.now }
{
    match steps.split_first() {
        None => 0,
        Some((index, rest)) => {
            let child = &nodes[*index];
            let other = &others[*index];
            if child.has_numbers_for(other) {
                1 + count_steps(child.child_slice(), other.child_slice(), rest)
            } else {
                0
            }
        }
    }
}

/// Adds an index to a path.
pub(super) fn push_index(path: &mut Vec<usize>, index: usize) -> Result<(), AllocError>
    ensures { OnOk result (path.new.items ≡ path.old.items ++ index ∷ []) }
{
    path.push(index)?;
    Ok(())
}

impl PathEdit {
    /// Goes on to the children of a child, `len` of them, and to those of the node in its place.
    fn enter(&mut self, alloc: Global, index: usize, len: usize) -> Result<(), AllocError>
        requires other { index < length self.old.others.items }
        requires child { self.old.from + index < 2 ^ 64 }
        ensures { OnOk result (edit_in self.new ≡ record {
          path = self.old.path.items ++ (self.old.from + index) ∷ [];
          from = 0;
          to = len;
          others = trees (child_of self.old.others.items index).children;
        }) }
    {
        push_index(&mut self.path, self.from + index)?;
        self.from = 0;
        self.to = len;
        let other = self.others.swap_remove(index);
        self.others = other.into_children(alloc);
        Ok(())
    }

    /// Goes down along a trail, from the edited node.
    pub(super) fn descend(
        &mut self,
        alloc: Global,
        node: &SyntaxNode,
        steps: &[usize],
    ) -> Result<(), AllocError>
        requires { LeadOn (edit_in self.old) node.now steps.now }
        ensures { OnOk result (edit_in self.new ≡ edit_along (edit_in self.old) node.now steps.now) }
    {
        match steps.split_first() {
            None => Ok(()),
            Some((index, rest)) => {
                let child = &node.child_slice()[self.from + *index];
                self.enter(alloc, *index, child.child_slice().len())?;
                self.descend(alloc, child, rest)
            }
        }
    }
}

/// # The narrowest edit
impl SyntaxNode {
    /// Narrows an edit as far as inner nodes go on. It goes down to a leaf or an error that goes on, and answers it. If
    /// there is none, it stops before the first inner node whose numbers don't suffice.
    ///
    /// It compares each child with the node in its place at most once.
    pub(super) fn narrow(
        &self,
        alloc: Global,
        edit: &mut PathEdit,
    ) -> Result<Option<Pair>, AllocError>
        requires { Fits (edit_in edit.old) self.now }
        ensures { IfOk result (IsNarrowedTo (edit_in edit.old) self.now (edit_in edit.new)) }
    {
        let node = self.node_at(&edit.path);
        let nodes = &node.child_slice()[edit.from..edit.to];
        let mut trail = Trail::new(alloc);
        trace(nodes, &edit.others, &mut trail)?;
        trail.steps.reverse();
        if let Some(index) = trail.leaf {
            edit.descend(alloc, node, &trail.steps)?;
            return Ok(Some(Pair {
                child: edit.from + index,
                other: index,
            }));
        }
        let steps = count_steps(nodes, &edit.others, &trail.steps);
        edit.descend(alloc, node, &trail.steps[0..steps])?;
        Ok(None)
    }
}
