//! The other children of a linked node's parent.
ghost use Rattle.std.specs.Prelude.{◌≡◌, ◌+◌, ◌<◌, ◌≤◌, length, IfOk, IfSome};
ghost use Rattle.std.specs.Option.{option_map, ForSome};
ghost use Rattle.typst_linked.specs.Place.{child_place, last_step};
ghost use Rattle.typst_linked.specs.Siblings.{parent_place, before_it, behind_it, solid_before, solid_behind, siblings, sibling, sibling_kind, parent_kind_of};

use crate::node::LinkedNode;
use std::alloc::AllocError;
use typst_base::SyntaxKind;
use typst_node::SyntaxNode;

/// # Siblings
///
/// These calls take no memory. They fail only if the parent is shared too often to be shared once more.
impl<'a> LinkedNode<'a> {
    /// The nearest sibling before this node whose kind isn't trivia.
    pub fn prev_sibling(&self) -> Result<Option<Self>, AllocError>
        ensures { IfOk result (λ r. r ≡ sibling solid_before self.now) }
    {
        self.sibling_at(last_solid(self.siblings(), self.index()))
    }

    /// The nearest sibling after this node whose kind isn't trivia.
    pub fn next_sibling(&self) -> Result<Option<Self>, AllocError>
        ensures { IfOk result (λ r. r ≡ sibling solid_behind self.now) }
    {
        self.sibling_at(first_solid(self.siblings(), self.index()))
    }

    /// The sibling directly before this node, trivia or not.
    pub fn prev_sibling_with_trivia(&self) -> Result<Option<Self>, AllocError>
        ensures { IfOk result (λ r. r ≡ sibling before_it self.now) }
    {
        let (before, _) = self.siblings().split_at(self.index());
        self.sibling_at(before.len().checked_sub(1))
    }

    /// The sibling directly after this node, trivia or not.
    pub fn next_sibling_with_trivia(&self) -> Result<Option<Self>, AllocError>
        ensures { IfOk result (λ r. r ≡ sibling behind_it self.now) }
    {
        self.sibling_at(next_index(self.siblings(), self.index()))
    }

    /// The kind of the parent.
    pub fn parent_kind(&self) -> Option<SyntaxKind>
        ensures { result ≡ parent_kind_of self.now }
    {
        Some(self.parent()?.get().kind())
    }

    /// The kind of the nearest sibling before this node whose kind isn't trivia.
    pub fn prev_sibling_kind(&self) -> Option<SyntaxKind>
        ensures { result ≡ sibling_kind solid_before self.now }
    {
        let siblings = self.siblings();
        let index = last_solid(siblings, self.index())?;
        Some(siblings[index].kind())
    }

    /// The kind of the nearest sibling after this node whose kind isn't trivia.
    pub fn next_sibling_kind(&self) -> Option<SyntaxKind>
        ensures { result ≡ sibling_kind solid_behind self.now }
    {
        let siblings = self.siblings();
        let index = first_solid(siblings, self.index())?;
        Some(siblings[index].kind())
    }

    /// The child of the parent at an index, if there is an index.
    fn sibling_at(&self, index: Option<usize>) -> Result<Option<Self>, AllocError>
        requires { ForSome index (λ i. i < length (siblings self.now)) }
        ensures { IfOk result (λ r. r ≡ option_map (child_place (parent_place self.now)) index) }
    {
        let (Some(parent), Some(index)) = (self.shared_parent(), index) else {
            return Ok(None);
        };
        Ok(Some(LinkedNode::nth_child(parent, index)?))
    }
}

/// The index after an index, if there is a node at it.
fn next_index(nodes: &[SyntaxNode], index: usize) -> Option<usize>
    requires { index ≤ length nodes.now }
    ensures index { result ≡ behind_it index nodes.now }
    ensures within { IfSome result (λ i. i < length nodes.now) }
{
    (index + 1 < nodes.len()).then_some(index + 1)
}

/// The index of the last node before an index whose kind isn't trivia.
fn last_solid(nodes: &[SyntaxNode], index: usize) -> Option<usize>
    requires { index ≤ length nodes.now }
    ensures index { result ≡ solid_before index nodes.now }
    ensures within { IfSome result (λ i. i < length nodes.now) }
{
    for before in (0..index).rev() {
        if !nodes[before].kind().is_trivia() {
            return Some(before);
        }
    }
    None
}

/// The index of the first node after an index whose kind isn't trivia.
fn first_solid(nodes: &[SyntaxNode], index: usize) -> Option<usize>
    requires { index ≤ length nodes.now }
    ensures index { result ≡ solid_behind index nodes.now }
    ensures within { IfSome result (λ i. i < length nodes.now) }
{
    for behind in index + 1..nodes.len() {
        if !nodes[behind].kind().is_trivia() {
            return Some(behind);
        }
    }
    None
}
