//! Searches by spans.
ghost use Rattle.std.specs.Prelude.{ℕ, ◌≡◌, ◌+◌, ◌↔◌, length, Some, IfOk, IfSome, IsErr, IsTrue};
ghost use Rattle.typst_base.specs.SpanKind.{span_kind_of};
ghost use Rattle.typst_base.specs.declared.span.SpanKind.TheVariants.{Detached};
ghost use Rattle.typst_node.specs.Tree.{Tree, trees};
ghost use Rattle.typst_node.specs.Text.{text};
ghost use Rattle.typst_linked.specs.Place.{Place, subtree};
ghost use Rattle.typst_linked.specs.Part.{AnswersFirstCover};
ghost use Rattle.typst_linked.specs.Ranges.{begin_of, Covers, FindsCover, FindsRange, IsCoverBelow};
ghost use Rattle.typst_linked.specs.Own.{FindsOwn};
ghost use Rattle.typst_linked.specs.Finds.{FindsNumber, FindsSpan, HasNumberBelow, AreLooksFor, AreLooksForSpan, HasLookEachStep, HasLookEachStepFor};

use crate::endings::child_ending;
use crate::floor::Part;
use crate::halving::last_up_to;
use crate::looks::Looks;
use crate::node::LinkedNode;
use std::alloc::{AllocError, Global};
use std::ops::Range;
use typst_base::{Span, SpanKind};
use typst_node::SyntaxNode;

/// # Searches
impl<'a> LinkedNode<'a> {
    /// The node in this node's subtree that a span points to.
    ///
    /// A detached span points to none. A node number is searched in numbered trees, whatever the span's file. In a tree
    /// that isn't numbered, an answer has the number, but the search may miss a node that has it. A range is searched
    /// as [`LinkedNode::find_range`] does. It fails only if memory runs out, and never for a detached span.
    pub fn find(&self, alloc: Global, span: Span) -> Result<Option<Self>, AllocError>
        ensures found { IfOk result (FindsSpan (span_kind_of span) self.now) }
        ensures own { IfOk result (FindsOwn span self.now) }
        ensures memory { IsErr result → ¬ (span_kind_of span ≡ Detached) }
    {
        self.find_counted(alloc, span, &mut Looks::new())
    }

    /// The same as [`LinkedNode::find`]. Afterwards `looks` holds the number of node numbers that this call read, even
    /// if memory was refused. In a numbered tree this is at most 1 plus the binary digits of the numbers of children
    /// along one path downwards.
    pub fn find_counted(
        &self,
        alloc: Global,
        span: Span,
        looks: &mut Looks,
    ) -> Result<Option<Self>, AllocError>
        ensures found { IfOk result (FindsSpan (span_kind_of span) self.now) }
        ensures own { IfOk result (FindsOwn span self.now) }
        ensures looks { AreLooksForSpan (span_kind_of span) self.now looks.new }
        ensures steps { IfOk result (HasLookEachStepFor (span_kind_of span) self.now looks.new) }
        ensures memory { IsErr result → ¬ (span_kind_of span ≡ Detached) }
    {
        match span.get() {
            SpanKind::Detached => {
                *looks = Looks::new();
                Ok(None)
            }
            SpanKind::Number { num, .. } => self.find_number(alloc, num.0, looks),
            SpanKind::Range { range, .. } => {
                *looks = Looks::new();
                self.find_range(alloc, range.start, range.end)
            }
        }
    }

    /// The node in this subtree with a number. Binary search chooses each child, and no number is read twice.
    fn find_number(
        &self,
        alloc: Global,
        wanted: u64,
        looks: &mut Looks,
    ) -> Result<Option<Self>, AllocError>
        ensures found { IfOk result (FindsNumber wanted self.now) }
        ensures hit { IfOk result (λ r. IfSome r (HasNumberBelow wanted self.now)) }
        ensures looks { AreLooksFor wanted self.now looks.new }
        ensures steps { IfOk result (HasLookEachStep wanted self.now looks.new) }
    {
        *looks = Looks::new();
        // Read for the proof: the node count is a usize, so no count of looks along one path passes a u64.
        let _count = self.get().descendants();
        let own = looks.number_of(self.get());
        if own == wanted {
            return Ok(Some(self.clone()?));
        }
        if wanted < own {
            return Ok(None);
        }
        let mut here = self.clone()?;
        while let Some(next) = last_up_to(here.get().child_slice(), wanted, looks) {
            here = here.into_child(alloc, next.index)?;
            if next.number == wanted {
                return Ok(Some(here));
            }
        }
        Ok(None)
    }

    /// The node with this range, in bytes from the beginning of the root's text. It is this node if its range is
    /// exactly that. Otherwise the search goes on with the first child whose range covers the wanted range. If there is
    /// none, the answer is `None`. The search misses an empty node after a nonempty sibling.
    pub fn find_range(
        &self,
        alloc: Global,
        start: usize,
        end: usize,
    ) -> Result<Option<Self>, AllocError>
        ensures { IfOk result (FindsRange start end self.now) }
    {
        self.clone()?.into_range(alloc, start, end)
    }

    /// The smallest node in this subtree whose range covers this one, in bytes from the beginning of the root's text. The
    /// search goes down as [`LinkedNode::find_range`] does, as far as there is a child whose range covers the wanted
    /// range. If this node's own range doesn't cover it, the answer is `None`.
    pub fn find_cover(
        &self,
        alloc: Global,
        start: usize,
        end: usize,
    ) -> Result<Option<Self>, AllocError>
        ensures { IfOk result (FindsCover start end self.now) }
    {
        if self.covers(start, end) {
            Ok(Some(self.clone()?.into_cover(alloc, start, end)?))
        } else {
            Ok(None)
        }
    }

    /// Whether the node's range of bytes covers this range.
    fn covers(&self, start: usize, end: usize) -> bool
        ensures { IsTrue result ↔ Covers start end self.now }
    {
        let _node = self.get();
        let range = self.range();
        range.start <= start && end <= range.end
    }

    /// The same as `find_cover`, for an owned node whose range covers the wanted range.
    fn into_cover(self, alloc: Global, start: usize, end: usize) -> Result<Self, AllocError>
        requires { Covers start end self }
        ensures { IfOk result (IsCoverBelow start end self.entry) }
    {
        let Some(part) = first_cover(self.get(), self.range(), start, end) else {
            return Ok(self);
        };
        let child = self.into_part(alloc, part)?;
        child.into_cover(alloc, start, end)
    }

    /// Whether the node's range of bytes is exactly this range.
    fn has_range(&self, start: usize, end: usize) -> bool
        ensures { (t : Tree) → subtree self.now ≡ Some t → (IsTrue result
            ↔ ((begin_of self.now ≡ start) × (begin_of self.now + length (text t) ≡ end))) }
    {
        let range = self.range();
        range.start == start && range.end == end
    }

    /// The same as `find_range`, for an owned node.
    fn into_range(self, alloc: Global, start: usize, end: usize) -> Result<Option<Self>, AllocError>
        ensures { IfOk result (FindsRange start end self.entry) }
    {
        if self.has_range(start, end) {
            return Ok(Some(self));
        }
        let Some(part) = first_cover(self.get(), self.range(), start, end) else {
            return Ok(None);
        };
        let child = self.into_part(alloc, part)?;
        child.into_range(alloc, start, end)
    }
}

/// The first child, of a node with this range, whose range covers the wanted range.
fn first_cover(node: &SyntaxNode, range: Range<usize>, start: usize, end: usize) -> Option<Part>
    requires { range.end ≡ range.start + length (text node.now) }
    ensures { (place : Place) → subtree place ≡ Some node.now → begin_of place ≡ range.start
        → AnswersFirstCover start end (trees node.now.children) result place }
{
    if node.child_slice().is_empty() {
        return None;
    }
    let goal = end.saturating_sub(range.start);
    let Some(part) = child_ending(node, goal) else {
        return None;
    };
    if range.start + part.begin <= start {
        Some(part)
    } else {
        None
    }
}
