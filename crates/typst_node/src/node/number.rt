//! Numbers in order, and the test for this order.
ghost use Rattle.std.specs.Prelude.{ℕ, List, ◌≡◌, ◌+◌, ◌-◌, ◌*◌, ◌/◌, ◌^◌, ◌<◌, ◌≤◌, ◌↔◌, length, map, OnOk, OnErr, IsErr, IsTrue};
ghost use Rattle.typst_node.specs.Tree.{Tree, forest, IsInner};
ghost use Rattle.typst_node.specs.Text.{text_of_all};
ghost use Rattle.typst_node.specs.Count.{count, count_of_all};
ghost use Rattle.typst_node.specs.Labels.{number, bound};
ghost use Rattle.typst_node.specs.Numbered.{IsNumbered, AllIn};
ghost use Rattle.typst_node.specs.Numbering.{IsNumbering, IsTooShort};
ghost use Rattle.typst_node.specs.Plain.{plain};
ghost use Rattle.typst_node.specs.PlainEdit.{EditFits};
ghost use Rattle.typst_node.specs.View.{IsMeasured};
ghost use Rattle.typst_node.specs.Interval.{IsWithin, IsTreeWithin};

use crate::node::{InnerNode, Node, SyntaxNode};
use std::ops::Range;
use thiserror::Error;
use typst_base::{FileId, Span, SpanNumber};

/// There are fewer numbers than nodes.
#[derive(Clone, Copy, Debug, PartialEq, Eq, Error)]
#[error("cannot number within this interval")]
pub struct Unnumberable;

/// # Numbering
impl SyntaxNode {
    /// Numbers all nodes of the tree within a range of node numbers, in preorder. It spreads the numbers, so that later
    /// edits find free numbers between them.
    ///
    /// `within` lies in `Span::FULL`. A leaf or an error takes the middle number. An inner node of `n` nodes divides
    /// the range into strides of `length / 2n` numbers, or of `length / n` numbers if that is 0. The node takes the
    /// middle of the first stride. Each child takes as many strides as it has nodes, and is numbered by the same rule.
    /// It takes time in proportion to the nodes, and no memory.
    pub fn numberize(&mut self, id: FileId, within: Range<u64>) -> Result<(), Unnumberable>
        requires starts_in_span_full { 2 ≤ within.start }
        requires ends_in_span_full { within.end ≤ 2 ^ 47 }
        ensures refused { IsErr result ↔ IsTooShort self.old within.start within.end }
        ensures err { OnErr result (self.new ≡ self.old) }
        ensures numbering { OnOk result (IsNumbering id within.start within.end self.old self.new) }
    {
        if within.start >= within.end || within.end - within.start < self.descendants() as u64 {
            return Err(Unnumberable);
        }
        self.number_within(id, within.start, within.end);
        Ok(())
    }

    /// Whether the tree is numbered: all spans are of one file, the numbers strictly increase in preorder, and each
    /// bound is above the numbers of its subtree and at most the next number after the subtree. It takes time in
    /// proportion to the nodes, and no memory.
    pub fn is_numbered(&self) -> bool
        ensures { IsTrue result ↔ IsNumbered self.now }
    {
        match self.span.id() {
            Some(id) => self.is_within(id, 2, 1 << 47),
            None => false,
        }
    }

    // Whether the numbers and bounds of the tree are in order, from `start` up to `end`.
    fn is_within(&self, id: FileId, start: u64, end: u64) -> bool
        ensures { IsTrue result ↔ IsTreeWithin id start end self.now }
    {
        if self.span.id() != Some(id) || self.span.number() < start || self.upper() > end {
            return false;
        }
        let number = self.span.number();
        let mut at = number + 1;
        let bound = self.upper();
        for child in self.child_slice() {
            if !child.is_within(id, at, bound) {
                return false;
            }
            at = child.upper();
        }
        at <= bound
    }

    // It is inlined into the loop over the children, so that no call is made for a leaf.
    #[cycle(number)]
    #[inline(always)]
    fn number_within(&mut self, id: FileId, start: u64, end: u64)
        requires low { 2 ≤ start }
        requires high { end ≤ 2 ^ 47 }
        requires room { start + count self.old ≤ end }
        ensures within { IsTreeWithin id start end self.new }
        ensures plain { plain self.new ≡ plain self.old }
        ensures bound { IsInner self.old.label.content → bound self.new.label ≡ end }
        ensures middle { ¬ (IsInner self.old.label.content) → number self.new.label ≡ (start + end) / 2 }
        ensures half { IsInner self.old.label.content → 2 * count self.old ≤ end - start
            → AllIn start (start + (end - start) / 2) self.new }
    {
        match &mut self.node {
            Node::Inner(_, _, inner) => {
                let stride = stride_of(end - start, inner.descendants as u64);
                self.span = Span::from_number(id, SpanNumber(start + stride / 2));
                inner.number_below(id, start, end, stride);
            }
            Node::Short(..) | Node::Long(..) | Node::Leaf(..) | Node::Error(_) => {
                self.span = Span::from_number(id, SpanNumber((start + end) / 2));
            }
        }
    }
}

impl InnerNode {
    #[cycle(number)]
    #[inline(never)]
    fn number_below(&mut self, id: FileId, start: u64, end: u64, stride: u64)
        requires measured { IsMeasured self.old }
        requires low { 2 ≤ start }
        requires high { end ≤ 2 ^ 47 }
        requires positive { 1 ≤ stride }
        requires room { start + stride * self.old.descendants ≤ end }
        ensures measured { IsMeasured self.new }
        ensures len { length (text_of_all self.new.children.items) ≡ length (text_of_all self.old.children.items) }
        ensures upper { self.new.upper ≡ end }
        ensures warnings { self.new.extras.warnings ≡ self.old.extras.warnings }
        ensures plain { map plain self.new.children.items ≡ map plain self.old.children.items }
        ensures within { IsWithin id (start + stride) (start + stride * self.old.descendants)
            (forest self.new.children.items) }
    {
        self.upper = end;
        number_all(&mut self.children, id, start + stride, stride);
    }
}

/// Numbers the nodes one after the other, from `start` on. Each node gets its node count times `stride` numbers.
#[cycle(number)]
#[inline(always)]
pub(super) fn number_all(nodes: &mut [SyntaxNode], id: FileId, start: u64, stride: u64)
    requires low { 2 ≤ start }
    requires positive { 1 ≤ stride }
    requires high { start + stride * count_of_all nodes.old ≤ 2 ^ 47 }
    ensures within { IsWithin id start (start + stride * count_of_all nodes.old) (forest nodes.new) }
    ensures plain { map plain nodes.new ≡ map plain nodes.old }
{
    let mut start = start;
    for i in 0..nodes.len() {
        let node = &mut nodes[i];
        let end = start + node.descendants() as u64 * stride;
        node.number_within(id, start, end);
        start = end;
    }
}

/// How many of `space` numbers each of `count` nodes gets: half of an even share, unless that is 0.
fn stride_of(space: u64, count: u64) -> u64
    requires some { 1 ≤ count }
    requires room { count ≤ space }
    requires few { space < 2 ^ 48 }
    ensures positive { 1 ≤ result }
    ensures fits { result * count ≤ space }
    ensures half { 2 * count ≤ space → 2 * (result * count) ≤ space }
{
    let stride = space / (2 * count);
    if stride == 0 { space / count } else { stride }
}

/// A law of all numberings: an edit fits afterwards exactly if it fitted before.
pub fn numbering_keeps_what_fits()
    ensures { (id start end : ℕ) (before after : Tree) → IsNumbering id start end before after
        → (path : List ℕ) (from to : ℕ) → EditFits path from to after ↔ EditFits path from to before }
{}
