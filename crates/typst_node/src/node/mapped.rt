//! Trees whose nodes get the places of mapped bytes.
ghost use Rattle.std.specs.Prelude.{◌≡◌, ◌+◌, ◌<◌, ◌≤◌, ◌↔◌, length, map, IsErr, IsErrOf, OnErr, OnOk, ◌^◌};
ghost use Rattle.typst_base.specs.SubRange.{interval};
ghost use Rattle.typst_node.specs.Mapped.{IsMapped, mapped_hint, mapped_part, mapped_warning};
ghost use Rattle.typst_node.specs.MappedForest.{mapped_tree, mapped_trees, mapped_warnings};
ghost use Rattle.typst_node.specs.Text.{text, text_of_all};
ghost use Rattle.typst_node.specs.View.{hint_text, IsMeasured, shown_warnings, warning_text};

use crate::node::{Hint, InnerNode, Node, SyntaxNode, Warning};
use std::ops::Range;
use thiserror::Error;
use typst_base::{FileId, RangeMapper, Span, SubRange};

/// Why a tree can't be synthesized over a mapper.
#[derive(Clone, Copy, Debug, PartialEq, Eq, Error)]
pub enum SynthesizeError {
    /// The tree's text has more bytes than the mapper.
    #[error("text length ({text}) is greater than mapper length ({mapper})")]
    TooLong {
        /// The length of the tree's text in bytes.
        text: usize,
        /// The number of bytes that the mapper has.
        mapper: usize,
    },
}

/// # Synthesis over a mapper
impl SyntaxNode {
    /// Gives each node of the tree the span of its original bytes, as `mapper` maps them, in the file `id`. Each inner
    /// node's bound becomes the number of its span.
    ///
    /// A sub-range of a warning or a hint is mapped at the offset of its node. It is removed if it goes past the node's
    /// text, or if its place is no sub-range. If the text is longer than the mapper, nothing has changed.
    /// It takes no memory, and time in proportion to the nodes, each with the logarithm of the mapper's segments.
    #[tactic(auto, using(crate::proofs::MappedPaths::mapped_from_start))]
    pub fn synthesize_mapped(
        &mut self,
        id: FileId,
        mapper: &RangeMapper,
    ) -> Result<(), SynthesizeError>
        ensures too_long { IsErrOf result (SynthesizeError.TooLong (length (text self.old))
            (length mapper.now.positions))
            ↔ (length mapper.now.positions < length (text self.old)) }
        ensures refused { IsErr result ↔ (length mapper.now.positions < length (text self.old)) }
        ensures err { OnErr result (self.new ≡ self.old) }
        ensures ok { OnOk result (IsMapped mapper.now id self.old self.new) }
    {
        let text = self.len();
        let total = mapper.total_len();
        if text > total {
            return Err(SynthesizeError::TooLong {
                text,
                mapper: total,
            });
        }
        self.map_places(id, mapper, 0);
        Ok(())
    }

    /// Gives each node of the tree the place of its bytes. The bytes begin at this offset of the mapped text.
    #[cycle(map_places)]
    fn map_places(&mut self, id: FileId, mapper: &RangeMapper, at: usize)
        requires inside { at + length (text self.old) ≤ length mapper.now.positions }
        requires fits { length mapper.now.positions < 2 ^ 64 }
        ensures { self.new ≡ mapped_tree mapper.now id at self.old }
    {
        let end = at + self.len();
        let span = Span::from_range(id, mapper.map(at..end));
        match &mut self.node {
            Node::Short(..) | Node::Long(..) => self.span = span,
            Node::Leaf(_, leaf) => {
                self.span = span;
                map_parts(&mut leaf.warnings, mapper, at, end);
            }
            Node::Error(error) => {
                self.span = span;
                map_parts(&mut error.warnings, mapper, at, end);
                map_hint_parts(&mut error.hints, mapper, at, end);
            }
            Node::Inner(_, _, inner) => {
                self.span = span;
                inner.upper = span.number();
                inner.map_places_below(id, mapper, at, end);
            }
        }
    }
}

impl InnerNode {
    #[cycle(map_places)]
    fn map_places_below(&mut self, id: FileId, mapper: &RangeMapper, at: usize, end: usize)
        requires end { end ≡ at + length (text_of_all self.old.children.items) }
        requires measured { IsMeasured self.old }
        requires inside { end ≤ length mapper.now.positions }
        requires fits { length mapper.now.positions < 2 ^ 64 }
        ensures measured { IsMeasured self.new }
        ensures len { length (text_of_all self.new.children.items) ≡ length (text_of_all self.old.children.items) }
        ensures upper { self.new.upper ≡ self.old.upper }
        ensures children { self.new.children.items ≡ mapped_trees mapper.now id at self.old.children.items }
        ensures warnings { shown_warnings self.new.extras.warnings
            ≡ mapped_warnings mapper.now (interval at (at + length (text_of_all self.old.children.items))) self.old.extras.warnings }
    {
        self.extras.map_parts(mapper, at, end);
        let mut at = at;
        for child in self.children.iter_mut() {
            let end = at + child.len();
            child.map_places(id, mapper, at);
            at = end;
        }
    }
}

/// Maps the sub-ranges of the warnings and their hints.
pub(super) fn map_parts(warnings: &mut Vec<Warning>, mapper: &RangeMapper, at: usize, end: usize)
    requires ordered { at ≤ end }
    requires inside { end ≤ length mapper.now.positions }
    ensures { shown_warnings warnings.new.items
        ≡ map (mapped_warning mapper.now (interval at end)) (shown_warnings warnings.old.items) }
{
    for warning in warnings.iter_mut() {
        warning.map_parts(mapper, at, end);
    }
}

impl Warning {
    /// Maps the sub-ranges of the warning and its hints.
    fn map_parts(&mut self, mapper: &RangeMapper, at: usize, end: usize)
        requires ordered { at ≤ end }
        requires inside { end ≤ length mapper.now.positions }
        ensures { warning_text self.new ≡ mapped_warning mapper.now (interval at end) (warning_text self.old) }
    {
        self.sub_range = map_part(self.sub_range, mapper, at, end);
        map_hint_parts(&mut self.hints, mapper, at, end);
    }
}

/// Maps the sub-ranges of the hints.
fn map_hint_parts(hints: &mut Vec<Hint>, mapper: &RangeMapper, at: usize, end: usize)
    requires ordered { at ≤ end }
    requires inside { end ≤ length mapper.now.positions }
    ensures { map hint_text hints.new.items
        ≡ map (mapped_hint mapper.now (interval at end)) (map hint_text hints.old.items) }
{
    for hint in hints.iter_mut() {
        hint.sub_range = map_part(hint.sub_range, mapper, at, end);
    }
}

/// The place of a part of a node with these bytes, if it is a part of the node's text.
#[tactic(auto, using(crate::proofs::MappedLemmas::part_made))]
fn map_part(part: Option<SubRange>, mapper: &RangeMapper, at: usize, end: usize) -> Option<SubRange>
    requires ordered { at ≤ end }
    requires inside { end ≤ length mapper.now.positions }
    ensures { result ≡ mapped_part mapper.now (interval at end) part }
{
    let part = part?;
    if part.to_relative().end > end - at {
        return None;
    }
    mapper.map_sub_range(at, part)
}
