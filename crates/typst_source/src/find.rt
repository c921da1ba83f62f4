//! Searches by spans.
ghost use Rattle.std.specs.Prelude.{◌≡◌, Option, IfOk, IsErr};
ghost use Rattle.typst_base.specs.DiagSpanKind.{diag_kind_of};
ghost use Rattle.typst_base.specs.SpanKind.{span_kind_of};
ghost use Rattle.typst_base.specs.declared.span.SpanKind.TheVariants.{Detached};
ghost use Rattle.typst_linked.specs.DiagPlaces.{place_in};
ghost use Rattle.typst_linked.specs.Finds.{FindsSpan};
ghost use Rattle.typst_linked.specs.Own.{FindsOwn};
ghost use Rattle.typst_linked.specs.Place.{Place, root_place};
ghost use Rattle.typst_source.specs.Found.{IsRangeAt};

use crate::parser::BlockParser;
use crate::source::Source;
use std::alloc::{AllocError, Global};
use std::ops::Range;
use typst_base::{DiagSpan, Span};
use typst_linked::{LinkedNode, place_of};

/// # Searches by spans
impl<P: BlockParser + Drop> Source<P> {
    /// The node that a span points to, with its parents, as [`LinkedNode::find`] finds it from the root.
    /// [`LinkedNode::range`] is its range in the text.
    ///
    /// It doesn't read the file of the span. It takes memory for the parents, and fails only if that is refused, and
    /// never for a detached span.
    pub fn find(&self, alloc: Global, span: Span) -> Result<Option<LinkedNode<'_>>, AllocError>
        ensures found { IfOk result (FindsSpan (span_kind_of span) (root_place self.now)) }
        ensures own { IfOk result (FindsOwn span (root_place self.now)) }
        ensures memory { IsErr result → ¬ (span_kind_of span ≡ Detached) }
    {
        LinkedNode::new(self.root()).find(alloc, span)
    }

    /// The bytes, in the text, of the node that a span points to. It fails as [`Source::find`] does.
    pub fn range(&self, alloc: Global, span: Span) -> Result<Option<Range<usize>>, AllocError>
        ensures found { IfOk result (λ range. (place : Option Place)
            × FindsSpan (span_kind_of span) (root_place self.now) place
            × FindsOwn span (root_place self.now) place × IsRangeAt place range) }
        ensures memory { IsErr result → ¬ (span_kind_of span ≡ Detached) }
    {
        match self.find(alloc, span)? {
            Some(node) => Ok(Some(node.range())),
            None => Ok(None),
        }
    }

    /// The bytes of the text that a diagnostic is about, as [`place_of`] answers for the root. They are those of a node
    /// or of a part of it, or a range of this file that lies in the text. It takes no memory.
    pub fn place_of(&self, span: &DiagSpan) -> Option<Range<usize>>
        ensures { result ≡ place_in (diag_kind_of span.now) self.now }
    {
        place_of(self.root(), span)
    }
}
