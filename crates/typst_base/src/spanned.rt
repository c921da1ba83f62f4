//! Values with spans.
ghost use Rattle.std.specs.Prelude.{◌≡◌};

use crate::diag_span::DiagSpan;
use crate::span::Span;
use std::fmt;

/// A span that can point nowhere.
pub trait SpanDetached {
    ghost SPAN_DETACHED: { Self };

    /// The span that points nowhere.
    const SPAN_DETACHED: Self;
}

impl SpanDetached for Span {
    ghost use Rattle.typst_base.specs.Span.{detached};

    ghost SPAN_DETACHED = { detached };

    const SPAN_DETACHED: Span = Span::NOWHERE;
}

impl SpanDetached for DiagSpan {
    ghost use Rattle.std.specs.Prelude.{None};
    ghost use Rattle.typst_base.specs.DiagSpan.{of_span};
    ghost use Rattle.typst_base.specs.Span.{detached};

    ghost SPAN_DETACHED = { of_span detached None };

    const SPAN_DETACHED: DiagSpan = DiagSpan::NOWHERE;
}

/// A value with the span of the place that it came from.
#[derive(Clone, Copy, PartialEq, Eq, Hash, Drop)]
pub struct Spanned<T, S: Copy + SpanDetached = Span> {
    /// The value.
    pub v: T,
    /// The place that it came from.
    pub span: S,
}

impl<T, S: Copy + SpanDetached> Spanned<T, S> {
    /// A value with its span.
    pub fn new(v: T, span: S) -> Spanned<T, S>
        ensures value { result.v ≡ v }
        ensures place { result.span ≡ span }
    {
        Spanned { v, span }
    }

    /// A value with a span that points nowhere.
    pub fn detached(v: T) -> Spanned<T, S>
        ensures value { result.v ≡ v }
        ensures place { result.span ≡ S.SPAN_DETACHED }
    {
        Spanned {
            v,
            span: S::SPAN_DETACHED,
        }
    }

    /// A reference to the value, with its span.
    pub fn as_ref(&self) -> Spanned<&T, S>
        ensures value { result.v.now ≡ self.now.v }
        ensures place { result.span ≡ self.now.span }
    {
        Spanned {
            v: &self.v,
            span: self.span,
        }
    }

    /// Applies a function to the value, and keeps the span.
    pub fn map<R, F: FnOnce(T) -> R>(self, f: F) -> Spanned<R, S>
        requires { F.pre f self.v }
        ensures value { F.post f self.v result.v }
        ensures place { result.span ≡ self.span }
    {
        let Self { v, span } = self;
        Spanned { v: f(v), span }
    }
}

impl<T: fmt::Debug, S: Copy + SpanDetached> fmt::Debug for Spanned<T, S> {
    /// Writes only the value.
    fn fmt<W: fmt::Write>(&self, f: &mut fmt::Formatter<W>) -> fmt::Result {
        self.v.fmt(f)
    }
}
