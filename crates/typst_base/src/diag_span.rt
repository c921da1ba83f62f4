//! Spans of diagnostics.
ghost use Rattle.std.specs.Prelude.{◌≡◌, ◌≢◌, ◌<◌, ◌↔◌, IsTrue, None, SomeIff, false};
ghost use Rattle.typst_base.specs.DiagSpan.{cut_external_end, external, is_external, of_span, span_of};
ghost use Rattle.typst_base.specs.DiagSpanKind.{diag_kind_of, to_bytes, with_part};
ghost use Rattle.typst_base.specs.DiagWord.{sub_range_of, word_of};
ghost use Rattle.typst_base.specs.Span.{detached};
ghost use Rattle.typst_base.specs.SpanKind.{span_kind_of};
ghost use Rattle.typst_base.specs.SubRange.{interval};

use crate::span::{FileId, Span, SpanNumber};
use crate::sub_range::SubRange;
use std::hash::{Hash, Hasher};
use std::marker::Model;
use std::ops::Range;

/// The place that a diagnostic is about. It is a span, or a part of a span's bytes, or an external range: bytes of a
/// file that isn't a source file. The ends of an external range may be larger than a span's.
#[derive(Clone, Copy, Debug)]
pub struct DiagSpan {
    span: Span,
    /// The end of an external range, or both ends of a part of any other span, 32 bits each, or 0 for no part.
    word: u64,
}

impl Model for DiagSpan {
    ghost use Rattle.std.specs.Prelude.{ℕ};
    ghost use Rattle.typst_base.specs.DiagSpan.{DiagPlace, diag_code, span_of};
    ghost use Rattle.typst_base.specs.DiagWord.{IsWord, place_keeps_span, place_keeps_word, place_of, word_of};

    ghost Value = { DiagPlace };

    ghost coded = { diag_code };

    ghost view = { λ a. place_of a.span a.word };

    ghost invariant = { λ a. IsWord a.span a.word };

    ghost inverse = { λ d. record { span = span_of d; word = word_of d } };

    ghost inverse_ok = { λ a h. Prim.rw (place_keeps_span a.span a.word, place_keeps_word a.span a.word h) };
}

/// Diagnostic spans are equal if they are the same span with the same part, or the same bytes of a file.
impl PartialEq for DiagSpan {
    ghost use Rattle.std.specs.Prelude.{◌≡◌, ◌↔◌, IsTrue};
    ghost use Rattle.typst_base.specs.Equal.{place_eq, place_eq_laws};

    ghost eq = { place_eq };

    ghost laws = { place_eq_laws };

    fn eq(&self, other: &DiagSpan) -> bool
        ensures is { result ≡ place_eq self.now other.now }
        ensures same { IsTrue result ↔ (self.now ≡ other.now) }
    {
        self.span == other.span && self.word == other.word
    }
}

impl Eq for DiagSpan {
    ghost use Rattle.typst_base.specs.Equal.{place_eq_equivalence};

    ghost laws = { place_eq_equivalence };
}

/// A hash of the span and of its other word.
impl Hash for DiagSpan {
    ghost use Rattle.typst_base.specs.Hashed.{place_input, places_alike};

    ghost hash_input = { place_input };

    ghost respects_eq = { places_alike };

    fn hash<H: Hasher>(&self, state: &mut H) {
        self.span.hash(state);
        state.write_u64(self.word);
    }
}

/// What a diagnostic span points to.
#[derive(Clone, Debug, PartialEq, Eq, Hash, Drop)]
pub enum DiagSpanKind {
    /// No place at all.
    Detached,
    /// The node with this number in this file, or a part of it.
    Number {
        /// The file.
        id: FileId,
        /// The node's number.
        num: SpanNumber,
        /// The part of the node, or `None` for the whole node.
        sub_range: Option<SubRange>,
    },
    /// These bytes of this file.
    Range {
        /// The file.
        id: FileId,
        /// The bytes from the start up to the end, which isn't included.
        range: Range<usize>,
    },
}

/// # Making a diagnostic span
impl DiagSpan {
    /// The diagnostic span that points nowhere.
    pub(crate) const NOWHERE: DiagSpan = DiagSpan {
        span: Span::NOWHERE,
        word: 0,
    };

    /// The low value of an external range that starts at 0.
    const EXTERNAL_BASE: u64 = 1 << 47;

    /// The largest end of an external range, 2^46 - 1.
    const EXTERNAL_MAX: u64 = (1 << 46) - 1;

    /// The diagnostic span that points nowhere.
    pub fn detached() -> DiagSpan
        ensures { result ≡ of_span detached None }
    {
        DiagSpan::from_span(Span::detached(), None)
    }

    /// The span of these bytes of a file that isn't a source file. Each end is cut to 2^46 - 1.
    pub fn from_range(id: FileId, range: Range<usize>) -> DiagSpan
        ensures is { result ≡ external id range.start range.end }
        ensures comes_back { diag_kind_of result
            ≡ to_bytes id
            (interval (cut_external_end range.start) (cut_external_end range.end)) }
    {
        let start = (range.start as u64).min(Self::EXTERNAL_MAX);
        let end = (range.end as u64).min(Self::EXTERNAL_MAX);
        DiagSpan {
            span: Span::from_parts(id, Self::EXTERNAL_BASE + start),
            word: end,
        }
    }

    /// The diagnostic span of a span, or of the given part of it.
    ///
    /// A span with the start of an external range means that range. Only `Span::from_raw` can give such a span.
    pub fn from_span(span: Span, sub_range: Option<SubRange>) -> DiagSpan
        ensures is { result ≡ of_span span sub_range }
        ensures comes_back { is_external span ≡ false → diag_kind_of result ≡ with_part (span_kind_of span) sub_range }
    {
        let word = match sub_range {
            Some(part) => {
                let part = part.to_relative();
                ((part.start as u64) << 32) + part.end as u64
            }
            None => 0,
        };
        DiagSpan { span, word }
    }
}

/// # Reading a diagnostic span
impl DiagSpan {
    /// Whether its span points nowhere.
    pub fn is_detached(self) -> bool
        ensures { IsTrue result ↔ (span_of self ≡ detached) }
    {
        self.span.is_detached()
    }

    /// The file, or `None` for a span without one.
    pub fn id(self) -> Option<FileId>
        ensures { SomeIff result (0 < (span_of self).file) (span_of self).file }
    {
        self.span.id()
    }

    /// What the diagnostic span points to.
    ///
    /// A part of a span that is a range is answered as a range of the file's bytes.
    pub fn get(self) -> DiagSpanKind
        ensures { result ≡ diag_kind_of self }
    {
        let Some(id) = self.id() else {
            return DiagSpanKind::Detached;
        };
        let low = self.span.number();
        if low < Self::EXTERNAL_BASE {
            return DiagSpanKind::Number {
                id,
                num: SpanNumber(low),
                sub_range: self.sub_range(),
            };
        }
        if low < Span::RANGE_BASE {
            return DiagSpanKind::Range {
                id,
                range: (low - Self::EXTERNAL_BASE) as usize..self.word as usize,
            };
        }
        let whole = Span::range_of(low);
        let range = match self.sub_range() {
            Some(part) => part.to_absolute(whole.start),
            None => whole,
        };
        DiagSpanKind::Range { id, range }
    }

    /// The part that the word means.
    fn sub_range(self) -> Option<SubRange>
        ensures { result ≡ sub_range_of (word_of self) }
    {
        SubRange::new((self.word >> 32) as usize, (self.word % (1 << 32)) as usize)
    }

    /// This diagnostic span, or the other one if this one is detached.
    pub fn or(self, other: DiagSpan) -> DiagSpan
        ensures detached_gives_other { span_of self ≡ detached → result ≡ other }
        ensures else_itself { span_of self ≢ detached → result ≡ self }
    {
        if self.is_detached() { other } else { self }
    }
}

impl From<Span> for DiagSpan {
    ghost use Rattle.std.specs.Prelude.{◌≡◌, None};
    ghost use Rattle.typst_base.specs.DiagSpan.{of_span};

    ghost from_gives = { λ s d. d ≡ of_span s None };

    fn from(span: Span) -> DiagSpan {
        DiagSpan::from_span(span, None)
    }
}
