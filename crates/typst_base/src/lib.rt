//! Kinds and spans of a syntax tree's nodes.
//!
//! - [`SyntaxKind`] says what a node is. A kind has a name, classes, and a rule for the mode after the node
//!   ([`ModeAfter`]). [`SyntaxSet`] is a set of kinds, [`SyntaxKinds`] iterates over its kinds, and [`named_sets`] has
//!   the sets that a parser asks for.
//! - [`Span`] is a place in a file, in one word: the number of a node, or a range of bytes. [`SubRange`] is a part of a
//!   node's bytes. [`DiagSpan`] is the place that a diagnostic is about. [`Spanned`] is a value with its span.
//! - [`RangeMapper`] maps the bytes of a text that was put together from segments back to the bytes of the original.
//!
//! ```text
//! let span = Span::from_number(FileId::FIRST, SpanNumber(5));
//! let first_two = DiagSpan::from_span(span, SubRange::new(0, 2));
//! let DiagSpanKind::Number { num, sub_range, .. } = first_two.get() else {
//!     return Err("no number")?;
//! };
//! assert!(rt; num.0 == 5 && sub_range.is_some());
//!
//! let kinds = named_sets::stmt().add(SyntaxKind::Hash);
//! assert!(rt; kinds.contains(SyntaxKind::Let) && kinds.contains(SyntaxKind::Hash));
//! ..
//! let mapper = RangeMapper::new(alloc, &[2..5, 8..10])?;
//! assert!(rt; mapper.total_len() == 5);
//! assert!(rt; mapper.map(2..4) == (4..9));
//! ```
#![tactic(auto)]

pub use diag_span::{DiagSpan, DiagSpanKind};
pub use kind::SyntaxKind;
pub use kinds::SyntaxKinds;
pub use mapper::{MapperError, RangeMapper};
pub use mode::{ModeAfter, SyntaxMode};
pub use set::SyntaxSet;
pub use span::{FileId, Span, SpanKind, SpanNumber};
pub use spanned::{SpanDetached, Spanned};
pub use sub_range::SubRange;

mod classes;
pub mod diag_span;
pub mod kind;
pub mod kinds;
pub mod mapper;
pub mod mode;
mod mode_after;
mod name;
pub mod named_sets;
mod number;
pub mod set;
pub mod span;
pub mod spanned;
pub mod sub_range;
