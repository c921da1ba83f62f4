//! The syntax tree layer of Typst in one crate: kinds and spans, nodes, linked nodes, typed views in [`ast`], and runs of
//! edits and searches.
//!
//! [`session::run`] serves any list of replacements and searches on a numbered tree. Its contract says what an
//! incremental parser or an editor relies on. Numbers stay in order after each step. Apart from its numbers, the tree
//! is what the same edits make of a tree without numbers. Nodes outside each window keep their spans. Searches answer
//! what a plain walk answers. A refused replacement changes nothing.
//! [`NumberedTree::reconcile`] replaces children so that the nodes that go on keep their numbers, and
//! [`NumberedTree::update`] does so with a whole tree that a parser made anew.
//!
//! ```text
//! let mut slots = [Slot::Ask(edit), Slot::Ask(Request::Find(span))];
//! assert!(rt; tree.is_numbered());
//! session::run(alloc, &mut tree, &mut slots);
//! assert!(rt; slots.iter().all(|slot| slot.reply().is_some()));
//! ```
#![tactic(auto)]

pub use crate::edit::EditError;
pub use crate::numbered::{NotNumbered, NumberedTree, TooFewNumbers};
pub use typst_base::{
    DiagSpan, DiagSpanKind, FileId, MapperError, ModeAfter, RangeMapper, Span, SpanDetached,
    SpanKind, SpanNumber, Spanned, SubRange, SyntaxKind, SyntaxKinds, SyntaxMode, SyntaxSet,
    named_sets,
};
pub use typst_linked::{
    LinkedChildren, LinkedNode, LinkedPreorder, Looks, Side, node_at, place_of,
};
pub use typst_node::{
    Below, Diagnosis, InnerError, Moves, Reconciled, Renumbered, ReplaceError, SyntaxDiagnostic,
    SyntaxNode, SynthesizeError, Touched, Unnumberable, Updated, span_of,
};

pub mod ast;
mod edit;
mod numbered;
pub mod session;
