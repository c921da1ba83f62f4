//! Trees drawn from words, and words for what a tree is, for tests that compare texts.
//!
//! ```text
//! let tree = numbered(alloc, "Markup[ Text:ab Text:c ]", 2..14)?;
//! assert_eq!(rt; labels(alloc, &tree)?.as_str(), "3..14[5..6 7..8]");
//! ```
#![tactic(auto)]

pub use drawing::{drawn, drawn_all, hollow, numbered};
pub use error::DrawingError;
pub use words::{labels, sizes};

mod canvas;
mod drawing;
mod error;
mod words;
