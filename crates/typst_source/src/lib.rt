//! A text and its numbered tree, kept together while the text is edited.
//!
//! A [`BlockParser`] cuts a text into blocks and parses each by itself. A [`Source`] holds a text with the tree that a
//! parser makes of it. An edit keeps the longest beginning of blocks for which the parser looked only at bytes before
//! the edit. From there it parses anew, up to the first place after the edit where a new block ends where an old one
//! did. Apart from spans and bounds, the tree is always the one that parsing the whole text makes. It stays numbered,
//! and a node keeps its number while all that changes is below it. [`Edited::follow`] answers the span that a node has
//! after an edit, unless it is gone, and [`Source::find`] finds the node.
//!
//! This edits a range of a source, which may not fit the text:
//!
//! ```text
//! if !source.fits(&range) {
//!     bail!(
//!         "{word} isn't a range of the text's {} bytes",
//!         source.text().len()
//!     );
//! }
//! Ok(source.edit(alloc, range, &text)?)
//! ```
#![tactic(auto)]

pub use edited::Edited;
pub use error::SourceError;
pub use parser::{BlockParser, ParsedBlock, documents_are_shallow};
pub use runs::{Outcome, TextEdit};
pub use source::Source;

mod content;
mod cut;
pub mod edited;
pub mod error;
mod extents;
pub mod find;
mod new_blocks;
mod parsed;
pub mod parser;
pub mod runs;
pub mod source;
