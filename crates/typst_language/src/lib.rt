//! The whole language, parsed a block at a time: [`Typst`] is a `BlockParser`.
//!
//! A block ends before a token that begins a line, where only the outermost frame of the syntax is open: after a heading,
//! an item, a line of a paragraph, or code that is closed. Every byte is in exactly one leaf or error, in order, whatever
//! the text. `docs/SYNTAX.md` has the syntax as a table.
//!
//! [`MarkupOnly`] reads markup alone: a hash and a dollar are text for it.
//!
//! A source takes the parser, and has a tree with errors and warnings:
//!
//! ```text
//! let source = Source::new(alloc, FileId::FIRST, &text, Typst)?;
//! let (errors, warnings) = source.root().errors_and_warnings(alloc)?;
//! ```
#![tactic(auto)]

pub use parser::{MarkupOnly, Typst, blocks_are_shallow};

pub mod parser;
