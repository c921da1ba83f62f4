//! Lines and columns of a text, kept while the text is edited.
//!
//! [`Lines`] tells which line a byte is in, and which bytes a line has. It holds where the lines begin, and not the
//! text. Its reads take the text as an argument.
//!
//! Byte 29 is on line 2, in column 11:
//!
//! ```text
//! let lines = Lines::new(alloc, text)?;
//! let line = lines.byte_to_line(text, 29);
//! let column = lines.byte_to_column(text, 29, ColumnUnit::Utf16);
//! assert!(rt; line == Some(2) && column == Some(11));
//! ```
#![tactic(auto)]

pub use column::ColumnUnit;
pub use ends::LineEnds;
pub use laws::{columns_count_characters, lines_join};
pub use lines::Lines;

mod column;
mod ends;
mod laws;
mod lines;
mod parts;
mod place;
