//! What `./show` reads, what it draws in a terminal, and the problems that it reports.
//!
//! No code here asks for a view, so this crate is proved beside the crates with the views. [`rows`] lists the nodes of a
//! tree in preorder, each with its own range, number and bound. An [`EditReport`] says what [`Source::edit`] answered,
//! counted in bytes and nodes, and what became of each node.
//!
//! This goes over the rows of a tree, and indents each by its depth:
//!
//! ```text
//! for row in &rows(alloc, shown.root)? {
//!     for _ in 0..row.depth {
//!         out.write_all(b"  ")?;
//!     }
//!     let kind = row.kind;
//!     let own = shown.text.get(row.start..row.end).unwrap_or("");
//!     ..
//! }
//! ```
//!
//! [`Source::edit`]: typst_source::Source::edit
#![tactic(auto)]

pub use asked::{Asked, Form, Manner, Wanted};
pub use edits::NumberedEdit;
pub use listed::rows;
pub use problem::Problem;
pub use report::{EditReport, NodeStatus};
pub use row::Row;
pub use shown::Shown;
pub use status::Status;
pub use text::Text;

mod asked;
pub mod carets;
pub mod drawing;
mod edit_line;
mod edits;
mod line_end;
mod listed;
mod misfit;
pub mod of_kind;
mod paint;
pub mod part;
pub mod places;
pub mod plain;
mod problem;
pub mod quoted;
pub mod reading;
mod report;
mod row;
mod shown;
mod status;
pub mod terminal;
mod text;
pub mod told;
pub mod trail;
