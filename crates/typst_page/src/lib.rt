//! What is shown of a tree with the answers of views: pages for a browser, and drawings in a terminal.
//!
//! A page shows a text next to its tree, and both again after each edit. `typst_answers` asks the views.
#![tactic(auto)]

pub use answered::draw_with_answers;
pub use numbers::EditedNode;
pub use windows::Change;
pub use writer::PageWriter;

mod anchors;
mod answered;
mod escaped;
mod leaves;
mod nodes;
mod numbers;
pub mod page;
mod page_parts;
mod reports;
mod step;
mod windows;
mod writer;
