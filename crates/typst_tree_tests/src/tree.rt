//! Tests of `typst_tree`.
mod asking;
mod edits;
mod numbered;
mod places;
mod runs;
mod updates;
