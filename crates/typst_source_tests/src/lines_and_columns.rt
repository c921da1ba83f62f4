//! Tests of `typst_lines`.
mod columns;
mod edits;
mod lines;
mod listed;
mod rows;
