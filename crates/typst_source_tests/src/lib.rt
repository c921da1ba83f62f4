//! Tests of `typst_source` with a small parser, which is proved to keep the laws, and with that of Typst, and of crates that
//! know no trees.
#![tactic(auto)]

#[cfg(test)]
mod edits;
#[cfg(test)]
mod lexer;
pub mod lines;
#[cfg(test)]
mod lines_and_columns;
#[cfg(test)]
mod typing;
