//! The syntax of Typst as a table: what a token does in each state of an open frame, and how trees get other kinds.
//!
//! `crates/grammar.table` has the table, and `bench/grammar_crate.py` writes [`rows`](rows::rows) and [`changes`](maps::changes) from
//! it. The machine of `typst_parser` does what they say.
#![tactic(auto)]

pub use change::{Change, Effect, Relabel, Test};
pub use expectation::Expectation;
pub use maps::Map;
pub use row::{Action, Call, Condition, Mode, Newline, Row, Take, Unique};
pub use rows::{Class, State};

mod arguments_rows;
mod blocks_rows;
pub mod change;
mod code_rows;
mod control_rows;
mod delimiters_rows;
pub mod expectation;
mod groups_rows;
mod imports_rows;
mod lists_rows;
pub mod maps;
mod markup_rows;
mod math_rows;
pub mod modes;
mod operators_rows;
mod parameters_rows;
mod patterns_rows;
pub mod row;
pub mod rows;
mod scripts_rows;
mod statements_rows;
mod structure_rows;
