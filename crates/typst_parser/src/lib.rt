//! The parser of the whole language: a stack machine that makes events of tokens by the rows of a table, and trees of
//! events.
//!
//! The state of the innermost open frame and the class of the next token give a row of `typst_grammar`. A row says what
//! becomes of the token, which trees become one node, and which frames open and end. Whatever the table says, every byte
//! of a token is in exactly one leaf or error, in order, no node has more levels than the table allows, and a token is
//! looked at no more often than the table allows.
#![tactic(auto)]

pub use block::{FirstBlock, first_block, tables_keep_texts};
pub use table::Table;

mod actions;
pub mod block;
mod class;
mod column;
mod event;
mod fault;
mod grow;
mod hint;
mod lines;
mod machine;
mod message;
mod mistake;
mod next;
mod raw;
mod read;
mod retag;
mod role;
mod span;
mod stack;
pub mod table;
mod token;
mod unique;
mod warning;
