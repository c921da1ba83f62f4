//! The accessors of typed views by numbers, for callers in other languages.
//!
//! An [`Accessor`] has a number, and belongs to the nodes of one kind: its view. It answers an [`Answer`] of a node, as
//! the accessor of its name in `typst_ast` does.
#![tactic(auto)]

pub use accessor::Accessor;
pub use answer::Answer;

pub mod accessor;
pub mod answer;
mod characters;
mod code;
mod control;
mod flags;
mod lists;
mod markup;
mod math;
mod modules;
mod naturals;
pub mod node_accessor;
mod nodes;
pub mod nodes_accessor;
mod optional;
mod texts;
