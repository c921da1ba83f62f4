//! Tests of `typst_linked`. Most are tables: a drawn tree, a path to a node of it, what the node is asked, and the
//! words for the answer.
mod asking;
mod cursors;
mod finds;
mod neighbours;
mod walks;
