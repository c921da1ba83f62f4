//! What is shown.

use crate::asked::{Manner, Wanted};
use typst_node::SyntaxNode;

/// A text with its tree, the name of its file, which nodes are shown, and what is told of each.
#[derive(Clone, Copy)]
pub struct Shown<'a> {
    pub file: &'a str,
    pub text: &'a str,
    pub root: &'a SyntaxNode,
    pub wanted: Wanted,
    pub manner: Manner,
}
