//! Nodes of a syntax tree whose text is never lost and whose node numbers are in order.
//!
//! A [`SyntaxNode`] is a leaf with a text, an inner node with children, or an error with a text. Each can have any
//! number of warnings. Lexers and parsers build trees with [`SyntaxNode::leaf`] and [`SyntaxNode::inner`], and give the
//! nodes of a whole tree their numbers with [`SyntaxNode::numberize`]. Plain calls that take no memory read the trees.
//!
//! ```text
//! let ab = SyntaxNode::leaf(alloc, SyntaxKind::Text, "ab")?;
//! let c = SyntaxNode::leaf(alloc, SyntaxKind::Text, "c")?;
//! let mut tree = SyntaxNode::inner(alloc, SyntaxKind::Markup, vec![in alloc; ab, c]?)?;
//! tree.numberize(FileId::FIRST, 2..14)?;
//! // The root has number 3 and bound 14, its children have 5 and 7.
//! ```
#![tactic(auto)]

pub use ast_node::{AstNode, span_of};
pub use diagnosis::Diagnosis;
pub use items::Items;
pub use node::SyntaxNode;
pub use node::build::InnerError;
pub use node::diagnostics::SyntaxDiagnostic;
pub use node::mapped::SynthesizeError;
pub use node::moves::Moves;
pub use node::number::{Unnumberable, numbering_keeps_what_fits};
pub use node::reconcile::{Reconciled, Touched};
pub use node::replace::{Renumbered, ReplaceError};
pub use node::trim::{count_common_first, count_common_last, count_nodes, longest_ends_stay};
pub use node::update::{Below, Updated};

pub mod ast_node;
pub mod casts;
pub mod diagnosis;
mod ends;
mod exchange;
pub mod items;
pub mod node;
mod short_text;
