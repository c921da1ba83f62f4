//! Nodes of a syntax tree that know their place in the tree.
//!
//! A [`LinkedNode`] is a node of a borrowed tree with its parents, its index among its siblings and the byte offset of
//! its text. Editors and diagnostics use it to walk from child to child, to siblings and to leaves.
//! [`LinkedNode::leaf_at`] leads to the leaf at a cursor, and [`LinkedNode::find`] to the node that a span points to.
//! In contracts a linked node is its place: the root of the tree and a path of child indices. Every answer is a place
//! of the same root.
//!
//! ```text
//! let root = LinkedNode::new(&tree);
//! let mut looks = Looks::new();
//! let found = root.find_counted(alloc, span, &mut looks)?;
//! // The last child, by at most three numbers that were read.
//! assert!(rt; found.is_some_and(|node| node.range() == (2..3)) && looks.count() <= 3);
//! ```
#![tactic(auto)]

pub use children::LinkedChildren;
pub use cursor::Side;
pub use diag_places::place_of;
pub use looks::Looks;
pub use node::LinkedNode;
pub use path::node_at;
pub use preorder::LinkedPreorder;

mod children;
mod cursor;
mod diag_places;
mod endings;
mod find;
mod floor;
mod halving;
mod leaves;
mod looks;
mod modes;
mod node;
mod path;
mod preorder;
mod siblings;
