//! Typed views of the nodes of single kinds, through which evaluators, formatters and linters read a syntax tree.
//!
//! A view is a reference to a node of its kind, or the placeholder of the kind. An accessor answers the part that the
//! node has, or else the placeholder of that part. So reading a tree never fails. Views are copied freely and take no
//! memory. Each view of [`views`] is an alias of the generic [`View`] over a marker of its kind. Expressions, and the
//! views that need them, are in a crate above. That crate uses the markers in [`markers`], and reads children by
//! [`casts`] and [`nodes`].
//!
//! ```text
//! let node = SyntaxNode::leaf(alloc, SyntaxKind::Int, "0x1F")?;
//! let int = node.cast::<Int>().unwrap_or(Int::placeholder());
//! assert!(rt; int.get() == 31 && Int::placeholder().get() == 0);
//! assert_eq!(rt; Str::placeholder().get(alloc)?.as_str(), "");
//! ```
#![tactic(auto)]

pub use casts::{cast_all, cast_first, cast_last, try_cast_first, try_cast_last};
pub use import_items::ImportItem;
pub use kept_nodes::KeptNodes;
pub use math_access::MathAccess;
pub use math_items::MathItems;
pub use math_text::MathTextKind;
pub use numeric::Unit;
pub use operators::{Assoc, BinOp, UnOp};
pub use view::View;

pub mod bindings;
pub mod casts;
pub mod classes;
pub mod comments;
pub mod equal;
pub mod escape;
pub mod expr_kinds;
mod hex;
pub mod ident;
pub mod import_items;
pub mod import_paths;
pub mod int;
pub mod kept_nodes;
pub mod label;
pub mod link;
pub mod marker;
pub mod markers;
pub mod math_access;
pub mod math_items;
pub mod math_text;
pub mod nodes;
pub mod numeric;
pub mod operators;
pub mod plain;
pub mod raw;
pub mod renamed_items;
pub mod same_views;
pub mod shorthands;
pub mod strings;
pub mod text;
pub mod view;
pub mod views;
