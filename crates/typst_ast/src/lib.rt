//! Typed views of a syntax tree: expressions, their parts, and everything that holds them.
//!
//! An evaluator, a formatter or a linter walks a tree by these views. A view is a node of its kinds, or a placeholder
//! for a missing node. So an accessor never fails, whatever the tree is, and a reader of a broken document goes on with
//! placeholders. [`Expr`] is any expression. [`views`] has the views of single kinds, including those of `typst_atoms`.
//! Each module of this crate has the accessors of one topic.
//!
//! ```text
//! let name = SyntaxNode::leaf(alloc, SyntaxKind::Ident, "x")?;
//! let plus = SyntaxNode::leaf(alloc, SyntaxKind::Plus, "+")?;
//! let one = SyntaxNode::leaf(alloc, SyntaxKind::Int, "1")?;
//! let tree = SyntaxNode::inner(alloc, SyntaxKind::Binary, vec![in alloc; name, plus, one]?)?;
//! let sum = tree.cast::<Binary>().unwrap_or(Binary::placeholder());
//! assert!(rt; sum.op() == BinOp::Add);
//! assert!(rt; matches!(sum.lhs(), Expr::Ident(_)) && matches!(sum.rhs(), Expr::Int(_)));
//! ```
//!
//! Views are copied freely and live as long as the borrow of the tree. An accessor takes memory only if it answers a
//! text or a list of its own: the bindings of patterns and the bare names of imports. Contracts state each answer over
//! the plain list of the node's children: the first, last or all children whose kind lies in a class.
#![tactic(auto)]

pub use alike::is_alike;
pub use arg::Arg;
pub use array_item::ArrayItem;
pub use bare_names::BareImportError;
pub use destructuring_item::DestructuringItem;
pub use dict_item::DictItem;
pub use expr::Expr;
pub use exprs::Exprs;
pub use imports::Imports;
pub use lets::LetBindingKind;
pub use math_args::{MathArg, MathArgItem, MathArgItems, MathArgList};
pub use param::Param;
pub use paths::file_stem;
pub use pattern::Pattern;
pub use view::View;

pub mod alike;
pub mod arg;
pub mod array_item;
pub mod bare_names;
pub mod bindings;
pub mod blocks;
pub mod calls;
pub mod collections;
pub mod control;
pub mod destructuring_item;
pub mod dict_item;
pub mod enum_number;
pub mod expr;
pub mod exprs;
pub mod imports;
pub mod lets;
pub mod markup;
pub mod math;
pub mod math_args;
pub mod modules;
mod nodes;
pub mod operations;
pub mod param;
pub mod paths;
pub mod pattern;
pub mod rules;
mod same_exprs;
pub mod view;
pub mod views;
