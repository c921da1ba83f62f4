//! Changes of a map.
use crate::expectation::Expectation;
use crate::maps::Map;
use typst_base::SyntaxKind;

/// What has to hold of a tree for a change.
#[derive(Clone, Copy, Debug, PartialEq, Eq, Hash)]
pub enum Test {
    /// Nothing.
    Always,
    /// It is of a kind of expressions.
    Expr,
    /// It has one child.
    Alone,
}

/// Other kinds for a tree and its children.
#[derive(Clone, Copy, Debug, PartialEq, Eq, Hash)]
pub struct Relabel {
    /// Its kind, if that changes.
    pub kind: Option<SyntaxKind>,
    /// The map that changes its first child.
    pub first: Option<Map>,
    /// The map that changes its other children.
    pub others: Option<Map>,
}

/// What a tree becomes.
#[derive(Clone, Copy, Debug, PartialEq, Eq, Hash)]
pub enum Effect {
    /// A tree of other kinds.
    Become(Relabel),
    /// The error that something else is expected.
    Wrong(Expectation),
    /// The same with one more child: the empty error that something is expected.
    Expected(Expectation),
}

/// A row of a map.
#[derive(Clone, Copy, Debug, PartialEq, Eq, Hash)]
pub struct Change {
    /// When it fits.
    pub test: Test,
    /// What the tree becomes.
    pub effect: Effect,
}
