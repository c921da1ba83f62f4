//! Why a drawing shows no tree.
use std::alloc::{AllocError, AllocFailed};
use thiserror::Error;
use typst_node::{InnerError, Unnumberable};

/// Why a drawing shows no tree.
#[derive(Clone, Copy, Debug, PartialEq, Eq, Error)]
pub enum DrawingError {
    /// A word that isn't a leaf, an error, a warning, a hint or a bracket.
    #[error("a word is no leaf, error, warning, hint or bracket")]
    Word,
    /// No kind of leaves or inner nodes has this name.
    #[error("no leaf or inner node has a kind of this name")]
    Kind,
    /// A bracket that nothing opened or that nothing closes.
    #[error("a bracket has no partner")]
    Bracket,
    /// A warning or a hint before the first node, one whose range isn't a part of the node's text, or a hint for a
    /// node that takes none.
    #[error("no node takes this warning or hint")]
    Misplaced,
    /// No node or several nodes, where one is asked for.
    #[error("the drawing isn't a single node")]
    Nodes,
    /// There are fewer numbers than nodes, or no node may have them.
    #[error("there are fewer numbers than nodes, or they aren't in 2..2^47")]
    Numbers,
    /// The tree is too large, or memory was refused.
    #[error("out of memory")]
    Memory,
}

impl<T: Drop> From<AllocFailed<T>> for DrawingError {
    fn from(_e: AllocFailed<T>) -> DrawingError {
        DrawingError::Memory
    }
}

impl From<AllocError> for DrawingError {
    fn from(_e: AllocError) -> DrawingError {
        DrawingError::Memory
    }
}

impl From<InnerError> for DrawingError {
    fn from(_e: InnerError) -> DrawingError {
        DrawingError::Memory
    }
}

impl From<Unnumberable> for DrawingError {
    fn from(_e: Unnumberable) -> DrawingError {
        DrawingError::Numbers
    }
}
