//! Why a source wasn't made, or a text wasn't edited.
ghost use Rattle.std.specs.Prelude.{◌≡◌};
ghost use Rattle.typst_source.specs.Errors.{of_inner, of_replace};
ghost use Rattle.typst_source.specs.declared.error.SourceError.TheVariants.{Memory, Unnumberable};

use std::alloc::AllocError;
use thiserror::Error;
use typst_node::{InnerError, ReplaceError, Unnumberable};

/// Why a source wasn't made, or a text wasn't edited. Nothing has changed.
#[derive(Clone, Copy, Debug, PartialEq, Eq, Error)]
pub enum SourceError {
    /// There are fewer node numbers than nodes.
    #[error("the tree has more nodes than there are numbers")]
    Unnumberable,
    /// The length of the text or the number of nodes would pass a usize.
    #[error("the tree is too large")]
    Overflow,
    /// Memory was refused.
    #[error("out of memory")]
    Memory,
}

impl From<AllocError> for SourceError {
    ghost from_gives = { λ _ e. e ≡ Memory };

    fn from(_e: AllocError) -> SourceError {
        SourceError::Memory
    }
}

impl From<InnerError> for SourceError {
    ghost from_gives = { λ e s. s ≡ of_inner e };

    fn from(e: InnerError) -> SourceError {
        match e {
            InnerError::Overflow => SourceError::Overflow,
            InnerError::Memory => SourceError::Memory,
        }
    }
}

impl From<ReplaceError> for SourceError {
    ghost from_gives = { λ e s. s ≡ of_replace e };

    fn from(e: ReplaceError) -> SourceError {
        match e {
            ReplaceError::Unnumberable => SourceError::Unnumberable,
            ReplaceError::Overflow => SourceError::Overflow,
            ReplaceError::Memory => SourceError::Memory,
        }
    }
}

impl From<Unnumberable> for SourceError {
    ghost from_gives = { λ _ e. e ≡ Unnumberable };

    fn from(_e: Unnumberable) -> SourceError {
        SourceError::Unnumberable
    }
}
