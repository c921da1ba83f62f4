//! Why a call is refused, and the code that a caller in another language gets.
ghost use Rattle.std.specs.Prelude.{◌≡◌};
ghost use Rattle.typst_session.specs.Codes.{code_of};

use std::alloc::{AllocError, AllocFailed};
use thiserror::Error;
use typst_node::ReplaceError;
use typst_source::SourceError;
use typst_tree::EditError;

/// Why a call is refused. After a refusal the session is as it was.
#[derive(Clone, Copy, Debug, PartialEq, Eq, Error)]
pub enum Refusal {
    /// Memory was refused.
    #[error("out of memory")]
    Memory,
    /// The number is no kind, or the number of `Error`, which no leaf and no inner node has.
    #[error("no leaf or inner node can have this kind")]
    Kind,
    /// The bytes aren't UTF-8.
    #[error("the text isn't UTF-8")]
    Text,
    /// The stack has fewer nodes than the call needs.
    #[error("the stack has too few nodes")]
    Stack,
    /// The length of the text or the number of nodes would not fit in a usize.
    #[error("the tree is too large")]
    Overflow,
    /// The session holds no tree.
    #[error("there is no tree")]
    NoTree,
    /// The session holds a document, whose tree changes only by edits of its text.
    #[error("the tree belongs to a document, which is edited as a text")]
    IsDocument,
    /// The session holds no document.
    #[error("there is no document")]
    NoDocument,
    /// The number of the file is 0, which is no file.
    #[error("the number of the file is 0")]
    File,
    /// The range of numbers doesn't lie within 2 up to, not including, 2^47.
    #[error("the numbers must lie in 2..2^47")]
    Numbers,
    /// There are fewer numbers than nodes.
    #[error("there are fewer numbers than nodes")]
    Unnumberable,
    /// A child index of the path is past the last child of its node.
    #[error("the path leads to no node")]
    NoNode,
    /// The path leads to a leaf or an error, which has no children.
    #[error("the path leads to a leaf")]
    Leaf,
    /// The range isn't a range of the node's children, or not a range of the text with both ends between characters.
    #[error("the range doesn't fit the children or the text")]
    Range,
    /// There is no such node.
    #[error("there is no such node")]
    NotFound,
    /// The buffer is too short. The call tells the length that is needed.
    #[error("the buffer is too short")]
    Buffer,
    /// The last node of the stack isn't an error, and has no warning.
    #[error("the node takes no hints")]
    NoHints,
    /// The number is no set of kinds.
    #[error("no set of kinds has this number")]
    Set,
    /// The text has no such place: the byte is past its end or within a character, or no byte has that line and column.
    #[error("the text has no such place")]
    NoPlace,
    /// The number is no accessor of a view.
    #[error("the number is no accessor")]
    Accessor,
    /// The tree wasn't edited since it was made or numbered, or its last edit keeps no moves.
    #[error("there is no edit to follow")]
    NoEdit,
}

impl Refusal {
    /// The code in `typst.h`. Codes begin at 2, since 0 says that a call was done and 1 that a handle holds nothing.
    pub fn code(self) -> u32
        ensures { result ≡ code_of self }
    {
        match self {
            Refusal::Memory => 2,
            Refusal::Kind => 3,
            Refusal::Text => 4,
            Refusal::Stack => 5,
            Refusal::Overflow => 6,
            Refusal::NoTree => 7,
            Refusal::IsDocument => 8,
            Refusal::NoDocument => 9,
            Refusal::File => 10,
            Refusal::Numbers => 11,
            Refusal::Unnumberable => 12,
            Refusal::NoNode => 13,
            Refusal::Leaf => 14,
            Refusal::Range => 15,
            Refusal::NotFound => 16,
            Refusal::Buffer => 17,
            Refusal::NoHints => 18,
            Refusal::Set => 19,
            Refusal::NoPlace => 20,
            Refusal::Accessor => 21,
            Refusal::NoEdit => 22,
        }
    }
}

impl From<AllocError> for Refusal {
    ghost use Rattle.typst_session.specs.declared.refusal.Refusal.TheVariants.{Memory};

    ghost from_gives = { λ _ e. e ≡ Memory };

    fn from(_e: AllocError) -> Refusal {
        Refusal::Memory
    }
}

impl<T: Drop> From<AllocFailed<T>> for Refusal {
    ghost use Rattle.typst_session.specs.declared.refusal.Refusal.TheVariants.{Memory};

    ghost from_gives = { λ _ e. e ≡ Memory };

    fn from(_e: AllocFailed<T>) -> Refusal {
        Refusal::Memory
    }
}

impl From<EditError> for Refusal {
    ghost use Rattle.typst_session.specs.Codes.{of_edit};

    ghost from_gives = { λ e r. r ≡ of_edit e };

    fn from(e: EditError) -> Refusal {
        match e {
            EditError::NoNode { .. } => Refusal::NoNode,
            EditError::Leaf => Refusal::Leaf,
            EditError::Range { .. } => Refusal::Range,
            EditError::Refused(ReplaceError::Unnumberable) => Refusal::Unnumberable,
            EditError::Refused(ReplaceError::Overflow) => Refusal::Overflow,
            EditError::Refused(ReplaceError::Memory) => Refusal::Memory,
        }
    }
}

impl From<ReplaceError> for Refusal {
    ghost use Rattle.typst_session.specs.Codes.{of_update};

    ghost from_gives = { λ e r. r ≡ of_update e };

    fn from(e: ReplaceError) -> Refusal {
        match e {
            ReplaceError::Unnumberable => Refusal::Unnumberable,
            ReplaceError::Overflow => Refusal::Overflow,
            ReplaceError::Memory => Refusal::Memory,
        }
    }
}

impl From<SourceError> for Refusal {
    ghost use Rattle.typst_session.specs.Codes.{of_source};

    ghost from_gives = { λ e r. r ≡ of_source e };

    fn from(e: SourceError) -> Refusal {
        match e {
            SourceError::Unnumberable => Refusal::Unnumberable,
            SourceError::Overflow => Refusal::Overflow,
            SourceError::Memory => Refusal::Memory,
        }
    }
}
