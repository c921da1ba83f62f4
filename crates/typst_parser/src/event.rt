//! Pieces of finished syntax.
ghost use Rattle.std.specs.Prelude.{◌≡◌};
ghost use Rattle.typst_parser.specs.Events.{bytes_of, kind_of};

use crate::fault::Fault;
use typst_base::SyntaxKind;

/// A piece of finished syntax. Events stand in the order of the text, and a node comes after its children.
#[derive(Clone, Copy, Debug, PartialEq, Eq)]
pub enum Event {
    /// A leaf of a kind with so many bytes of the text.
    Leaf { kind: SyntaxKind, len: usize },
    /// An error with so many bytes of the text.
    Error { fault: Fault, len: usize },
    /// A node of a kind. Its children are the last so many trees before it.
    Node { kind: SyntaxKind, children: usize },
}

impl Event {
    /// How many bytes it takes from the text.
    pub(crate) fn len(self) -> usize
        ensures { result ≡ bytes_of self }
    {
        match self {
            Event::Leaf { len, .. } | Event::Error { len, .. } => len,
            Event::Node { .. } => 0,
        }
    }

    /// The kind of its tree.
    pub(crate) fn kind(self) -> SyntaxKind
        ensures { result ≡ kind_of self }
    {
        match self {
            Event::Leaf { kind, .. } | Event::Node { kind, .. } => kind,
            Event::Error { .. } => SyntaxKind::Error,
        }
    }
}
