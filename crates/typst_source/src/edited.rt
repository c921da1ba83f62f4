//! What an edit did.
ghost use Rattle.std.specs.Prelude.{◌≡◌};
ghost use Rattle.typst_node.specs.Moves.{followed_span};

use std::ops::Range;
use typst_base::Span;
use typst_node::{Moves, Touched};

/// What an edit did.
#[derive(Clone, Debug, PartialEq, Eq, Drop)]
pub struct Edited {
    /// The bytes of the new text that were parsed anew.
    pub reparsed: Range<usize>,
    /// The path to the node whose children were changed, the root's own being empty.
    pub path: Vec<usize>,
    /// Which of its children were numbered anew, or that one of them is a leaf that went on, so that no number changed.
    pub touched: Touched,
    /// Where the nodes of the tree are after the edit.
    pub moves: Moves,
}

impl Edited {
    /// The span of a node after the edit, by its span before the edit. It is `None` if the node is gone.
    ///
    /// The span must be one of the tree as it was before the edit. A span of an older tree may now be that of another
    /// node, so follow each span that is kept after each edit. It takes no memory, and time in proportion to the binary
    /// digits of the number of nodes that stay in the window.
    pub fn follow(&self, span: Span) -> Option<Span>
        ensures { result ≡ followed_span self.now.moves span }
    {
        self.moves.follow_span(span)
    }
}
