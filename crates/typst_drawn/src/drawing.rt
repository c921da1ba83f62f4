//! Trees from drawings.
ghost use Rattle.std.specs.Prelude.{◌≡◌, ◌≢◌, [], IfOk};
ghost use Rattle.typst_base.specs.declared.kind.SyntaxKind.TheVariants.{Error};
ghost use Rattle.typst_node.specs.Numbered.{IsNumbered};
ghost use Rattle.typst_node.specs.Tree.{inner_tree};

use crate::canvas::Canvas;
use crate::error::DrawingError;
use std::alloc::Global;
use std::ops::Range;
use typst_base::{FileId, SyntaxKind};
use typst_node::{InnerError, SyntaxNode};

/// The detached tree that a drawing of one node shows.
///
/// A drawing is words with blanks between them:
///
/// | word | draws |
/// |---|---|
/// | `Text:ab` | a leaf of the kind with this name and text; `~` stands for a blank |
/// | `!m:#` | an error with a message and a text |
/// | `Markup[` children `]` | an inner node of the kind with this name |
/// | `^m`, `^0..1@m` | a warning around the newest node, about the whole node or a part of its bytes |
/// | `+h`, `+0..1@h` | a hint for the newest node, about the whole node or a part of its bytes |
pub fn drawn(alloc: Global, drawing: &str) -> Result<SyntaxNode, DrawingError> {
    let mut nodes = drawn_all(alloc, drawing)?;
    match nodes.pop() {
        Some(node) if nodes.is_empty() => Ok(node),
        _ => Err(DrawingError::Nodes),
    }
}

/// The detached trees that a drawing of any number of nodes shows, in order.
pub fn drawn_all(alloc: Global, drawing: &str) -> Result<Vec<SyntaxNode>, DrawingError> {
    let mut canvas = Canvas::new(alloc);
    for word in drawing.split_whitespace() {
        canvas.draw(alloc, word)?;
    }
    canvas.finish()
}

/// The tree that a drawing of one node shows, numbered within a range for file 1.
pub fn numbered(
    alloc: Global,
    drawing: &str,
    within: Range<u64>,
) -> Result<SyntaxNode, DrawingError>
    ensures { IfOk result IsNumbered }
{
    let mut tree = drawn(alloc, drawing)?;
    if within.start < 2 || within.end > 1 << 47 {
        return Err(DrawingError::Numbers);
    }
    tree.numberize(FileId::FIRST, within)?;
    Ok(tree)
}

/// An inner node without children.
pub fn hollow(alloc: Global, kind: SyntaxKind) -> Result<SyntaxNode, InnerError>
    requires { kind ≢ Error }
    ensures { IfOk result (λ node. node ≡ inner_tree kind []) }
{
    SyntaxNode::inner(alloc, kind, Vec::new(alloc))
}
