//! A drawing that isn't finished yet.
ghost use Rattle.std.specs.Prelude.{◌≢◌, IfOk};
ghost use Rattle.typst_base.specs.declared.kind.SyntaxKind.TheVariants.{Error};

use crate::error::DrawingError;
use std::alloc::Global;
use std::mem;
use std::ops::Range;
use typst_base::SyntaxKind;
use typst_node::SyntaxNode;

/// What has been drawn so far.
#[derive(Drop)]
pub struct Canvas<'a> {
    /// The nodes after the innermost open bracket.
    nodes: Vec<SyntaxNode>,
    /// The open brackets, outermost first.
    open: Vec<Bracket<'a>>,
}

/// An open bracket: the name of its kind, and the nodes before it.
#[derive(Drop)]
struct Bracket<'a> {
    name: &'a str,
    before: Vec<SyntaxNode>,
}

impl<'a> Canvas<'a> {
    /// An empty canvas.
    pub fn new(alloc: Global) -> Canvas<'a> {
        Canvas {
            nodes: Vec::new(alloc),
            open: Vec::new(alloc),
        }
    }

    /// The nodes, once all brackets are closed.
    pub fn finish(self) -> Result<Vec<SyntaxNode>, DrawingError> {
        if self.open.is_empty() {
            Ok(self.nodes)
        } else {
            Err(DrawingError::Bracket)
        }
    }

    /// Draws what one word says.
    pub fn draw(&mut self, alloc: Global, word: &'a str) -> Result<(), DrawingError> {
        if let Some(rest) = word.strip_prefix('!') {
            self.draw_error(alloc, rest)
        } else if let Some(rest) = word.strip_prefix('^') {
            self.draw_warning(alloc, rest)
        } else if let Some(rest) = word.strip_prefix('+') {
            self.draw_hint(alloc, rest)
        } else if let Some((name, text)) = word.split_once(':') {
            self.draw_leaf(alloc, name, text)
        } else if let Some(name) = word.strip_suffix('[') {
            self.open(alloc, name)
        } else if word == "]" {
            self.close(alloc)
        } else {
            Err(DrawingError::Word)
        }
    }

    /// Draws a leaf.
    fn draw_leaf(&mut self, alloc: Global, name: &str, text: &str) -> Result<(), DrawingError> {
        let kind = kind_named(alloc, name)?;
        let text = spaced(alloc, text)?;
        self.nodes
            .push(SyntaxNode::leaf(alloc, kind, text.as_str())?)?;
        Ok(())
    }

    /// Draws an error: its message, a colon and its text.
    fn draw_error(&mut self, alloc: Global, word: &str) -> Result<(), DrawingError> {
        let (message, text) = word.split_once(':').ok_or(DrawingError::Word)?;
        let message = spaced(alloc, message)?;
        let text = spaced(alloc, text)?;
        self.nodes
            .push(SyntaxNode::error(alloc, message.as_str(), text.as_str())?)?;
        Ok(())
    }

    /// Wraps the newest node in a warning, which is about a part of the node if a range comes before an `@`.
    fn draw_warning(&mut self, alloc: Global, word: &str) -> Result<(), DrawingError> {
        let node = self.nodes.last_mut().ok_or(DrawingError::Misplaced)?;
        match word.split_once('@') {
            None => node.warn(alloc, spaced(alloc, word)?.as_str())?,
            Some((part, message)) => {
                let part = range_of(part)?;
                if !node.range_fits(part.start..part.end) {
                    return Err(DrawingError::Misplaced);
                }
                node.warn_at(alloc, part, spaced(alloc, message)?.as_str())?;
            }
        }
        Ok(())
    }

    /// Gives the newest node a hint, which is about a part of the node if a range comes before an `@`.
    fn draw_hint(&mut self, alloc: Global, word: &str) -> Result<(), DrawingError> {
        let node = self.nodes.last_mut().ok_or(DrawingError::Misplaced)?;
        if !node.can_hint() {
            return Err(DrawingError::Misplaced);
        }
        match word.split_once('@') {
            None => node.hint(alloc, spaced(alloc, word)?.as_str())?,
            Some((part, text)) => {
                let part = range_of(part)?;
                if !node.range_fits(part.start..part.end) {
                    return Err(DrawingError::Misplaced);
                }
                node.hint_at(alloc, part, spaced(alloc, text)?.as_str())?;
            }
        }
        Ok(())
    }

    /// Opens the bracket of an inner node.
    fn open(&mut self, alloc: Global, name: &'a str) -> Result<(), DrawingError> {
        let before = mem::replace(&mut self.nodes, Vec::new(alloc));
        self.open.push(Bracket { name, before })?;
        Ok(())
    }

    /// Closes the innermost bracket.
    fn close(&mut self, alloc: Global) -> Result<(), DrawingError> {
        let bracket = self.open.pop().ok_or(DrawingError::Bracket)?;
        let kind = kind_named(alloc, bracket.name)?;
        let children = mem::replace(&mut self.nodes, bracket.before);
        self.nodes.push(SyntaxNode::inner(alloc, kind, children)?)?;
        Ok(())
    }
}

/// The kind with this name. No leaf and no inner node has the kind of errors.
fn kind_named(alloc: Global, name: &str) -> Result<SyntaxKind, DrawingError>
    ensures { IfOk result (λ kind. kind ≢ Error) }
{
    for raw in 0..137 {
        let kind = SyntaxKind::from_u8(raw).ok_or(DrawingError::Kind)?;
        if !kind.is_error() && format!(in alloc; "{kind:?}")?.as_str() == name {
            return Ok(kind);
        }
    }
    Err(DrawingError::Kind)
}

/// The text that a word stands for.
fn spaced(alloc: Global, word: &str) -> Result<String, DrawingError> {
    let mut text = String::new(alloc);
    for c in word.chars() {
        text.push(if c == '~' { ' ' } else { c })?;
    }
    Ok(text)
}

/// The range that is written `START..END`.
fn range_of(word: &str) -> Result<Range<usize>, DrawingError> {
    let (start, end) = word.split_once("..").ok_or(DrawingError::Word)?;
    let start = start.parse::<usize>().ok().ok_or(DrawingError::Word)?;
    let end = end.parse::<usize>().ok().ok_or(DrawingError::Word)?;
    Ok(start..end)
}
