//! Calls on a text that is kept with its tree.
use crate::end::{End, Fault, Stop};
use crate::requests::Requests;
use std::alloc::{AllocError, Global};
use std::ops::Range;
use typst_base::{FileId, Span};
use typst_language::Typst;
use typst_linked::{LinkedNode, Side};
use typst_node::SyntaxNode;
use typst_source::{Edited, Outcome, Source, SourceError, TextEdit};

/// A heading, a paragraph with strong content, and a paragraph of a letter.
const TEXT: &str = "= A\n\nb *c*\n\nd\n";

/// The bytes of the strong letter.
const STRONG: Range<usize> = 8..9;

/// An edit of the text.
#[derive(Clone, Copy)]
pub enum Editing {
    /// Inserts a letter into strong content.
    Letter,
    /// Inserts a paragraph.
    Paragraph,
    /// Inserts a delimiter that turns everything after it into raw text.
    Delimiter,
}

/// A search for the strong letter.
#[derive(Clone, Copy)]
pub enum Finding {
    /// `find`
    Find,
    /// `range`
    Range,
}

/// The source of the text.
fn parsed(alloc: Global) -> Result<Source<Typst>, SourceError> {
    Source::new(alloc, FileId::FIRST, TEXT, Typst)
}

/// Whether two sources have the same text and the same tree, numbers included.
fn are_same(one: &Source<Typst>, other: &Source<Typst>) -> bool {
    one.text() == other.text() && one.root() == other.root()
}

/// Whether a source is as it was parsed.
fn is_kept(source: &Source<Typst>, kept: &SyntaxNode) -> bool {
    source.text() == TEXT && source.root() == kept
}

/// `Source::new`. Its answer must be that of the same call before.
pub fn make_source(alloc: Global, requests: Requests) -> Result<End, Stop> {
    let made_before = parsed(alloc)?;
    requests.make(alloc)?;
    Ok(match parsed(alloc) {
        Ok(made) => End::answered(are_same(&made, &made_before)),
        Err(error) => End::failed(Fault::from(error), true),
    })
}

impl Editing {
    /// Makes the call. Its answer must be that of the same call before. Where memory was refused, the same edit is made
    /// again. It must do then what it did before, so that nothing has changed unseen.
    pub fn run(self, alloc: Global, requests: Requests) -> Result<End, Stop> {
        let mut edited = parsed(alloc)?;
        let told = self.make(alloc, &mut edited)?;
        let mut source = parsed(alloc)?;
        let kept = source.root().clone()?;
        requests.make(alloc)?;
        match self.make(alloc, &mut source) {
            Ok(done) => Ok(End::answered(done == told && are_same(&source, &edited))),
            Err(fault) => {
                let same = is_kept(&source, &kept);
                let done = self.make(alloc, &mut source)?;
                let right = done == told && are_same(&source, &edited);
                Ok(End::failed(fault, same && right))
            }
        }
    }

    /// Makes the edit.
    fn make(self, alloc: Global, source: &mut Source<Typst>) -> Result<Edited, Fault> {
        let edit = self.edit();
        if !source.fits(&edit.range) {
            return Err(Fault::Other);
        }
        Ok(source.edit(alloc, edit.range, edit.with)?)
    }

    /// The edit.
    fn edit(self) -> TextEdit<'static> {
        match self {
            Editing::Letter => TextEdit {
                range: STRONG.end..STRONG.end,
                with: "x",
            },
            Editing::Paragraph => TextEdit {
                range: 5..5,
                with: "e\n\n",
            },
            Editing::Delimiter => TextEdit {
                range: 5..5,
                with: "`",
            },
        }
    }
}

impl Finding {
    /// Makes the call.
    pub fn run(self, alloc: Global, requests: Requests) -> Result<End, Stop> {
        let source = parsed(alloc)?;
        let kept = source.root().clone()?;
        let span = strong(alloc, &source)?.ok_or(Stop::Early)?;
        requests.make(alloc)?;
        Ok(match self.finds(alloc, &source, span) {
            Ok(right) => End::answered(right),
            Err(error) => End::failed(Fault::from(error), is_kept(&source, &kept)),
        })
    }

    /// Whether the call finds the strong letter.
    fn finds(self, alloc: Global, source: &Source<Typst>, span: Span) -> Result<bool, AllocError> {
        match self {
            Finding::Find => Ok(match source.find(alloc, span)? {
                Some(node) => node.range() == STRONG && node.get().span() == span,
                None => false,
            }),
            Finding::Range => Ok(source.range(alloc, span)? == Some(STRONG)),
        }
    }
}

/// The span of the strong letter.
fn strong(alloc: Global, source: &Source<Typst>) -> Result<Option<Span>, AllocError> {
    let root = LinkedNode::new(source.root());
    let leaf = root.leaf_at(alloc, STRONG.start, Side::After)?;
    Ok(leaf.map(|leaf| leaf.get().span()))
}

/// A source with the outcomes of the edits that made it.
#[derive(Drop)]
struct Served {
    source: Source<Typst>,
    outcomes: Vec<Outcome>,
}

/// `Source::run`. Where an edit was refused memory, all else must be as if that edit hadn't been asked for.
pub fn run_edits(alloc: Global, requests: Requests) -> Result<End, Stop> {
    let whole = run_but(alloc, None)?;
    let mut source = parsed(alloc)?;
    let kept = source.root().clone()?;
    let edits = edits(alloc, None)?;
    requests.make(alloc)?;
    let mut outcomes = match source.run(alloc, &edits) {
        Ok(outcomes) => outcomes,
        Err(error) => return Ok(End::failed(Fault::from(error), is_kept(&source, &kept))),
    };
    let Some((index, error)) = first_refused(&outcomes) else {
        let right = are_same(&source, &whole.source);
        return Ok(End::answered(right && outcomes.as_slice() == whole.outcomes.as_slice()));
    };
    let rest = run_but(alloc, Some(index))?;
    if index < outcomes.len() {
        outcomes.remove(index);
    }
    let right = are_same(&source, &rest.source);
    Ok(End::failed(
        Fault::from(error),
        right && outcomes.as_slice() == rest.outcomes.as_slice(),
    ))
}

/// The edits without one of them. They are one of each kind, and one that doesn't fit.
fn edits(alloc: Global, but: Option<usize>) -> Result<Vec<TextEdit<'static>>, AllocError> {
    let misfit = TextEdit {
        range: 100..100,
        with: "",
    };
    let mut edits = vec![in alloc;
        Editing::Letter.edit(),
        misfit,
        Editing::Paragraph.edit(),
        Editing::Delimiter.edit(),
    ]?;
    if let Some(index) = but {
        if index < edits.len() {
            edits.remove(index);
        }
    }
    Ok(edits)
}

/// The run over all edits but one.
fn run_but(alloc: Global, but: Option<usize>) -> Result<Served, Stop> {
    let mut source = parsed(alloc)?;
    let outcomes = source.run(alloc, &edits(alloc, but)?)?;
    Ok(Served { source, outcomes })
}

/// The first edit that was refused, and why.
fn first_refused(outcomes: &[Outcome]) -> Option<(usize, SourceError)> {
    for (index, outcome) in outcomes.iter().enumerate() {
        if let Outcome::Refused(error) = outcome {
            return Some((index, *error));
        }
    }
    None
}
