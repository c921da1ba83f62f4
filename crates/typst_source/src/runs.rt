//! Runs of text edits.
ghost use Rattle.std.specs.Prelude.{ℕ, ◌≡◌, List, Some, IfOk, OnOk, OnErr};
ghost use Rattle.typst_linked.specs.Search.{with_number};
ghost use Rattle.typst_node.specs.Labels.{number};
ghost use Rattle.typst_node.specs.Numbered.{IsNumberedFor};
ghost use Rattle.typst_node.specs.Outside.{KeepsLabel};
ghost use Rattle.typst_node.specs.Paths.{IsPath, tree_at};
ghost use Rattle.typst_node.specs.Plain.{plain};
ghost use Rattle.typst_node.specs.Text.{text};
ghost use Rattle.typst_source.specs.Blocks.{document};
ghost use Rattle.typst_source.specs.Kept.{AllAreFoundOrGone, IsFoundAt, IsTakenThrough, NumberStaysThrough, StaysThrough};
ghost use Rattle.typst_source.specs.Runs.{IsServed, IsRun, edited_text};

use crate::edited::Edited;
use crate::error::SourceError;
use crate::parser::BlockParser;
use crate::source::Source;
use std::alloc::{AllocError, Global};
use std::ops::Range;

/// An edit of a text: other text replaces a range of bytes.
#[derive(Debug, Drop)]
pub struct TextEdit<'a> {
    /// The bytes that go.
    pub range: Range<usize>,
    /// The text that comes.
    pub with: &'a str,
}

/// What became of an edit.
#[derive(Clone, Debug, PartialEq, Eq, Drop)]
pub enum Outcome {
    /// It was done.
    Edited(Edited),
    /// The range isn't one of the text, or one of its ends is within a character. Nothing changed.
    Misfit,
    /// It was refused. Nothing changed.
    Refused(SourceError),
}

/// # Edits that are tested first
impl<P: BlockParser + Drop> Source<P> {
    /// Does one edit, as [`Source::edit`], if its range fits the text.
    pub fn serve(&mut self, alloc: Global, edit: &TextEdit<'_>) -> Outcome
        ensures { IsServed P.first self.old edit.now result self.new }
    {
        if !self.fits(&edit.range) {
            return Outcome::Misfit;
        }
        match self.edit(alloc, edit.range.start..edit.range.end, edit.with) {
            Ok(done) => Outcome::Edited(done),
            Err(error) => Outcome::Refused(error),
        }
    }

    /// Serves edits in order, and tells what became of each. The range of an edit is one of the text that the edit
    /// before it left. An edit that doesn't fit or is refused changes nothing, and those after it are served.
    ///
    /// It fails only if memory for the outcomes is refused. Then nothing has changed.
    pub fn run(&mut self, alloc: Global, edits: &[TextEdit<'_>]) -> Result<Vec<Outcome>, AllocError>
        ensures err { OnErr result (self.new ≡ self.old) }
        ensures run { IfOk result (λ outcomes. IsRun P.first self.old edits.now outcomes.items self.new) }
        ensures edited { IfOk result (λ outcomes. text self.new
            ≡ edited_text edits.now outcomes.items (text self.old)) }
        ensures fresh { OnOk result (plain self.new ≡ document P.first (text self.new)) }
        ensures numbered { OnOk result (IsNumberedFor self.old.label.span.file self.new) }
        ensures kept { IfOk result (λ outcomes. (p q : List ℕ) → IsPath p self.old
            → StaysThrough P.first self.old edits.now outcomes.items self.new p q
            → KeepsLabel p q self.old self.new) }
        ensures found_again { IfOk result (λ outcomes. (p q : List ℕ) → IsPath p self.old
            → NumberStaysThrough P.first self.old edits.now outcomes.items self.new p q
            → with_number (number (tree_at p self.old).label) self.new ≡ Some q) }
        ensures followed { IfOk result (λ outcomes. (p q : List ℕ) → IsPath p self.old
            → IsTakenThrough P.first self.old edits.now outcomes.items self.new p q
            → IsFoundAt outcomes.items self.old self.new p q) }
        ensures all { IfOk result (λ outcomes. AllAreFoundOrGone outcomes.items self.old self.new) }
    {
        // Read for the proof: the tree is numbered, and is that of its text.
        let _root = self.root();
        let mut outcomes = Vec::with_capacity(alloc, edits.len())?;
        for edit in edits {
            let outcome = self.serve(alloc, edit);
            let _ = outcomes.push(outcome);
        }
        Ok(outcomes)
    }
}
