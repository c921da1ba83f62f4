//! Sources: texts with their trees.
ghost use Rattle.std.specs.Prelude.{◌≡◌, ◌^◌, ◌≤◌, ◌↔◌, IfOk, IfErr, OnErr, IsErrOf, IsTrue, string_bytes};
ghost use Rattle.std.specs.List.{replace_range};
ghost use Rattle.typst_node.specs.Count.{count};
ghost use Rattle.typst_node.specs.Numbered.{IsNumbered, IsNumberedFor};
ghost use Rattle.typst_node.specs.Plain.{plain};
ghost use Rattle.typst_node.specs.Text.{text};
ghost use Rattle.typst_source.specs.Blocks.{document};
ghost use Rattle.typst_source.specs.Edited.{IsEdited, IsRefusedBy};
ghost use Rattle.typst_source.specs.Fits.{FitsText};
ghost use Rattle.typst_source.specs.Source.{IsTooLarge};
ghost use Rattle.typst_source.specs.declared.error.SourceError.TheVariants.{Overflow, Unnumberable};

use crate::content::{put, put_back};
use crate::cut::Cut;
use crate::edited::Edited;
use crate::error::SourceError;
use crate::parsed::Parsed;
use crate::parser::BlockParser;
use std::alloc::{AllocError, Global};
use std::fmt::{self, Debug, Formatter, Write};
use std::marker::Model;
use std::ops::Range;
use typst_base::FileId;
use typst_node::SyntaxNode;

/// A text and its numbered tree, kept together while the text is edited.
///
/// In contracts it is the root of the tree; its text is that of the root.
#[derive(Drop)]
pub struct Source<P: BlockParser + Drop> {
    content: String,
    parsed: Parsed,
    parser: P,
}

impl<P: BlockParser + Drop> Model for Source<P> {
    ghost use Rattle.typst_node.specs.Tree.{Tree};
    ghost use Rattle.typst_node.specs.Codes.{tree_code};

    ghost Value = { Tree };

    ghost coded = { tree_code };

    ghost use Rattle.std.specs.Prelude.{◌≡◌, string_bytes};
    ghost use Rattle.typst_node.specs.Text.{text};
    ghost use Rattle.typst_source.specs.Source.{IsParsed};

    ghost view = { λ a. a.parsed.root };

    ghost invariant = { λ a. (string_bytes a.content ≡ text a.parsed.root)
        × IsParsed P.first a.parsed.extents.items a.parsed.root };
}

/// # A text and its tree
impl<P: BlockParser + Drop> Source<P> {
    /// Parses a text, and numbers the nodes of its tree for a file. `Unnumberable` comes only if the tree has 2^46
    /// nodes or more, `Overflow` only if its text or its nodes are more than a usize counts, and `Memory` only if
    /// memory is refused.
    pub fn new(alloc: Global, id: FileId, source: &str, parser: P) -> Result<Source<P>, SourceError>
        ensures source_text { IfOk result (λ s. text s ≡ source.now) }
        ensures fresh { IfOk result (λ s. plain s ≡ document P.first source.now) }
        ensures numbered { IfOk result (IsNumberedFor id) }
        ensures unnumberable { IsErrOf result Unnumberable → 2 ^ 46 ≤ count (document P.first source.now) }
        ensures overflow { IsErrOf result Overflow → IsTooLarge P.first source.now }
    {
        let content = String::from_str(alloc, source)?;
        let parsed = Parsed::new(alloc, &parser, source, id)?;
        Ok(Source {
            content,
            parsed,
            parser,
        })
    }

    /// The text.
    pub fn text(&self) -> &str
        ensures { result.now ≡ text self.now }
    {
        self.content.as_str()
    }

    /// The root of the tree. Apart from spans and bounds, the tree is the one that parsing the whole text makes.
    pub fn root(&self) -> &SyntaxNode
        ensures same { result.now ≡ self.now }
        ensures numbered { IsNumbered self.now }
        ensures fresh { plain self.now ≡ document P.first (text self.now) }
    {
        &self.parsed.root
    }

    /// The parser that [`Source::new`] was given. Contracts see only its type, whose [`BlockParser::first`] says what
    /// it parses. So no clause tells its value. A caller that names no type can't be given any other parser.
    pub fn parser(&self) -> &P {
        &self.parser
    }

    /// Takes the source apart: the text, the root of its tree, and the parser.
    pub fn into_parts(self) -> (String, SyntaxNode, P)
        ensures source_text { string_bytes result.0 ≡ text self }
        ensures root { result.1 ≡ self }
        ensures numbered { IsNumbered result.1 }
        ensures fresh { plain result.1 ≡ document P.first (text self) }
    {
        let Source {
            content,
            parsed,
            parser,
        } = self;
        let Parsed { root, extents: _ } = parsed;
        (content, root, parser)
    }

    /// Whether a range of bytes can be edited: it lies in the text, and both of its ends are between characters.
    pub fn fits(&self, range: &Range<usize>) -> bool
        ensures { IsTrue result ↔ FitsText (text self.now) range.now }
    {
        let text = self.text();
        range.start <= range.end
            && text.is_char_boundary(range.start)
            && text.is_char_boundary(range.end)
    }
}

impl<P: BlockParser + Clone + Drop> Clone for Source<P> {
    ghost is_clone = { λ source copy. copy ≡ source };

    /// Copies the text and its tree, with all spans. It takes time and memory in proportion to both, and fails only if
    /// memory is refused.
    fn clone(&self) -> Result<Source<P>, AllocError> {
        Ok(Source {
            content: self.content.clone()?,
            parsed: self.parsed.clone()?,
            parser: self.parser.clone()?,
        })
    }
}

impl<P: BlockParser + Drop> Debug for Source<P> {
    /// Writes the tree, as [`SyntaxNode`] does.
    fn fmt<W: Write>(&self, f: &mut Formatter<W>) -> fmt::Result {
        write!(f, "Source({:?})", self.parsed.root)
    }
}

/// # Edits
impl<P: BlockParser + Drop> Source<P> {
    /// Replaces a range of bytes by another text.
    ///
    /// It keeps the longest beginning of the blocks for which the parser looked only at bytes before the range. From
    /// there on it parses blocks anew, up to the first place after the new bytes where a block ends where an old one
    /// ended. The nodes of these blocks come in place of those of the old blocks as [`SyntaxNode::reconcile_at`] puts
    /// them: at the node furthest down that holds all that changes. The children of that node between the first and the
    /// last that differ are gone, with all below them, and new nodes come. Some children beside them may get other
    /// numbers. All other nodes keep theirs. If only one leaf or error differs, and comes as one of its kind, no number
    /// changes. [`Edited::follow`] finds each node again that isn't gone.
    ///
    /// The test of the condition is [`Source::fits`]. After an error nothing has changed. `Unnumberable` comes only if
    /// the new tree has more nodes than the root has open numbers; these suffice for fewer than 2^46 nodes. `Overflow`
    /// comes only if its text or its nodes are more than a usize counts, and `Memory` only if memory is refused.
    pub fn edit(
        &mut self,
        alloc: Global,
        range: Range<usize>,
        with: &str,
    ) -> Result<Edited, SourceError>
        requires fits_ask_fits { FitsText (text self.old) range }
        ensures edited { IfOk result (λ done. IsEdited P.first self.old range with.now done self.new) }
        ensures refused { IfErr result (λ error. IsRefusedBy error P.first self.old
            (replace_range (text self.old) range.start range.end with.now)) }
        ensures err { OnErr result (self.new ≡ self.old) }
    {
        let gone = put(alloc, &mut self.content, &range, with)?;
        let cut = Cut {
            start: range.start,
            old_end: range.end,
            new_end: range.start + with.len(),
        };
        let new = self.content.as_str();
        match self.parsed.reparse(alloc, &self.parser, new, &cut) {
            Ok(done) => Ok(done),
            Err(error) => {
                put_back(&mut self.content, &(cut.start..cut.new_end), &gone);
                Err(error)
            }
        }
    }
}
