//! The tree of a text, with how far the text's blocks extend.
ghost use Rattle.std.specs.Prelude.{◌≡◌, ◌^◌, ◌≤◌, IfOk, IfErr, OnOk, OnErr, IsErrOf};
ghost use Rattle.typst_node.specs.Count.{count};
ghost use Rattle.typst_node.specs.Numbered.{IsNumberedFor};
ghost use Rattle.typst_node.specs.Text.{text};
ghost use Rattle.typst_source.specs.Blocks.{document};
ghost use Rattle.typst_source.specs.Change.{IsChange};
ghost use Rattle.typst_source.specs.Edited.{IsEditedTo, IsRefusedBy};
ghost use Rattle.typst_source.specs.Reparsed.{IsCut};
ghost use Rattle.typst_source.specs.Source.{IsParsed, IsTooLarge};
ghost use Rattle.typst_source.specs.declared.error.SourceError.TheVariants.{Overflow, Unnumberable};

use crate::cut::Cut;
use crate::edited::Edited;
use crate::error::SourceError;
use crate::extents::{Beginning, Extent, Extents};
use crate::new_blocks::{Olds, parse_until};
use crate::parser::BlockParser;
use std::alloc::Global;
use std::ops::Range;
use typst_base::{FileId, Span, SyntaxKind};
use typst_node::SyntaxNode;

/// The number of nodes that is too many. With fewer nodes, half of all numbers stay free.
const TOO_MANY_NODES: usize = 1 << 46;

/// The tree of a text, with how far the text's blocks extend.
#[derive(Clone, Drop)]
pub(crate) struct Parsed {
    /// The root of the tree.
    pub(crate) root: SyntaxNode,
    /// The extents of the text's blocks.
    pub(crate) extents: Extents,
}

/// What replaces some blocks.
#[derive(Drop)]
struct Change {
    /// The blocks before those that go.
    kept: Beginning,
    /// How many blocks there are before the first one that stays after those that go.
    upto: usize,
    /// The nodes of those that go, as children of the root.
    children: Range<usize>,
    /// The extents of the blocks that come.
    extents: Vec<Extent>,
    /// The nodes of the blocks that come, side by side.
    nodes: Vec<SyntaxNode>,
    /// The bytes of the new text that were parsed.
    reparsed: Range<usize>,
}

impl Parsed {
    /// Parses a whole text, and numbers its nodes.
    pub(crate) fn new<P: BlockParser>(
        alloc: Global,
        parser: &P,
        source: &str,
        id: FileId,
    ) -> Result<Parsed, SourceError>
        ensures source_text { IfOk result (λ p. text p.root ≡ source.now) }
        ensures parsed { IfOk result (λ p. IsParsed P.first p.extents.items p.root) }
        ensures numbered { IfOk result (λ p. IsNumberedFor id p.root) }
        ensures unnumberable { IsErrOf result Unnumberable → 2 ^ 46 ≤ count (document P.first source.now) }
        ensures overflow { IsErrOf result Overflow → IsTooLarge P.first source.now }
    {
        // Read for the proof: the number of a file is at least 1.
        let _file = id.into_raw().get();
        let none = Olds {
            extents: &[],
            bytes: 0,
        };
        let all = parse_until(alloc, parser, source, &none, 0)?;
        let mut root = SyntaxNode::inner(alloc, SyntaxKind::Markup, all.nodes)?;
        if root.descendants() >= TOO_MANY_NODES {
            return Err(SourceError::Unnumberable);
        }
        root.numberize(id, Span::FULL)?;
        Ok(Parsed {
            root,
            extents: Extents::new(all.extents),
        })
    }

    /// How another text changes the blocks and the children.
    fn change<P: BlockParser>(
        &self,
        alloc: Global,
        parser: &P,
        new: &str,
        cut: &Cut,
    ) -> Result<Change, SourceError>
        requires parsed { IsParsed P.first self.now.extents.items self.now.root }
        requires cut { IsCut (text self.now.root) new.now cut.now }
        ensures change { IfOk result (IsChange P.first self.now.extents.items self.now.root new.now cut.now) }
        ensures numberable { ¬ (IsErrOf result Unnumberable) }
        ensures overflow { IsErrOf result Overflow → IsTooLarge P.first new.now }
    {
        // Read for the proof: the number of children fits a usize.
        let _count = self.root.child_slice().len();
        let bytes = self.root.len();
        let kept = self.extents.untouched(cut.start);
        let olds = Olds {
            extents: self.extents.behind(kept.sums.blocks),
            bytes: bytes - kept.sums.bytes,
        };
        let (_, rest) = new.split_at(kept.sums.bytes);
        let new_blocks = parse_until(alloc, parser, rest, &olds, new.len() - cut.new_end)?;
        Ok(Change {
            kept,
            upto: kept.sums.blocks + new_blocks.passed.blocks,
            children: kept.sums.nodes..kept.sums.nodes + new_blocks.passed.nodes,
            extents: new_blocks.extents,
            nodes: new_blocks.nodes,
            reparsed: kept.sums.bytes..new.len() - new_blocks.left,
        })
    }

    /// Makes this the tree of another text. It parses anew the blocks that a cut touches.
    pub(crate) fn reparse<P: BlockParser>(
        &mut self,
        alloc: Global,
        parser: &P,
        new: &str,
        cut: &Cut,
    ) -> Result<Edited, SourceError>
        requires parsed { IsParsed P.first self.old.extents.items self.old.root }
        requires cut { IsCut (text self.old.root) new.now cut.now }
        ensures edited { IfOk result (λ done. IsEditedTo P.first self.old.root cut.now new.now done self.new.root) }
        ensures parsed { OnOk result (IsParsed P.first self.new.extents.items self.new.root) }
        ensures refused { IfErr result (λ error. IsRefusedBy error P.first self.old.root new.now) }
        ensures err_root { OnErr result (self.new.root ≡ self.old.root) }
        ensures err_extents { OnErr result (self.new.extents.items ≡ self.old.extents.items) }
    {
        let change = self.change(alloc, parser, new, cut)?;
        self.extents.reserve(change.extents.len())?;
        let done = self
            .root
            .reconcile_at(alloc, &[], change.children, change.nodes)?;
        self.extents
            .replace(change.kept, change.upto, &change.extents);
        Ok(Edited {
            reparsed: change.reparsed,
            path: done.path,
            touched: done.touched,
            moves: done.moves,
        })
    }
}
