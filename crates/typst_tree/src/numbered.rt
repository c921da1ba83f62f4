//! Trees that stay numbered, whatever calls are made.
ghost use Rattle.std.specs.Prelude.{◌≡◌, ◌^◌, ◌≤◌, ◌↔◌, ℕ, List, Some, IsErr, IsOk, IfErr, IfOk, OnErr, OnOk};
ghost use Rattle.typst_base.specs.DiagSpanKind.{diag_kind_of};
ghost use Rattle.typst_linked.specs.DiagPlaces.{place_in};
ghost use Rattle.typst_linked.specs.Search.{with_number};
ghost use Rattle.typst_node.specs.Labels.{number};
ghost use Rattle.typst_node.specs.Numbered.{IsNumbered, IsNumberedFor};
ghost use Rattle.typst_node.specs.Numbering.{IsNumbering, IsTooShort};
ghost use Rattle.typst_node.specs.Outside.{KeepsLabel};
ghost use Rattle.typst_node.specs.Paths.{IsPath, tree_at};
ghost use Rattle.typst_node.specs.Plain.{plain};
ghost use Rattle.typst_tree.specs.Kept.{StaysThrough};
ghost use Rattle.typst_tree.specs.Reads.{ReadsAs};
ghost use Rattle.typst_tree.specs.Run.{Run, edited_by};
ghost use Rattle.typst_tree.specs.Step.{Step};
ghost use Rattle.typst_tree.specs.declared.session.Request.TheVariants.{Find};

use crate::session::{self, Reply, Request, Slot};
use std::alloc::{AllocError, Global};
use std::fmt;
use std::marker::Model;
use std::ops::Range;
use thiserror::Error;
use typst_base::{DiagSpan, FileId, Span};
use typst_linked::place_of;
use typst_node::{SyntaxNode, Unnumberable};

/// A syntax tree that is numbered, and stays so whatever calls are made. So no call tests the tree.
///
/// In contracts it is its root.
#[derive(Drop)]
pub struct NumberedTree {
    pub(crate) root: SyntaxNode,
}

/// A tree that couldn't be numbered, because the range has fewer numbers than the tree has nodes.
#[derive(Debug, Drop, Error)]
#[error("there are fewer numbers than nodes")]
pub struct TooFewNumbers {
    /// The tree, as it was.
    pub tree: SyntaxNode,
}

/// A tree that isn't numbered: its nodes don't have numbers of one file in order.
#[derive(Debug, Drop, Error)]
#[error("the tree isn't numbered")]
pub struct NotNumbered {
    /// The tree, as it was.
    pub tree: SyntaxNode,
}

/// A copy with all spans. It takes time and memory in proportion to the tree, and fails only if memory is refused.
impl Clone for NumberedTree {
    ghost is_clone = { λ tree copy. copy ≡ tree };

    fn clone(&self) -> Result<NumberedTree, AllocError> {
        Ok(NumberedTree {
            root: self.root.clone()?,
        })
    }
}

impl fmt::Debug for NumberedTree {
    /// Writes the root, as `SyntaxNode` does.
    fn fmt<W: fmt::Write>(&self, f: &mut fmt::Formatter<W>) -> fmt::Result {
        self.root.fmt(f)
    }
}

impl Model for NumberedTree {
    ghost use Rattle.typst_node.specs.Tree.{Tree};
    ghost use Rattle.typst_node.specs.Codes.{tree_code};

    ghost Value = { Tree };

    ghost coded = { tree_code };

    ghost use Rattle.typst_node.specs.Numbered.{IsNumbered};

    ghost view = { λ a. a.root };

    ghost invariant = { λ a. IsNumbered a.root };
}

/// # From a node and back
impl NumberedTree {
    /// Numbers a tree as [`SyntaxNode::numberize`] does. If the range has fewer numbers than the tree has nodes, the
    /// error holds the tree as it was.
    ///
    /// The range `within` lies in `Span::FULL`. It takes time in proportion to the nodes, and no memory.
    pub fn number(
        root: SyntaxNode,
        id: FileId,
        within: Range<u64>,
    ) -> Result<NumberedTree, TooFewNumbers>
        requires starts_in_span_full { 2 ≤ within.start }
        requires ends_in_span_full { within.end ≤ 2 ^ 47 }
        ensures refused { IsErr result ↔ IsTooShort root within.start within.end }
        ensures back { IfErr result (λ error. error.tree ≡ root) }
        ensures numbering { IfOk result (IsNumbering id within.start within.end root) }
    {
        // Read for the proof: the number of a file is at least 1.
        let _file = id.into_raw().get();
        let mut root = root;
        match root.numberize(id, within) {
            Ok(()) => Ok(NumberedTree { root }),
            Err(Unnumberable) => Err(TooFewNumbers { tree: root }),
        }
    }

    /// Takes a tree that is numbered already. For any other tree the error holds it as it was. It takes time in
    /// proportion to the nodes, and no memory.
    pub fn from_numbered(root: SyntaxNode) -> Result<NumberedTree, NotNumbered>
        ensures numbered { IsOk result ↔ IsNumbered root }
        ensures same { IfOk result (λ tree. tree ≡ root) }
        ensures back { IfErr result (λ error. error.tree ≡ root) }
    {
        if root.is_numbered() {
            Ok(NumberedTree { root })
        } else {
            Err(NotNumbered { tree: root })
        }
    }

    /// The root, for reading.
    pub fn root(&self) -> &SyntaxNode
        ensures same { result.now ≡ self.now }
        ensures numbered { IsNumbered self.now }
    {
        &self.root
    }

    /// Gives the root back.
    pub fn into_root(self) -> SyntaxNode
        ensures same { result ≡ self }
        ensures numbered { IsNumbered result }
    {
        self.root
    }
}

/// # What is asked of the tree
impl NumberedTree {
    /// Numbers the tree anew, as [`SyntaxNode::numberize`] does. If the range has fewer numbers than the tree has
    /// nodes, the tree keeps the numbers that it has.
    ///
    /// The range `within` lies in `Span::FULL`. It takes time in proportion to the nodes, and no memory.
    pub fn renumber(&mut self, id: FileId, within: Range<u64>) -> Result<(), Unnumberable>
        requires starts_in_span_full { 2 ≤ within.start }
        requires ends_in_span_full { within.end ≤ 2 ^ 47 }
        ensures refused { IsErr result ↔ IsTooShort self.old within.start within.end }
        ensures err { OnErr result (self.new ≡ self.old) }
        ensures numbering { OnOk result (IsNumbering id within.start within.end self.old self.new) }
    {
        // Read for the proof: the number of a file is at least 1.
        let _file = id.into_raw().get();
        self.root.numberize(id, within)
    }

    /// Serves one request as [`session::run`] does. A replacement that is refused or doesn't fit changes nothing.
    ///
    /// It takes as long as [`SyntaxNode::replace_at`], or for a search as long as `LinkedNode::find`.
    pub fn serve(&mut self, alloc: Global, mut request: Request) -> Reply
        ensures step { Step self.old request result self.new }
        ensures numbered { IsNumberedFor self.old.label.span.file self.new }
    {
        session::serve(alloc, &mut self.root, &mut request)
    }

    /// Serves the requests in order as [`session::run`] does. Each `Ask` becomes the `Told` of its reply.
    pub fn run(&mut self, alloc: Global, slots: &mut [Slot])
        ensures run { Run self.old slots.old slots.new self.new }
        ensures numbered { IsNumberedFor self.old.label.span.file self.new }
        ensures plain { plain self.new ≡ plain (edited_by slots.old slots.new self.old) }
        ensures reads { ReadsAs self.new (edited_by slots.old slots.new self.old) }
        ensures kept { (p q : List ℕ) → IsPath p self.old
            → StaysThrough self.old slots.old slots.new self.new p q
            → KeepsLabel p q self.old self.new }
        ensures found_again { (p q : List ℕ) → IsPath p self.old
            → StaysThrough self.old slots.old slots.new self.new p q
            → with_number (number (tree_at p self.old).label) self.new ≡ Some q }
    {
        session::run(alloc, &mut self.root, slots);
    }

    /// Searches for a span, and answers the reply. It takes as long as `LinkedNode::find`, and memory for the path that
    /// it answers.
    pub fn find(&self, alloc: Global, span: Span) -> Reply
        ensures { Step self.now (Find span) result self.now }
    {
        session::find(alloc, &self.root, span)
    }

    /// The bytes of the text that a diagnostic is about, as [`place_of`] answers. It is `None` for a detached span, for
    /// another file, for a number that no node has, and for a range that the text doesn't have. It goes down one path,
    /// and takes no memory.
    pub fn place_of(&self, span: &DiagSpan) -> Option<Range<usize>>
        ensures { result ≡ place_in (diag_kind_of span.now) self.now }
    {
        place_of(&self.root, span)
    }
}
