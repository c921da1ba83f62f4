//! A whole tree in place of another one.
ghost use Rattle.std.specs.Prelude.{◌≡◌, ◌^◌, ◌↔◌, IfOk, IsTrue, OnErr, OnOk, IsErrOf};
ghost use Rattle.typst_node.specs.Narrower.{GoesOnWithin};
ghost use Rattle.typst_node.specs.Numbered.{IsNumbered};
ghost use Rattle.typst_node.specs.Numbering.{IsNumbering, IsTooShort};
ghost use Rattle.typst_node.specs.Updated.{IsRootUpdated, IsUpdated, all_gone};
ghost use Rattle.typst_node.specs.declared.node.replace.ReplaceError.TheVariants.{Overflow, Unnumberable as TooFew};

use crate::node::SyntaxNode;
use crate::node::moves::Moves;
use crate::node::number::Unnumberable;
use crate::node::reconcile::Touched;
use crate::node::replace::ReplaceError;
use std::alloc::Global;
use std::mem;
use typst_base::{FileId, Span};

/// A place below the root where an update changed children.
#[derive(Clone, Debug, PartialEq, Eq, Drop)]
pub struct Below {
    /// The path to the node whose children were changed.
    pub path: Vec<usize>,
    /// What changed of its children.
    pub touched: Touched,
}

/// What an update of a whole tree changed.
#[derive(Clone, Debug, PartialEq, Eq, Drop)]
pub struct Updated {
    /// Where children were changed. It is `None` if the root itself was changed.
    pub below: Option<Below>,
    /// Where the nodes of the tree are after it.
    pub moves: Moves,
}

impl SyntaxNode {
    /// Whether this inner node goes on as the other one, and its numbers suffice.
    fn goes_on_within(&self, other: &SyntaxNode) -> bool
        ensures { IsTrue result ↔ GoesOnWithin self.now other.now }
    {
        self.goes_on_as(other) && self.has_numbers_for(other)
    }

    /// Numbers a tree for a file in all numbers. The moves say that each node of the file's old tree is gone.
    fn number_anew(&mut self, alloc: Global, id: FileId) -> Result<Moves, ReplaceError>
        ensures numbering { OnOk result (IsNumbering id 2 (2 ^ 47) self.old self.new) }
        ensures gone { IfOk result (λ moves. moves ≡ all_gone id) }
        ensures unnumberable { IsErrOf result TooFew ↔ IsTooShort self.old 2 (2 ^ 47) }
        ensures overflow { ¬ (IsErrOf result Overflow) }
    {
        match self.numberize(id, Span::FULL) {
            Ok(()) => Ok(Moves::all_gone(alloc, id)),
            Err(Unnumberable) => Err(ReplaceError::Unnumberable),
        }
    }

    /// Gives another tree the span or the numbers that it has in place of this one, whose root is gone or ends on as the
    /// other root.
    #[tactic(auto, using(crate::proofs::AnotherTree::leaf_fits))]
    fn number_instead(&self, alloc: Global, other: &mut SyntaxNode) -> Result<Moves, ReplaceError>
        requires { IsNumbered self.now }
        ensures made { IfOk result (λ moves. IsRootUpdated self.now other.old moves other.new) }
        ensures unnumberable { IsErrOf result TooFew ↔ IsTooShort other.old 2 (2 ^ 47) }
        ensures overflow { ¬ (IsErrOf result Overflow) }
    {
        if self.ends_on_as(other) {
            other.span = self.span;
            return Ok(Moves::none(alloc));
        }
        match self.span.id() {
            Some(id) => other.number_anew(alloc, id),
            None => unreachable!(),
        }
    }
}

/// # Another tree in place of the whole tree
impl SyntaxNode {
    /// Puts another tree in place of this one. The nodes that go on keep their numbers, as if the tree had been edited.
    ///
    /// If both roots are inner nodes of one kind with the same warnings, and the old root has numbers for all nodes of
    /// the other tree, then the old root stays, and the other's children come in place of all its children, as
    /// [`SyntaxNode::reconcile_at`] replaces them. If both roots are leaves or errors of one kind, the new one takes
    /// over the span. Otherwise no node goes on: the other tree is numbered for the file in `Span::FULL`, and
    /// [`Moves::follow`] answers `None` for each node of the old one.
    ///
    /// The test of the condition is [`SyntaxNode::is_numbered`]. After an error nothing has changed, and the other tree
    /// is dropped. `Unnumberable` comes if and only if the other tree has more nodes than there are numbers, `Memory`
    /// only if memory is refused, and `Overflow` never.
    ///
    /// It takes as long as [`SyntaxNode::reconcile_at`], or time in proportion to all nodes if no node goes on.
    pub fn update(&mut self, alloc: Global, other: SyntaxNode) -> Result<Updated, ReplaceError>
        requires numbered_ask_is_numbered { IsNumbered self.old }
        ensures updated { IfOk result (λ done. IsUpdated self.old other done self.new) }
        ensures unnumberable { IsErrOf result TooFew ↔ IsTooShort other 2 (2 ^ 47) }
        ensures overflow { ¬ (IsErrOf result Overflow) }
        ensures err { OnErr result (self.new ≡ self.old) }
    {
        // Read for the proof: the sums of the other tree fit a usize.
        let (_len, _nodes) = (other.len(), other.descendants());
        if self.goes_on_within(&other) {
            let end = self.child_slice().len();
            return match self.reconcile_at(alloc, &[], 0..end, other.into_children(alloc)) {
                Ok(done) => Ok(Updated {
                    below: Some(Below {
                        path: done.path,
                        touched: done.touched,
                    }),
                    moves: done.moves,
                }),
                Err(why) => Err(why),
            };
        }
        let mut other = other;
        let moves = self.number_instead(alloc, &mut other)?;
        mem::swap(self, &mut other);
        Ok(Updated { below: None, moves })
    }
}
