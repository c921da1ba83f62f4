//! Replacements at any depth that leave the nodes that go on their numbers.
ghost use Rattle.std.specs.Prelude.{◌≡◌, ◌↔◌, IfOk, IfErr, OnErr, OnOk, IsErrOf, IsTrue};
ghost use Rattle.typst_node.specs.Numbered.{IsNumbered};
ghost use Rattle.typst_node.specs.Paths.{IsInnerAt, IsPath};
ghost use Rattle.typst_node.specs.PlainEdit.{EditFits, TreeFits};
ghost use Rattle.typst_node.specs.Edit.{Fits, edit_of, edited_by};
ghost use Rattle.typst_node.specs.Narrowing.{edit_in, IsLeafPair};
ghost use Rattle.typst_node.specs.Put.{with_tree, with_span};
ghost use Rattle.typst_node.specs.Reconciled.{IsReconciled, IsLeafKept, IsUnreconciledBy, none_touched};
ghost use Rattle.typst_node.specs.Moves.{no_moves};
ghost use Rattle.typst_node.specs.declared.node.reconcile.Touched.TheVariants.{Leaf};
ghost use Rattle.typst_node.specs.declared.node.replace.ReplaceError.TheVariants.{Overflow, Unnumberable};

use crate::node::SyntaxNode;
use crate::node::moves::Moves;
use crate::node::narrow::{Pair, PathEdit, push_index};
use crate::node::replace::{Renumbered, ReplaceError};
use std::alloc::Global;
use std::ops::Range;
use typst_base::Span;

/// What a reconciliation changed of the children of a node.
#[derive(Clone, Debug, PartialEq, Eq, Drop)]
pub enum Touched {
    /// A leaf or an error changed into one of its kind, and kept its number. No number of the tree changed.
    Leaf {
        /// The index of the child.
        index: usize,
    },
    /// Children were replaced, and those in this window were numbered anew.
    Window(Renumbered),
}

/// What an accepted reconciliation changed.
#[derive(Clone, Debug, PartialEq, Eq, Drop)]
pub struct Reconciled {
    /// The path to the node whose children were changed.
    pub path: Vec<usize>,
    /// What changed of its children.
    pub touched: Touched,
    /// Where the nodes of the tree are after it.
    pub moves: Moves,
}

/// # A leaf that goes on
impl SyntaxNode {
    /// Gives the node this span. Those below it keep theirs.
    fn set_span(&mut self, span: Span)
        ensures { self.new ≡ with_span span self.old }
    {
        self.span = span;
    }

    /// Whether the sums fit a usize after another tree is put in place of one of this tree.
    fn can_put(&self, path: &[usize], other: &SyntaxNode) -> bool
        requires { IsPath path.now self.now }
        ensures { IsTrue result ↔ TreeFits (with_tree path.now other.now self.now) }
    {
        let gone = self.node_at(path);
        (self.len() - gone.len()).checked_add(other.len()).is_some()
            && (self.descendants() - gone.descendants())
                .checked_add(other.descendants())
                .is_some()
    }

    /// Puts a leaf or an error in place of the one that goes on as it, and gives it that one's span.
    fn put_leaf(
        &mut self,
        alloc: Global,
        edit: PathEdit,
        pair: Pair,
    ) -> Result<Reconciled, ReplaceError>
        requires fits { Fits (edit_in edit) self.old }
        requires pair { IsLeafPair (edit_in edit) self.old pair }
        ensures path { IfOk result (λ done. done.path.items ≡ edit.path.items) }
        ensures kept { IfOk result (λ done. IsLeafKept (edit_in edit) self.old pair.child self.new) }
        ensures still { IfOk result (λ done. done.moves ≡ no_moves) }
        ensures leaf { IfOk result (λ done. done.touched ≡ Leaf pair.child) }
        ensures sums { OnOk result (TreeFits (edited_by (edit_in edit) self.old)) }
        ensures numberable { ¬ (IsErrOf result Unnumberable) }
        ensures overflow { IsErrOf result Overflow → ¬ (TreeFits (edited_by (edit_in edit) self.old)) }
        ensures err { OnErr result (self.new ≡ self.old) }
    {
        let PathEdit {
            mut path,
            mut others,
            ..
        } = edit;
        let mut leaf = others.swap_remove(pair.other);
        push_index(&mut path, pair.child)?;
        leaf.set_span(self.node_at(&path).span());
        if !self.can_put(&path, &leaf) {
            return Err(ReplaceError::Overflow);
        }
        self.put_at(&path, &mut leaf);
        path.truncate(path.len() - 1);
        Ok(Reconciled {
            path,
            touched: Touched::Leaf { index: pair.child },
            moves: Moves::none(alloc),
        })
    }

    /// Makes an edit at its narrowest place.
    fn reconcile(&mut self, alloc: Global, mut edit: PathEdit) -> Result<Reconciled, ReplaceError>
        requires fits { Fits (edit_in edit) self.old }
        requires numbered { IsNumbered self.old }
        ensures reconciled { IfOk result (λ done. IsReconciled (edit_in edit) self.old done.path.items done.touched
            done.moves self.new) }
        ensures refused { IfErr result (λ why. IsUnreconciledBy why (edit_in edit) self.old) }
        ensures err { OnErr result (self.new ≡ self.old) }
    {
        if let Some(pair) = self.narrow(alloc, &mut edit)? {
            return self.put_leaf(alloc, edit, pair);
        }
        let PathEdit {
            path,
            from,
            to,
            others,
        } = edit;
        match self.replace_following(alloc, &path, from..to, others) {
            Ok(done) => Ok(Reconciled {
                path,
                touched: Touched::Window(done.renumbered),
                moves: done.moves,
            }),
            Err(why) => Err(why),
        }
    }
}

/// # Replacing children at any depth
impl SyntaxNode {
    /// Replaces the children in a range of the node that a path of child indices leads to, as far down as it can.
    ///
    /// The plain tree is then the one that [`SyntaxNode::replace_at`] makes. If all that changes is below one child, and
    /// this child and the new node in its place are inner nodes of one kind with the same warnings, the child goes on: it
    /// stays, and its children are edited instead. This is repeated.
    ///
    /// If a single leaf or error changes into one of its kind at last, that one takes over its span. No number changes,
    /// and the answer is [`Touched::Leaf`]. Otherwise children are replaced as [`SyntaxNode::replace_at`] does, below the
    /// last of the nodes that go on whose numbers all suffice for the new nodes below them. The answer is then
    /// [`Touched::Window`].
    ///
    /// The answer also has the moves: [`Moves::follow`] gives the number of each node that goes on, and
    /// [`Moves::follow_span`] its span.
    ///
    /// A leaf or an error at the path stays as it is. The answer is then the window `0..0` and 0 tried windows.
    ///
    /// The tests of the conditions are [`SyntaxNode::edit_fits`] and [`SyntaxNode::is_numbered`]. After an error nothing
    /// has changed, and the replacement is dropped. `Unnumberable` and `Overflow` come only if
    /// [`SyntaxNode::replace_at`] would answer them. `Memory` can come for any edit, since the path and the moves take
    /// memory.
    ///
    /// On the way down it compares each child with the node in its place once at most, and takes memory in proportion to
    /// the levels. Then it takes as long as [`SyntaxNode::replace_at`] at the place that it finds, and time and memory in
    /// proportion to the nodes that stay in the window.
    pub fn reconcile_at(
        &mut self,
        alloc: Global,
        path: &[usize],
        range: Range<usize>,
        replacement: Vec<SyntaxNode>,
    ) -> Result<Reconciled, ReplaceError>
        requires fits_ask_edit_fits { EditFits path.now range.start range.end self.old }
        requires numbered_ask_is_numbered { IsNumbered self.old }
        ensures leaf { ¬ (IsInnerAt path.now self.old) → (self.new ≡ self.old)
            × IfOk result (λ done. (done.path.items ≡ path.now) × (done.touched ≡ none_touched) × (done.moves ≡ no_moves)) }
        ensures reconciled { IfOk result (λ done. IsInnerAt path.now self.old
            → IsReconciled (edit_of path.now range replacement.items) self.old done.path.items done.touched
            done.moves self.new) }
        ensures refused { IfErr result (λ why. IsUnreconciledBy why (edit_of path.now range replacement.items)
            self.old) }
        ensures err { OnErr result (self.new ≡ self.old) }
    {
        let inner = self.node_at(path).is_inner();
        let path = path.to_vec(alloc)?;
        if inner {
            return self.reconcile(
                alloc,
                PathEdit {
                    path,
                    from: range.start,
                    to: range.end,
                    others: replacement,
                },
            );
        }
        Ok(Reconciled {
            path,
            touched: Touched::Window(Renumbered {
                window: 0..0,
                tried: 0,
            }),
            moves: Moves::none(alloc),
        })
    }
}
