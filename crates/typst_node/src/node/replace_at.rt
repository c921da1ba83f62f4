//! Replacements at any depth.
ghost use Rattle.std.specs.Prelude.{[], ◌∷◌, ◌≡◌, ◌+◌, ◌-◌, ◌^◌, ◌<◌, ◌≤◌, ◌↔◌, ◌++◌, suc, length, set, slice_range, false, Ok, Err, Some, OnErr, IfOk, IfSome, IfNone, IfErr, IsSome, IsTrue};
ghost use Rattle.typst_node.specs.Tree.{trees};
ghost use Rattle.typst_node.specs.Text.{text, text_of_all};
ghost use Rattle.typst_node.specs.Count.{SumsFit, count, count_of_all};
ghost use Rattle.typst_node.specs.View.{IsMeasured};
ghost use Rattle.typst_node.specs.Stale.{IsStale};
ghost use Rattle.typst_node.specs.Paths.{IsInnerAt, IsPath, StaysBeside, tree_at, trees_at};
ghost use Rattle.typst_node.specs.PlainEdit.{edited_at, EditFits, FitsInner, TreeFits};
ghost use Rattle.typst_node.specs.Renumbering.{no_window};
ghost use Rattle.typst_node.specs.Growth.{ChildrenCanGrow};
ghost use Rattle.typst_node.specs.Edit.{Fits, IsNumberedOrUnfiled, edit_of};
ghost use Rattle.typst_node.specs.Accepted.{IsAccepted};
ghost use Rattle.typst_node.specs.Refusals.{IsRefusedBy, IsRefusedFollowing};
ghost use Rattle.typst_node.specs.Following.{IsFollowed};
ghost use Rattle.typst_node.specs.Moves.{numbers};
ghost use Rattle.typst_node.specs.Numbered.{IsNumbered, Rise};
ghost use Rattle.typst_node.specs.EditBelow.{child_of};
ghost use Rattle.typst_node.specs.Errand.{FitsAt, IsCarriedOut, IsErrand, IsNoted, IsSparing};

use crate::node::inner::Sums;
use crate::node::moves::{Moves, Noted};
use crate::node::replace::{Renumbered, ReplaceError, Splice};
use crate::node::settle::Change;
use crate::node::{InnerNode, Node, SyntaxNode};
use std::alloc::Global;
use std::mem;
use std::ops::Range;

/// A replacement on its way down to its node, and its outcome. Each step of the way takes it by reference, so that the
/// step takes little stack.
#[derive(Drop)]
struct Errand {
    edit: Splice,
    // The outcome, once it reached an inner node whose children hold the range.
    answer: Option<Result<Renumbered, ReplaceError>>,
    // What is noted before it is made, if that is asked for.
    noted: Option<Noted>,
}

/// The window that an edit numbered anew, and where the nodes are after it.
#[derive(Drop)]
pub(super) struct Followed {
    pub(super) renumbered: Renumbered,
    pub(super) moves: Moves,
}

impl Errand {
    /// Makes the replacement in its node, if that is an inner node and the range lies within its children.
    #[inline(never)]
    fn arrive(&mut self, node: &mut SyntaxNode)
        requires { IsErrand [] self.old node.old }
        ensures fits { IsSome self.new.answer ↔ FitsAt [] self.old node.old }
        ensures misfit { IfNone self.new.answer (node.new ≡ node.old) }
        ensures err { IfSome self.new.answer (λ answer. OnErr answer (node.new ≡ node.old)) }
        ensures label { node.new.label ≡ node.old.label }
        ensures done { IsCarriedOut self.old self.new node.old node.new }
        ensures asked { IsSome self.new.noted ↔ IsSome self.old.noted }
        ensures noted { IsNoted self.old self.new node.old }
        ensures sparing { IsSparing self.old self.new }
    {
        let none = Vec::new(*self.edit.others.allocator());
        let others = mem::replace(&mut self.edit.others, none);
        let edit = Splice {
            others,
            ..self.edit
        };
        self.answer = node.replace_range(edit, &mut self.noted);
    }
}

impl SyntaxNode {
    /// Replaces the children in a range of the node that a path leads to. It does so only if that is an inner node and
    /// the range lies within its children.
    #[cycle(at)]
    fn replace_below(&mut self, path: &[usize], errand: &mut Errand)
        requires { IsErrand path.now errand.old self.old }
        ensures fits { IsSome errand.new.answer ↔ FitsAt path.now errand.old self.old }
        ensures misfit { IfNone errand.new.answer (self.new ≡ self.old) }
        ensures err { IfSome errand.new.answer (λ answer. OnErr answer (self.new ≡ self.old)) }
        ensures frame { StaysBeside path.now self.old self.new }
        ensures at { IsCarriedOut errand.old errand.new (tree_at path.now self.old) (tree_at path.now self.new) }
        ensures asked { IsSome errand.new.noted ↔ IsSome errand.old.noted }
        ensures noted { IsNoted errand.old errand.new (tree_at path.now self.old) }
        ensures sparing { IsSparing errand.old errand.new }
    {
        match path.split_first() {
            None => errand.arrive(self),
            Some((index, rest)) => match &mut self.node {
                Node::Inner(_, len, inner) => {
                    if *index >= inner.children.len() {
                        return;
                    }
                    let beside = *len - inner.children[*index].len();
                    inner.replace_in(*index, rest, errand);
                    *len = beside + inner.children[*index].len();
                }
                Node::Short(..) | Node::Long(..) | Node::Leaf(..) | Node::Error(_) => {}
            },
        }
    }
}

impl InnerNode {
    /// Replaces children of a node below one child, and corrects what is kept about that child.
    #[cycle(at)]
    fn replace_in(&mut self, index: usize, path: &[usize], errand: &mut Errand)
        requires measured { IsMeasured self.old }
        requires growth { ChildrenCanGrow errand.old.edit.growth self.old.children.items }
        requires index { index < length self.old.children.items }
        requires edit { IsErrand path.now errand.old (child_of self.old.children.items index) }
        ensures measured { IsMeasured self.new }
        ensures sums { SumsFit self.new.children.items }
        ensures upper { self.new.upper ≡ self.old.upper }
        ensures warnings { self.new.extras.warnings ≡ self.old.extras.warnings }
        ensures fits { IsSome errand.new.answer ↔ FitsAt path.now errand.old (child_of self.old.children.items index) }
        ensures misfit { IfNone errand.new.answer (self.new.children.items ≡ self.old.children.items) }
        ensures err { IfSome errand.new.answer (λ answer. OnErr answer (self.new.children.items
            ≡ self.old.children.items)) }
        ensures one { self.new.children.items ≡ set self.old.children.items index
            (child_of self.new.children.items index) }
        ensures frame { StaysBeside path.now (child_of self.old.children.items index)
            (child_of self.new.children.items index) }
        ensures at { IsCarriedOut errand.old errand.new (tree_at path.now (child_of self.old.children.items index))
            (tree_at path.now (child_of self.new.children.items index)) }
        ensures asked { IsSome errand.new.noted ↔ IsSome errand.old.noted }
        ensures noted { IsNoted errand.old errand.new (tree_at path.now (child_of self.old.children.items index)) }
        ensures sparing { IsSparing errand.old errand.new }
    {
        let gone = self.children[index].measures();
        self.children[index].replace_below(path, errand);
        self.settle_child(index, gone);
    }

    /// Corrects what is kept after the child at an index changed. Before, the child had the sums `gone`. This call has
    /// a stack frame of its own, so that the way down takes less stack.
    #[inline(never)]
    pub(super) fn settle_child(&mut self, index: usize, gone: Sums)
        requires index { index < length self.old.children.items }
        requires stale { IsStale index (index + 1) 1 gone self.old }
        requires fits { SumsFit self.old.children.items }
        ensures measured { IsMeasured self.new }
        ensures upper { self.new.upper ≡ self.old.upper }
        ensures warnings { self.new.extras.warnings ≡ self.old.extras.warnings }
        ensures children { self.new.children ≡ self.old.children }
    {
        let added = self.children[index].measures();
        self.settle(&Change {
            from: index,
            to: index + 1,
            many: 1,
            gone,
            added,
        });
    }
}

/// # Replacing children at any depth
impl SyntaxNode {
    /// Whether a path of child indices leads to a node, and, if that is an inner node, whether the range of child
    /// indices lies within its children. This is the condition of [`SyntaxNode::replace_at`]. It takes time in
    /// proportion to the path.
    pub fn edit_fits(&self, path: &[usize], range: Range<usize>) -> bool
        ensures { IsTrue result ↔ EditFits path.now range.start range.end self.now }
    {
        match path.split_first() {
            None => {
                !self.is_inner()
                    || range.start <= range.end && range.end <= self.child_slice().len()
            }
            Some((index, rest)) => {
                *index < self.child_slice().len()
                    && self.child_slice()[*index].edit_fits(rest, range)
            }
        }
    }

    /// Replaces the children in a range of the node that a path of child indices leads to, if the edit fits. It works
    /// as [`SyntaxNode::replace_at`] does, and tests on the way whether the path leads to an inner node and whether the
    /// range lies within its children. If not, the answer is `None`. It goes down the path once. A call of
    /// [`SyntaxNode::edit_fits`] and then [`SyntaxNode::replace_at`] goes down twice.
    ///
    /// The test of the condition is [`SyntaxNode::is_numbered`]. `Overflow` comes exactly if the length or the node
    /// count of the whole tree, whose root this node is, would pass a usize. After `None` and after an error nothing
    /// has changed, and the replacement is dropped. It takes as long as [`SyntaxNode::replace_at`].
    pub fn try_replace_at(
        &mut self,
        _alloc: Global,
        path: &[usize],
        range: Range<usize>,
        replacement: Vec<SyntaxNode>,
    ) -> Option<Result<Renumbered, ReplaceError>>
        requires numbered_ask_is_numbered { IsNumberedOrUnfiled path.now self.old }
        ensures fits { IsSome result ↔ Fits (edit_of path.now range replacement.items) self.old }
        ensures misfit { IfNone result (self.new ≡ self.old) }
        ensures accepted { IfSome result (λ answer. IfOk answer (λ r.
            IsAccepted (edit_of path.now range replacement.items) self.old r self.new)) }
        ensures refused { IfSome result (λ answer. IfErr answer (λ why.
            IsRefusedBy why (edit_of path.now range replacement.items) self.old)) }
        ensures err { IfSome result (λ answer. OnErr answer (self.new ≡ self.old)) }
    {
        let edit = Splice {
            from: range.start,
            to: range.end,
            others: replacement,
            growth: self.growth(),
        };
        let mut errand = Errand {
            edit,
            answer: None,
            noted: None,
        };
        self.replace_below(path, &mut errand);
        errand.answer
    }

    /// Replaces the children in a range of the node that a path of child indices leads to, as
    /// [`SyntaxNode::replace_children`] does for that node. The window is among the children of that node. All lengths,
    /// node counts, diagnoses and child ends on the way are corrected. The other nodes keep their numbers.
    ///
    /// The tests of the conditions are [`SyntaxNode::edit_fits`] and [`SyntaxNode::is_numbered`]. `Overflow` comes
    /// exactly if the length or the node count of the whole tree, whose root this node is, would pass a usize. After an
    /// error nothing has changed, and the replacement is dropped.
    ///
    /// It takes as long as the replacement at the node itself, and some time at each node above it. If the length
    /// changes, it writes at most 256 numbers at each of these nodes, and 256 more each time that the number of its
    /// children is 256 times as large. If an error or a warning may have gone, it also takes time in proportion to the
    /// children of each of these nodes. Lists grow by their own allocator.
    pub fn replace_at(
        &mut self,
        alloc: Global,
        path: &[usize],
        range: Range<usize>,
        replacement: Vec<SyntaxNode>,
    ) -> Result<Renumbered, ReplaceError>
        requires fits_ask_edit_fits { EditFits path.now range.start range.end self.old }
        requires numbered_ask_is_numbered { IsNumberedOrUnfiled path.now self.old }
        ensures leaf { ¬ (IsInnerAt path.now self.old) → (self.new ≡ self.old) × (result ≡ Ok no_window) }
        ensures accepted { IfOk result (λ r. IsInnerAt path.now self.old
            → IsAccepted (edit_of path.now range replacement.items) self.old r self.new) }
        ensures refused { IfErr result (λ why. IsRefusedBy why (edit_of path.now range replacement.items) self.old) }
        ensures err { OnErr result (self.new ≡ self.old) }
    {
        match self.try_replace_at(alloc, path, range, replacement) {
            Some(answer) => answer,
            None => Ok(Renumbered {
                window: 0..0,
                tried: 0,
            }),
        }
    }

    /// Replaces children as [`SyntaxNode::replace_at`] does, and also says where the nodes of the tree are after it.
    ///
    /// It also takes time and memory in proportion to the nodes that stay in the window. It asks for this memory before
    /// it changes anything.
    pub(super) fn replace_following(
        &mut self,
        alloc: Global,
        path: &[usize],
        range: Range<usize>,
        replacement: Vec<SyntaxNode>,
    ) -> Result<Followed, ReplaceError>
        requires fits { Fits (edit_of path.now range replacement.items) self.old }
        requires numbered { IsNumbered self.old }
        ensures accepted { IfOk result (λ done.
            IsAccepted (edit_of path.now range replacement.items) self.old done.renumbered self.new) }
        ensures followed { IfOk result (λ done.
            IsFollowed (edit_of path.now range replacement.items) self.old self.new done.moves) }
        ensures file { IfOk result (λ done. done.moves.file ≡ Some self.old.label.span.file) }
        ensures refused { IfErr result (λ why.
            IsRefusedFollowing why (edit_of path.now range replacement.items) self.old) }
        ensures err { OnErr result (self.new ≡ self.old) }
    {
        let edit = Splice {
            from: range.start,
            to: range.end,
            others: replacement,
            growth: self.growth(),
        };
        let mut errand = Errand {
            edit,
            answer: None,
            noted: Some(Noted::none(alloc)),
        };
        self.replace_below(path, &mut errand);
        let noted = errand.noted.unwrap();
        match errand.answer.unwrap() {
            Ok(renumbered) => {
                let moves = self.moves_at(path, noted, &renumbered.window);
                Ok(Followed { renumbered, moves })
            }
            Err(why) => Err(why),
        }
    }

    /// The moves of an edit that was made, by what was noted of it.
    fn moves_at(&self, path: &[usize], noted: Noted, window: &Range<usize>) -> Moves
        requires path { IsPath path.now self.now }
        requires numbered { IsNumbered self.now }
        requires ahead { window.now.start + noted.ahead + noted.behind ≤ window.now.end }
        requires end { window.now.end ≤ length (trees_at path.now self.now) }
        requires rise { Rise noted.olds.items }
        requires many { length noted.room.items ≡ length noted.olds.items }
        requires room { length noted.room.items
            ≡ count_of_all (slice_range (trees_at path.now self.now) window.now.start (window.now.start + noted.ahead))
            + count_of_all (slice_range (trees_at path.now self.now) (window.now.end - noted.behind) window.now.end) }
        ensures { result ≡ record {
          file = Some self.now.label.span.file;
          olds = noted.olds.items;
          news = numbers (slice_range (trees_at path.now self.now) window.now.start (window.now.start + noted.ahead)
              ++ slice_range (trees_at path.now self.now) (window.now.end - noted.behind) window.now.end);
          gone = noted.gone;
        } }
    {
        let children = self.node_at(path).child_slice();
        let ahead = &children[window.start..window.start + noted.ahead];
        let behind = &children[window.end - noted.behind..window.end];
        Moves::new(self.span().id(), noted, ahead, behind)
    }
}
