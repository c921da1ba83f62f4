//! Replacements of children.
ghost use Rattle.std.specs.Prelude.{[], List, ◌++◌, slice_range, IsNone, ◌≡◌, ◌+◌, ◌-◌, ◌^◌, ◌<◌, ◌≤◌, ◌↔◌, length, IfSome, IfNone, IsSome, Ok, IsOk, IfErr, IfOk, IsTrue, OnOk, OnErr, IsErrOf, MatchOption};
ghost use Rattle.std.specs.List.{splice};
ghost use Rattle.typst_node.specs.Tree.{Tree, forest, trees, IsInner};
ghost use Rattle.typst_node.specs.Numbered.{Rise};
ghost use Rattle.typst_node.specs.Moves.{numbers, AreNoted, AreNotedFor};
ghost use Rattle.typst_node.specs.Text.{text_of_all};
ghost use Rattle.typst_node.specs.Count.{SumsFit, count_of_all};
ghost use Rattle.typst_node.specs.Interval.{IsWithin};
ghost use Rattle.typst_node.specs.View.{IsMeasured};
ghost use Rattle.typst_node.specs.PlainEdit.{FitsInner, RangeFits};
ghost use Rattle.typst_node.specs.Edit.{IsNumberedOrUnfiled, edit_of};
ghost use Rattle.typst_node.specs.Accepted.{IsAccepted};
ghost use Rattle.typst_node.specs.Refusals.{IsRefusedBy};
ghost use Rattle.typst_node.specs.Window.{Site, site_at, site_among};
ghost use Rattle.typst_node.specs.FirstWindow.{HasNoFirst};
ghost use Rattle.typst_node.specs.Renumbering.{no_window};
ghost use Rattle.typst_node.specs.Sites.{IsFound};
ghost use Rattle.typst_node.specs.Change.{IsChange};
ghost use Rattle.typst_node.specs.Growth.{GrowWithin, CanGrow, ChildrenCanGrow, IsLargestGrowth};
ghost use Rattle.typst_node.specs.EditBelow.{AreReplaced, IsReplacement};
ghost use Rattle.typst_node.specs.declared.node.replace.ReplaceError.TheVariants.{Memory};

use crate::exchange::exchange;
use crate::node::inner::sums_of;
use crate::node::moves::Noted;
use crate::node::settle::Change;
use crate::node::trim::{count_common_first, count_common_last, trim};
use crate::node::window::{self, Found, find, open_before, open_behind};
use crate::node::{InnerNode, Node, SyntaxNode};
use std::alloc::{AllocError, Global};
use std::ops::Range;
use thiserror::Error;
use typst_base::FileId;

/// Why children were not replaced. Nothing has changed then, and the replacement is dropped.
#[derive(Clone, Copy, Debug, PartialEq, Eq, Error)]
pub enum ReplaceError {
    /// No window of children has room for new numbers, or the edited node has no file id.
    #[error("no window of children has room for new numbers")]
    Unnumberable,
    /// The length of the text or the number of nodes would pass a usize.
    #[error("the tree is too large")]
    Overflow,
    /// Memory for a longer list of children was refused.
    #[error("out of memory")]
    Memory,
}

impl From<AllocError> for ReplaceError {
    ghost from_gives = { λ _ e. e ≡ Memory };

    fn from(_e: AllocError) -> ReplaceError {
        ReplaceError::Memory
    }
}

/// The window that an accepted replacement numbered anew.
#[derive(Clone, Debug, PartialEq, Eq, Drop)]
pub struct Renumbered {
    /// The window: the indices of the children that were numbered anew, in the new list of children.
    pub window: Range<usize>,
    /// The number of windows that were tried, this one included.
    pub tried: usize,
}

/// The bytes and nodes that the whole tree may gain, so that its sums still fit a usize.
#[derive(Clone, Copy)]
pub(super) struct Growth {
    pub(super) len: usize,
    pub(super) descendants: usize,
}

/// Other nodes in place of some children, and how much the tree may grow. The call passes it down to where the children
/// move.
#[derive(Drop)]
pub(super) struct Splice {
    // The indices of the children that go.
    pub(super) from: usize,
    pub(super) to: usize,
    // The nodes that come.
    pub(super) others: Vec<SyntaxNode>,
    pub(super) growth: Growth,
}

/// The number of the node whose children are replaced: its file id, if it has one, and its own number in the file.
#[derive(Clone, Copy)]
struct ParentNumber {
    id: Option<FileId>,
    number: u64,
}

impl InnerNode {
    /// The change that replaces some children by others, if the tree may grow so much. It reads only these children and
    /// the others.
    #[tactic(auto, using(crate::proofs::Opens::splice_count, crate::proofs::Opens::splice_text))]
    fn change(&self, edit: &Splice) -> Option<Change>
        requires measured { IsMeasured self.now }
        requires window { edit.now.from ≤ edit.now.to }
        requires inside { edit.now.to ≤ length self.now.children.items }
        requires growth { ChildrenCanGrow edit.now.growth self.now.children.items }
        ensures { let new : List Tree = splice self.now.children.items edit.now.from edit.now.to edit.now.others.items in
            MatchOption result (¬ (GrowWithin edit.now.growth self.now.children.items new))
            (λ change. GrowWithin edit.now.growth self.now.children.items new
            × IsChange edit.now.from edit.now.to self.now.children.items edit.now.others.items change) }
    {
        let gone = sums_of(&self.children[edit.from..edit.to])?;
        let added = sums_of(&edit.others)?;
        if added.len > gone.len + edit.growth.len
            || added.descendants > gone.descendants + edit.growth.descendants
        {
            return None;
        }
        Some(Change {
            from: edit.from,
            to: edit.to,
            many: edit.others.len(),
            gone,
            added,
        })
    }

    /// Replaces some children by others. It takes memory only if the list grows, and asks for it first.
    fn put(&mut self, edit: Splice, change: &Change) -> Result<(), AllocError>
        requires measured { IsMeasured self.old }
        requires window { edit.from ≤ edit.to }
        requires inside { edit.to ≤ length self.old.children.items }
        requires fits { SumsFit self.old.children.items }
        requires change { IsChange edit.from edit.to self.old.children.items edit.others.items change.now }
        ensures measured { IsMeasured self.new }
        ensures upper { self.new.upper ≡ self.old.upper }
        ensures warnings { self.new.extras.warnings ≡ self.old.extras.warnings }
        ensures ok { OnOk result (self.new.children.items
            ≡ splice self.old.children.items edit.from edit.to edit.others.items) }
        ensures err { OnErr result (self.new.children.items ≡ self.old.children.items) }
        ensures succeeds { length edit.others.items ≤ edit.to - edit.from → IsOk result }
    {
        let more = change.many.saturating_sub(change.to - change.from);
        self.children.reserve(more)?;
        let alloc = *self.children.allocator();
        self.extras.make_place(alloc, &self.children, change)?;
        exchange(&mut self.children, change.from, change.to, edit.others)?;
        self.settle(change);
        Ok(())
    }

    /// The first window with room, if others replace some children.
    #[tactic(auto, using(crate::proofs::Opens::splice_count, crate::proofs::Opens::part_count))]
    fn window(&self, number: u64, edit: &Splice, change: &Change) -> Option<Found>
        requires measured { IsMeasured self.now }
        requires number { number < 2 ^ 48 }
        requires window { edit.now.from ≤ edit.now.to }
        requires inside { edit.now.to ≤ length self.now.children.items }
        requires change { IsChange edit.now.from edit.now.to self.now.children.items edit.now.others.items change.now }
        ensures { let s : Site = site_at (number + 1) self.now.upper
            edit.now.from edit.now.to edit.now.others.items self.now.children.items in
            MatchOption result (HasNoFirst s) (IsFound s) }
    {
        let (before, _) = self.children.split_at(edit.from);
        let (_, behind) = self.children.split_at(edit.to);
        let site = window::Site {
            before,
            changed: &edit.others,
            behind,
            first: number + 1,
            end: self.upper,
            added: change.added.descendants,
            total: self.descendants - change.gone.descendants + change.added.descendants,
        };
        find(&site)
    }
}

impl InnerNode {
    /// What is noted of an edit before it is made: the numbers of the children that stay in its window, and room for those
    /// after it. It is a call of its own, so that edits without a note have a small function.
    #[inline(never)]
    fn noted(&self, edit: &Splice, first: u64, window: Range<usize>) -> Result<Noted, AllocError>
        requires order { edit.now.from ≤ edit.now.to }
        requires inside { edit.now.to ≤ length self.now.children.items }
        requires start { window.start ≤ edit.now.from }
        requires changed { edit.now.from + length edit.now.others.items ≤ window.end }
        requires end { window.end + edit.now.to
            ≤ edit.now.from + length edit.now.others.items + length self.now.children.items }
        requires fits { SumsFit self.now.children.items }
        requires rise { Rise (numbers self.now.children.items) }
        ensures { let s : Site = site_at first self.now.upper edit.now.from edit.now.to edit.now.others.items
            self.now.children.items in IfOk result (AreNoted s window) }
    {
        let ahead = &self.children[window.start..edit.from];
        let last = edit.to + (window.end - (edit.from + edit.others.len()));
        let behind = &self.children[edit.to..last];
        let (before, _) = self.children.split_at(edit.from);
        let (_, rest) = self.children.split_at(edit.to);
        let gone = open_behind(before, first)..open_before(rest, self.upper);
        let alloc = *self.children.allocator();
        let noted = Noted::note(alloc, ahead, behind, gone)?;
        Ok(noted)
    }

    /// Notes an edit, if there is a note to fill.
    #[inline(always)]
    fn note(
        &self,
        edit: &Splice,
        first: u64,
        window: Range<usize>,
        noted: &mut Option<Noted>,
    ) -> Result<(), AllocError>
        requires order { edit.now.from ≤ edit.now.to }
        requires inside { edit.now.to ≤ length self.now.children.items }
        requires start { window.start ≤ edit.now.from }
        requires changed { edit.now.from + length edit.now.others.items ≤ window.end }
        requires end { window.end + edit.now.to
            ≤ edit.now.from + length edit.now.others.items + length self.now.children.items }
        requires fits { SumsFit self.now.children.items }
        requires rise { Rise (numbers self.now.children.items) }
        ensures asked { IsSome noted.new ↔ IsSome noted.old }
        ensures noted { let s : Site = site_at first self.now.upper edit.now.from edit.now.to edit.now.others.items
            self.now.children.items in OnOk result (IfSome noted.new (AreNoted s window)) }
        ensures memory { IsNone noted.old → IsOk result }
    {
        if noted.is_some() {
            *noted = Some(self.noted(edit, first, window)?);
        }
        Ok(())
    }
}

impl InnerNode {
    /// Replaces some children, none of which stays. It decides by counts alone, asks for memory, and only then writes.
    fn replace_changed(
        &mut self,
        len: &mut usize,
        parent: ParentNumber,
        edit: Splice,
        noted: &mut Option<Noted>,
    ) -> Result<Renumbered, ReplaceError>
        requires len { len.old ≡ length (text_of_all self.old.children.items) }
        requires measured { IsMeasured self.old }
        requires window { edit.from ≤ edit.to }
        requires inside { edit.to ≤ length self.old.children.items }
        requires growth { ChildrenCanGrow edit.growth self.old.children.items }
        requires number { (2 ≤ parent.number + 1) × (parent.number < 2 ^ 48) }
        requires upper { IfSome parent.id (λ file. self.old.upper ≤ 2 ^ 47) }
        requires within { IfSome parent.id (λ file.
            IsWithin file (parent.number + 1) self.old.upper (forest self.old.children.items)) }
        ensures made { let site : Site = site_at (parent.number + 1) self.old.upper
            edit.from edit.to edit.others.items self.old.children.items in
            AreReplaced site edit.growth parent.id self.old self.new len.new result }
        ensures asked { IsSome noted.new ↔ IsSome noted.old }
        ensures noted { let site : Site = site_at (parent.number + 1) self.old.upper
            edit.from edit.to edit.others.items self.old.children.items in
            IfOk result (λ r. IfSome noted.new (AreNoted site r.window)) }
        ensures memory { IsNone noted.old → length edit.others.items ≤ edit.to - edit.from
            → ¬ (IsErrOf result Memory) }
    {
        let Some(change) = self.change(&edit) else {
            return Err(ReplaceError::Overflow);
        };
        let Some(id) = parent.id else {
            return Err(ReplaceError::Unnumberable);
        };
        let Some(found) = self.window(parent.number, &edit, &change) else {
            return Err(ReplaceError::Unnumberable);
        };
        let start = edit.from.saturating_sub(found.width);
        let end = edit.from + edit.others.len() + found.width.min(self.children.len() - edit.to);
        self.note(&edit, parent.number + 1, start..end, noted)?;
        self.put(edit, &change)?;
        *len = *len - change.gone.len + change.added.len;
        self.renumber(id, start..end, found.numbering);
        Ok(Renumbered {
            window: start..end,
            tried: found.tried,
        })
    }
}

impl InnerNode {
    /// Whether the range of children that go lies within the children.
    fn holds(&self, edit: &Splice) -> bool
        ensures { IsTrue result ↔ ((edit.now.from ≤ edit.now.to) × (edit.now.to ≤ length self.now.children.items)) }
    {
        edit.from <= edit.to && edit.to <= self.children.len()
    }

    /// Replaces some children. Those that the replacement has alike at its beginning or at its end stay.
    fn replace(
        &mut self,
        len: &mut usize,
        parent: ParentNumber,
        edit: Splice,
        noted: &mut Option<Noted>,
    ) -> Result<Renumbered, ReplaceError>
        requires len { len.old ≡ length (text_of_all self.old.children.items) }
        requires measured { IsMeasured self.old }
        requires window { edit.from ≤ edit.to }
        requires inside { edit.to ≤ length self.old.children.items }
        requires growth { ChildrenCanGrow edit.growth self.old.children.items }
        requires number { (2 ≤ parent.number + 1) × (parent.number < 2 ^ 48) }
        requires upper { IfSome parent.id (λ file. self.old.upper ≤ 2 ^ 47) }
        requires within { IfSome parent.id (λ file.
            IsWithin file (parent.number + 1) self.old.upper (forest self.old.children.items)) }
        ensures made { let site : Site = site_among (parent.number + 1) self.old.upper
            edit.from edit.to edit.others.items self.old.children.items in
            AreReplaced site edit.growth parent.id self.old self.new len.new result }
        ensures asked { IsSome noted.new ↔ IsSome noted.old }
        ensures noted { let site : Site = site_among (parent.number + 1) self.old.upper
            edit.from edit.to edit.others.items self.old.children.items in
            IfOk result (λ r. IfSome noted.new (AreNoted site r.window)) }
        ensures memory { IsNone noted.old → length edit.others.items ≤ edit.to - edit.from
            → ¬ (IsErrOf result Memory) }
    {
        let Splice {
            from,
            to,
            mut others,
            growth,
        } = edit;
        let first = count_common_first(&self.children[from..to], &others);
        let (_, left) = others.split_at(first);
        let last = count_common_last(&self.children[from + first..to], left);
        trim(&mut others, first, last);
        let rest = Splice {
            from: from + first,
            to: to - last,
            others,
            growth,
        };
        self.replace_changed(len, parent, rest, noted)
    }
}

impl SyntaxNode {
    /// How much this tree may grow, if it is the whole tree.
    pub(super) fn growth(&self) -> Growth
        ensures { IsLargestGrowth result self.now }
    {
        Growth {
            len: usize::MAX - self.len(),
            descendants: usize::MAX - self.descendants(),
        }
    }

    /// Replaces the children in a range, if this is an inner node and the range lies within its children.
    #[inline(never)]
    pub(super) fn replace_range(
        &mut self,
        edit: Splice,
        noted: &mut Option<Noted>,
    ) -> Option<Result<Renumbered, ReplaceError>>
        requires numbered { FitsInner [] edit.from edit.to self.old → IsNumberedOrUnfiled [] self.old }
        requires growth { CanGrow edit.growth self.old }
        ensures fits { IsSome result ↔ FitsInner [] edit.from edit.to self.old }
        ensures misfit { IfNone result (self.new ≡ self.old) }
        ensures err { IfSome result (λ answer. OnErr answer (self.new ≡ self.old)) }
        ensures made { IfSome result (IsReplacement edit.from edit.to edit.others.items edit.growth self.old self.new) }
        ensures asked { IsSome noted.new ↔ IsSome noted.old }
        ensures noted { IfSome result (AreNotedFor edit.from edit.to edit.others.items self.old noted.new) }
        ensures memory { IsNone noted.old → length edit.others.items ≤ edit.to - edit.from
            → IfSome result (λ answer. ¬ (IsErrOf answer Memory)) }
    {
        let id = self.span.id();
        let number = self.span.number();
        match &mut self.node {
            Node::Inner(_, len, inner) => {
                if !inner.holds(&edit) {
                    return None;
                }
                return Some(inner.replace(len, ParentNumber { id, number }, edit, noted));
            }
            Node::Short(..) | Node::Long(..) | Node::Leaf(..) | Node::Error(_) => None,
        }
    }
}

/// # Replacing children of the node itself
impl SyntaxNode {
    /// Replaces the children in a range, and numbers as few of their neighbours anew as room allows.
    ///
    /// `range` holds child indices. Old children stay with their numbers if the replacement has alike children, by
    /// [`SyntaxNode::spanless_eq`], at its beginning or its end. The window starts as the rest of the replacement. It
    /// widens by 1, 2, 4, 8 and so on neighbours on each side. It stops when its open numbers, between the children
    /// beside it, are at least twice its nodes or at least all nodes of this node. The nodes of the window get new
    /// numbers in this node's file. All others keep theirs.
    ///
    /// A leaf or an error stays as it is. The answer is then the window `0..0` and 0 tried windows.
    ///
    /// The tests of the conditions are [`SyntaxNode::edit_fits`] with an empty path, and [`SyntaxNode::is_numbered`].
    /// After an error nothing has changed, and the replacement is dropped. `Overflow` comes before `Unnumberable`, and
    /// this before `Memory`. `Memory` comes only if the number of children grows.
    ///
    /// It takes time in proportion to the children in the range, to the replacement, and to the trees of the window. If
    /// the number of children changes, those after the range are moved. If only their length changes, at most 256
    /// numbers are written, and 256 more each time that the number of children is 256 times as large. If the range held
    /// an error and the replacement holds none, the children are searched for other errors. The same is true of
    /// warnings. Lists grow by their own allocator.
    pub fn replace_children(
        &mut self,
        _alloc: Global,
        range: Range<usize>,
        replacement: Vec<SyntaxNode>,
    ) -> Result<Renumbered, ReplaceError>
        requires fits_ask_edit_fits { RangeFits range.start range.end self.old }
        requires numbered_ask_is_numbered { IsNumberedOrUnfiled [] self.old }
        ensures leaf { ¬ (IsInner self.old.label.content) → (self.new ≡ self.old) × (result ≡ Ok no_window) }
        ensures accepted { IfOk result (λ r. IsInner self.old.label.content
            → IsAccepted (edit_of [] range replacement.items) self.old r self.new) }
        ensures refused { IfErr result (λ why. IsRefusedBy why (edit_of [] range replacement.items) self.old) }
        ensures err { OnErr result (self.new ≡ self.old) }
        ensures label { self.new.label ≡ self.old.label }
    {
        let edit = Splice {
            from: range.start,
            to: range.end,
            others: replacement,
            growth: self.growth(),
        };
        let answer = self.replace_range(edit, &mut None);
        if let Some(answer) = answer {
            return answer;
        }
        Ok(Renumbered {
            window: 0..0,
            tried: 0,
        })
    }
}
