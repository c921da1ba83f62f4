//! Edits of the tree that a session keeps, so that kept numbers can be followed.
ghost use Rattle.std.specs.Prelude.{◌≡◌, None, IfErr, IfOk, IsSomeAnd};
ghost use Rattle.typst_session.specs.Changes.{Follows, IsChangeBelow, IsLastUpdate, Reconciles, Sends, Updates};
ghost use Rattle.typst_session.specs.declared.refusal.Refusal.TheVariants.{NoEdit};

use crate::building::copies;
use crate::refusal::Refusal;
use crate::session::{Held, LastEdit, Session};
use std::alloc::Global;
use std::ops::Range;
use typst_node::{Below, ReplaceError, Touched, Updated};

/// What an edit changed: children of one node.
#[derive(Clone, Debug, PartialEq, Eq, Drop)]
pub struct Change {
    /// How many child indices lead from the root to that node.
    pub depth: usize,
    /// What changed of its children.
    pub touched: Touched,
    /// How many nodes that stay were numbered anew.
    pub moved: usize,
}

/// What an update changed below the root, and what is kept of it.
fn change_below(alloc: Global, done: Updated) -> (Option<Change>, LastEdit)
    ensures told { IsChangeBelow done.below done.moves result.0 }
    ensures kept { IsLastUpdate done result.1 }
{
    let Updated { below, moves } = done;
    match below {
        Some(Below { path, touched }) => {
            let change = Change {
                depth: path.len(),
                touched,
                moved: moves.moved().0.len(),
            };
            (Some(change), LastEdit { path, moves })
        }
        None => (
            None,
            LastEdit {
                path: Vec::new(alloc),
                moves,
            },
        ),
    }
}

/// # Edits that are kept
impl Session {
    /// Takes the inner node that the path leads to in the tree that is held, and replaces its children in the range by
    /// the last `count` nodes of the stack. The range is of child indices. [`Session::follow`] follows the
    /// nodes that go on.
    ///
    /// It takes as long as `NumberedTree::reconcile`. It also takes time and memory in proportion to the new nodes,
    /// since copies of them come into the tree. After a refusal the nodes themselves are still on the stack.
    pub fn reconcile(
        &mut self,
        alloc: Global,
        path: &[usize],
        range: Range<usize>,
        count: usize,
    ) -> Result<Change, Refusal>
        ensures { Reconciles path.now range.start range.end count self.old result self.new }
    {
        let tree = match &mut self.held {
            Held::Nothing => return Err(Refusal::NoTree),
            Held::Document(_) => return Err(Refusal::IsDocument),
            Held::Tree(tree) => tree,
        };
        let Some(start) = self.stack.len().checked_sub(count) else {
            return Err(Refusal::Stack);
        };
        let nodes = copies(alloc, &self.stack[start..])?;
        match tree.reconcile(alloc, path, range, nodes) {
            Ok(done) => {
                self.stack.truncate(start);
                let change = Change {
                    depth: done.path.len(),
                    touched: done.touched,
                    moved: done.moves.moved().0.len(),
                };
                self.last = Some(LastEdit {
                    path: done.path,
                    moves: done.moves,
                });
                Ok(change)
            }
            Err(error) => Err(Refusal::from(error)),
        }
    }

    /// Puts the last node of the stack in place of the tree that is held. [`Session::follow`] follows the
    /// nodes that go on. Tells what changed below the root, or `None` if the root itself did.
    ///
    /// It takes as long as `NumberedTree::update`. It also takes time and memory in proportion to the new nodes, since
    /// a copy comes into the tree. After a refusal the node itself is still on the stack.
    pub fn update(&mut self, alloc: Global) -> Result<Option<Change>, Refusal>
        ensures { Updates self.old result self.new }
    {
        let tree = match &mut self.held {
            Held::Nothing => return Err(Refusal::NoTree),
            Held::Document(_) => return Err(Refusal::IsDocument),
            Held::Tree(tree) => tree,
        };
        let Some(node) = self.stack.last() else {
            return Err(Refusal::Stack);
        };
        let node = node.clone()?;
        match tree.update(alloc, node) {
            Ok(done) => {
                self.stack.pop();
                let (change, last) = change_below(alloc, done);
                self.last = Some(last);
                Ok(change)
            }
            Err(ReplaceError::Unnumberable) => Err(Refusal::Unnumberable),
            Err(ReplaceError::Memory) => Err(Refusal::Memory),
            Err(ReplaceError::Overflow) => unreachable!(),
        }
    }

    /// The number that a node has after the last edit, by its number before that edit.
    ///
    /// It takes no memory, and time in proportion to the binary digits of the number of nodes in the edit's window.
    pub fn follow(&self, number: u64) -> Result<u64, Refusal>
        ensures { Follows number self.now result }
    {
        let Some(last) = &self.last else {
            return Err(Refusal::NoEdit);
        };
        match last.moves.follow(number) {
            Some(now) => Ok(now),
            None => Err(Refusal::NotFound),
        }
    }

    /// The path to the node whose children the last edit changed. It is empty if the root itself was changed.
    pub fn edited_path(&self) -> Result<&[usize], Refusal>
        ensures ok { IfOk result (λ path. IsSomeAnd self.now.last (λ edit. edit.path.items ≡ path.now)) }
        ensures err { IfErr result (λ refusal. (refusal ≡ NoEdit) × (self.now.last ≡ None)) }
    {
        match &self.last {
            Some(last) => Ok(&last.path),
            None => Err(Refusal::NoEdit),
        }
    }

    /// Moves the last node of the stack to the stack of another session.
    pub fn send(&mut self, other: &mut Session) -> Result<(), Refusal>
        ensures { Sends self.old other.old result self.new other.new }
    {
        if self.stack.is_empty() {
            return Err(Refusal::Stack);
        }
        other.stack.reserve(1)?;
        let Some(node) = self.stack.pop() else {
            unreachable!();
        };
        match other.stack.push(node) {
            Ok(()) => Ok(()),
            Err(_) => unreachable!(),
        }
    }
}
