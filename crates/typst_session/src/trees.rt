//! The tree that a session holds: numbering and editing it.
ghost use Rattle.typst_session.specs.Trees.{NumbersLast, Renumbers, Replaces, TakesTree};

use crate::building::copies;
use crate::refusal::Refusal;
use crate::session::{Held, Session};
use std::alloc::Global;
use std::mem;
use std::ops::Range;
use typst_tree::{FileId, NumberedTree, Renumbered, Span};

/// # The tree
impl Session {
    /// Numbers the last node of the stack for a file within a range of node numbers, and makes it the tree that is
    /// held. It replaces what was held before.
    ///
    /// It takes time in proportion to the nodes, and no memory.
    pub fn number(&mut self, file: u16, within: Range<u64>) -> Result<(), Refusal>
        ensures { NumbersLast file within.start within.end self.old result self.new }
    {
        let Some(file) = FileId::new(file) else {
            return Err(Refusal::File);
        };
        if within.start < Span::FULL.start || Span::FULL.end < within.end {
            return Err(Refusal::Numbers);
        }
        let Some(node) = self.stack.last() else {
            return Err(Refusal::Stack);
        };
        let nodes = node.descendants() as u64;
        if within.end <= within.start || within.end - within.start < nodes {
            return Err(Refusal::Unnumberable);
        }
        let Some(root) = self.stack.pop() else {
            unreachable!();
        };
        match NumberedTree::number(root, file, within) {
            Ok(tree) => {
                self.held = Held::Tree(tree);
                self.last = None;
                Ok(())
            }
            Err(_) => unreachable!(),
        }
    }

    /// Numbers the tree that is held anew, for a file within a range of node numbers.
    ///
    /// It takes time in proportion to the nodes, and no memory.
    pub fn renumber(&mut self, file: u16, within: Range<u64>) -> Result<(), Refusal>
        ensures { Renumbers file within.start within.end self.old result self.new }
    {
        let tree = match &mut self.held {
            Held::Nothing => return Err(Refusal::NoTree),
            Held::Document(_) => return Err(Refusal::IsDocument),
            Held::Tree(tree) => tree,
        };
        let Some(file) = FileId::new(file) else {
            return Err(Refusal::File);
        };
        if within.start < Span::FULL.start || Span::FULL.end < within.end {
            return Err(Refusal::Numbers);
        }
        match tree.renumber(file, within) {
            Ok(()) => {
                self.last = None;
                Ok(())
            }
            Err(_) => Err(Refusal::Unnumberable),
        }
    }

    /// Puts the tree that is held back on the stack, with its spans. The session then holds no tree.
    pub fn take_tree(&mut self) -> Result<(), Refusal>
        ensures { TakesTree self.old result self.new }
    {
        match &self.held {
            Held::Nothing => return Err(Refusal::NoTree),
            Held::Document(_) => return Err(Refusal::IsDocument),
            Held::Tree(_) => {}
        }
        self.stack.reserve(1)?;
        let Held::Tree(tree) = mem::replace(&mut self.held, Held::Nothing) else {
            unreachable!();
        };
        self.last = None;
        match self.stack.push(tree.into_root()) {
            Ok(()) => Ok(()),
            Err(_) => unreachable!(),
        }
    }

    /// Takes the inner node that the path leads to in the tree that is held, and replaces its children in the range by
    /// the last `count` nodes of the stack. The range is of child indices. Tells which children were numbered anew.
    ///
    /// It takes as long as [`NumberedTree::replace`]. It also takes time and memory in proportion to the new nodes,
    /// since copies of them come into the tree. After a refusal the nodes themselves are still on the stack. No number
    /// can be followed over it; [`Session::reconcile`] keeps where each node is.
    pub fn replace(
        &mut self,
        alloc: Global,
        path: &[usize],
        range: Range<usize>,
        count: usize,
    ) -> Result<Renumbered, Refusal>
        ensures { Replaces path.now range.start range.end count self.old result self.new }
    {
        let tree = match &mut self.held {
            Held::Nothing => return Err(Refusal::NoTree),
            Held::Document(_) => return Err(Refusal::IsDocument),
            Held::Tree(tree) => tree,
        };
        let Some(start) = self.stack.len().checked_sub(count) else {
            return Err(Refusal::Stack);
        };
        let nodes = copies(alloc, &self.stack[start..])?;
        match tree.replace(alloc, path, range, nodes) {
            Ok(window) => {
                self.stack.truncate(start);
                self.last = None;
                Ok(window)
            }
            Err(error) => Err(Refusal::from(error)),
        }
    }
}
