//! How deep the trees of a script are, counted line by line, so that no call walks a tree that is too deep for the
//! stack.

use std::alloc::{AllocError, Global};
use typst_answers::remark::Remark;
use typst_script::Command;

/// How many levels the tree of a script may have. The tree of a text has at most 256.
pub(crate) const MOST_LEVELS: usize = 1000;

/// How many levels the nodes of a script have at most. A warning counts as a level, and so does a replacement that is
/// refused.
#[derive(Drop)]
pub(crate) struct Levels {
    /// The levels of the nodes on the stack, the newest last.
    stack: Vec<usize>,
    /// The levels of the tree.
    tree: usize,
    /// The levels of the tree once the queue is served.
    queued: usize,
}

impl Levels {
    /// The levels of a script without nodes.
    pub(crate) fn new(alloc: Global) -> Levels {
        Levels {
            stack: Vec::new(alloc),
            tree: 0,
            queued: 0,
        }
    }

    /// Whether no tree is deeper than can be shown.
    pub(crate) fn fit(&self) -> bool {
        let newest = self.stack.last().copied().unwrap_or(0);
        newest.max(self.tree).max(self.queued) <= MOST_LEVELS
    }

    /// Counts the effect of a line that was carried out.
    pub(crate) fn count(&mut self, line: &str) -> Result<(), AllocError> {
        match Command::parse(line) {
            Some(command) => self.count_command(&command),
            None => {
                if let Some(Remark::WarnAt { .. }) = Remark::parse(line) {
                    self.push_above(1)?;
                }
                Ok(())
            }
        }
    }

    /// Counts the effect of a command.
    fn count_command(&mut self, command: &Command<'_>) -> Result<(), AllocError> {
        match command {
            Command::Leaf { .. } | Command::Error { .. } => self.stack.push(1)?,
            Command::Warn { .. } => self.push_above(1)?,
            Command::Inner { count, .. } => self.push_above(*count)?,
            Command::Root => self.tree = self.stack.pop().unwrap_or(0),
            Command::Replace { path, count, .. } => {
                let above = path.word.split('.').count().saturating_add(1);
                let levels = above.saturating_add(self.pop(*count));
                self.queued = self.queued.max(levels);
            }
            Command::Run => self.tree = self.tree.max(self.queued),
            Command::Number { .. } | Command::Find { .. } | Command::Show => {}
        }
        Ok(())
    }

    /// Takes the newest nodes, and pushes a node above them.
    fn push_above(&mut self, count: u64) -> Result<(), AllocError> {
        let levels = self.pop(count).saturating_add(1);
        self.stack.push(levels)?;
        Ok(())
    }

    /// Takes the newest nodes, and returns the levels of the deepest.
    fn pop(&mut self, count: u64) -> usize {
        let mut deepest = 0;
        for _ in 0..count {
            let Some(levels) = self.stack.pop() else {
                break;
            };
            deepest = levels.max(deepest);
        }
        deepest
    }
}
