//! Comparing nodes.
ghost use Rattle.typst_session.specs.Comparing.{Compares};

use crate::refusal::Refusal;
use crate::session::Session;

/// # Comparing
impl Session {
    /// Whether the subtree that a path leads to and a subtree of another session are equal apart from spans and bounds:
    /// they have the same kinds, texts, messages, hints and warnings. It takes time in proportion to the smaller one at
    /// most, and no memory.
    pub fn spanless_eq(
        &self,
        path: &[usize],
        other: &Session,
        other_path: &[usize],
    ) -> Result<bool, Refusal>
        ensures { Compares path.now self.now other_path.now other.now result }
    {
        let node = match self.node_at(path) {
            Ok(node) => node,
            Err(refusal) => return Err(refusal),
        };
        match other.node_at(other_path) {
            Ok(other) => Ok(node.spanless_eq(other)),
            Err(refusal) => Err(refusal),
        }
    }
}
