//! Reading the tree that a session holds.
ghost use Rattle.typst_node.specs.Text.{text, own_text};
ghost use Rattle.typst_session.specs.Reading.{ReadsInfo};
ghost use Rattle.typst_session.specs.Texts.{Writes, WritesOf};

use crate::info::NodeInfo;
use crate::refusal::Refusal;
use crate::session::Session;
use std::alloc::Global;

/// Writes bytes into a buffer if it has room for them, and tells in any case how many there are.
pub fn write_bytes(bytes: &[u8], out: &mut [u8], len: &mut usize) -> Result<(), Refusal>
    ensures { Writes bytes.now (record { items = out.old; len = len.old }) (record { items = out.new; len = len.new })
        result }
{
    *len = bytes.len();
    if out.len() < bytes.len() {
        return Err(Refusal::Buffer);
    }
    out[..bytes.len()].copy_from_slice(bytes);
    Ok(())
}

/// # Nodes and texts
impl Session {
    /// What one call reads of the node that a path leads to. It takes time in proportion to the path.
    pub fn node(&self, path: &[usize]) -> Result<NodeInfo, Refusal>
        ensures { ReadsInfo path.now self.now result }
    {
        match self.node_at(path) {
            Ok(node) => Ok(NodeInfo::of(node)),
            Err(refusal) => Err(refusal),
        }
    }

    /// Writes the text of the leaf or error that a path leads to, and tells how long it is. For an inner node the text
    /// is empty.
    pub fn leaf_text(&self, path: &[usize], out: &mut [u8], len: &mut usize) -> Result<(), Refusal>
        ensures { WritesOf (λ t. own_text t.label) path.now self.now (record { items = out.old; len = len.old })
            (record { items = out.new; len = len.new }) result }
    {
        match self.node_at(path) {
            Ok(node) => write_bytes(node.leaf_text().as_bytes(), out, len),
            Err(refusal) => Err(refusal),
        }
    }

    /// Writes the text of the subtree that a path leads to, and tells how long it is.
    ///
    /// It takes memory for a copy of the text.
    pub fn full_text(
        &self,
        alloc: Global,
        path: &[usize],
        out: &mut [u8],
        len: &mut usize,
    ) -> Result<(), Refusal>
        ensures { WritesOf text path.now self.now (record { items = out.old; len = len.old })
            (record { items = out.new; len = len.new }) result }
    {
        match self.node_at(path) {
            Ok(node) => {
                let text = node.full_text(alloc)?;
                write_bytes(text.as_str().as_bytes(), out, len)
            }
            Err(refusal) => Err(refusal),
        }
    }
}
