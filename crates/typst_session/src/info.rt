//! What one call reads of a node.
ghost use Rattle.std.specs.Prelude.{IsTrue};
ghost use Rattle.typst_session.specs.Flags.{IsFlag};
ghost use Rattle.typst_session.specs.Reading.{IsInfo};

use typst_tree::SyntaxNode;

/// What one call reads of a node.
#[repr(C)]
#[derive(Clone, Copy, Drop)]
pub struct NodeInfo {
    /// The number of its span, which is 1 if the span is detached.
    pub number: u64,
    /// Its bound, a number above the numbers of its subtree once the subtree is numbered.
    pub bound: u64,
    /// The length of its text in bytes.
    pub len: usize,
    /// How many children it has.
    pub children: usize,
    /// How many nodes its tree has, itself included.
    pub descendants: usize,
    /// The number of its kind.
    pub kind: u32,
    /// 1 for a leaf and for an error whose text isn't empty, else 0.
    pub leaf: u8,
    /// 1 for an inner node, else 0.
    pub inner: u8,
    /// 1 if its tree holds an error, else 0.
    pub errors: u8,
    /// 1 if its tree holds a warning, else 0.
    pub warnings: u8,
}

/// 1 for true, and 0 for false.
pub(crate) fn bit(flag: bool) -> u8
    ensures { IsFlag result (IsTrue flag) }
{
    if flag { 1 } else { 0 }
}

impl NodeInfo {
    /// What is read of a node. It takes constant time.
    pub fn of(node: &SyntaxNode) -> NodeInfo
        ensures { IsInfo node.now result }
    {
        let diagnosis = node.diagnosis();
        NodeInfo {
            number: node.span().number(),
            bound: node.upper(),
            len: node.len(),
            children: node.child_slice().len(),
            descendants: node.descendants(),
            kind: node.kind().to_u8() as u32,
            leaf: bit(node.is_leaf()),
            inner: bit(node.is_inner()),
            errors: bit(diagnosis.errors),
            warnings: bit(diagnosis.warnings),
        }
    }
}
