//! What binary search finds among the children of a node.

/// The index and the number of a node whose number is at most the wanted number.
#[derive(Clone, Copy, Debug)]
pub(crate) struct Floor {
    pub(crate) index: usize,
    pub(crate) number: u64,
}

/// The index of a child, and how many bytes of text the children before it have.
#[derive(Clone, Copy, Debug)]
pub(crate) struct Part {
    pub(crate) index: usize,
    pub(crate) begin: usize,
}
