//! Where two texts differ.

/// Two texts that are the same before one place and after another.
#[derive(Clone, Copy, Debug)]
pub(crate) struct Cut {
    /// Where the bytes begin that differ.
    pub(crate) start: usize,
    /// Where the differing bytes end in the old text.
    pub(crate) old_end: usize,
    /// Where the differing bytes end in the new text.
    pub(crate) new_end: usize,
}
