//! Where lines begin, as a list.
use std::alloc::{AllocError, Global};
use typst_lines::Lines;

/// Where the lines begin.
pub(crate) fn listed(alloc: Global, lines: &Lines) -> Result<Vec<usize>, AllocError> {
    let mut starts = Vec::new(alloc);
    for line in 0..lines.len_lines() {
        if let Some(start) = lines.line_to_byte(line) {
            starts.push(start)?;
        }
    }
    Ok(starts)
}
