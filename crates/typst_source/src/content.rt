//! Replaces a part of a text by another text, and puts it back.
ghost use Rattle.std.specs.Prelude.{ℕ, ◌≡◌, ◌+◌, ◌≤◌, length, slice_range, IfOk, OnOk, OnErr, string_bytes, string_len, string_capacity};
ghost use Rattle.std.specs.List.{replace_range};
ghost use Rattle.std.specs.Str.{IsCharBoundary};

use std::alloc::{AllocError, Global};
use std::ops::Range;

/// Replaces a range of bytes by a text, and answers what was there before. Afterwards the text has room for that to
/// come back.
pub(crate) fn put(
    alloc: Global,
    content: &mut String,
    range: &Range<usize>,
    with: &str,
) -> Result<String, AllocError>
    requires ordered { range.now.start ≤ range.now.end }
    requires start { IsCharBoundary (string_bytes content.old) range.now.start }
    requires end { IsCharBoundary (string_bytes content.old) range.now.end }
    ensures err { OnErr result (string_bytes content.new ≡ string_bytes content.old) }
    ensures put { OnOk result (string_bytes content.new
        ≡ replace_range (string_bytes content.old) range.now.start range.now.end with.now) }
    ensures gone { IfOk result (λ gone. string_bytes gone
        ≡ slice_range (string_bytes content.old) range.now.start range.now.end) }
    ensures room { IfOk result (λ gone. string_len content.new + length (string_bytes gone) ≤ string_capacity
        content.new) }
{
    let gone = String::from_str(alloc, &content.as_str()[range.start..range.end])?;
    content.reserve(with.len())?;
    content.replace_range(range.start..range.end, with)?;
    Ok(gone)
}

/// Puts back what went, in place of what came. The text has room for it.
pub(crate) fn put_back(content: &mut String, range: &Range<usize>, gone: &str)
    requires ordered { range.now.start ≤ range.now.end }
    requires start { IsCharBoundary (string_bytes content.old) range.now.start }
    requires end { IsCharBoundary (string_bytes content.old) range.now.end }
    requires room { string_len content.old + length gone.now ≤ string_capacity content.old }
    ensures { string_bytes content.new ≡ replace_range (string_bytes content.old) range.now.start range.now.end
        gone.now }
{
    match content.replace_range(range.start..range.end, gone) {
        Ok(()) => {}
        Err(_) => unreachable!(),
    }
}
