//! The lines of a reader, one by one.
ghost use Rattle.std.specs.Prelude.{◌≡◌, ◌≢◌, ◌⊎◌, [], IfErr, IfOk, OnOk, IfSome, IsTrue, string_bytes};
ghost use Rattle.std.specs.Io.BufRead.{first_piece, DropsThrough};
ghost use Rattle.std.specs.Io.KnownBytes.{IsAtEnd};
ghost use Rattle.std.specs.Io.Take.{take_remaining};
ghost use Rattle.typst_script.specs.Fault.{IsReadFault};

use crate::fault::Fault;
use std::io::{BufRead, Take};

/// The most bytes that a script may have.
pub const MOST_BYTES: u64 = 1 << 40;

/// Reads the next line, without its end, into `text`. Returns false at the end of input.
///
/// The error is `Read` if the reader fails, if a line isn't UTF-8, or if the limit is used up. It is `Memory` if memory
/// runs out.
pub fn read_line<R: BufRead>(input: &mut Take<R>, text: &mut String) -> Result<bool, Fault>
    ensures line { OnOk result (IfSome (take_remaining R.remaining input.old)
        (λ bytes. string_bytes text.new ≡ first_piece 10 bytes)) }
    ensures rest { OnOk result
        (DropsThrough (take_remaining R.remaining input.old) (take_remaining R.remaining input.new) 10) }
    ensures end { IfOk result (λ is_line. IsTrue is_line ⊎ IsAtEnd (take_remaining R.remaining input.old)) }
    ensures more { IfOk result (λ is_line. IsTrue is_line
        → IfSome (take_remaining R.remaining input.old) (λ bytes. bytes ≢ [])) }
    ensures err { IfErr result IsReadFault }
{
    text.clear();
    let read = input.read_line(text).map_err(Fault::of_reading)?;
    if read == 0 {
        return Ok(false);
    }
    if input.limit() == 0 {
        return Err(Fault::Read);
    }
    if text.ends_with('\n') {
        text.pop();
    }
    Ok(true)
}
