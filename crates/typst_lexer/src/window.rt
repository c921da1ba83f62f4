//! The bytes that the machine sees at once.
ghost use Rattle.std.specs.Prelude.{◌≡◌, ◌≤◌, take, drop, length};

/// The next `many` bytes from a place on, or all if there are fewer. The place is at most the length.
pub fn window(bytes: &[u8], at: usize, many: usize) -> &[u8]
    requires { at ≤ length bytes.now }
    ensures { result.now ≡ take many (drop at bytes.now) }
{
    if bytes.len() - at < many {
        &bytes[at..]
    } else {
        &bytes[at..at + many]
    }
}
