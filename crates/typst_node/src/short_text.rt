//! Short texts, which take no memory of their own.
ghost use Rattle.std.specs.Prelude.{◌≡◌, ◌≤◌, length, take};
ghost use Rattle.typst_node.specs.View.{IsShort};

/// The length of the longest short text in bytes.
pub(crate) const LONGEST: usize = 21;

/// The bytes of a text of at most `LONGEST` bytes, with zeros after them.
pub(crate) fn bytes_of(text: &str) -> [u8; LONGEST]
    requires { length text.now ≤ 21 }
    ensures { take (length text.now) result ≡ text.now }
{
    let mut bytes = [0; LONGEST];
    if text.len() == 1 {
        // Most leaves of code and of equations. So no call is made for them.
        bytes[0] = text.as_bytes()[0];
    } else {
        bytes[..text.len()].copy_from_slice(text.as_bytes());
    }
    bytes
}

/// The text in the first `len` bytes. The bytes after them have no meaning.
pub(crate) fn text_in(len: u8, bytes: &[u8; LONGEST]) -> &str
    requires { IsShort len bytes.now }
    ensures { result.now ≡ take len bytes.now }
{
    unsafe { std::str::from_utf8_unchecked(&bytes[..len as usize]) }
}

/// The length in bytes of the text in the first `len` bytes.
pub(crate) fn len_in(len: u8, bytes: &[u8; LONGEST]) -> usize
    requires { IsShort len bytes.now }
    ensures { result ≡ length (take len bytes.now) }
{
    len as usize
}
