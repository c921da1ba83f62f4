//! Classes of characters, and what a text begins with.
ghost use Rattle.std.specs.Prelude.{◌≡◌, drop};
ghost use Rattle.std.specs.Char.{is_ascii_alphanumeric, is_ascii_digit};
ghost use Rattle.typst_lexer.specs.Characters.{begins, begins_with_word, goes_on, is_blank_or_end, is_label, is_link, is_link_mark, is_name, is_name_start, is_white};

/// Whether the byte is white space.
pub fn is_white(byte: u8) -> bool
    ensures { result ≡ is_white byte }
{
    byte == b' ' || byte == b'\t' || byte == b'\n' || byte == b'\r'
}

/// Whether the byte may be in a name.
pub fn is_name(byte: u8) -> bool
    ensures { result ≡ is_name byte }
{
    byte.is_ascii_alphanumeric() || byte == b'_' || byte == b'-'
}

/// Whether a name may begin with the byte.
pub fn is_name_start(byte: u8) -> bool
    ensures { result ≡ is_name_start byte }
{
    byte.is_ascii_alphabetic() || byte == b'_'
}

/// Whether the byte may be in a label.
fn is_label(byte: u8) -> bool
    ensures { result ≡ is_label byte }
{
    is_name(byte) || byte == b'.' || byte == b':'
}

/// Whether the byte may be in a link.
fn is_link(byte: u8) -> bool
    ensures { result ≡ is_link byte }
{
    byte.is_ascii_alphanumeric()
        || byte == b'#'
        || byte == b'$'
        || byte == b'%'
        || byte == b'&'
        || byte == b'*'
        || byte == b'+'
        || byte == b'-'
        || byte == b'/'
        || byte == b'='
        || byte == b'@'
        || byte == b'_'
        || byte == b'~'
}

/// Whether the byte may be in a link if a byte follows that may be in a link by itself.
fn is_link_mark(byte: u8) -> bool
    ensures { result ≡ is_link_mark byte }
{
    byte == b'!'
        || byte == b','
        || byte == b'.'
        || byte == b':'
        || byte == b';'
        || byte == b'?'
        || byte == b'\''
}

/// Whether the byte continues a character.
fn goes_on(byte: u8) -> bool
    ensures { result ≡ goes_on byte }
{
    byte >= 128 && byte < 192
}

/// Whether the text begins with white space.
pub fn begins_white(text: &[u8]) -> bool
    ensures { result ≡ begins is_white text.now }
{
    matches!(text, [byte, ..] if is_white(*byte))
}

/// Whether the text begins with a byte that may be in a name.
pub fn begins_name(text: &[u8]) -> bool
    ensures { result ≡ begins is_name text.now }
{
    matches!(text, [byte, ..] if is_name(*byte))
}

/// Whether the text begins with a byte that a name may begin with.
pub fn begins_name_start(text: &[u8]) -> bool
    ensures { result ≡ begins is_name_start text.now }
{
    matches!(text, [byte, ..] if is_name_start(*byte))
}

/// Whether the text begins with a byte that may be in a label.
pub fn begins_label(text: &[u8]) -> bool
    ensures { result ≡ begins is_label text.now }
{
    matches!(text, [byte, ..] if is_label(*byte))
}

/// Whether the text begins with a byte that may be in a link.
pub fn begins_link(text: &[u8]) -> bool
    ensures { result ≡ begins is_link text.now }
{
    matches!(text, [byte, ..] if is_link(*byte))
}

/// Whether the text begins with a byte that may be in a link if a byte follows that may be in a link by itself.
pub fn begins_link_mark(text: &[u8]) -> bool
    ensures { result ≡ begins is_link_mark text.now }
{
    matches!(text, [byte, ..] if is_link_mark(*byte))
}

/// Whether the text begins with an ASCII letter or digit.
pub fn begins_alphanumeric(text: &[u8]) -> bool
    ensures { result ≡ begins is_ascii_alphanumeric text.now }
{
    matches!(text, [byte, ..] if byte.is_ascii_alphanumeric())
}

/// Whether the text begins with an ASCII digit.
pub fn begins_digit(text: &[u8]) -> bool
    ensures { result ≡ begins is_ascii_digit text.now }
{
    matches!(text, [byte, ..] if byte.is_ascii_digit())
}

/// Whether the text begins with a byte that continues a character.
pub fn begins_inside_char(text: &[u8]) -> bool
    ensures { result ≡ begins goes_on text.now }
{
    matches!(text, [byte, ..] if goes_on(*byte))
}

/// Whether the text begins with white space or is at its end.
pub fn is_blank_or_end(text: &[u8]) -> bool
    ensures { result ≡ is_blank_or_end text.now }
{
    match text {
        [] => true,
        [byte, ..] => is_white(*byte),
    }
}

/// The text after its first `many` bytes.
pub fn behind(text: &[u8], many: usize) -> &[u8]
    ensures { result.now ≡ drop many text.now }
{
    if many < text.len() {
        &text[many..]
    } else {
        &[]
    }
}
