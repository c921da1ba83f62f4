//! What a reader of texts needs from a lexer: which characters are newlines, and which texts are names or packages.
ghost use Rattle.std.specs.Prelude.{◌↔◌, IsTrue};
ghost use Rattle.typst_answers.specs.Newlines.{IsNewline};

use std::alloc::{AllocError, Global};

/// Whether the character ends a line: LF, VT, FF, CR, NEL, or the separator of lines or of paragraphs.
pub fn is_newline(c: char) -> bool
    ensures { IsTrue result ↔ IsNewline c }
{
    matches!(c, '\n'..='\r' | '\u{85}' | '\u{2028}' | '\u{2029}')
}

/// Whether the text is a letter or a `_`, followed by letters, digits, `_` and `-`.
pub fn is_name(text: &str) -> bool {
    let mut chars = text.chars();
    match chars.next() {
        Some(first) => is_name_start(first) && chars.all(is_name_part),
        None => false,
    }
}

/// Whether a name may begin with the character.
fn is_name_start(c: char) -> bool {
    c == '_' || c.is_alphabetic()
}

/// Whether a name may continue with the character.
fn is_name_part(c: char) -> bool {
    c == '_' || c == '-' || c.is_alphanumeric()
}

/// The name of the package that a text names: `@space/name:1.2.3`.
pub fn package(alloc: Global, text: &str) -> Result<Option<String>, AllocError> {
    match package_name(text) {
        Some(name) => Ok(Some(String::from_str(alloc, name)?)),
        None => Ok(None),
    }
}

/// The name within the name of a package with its version.
fn package_name(text: &str) -> Option<&str> {
    let (space, rest) = text.strip_prefix('@')?.split_once('/')?;
    let (name, version) = rest.split_once(':')?;
    let (major, rest) = version.split_once('.')?;
    let (minor, patch) = rest.split_once('.')?;
    if is_name(space) && is_name(name) && is_version(major, minor, patch) {
        Some(name)
    } else {
        None
    }
}

/// Whether these are the numbers of a version.
fn is_version(major: &str, minor: &str, patch: &str) -> bool {
    is_number(major) && is_number(minor) && is_number(patch)
}

/// Whether the word is a number made of digits only.
fn is_number(word: &str) -> bool {
    !word.starts_with('+') && word.parse::<u32>().is_ok()
}
