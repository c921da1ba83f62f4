//! The value of a quoted string.
ghost use Rattle.std.specs.Prelude.{◌≡◌, ◌≤◌, length, IfOk, ◌++◌, ◌∷◌, string_bytes};
ghost use Rattle.std.specs.Str.{chars};
ghost use Rattle.typst_atoms.specs.Strings.{simple_escape, escape_len, escape_char, char_or, unescaped, IsStringBody, IsStringValue};
ghost use Rattle.typst_atoms.specs.Texts.{text_in};
ghost use Rattle.typst_atoms.specs.View.{atom_node};
ghost use lib.Utf8.{encodes};

use crate::hex::{hex_len, hex_value_of};
use crate::views::Str;
use std::alloc::{AllocError, Global};

/// The character that a backslash and this character stand for.
fn simple_escape(c: char) -> Option<char>
    ensures { result ≡ simple_escape c }
{
    match c {
        '\\' => Some('\\'),
        '"' => Some('"'),
        'n' => Some('\n'),
        'r' => Some('\r'),
        't' => Some('\t'),
        _ => None,
    }
}

/// The number of characters after a backslash that belong to its escape sequence.
fn escape_len(chars: &[char]) -> usize
    ensures value { result ≡ escape_len chars.now }
    ensures within { result ≤ length chars.now }
{
    match chars {
        [] => 0,
        ['u', '{', hex @ ..] => {
            let n = hex_len(hex);
            match &hex[n..] {
                ['}', ..] => n + 3,
                _ => n + 2,
            }
        }
        _ => 1,
    }
}

/// The character that a backslash and these characters stand for. It is `None` if they stand for themselves.
fn escape_char(chars: &[char]) -> Option<char>
    ensures { result ≡ escape_char chars.now }
{
    match chars {
        [] => None,
        ['u', '{', hex @ ..] => match hex {
            [digit, ..] if digit.is_digit(16) => char::from_u32(hex_value_of(hex)),
            _ => None,
        },
        [c, ..] => simple_escape(*c),
    }
}

/// Adds the characters at the end of the text.
fn push_all(text: &mut String, chars: &[char]) -> Result<(), AllocError>
    ensures { IfOk result (λ _. string_bytes text.new ≡ string_bytes text.old ++ encodes chars.now) }
{
    for c in chars {
        text.push(*c)?;
    }
    Ok(())
}

/// Adds the character that was read, or else a backslash and the characters after it.
fn push_escape(out: &mut String, escape: &[char], read: Option<char>) -> Result<(), AllocError>
    ensures { IfOk result (λ _. string_bytes out.new
        ≡ string_bytes out.old ++ encodes (char_or (92 ∷ escape.now) read)) }
{
    match read {
        Some(c) => out.push(c),
        None => {
            out.push('\\')?;
            push_all(out, escape)
        }
    }
}

/// Adds what the first character stands for, with the characters that belong to it. It answers the characters after
/// these.
fn push_front<'a>(out: &mut String, first: char, more: &'a [char]) -> Result<&'a [char], AllocError>
    ensures reads { IfOk result (λ rest. string_bytes out.new ++ encodes (unescaped 0 rest.now)
        ≡ string_bytes out.old ++ encodes (unescaped 0 (first ∷ more.now))) }
    ensures within { IfOk result (λ rest. length rest.now ≤ length more.now) }
{
    if first != '\\' {
        out.push(first)?;
        return Ok(more);
    }
    let (escape, behind) = more.split_at(escape_len(more));
    push_escape(out, escape, escape_char(more))?;
    Ok(behind)
}

/// Adds what the characters stand for.
fn push_unescaped(out: &mut String, chars: &[char]) -> Result<(), AllocError>
    ensures { IfOk result (λ _. string_bytes out.new
        ≡ string_bytes out.old ++ encodes (unescaped 0 chars.now)) }
{
    let mut rest = chars;
    while let [first, more @ ..] = rest {
        rest = push_front(out, *first, more)?;
    }
    Ok(())
}

/// The characters of a text.
fn char_list(alloc: Global, text: &str) -> Result<Vec<char>, AllocError>
    ensures { IfOk result (λ list. list.items ≡ chars text.now) }
{
    text.chars().collect(alloc)
}

/// The text without the quotes around it, or the whole text if there are none.
fn string_body(text: &str) -> &str
    ensures { IsStringBody text.now result.now }
{
    match text.strip_prefix("\"") {
        Some(rest) => rest.strip_suffix("\"").unwrap_or(text),
        None => text,
    }
}

impl<'a> Str<'a> {
    /// The string's value: its text without the quotes around it, with each escape sequence read.
    ///
    /// The sequences `\\`, `\"`, `\n`, `\r`, `\t`, and `\u{..}` with a Unicode scalar value stand for one character.
    /// Everything else stands for itself. It takes memory in proportion to the text.
    pub fn get(self, alloc: Global) -> Result<String, AllocError>
        ensures { IfOk result
            (λ value. IsStringValue (text_in (atom_node self.entry)) (string_bytes value)) }
    {
        let body = string_body(self.leaf_text());
        if !body.as_bytes().contains(&b'\\') {
            return String::from_str(alloc, body);
        }
        let all = char_list(alloc, body)?;
        let mut out = String::with_capacity(alloc, all.len())?;
        push_unescaped(&mut out, all.as_slice())?;
        Ok(out)
    }
}
