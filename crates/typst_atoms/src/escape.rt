//! The character that an escape sequence stands for.
ghost use Rattle.std.specs.Prelude.{◌≡◌};
ghost use Rattle.std.specs.Str.{chars};
ghost use Rattle.typst_atoms.specs.CodePoints.{first_or_nul};
ghost use Rattle.typst_atoms.specs.Escapes.{escaped_char, without_backslash};
ghost use Rattle.typst_atoms.specs.Texts.{text_in};
ghost use Rattle.typst_atoms.specs.View.{atom_node};

use crate::hex::hex_value;
use crate::views::Escape;

/// The first character, or U+0000.
fn first_char(text: &str) -> char
    ensures { result ≡ first_or_nul (chars text.now) }
{
    text.chars().next().unwrap_or('\0')
}

/// The text after one leading backslash.
fn behind_backslash(text: &str) -> &str
    ensures { result.now ≡ without_backslash text.now }
{
    text.strip_prefix("\\").unwrap_or(text)
}

impl<'a> Escape<'a> {
    /// The escaped character. It is U+0000 if the text names no character.
    pub fn get(self) -> char
        ensures { result ≡ escaped_char (text_in (atom_node self.entry)) }
    {
        let rest = behind_backslash(self.leaf_text());
        match rest.strip_prefix("u{") {
            Some(hex) => char::from_u32(hex_value(hex.as_bytes())).unwrap_or('\0'),
            None => first_char(rest),
        }
    }
}
