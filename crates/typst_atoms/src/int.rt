//! The value of an integer.
ghost use Rattle.std.specs.Prelude.{◌≡◌};
ghost use Rattle.typst_atoms.specs.Ints.{IsIntReading, base_of, digits_of};
ghost use Rattle.typst_atoms.specs.Texts.{text_in};
ghost use Rattle.typst_atoms.specs.View.{atom_node};

use crate::views::Int;

/// The digits of a number, and their base. The digits are the text after `0x`, `0o` or `0b`, or the whole text.
fn digits_and_base(text: &str) -> (&str, u32)
    ensures digits { result.0.now ≡ digits_of text.now }
    ensures base { result.1 ≡ base_of text.now }
{
    if let Some(rest) = text.strip_prefix("0x") {
        (rest, 16)
    } else if let Some(rest) = text.strip_prefix("0o") {
        (rest, 8)
    } else if let Some(rest) = text.strip_prefix("0b") {
        (rest, 2)
    } else {
        (text, 10)
    }
}

impl<'a> Int<'a> {
    /// The integer's value, or 0 if the text is no integer that an `i64` holds. The text is an optional sign and
    /// digits, in base 16 after `0x`, 8 after `0o`, 2 after `0b`, and 10 otherwise.
    pub fn get(self) -> i64
        ensures { IsIntReading (text_in (atom_node self.entry)) result }
    {
        let (digits, base) = digits_and_base(self.leaf_text());
        match i64::from_str_radix(digits, base) {
            Ok(value) => value,
            Err(_) => 0,
        }
    }
}
