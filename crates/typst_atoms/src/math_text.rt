//! Characters and numbers in math.
ghost use Rattle.std.specs.Prelude.{◌≡◌};
ghost use Rattle.typst_atoms.specs.MathTexts.{IsMathTextOf, is_numeric};
ghost use Rattle.typst_atoms.specs.Texts.{text_in};
ghost use Rattle.typst_atoms.specs.View.{atom_node};

use crate::views::MathText;
use ucd_category::GeneralCategory;

/// A text in math: a character or a number.
#[derive(Clone, Copy, Debug, PartialEq, Eq, Hash)]
pub enum MathTextKind<'a> {
    /// A single character, with its marks.
    Grapheme(&'a str),
    /// A number.
    Number(&'a str),
}

/// Whether the character is a number by its general category: a decimal digit, a letter number or another number.
fn is_numeric(c: char) -> bool
    ensures { result ≡ is_numeric c }
{
    matches!(
        GeneralCategory::for_char(c),
        GeneralCategory::DecimalNumber
            | GeneralCategory::LetterNumber
            | GeneralCategory::OtherNumber
    )
}

impl<'a> MathText<'a> {
    /// The text as a number, if its first character is one by Unicode's general categories, or else as a grapheme.
    pub fn get(self) -> MathTextKind<'a>
        ensures { IsMathTextOf (text_in (atom_node self.entry)) result }
    {
        let text = self.leaf_text();
        match text.chars().next() {
            Some(first) if is_numeric(first) => MathTextKind::Number(text),
            _ => MathTextKind::Grapheme(text),
        }
    }
}
