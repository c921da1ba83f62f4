//! Numbers in the form of their text: floating-point numbers, and numbers with a unit.
ghost use Rattle.std.specs.Prelude.{◌≡◌};
ghost use Rattle.typst_atoms.specs.Numerics.{is_unit_byte, unit_text, number_text, IsUnitOf};
ghost use Rattle.typst_atoms.specs.Texts.{text_in};
ghost use Rattle.typst_atoms.specs.View.{atom_node};

use crate::views::{Float, Numeric};

/// The unit of a number.
#[derive(Clone, Copy, Debug, PartialEq, Eq, Hash)]
pub enum Unit {
    /// Points: `pt`.
    Pt,
    /// Millimetres: `mm`.
    Mm,
    /// Centimetres: `cm`.
    Cm,
    /// Inches: `in`.
    In,
    /// Radians: `rad`.
    Rad,
    /// Degrees: `deg`.
    Deg,
    /// Font sizes: `em`.
    Em,
    /// Fractions: `fr`.
    Fr,
    /// Percent: `%`, and any unknown unit.
    Percent,
}

/// Whether a unit may have the character.
fn is_unit_char(c: char) -> bool
    ensures { result ≡ is_unit_byte c }
{
    c.is_ascii_lowercase() || c == '%'
}

/// The text before its longest ending of characters that a unit may have.
fn number_text(text: &str) -> &str
    ensures { result.now ≡ number_text text.now }
{
    text.trim_end_matches(is_unit_char)
}

/// The unit with this text.
fn unit_of(text: &str) -> Unit
    ensures { IsUnitOf text.now result }
{
    match text {
        "pt" => Unit::Pt,
        "mm" => Unit::Mm,
        "cm" => Unit::Cm,
        "in" => Unit::In,
        "rad" => Unit::Rad,
        "deg" => Unit::Deg,
        "em" => Unit::Em,
        "fr" => Unit::Fr,
        _ => Unit::Percent,
    }
}

impl<'a> Numeric<'a> {
    /// The number as it is written, and its unit. The unit's text is the longest ending of `a` to `z` and `%`.
    pub fn get(self) -> (&'a str, Unit)
        ensures number { result.0.now ≡ number_text (text_in (atom_node self.entry)) }
        ensures unit { IsUnitOf (unit_text (text_in (atom_node self.entry))) result.1 }
    {
        let text = self.leaf_text();
        let number = number_text(text);
        (number, unit_of(&text[number.len()..]))
    }
}

impl<'a> Float<'a> {
    /// The number as it is written.
    pub fn get(self) -> &'a str
        ensures { result.now ≡ text_in (atom_node self.entry) }
    {
        self.leaf_text()
    }
}
