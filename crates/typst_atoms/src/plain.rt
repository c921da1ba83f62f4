//! Quotes, primes and booleans.
ghost use Rattle.std.specs.Prelude.{◌≡◌, ◌↔◌, codes, length, IsTrue};
ghost use Rattle.typst_atoms.specs.Texts.{text_in};
ghost use Rattle.typst_atoms.specs.View.{atom_node};

use crate::views::{Bool, MathPrimes, SmartQuote};

impl<'a> SmartQuote<'a> {
    /// Whether it is a double quote.
    pub fn double(self) -> bool
        ensures { IsTrue result ↔ (text_in (atom_node self.entry) ≡ codes "\"") }
    {
        self.leaf_text() == "\""
    }
}

impl<'a> MathPrimes<'a> {
    /// The number of primes, which is the number of bytes of the text.
    pub fn count(self) -> usize
        ensures { result ≡ length (text_in (atom_node self.entry)) }
    {
        self.leaf_text().len()
    }
}

impl<'a> Bool<'a> {
    /// The boolean's value: whether the text is `true`.
    pub fn get(self) -> bool
        ensures { IsTrue result ↔ (text_in (atom_node self.entry) ≡ codes "true") }
    {
        self.leaf_text() == "true"
    }
}
