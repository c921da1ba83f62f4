//! The characters that shorthands stand for.
ghost use Rattle.std.specs.Prelude.{◌≡◌, [], ◌∷◌};
ghost use Rattle.typst_atoms.specs.Shorthands.{char_for, markup_shorthands, math_shorthands, texts_and_chars};
ghost use Rattle.typst_atoms.specs.Texts.{text_in};
ghost use Rattle.typst_atoms.specs.View.{atom_node};

use crate::views::{MathShorthand, Shorthand};

/// The character next to the text in `Shorthand::LIST`, or U+0000.
///
/// A match decides by the length and one or two bytes which row it can be. A search of the list would read all rows
/// before that row.
fn markup_char(text: &[u8]) -> char
    ensures { result ≡ char_for markup_shorthands text.now }
{
    match text {
        [b'.', b'.', b'.'] => '…',
        [b'~'] => '\u{00A0}',
        [b'-'] => '\u{2212}',
        [b'-', b'-'] => '\u{2013}',
        [b'-', b'-', b'-'] => '\u{2014}',
        [b'-', b'?'] => '\u{00AD}',
        _ => '\0',
    }
}

/// The character next to the text of this byte in `MathShorthand::LIST`, or U+0000.
fn math_char_of_one(first: u8) -> char
    ensures { result ≡ char_for math_shorthands (first ∷ []) }
{
    match first {
        b'-' => '−',
        b'*' => '∗',
        b'~' => '∼',
        _ => '\0',
    }
}

/// The same for a text of two bytes.
fn math_char_of_two(first: u8, second: u8) -> char
    ensures { result ≡ char_for math_shorthands (first ∷ second ∷ []) }
{
    match (first, second) {
        (b'!', b'=') => '≠',
        (b':', b'=') => '≔',
        (b'=', b':') => '≕',
        (b'<', b'<') => '≪',
        (b'>', b'>') => '≫',
        (b'<', b'=') => '≤',
        (b'>', b'=') => '≥',
        (b'-', b'>') => '→',
        (b'<', b'-') => '←',
        (b'~', b'>') => '⇝',
        (b'<', b'~') => '⇜',
        (b'=', b'>') => '⇒',
        (b'[', b'|') => '⟦',
        (b'|', b']') => '⟧',
        (b'|', b'|') => '‖',
        _ => '\0',
    }
}

/// The same for a text of three bytes.
fn math_char_of_three(first: u8, second: u8, third: u8) -> char
    ensures { result ≡ char_for math_shorthands (first ∷ second ∷ third ∷ []) }
{
    match (first, second, third) {
        (b'.', b'.', b'.') => '…',
        (b':', b':', b'=') => '⩴',
        (b'<', b'<', b'<') => '⋘',
        (b'>', b'>', b'>') => '⋙',
        (b'-', b'-', b'>') => '⟶',
        (b'|', b'-', b'>') => '↦',
        (b'>', b'-', b'>') => '↣',
        (b'-', b'>', b'>') => '↠',
        (b'<', b'-', b'-') => '⟵',
        (b'<', b'-', b'<') => '↢',
        (b'<', b'<', b'-') => '↞',
        (b'<', b'-', b'>') => '↔',
        (b'~', b'~', b'>') => '⟿',
        (b'<', b'~', b'~') => '⬳',
        (b'|', b'=', b'>') => '⤇',
        (b'=', b'=', b'>') => '⟹',
        (b'<', b'=', b'=') => '⟸',
        (b'<', b'=', b'>') => '⇔',
        _ => '\0',
    }
}

/// The same for a text of four bytes.
fn math_char_of_four(first: u8, second: u8, third: u8, fourth: u8) -> char
    ensures { result ≡ char_for math_shorthands (first ∷ second ∷ third ∷ fourth ∷ []) }
{
    match (first, second, third, fourth) {
        (b'<', b'-', b'-', b'>') => '⟷',
        (b'<', b'=', b'=', b'>') => '⟺',
        _ => '\0',
    }
}

/// The character next to the text in `MathShorthand::LIST`, or U+0000.
#[tactic(auto, using(crate::proofs::Lengths::and_false))]
fn math_char(text: &[u8]) -> char
    ensures { result ≡ char_for math_shorthands text.now }
{
    match text {
        [first] => math_char_of_one(*first),
        [first, second] => math_char_of_two(*first, *second),
        [first, second, third] => math_char_of_three(*first, *second, *third),
        [first, second, third, fourth] => math_char_of_four(*first, *second, *third, *fourth),
        // Separate from the longer texts, so that each of the two is proved by itself.
        [] => '\0',
        _ => '\0',
    }
}

impl<'a> Shorthand<'a> {
    /// All shorthands of markup, each with the character that it stands for.
    pub const LIST: &'static [(&'static str, char)] = &[
        ("...", '…'),
        ("~", '\u{00A0}'),
        ("-", '\u{2212}'),
        ("--", '\u{2013}'),
        ("---", '\u{2014}'),
        ("-?", '\u{00AD}'),
    ];

    /// [`LIST`](Self::LIST).
    pub fn list() -> &'static [(&'static str, char)]
        ensures { texts_and_chars result.now ≡ markup_shorthands }
    {
        Self::LIST
    }

    /// The character that the shorthand stands for. It is U+0000 if the text is no shorthand.
    pub fn get(self) -> char
        ensures { result ≡ char_for markup_shorthands (text_in (atom_node self.entry)) }
    {
        markup_char(self.leaf_text().as_bytes())
    }
}

impl<'a> MathShorthand<'a> {
    /// All shorthands of math, each with the character that it stands for.
    pub const LIST: &'static [(&'static str, char)] = &[
        ("...", '…'),
        ("-", '−'),
        ("*", '∗'),
        ("~", '∼'),
        ("!=", '≠'),
        (":=", '≔'),
        ("::=", '⩴'),
        ("=:", '≕'),
        ("<<", '≪'),
        ("<<<", '⋘'),
        (">>", '≫'),
        (">>>", '⋙'),
        ("<=", '≤'),
        (">=", '≥'),
        ("->", '→'),
        ("-->", '⟶'),
        ("|->", '↦'),
        (">->", '↣'),
        ("->>", '↠'),
        ("<-", '←'),
        ("<--", '⟵'),
        ("<-<", '↢'),
        ("<<-", '↞'),
        ("<->", '↔'),
        ("<-->", '⟷'),
        ("~>", '⇝'),
        ("~~>", '⟿'),
        ("<~", '⇜'),
        ("<~~", '⬳'),
        ("=>", '⇒'),
        ("|=>", '⤇'),
        ("==>", '⟹'),
        ("<==", '⟸'),
        ("<=>", '⇔'),
        ("<==>", '⟺'),
        ("[|", '⟦'),
        ("|]", '⟧'),
        ("||", '‖'),
    ];

    /// [`LIST`](Self::LIST).
    pub fn list() -> &'static [(&'static str, char)]
        ensures { texts_and_chars result.now ≡ math_shorthands }
    {
        Self::LIST
    }

    /// The character that the shorthand stands for. It is U+0000 if the text is no shorthand.
    pub fn get(self) -> char
        ensures { result ≡ char_for math_shorthands (text_in (atom_node self.entry)) }
    {
        math_char(self.leaf_text().as_bytes())
    }
}
