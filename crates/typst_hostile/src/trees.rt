//! The trees that calls are made on, as `typst_drawn` draws them.

/// A tree that is walked.
#[derive(Clone, Copy)]
pub enum Ground {
    /// A tree of three levels.
    Nested,
    /// A tree of several forms side by side.
    Wide,
    /// A tree of two texts and a blank between them.
    Text,
    /// A tree of a let binding.
    Let,
}

impl Ground {
    /// The drawing of the tree.
    pub fn drawing(self) -> &'static str {
        match self {
            Ground::Nested => NESTED,
            Ground::Wide => BINDING,
            Ground::Text => SPACED,
            Ground::Let => LET,
        }
    }
}

/// `a*b_c_*`, with `Strong` and `Emph`: a tree of three levels.
pub const NESTED: &str = "Markup[ Text:a Strong[ Star:* \
    Markup[ Text:b Emph[ Underscore:_ Markup[ Text:c ] Underscore:_ ] ] Star:* ] ]";

/// `#let x = 1 // c`, with spaces, a comment and an error without a text.
const BINDING: &str = "Markup[ Hash:# \
    LetBinding[ Let:let Space:~ Ident:x Space:~ Eq:= Space:~ Int:1 ] \
    !expected~semicolon~or~line~break: Space:~ LineComment://~c ]";

/// `ab c`
const SPACED: &str = "Markup[ Text:ab Space:~ Text:c ]";

/// `#let x = 10`
const LET: &str =
    "Markup[ Hash:# LetBinding[ Let:let Space:~ Ident:x Space:~ Eq:= Space:~ Int:10 ] ]";

/// `abc`, of two texts.
pub const TEXTS: &str = "Markup[ Text:ab Text:c ]";

/// `*b*c`, with `Strong`.
pub const STRONG: &str = "Markup[ Strong[ Star:* Markup[ Text:b ] Star:* ] Text:c ]";

/// The leaf `x`.
pub const ONE: &str = "Text:x";

/// The leaves `x` and `y` in `Markup`.
pub const TWO_IN_MARKUP: &str = "Markup[ Text:x Text:y ]";

/// `(a, b: c, ..d)`
pub const PARTS: &str = "Destructuring[ LeftParen:( Ident:a Comma:, Space:~ \
    Named[ Ident:b Colon:: Space:~ Ident:c ] Comma:, Space:~ \
    Spread[ Dots:.. Ident:d ] RightParen:) ]";

/// `let (a, b: c, ..d) = v`
pub const LET_PARTS: &str =
    "LetBinding[ Let:let Space:~ Destructuring[ LeftParen:( Ident:a Comma:, \
    Space:~ Named[ Ident:b Colon:: Space:~ Ident:c ] Comma:, Space:~ Spread[ Dots:.. Ident:d ] \
    RightParen:) ] Space:~ Eq:= Space:~ Ident:v ]";

/// A leaf, a warned leaf with a hint for the warning, and an error with a hint: a node of each form.
pub const ALL_FORMS: &str = "Markup[ Text:ab Text:c ^m +h !m:# +h ]";

/// Ten letters in a node, which itself holds where their texts end.
pub const TEN: &str =
    "Markup[ Text:a Text:a Text:a Text:a Text:a Text:a Text:a Text:a Text:a Text:a ]";

/// Eleven letters.
pub const LETTERS: &str =
    "Text:a Text:a Text:a Text:a Text:a Text:a Text:a Text:a Text:a Text:a Text:a";

/// Eleven letters in a node, which has a list of where their texts end.
pub const ELEVEN: &str =
    "Markup[ Text:a Text:a Text:a Text:a Text:a Text:a Text:a Text:a Text:a Text:a Text:a ]";
