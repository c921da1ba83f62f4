// Written by bench/kinds.py from crates/kinds.txt: change that and run it.
//! The views of one kind.
use crate::markers as kinds;
use crate::view::View;

/// A comment to the end of its line: `// to do`.
pub type LineComment<'a> = View<'a, kinds::LineCommentKind>;

/// A comment between two marks: `/* to do */`.
pub type BlockComment<'a> = View<'a, kinds::BlockCommentKind>;

/// Plain text: `Hello`.
pub type Text<'a> = View<'a, kinds::TextKind>;

/// White space. In markup it has at most one line break.
pub type Space<'a> = View<'a, kinds::SpaceKind>;

/// A line break within a paragraph: `one \ two`.
pub type Linebreak<'a> = View<'a, kinds::LinebreakKind>;

/// White space with an empty line, which ends a paragraph.
pub type Parbreak<'a> = View<'a, kinds::ParbreakKind>;

/// A character that stands for itself, or that is given by its number: `\*`, `\u{2603}`.
pub type Escape<'a> = View<'a, kinds::EscapeKind>;

/// Signs in markup that stand for one character: `--`, `~`.
pub type Shorthand<'a> = View<'a, kinds::ShorthandKind>;

/// A quote, which is set by the rules of the language: `"` or `'`.
pub type SmartQuote<'a> = View<'a, kinds::SmartQuoteKind>;

/// Text that is kept as it is written: `` `let x` ``.
pub type Raw<'a> = View<'a, kinds::RawKind>;

/// The language at the start of a raw text: the `rust` of ```` ```rust fn main``` ````.
pub type RawLang<'a> = View<'a, kinds::RawLangKind>;

/// The backticks at either end of a raw text: the two `` ` `` of `` `let x` ``.
pub type RawDelim<'a> = View<'a, kinds::RawDelimKind>;

/// An address that is written out: `https://example.org`.
pub type Link<'a> = View<'a, kinds::LinkKind>;

/// A name by which references find what comes before it: `<intro>`.
pub type Label<'a> = View<'a, kinds::LabelKind>;

/// A character or a number that stands for itself in an equation: `a`, `2.5`, `=`.
pub type MathText<'a> = View<'a, kinds::MathTextKind>;

/// A name of two letters or more in an equation: `alpha`.
pub type MathIdent<'a> = View<'a, kinds::MathIdentKind>;

/// A field of a name in an equation: `arrow.l`.
pub type MathFieldAccess<'a> = View<'a, kinds::MathFieldAccessKind>;

/// Signs in an equation that stand for one character: `->`, `<=`.
pub type MathShorthand<'a> = View<'a, kinds::MathShorthandKind>;

/// A point at which the lines of an equation are aligned: `&`.
pub type MathAlignPoint<'a> = View<'a, kinds::MathAlignPointKind>;

/// Primes after a base: the `''` of `f''`.
pub type MathPrimes<'a> = View<'a, kinds::MathPrimesKind>;

/// An underscore, around emphasized content or for a part that a pattern skips: `_`.
pub type Underscore<'a> = View<'a, kinds::UnderscoreKind>;

/// The value `none`.
pub type None<'a> = View<'a, kinds::NoneKind>;

/// The value `auto`.
pub type Auto<'a> = View<'a, kinds::AutoKind>;

/// A name in code: `width`.
pub type Ident<'a> = View<'a, kinds::IdentKind>;

/// A truth value: `true`, `false`.
pub type Bool<'a> = View<'a, kinds::BoolKind>;

/// A whole number: `42`, `0x2a`.
pub type Int<'a> = View<'a, kinds::IntKind>;

/// A number with a point or an exponent: `0.5`, `1e3`.
pub type Float<'a> = View<'a, kinds::FloatKind>;

/// A number with a unit: `2cm`, `30%`.
pub type Numeric<'a> = View<'a, kinds::NumericKind>;

/// A text between quotes: `"two\nlines"`.
pub type Str<'a> = View<'a, kinds::StrKind>;

/// The items that an import names: the `circle, square` of `import "shapes.typ": circle, square`.
pub type ImportItems<'a> = View<'a, kinds::ImportItemsKind>;

/// The path of an item that an import names: the `round.circle` of `import "shapes.typ": round.circle`.
pub type ImportItemPath<'a> = View<'a, kinds::ImportItemPathKind>;

/// An item that an import brings in under another name: the `circle as ring` of `import "shapes.typ": circle as ring`.
pub type RenamedImportItem<'a> = View<'a, kinds::RenamedImportItemKind>;

/// The end of a loop: `break`.
pub type LoopBreak<'a> = View<'a, kinds::LoopBreakKind>;

/// The next round of a loop: `continue`.
pub type LoopContinue<'a> = View<'a, kinds::LoopContinueKind>;
