//! The words of a line, and what they mean.
ghost use Rattle.std.specs.Prelude.{◌≡◌, ℕ, List, IsSome, IsSomeAnd, IfSome};
ghost use Rattle.typst_base.specs.declared.kind.SyntaxKind.{SyntaxKind};
ghost use Rattle.typst_script.specs.Word.{tab, IsSplit, IsSplitAt, IsNumber, IsKindNumber, IsFileNumber};

use typst_tree::{FileId, SyntaxKind};

/// The first word, and the part after the blank that ends it. None if there is no blank.
pub fn first_word(text: &str) -> Option<(&str, &str)>
    ensures reads { IfSome result (λ parts. IsSplit text.now parts.0.now parts.1.now) }
    ensures every { (word rest : List ℕ) → IsSplit text.now word rest
        → IsSomeAnd result (λ parts. (parts.0.now ≡ word) × (parts.1.now ≡ rest)) }
{
    text.split_once(' ')
}

/// The part before the first tab and the part after it. None if there is no tab.
pub fn until_tab(text: &str) -> Option<(&str, &str)>
    ensures reads { IfSome result (λ parts. IsSplitAt tab text.now parts.0.now parts.1.now) }
    ensures every { (first rest : List ℕ) → IsSplitAt tab text.now first rest
        → IsSomeAnd result (λ parts. (parts.0.now ≡ first) × (parts.1.now ≡ rest)) }
{
    text.split_once('\t')
}

/// The value of decimal digits, if it fits in a `u64`. The digits may begin with zeros, but not with a sign.
pub fn number(word: &str) -> Option<u64>
    ensures reads { IfSome result (IsNumber word.now) }
    ensures every { (n : ℕ) → IsNumber word.now n → IsSome result }
{
    if word.as_bytes().first() == Some(&b'+') {
        return None;
    }
    word.parse::<u64>().ok()
}

/// The kind with this number, unless it is the kind of errors.
pub fn kind(word: &str) -> Option<SyntaxKind>
    ensures reads { IfSome result (IsKindNumber word.now) }
    ensures every { (kind : SyntaxKind) → IsKindNumber word.now kind → IsSome result }
{
    let raw = u8::try_from(number(word)?).ok()?;
    let kind = SyntaxKind::from_u8(raw)?;
    if kind.is_error() { None } else { Some(kind) }
}

/// The file with this number, from 1 to 65535.
pub fn file(word: &str) -> Option<FileId>
    ensures reads { IfSome result (IsFileNumber word.now) }
    ensures every { (file : ℕ) → IsFileNumber word.now file → IsSome result }
{
    let raw = u16::try_from(number(word)?).ok()?;
    FileId::new(raw)
}
