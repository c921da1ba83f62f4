//! Laws of comments and raw text, apart from the machine.
ghost use Rattle.std.specs.Prelude.{false, true, ◌==◌, ◌≡◌, ◌+◌, ◌++◌, ◌<◌, ℕ, List, codes, length, IsUtf8};
ghost use Rattle.typst_lexer.specs.declared.mode.Mode.{Mode};
ghost use Rattle.typst_lexer.specs.declared.place.Behind.{Behind};
ghost use Rattle.typst_lexer.specs.declared.token.TokenKind.{TokenKind};
ghost use Rattle.typst_lexer.specs.Before.{before, is_at_newline};
ghost use Rattle.typst_lexer.specs.Characters.{begins, begins_with, goes_on};
ghost use Rattle.typst_lexer.specs.FirstToken.{first};
ghost use Rattle.typst_lexer.specs.Nested.{IsClosedBefore};
ghost use Rattle.typst_lexer.specs.RawTexts.{has_raw, raw_kind, raw_len, ticks};

use crate::mode::Mode;
use crate::place::Behind;
use crate::token::TokenKind;

/// In each mode `//` begins a line comment, which ends before the first newline.
pub fn line_comments_end_before_newlines()
    ensures { (mode : Mode) (behind : Behind) (rest : List ℕ)
        → ((first mode behind (codes "//" ++ rest)).kind ≡ TokenKind.LineComment)
        × ((first mode behind (codes "//" ++ rest)).len ≡ 2 + before is_at_newline rest) }
{}

/// In each mode `/*` begins a block comment. It ends with the `*/` that closes it, comments within it being closed
/// before. If nothing closes it, it is the rest of the text.
pub fn block_comments_balance()
    ensures closed { (mode : Mode) (behind : Behind) (rest after : List ℕ) → begins goes_on after ≡ false
        → IsClosedBefore after rest
        → ((first mode behind (codes "/*" ++ rest)).kind ≡ TokenKind.BlockComment)
        × ((first mode behind (codes "/*" ++ rest)).len + length after ≡ 2 + length rest) }
    ensures unclosed { (mode : Mode) (behind : Behind) (rest : List ℕ)
        → ((after : List ℕ) → IsClosedBefore after rest → ⊥)
        → ((first mode behind (codes "/*" ++ rest)).kind ≡ TokenKind.BlockComment)
        × ((first mode behind (codes "/*" ++ rest)).len ≡ 2 + length rest) }
{}

/// In markup and code two backticks alone are raw text. Any other number of backticks begins raw text, which ends with
/// the first run of as many backticks. If none comes, it is unclosed, and is the rest of the text.
pub fn raw_texts_end_with_their_backticks()
    ensures two { (mode : Mode) (behind : Behind) (rest : List ℕ) → has_raw mode ≡ true → IsUtf8 (ticks 2 ++ rest)
        → begins_with (codes "`") rest ≡ false
        → ((first mode behind (ticks 2 ++ rest)).kind ≡ TokenKind.Raw)
        × ((first mode behind (ticks 2 ++ rest)).len ≡ 2) }
    ensures other { (mode : Mode) (behind : Behind) (n : ℕ) (rest : List ℕ) → has_raw mode ≡ true
        → IsUtf8 (ticks n ++ rest) → 0 < n → (n == 2) ≡ false → begins_with (codes "`") rest ≡ false
        → ((first mode behind (ticks n ++ rest)).kind ≡ raw_kind n rest)
        × ((first mode behind (ticks n ++ rest)).len ≡ raw_len n rest) }
{}
