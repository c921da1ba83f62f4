//! Wordy characters, against the tables of the crate `unicode`.

use crate::lexer::rows::assert_in;
use std::test::Fail;
use typst_lexer::{Lexer, Mode, Token, TokenKind};
use unicode::properties::{GeneralCategory, Script, is_alphabetic};

/// Whether the character is alphabetic or a number.
fn is_alphanumeric(c: char) -> bool {
    is_alphabetic(c)
        || matches!(
            GeneralCategory::for_char(c),
            GeneralCategory::DecimalNumber
                | GeneralCategory::LetterNumber
                | GeneralCategory::OtherNumber
        )
}

/// Whether the character is of a script that puts no spaces between words.
fn is_unspaced(c: char) -> bool {
    matches!(
        Script::for_char(c),
        Script::Han | Script::Hiragana | Script::Katakana | Script::Hangul
    )
}

/// Whether this is a token of text with so many bytes.
fn is_text(token: Option<Token>, len: usize) -> bool {
    match token {
        Some(token) => token.kind == TokenKind::Text && token.text.len() == len,
        None => false,
    }
}

/// Whether a star between two of the character begins text.
fn is_star_text(text: &str, c: char) -> bool {
    let mut lexer = Lexer::new(text, Mode::Markup);
    is_text(lexer.next(), c.len_utf8()) && is_text(lexer.next(), 1 + c.len_utf8())
}

/// No wordy character has this code or a larger one: the letters from here on are Han.
const WORDY_END: u32 = 0x2_0000;

#[test]
fn a_star_between_wordy_characters_is_text(rt: HostRuntime) -> Result<(), Fail> {
    for code in 0..WORDY_END {
        if let Some(c) = char::from_u32(code) {
            let text = format!(in rt.alloc(); "{c}*{c}")?;
            let is_wordy = is_alphanumeric(c) && !is_unspaced(c);
            assert_in(&rt, &text, &is_star_text(&text, c), &is_wordy);
        }
    }
    Ok(())
}
