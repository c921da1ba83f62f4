//! What numbers of code are, by their texts.
ghost use Rattle.std.specs.Prelude.{◌≡◌, ◌<◌, ◌≤◌, ◌^◌, length, drop, nat_lt};
ghost use Rattle.std.specs.Str.Parse.{digits_value};
ghost use Rattle.typst_lexer.specs.CappedDigits.{capped_digits};
ghost use Rattle.typst_lexer.specs.Numbers.{after_digits, based_kind, digits_of, kind_in_base, whole_kind};

use crate::characters::{begins_alphanumeric as begins_ascii_alphanumeric, begins_digit, behind};
use crate::token::TokenKind;

/// The first number that is too large for a whole number.
const TOO_LARGE: u64 = 0x8000_0000_0000_0000;

/// How many digits of a base the text begins with.
fn digits_len(base: u32, text: &[u8]) -> usize
    requires small { base ≤ 16 }
    requires some { 2 ≤ base }
    ensures value { result ≡ length (digits_of base text.now) }
    ensures within { result ≤ length text.now }
{
    text.iter()
        .take_while(|byte| (**byte as char).is_digit(base))
        .count()
}

/// The value of the digits at the front, cut at `TOO_LARGE` at each digit.
fn capped_digits(base: u32, text: &[u8]) -> u64
    requires small { base ≤ 16 }
    requires some { 2 ≤ base }
    ensures { result ≡ capped_digits base 0 text.now }
{
    let mut value: u64 = 0;
    for byte in text {
        match (*byte as char).to_digit(base) {
            Some(digit) => {
                let more = u128::from(value) * u128::from(base) + u128::from(digit);
                value = more.min(u128::from(TOO_LARGE)) as u64;
            }
            None => break,
        }
    }
    value
}

/// Whether the digits of a base at the front are the number of a whole number.
#[tactic(auto, using(crate::proofs::DigitRuns::capped_is_whole))]
fn is_whole(base: u32, text: &[u8]) -> bool
    requires small { base ≤ 16 }
    requires some { 2 ≤ base }
    ensures { result ≡ nat_lt (digits_value base (digits_of base text.now)) (2 ^ 63) }
{
    capped_digits(base, text) < TOO_LARGE
}

/// The kind of a whole number in base ten.
pub fn whole_kind(text: &[u8]) -> TokenKind
    ensures { result ≡ whole_kind text.now }
{
    if is_whole(10, text) {
        TokenKind::Int
    } else {
        TokenKind::Float
    }
}

/// What comes after the digits of a base at the front.
fn after_digits(base: u32, text: &[u8]) -> &[u8]
    requires small { base ≤ 16 }
    requires some { 2 ≤ base }
    ensures { result.now ≡ after_digits base text.now }
{
    behind(text, digits_len(base, text))
}

/// The kind of a number of a base without its prefix, given whether wrong digits follow those of the base.
fn kind_in_base(
    base: u32,
    wrong: bool,
    invalid: TokenKind,
    suffixed: TokenKind,
    text: &[u8],
) -> TokenKind
    requires small { base ≤ 16 }
    requires some { 2 ≤ base }
    ensures { result ≡ kind_in_base base wrong invalid suffixed text.now }
{
    let len = digits_len(base, text);
    if len == 0 || wrong || !is_whole(base, text) {
        invalid
    } else if len == text.len() {
        TokenKind::Int
    } else {
        suffixed
    }
}

/// The kind of a number that begins with `0b`, `0o` or `0x`.
pub fn based_kind(text: &[u8]) -> TokenKind
    ensures { result ≡ based_kind text.now }
{
    let rest = behind(text, 2);
    if text.starts_with(b"0b") {
        let wrong = begins_digit(after_digits(2, rest));
        kind_in_base(
            2,
            wrong,
            TokenKind::InvalidBinary,
            TokenKind::SuffixedBinary,
            rest,
        )
    } else if text.starts_with(b"0o") {
        let wrong = begins_digit(after_digits(8, rest));
        kind_in_base(
            8,
            wrong,
            TokenKind::InvalidOctal,
            TokenKind::SuffixedOctal,
            rest,
        )
    } else {
        let wrong = begins_ascii_alphanumeric(after_digits(16, rest));
        kind_in_base(
            16,
            wrong,
            TokenKind::InvalidHexadecimal,
            TokenKind::SuffixedHexadecimal,
            rest,
        )
    }
}
