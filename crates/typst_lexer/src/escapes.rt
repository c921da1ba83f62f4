//! Hexadecimal digits of escapes.
ghost use Rattle.std.specs.Prelude.{◌≡◌, length, min};
ghost use Rattle.std.specs.Char.{is_digit};
ghost use Rattle.std.specs.List.{take_while};
ghost use Rattle.std.specs.Str.Parse.{digits_value};
ghost use Rattle.typst_lexer.specs.Characters.{is_code};
ghost use Rattle.typst_lexer.specs.HexValues.{capped_value};

/// How many hexadecimal digits the bytes begin with.
pub fn hex_len(bytes: &[u8]) -> usize
    ensures { result ≡ length (take_while (λ b. is_digit b 16) bytes.now) }
{
    bytes
        .iter()
        .take_while(|byte| (**byte as char).is_digit(16))
        .count()
}

/// The value of the hexadecimal digits at the front, cut at 0x11_0000 at each digit.
fn capped_value(bytes: &[u8]) -> u32
    ensures { result ≡ capped_value 0 bytes.now }
{
    let mut code: u32 = 0;
    for byte in bytes {
        match (*byte as char).to_digit(16) {
            Some(digit) => code = (code * 16 + digit).min(0x11_0000),
            None => break,
        }
    }
    code
}

/// The value of the hexadecimal digits at the front, or 0x11_0000, which is past all characters, if that is smaller.
#[tactic(auto, using(crate::proofs::HexRuns::capped_is))]
pub fn hex_value(bytes: &[u8]) -> u32
    ensures { result ≡ min 0x11_0000 (digits_value 16 (take_while (λ b. is_digit b 16) bytes.now)) }
{
    capped_value(bytes)
}

/// Whether a number is the code of a character.
pub fn is_code(code: u32) -> bool
    ensures { result ≡ is_code code }
{
    code < 0xD800 || code > 0xDFFF && code < 0x11_0000
}
