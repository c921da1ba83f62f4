//! Runs of hexadecimal digits.
ghost use Rattle.std.specs.Prelude.{◌≡◌, ◌≤◌, length, min};
ghost use Rattle.std.specs.Str.Parse.{digits_value};
ghost use Rattle.typst_atoms.specs.CodePoints.{hex_run};
ghost use Rattle.typst_atoms.specs.HexValues.{capped_value};
ghost use Rattle.typst_atoms.specs.Strings.{hex_len};

/// The value of the digits at the beginning. It is cut at 0x11_0000 at each digit, so that any number of digits can be
/// read.
fn capped_value(bytes: &[u8]) -> u32
    ensures { result ≡ capped_value 0 bytes.now }
{
    let mut code: u32 = 0;
    for byte in bytes {
        match (*byte as char).to_digit(16) {
            Some(digit) => code = (code * 16 + digit).min(0x11_0000),
            None => break,
        }
    }
    code
}

/// The value of the digits at the beginning, or 0x11_0000, which is past all characters, if that is smaller.
#[tactic(auto, using(crate::proofs::HexRuns::capped_is))]
pub(crate) fn hex_value(bytes: &[u8]) -> u32
    ensures { result ≡ min 0x11_0000 (digits_value 16 (hex_run bytes.now)) }
{
    capped_value(bytes)
}

/// The same as `capped_value`, for characters.
fn capped_value_of(chars: &[char]) -> u32
    ensures { result ≡ capped_value 0 chars.now }
{
    let mut code: u32 = 0;
    for c in chars {
        match c.to_digit(16) {
            Some(digit) => code = (code * 16 + digit).min(0x11_0000),
            None => break,
        }
    }
    code
}

/// The value of the digits at the beginning, for characters, or 0x11_0000, if that is smaller.
#[tactic(auto, using(crate::proofs::HexRuns::capped_is))]
pub(crate) fn hex_value_of(chars: &[char]) -> u32
    ensures { result ≡ min 0x11_0000 (digits_value 16 (hex_run chars.now)) }
{
    capped_value_of(chars)
}

/// The number of hexadecimal digits at the beginning.
pub(crate) fn hex_len(chars: &[char]) -> usize
    ensures value { result ≡ hex_len chars.now }
    ensures within { result ≤ length chars.now }
{
    chars.iter().take_while(|c| c.is_digit(16)).count()
}
