//! Word characters at the beginning of a text.
ghost use Rattle.std.specs.Prelude.{◌≡◌, ◌<◌, ◌^◌};
ghost use Rattle.std.specs.List.{slice_get};
ghost use Rattle.std.specs.Str.{chars};
ghost use Rattle.typst_lexer.specs.Characters.{begins_with_word, is_word};
ghost use Rattle.typst_lexer.specs.FirstCodes.{code_of_four, code_of_three, code_of_two, first_code, with_byte};

/// The bits of a character so far, with those of one byte more.
fn with_byte(code: u32, byte: u8) -> u32
    requires { code < 2 ^ 20 }
    ensures { result ≡ with_byte code byte }
{
    code * 64 + u32::from(byte.saturating_sub(128))
}

/// The character of four bytes, of which three are `a`, `b` and `c`.
fn code_of_four(a: u8, b: u8, c: u8, rest: &[u8]) -> Option<u32>
    ensures { result ≡ code_of_four a b c rest.now }
{
    match rest {
        [] => None,
        [d, ..] => {
            let bits = with_byte(u32::from(a.saturating_sub(240)), b);
            Some(with_byte(with_byte(bits, c), *d))
        }
    }
}

/// The character of three bytes or more, of which two are `a` and `b`.
fn code_of_three(a: u8, b: u8, rest: &[u8]) -> Option<u32>
    ensures { result ≡ code_of_three a b rest.now }
{
    match rest {
        [] => None,
        [c, rest @ ..] => {
            if a < 240 {
                Some(with_byte(with_byte(u32::from(a.saturating_sub(224)), b), *c))
            } else {
                code_of_four(a, b, *c, rest)
            }
        }
    }
}

/// The character of two bytes or more, of which one is `a`.
fn code_of_two(a: u8, rest: &[u8]) -> Option<u32>
    ensures { result ≡ code_of_two a rest.now }
{
    match rest {
        [] => None,
        [b, rest @ ..] => {
            if a < 224 {
                Some(with_byte(u32::from(a.saturating_sub(192)), *b))
            } else {
                code_of_three(a, *b, rest)
            }
        }
    }
}

/// The first character of one byte or more.
fn code_of_one(text: &[u8]) -> Option<u32>
    ensures { result ≡ first_code text.now }
{
    match text {
        [] => None,
        [a, rest @ ..] => {
            if *a < 128 {
                Some(u32::from(*a))
            } else {
                code_of_two(*a, rest)
            }
        }
    }
}

/// The first character, if its bytes are all there.
#[tactic(auto, using(crate::proofs::FirstCodes::first_code_is))]
pub fn first_code(text: &[u8]) -> Option<u32>
    ensures { result ≡ slice_get (chars text.now) 0 }
{
    code_of_one(text)
}

/// Whether this is the code of a word character.
fn is_word(code: u32) -> bool
    ensures { result ≡ is_word code }
{
    match char::from_u32(code) {
        Some(c) => c.is_alphanumeric(),
        None => false,
    }
}

/// Whether the text begins with a word character.
pub fn begins_with_word(text: &[u8]) -> bool
    ensures { result ≡ begins_with_word text.now }
{
    match first_code(text) {
        Some(code) => is_word(code),
        None => false,
    }
}
