//! White space and comments before a token.
ghost use Rattle.std.specs.Prelude.{true, false, ◌≡◌, ◌↔◌, [], ◌∷◌, take, IfSome, IsSome};
ghost use Rattle.typst_lexer.specs.declared.mode.Mode.{Mode};
ghost use Rattle.typst_lexer.specs.declared.place.Behind.{Behind};
ghost use Rattle.typst_lexer.specs.LoneBlank.{IsAlone, IsBlankByte, IsLone};
ghost use Rattle.typst_lexer.specs.Spaces.{is_markup};
ghost use Rattle.typst_lexer.specs.White.{begins_white, is_solid, is_space_next, is_white_next};

use crate::AHEAD;
use crate::classes::{begins_blank, begins_space};
use crate::markup::is_start;
use crate::mode::Mode;
use crate::place::Behind;
use crate::window::window;

/// Whether a mode is that of markup.
fn is_markup(mode: Mode) -> bool
    ensures { result ≡ is_markup mode }
{
    matches!(mode, Mode::Markup)
}

/// Whether white space of a mode is next.
fn is_space_next(mode: Mode, window: &[u8]) -> bool
    ensures { result ≡ is_space_next mode window.now }
{
    if is_markup(mode) {
        begins_blank(window)
    } else {
        begins_space(window)
    }
}

/// Whether white space or a comment is next.
fn is_white_next(mode: Mode, behind: Behind, window: &[u8]) -> bool
    ensures { result ≡ is_white_next mode behind window.now }
{
    is_space_next(mode, window)
        || window.starts_with(b"//")
        || window.starts_with(b"/*")
        || is_start(behind) && is_markup(mode) && window.starts_with(b"#!")
}

/// Whether neither white space nor a comment begins with the byte in any case.
fn is_solid(byte: u8) -> bool
    ensures { result ≡ is_solid byte }
{
    byte.is_ascii_graphic() && !(byte == b'#' || byte == b'/')
}

/// Whether such a byte is next.
#[tactic(auto, using(crate::proofs::WhiteNext::solid_is))]
fn begins_solid(text: &[u8]) -> bool
    ensures { result ≡ true → (mode : Mode) (behind : Behind) → begins_white mode behind text.now ≡ false }
{
    matches!(text, [byte, ..] if is_solid(*byte))
}

/// The blank or the line feed at the beginning, if it is all white space before a token, as the byte behind it tells.
#[tactic(auto, using(crate::proofs::LoneBlanks::byte_is))]
pub fn lone_blank(text: &[u8]) -> Option<u8>
    ensures lone { IfSome result (λ byte. IsLone text.now) }
    ensures found { IsSome result ↔ IsAlone text.now }
    ensures byte { IfSome result (λ byte. take 1 text.now ≡ byte ∷ []) }
    ensures kind { IfSome result IsBlankByte }
{
    match text {
        [byte, next, ..] if *byte == b' ' && is_solid(*next) => Some(b' '),
        [byte, next, ..] if *byte == b'\n' && is_solid(*next) => Some(b'\n'),
        _ => None,
    }
}

#[tactic(auto, using(crate::proofs::WhiteNext::white_is))]
/// Whether the first token of a text is white space or a comment, in a mode, given what is directly before the text. It
/// looks at ten bytes.
pub fn begins_white(mode: Mode, behind: Behind, text: &[u8]) -> bool
    ensures { result ≡ begins_white mode behind text.now }
{
    !begins_solid(text) && is_white_next(mode, behind, window(text, 0, AHEAD))
}
