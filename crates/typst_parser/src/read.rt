//! What is read of the next token: the white space before it, and the token itself.
ghost use Rattle.std.specs.Prelude.{◌≡◌, ◌+◌, ◌^◌, ◌<◌, ◌≤◌, ◌-◌, [], ◌∷◌, take, drop, length, IfSome, OnOk};
ghost use Rattle.typst_parser.specs.Reads.{at_token, behind_token, breaks_line, is_alike, is_blank_line, is_read_in, is_settled, is_some_mode, is_white_at, known, mode_of_space, part, read, seen_to, skipped, spaced, token_at, tokened, unspaced, whitened, whitened_by};
ghost use Rattle.typst_parser.specs.View.{stack_of};
ghost use Rattle.typst_lexer.specs.FirstToken.{first};
ghost use Rattle.typst_lexer.specs.LoneBlank.{IsBlankByte, lone_blank};
ghost use Rattle.typst_lexer.specs.Spaces.{is_markup};

use crate::column::{column_after, column_after_blank, has_newline, is_line_feed};
use crate::event::Event;
use crate::next::{Next, Place};
use crate::stack::Stack;
use crate::token::leaf_kind;
use std::alloc::AllocError;
use typst_base::SyntaxKind;
use typst_lexer::{Behind, FirstToken, Mode, TokenKind, begins_white, lone_blank, token_of_bytes};

/// How many bytes are looked at to know that no more white space comes.
const AHEAD: usize = 10;

/// What is left of a text at a place.
pub(crate) fn rest_at(text: &[u8], at: usize) -> &[u8]
    ensures { result.now ≡ drop at text.now }
{
    if at < text.len() { &text[at..] } else { &[] }
}

/// So many bytes of a text from a place on.
pub(crate) fn part(text: &[u8], at: usize, len: usize) -> &[u8]
    ensures { result.now ≡ part at len text.now }
{
    let rest = rest_at(text, at);
    if len < rest.len() { &rest[..len] } else { rest }
}

/// The token at a place, if any text is left there.
fn token_at(mode: Mode, place: Place, text: &[u8]) -> Option<FirstToken>
    ensures token { result ≡ token_at mode place text.now }
    ensures fits { IfSome result (λ token. (place.at + token.len < 2 ^ 64) × (place.at + token.look < 2 ^ 64)) }
{
    let rest = rest_at(text, place.at);
    if rest.is_empty() {
        return None;
    }
    Some(token_of_bytes(mode, place.behind, rest))
}

/// Whether white space or a comment is at a place.
fn is_white_at(mode: Mode, place: Place, text: &[u8]) -> bool
    ensures { result ≡ is_white_at mode place text.now }
{
    begins_white(mode, place.behind, rest_at(text, place.at))
}

/// Whether white space of this kind has a newline.
fn breaks_line(kind: TokenKind, bytes: &[u8]) -> bool
    ensures { result ≡ breaks_line kind bytes.now }
{
    match kind {
        TokenKind::Space => has_newline(bytes),
        TokenKind::Parbreak => true,
        _ => false,
    }
}

/// Whether white space of this kind has a blank line.
fn is_blank_line(kind: TokenKind) -> bool
    ensures { result ≡ is_blank_line kind }
{
    matches!(kind, TokenKind::Parbreak)
}

/// How far a text was looked at, if so many bytes from a place on were.
fn seen_to(text: &[u8], at: usize, look: usize) -> usize
    requires { look ≤ 10 }
    ensures { result ≡ seen_to text.now at look }
{
    if at < text.len() {
        at + look
    } else {
        text.len() + 1
    }
}

/// Whether a mode is that of markup.
fn is_markup(mode: Mode) -> bool
    ensures { result ≡ is_markup mode }
{
    matches!(mode, Mode::Markup)
}

/// Whether white space was read in a mode that reads it in the same way as this one.
fn is_alike(mode: Mode, read: Option<Mode>) -> bool
    ensures { result ≡ is_alike mode read }
{
    match read {
        Some(read) => is_markup(mode) == is_markup(read),
        None => false,
    }
}

/// Whether something was read in a mode.
fn is_some_mode(read: Option<Mode>) -> bool
    ensures { result ≡ is_some_mode read }
{
    match read {
        Some(_) => true,
        None => false,
    }
}

/// Whether a token was read in this mode.
fn is_read_in(mode: Mode, read: Option<Mode>) -> bool
    ensures { result ≡ is_read_in mode read }
{
    match read {
        Some(read) => mode == read,
        None => false,
    }
}

/// The mode in which white space was read, or that of code.
fn mode_of_space(space: Option<Mode>) -> Mode
    ensures { result ≡ mode_of_space space }
{
    match space {
        Some(mode) => mode,
        None => Mode::Code,
    }
}

impl Stack {
    /// Takes one more piece of white space before the next token.
    fn whiten(&mut self, text: &[u8], token: Option<FirstToken>) -> Result<(), AllocError>
        requires { IfSome token (λ token. (self.old.next.place.at + token.len < 2 ^ 64) × (self.old.next.place.at + token.look < 2 ^ 64)) }
        ensures { OnOk result (stack_of self.new ≡ whitened text.now token (stack_of self.old)) }
    {
        let Some(token) = token else {
            return Ok(());
        };
        let place = self.next.place;
        let bytes = part(text, place.at, token.len);
        self.white.push(Event::Leaf {
            kind: leaf_kind(token.kind),
            len: token.len,
        })?;
        self.far = self.far.max(place.at + token.look);
        self.next.line = self.next.line || breaks_line(token.kind, bytes);
        self.next.blank = self.next.blank || is_blank_line(token.kind);
        self.next.place = Place {
            at: place.at + token.len,
            behind: token.behind,
            column: column_after(place.column, bytes),
        };
        Ok(())
    }

    /// Takes a blank or a line feed as white space before the next token.
    #[tactic(auto, using(crate::proofs::Whites::none_more))]
    fn whiten_byte(&mut self, byte: u8) -> Result<(), AllocError>
        requires fits { self.old.next.place.at + 11 < 2 ^ 64 }
        requires byte { IsBlankByte byte }
        ensures { OnOk result (stack_of self.new ≡ whitened_by (byte ∷ []) lone_blank (stack_of self.old)) }
    {
        let place = self.next.place;
        self.white.push(Event::Leaf {
            kind: SyntaxKind::Space,
            len: 1,
        })?;
        self.far = self.far.max(place.at + 1 + AHEAD);
        self.next.line = self.next.line || is_line_feed(byte);
        self.next.place = Place {
            at: place.at + 1,
            behind: Behind::Other,
            column: column_after_blank(place.column, byte),
        };
        Ok(())
    }

    /// Takes the white space before the next token. Most often it is one blank or one line feed.
    fn skip(&mut self, mode: Mode, text: &[u8]) -> Result<(), AllocError>
        ensures { OnOk result (stack_of self.new ≡ skipped (length text.now) mode text.now (stack_of self.old)) }
    {
        if let Some(byte) = lone_blank(rest_at(text, self.next.place.at)) {
            self.whiten_byte(byte)?;
            return Ok(());
        }
        for _ in 0..text.len() {
            if !is_white_at(mode, self.next.place, text) {
                return Ok(());
            }
            let token = token_at(mode, self.next.place, text);
            self.whiten(text, token)?;
        }
        Ok(())
    }

    /// Whether the white space before the next token isn't read anew.
    fn is_settled(&self) -> bool
        ensures { result ≡ is_settled (stack_of self.now) }
    {
        self.next.is_flushed || (is_some_mode(self.next.space) && self.judge < self.below.len())
    }

    /// Reads the white space before the next token in a mode, unless it was read so.
    pub(crate) fn space(&mut self, mode: Mode, text: &[u8]) -> Result<(), AllocError>
        ensures { OnOk result (stack_of self.new ≡ spaced mode text.now (stack_of self.old)) }
    {
        if self.is_settled() || is_alike(mode, self.next.space) {
            return Ok(());
        }
        self.white.clear();
        self.next = Next {
            space: Some(mode),
            ..Next::unread(self.from)
        };
        self.skip(mode, text)?;
        self.far = self.far.max(seen_to(text, self.next.place.at, AHEAD));
        Ok(())
    }

    /// Takes over what was read of the next token.
    fn set_token(&mut self, text: &[u8], mode: Mode, token: Option<FirstToken>)
        requires { IfSome token (λ token. (self.old.next.place.at + token.len < 2 ^ 64) × (self.old.next.place.at + token.look < 2 ^ 64)) }
        ensures { stack_of self.new ≡ tokened text.now mode token (stack_of self.old) }
    {
        let place = self.next.place;
        self.next.mode = Some(mode);
        match token {
            Some(token) => {
                self.far = self.far.max(place.at + token.look);
                self.next.kind = Some(token.kind);
                self.next.end = place.at + token.len;
                self.next.behind = token.behind;
            }
            None => {
                self.far = self.far.max(text.len() + 1);
                self.next.kind = None;
                self.next.end = place.at;
                self.next.behind = place.behind;
            }
        }
    }

    /// Reads the next token in a mode, unless it was read so.
    pub(crate) fn read(&mut self, mode: Mode, text: &[u8])
        ensures { stack_of self.new ≡ read mode text.now (stack_of self.old) }
    {
        if !is_read_in(mode, self.next.mode) {
            self.set_token(text, mode, token_at(mode, self.next.place, text));
        }
    }

    /// Reads the next token, unless it was read.
    pub(crate) fn know(&mut self, text: &[u8])
        ensures { stack_of self.new ≡ known text.now (stack_of self.old) }
    {
        if !is_some_mode(self.next.mode) {
            self.read(mode_of_space(self.next.space), text);
        }
    }
}
