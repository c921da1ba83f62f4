//! Raw text as events.
ghost use Rattle.std.specs.List.{prefix_len, suffix_len};
ghost use Rattle.std.specs.Prelude.{◌≡◌, ◌++◌, ◌+◌, ◌^◌, ◌<◌, ◌≤◌, true, length, map, IfOk, OnOk};
ghost use Rattle.typst_parser.specs.Last.{last_of};
ghost use Rattle.typst_parser.specs.LineViews.{line_of, piece_of};
ghost use Rattle.typst_parser.specs.Raw.{behind_backtick, block_events, body_events, close_len, cut_pieces, dedent, dedented, inner_events, is_backtick, is_marked, kept_lines, lang_len, least_indent, open_len, piece_behind, pieces_from, plain_pieces, raw_events, shortened, single_events, some_lang, some_trimmed};

use crate::event::Event;
use crate::lines::{Line, indent, is_blank, lines, whites_len};
use std::alloc::{AllocError, Global};
use typst_base::SyntaxKind;
use typst_lexer::{Behind, Mode, TokenKind, token_of_bytes};

/// A piece of raw text that isn't trimmed.
#[derive(Clone, Copy, Debug)]
pub struct Piece {
    /// Where it begins.
    pub(crate) from: usize,
    /// Where it ends.
    pub(crate) to: usize,
}

/// Adds so many trimmed bytes, if there are any.
fn push_trimmed(events: &mut Vec<Event>, len: usize) -> Result<(), AllocError>
    ensures { OnOk result (events.new.items ≡ events.old.items ++ some_trimmed len) }
{
    if len > 0 {
        events.push(Event::Leaf {
            kind: SyntaxKind::RawTrimmed,
            len,
        })?;
    }
    Ok(())
}

/// Adds the text between two places. The pieces are texts, and what is before, between and behind them is trimmed.
fn push_pieces(
    events: &mut Vec<Event>,
    from: usize,
    pieces: &[Piece],
    to: usize,
) -> Result<(), AllocError>
    ensures { OnOk result (events.new.items ≡ events.old.items ++ pieces_from from (map piece_of pieces.now) to) }
{
    let mut place = from;
    for piece in pieces {
        push_trimmed(events, piece.from.saturating_sub(place))?;
        events.push(Event::Leaf {
            kind: SyntaxKind::Text,
            len: piece.to.saturating_sub(piece.from),
        })?;
        place = piece.to;
    }
    push_trimmed(events, to.saturating_sub(place))
}

/// A line without so many bytes at its beginning.
fn piece_behind(len: usize, line: &Line<'_>) -> Piece
    ensures { piece_of result ≡ piece_behind len (line_of line.now) }
{
    Piece {
        from: line.from.saturating_add(len).min(line.to),
        to: line.to,
    }
}

/// The pieces between single backticks: each line is one.
fn plain_pieces(alloc: Global, lines: &[Line<'_>]) -> Result<Vec<Piece>, AllocError>
    ensures { IfOk result (λ pieces. map piece_of pieces.items ≡ plain_pieces (map line_of lines.now)) }
{
    let mut pieces = Vec::new(alloc);
    for line in lines {
        pieces.push(piece_behind(0, line))?;
    }
    Ok(pieces)
}

/// Adds the pieces of lines without so many white space characters at the beginning of each.
fn push_cut(pieces: &mut Vec<Piece>, cut: usize, lines: &[Line<'_>]) -> Result<(), AllocError>
    ensures { OnOk result (map piece_of pieces.new.items ≡ map piece_of pieces.old.items ++ cut_pieces cut (map line_of lines.now)) }
{
    for line in lines {
        pieces.push(piece_behind(whites_len(cut, line.text), line))?;
    }
    Ok(())
}

/// The least indent of lines that aren't blank, or this number.
fn least_indent(most: usize, lines: &[Line<'_>]) -> usize
    ensures { result ≡ least_indent most (map line_of lines.now) }
{
    let mut least = most;
    for line in lines {
        if !is_blank(line.text) {
            least = least.min(indent(line.text));
        }
    }
    least
}

/// How many white space characters are trimmed from each line but the first.
fn dedent(lines: &[Line<'_>]) -> usize
    ensures { result ≡ dedent (map line_of lines.now) }
{
    match lines.last() {
        Some(last) => least_indent(indent(last.text), &lines[1..]),
        None => 0,
    }
}

/// How many bytes come behind the last backtick.
fn behind_backtick(text: &[u8]) -> usize
    ensures behind { result ≡ behind_backtick text.now }
    ensures within { result ≤ length text.now }
{
    text.iter().rev().take_while(|b| **b != b'`').count()
}

/// Whether a line ends in a backtick with white space behind it, a space at last.
fn is_marked(text: &[u8]) -> bool
    ensures marked { result ≡ is_marked text.now }
    ensures some { result ≡ true → 0 < length text.now }
{
    let len = text.len();
    let behind = behind_backtick(text);
    behind < len && is_blank(&text[len - behind..]) && text[len - 1] == b' '
}

/// A line without so many bytes at its end.
fn shortened<'a>(len: usize, line: Line<'a>) -> Line<'a>
    ensures { line_of result ≡ shortened len (line_of line.entry) }
{
    Line {
        from: line.from,
        to: line.to.saturating_sub(len),
        text: &line.text[..line.text.len().saturating_sub(len)],
    }
}

/// Drops a blank last line, and the end of another one.
fn keep_lines(lines: &mut Vec<Line<'_>>) -> Result<(), AllocError>
    ensures { OnOk result (map line_of lines.new.items ≡ kept_lines (last_of (map line_of lines.old.items))) }
{
    if let Some(last) = lines.pop() {
        if !is_blank(last.text) {
            lines.push(shortened(usize::from(is_marked(last.text)), last))?;
        }
    }
    Ok(())
}

/// The pieces between three or more backticks.
fn dedented(alloc: Global, mut lines: Vec<Line<'_>>) -> Result<Vec<Piece>, AllocError>
    ensures { IfOk result (λ pieces. map piece_of pieces.items ≡ dedented (map line_of lines.entry.items)) }
{
    let cut = dedent(&lines);
    keep_lines(&mut lines)?;
    let mut pieces = Vec::new(alloc);
    if let [first, others @ ..] = lines.as_slice() {
        if !is_blank(first.text) {
            let space = usize::from(matches!(first.text, [b' ', ..]));
            pieces.push(piece_behind(space, first))?;
        }
        push_cut(&mut pieces, cut, others)?;
    }
    Ok(pieces)
}

/// The length of the language of raw text: the name with which it begins.
fn lang_len(text: &[u8]) -> usize
    ensures len { result ≡ lang_len text.now }
    ensures within { result ≤ length text.now }
{
    if text.is_empty() {
        return 0;
    }
    let first = token_of_bytes(Mode::Code, Behind::At, text);
    match first.kind {
        TokenKind::Ident | TokenKind::Underscore => first.len,
        _ => 0,
    }
}

/// Adds what is between single backticks, where the text between them begins at this place.
fn push_single(
    alloc: Global,
    events: &mut Vec<Event>,
    from: usize,
    text: &[u8],
) -> Result<(), AllocError>
    requires { from + length text.now < 2 ^ 64 }
    ensures { OnOk result (events.new.items ≡ events.old.items ++ single_events from text.now) }
{
    let lines = lines(alloc, from, text)?;
    let pieces = plain_pieces(alloc, &lines)?;
    push_pieces(events, from, &pieces, from + text.len())?;
    Ok(())
}

/// Adds the language of raw text, if it has one.
fn push_lang(events: &mut Vec<Event>, len: usize) -> Result<(), AllocError>
    ensures { OnOk result (events.new.items ≡ events.old.items ++ some_lang len) }
{
    if len > 0 {
        events.push(Event::Leaf {
            kind: SyntaxKind::RawLang,
            len,
        })?;
    }
    Ok(())
}

/// Adds what is between three or more backticks, where the text between them begins at this place.
fn push_block(
    alloc: Global,
    events: &mut Vec<Event>,
    from: usize,
    text: &[u8],
) -> Result<(), AllocError>
    requires { from + length text.now < 2 ^ 64 }
    ensures { OnOk result (events.new.items ≡ events.old.items ++ block_events from text.now) }
{
    let lang = lang_len(text);
    push_lang(events, lang)?;
    let lines = lines(alloc, from + lang, &text[lang..])?;
    let pieces = dedented(alloc, lines)?;
    push_pieces(events, from + lang, &pieces, from + text.len())?;
    Ok(())
}

/// Adds what is between so many backticks at each end.
fn push_body(
    alloc: Global,
    events: &mut Vec<Event>,
    backticks: usize,
    text: &[u8],
) -> Result<(), AllocError>
    requires { backticks + length text.now < 2 ^ 64 }
    ensures { OnOk result (events.new.items ≡ events.old.items ++ body_events backticks text.now) }
{
    if backticks == 1 {
        push_single(alloc, events, backticks, text)
    } else {
        push_block(alloc, events, backticks, text)
    }
}

/// How many backticks come first.
fn backticks_before(text: &[u8]) -> usize
    ensures count { result ≡ prefix_len is_backtick text.now }
    ensures within { result ≤ length text.now }
{
    text.iter().take_while(|b| **b == b'`').count()
}

/// How many backticks come last.
fn backticks_behind(text: &[u8]) -> usize
    ensures count { result ≡ suffix_len is_backtick text.now }
    ensures within { result ≤ length text.now }
{
    text.iter().rev().take_while(|b| **b == b'`').count()
}

/// How many backticks open raw text.
fn open_len(text: &[u8]) -> usize
    ensures len { result ≡ open_len text.now }
    ensures within { result ≤ length text.now }
{
    let count = backticks_before(text);
    if count == 2 && text.len() == 2 {
        1
    } else {
        count
    }
}

/// How many of the backticks at the end close raw text that so many backticks open.
fn close_len(backticks: usize, text: &[u8]) -> usize
    requires { backticks ≤ length text.now }
    ensures len { result ≡ close_len backticks text.now }
    ensures within { result + backticks ≤ length text.now }
{
    backticks_behind(&text[backticks..]).min(backticks)
}

/// Adds what is between the backticks, of which so many open raw text.
fn push_inner(
    alloc: Global,
    events: &mut Vec<Event>,
    backticks: usize,
    text: &[u8],
) -> Result<(), AllocError>
    requires { backticks ≤ length text.now }
    ensures { OnOk result (events.new.items ≡ events.old.items ++ inner_events backticks text.now) }
{
    let close = close_len(backticks, text);
    if text.len() == backticks + close {
        return Ok(());
    }
    let end = text.len() - close;
    push_body(alloc, events, backticks, &text[backticks..end])
}

/// Adds raw text with its backticks.
pub(crate) fn push_raw(
    alloc: Global,
    events: &mut Vec<Event>,
    text: &[u8],
) -> Result<(), AllocError>
    ensures { OnOk result (events.new.items ≡ events.old.items ++ raw_events text.now) }
{
    let before = events.len();
    let open = open_len(text);
    events.push(Event::Leaf {
        kind: SyntaxKind::RawDelim,
        len: open,
    })?;
    push_inner(alloc, events, open, text)?;
    events.push(Event::Leaf {
        kind: SyntaxKind::RawDelim,
        len: close_len(open, text),
    })?;
    let children = events.len() - before;
    events.push(Event::Node {
        kind: SyntaxKind::Raw,
        children,
    })?;
    Ok(())
}
