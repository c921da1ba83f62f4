//! The lines of a file of edits.

use std::alloc::{AllocError, Global};
use std::fmt::{self, Display, Formatter, Write};

/// A place in a text, as an edit names it.
#[derive(Clone, Copy, Debug, PartialEq, Eq)]
pub(crate) enum Place {
    /// A number of bytes from the beginning.
    Byte(usize),
    /// A line and a column, both from 1. The column counts characters.
    LineColumn { line: usize, column: usize },
}

/// An edit: the part of the text that is removed, and the text that replaces it.
#[derive(Debug, Drop)]
pub(crate) struct EditLine {
    pub(crate) start: Place,
    pub(crate) end: Place,
    pub(crate) with: String,
}

impl Display for Place {
    /// Writes the place as an edit does.
    fn fmt<W: Write>(&self, f: &mut Formatter<W>) -> fmt::Result {
        match self {
            Place::Byte(byte) => write!(f, "{byte}"),
            Place::LineColumn { line, column } => write!(f, "{line}:{column}"),
        }
    }
}

impl Display for EditLine {
    /// Writes the line that the edit was read from.
    fn fmt<W: Write>(&self, f: &mut Formatter<W>) -> fmt::Result {
        let EditLine { start, end, with } = self;
        write!(f, "{start}..{end} {with:?}")
    }
}

/// Why a line can't be read.
#[derive(Clone, Copy, Debug, PartialEq, Eq)]
pub(crate) enum LineError {
    /// The line has something else where this was expected, at a column from 1.
    Expected { column: usize, what: &'static str },
    /// Memory was refused.
    Memory,
}

impl From<AllocError> for LineError {
    /// Memory was refused.
    fn from(_: AllocError) -> LineError {
        LineError::Memory
    }
}

impl EditLine {
    /// Reads `A..B "text"` or `L:C..L:C "text"`.
    pub(crate) fn parse(alloc: Global, line: &str) -> Result<EditLine, LineError> {
        let mut rest = Rest {
            text: line,
            column: 1,
        };
        let start = rest.place()?;
        rest.take("..", "`..`")?;
        let end = rest.place_like(start)?;
        rest.take(" ", "a blank")?;
        let with = rest.quoted(alloc)?;
        if !rest.text.is_empty() {
            return Err(rest.expected("the end of the line"));
        }
        Ok(EditLine { start, end, with })
    }
}

/// The rest of a line.
#[derive(Drop)]
struct Rest<'a> {
    text: &'a str,
    /// The column where the rest begins, from 1. Columns count characters.
    column: usize,
}

impl<'a> Rest<'a> {
    /// Says that something else was expected here.
    fn expected(&self, what: &'static str) -> LineError {
        LineError::Expected {
            column: self.column,
            what,
        }
    }

    /// Takes the next character.
    fn next(&mut self) -> Option<char> {
        let mut chars = self.text.chars();
        let next = chars.next()?;
        self.text = chars.as_str();
        self.column = self.column.saturating_add(1);
        Some(next)
    }

    /// Takes this word, of ASCII characters.
    fn take(&mut self, word: &str, what: &'static str) -> Result<(), LineError> {
        match self.text.strip_prefix(word) {
            Some(rest) => {
                self.text = rest;
                self.column = self.column.saturating_add(word.len());
                Ok(())
            }
            None => Err(self.expected(what)),
        }
    }

    /// Takes digits that are a number.
    fn number(&mut self, what: &'static str) -> Result<usize, LineError> {
        let len = self
            .text
            .bytes()
            .take_while(|byte| byte.is_ascii_digit())
            .count();
        let (Some(digits), Some(rest)) = (self.text.get(..len), self.text.get(len..)) else {
            return Err(self.expected(what));
        };
        let Ok(number) = digits.parse::<usize>() else {
            return Err(self.expected(what));
        };
        self.text = rest;
        self.column = self.column.saturating_add(len);
        Ok(number)
    }

    /// Takes a line or a column: a number from 1.
    fn ordinal(&mut self, what: &'static str) -> Result<usize, LineError> {
        let expected = self.expected(what);
        match self.number(what)? {
            0 => Err(expected),
            number => Ok(number),
        }
    }

    /// Takes `A` or `L:C`.
    fn place(&mut self) -> Result<Place, LineError> {
        let ahead = Rest {
            text: self.text,
            column: self.column,
        };
        let byte = self.number("a byte, or a line and a column")?;
        if !self.text.starts_with(':') {
            return Ok(Place::Byte(byte));
        }
        *self = ahead;
        self.line_column()
    }

    /// Takes a line and a column, such as `2:5`.
    fn line_column(&mut self) -> Result<Place, LineError> {
        let line = self.ordinal("a line from 1")?;
        self.take(":", "`:` and a column")?;
        let column = self.ordinal("a column from 1")?;
        Ok(Place::LineColumn { line, column })
    }

    /// Takes a place in the same form as another place.
    fn place_like(&mut self, other: Place) -> Result<Place, LineError> {
        match other {
            Place::Byte(_) => Ok(Place::Byte(self.number("a byte")?)),
            Place::LineColumn { .. } => self.line_column(),
        }
    }

    /// Takes a text in quotes.
    fn quoted(&mut self, alloc: Global) -> Result<String, LineError> {
        self.take("\"", "a text in quotes")?;
        let mut text = String::new(alloc);
        for _ in 0..self.text.len() {
            match self.next() {
                Some('"') => return Ok(text),
                Some('\\') => text.push(self.escaped()?)?,
                Some(other) => text.push(other)?,
                None => break,
            }
        }
        Err(self.expected("a closing quote"))
    }

    /// Takes what follows a backslash.
    fn escaped(&mut self) -> Result<char, LineError> {
        let unknown = self.expected("one of the escapes n, r, t, 0, \\, \", ' and u{..}");
        match self.next() {
            Some('n') => Ok('\n'),
            Some('r') => Ok('\r'),
            Some('t') => Ok('\t'),
            Some('0') => Ok('\0'),
            Some('\\') => Ok('\\'),
            Some('"') => Ok('"'),
            Some('\'') => Ok('\''),
            Some('u') => self.escaped_code(),
            _ => Err(unknown),
        }
    }

    /// Takes `{..}` with the hexadecimal digits of a character.
    fn escaped_code(&mut self) -> Result<char, LineError> {
        let wrong = self.expected("the hexadecimal digits of a character in braces");
        self.take("{", "`{`")?;
        let Some((digits, rest)) = self.text.split_once('}') else {
            return Err(wrong);
        };
        let code = match u32::from_str_radix(digits, 16) {
            Ok(code) if !digits.starts_with('+') => code,
            _ => return Err(wrong),
        };
        self.text = rest;
        self.column = self.column.saturating_add(digits.len()).saturating_add(1);
        char::from_u32(code).ok_or(wrong)
    }
}
