//! Colours in the terminal.

use std::io;
use std::io::Write;

/// What has a colour of its own.
#[derive(Clone, Copy, Debug, PartialEq, Eq)]
pub(crate) enum Ink {
    Kind,
    Number,
    New,
    Moved,
    Error,
    Warning,
    LeftOut,
}

impl Ink {
    /// The bytes after which a terminal writes in this colour.
    fn code(self) -> &'static str {
        match self {
            Ink::Kind => "\u{1b}[1m",
            Ink::Number => "\u{1b}[36m",
            Ink::New => "\u{1b}[32m",
            Ink::Moved => "\u{1b}[35m",
            Ink::Error => "\u{1b}[1;31m",
            Ink::Warning => "\u{1b}[1;33m",
            Ink::LeftOut => "\u{1b}[2m",
        }
    }

    /// Begins this colour, if there are colours.
    pub(crate) fn start<W: Write>(self, out: &mut W, is_coloured: bool) -> io::Result<()> {
        if is_coloured {
            out.write_all(self.code().as_bytes())?;
        }
        Ok(())
    }

    /// Ends this colour, if there are colours.
    pub(crate) fn end<W: Write>(self, out: &mut W, is_coloured: bool) -> io::Result<()> {
        if is_coloured {
            out.write_all(b"\x1b[0m")?;
        }
        Ok(())
    }

    /// Writes a word in this colour, if there are colours.
    pub(crate) fn write<W: Write>(
        self,
        out: &mut W,
        is_coloured: bool,
        word: &str,
    ) -> io::Result<()> {
        self.start(out, is_coloured)?;
        out.write_all(word.as_bytes())?;
        self.end(out, is_coloured)
    }
}
