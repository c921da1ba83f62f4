//! A reader and a writer that fail at one of their calls, and a reader that gives many letters.
use std::io;
use std::io::{ErrorKind, Read, Write};

/// Which calls fail: one call only, or also all calls after it.
#[derive(Clone, Copy)]
pub(crate) struct Failure {
    /// How many calls succeed before the one that fails.
    calls_left: usize,
    /// Whether the calls after the one that fails succeed again.
    recovers: bool,
    has_failed: bool,
}

impl Failure {
    /// The failure of the call that comes after this many calls.
    pub(crate) fn after(calls_left: usize, recovers: bool) -> Failure {
        Failure {
            calls_left,
            recovers,
            has_failed: false,
        }
    }

    /// Counts a call, and returns whether it fails.
    fn hits(&mut self) -> bool {
        if self.has_failed {
            return !self.recovers;
        }
        match self.calls_left.checked_sub(1) {
            Some(calls_left) => {
                self.calls_left = calls_left;
                false
            }
            None => {
                self.has_failed = true;
                true
            }
        }
    }
}

/// Gives one of its bytes in each call, unless the call fails.
#[derive(Drop)]
pub(crate) struct FailingReader<'a> {
    pub(crate) bytes: &'a [u8],
    pub(crate) failure: Failure,
}

impl Read for FailingReader<'_> {
    fn read(&mut self, buf: &mut [u8]) -> io::Result<usize> {
        if self.failure.hits() {
            return Err(io::Error::from(ErrorKind::Other));
        }
        let Some((first, rest)) = self.bytes.split_first() else {
            return Ok(0);
        };
        if buf.is_empty() {
            return Ok(0);
        }
        buf[0] = *first;
        self.bytes = rest;
        Ok(1)
    }
}

/// Gives this many letters, which are stored nowhere before they are read.
#[derive(Drop)]
pub(crate) struct Letters {
    pub(crate) left: usize,
}

impl Read for Letters {
    fn read(&mut self, buf: &mut [u8]) -> io::Result<usize> {
        let given = self.left.min(buf.len());
        for index in 0..given {
            buf[index] = b'a';
        }
        self.left -= given;
        Ok(given)
    }
}

/// Takes one byte in each call, unless the call fails.
#[derive(Drop)]
pub(crate) struct FailingWriter<'a> {
    pub(crate) written: &'a mut Vec<u8>,
    pub(crate) failure: Failure,
}

impl Write for FailingWriter<'_> {
    fn write(&mut self, buf: &[u8]) -> io::Result<usize> {
        if self.failure.hits() {
            return Err(io::Error::from(ErrorKind::Other));
        }
        match buf.first() {
            Some(byte) => {
                self.written.push(*byte)?;
                Ok(1)
            }
            None => Ok(0),
        }
    }

    fn flush(&mut self) -> io::Result<()> {
        if self.failure.hits() {
            return Err(io::Error::from(ErrorKind::Other));
        }
        Ok(())
    }
}
