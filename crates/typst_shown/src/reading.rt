//! Reads files and standard input whole.

use crate::problem::Problem;
use std::alloc::Global;
use std::io::Read;
use std::rt::Files;
use std::{fs, io};

/// How many bytes a file may have: 64 MiB. Its tree takes some 50 times as much memory.
const MOST_BYTES: u64 = 1 << 26;

/// The text of a file, or of standard input if the file is `-`.
pub fn read<'a, R: Files + Input + AllocGlobal>(
    rt: &R,
    file: &'a str,
) -> Result<String, Problem<'a>> {
    let bytes = match bytes_of(rt, file) {
        Ok(bytes) => bytes,
        Err(error) => return Err(Problem::of_reading(file, error)),
    };
    if bytes.len() as u64 > MOST_BYTES {
        return Err(Problem::TooLarge {
            file,
            most: MOST_BYTES,
        });
    }
    match String::from_utf8(bytes) {
        Ok(text) => Ok(text),
        Err(error) => Err(Problem::NotText {
            file,
            byte: error.utf8_error().valid_up_to(),
        }),
    }
}

/// The bytes of a file, up to one more than a file may have.
fn bytes_of<R: Files + Input + AllocGlobal>(rt: &R, file: &str) -> io::Result<Vec<u8>> {
    if file == "-" {
        first_bytes(rt.alloc(), rt.reader())
    } else {
        first_bytes(rt.alloc(), fs::open(rt, file)?)
    }
}

/// The bytes of a reader, up to one more than a text may have.
fn first_bytes<R: Read + Drop>(alloc: Global, reader: R) -> io::Result<Vec<u8>> {
    let mut bytes = Vec::new(alloc);
    reader.take(MOST_BYTES + 1).read_to_end(&mut bytes)?;
    Ok(bytes)
}
