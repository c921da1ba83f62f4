//! Runs the lines of a script.
ghost use Rattle.std.specs.Prelude.{OnOk, IfSome};
ghost use Rattle.std.specs.Io.KnownBytes.{IsAtEnd};
ghost use Rattle.std.specs.Io.Take.{take_remaining};

use crate::fault::Fault;
use crate::input::{MOST_BYTES, read_line};
use crate::interpreter::Interpreter;
use std::alloc::Global;
use std::io::{BufRead, BufReader, BufWriter, Read, Take, Write};
use typst_tree::SyntaxNode;

/// Runs a script to its end or its first fault. What was printed before a fault is written too.
///
/// A script is lines of UTF-8 that end in LF or at the end of input, each a [`Command`](crate::command::Command) or
/// empty. They are carried out one by one, so a fault counts only once the lines before it are done.
///
/// The fault is `BadCommand` if a line is no command, or asks for nodes or a tree that aren't there. It is `Read` if
/// the reader fails, if a line isn't UTF-8, or if the input goes on after 2^40 bytes. It is `Write` if the writer
/// fails, `Memory` if memory runs out, and `Overflow` if the sums of an inner node don't fit in a `usize`.
///
/// Reading and writing go through buffers. A line takes time in proportion to its bytes. `inner`, `number` and `show`
/// also take time in proportion to the nodes that they take, number and print. `run` costs what its requests cost, and
/// tests no tree that was numbered or run before. A leaf asks for memory once, and the stack asks for memory now and
/// then as it grows.
pub fn run<R: Read + Drop, W: Write + Drop>(
    alloc: Global,
    reader: R,
    writer: W,
) -> Result<(), Fault> {
    run_within(alloc, reader, writer, MOST_BYTES)
}

/// Runs a script of at most `most_bytes` bytes. Input that goes on after them is a fault of reading.
pub fn run_within<R: Read + Drop, W: Write + Drop>(
    alloc: Global,
    reader: R,
    writer: W,
    most_bytes: u64,
) -> Result<(), Fault> {
    let mut interpreter = Interpreter::new(alloc);
    run_by(alloc, &mut interpreter, reader, writer, most_bytes)?;
    Ok(())
}

/// The tree that a script leaves at its end. What the script prints is dropped.
///
/// The faults are those of [`run`], and `BadCommand` at the last line if there is no tree.
pub fn tree_of<R: Read + Drop>(alloc: Global, reader: R) -> Result<SyntaxNode, Fault> {
    let mut interpreter = Interpreter::new(alloc);
    let mut printed: Vec<u8> = Vec::new(alloc);
    let lines = run_by(alloc, &mut interpreter, reader, &mut printed, MOST_BYTES)?;
    let line = lines.max(1);
    let tree = interpreter.tree.ok_or(Fault::BadCommand { line })?;
    Ok(tree.into_root())
}

/// Carries out lines, one by one.
pub trait Obey {
    /// Carries out the line with this number, given without its end, and prints its answer.
    fn obey_line<W: Write>(
        &mut self,
        alloc: Global,
        line: u64,
        text: &str,
        out: &mut W,
    ) -> Result<(), Fault>;
}

impl Obey for Interpreter {
    fn obey_line<W: Write>(
        &mut self,
        alloc: Global,
        line: u64,
        text: &str,
        out: &mut W,
    ) -> Result<(), Fault> {
        self.obey(alloc, line, text, out)
    }
}

/// Carries out each line of an input of at most `most_bytes` bytes, up to its end or the first fault. Returns how many
/// lines there were.
pub fn run_by<O: Obey, R: Read + Drop, W: Write + Drop>(
    alloc: Global,
    by: &mut O,
    reader: R,
    writer: W,
    most_bytes: u64,
) -> Result<u64, Fault> {
    let mut input = BufReader::new(alloc, reader)
        .map_err(Fault::of_reading)?
        .take(most_bytes.saturating_add(1));
    let mut out = BufWriter::new(alloc, writer).map_err(Fault::of_writing)?;
    let done = obey_lines(alloc, by, &mut input, &mut out);
    let flushed = out.flush().map_err(Fault::of_writing);
    let lines = done?;
    flushed?;
    Ok(lines)
}

/// Carries out each line of a buffered reader, up to the end of input or the first fault. Returns how many lines there
/// were.
pub fn obey_lines<O: Obey, R: BufRead, W: Write>(
    alloc: Global,
    by: &mut O,
    input: &mut Take<R>,
    out: &mut W,
) -> Result<u64, Fault>
    ensures read { OnOk result (IfSome (take_remaining R.remaining input.old)
        (λ _. IsAtEnd (take_remaining R.remaining input.new))) }
{
    let mut text = String::new(alloc);
    for line in 1..u64::MAX {
        if !read_line(input, &mut text)? {
            return Ok(line - 1);
        }
        by.obey_line(alloc, line, &text, out)?;
    }
    Err(Fault::Read)
}
