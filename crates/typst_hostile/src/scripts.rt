//! A run of the program.
use crate::end::{End, Refusal, Stop};
use crate::requests::Requests;
use std::alloc::Global;
use std::str;
use typst_script::{Fault, script};

/// The lines that make a tree.
const TREE: &str = "leaf 6 a\nleaf 6 b\ninner 5 2\nleaf 6 c\ninner 5 2\nroot\nnumber 1 2 400\n";

/// The lines of each request. Each request has one line of the answer.
const REQUESTS: [&str; 6] = [
    "leaf 6 x\nleaf 6 y\nreplace - 1 1 2\n",
    "find 1 22\n",
    "leaf 6 z\nleaf 6 u\nleaf 6 v\nreplace 0 1 1 3\n",
    "find 1 9\n",
    "error m\t#\nwarn w\nreplace - 0 0 1\n",
    "find 1 150\n",
];

/// The lines that serve the requests, and print the tree.
const END: &str = "run\nshow\n";

/// The line in place of a reply where memory was refused.
const REFUSED: &str = "no memory";

/// Room for all that is printed, so that the writer asks for no memory of its own.
const ROOM: usize = 4096;

/// `script::run`, over a script whose lines are bytes at hand.
///
/// Where the run ends because memory ran out, what it printed must be the beginning of the whole answer. Where one
/// request of the queue was refused, all else must be as if that request hadn't been in the script.
pub fn run_script(alloc: Global, requests: Requests) -> Result<End, Stop> {
    let lines = lines_but(alloc, None)?;
    let whole = printed(alloc, lines.as_str())?;
    let mut out = Vec::with_capacity(alloc, ROOM)?;
    requests.make(alloc)?;
    let done = script::run(alloc, lines.as_bytes(), &mut out);
    match done {
        Err(Fault::Memory) => Ok(if whole.as_slice().starts_with(out.as_slice()) {
            End::Refused(Refusal::Memory)
        } else {
            End::Changed
        }),
        Err(_) => Ok(End::Wrong),
        Ok(()) if out == whole => Ok(End::Whole),
        Ok(()) => is_without_one(alloc, out.as_slice()),
    }
}

/// How a run ended that printed something other than the whole answer.
fn is_without_one(alloc: Global, out: &[u8]) -> Result<End, Stop> {
    let text = str::from_utf8(out).ok().ok_or(Stop::Early)?;
    let Some(index) = text.lines().position(|line| line == REFUSED) else {
        return Ok(End::Wrong);
    };
    let rest = printed(alloc, lines_but(alloc, Some(index))?.as_str())?;
    let mut others: Vec<u8> = Vec::with_capacity(alloc, ROOM)?;
    for (at, line) in text.lines().enumerate() {
        if at != index {
            others.extend_from_slice(line.as_bytes())?;
            others.push(b'\n')?;
        }
    }
    Ok(if others == rest {
        End::Refused(Refusal::NoMemory)
    } else {
        End::Changed
    })
}

/// The script, without one of its requests.
fn lines_but(alloc: Global, but: Option<usize>) -> Result<String, Stop> {
    let mut lines = String::from_str(alloc, TREE)?;
    for (index, request) in REQUESTS.iter().enumerate() {
        if but != Some(index) {
            lines.push_str(request)?;
        }
    }
    lines.push_str(END)?;
    Ok(lines)
}

/// What a script without a fault prints.
fn printed(alloc: Global, lines: &str) -> Result<Vec<u8>, Stop> {
    let mut out = Vec::with_capacity(alloc, ROOM)?;
    match script::run(alloc, lines.as_bytes(), &mut out) {
        Ok(()) => Ok(out),
        Err(_) => Err(Stop::Early),
    }
}
