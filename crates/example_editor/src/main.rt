//! Does what an editor does with documents, one command after the other:
//!
//! - `edit TEXT EDITS` edits a text, and tells what each edit did to its tree;
//! - `outline TEXT` prints the headings of a text;
//! - `lint TEXT` reports the errors and warnings of a text.
//!
//! TEXT and EDITS are files, or `-` for standard input.
#![tactic(auto)]

mod edit;
mod lint;
mod outline;

use crate::edit::make_edits;
use crate::lint::print_errors;
use crate::outline::print_outline;
use anyhow::{Context, Result, bail};
use std::{env, fs, io};

/// The text of a file, or of standard input.
fn text_of(rt: &HostRuntime, file: Option<String>) -> Result<String> {
    let file = file.context("a command needs a file, or - for standard input")?;
    if file.as_str() == "-" {
        return Ok(io::read_to_string(rt.alloc(), rt.reader())?);
    }
    Ok(fs::read_to_string(rt, file.as_str())?)
}

fn main(rt: HostRuntime) -> Result<()> {
    let mut words = env::args(&rt)?.skip(1);
    for _ in 0..usize::MAX {
        let Some(command) = words.next() else {
            break;
        };
        let text = text_of(&rt, words.next())?;
        match command.as_str() {
            "edit" => make_edits(&rt, &text, &text_of(&rt, words.next())?)?,
            "outline" => print_outline(&rt, &text)?,
            "lint" => print_errors(&rt, text)?,
            other => bail!("there is no command {other}: name edit, outline or lint"),
        }
    }
    Ok(())
}
