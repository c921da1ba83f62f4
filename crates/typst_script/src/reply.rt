//! Prints the replies of a run, one per line.

use std::io;
use std::io::Write;
use typst_tree::ReplaceError;
use typst_tree::session::{Reply, Slot};

/// Prints the replies in order, each with its line end. A request without a reply is skipped.
///
/// The replies are `done window A..B tried T`, `misfit`, `refused`, `overflow`, `no memory`, `found PATH offset O` and
/// `not found`. This takes no memory of its own.
pub fn print_replies<W: Write>(out: &mut W, slots: &[Slot]) -> io::Result<()> {
    for slot in slots {
        if let Slot::Told(reply) = slot {
            print_reply(out, reply)?;
        }
    }
    Ok(())
}

/// Prints a reply, as a line.
fn print_reply<W: Write>(out: &mut W, reply: &Reply) -> io::Result<()> {
    match reply {
        Reply::Renumbered(renumbered) => {
            let start = renumbered.window.start;
            let end = renumbered.window.end;
            let tried = renumbered.tried;
            write!(out, "done window {start}..{end} tried {tried}\n")
        }
        Reply::Misfit => out.write_all(b"misfit\n"),
        Reply::Refused(error) => print_refusal(out, error),
        Reply::Found { path, offset, .. } => {
            out.write_all(b"found ")?;
            print_path(out, path)?;
            write!(out, " offset {offset}\n")
        }
        Reply::NotFound { .. } => out.write_all(b"not found\n"),
        Reply::NoMemory => out.write_all(b"no memory\n"),
    }
}

/// Prints why a replacement was refused.
fn print_refusal<W: Write>(out: &mut W, error: &ReplaceError) -> io::Result<()> {
    match error {
        ReplaceError::Unnumberable => out.write_all(b"refused\n"),
        ReplaceError::Overflow => out.write_all(b"overflow\n"),
        ReplaceError::Memory => out.write_all(b"no memory\n"),
    }
}

/// Prints `-` for the root, or the child indices joined by dots.
fn print_path<W: Write>(out: &mut W, path: &[usize]) -> io::Result<()> {
    let Some((first, rest)) = path.split_first() else {
        return out.write_all(b"-");
    };
    write!(out, "{first}")?;
    for index in rest {
        write!(out, ".{index}")?;
    }
    Ok(())
}
