//! What is asked of a tree, and the words for its replies.
use std::alloc::{AllocError, Global};
use std::ops::Range;
use typst_drawn::{DrawingError, drawn_all, numbered};
use typst_tree::session::{Reply, Request, Slot};
use typst_tree::{FileId, NumberedTree, Renumbered, Span, SpanNumber};

/// What is asked of a tree.
pub(crate) enum Ask {
    /// To replace children of the node at a path by drawn ones.
    Replace(&'static [usize], Range<usize>, &'static str),
    /// To find the node with a number in file 1.
    Find(u64),
    /// Nothing: the slot has its reply.
    Answered,
}

/// The span of a number in file 1.
pub(crate) fn span_of(number: u64) -> Result<Span, DrawingError> {
    if number < 2 || number >= 1 << 47 {
        return Err(DrawingError::Numbers);
    }
    Ok(Span::from_number(FileId::FIRST, SpanNumber(number)))
}

/// The tree that a drawing shows, kept numbered within a range.
pub(crate) fn kept(
    alloc: Global,
    drawing: &str,
    within: Range<u64>,
) -> Result<NumberedTree, DrawingError> {
    let root = numbered(alloc, drawing, within)?;
    NumberedTree::from_numbered(root).map_err(|_| DrawingError::Numbers)
}

/// The request of an ask, unless it has its reply.
pub(crate) fn request(alloc: Global, ask: &Ask) -> Result<Option<Request>, DrawingError> {
    Ok(match ask {
        Ask::Replace(path, range, others) => Some(Request::Replace {
            path: path.to_vec(alloc)?,
            range: range.start..range.end,
            replacement: drawn_all(alloc, others)?,
        }),
        Ask::Find(number) => Some(Request::Find(span_of(*number)?)),
        Ask::Answered => None,
    })
}

/// The slot of an ask.
fn slot(alloc: Global, ask: &Ask) -> Result<Slot, DrawingError> {
    Ok(match request(alloc, ask)? {
        Some(request) => Slot::Ask(request),
        None => Slot::Told(Reply::NoMemory),
    })
}

/// The slots of what is asked.
pub(crate) fn slots(alloc: Global, asks: &[Ask]) -> Result<Vec<Slot>, DrawingError> {
    let mut slots = Vec::new(alloc);
    for ask in asks {
        slots.push(slot(alloc, ask)?)?;
    }
    Ok(slots)
}

/// The words for a reply. They leave out how many numbers a search read.
pub(crate) fn said(alloc: Global, reply: Option<&Reply>) -> Result<String, AllocError> {
    match reply {
        Some(Reply::Renumbered(Renumbered { window, tried })) => {
            format!(in alloc; "window {window:?} tried {tried}")
        }
        Some(Reply::Found { path, offset, .. }) => format!(in alloc; "{path:?} at {offset}"),
        Some(Reply::NotFound { .. }) => String::from_str(alloc, "none"),
        Some(reply) => format!(in alloc; "{reply:?}"),
        None => String::from_str(alloc, "waits"),
    }
}

/// The words for all replies, each before a semicolon.
pub(crate) fn all_said(alloc: Global, slots: &[Slot]) -> Result<String, AllocError> {
    let mut words = String::new(alloc);
    for slot in slots {
        words.push_str(said(alloc, slot.reply())?.as_str())?;
        words.push_str("; ")?;
    }
    Ok(words)
}
