//! What calls answer, in words.
use std::alloc::{AllocError, Global};
use std::fmt::Debug;
use typst_node::Touched;
use typst_session::finding::Found;
use typst_session::{Change, LineColumn, NodeInfo, Refusal, TextChange};
use typst_tree::Renumbered;

/// What a call answers in words, or why it is refused.
pub(crate) type Answer = Result<String, Refusal>;

/// A call that answers nothing is done.
pub(crate) fn done(alloc: Global, outcome: Result<(), Refusal>) -> Answer {
    match outcome {
        Ok(()) => Ok(String::from_str(alloc, "done")?),
        Err(refusal) => Err(refusal),
    }
}

/// A value as `Debug` writes it.
pub(crate) fn value<T: Debug + Drop>(alloc: Global, outcome: Result<T, Refusal>) -> Answer {
    match outcome {
        Ok(value) => Ok(format!(in alloc; "{value:?}")?),
        Err(refusal) => Err(refusal),
    }
}

/// The children that were numbered anew, and the windows that were tried, as `1..2 of 1`.
pub(crate) fn window(alloc: Global, outcome: Result<Renumbered, Refusal>) -> Answer {
    match outcome {
        Ok(done) => Ok(format!(in alloc; "{:?} of {}", done.window, done.tried)?),
        Err(refusal) => Err(refusal),
    }
}

/// How deep the node is whose children were edited, the window or the leaf there, and how many nodes moved, as
/// `1: 2..3 of 1`, `1: 2..5 of 2, 2 moved` or `1: leaf 2`.
fn changed(alloc: Global, change: &Change) -> Result<String, AllocError> {
    let (depth, moved) = (change.depth, change.moved);
    match &change.touched {
        Touched::Leaf { index } => format!(in alloc; "{depth}: leaf {index}"),
        Touched::Window(done) => {
            let (window, tried) = (&done.window, done.tried);
            if moved == 0 {
                format!(in alloc; "{depth}: {window:?} of {tried}")
            } else {
                format!(in alloc; "{depth}: {window:?} of {tried}, {moved} moved")
            }
        }
    }
}

/// What an edit of the tree changed.
pub(crate) fn change(alloc: Global, outcome: Result<Change, Refusal>) -> Answer {
    match outcome {
        Ok(done) => Ok(changed(alloc, &done)?),
        Err(refusal) => Err(refusal),
    }
}

/// What an update changed below the root, or `root`.
pub(crate) fn update(alloc: Global, outcome: Result<Option<Change>, Refusal>) -> Answer {
    match outcome {
        Ok(Some(done)) => Ok(changed(alloc, &done)?),
        Ok(None) => Ok(String::from_str(alloc, "root")?),
        Err(refusal) => Err(refusal),
    }
}

/// The bytes that were parsed anew, and what changed, as `0..3 parsed, 0: 1..2 of 1`.
pub(crate) fn edited(alloc: Global, outcome: Result<TextChange, Refusal>) -> Answer {
    match outcome {
        Ok(done) => {
            let change = changed(alloc, &done.change)?;
            Ok(format!(in alloc; "{:?} parsed, {change}", done.reparsed)?)
        }
        Err(refusal) => Err(refusal),
    }
}

/// A path and an offset, as `[0, 1] at 5`.
pub(crate) fn found(alloc: Global, outcome: Result<Found, Refusal>) -> Answer {
    match outcome {
        Ok(found) => Ok(format!(in alloc; "{:?} at {}", found.path.as_slice(), found.offset)?),
        Err(refusal) => Err(refusal),
    }
}

/// A line and a column, as `0:5`.
pub(crate) fn place(alloc: Global, outcome: Result<LineColumn, Refusal>) -> Answer {
    match outcome {
        Ok(place) => Ok(format!(in alloc; "{}:{}", place.line, place.column)?),
        Err(refusal) => Err(refusal),
    }
}

/// A kind, bytes, nodes, children, the number and the bound, and four flags, as `6 5b 1n 0c 11..12 1000`.
pub(crate) fn info(alloc: Global, info: &NodeInfo) -> Result<String, AllocError> {
    let size = format!(in alloc;
        "{} {}b {}n {}c",
        info.kind, info.len, info.descendants, info.children
    )?;
    let label = format!(in alloc; "{}..{}", info.number, info.bound)?;
    let kept = format!(in alloc;
        "{}{}{}{}",
        info.leaf, info.inner, info.errors, info.warnings
    )?;
    format!(in alloc; "{size} {label} {kept}")
}

/// How a call ended, the length that it told, and the bytes of a buffer after it, as `done: 2 ab##`.
pub(crate) fn written(
    alloc: Global,
    outcome: Result<(), Refusal>,
    len: usize,
    out: &[u8],
) -> Answer {
    let mut said = ended(alloc, outcome)?;
    said.push_str(format!(in alloc; ": {len} ")?.as_str())?;
    for byte in out {
        said.push(*byte as char)?;
    }
    Ok(said)
}

/// How a call ended, the length that it told, and a buffer of infos after it.
pub(crate) fn listed(
    alloc: Global,
    outcome: Result<(), Refusal>,
    len: usize,
    infos: &[NodeInfo],
) -> Answer {
    let mut said = ended(alloc, outcome)?;
    said.push_str(format!(in alloc; ": {len}")?.as_str())?;
    for one in infos {
        said.push_str("; ")?;
        said.push_str(info(alloc, one)?.as_str())?;
    }
    Ok(said)
}

/// `done`, or why a call is refused.
pub(crate) fn ended(alloc: Global, outcome: Result<(), Refusal>) -> Result<String, AllocError> {
    match outcome {
        Ok(()) => String::from_str(alloc, "done"),
        Err(refusal) => format!(in alloc; "{refusal}"),
    }
}
