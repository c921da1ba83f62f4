//! Calls that are refused memory, each with a little more left than before, until it suffices.
use crate::memory::scarce::Scarce;
use std::alloc::Global;
use std::fs::{self, Files};
use std::ops::Range;
use std::test::Fail;
use typst_drawn::{DrawingError, drawn, drawn_all, numbered};
use typst_tree::session::{Reply, Request, Slot};
use typst_tree::{NumberedTree, ReplaceError, Span, SyntaxNode};

/// How many passes a call may take.
const PASSES: usize = 64;

/// How many bytes more each pass leaves.
const MORE: usize = 64;

/// Whether memory that a process takes is refused to other processes. If so, no test takes all memory. It fails where
/// Linux doesn't tell.
fn is_shared(rt: &(impl Files + AllocGlobal)) -> Result<bool, Fail> {
    let told = fs::read_to_string(rt, "/proc/sys/vm/overcommit_memory")?;
    Ok(told.as_str().trim() == "2")
}

/// Forty leaves. A node of more than ten has a list of where they end, which an insertion makes grow.
const FORTY: &str =
    "Markup[ Text:ab Text:c Text:c Text:c Text:c Text:c Text:c Text:c Text:c Text:c \
    Text:c Text:c Text:c Text:c Text:c Text:c Text:c Text:c Text:c Text:c \
    Text:c Text:c Text:c Text:c Text:c Text:c Text:c Text:c Text:c Text:c \
    Text:c Text:c Text:c Text:c Text:c Text:c Text:c Text:c Text:c Text:c ]";

/// A tree of forty leaves.
fn forty(alloc: Global) -> Result<NumberedTree, DrawingError> {
    let root = numbered(alloc, FORTY, 2..1000)?;
    NumberedTree::from_numbered(root).map_err(|_| DrawingError::Numbers)
}

/// A request for other children of the root.
fn replace(alloc: Global, range: Range<usize>, others: &str) -> Result<Request, DrawingError> {
    Ok(Request::Replace {
        path: Vec::new(alloc),
        range,
        replacement: drawn_all(alloc, others)?,
    })
}

/// A request for each pass, by which the list of children grows.
fn growths(alloc: Global) -> Result<Vec<Request>, DrawingError> {
    let mut requests = Vec::new(alloc);
    for _ in 0..PASSES {
        requests.push(replace(alloc, 1..1, "Text:x")?)?;
    }
    Ok(requests)
}

/// How many passes were refused before a request was served, or nothing if another reply came or a refused request
/// changed the tree.
fn refused_growths(
    alloc: Global,
    scarce: &mut Scarce,
    requests: &mut Vec<Request>,
    tree: &mut NumberedTree,
    before: &SyntaxNode,
) -> Option<usize> {
    for pass in 0..PASSES {
        let request = requests.pop()?;
        if !scarce.leave(pass * MORE) {
            return None;
        }
        match tree.serve(alloc, request) {
            Reply::Renumbered(_) => return Some(pass),
            Reply::Refused(ReplaceError::Memory) if *tree.root() == *before => {}
            _ => return None,
        }
    }
    None
}

#[test]
fn a_growth_that_is_refused_changes_nothing(rt: HostRuntime) -> Result<(), Fail> {
    if is_shared(&rt)? {
        return Ok(());
    }
    let alloc = rt.alloc();
    let mut tree = forty(alloc)?;
    let before = tree.root().clone()?;
    let mut requests = growths(alloc)?;
    let mut scarce = Scarce::new(alloc, PASSES)?;
    let refused = refused_growths(alloc, &mut scarce, &mut requests, &mut tree, &before);
    assert!(rt; matches!(refused, Some(1..)) && tree.root().len() == 42);
    Ok(())
}

/// How many passes were refused before the node was converted, or nothing if a refused pass changed the node.
fn refused_conversions(
    alloc: Global,
    scarce: &mut Scarce,
    node: &mut SyntaxNode,
    before: &SyntaxNode,
) -> Option<usize> {
    for pass in 0..PASSES {
        if !scarce.leave(pass * MORE) {
            return None;
        }
        if node.expected(alloc, "identifier").is_ok() {
            return Some(pass);
        }
        if *node != *before {
            return None;
        }
    }
    None
}

#[test]
fn a_conversion_that_is_refused_changes_nothing(rt: HostRuntime) -> Result<(), Fail> {
    if is_shared(&rt)? {
        return Ok(());
    }
    let alloc = rt.alloc();
    let mut node = drawn(alloc, "Let:let")?;
    let before = node.clone()?;
    let mut scarce = Scarce::new(alloc, PASSES)?;
    let refused = refused_conversions(alloc, &mut scarce, &mut node, &before);
    assert!(rt; matches!(refused, Some(1..)) && node != before);
    Ok(())
}

/// A search, an insertion and a removal.
fn asked(alloc: Global, span: Span) -> Result<Vec<Slot>, DrawingError> {
    let mut slots = Vec::new(alloc);
    slots.push(Slot::Ask(Request::Find(span)))?;
    slots.push(Slot::Ask(replace(alloc, 1..1, "Text:x")?))?;
    slots.push(Slot::Ask(replace(alloc, 0..1, "")?))?;
    Ok(slots)
}

/// Whether the first two were refused memory, and the third was served.
fn is_served_after_refusals(slots: &[Slot]) -> bool {
    matches!(slots.first(), Some(Slot::Told(Reply::NoMemory)))
        && matches!(
            slots.get(1),
            Some(Slot::Told(Reply::Refused(ReplaceError::Memory)))
        )
        && matches!(slots.get(2), Some(Slot::Told(Reply::Renumbered(_))))
}

#[test]
fn a_run_goes_on_after_what_is_refused(rt: HostRuntime) -> Result<(), Fail> {
    if is_shared(&rt)? {
        return Ok(());
    }
    let alloc = rt.alloc();
    let mut tree = forty(alloc)?;
    let last = tree.root().child_slice().last().ok_or("no child")?.span();
    let mut slots = asked(alloc, last)?;
    let mut scarce = Scarce::new(alloc, 1)?;
    let is_left = scarce.leave(0);
    tree.run(alloc, &mut slots);
    assert!(rt; is_left && is_served_after_refusals(&slots) && tree.root().len() == 39);
    Ok(())
}
