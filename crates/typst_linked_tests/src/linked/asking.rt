//! What a linked node is asked, and the words for its answers.
use crate::rows::assert_said;
use std::alloc::{AllocError, Global};
use std::process::Abort;
use typst_base::{FileId, Span, SpanNumber};
use typst_drawn::{DrawingError, numbered};
use typst_linked::{LinkedNode, Side};

/// What a linked node is asked.
pub(crate) enum Ask {
    Itself,
    Parent,
    NextSibling,
    PrevSibling,
    NextWithTrivia,
    PrevWithTrivia,
    Leftmost,
    Rightmost,
    NextLeaf,
    PrevLeaf,
    Before(usize),
    After(usize),
    Kinds,
    Modes,
    Number(u16, u64),
    Bytes(usize, usize),
    Nowhere,
}

/// What is shown, a tree, the path of a node of it, what that node is asked, and the words for the answer.
pub(crate) type Row = (
    &'static str,
    &'static str,
    &'static [usize],
    Ask,
    &'static str,
);

/// The words for a linked node: its path, its range and its `Debug` text; `-` for none.
pub(crate) fn place(alloc: Global, node: Option<&LinkedNode>) -> Result<String, AllocError> {
    match node {
        Some(node) => {
            let path = node.path(alloc)?;
            let range = node.range();
            format!(in alloc; "{path:?} {range:?} {node:?}")
        }
        None => String::from_str(alloc, "-"),
    }
}

/// The node at a path.
pub(crate) fn at<'a>(
    alloc: Global,
    root: &LinkedNode<'a>,
    path: &[usize],
) -> Result<LinkedNode<'a>, DrawingError> {
    for below in root.preorder(alloc)? {
        let below = below?;
        if below.path(alloc)?.as_slice() == path {
            return Ok(below);
        }
    }
    Err(DrawingError::Nodes)
}

/// The span of a node's number.
pub(crate) fn span_of(file: u16, number: u64) -> Result<Span, DrawingError> {
    let file = FileId::new(file).ok_or(DrawingError::Numbers)?;
    if number < 2 || number >= 1 << 47 {
        return Err(DrawingError::Numbers);
    }
    Ok(Span::from_number(file, SpanNumber(number)))
}

/// A copy of a node's parent.
fn parent<'a>(node: &LinkedNode<'a>) -> Result<Option<LinkedNode<'a>>, AllocError> {
    match node.parent() {
        Some(parent) => Ok(Some(parent.clone()?)),
        None => Ok(None),
    }
}

/// The span that is asked for, detached where it isn't a number's.
fn span_asked(ask: &Ask) -> Result<Span, DrawingError> {
    match ask {
        Ask::Number(file, number) => span_of(*file, *number),
        _ => Ok(Span::detached()),
    }
}

/// The node that is asked for, or none where the answer isn't a node.
fn asked<'a>(
    alloc: Global,
    node: &LinkedNode<'a>,
    ask: &Ask,
    span: Span,
) -> Result<Option<LinkedNode<'a>>, AllocError> {
    match ask {
        Ask::Itself => Ok(Some(node.clone()?)),
        Ask::Parent => parent(node),
        Ask::NextSibling => node.next_sibling(),
        Ask::PrevSibling => node.prev_sibling(),
        Ask::NextWithTrivia => node.next_sibling_with_trivia(),
        Ask::PrevWithTrivia => node.prev_sibling_with_trivia(),
        Ask::Leftmost => node.leftmost_leaf(alloc),
        Ask::Rightmost => node.rightmost_leaf(alloc),
        Ask::NextLeaf => node.next_leaf(alloc),
        Ask::PrevLeaf => node.prev_leaf(alloc),
        Ask::Before(cursor) => node.leaf_at(alloc, *cursor, Side::Before),
        Ask::After(cursor) => node.leaf_at(alloc, *cursor, Side::After),
        Ask::Bytes(start, end) => node.find_range(alloc, *start, *end),
        Ask::Number(..) | Ask::Nowhere => node.find(alloc, span),
        Ask::Kinds | Ask::Modes => Ok(None),
    }
}

/// The words for the kinds of the siblings next to a node and of its parent.
fn kinds(alloc: Global, node: &LinkedNode) -> Result<String, AllocError> {
    let prev = node.prev_sibling_kind();
    let next = node.next_sibling_kind();
    let parent = node.parent_kind();
    format!(in alloc; "{prev:?} {next:?} below {parent:?}")
}

/// The words for the mode after a node and for that of its parent.
fn modes(alloc: Global, node: &LinkedNode) -> Result<String, AllocError> {
    let after = node.mode_after();
    let parent = node.parent_mode();
    format!(in alloc; "{after:?} in {parent:?}")
}

/// The words for the answer of a node.
fn said(alloc: Global, node: &LinkedNode, ask: &Ask, span: Span) -> Result<String, AllocError> {
    match ask {
        Ask::Kinds => kinds(alloc, node),
        Ask::Modes => modes(alloc, node),
        _ => place(alloc, asked(alloc, node, ask, span)?.as_ref()),
    }
}

/// The words for the answer of the node at a path of a drawn tree, which is numbered within 2..400.
pub(crate) fn answer(
    alloc: Global,
    drawing: &str,
    path: &[usize],
    ask: &Ask,
) -> Result<String, DrawingError> {
    let tree = numbered(alloc, drawing, 2..400)?;
    let node = at(alloc, &LinkedNode::new(&tree), path)?;
    Ok(said(alloc, &node, ask, span_asked(ask)?)?)
}

/// Asserts that each row's answer is the wanted one.
pub(crate) fn assert_rows(rt: &impl Abort, alloc: Global, rows: &[Row]) {
    for (shows, drawing, path, ask, wanted) in rows {
        assert_said(rt, shows, answer(alloc, drawing, path, ask), wanted);
    }
}
