//! The trees on which operations are measured.
use anyhow::{Context, Result, ensure};
use std::alloc::Global;
use typst_tree::{FileId, NumberedTree, Span, SyntaxKind, SyntaxNode};

/// How many paragraphs a section has.
pub const PARAGRAPHS: usize = 50;

/// A leaf that is still to be made.
#[derive(Clone, Copy)]
pub struct Leaf {
    pub kind: SyntaxKind,
    pub text: &'static str,
}

/// A text of two bytes.
const TEXT: Leaf = Leaf {
    kind: SyntaxKind::Text,
    text: "ab",
};

/// A text of 30 bytes.
const LONG: Leaf = Leaf {
    kind: SyntaxKind::Text,
    text: "a text that has its own memory",
};

const SPACE: Leaf = Leaf {
    kind: SyntaxKind::Space,
    text: " ",
};

/// The leaf on both sides of a bold word.
const STARS: [Leaf; 1] = [Leaf {
    kind: SyntaxKind::Star,
    text: "*",
}];

/// The leaves at the beginning of a paragraph.
const BEGINNING: [Leaf; 4] = [
    Leaf {
        kind: SyntaxKind::Text,
        text: "some",
    },
    SPACE,
    Leaf {
        kind: SyntaxKind::Text,
        text: "words",
    },
    SPACE,
];

/// The leaves at the end of a paragraph.
const ENDING: [Leaf; 2] = [
    Leaf {
        kind: SyntaxKind::Text,
        text: ".",
    },
    Leaf {
        kind: SyntaxKind::Parbreak,
        text: "\n\n",
    },
];

/// The leaf between the stars of a bold word.
const BOLD: [Leaf; 1] = [Leaf {
    kind: SyntaxKind::Text,
    text: "bold",
}];

/// Builds a tree of a shape. None if there is no shape with this name.
///
/// - `wide`: `size` leaves `ab` in one node;
/// - `long`: `size` leaves of 30 bytes in one node;
/// - `ten`: `size` leaves `ab`, ten in each child of the root;
/// - `document`: `size` paragraphs `some words *bold*.`, fifty in each child of the root;
/// - `chain`: `size` nodes, each in the one before, and a leaf `ab` in the last;
/// - `errors`: `size` leaves `ab` in one node, of which a tenth are errors.
pub fn tree(alloc: Global, shape: &str, size: usize) -> Result<Option<SyntaxNode>> {
    let made = match shape {
        "wide" => wide(alloc, size),
        "long" => long(alloc, size),
        "ten" => ten(alloc, size),
        "document" => document(alloc, size),
        "chain" => chain(alloc, size, "ab"),
        "errors" => errors(alloc, size),
        _ => return Ok(None),
    };
    Ok(Some(made?))
}

/// The tree with numbers. There are enough of them for each tree that fits the memory.
pub fn numbered(root: SyntaxNode) -> Result<NumberedTree> {
    NumberedTree::number(root, FileId::FIRST, Span::FULL)
        .ok()
        .context("there are numbers enough")
}

/// Makes leaves after those that are there.
fn push_leaves(
    alloc: Global,
    nodes: &mut Vec<SyntaxNode>,
    leaves: &[Leaf],
    times: usize,
) -> Result<()> {
    for _ in 0..times {
        for leaf in leaves {
            ensure!(!leaf.kind.is_error(), "an error is no leaf");
            nodes.push(SyntaxNode::leaf(alloc, leaf.kind, leaf.text)?)?;
        }
    }
    Ok(())
}

/// A node of markup.
fn markup(alloc: Global, children: Vec<SyntaxNode>) -> Result<SyntaxNode> {
    Ok(SyntaxNode::inner(alloc, SyntaxKind::Markup, children)?)
}

/// A node with these leaves, repeated `size` times.
pub fn row(alloc: Global, kind: SyntaxKind, leaves: &[Leaf], size: usize) -> Result<SyntaxNode> {
    ensure!(!kind.is_error(), "an error has no children");
    let mut nodes = Vec::new(alloc);
    push_leaves(alloc, &mut nodes, leaves, size)?;
    Ok(SyntaxNode::inner(alloc, kind, nodes)?)
}

/// A node of `size` leaves `ab`.
pub fn wide(alloc: Global, size: usize) -> Result<SyntaxNode> {
    row(alloc, SyntaxKind::Markup, &[TEXT], size)
}

fn long(alloc: Global, size: usize) -> Result<SyntaxNode> {
    row(alloc, SyntaxKind::Markup, &[LONG], size)
}

fn ten(alloc: Global, size: usize) -> Result<SyntaxNode> {
    let mut nodes = Vec::new(alloc);
    for _ in 0..size / 10 {
        nodes.push(wide(alloc, 10)?)?;
    }
    markup(alloc, nodes)
}

fn errors(alloc: Global, size: usize) -> Result<SyntaxNode> {
    let mut nodes = Vec::new(alloc);
    for index in 0..size {
        let node = if index % 10 == 0 {
            SyntaxNode::error(alloc, "m", "ab")?
        } else {
            SyntaxNode::leaf(alloc, SyntaxKind::Text, "ab")?
        };
        nodes.push(node)?;
    }
    markup(alloc, nodes)
}

/// A chain of `size` nodes, each in the one before, with a leaf in the last.
pub fn chain(alloc: Global, size: usize, text: &str) -> Result<SyntaxNode> {
    chain_over(
        alloc,
        SyntaxNode::leaf(alloc, SyntaxKind::Text, text)?,
        size,
    )
}

/// A chain of `size` nodes, each in the one before, with this node in the last.
pub fn chain_over(alloc: Global, last: SyntaxNode, size: usize) -> Result<SyntaxNode> {
    let mut node = last;
    for _ in 0..size {
        node = markup(alloc, vec![in alloc; node]?)?;
    }
    Ok(node)
}

fn document(alloc: Global, size: usize) -> Result<SyntaxNode> {
    let mut sections = Vec::new(alloc);
    for _ in 0..size / PARAGRAPHS {
        sections.push(section(alloc)?)?;
    }
    markup(alloc, sections)
}

fn section(alloc: Global) -> Result<SyntaxNode> {
    let mut paragraphs = Vec::new(alloc);
    for _ in 0..PARAGRAPHS {
        paragraphs.push(paragraph(alloc)?)?;
    }
    markup(alloc, paragraphs)
}

fn paragraph(alloc: Global) -> Result<SyntaxNode> {
    let mut nodes = Vec::new(alloc);
    push_leaves(alloc, &mut nodes, &BEGINNING, 1)?;
    nodes.push(strong(alloc)?)?;
    push_leaves(alloc, &mut nodes, &ENDING, 1)?;
    markup(alloc, nodes)
}

/// A bold word, `*bold*`.
fn strong(alloc: Global) -> Result<SyntaxNode> {
    let mut nodes = Vec::new(alloc);
    push_leaves(alloc, &mut nodes, &STARS, 1)?;
    nodes.push(row(alloc, SyntaxKind::Markup, &BOLD, 1)?)?;
    push_leaves(alloc, &mut nodes, &STARS, 1)?;
    Ok(SyntaxNode::inner(alloc, SyntaxKind::Strong, nodes)?)
}
