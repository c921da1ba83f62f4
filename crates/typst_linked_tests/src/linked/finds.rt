//! Searches by spans.
use crate::linked::asking::{Ask, Row, assert_rows, place, span_of};
use crate::linked::cursors::thousand_texts;
use crate::rows::{assert_at, assert_row, assert_text};
use std::alloc::{AllocError, Global};
use std::num::NonZeroU64;
use std::process::Abort;
use std::test::Fail;
use typst_base::{FileId, Span, SpanKind, SpanNumber};
use typst_drawn::{DrawingError, numbered};
use typst_linked::{LinkedNode, Looks};
use typst_node::SyntaxNode;

/// Two texts.
const TWO: &str = "Markup[ Text:ab Text:c ]";

/// Two texts with an empty node between them.
const AROUND_NOTHING: &str = "Markup[ Text:ab Markup[ ] Text:c ]";

/// Which nodes ranges find.
const FOUND: [Row; 10] = [
    (
        "an empty node after another is missed",
        AROUND_NOTHING,
        &[],
        Ask::Bytes(2, 2),
        "-",
    ),
    (
        "a range is found below the first cover",
        AROUND_NOTHING,
        &[],
        Ask::Bytes(2, 3),
        r#"[2] 2..3 Text: "c""#,
    ),
    ("a reversed range", TWO, &[], Ask::Bytes(5, 3), "-"),
    (
        "the node itself",
        TWO,
        &[],
        Ask::Bytes(0, 3),
        r#"[] 0..3 Markup: 3 [Text: "ab", Text: "c"]"#,
    ),
    (
        "its first child",
        TWO,
        &[],
        Ask::Bytes(0, 2),
        r#"[0] 0..2 Text: "ab""#,
    ),
    (
        "no node has just these bytes",
        TWO,
        &[],
        Ask::Bytes(1, 2),
        "-",
    ),
    ("a detached span is nowhere", TWO, &[], Ask::Nowhere, "-"),
    ("no node has this number", TWO, &[], Ask::Number(1, 2), "-"),
    // Within 2..400 the stride is 66: the root is 35, its children are 101 and 167.
    ("a number", TWO, &[], Ask::Number(1, 167), C),
    ("of whatever file", TWO, &[], Ask::Number(2, 167), C),
];

#[test]
fn ranges_are_found_below_the_first_cover(rt: HostRuntime) {
    assert_rows(&rt, rt.alloc(), &FOUND);
}

/// The second text, as it is found.
const C: &str = r#"[1] 2..3 Text: "c""#;

/// The root, as it is found.
const ROOT: &str = r#"[] 0..3 Markup: 3 [Text: "ab", Text: "c"]"#;

/// What a search is for.
enum By {
    Number(u16, u64),
    Range(usize, usize),
    Nowhere,
    /// A span of a foreign word whose number is 0.
    Zero,
}

/// The span to look for.
fn span_by(by: &By) -> Result<Span, DrawingError> {
    let span = match by {
        By::Number(file, number) => return span_of(*file, *number),
        By::Range(start, end) => Span::from_range(FileId::FIRST, *start..*end),
        By::Nowhere => Span::detached(),
        By::Zero => Span::from_raw(NonZeroU64::new(1 << 48).ok_or(DrawingError::Numbers)?),
    };
    Ok(span)
}

/// What is searched for, what is found, and how many numbers are read at least and at most.
type Searched = (By, &'static str, u64, u64);

/// What is searched for in `TWO`, numbered within 2..14.
const SEARCHED: [Searched; 13] = [
    (By::Number(1, 7), C, 1, 3),
    (By::Number(1, 6), "-", 1, 3),
    (By::Number(1, 3), ROOT, 1, 1),
    (By::Number(1, 2), "-", 1, 1),
    // Whatever the file.
    (By::Number(2, 7), C, 1, 3),
    (By::Number(2, 6), "-", 1, 3),
    (By::Number(2, 3), ROOT, 1, 1),
    (By::Number(2, 2), "-", 1, 1),
    // Spans without a number read none.
    (By::Range(0, 3), ROOT, 0, 0),
    (By::Range(2, 3), C, 0, 0),
    (By::Range(5, 3), "-", 0, 0),
    (By::Nowhere, "-", 0, 0),
    // A number below all is not found.
    (By::Zero, "-", 1, 1),
];

/// The words for what a counting search finds, and for how many numbers it read if they aren't as many as they may be.
fn searched(
    alloc: Global,
    root: &LinkedNode,
    span: Span,
    least: u64,
    most: u64,
) -> Result<String, AllocError> {
    let mut looks = Looks::new();
    let found = root.find_counted(alloc, span, &mut looks)?;
    let said = place(alloc, found.as_ref())?;
    let count = looks.count();
    if least <= count && count <= most {
        return Ok(said);
    }
    format!(in alloc; "{said} by {count}")
}

/// The words for what `find` finds.
fn found(alloc: Global, root: &LinkedNode, span: Span) -> Result<String, AllocError> {
    place(alloc, root.find(alloc, span)?.as_ref())
}

/// Asserts that both searches find what is wanted.
fn assert_searched(
    rt: &impl Abort,
    alloc: Global,
    root: &LinkedNode,
    row: &Searched,
) -> Result<(), DrawingError> {
    let (by, wanted, least, most) = row;
    let span = span_by(by)?;
    let said = searched(alloc, root, span, *least, *most)?;
    assert_text(rt, "find_counted", &said, wanted);
    let said = found(alloc, root, span)?;
    assert_text(rt, "find", &said, wanted);
    Ok(())
}

#[test]
fn a_number_is_found_whatever_its_file(rt: HostRuntime) -> Result<(), Fail> {
    let tree = numbered(rt.alloc(), TWO, 2..14)?;
    let root = LinkedNode::new(&tree);
    for row in &SEARCHED {
        assert_searched(&rt, rt.alloc(), &root, row)?;
    }
    Ok(())
}

#[test]
fn a_foreign_word_may_have_the_number_0(rt: HostRuntime) -> Result<(), Fail> {
    let span = span_by(&By::Zero)?;
    let is_0 = matches!(
        span.get(),
        SpanKind::Number {
            num: SpanNumber(0),
            ..
        }
    );
    assert_row(&rt, "its number is 0", is_0);
    assert_row(&rt, "its file is 1", span.id() == FileId::new(1));
    Ok(())
}

/// The index of the child with a number, found by looking at one child after the other.
fn plain_walk(tree: &SyntaxNode, number: u64) -> Option<usize> {
    for (index, child) in tree.children().enumerate() {
        if child.span().number() == number {
            return Some(index);
        }
    }
    None
}

/// Whether a search with 1 to 11 looks finds a number among leaves of two bytes as a plain walk does.
fn is_found(
    alloc: Global,
    tree: &SyntaxNode,
    file: FileId,
    number: u64,
) -> Result<bool, DrawingError> {
    if number < 2 || number >= 1 << 47 {
        return Ok(true);
    }
    let mut looks = Looks::new();
    let span = Span::from_number(file, SpanNumber(number));
    let found = LinkedNode::new(tree).find_counted(alloc, span, &mut looks)?;
    let place = found.as_ref().map(|node| (node.index(), node.offset()));
    let plain = plain_walk(tree, number).map(|index| (index, index.saturating_mul(2)));
    Ok(place == plain && 1 <= looks.count() && looks.count() <= 11)
}

#[test]
fn a_thousand_leaves_are_found_by_halving(rt: HostRuntime) -> Result<(), Fail> {
    let mut tree = thousand_texts(rt.alloc())?;
    let file = FileId::FIRST;
    tree.numberize(file, Span::FULL)?;
    for child in tree.children() {
        let own = child.span().number();
        for number in [own.saturating_sub(1), own, own.saturating_add(1)] {
            let found = is_found(rt.alloc(), &tree, file, number)?;
            assert_at(&rt, "the number", number as usize, found);
        }
    }
    Ok(())
}

/// Whether a node is found from the root by its own span, at its own place.
fn finds(alloc: Global, root: &LinkedNode, node: &LinkedNode) -> Result<bool, AllocError> {
    let found = root.find(alloc, node.span())?;
    Ok(place(alloc, found.as_ref())? == place(alloc, Some(node))?)
}

/// Whether each node of the tree is found in this way.
fn finds_all(alloc: Global, drawing: &str) -> Result<bool, DrawingError> {
    let tree = numbered(alloc, drawing, 2..30)?;
    let root = LinkedNode::new(&tree);
    let mut all = true;
    for node in root.preorder(alloc)? {
        all &= finds(alloc, &root, &node?)?;
    }
    Ok(all)
}

#[test]
fn a_node_is_found_by_its_own_span(rt: HostRuntime) -> Result<(), Fail> {
    let strong = "Markup[ Strong[ Star:* Markup[ Text:b ] Star:* ] Text:c ]";
    assert_row(&rt, strong, finds_all(rt.alloc(), strong)?);
    let error = "Markup[ Strong[ !m:# ] Text:c ]";
    assert_row(&rt, error, finds_all(rt.alloc(), error)?);
    Ok(())
}
