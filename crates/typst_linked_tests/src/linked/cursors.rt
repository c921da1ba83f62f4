//! The leaf at a cursor.
use crate::linked::asking::{Ask, Row, assert_rows};
use crate::rows::assert_row;
use std::alloc::{AllocError, Global};
use std::test::Fail;
use typst_base::SyntaxKind;
use typst_drawn::{DrawingError, drawn};
use typst_linked::{LinkedNode, Looks, Side};
use typst_node::SyntaxNode;

/// Two texts with a blank between them.
const SPACED: &str = "Markup[ Text:ab Space:~ Text:c ]";

/// Two texts with an empty node between them.
const AROUND_NOTHING: &str = "Markup[ Text:ab Markup[ ] Text:c ]";

/// The text `#let x = 10`.
const BINDING: &str =
    "Markup[ Hash:# LetBinding[ Let:let Space:~ Ident:x Space:~ Eq:= Space:~ Int:10 ] ]";

/// The text `#set text(12pt, red)`.
const RULE: &str =
    "Markup[ Hash:# SetRule[ Set:set Space:~ Ident:text Args[ LeftParen:( Numeric:12pt Comma:, Space:~ Ident:red RightParen:) ] ] ]";

/// Which leaf is on either side of a cursor.
const CURSORS: [Row; 26] = [
    (
        "a leaf ends at a cursor",
        SPACED,
        &[],
        Ask::Before(2),
        r#"[0] 0..2 Text: "ab""#,
    ),
    (
        "a leaf begins at it",
        SPACED,
        &[],
        Ask::After(2),
        r#"[1] 2..3 Space: " ""#,
    ),
    (
        "the leaf after it lies over the blank",
        SPACED,
        &[0],
        Ask::NextLeaf,
        r#"[2] 3..4 Text: "c""#,
    ),
    ("nothing before the begin", SPACED, &[], Ask::Before(0), "-"),
    ("nothing after the end", SPACED, &[], Ask::After(4), "-"),
    (
        "a lone leaf stands before its begin",
        "Markup[ Text:ab ]",
        &[],
        Ask::Before(0),
        r#"[0] 0..2 Text: "ab""#,
    ),
    (
        "an empty child is passed over before",
        AROUND_NOTHING,
        &[],
        Ask::Before(2),
        r#"[0] 0..2 Text: "ab""#,
    ),
    (
        "and after",
        AROUND_NOTHING,
        &[],
        Ask::After(2),
        r#"[2] 2..3 Text: "c""#,
    ),
    (
        "the last leaf stands before where all before is empty",
        "Markup[ Markup[ Text: Text:ab ] ]",
        &[],
        Ask::Before(0),
        r#"[0, 1] 0..2 Text: "ab""#,
    ),
    (
        "but not where the last child goes on",
        "Markup[ Text: Markup[ Text:ab Text:c ] ]",
        &[],
        Ask::Before(0),
        "-",
    ),
    (
        "a leaf is asked alone: before its begin",
        SPACED,
        &[2],
        Ask::Before(0),
        r#"[2] 3..4 Text: "c""#,
    ),
    (
        "at its end",
        SPACED,
        &[2],
        Ask::Before(4),
        r#"[2] 3..4 Text: "c""#,
    ),
    ("past its end", SPACED, &[2], Ask::Before(5), "-"),
    (
        "within it",
        SPACED,
        &[2],
        Ask::After(3),
        r#"[2] 3..4 Text: "c""#,
    ),
    ("not after its end", SPACED, &[2], Ask::After(4), "-"),
    (
        "a blank before a cursor",
        BINDING,
        &[],
        Ask::Before(9),
        r#"[1, 5] 8..9 Space: " ""#,
    ),
    (
        "and the leaf before it",
        BINDING,
        &[1, 5],
        Ask::PrevLeaf,
        r#"[1, 4] 7..8 Eq: "=""#,
    ),
    (
        "and after it",
        BINDING,
        &[1, 5],
        Ask::NextLeaf,
        r#"[1, 6] 9..11 Int: "10""#,
    ),
    (
        "a number after the cursor",
        BINDING,
        &[],
        Ask::After(9),
        r#"[1, 6] 9..11 Int: "10""#,
    ),
    (
        "and the leaf before that",
        BINDING,
        &[1, 6],
        Ask::PrevLeaf,
        r#"[1, 4] 7..8 Eq: "=""#,
    ),
    ("and none after it", BINDING, &[1, 6], Ask::NextLeaf, "-"),
    (
        "a leaf around a cursor is before it",
        RULE,
        &[],
        Ask::Before(7),
        r#"[1, 2] 5..9 Ident: "text""#,
    ),
    (
        "and after it",
        RULE,
        &[],
        Ask::After(7),
        r#"[1, 2] 5..9 Ident: "text""#,
    ),
    (
        "its sibling",
        RULE,
        &[1, 2],
        Ask::PrevSibling,
        r#"[1, 0] 1..4 Set: "set""#,
    ),
    (
        "and the leaf before it",
        RULE,
        &[1, 2],
        Ask::PrevLeaf,
        r#"[1, 0] 1..4 Set: "set""#,
    ),
    (
        "a cursor three levels deep",
        RULE,
        &[],
        Ask::After(12),
        r#"[1, 3, 1] 10..14 Numeric: "12pt""#,
    ),
];

#[test]
fn a_leaf_stands_on_each_side_of_a_cursor(rt: HostRuntime) {
    assert_rows(&rt, rt.alloc(), &CURSORS);
}

/// The index of the child that has the byte on this side of a cursor, found by looking at one child after the other.
fn plain_leaf(tree: &SyntaxNode, cursor: usize, side: Side) -> Option<usize> {
    let mut begin = 0usize;
    for (index, child) in tree.children().enumerate() {
        let end = begin.saturating_add(child.len());
        let covers = match side {
            Side::Before => begin < cursor && cursor <= end,
            Side::After => begin <= cursor && cursor < end,
        };
        if covers {
            return Some(index);
        }
        begin = end;
    }
    None
}

/// Whether both searches find the leaf that a plain walk finds, on this side of a cursor.
fn is_found(
    alloc: Global,
    root: &LinkedNode,
    cursor: usize,
    side: Side,
    looks: &mut Looks,
) -> Result<bool, AllocError> {
    let plain = plain_leaf(root.get(), cursor, side);
    let found = root.leaf_at_counted(alloc, cursor, side, looks)?;
    let again = root.leaf_at(alloc, cursor, side)?;
    Ok(found.map(|node| node.index()) == plain && again.map(|node| node.index()) == plain)
}

/// Whether searches with few looks find the leaf on either side of each cursor below the limit.
fn are_found(
    alloc: Global,
    root: &LinkedNode,
    limit: usize,
    most: u64,
) -> Result<bool, AllocError> {
    let mut looks = Looks::new();
    for cursor in 0..limit {
        for side in [Side::Before, Side::After] {
            if !is_found(alloc, root, cursor, side, &mut looks)? || looks.count() > most {
                return Ok(false);
            }
        }
    }
    Ok(true)
}

#[test]
fn each_cursor_has_its_leaf(rt: HostRuntime) -> Result<(), Fail> {
    let tree = drawn(
        rt.alloc(),
        "Markup[ Text:ab Markup[ ] Space:~ Text: Text:c ]",
    )?;
    let found = are_found(rt.alloc(), &LinkedNode::new(&tree), 6, 3)?;
    assert_row(&rt, "each leaf is found", found);
    Ok(())
}

/// Markup of a thousand texts `ab`.
pub(crate) fn thousand_texts(alloc: Global) -> Result<SyntaxNode, DrawingError> {
    let mut leaves = Vec::new(alloc);
    for _ in 0..1000 {
        leaves.push(SyntaxNode::leaf(alloc, SyntaxKind::Text, "ab")?)?;
    }
    Ok(SyntaxNode::inner(alloc, SyntaxKind::Markup, leaves)?)
}

/// Whether a tree has a thousand children of two bytes.
fn has_thousand(tree: &SyntaxNode) -> bool {
    tree.child_slice().len() == 1000 && tree.child_end(499) == 1000 && tree.child_end(999) == 2000
}

#[test]
fn each_offset_of_a_thousand_leaves_is_found_by_halving(rt: HostRuntime) -> Result<(), Fail> {
    let tree = thousand_texts(rt.alloc())?;
    assert_row(&rt, "there are a thousand", has_thousand(&tree));
    let found = are_found(rt.alloc(), &LinkedNode::new(&tree), 2002, 10)?;
    assert_row(&rt, "each is found", found);
    Ok(())
}

/// How many ends a search reads for the leaf at offset 1000, and how many that leaf's own search reads.
fn looked(alloc: Global, tree: &SyntaxNode, cursor: usize) -> Result<[u64; 2], DrawingError> {
    let mut looks = Looks::new();
    let root = LinkedNode::new(tree);
    let leaf = root.leaf_at_counted(alloc, cursor, Side::Before, &mut looks)?;
    let leaf = leaf.ok_or(DrawingError::Nodes)?;
    let first = looks.count();
    let again = leaf.leaf_at_counted(alloc, cursor, Side::Before, &mut looks)?;
    if again.map(|leaf| leaf.offset()) != Some(1000) {
        return Err(DrawingError::Nodes);
    }
    Ok([first, looks.count()])
}

#[test]
fn looks_are_counted_anew(rt: HostRuntime) -> Result<(), Fail> {
    assert_row(&rt, "none at first", Looks::new().count() == 0);
    let tree = thousand_texts(rt.alloc())?;
    let [first, again] = looked(rt.alloc(), &tree, 1001)?;
    assert_row(&rt, "from 1 to 10", 1 <= first && first <= 10);
    assert_row(&rt, "a leaf has no ends to read", again == 0);
    Ok(())
}
