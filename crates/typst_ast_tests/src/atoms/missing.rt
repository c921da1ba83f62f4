//! What placeholders answer.
use crate::rows::{assert_all, assert_row};
use crate::trees::{cast, is_missing};
use std::test::Fail;
use typst_atoms::{ImportItem, views as of};
use typst_base::SyntaxKind;
use typst_drawn::hollow;
use typst_node::AstNode;

#[test]
fn views_without_accessors_have_their_kinds(rt: HostRuntime) {
    for (kind, wanted) in [
        (of::Space::placeholder().kind(), SyntaxKind::Space),
        (of::Linebreak::placeholder().kind(), SyntaxKind::Linebreak),
        (of::Parbreak::placeholder().kind(), SyntaxKind::Parbreak),
        (of::RawDelim::placeholder().kind(), SyntaxKind::RawDelim),
        (
            of::MathAlignPoint::placeholder().kind(),
            SyntaxKind::MathAlignPoint,
        ),
        (of::Underscore::placeholder().kind(), SyntaxKind::Underscore),
        (of::None::placeholder().kind(), SyntaxKind::None),
        (of::Auto::placeholder().kind(), SyntaxKind::Auto),
        (of::LoopBreak::placeholder().kind(), SyntaxKind::LoopBreak),
        (
            of::LoopContinue::placeholder().kind(),
            SyntaxKind::LoopContinue,
        ),
    ] {
        assert_row(&rt, wanted.name(), kind == wanted);
    }
}

#[test]
fn an_import_item_may_miss_its_parts(rt: HostRuntime) -> Result<(), Fail> {
    let node = hollow(rt.alloc(), SyntaxKind::RenamedImportItem)?;
    let item = cast::<ImportItem>(&node)?;
    let blank = ImportItem::placeholder();
    let rows = [
        (
            "a placeholder is simple",
            matches!(blank, ImportItem::Simple(_)),
        ),
        ("a placeholder's path", is_missing(blank.path())),
        ("a placeholder's name", is_missing(blank.original_name())),
        ("what a placeholder binds", is_missing(blank.bound_name())),
        ("a node", !is_missing(item)),
        ("the path", is_missing(item.path())),
        ("the name", is_missing(item.original_name())),
        ("what it binds", is_missing(item.bound_name())),
    ];
    assert_all(&rt, &rows);
    Ok(())
}
