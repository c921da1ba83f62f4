//! Trees that no parser makes: inner nodes without children, of kinds that are leaves or always have some.
use crate::rows::{assert_row, assert_text, assert_told};
use crate::trees::{is_missing, view};
use std::alloc::{AllocError, Global};
use std::process::Abort;
use std::test::Fail;
use typst_ast::{Expr, views as of};
use typst_atoms::{ImportItem, views as atoms};
use typst_base::SyntaxKind;
use typst_drawn::{DrawingError, drawn, hollow};
use typst_node::{AstNode, SyntaxNode};

/// The kinds of literals.
const LITERALS: [SyntaxKind; 7] = [
    SyntaxKind::None,
    SyntaxKind::Auto,
    SyntaxKind::Bool,
    SyntaxKind::Int,
    SyntaxKind::Float,
    SyntaxKind::Numeric,
    SyntaxKind::Str,
];

/// The kinds of the other expressions that may come after a hash.
const AFTER_HASH: [SyntaxKind; 20] = [
    SyntaxKind::Ident,
    SyntaxKind::CodeBlock,
    SyntaxKind::ContentBlock,
    SyntaxKind::Array,
    SyntaxKind::Dict,
    SyntaxKind::Parenthesized,
    SyntaxKind::FieldAccess,
    SyntaxKind::FuncCall,
    SyntaxKind::LetBinding,
    SyntaxKind::SetRule,
    SyntaxKind::ShowRule,
    SyntaxKind::Contextual,
    SyntaxKind::Conditional,
    SyntaxKind::WhileLoop,
    SyntaxKind::ForLoop,
    SyntaxKind::ModuleImport,
    SyntaxKind::ModuleInclude,
    SyntaxKind::LoopBreak,
    SyntaxKind::LoopContinue,
    SyntaxKind::FuncReturn,
];

/// How many kinds are those of expressions.
const EXPRESSIONS: usize = 60;

/// Whether a node's view is of the node's kind, and shows its name.
fn is_named(alloc: Global, view: Expr, kind: SyntaxKind) -> Result<bool, AllocError> {
    let name = format!(in alloc; "{kind:?}(")?;
    let shown = format!(in alloc; "{view:?}")?;
    Ok(view.kind() == kind && shown.as_str().starts_with(name.as_str()))
}

/// Whether an expression is a literal, and whether it may come after a hash.
fn told(expr: Expr) -> (bool, bool) {
    (expr.is_literal(), expr.hash())
}

/// What is wanted of the expression of a kind: whether it is a literal, and whether it may come after a hash.
fn wanted(kind: SyntaxKind) -> (bool, bool) {
    let is_literal = LITERALS.contains(&kind);
    (is_literal, is_literal || AFTER_HASH.contains(&kind))
}

/// Asserts how the node of a kind without children is told, and says whether it is an expression.
fn assert_kind(rt: &impl Abort, alloc: Global, kind: SyntaxKind) -> Result<bool, Fail> {
    if kind.is_error() {
        return Ok(false);
    }
    let node = hollow(alloc, kind)?;
    let wanted = wanted(kind);
    if !node.is::<Expr>() {
        assert_row(rt, kind.name(), !wanted.1);
        return Ok(false);
    }
    let expr: Expr = view(Some(&node));
    assert_row(rt, kind.name(), is_named(alloc, expr, kind)?);
    assert_told(rt, kind.to_u8(), told(expr), wanted);
    Ok(true)
}

#[test]
fn expressions_without_children_are_told_by_their_kinds(rt: HostRuntime) -> Result<(), Fail> {
    let mut count = 0usize;
    for raw in 0..137u8 {
        let kind = SyntaxKind::from_u8(raw).ok_or("no kind")?;
        if assert_kind(&rt, rt.alloc(), kind)? {
            count = count.saturating_add(1);
        }
    }
    assert_eq!(rt; count, EXPRESSIONS);
    Ok(())
}

/// Whether a node without children of this kind is viewed, and differs from the placeholder.
fn is_viewed<'a, T: AstNode<'a>>(node: &'a SyntaxNode) -> bool {
    let placeholder = T::placeholder();
    match node.cast::<T>() {
        Some(view) => {
            view.to_untyped() == Some(node)
                && view.kind() == node.kind()
                && view.span().is_detached()
                && placeholder.kind() == node.kind()
                && placeholder.to_untyped().is_none()
                && placeholder.span().is_detached()
        }
        None => false,
    }
}

/// Whether the view of a node's kind, which has no accessors, is a view of this node.
fn is_viewed_by_kind(node: &SyntaxNode) -> bool {
    match node.kind() {
        SyntaxKind::Space => is_viewed::<atoms::Space>(node),
        SyntaxKind::Linebreak => is_viewed::<atoms::Linebreak>(node),
        SyntaxKind::Parbreak => is_viewed::<atoms::Parbreak>(node),
        SyntaxKind::RawDelim => is_viewed::<atoms::RawDelim>(node),
        SyntaxKind::MathAlignPoint => is_viewed::<atoms::MathAlignPoint>(node),
        SyntaxKind::Underscore => is_viewed::<atoms::Underscore>(node),
        SyntaxKind::None => is_viewed::<atoms::None>(node),
        SyntaxKind::Auto => is_viewed::<atoms::Auto>(node),
        SyntaxKind::LoopBreak => is_viewed::<atoms::LoopBreak>(node),
        SyntaxKind::LoopContinue => is_viewed::<atoms::LoopContinue>(node),
        _ => false,
    }
}

#[test]
fn views_without_accessors_view_nodes_without_children(rt: HostRuntime) -> Result<(), Fail> {
    let kinds = [
        SyntaxKind::Space,
        SyntaxKind::Linebreak,
        SyntaxKind::Parbreak,
        SyntaxKind::RawDelim,
        SyntaxKind::MathAlignPoint,
        SyntaxKind::Underscore,
        SyntaxKind::None,
        SyntaxKind::Auto,
        SyntaxKind::LoopBreak,
        SyntaxKind::LoopContinue,
    ];
    for kind in kinds {
        if !kind.is_error() {
            let node = hollow(rt.alloc(), kind)?;
            assert_row(&rt, kind.name(), is_viewed_by_kind(&node));
        }
    }
    Ok(())
}

/// The form of an imported item that has a path of no names, and so no name of its own, and binds none.
fn form(node: &SyntaxNode) -> &'static str {
    let item = view::<ImportItem>(Some(node));
    if is_missing(item.path())
        || !is_missing(item.original_name())
        || !is_missing(item.bound_name())
    {
        return "a path or a name too much";
    }
    match item {
        ImportItem::Simple(_) => "simple",
        ImportItem::Renamed(_) => "renamed",
    }
}

#[test]
fn an_imported_item_may_have_a_path_of_no_names(rt: HostRuntime) -> Result<(), Fail> {
    for (drawing, wanted) in [
        ("ImportItemPath[ ]", "simple"),
        ("RenamedImportItem[ ImportItemPath[ ] ]", "renamed"),
    ] {
        let node = drawn(rt.alloc(), drawing)?;
        assert_eq!(rt; form(&node), wanted);
    }
    Ok(())
}

/// The kind of the last item that a list reads from its back, and whether that is a node.
fn last_of<'a, T: AstNode<'a>>(last: Option<T>) -> Option<(SyntaxKind, bool)> {
    let view = last?;
    Some((view.kind(), view.to_untyped().is_some()))
}

/// The last item of the list that a node of this kind is.
fn last_item(node: &SyntaxNode) -> Option<(SyntaxKind, bool)> {
    let list = Some(node);
    match node.kind() {
        SyntaxKind::Code => last_of(view::<of::Code>(list).exprs().next_back()),
        SyntaxKind::Markup => last_of(view::<of::Markup>(list).exprs().next_back()),
        SyntaxKind::Math => last_of(view::<of::Math>(list).exprs().next_back()),
        SyntaxKind::Array => last_of(view::<of::Array>(list).items().next_back()),
        SyntaxKind::Dict => last_of(view::<of::Dict>(list).items().next_back()),
        SyntaxKind::Destructuring => last_of(view::<of::Destructuring>(list).items().next_back()),
        SyntaxKind::Args => last_of(view::<of::Args>(list).items().next_back()),
        SyntaxKind::Params => last_of(view::<of::Params>(list).children().next_back()),
        SyntaxKind::ImportItems => last_of(view::<atoms::ImportItems>(list).iter().next_back()),
        SyntaxKind::ImportItemPath => {
            last_of(view::<atoms::ImportItemPath>(list).iter().next_back())
        }
        SyntaxKind::Raw => last_of(view::<atoms::Raw>(list).lines().next_back()),
        _ => None,
    }
}

/// The name of the kind of the last item of a drawn list, if that is a node; `-` for none.
fn last_drawn(alloc: Global, drawing: &str) -> Result<&'static str, DrawingError> {
    let list = drawn(alloc, drawing)?;
    Ok(match last_item(&list) {
        Some((kind, true)) => kind.name(),
        Some((_, false)) => "no node",
        None => "-",
    })
}

/// Lists of one node without children, and the kind of that node.
const LISTS: [(&str, SyntaxKind); 11] = [
    ("Code[ LetBinding[ ] ]", SyntaxKind::LetBinding),
    ("Markup[ Strong[ ] ]", SyntaxKind::Strong),
    ("Math[ MathFrac[ ] ]", SyntaxKind::MathFrac),
    ("Array[ Spread[ ] ]", SyntaxKind::Spread),
    ("Dict[ Named[ ] ]", SyntaxKind::Named),
    (
        "Destructuring[ Parenthesized[ ] ]",
        SyntaxKind::Parenthesized,
    ),
    ("Args[ Named[ ] ]", SyntaxKind::Named),
    ("Params[ Destructuring[ ] ]", SyntaxKind::Destructuring),
    (
        "ImportItems[ RenamedImportItem[ ] ]",
        SyntaxKind::RenamedImportItem,
    ),
    ("ImportItemPath[ Ident[ ] ]", SyntaxKind::Ident),
    ("Raw[ Text[ ] ]", SyntaxKind::Text),
];

/// Lists of nothing.
const EMPTY: [&str; 11] = [
    "Code[ ]",
    "Markup[ ]",
    "Math[ ]",
    "Array[ ]",
    "Dict[ ]",
    "Destructuring[ ]",
    "Args[ ]",
    "Params[ ]",
    "ImportItems[ ]",
    "ImportItemPath[ ]",
    "Raw[ ]",
];

#[test]
fn lists_end_in_nodes_without_children(rt: HostRuntime) -> Result<(), Fail> {
    for (drawing, below) in &LISTS {
        let last = last_drawn(rt.alloc(), drawing)?;
        assert_text(&rt, drawing, last, below.name());
    }
    for drawing in &EMPTY {
        let last = last_drawn(rt.alloc(), drawing)?;
        assert_text(&rt, drawing, last, "-");
    }
    Ok(())
}
