//! The names that bindings and patterns bind.
use crate::rows::assert_text;
use crate::trees::view;
use std::alloc::{AllocError, Global};
use std::test::Fail;
use typst_ast::{Expr, Pattern, views as of};
use typst_drawn::{DrawingError, drawn_all, numbered};
use typst_node::{AstNode, SyntaxNode};
use typst_tree::ast;
use typst_tree::session::{self, Reply, Request, Slot};

/// `let(a,b: c,..d)=v`.
pub(crate) const BINDING: &str =
    "LetBinding[ Let:let Destructuring[ LeftParen:( Ident:a Comma:, Named[ Ident:b Colon:: Ident:c ] \
    Comma:, Spread[ Dots:.. Ident:d ] RightParen:) ] Eq:= Ident:v ]";

/// `((a,b: c,..d))`.
const GROUP: &str =
    "Parenthesized[ LeftParen:( Destructuring[ LeftParen:( Ident:a Comma:, Named[ Ident:b Colon:: Ident:c ] \
    Comma:, Spread[ Dots:.. Ident:d ] RightParen:) ] RightParen:) ]";

/// The name; `-` for a placeholder.
fn worded<'a>(name: of::Ident<'a>) -> &'a str {
    match name.to_untyped() {
        Some(_) => name.get(),
        None => "-",
    }
}

/// The names as one text, a comma after each.
fn joined(alloc: Global, names: &[of::Ident]) -> Result<String, AllocError> {
    let mut all = String::new(alloc);
    for name in names {
        all.push_str(worded(*name))?;
        all.push(',')?;
    }
    Ok(all)
}

/// What a tree is viewed as.
#[derive(Clone, Copy)]
enum As {
    LetBinding,
    Destructuring,
    Pattern,
    /// A group as an expression that is a pattern, which can be made by hand.
    Grouped,
}

/// The names that a tree binds when it is viewed in this way.
fn bound<'a>(
    alloc: Global,
    tree: Option<&'a SyntaxNode>,
    it: As,
) -> Result<Vec<of::Ident<'a>>, AllocError> {
    match it {
        As::LetBinding => bound_by_let(alloc, view(tree)),
        As::Destructuring => view::<of::Destructuring>(tree).bindings(alloc),
        As::Pattern => view::<Pattern>(tree).bindings(alloc),
        As::Grouped => bound_by_group(alloc, view(tree)),
    }
}

/// The names that a let binding binds.
fn bound_by_let<'a>(
    alloc: Global,
    binding: of::LetBinding<'a>,
) -> Result<Vec<of::Ident<'a>>, AllocError> {
    binding.kind().bindings(alloc)
}

/// The names bound by a group that a caller made into a normal pattern.
fn bound_by_group<'a>(
    alloc: Global,
    group: of::Parenthesized<'a>,
) -> Result<Vec<of::Ident<'a>>, AllocError> {
    Pattern::Normal(Expr::Parenthesized(group)).bindings(alloc)
}

/// What is shown, a drawing, what its tree is viewed as, or the placeholder of that where nothing is drawn, and
/// the names that this binds.
type Row = (&'static str, &'static str, As, &'static str);

/// Which names are bound.
const BOUND: [Row; 12] = [
    ("a let binding", BINDING, As::LetBinding, "a,c,d,"),
    ("a group", GROUP, As::Pattern, "a,c,d,"),
    ("a group that is an expression", GROUP, As::Grouped, ""),
    (
        "a closure without a name",
        "LetBinding[ Let:let Closure[ Params[ ] Arrow:=> Int:1 ] ]",
        As::LetBinding,
        "-,",
    ),
    ("an underscore", "Underscore:_", As::Pattern, ""),
    ("a number", "Int:1", As::Pattern, ""),
    ("no pattern", "", As::Pattern, ""),
    ("no parts", "", As::Destructuring, ""),
    ("no let binding", "", As::LetBinding, ""),
    ("a group of nothing", "Parenthesized[ ]", As::Pattern, ""),
    ("parts without any", "Destructuring[ ]", As::Pattern, ""),
    ("a name", "Ident:x", As::Pattern, "x,"),
];

/// The names that a drawn tree binds.
fn names_of(alloc: Global, drawing: &str, it: As) -> Result<String, DrawingError> {
    let trees = drawn_all(alloc, drawing)?;
    let names = bound(alloc, trees.first(), it)?;
    Ok(joined(alloc, &names)?)
}

#[test]
fn bindings_and_patterns_bind_names_in_order(rt: HostRuntime) -> Result<(), Fail> {
    for (shows, drawing, it, wanted) in &BOUND {
        let said = names_of(rt.alloc(), drawing, *it)?;
        assert_text(&rt, shows, &said, wanted);
    }
    Ok(())
}

/// The window of children that a run's first reply says was numbered anew, and how many windows were tried.
fn renumbered(slots: &[Slot]) -> Option<(usize, usize, usize)> {
    match slots.first()? {
        Slot::Told(Reply::Renumbered(it)) => Some((it.window.start, it.window.end, it.tried)),
        _ => None,
    }
}

/// A run that puts `z` in place of the first name in parentheses.
fn run_of_one(alloc: Global) -> Result<Vec<Slot>, DrawingError> {
    let request = Request::Replace {
        path: vec![in alloc; 1]?,
        range: 1..2,
        replacement: drawn_all(alloc, "Ident:z")?,
    };
    Ok(vec![in alloc; Slot::Ask(request)]?)
}

/// The names that a tree binds when it is viewed as a let binding of the facade.
fn bound_in_facade(alloc: Global, tree: &SyntaxNode) -> Result<String, AllocError> {
    let names = view::<ast::LetBinding>(Some(tree)).kind().bindings(alloc)?;
    joined(alloc, &names)
}

#[test]
fn a_run_of_edits_changes_what_a_binding_binds(rt: HostRuntime) -> Result<(), Fail> {
    let mut slots = run_of_one(rt.alloc())?;
    let mut tree = numbered(rt.alloc(), BINDING, 2..1 << 47)?;
    session::run(rt.alloc(), &mut tree, &mut slots);
    assert_eq!(rt; renumbered(&slots), Some((1, 2, 1)));
    let said = bound_in_facade(rt.alloc(), &tree)?;
    assert_eq!(rt; said.as_str(), "z,c,d,");
    Ok(())
}
