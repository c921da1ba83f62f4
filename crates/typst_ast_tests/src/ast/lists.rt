//! Lists that are read from both ends.
use crate::rows::assert_text;
use crate::trees::{shown, view};
use std::alloc::{AllocError, Global};
use std::fmt::Debug;
use std::test::Fail;
use typst_ast::{MathArg, views as of};
use typst_base::SyntaxKind;
use typst_drawn::{DrawingError, drawn, drawn_all};

/// A space, a binding, two spaces and a text.
const SPACED: &str = "Markup[ Space:~ LetBinding[ Let:let ] Space:~~ Text:a ]";

/// `(`, `#`, `x`, `;`, `y`, `;` and `)`.
const ARGUMENTS: &str =
    "MathArgs[ LeftParen:( Hash:# Ident:x Semicolon:; MathText:y Semicolon:; RightParen:) ]";

/// What is shown, a list, from which ends its items are taken, `<` for the front and `>` for the back, and the
/// `Debug` texts of the items, `-` for none.
type Row = (&'static str, &'static str, &'static str, &'static str);

/// What is taken from either end.
const TAKEN: [Row; 5] = [
    (
        "markup leaves out the space after a statement",
        SPACED,
        "<<<<",
        r#"Space(Space: " ") LetBinding(LetBinding: 3 [Let: "let"]) Text(Text: "a") - "#,
    ),
    (
        "markup gives the same from the back",
        SPACED,
        ">>>>",
        r#"Text(Text: "a") LetBinding(LetBinding: 3 [Let: "let"]) Space(Space: " ") - "#,
    ),
    (
        "markup is read from both ends",
        SPACED,
        "><><>",
        r#"Text(Text: "a") Space(Space: " ") LetBinding(LetBinding: 3 [Let: "let"]) - - "#,
    ),
    (
        "a semicolon after a hash is no item",
        ARGUMENTS,
        "<<<<<<",
        r#"LeftParen('(', LeftParen: "(") Arg(Pos(Ident(Ident: "x"))) Arg(Pos(MathText(MathText: "y"))) Semicolon(';', Semicolon: ";") RightParen(')', RightParen: ")") - "#,
    ),
    (
        "items of arguments are the same from the back",
        ARGUMENTS,
        "><>>>><",
        r#"RightParen(')', RightParen: ")") LeftParen('(', LeftParen: "(") Semicolon(';', Semicolon: ";") Arg(Pos(MathText(MathText: "y"))) Arg(Pos(Ident(Ident: "x"))) - - "#,
    ),
];

/// Writes an item.
fn push_shown<T: Debug + Copy>(
    alloc: Global,
    item: Option<T>,
    said: &mut String,
) -> Result<(), AllocError> {
    said.push_str(shown(alloc, item)?.as_str())?;
    said.push(' ')
}

/// The expressions of markup, taken from these ends.
fn exprs_taken(alloc: Global, markup: of::Markup, ends: &str) -> Result<String, AllocError> {
    let mut exprs = markup.exprs();
    let mut said = String::new(alloc);
    for end in ends.chars() {
        let expr = if end == '<' {
            exprs.next()
        } else {
            exprs.next_back()
        };
        push_shown(alloc, expr, &mut said)?;
    }
    Ok(said)
}

/// The items of arguments in math, taken from these ends.
fn items_taken(alloc: Global, arguments: of::MathArgs, ends: &str) -> Result<String, AllocError> {
    let mut items = arguments.content_items();
    let mut said = String::new(alloc);
    for end in ends.chars() {
        let item = if end == '<' {
            items.next()
        } else {
            items.next_back()
        };
        push_shown(alloc, item, &mut said)?;
    }
    Ok(said)
}

/// What is taken from a drawn list.
fn taken(alloc: Global, drawing: &str, ends: &str) -> Result<String, DrawingError> {
    let tree = drawn(alloc, drawing)?;
    Ok(if tree.kind() == SyntaxKind::Markup {
        exprs_taken(alloc, view(Some(&tree)), ends)?
    } else {
        items_taken(alloc, view(Some(&tree)), ends)?
    })
}

#[test]
fn lists_are_read_from_both_ends(rt: HostRuntime) -> Result<(), Fail> {
    for (shows, drawing, ends, wanted) in &TAKEN {
        let said = taken(rt.alloc(), drawing, ends)?;
        assert_text(&rt, shows, &said, wanted);
    }
    Ok(())
}

/// An argument in a call in math, and whether it ends in a semicolon.
fn argument(alloc: Global, it: MathArg) -> Result<String, AllocError> {
    let (arg, ends) = (it.arg, it.ends_in_semicolon);
    format!(in alloc; "{arg:?} {ends} ")
}

/// The arguments in a call in math, and whether each ends in a semicolon.
fn arguments(alloc: Global, call: of::MathArgs) -> Result<String, AllocError> {
    let mut said = String::new(alloc);
    for it in call.arg_items() {
        said.push_str(argument(alloc, it)?.as_str())?;
    }
    Ok(said)
}

#[test]
fn an_argument_may_end_in_a_semicolon(rt: HostRuntime) -> Result<(), Fail> {
    let tree = drawn(rt.alloc(), ARGUMENTS)?;
    let said = arguments(rt.alloc(), view(Some(&tree)))?;
    assert_eq!(rt;
        said.as_str(),
        r#"Pos(Ident(Ident: "x")) false Pos(MathText(MathText: "y")) true "#
    );
    Ok(())
}

/// The size hints of the lists of expressions, of items and of arguments, and those of copies that gave one.
fn hints(
    markup: of::Markup,
    arguments: of::MathArgs,
) -> Result<[(usize, Option<usize>); 6], AllocError> {
    let exprs = markup.exprs();
    let items = arguments.content_items();
    let args = arguments.arg_items();
    let mut fewer_exprs = exprs.clone()?;
    let mut fewer_items = items.clone()?;
    let mut fewer_args = args.clone()?;
    let _expr = fewer_exprs.next_back();
    let _item = fewer_items.next_back();
    let _arg = fewer_args.next();
    Ok([
        exprs.size_hint(),
        items.size_hint(),
        args.size_hint(),
        fewer_exprs.size_hint(),
        fewer_items.size_hint(),
        fewer_args.size_hint(),
    ])
}

#[test]
fn lists_hint_at_most_the_nodes_ahead(rt: HostRuntime) -> Result<(), Fail> {
    let markup = drawn(rt.alloc(), SPACED)?;
    let arguments = drawn(rt.alloc(), ARGUMENTS)?;
    let said = hints(view(Some(&markup)), view(Some(&arguments)))?;
    // Of four and of seven children. A paren and a hash come before the first argument.
    let (four, seven) = ((0, Some(4)), (0, Some(7)));
    let (three, six) = ((0, Some(3)), (0, Some(6)));
    assert_eq!(rt; said, [four, seven, seven, three, six, four]);
    Ok(())
}

/// How the lists of expressions, of items and of arguments are shown after one step each.
fn shown_ahead(
    alloc: Global,
    markup: of::Markup,
    arguments: of::MathArgs,
) -> Result<String, AllocError> {
    let mut exprs = markup.exprs();
    let mut items = arguments.content_items();
    let mut args = arguments.arg_items();
    let _expr = exprs.next();
    let _item = items.next();
    let _arg = args.next();
    format!(in alloc; "{exprs:?}\n{items:?}\n{args:?}")
}

/// Markup and the arguments of a call in math.
const BOTH: &str =
    "Markup[ LetBinding[ Let:let ] Space:~ Text:a ] MathArgs[ LeftParen:( Hash:# Ident:x RightParen:) ]";

/// Three lists after one step each, one entry a line.
const AHEAD: &str =
    r##"Exprs { nodes: KeptNodes { rest: [Space: " ", Text: "a"], drops: true, behind_stmt: true } }
MathArgItems { nodes: MathItems { rest: [Hash: "#", Ident: "x", RightParen: ")"], behind_hash: false } }
MathArgList { nodes: MathItems { rest: [RightParen: ")"], behind_hash: true } }"##;

#[test]
fn lists_show_the_nodes_ahead(rt: HostRuntime) -> Result<(), Fail> {
    let nodes = drawn_all(rt.alloc(), BOTH)?;
    let said = shown_ahead(rt.alloc(), view(nodes.first()), view(nodes.get(1)))?;
    assert_eq!(rt; said.as_str(), AHEAD);
    Ok(())
}
