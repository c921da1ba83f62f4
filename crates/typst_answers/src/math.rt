//! What math answers.

use crate::answers::Answers;
use crate::lists::both;
use crate::place::Place;
use crate::subject::Subject;
use typst_atoms::same_views::Parts;
use typst_tree::ast::{
    AstNode, Math, MathArg, MathArgItem, MathArgs, MathAttach, MathCall, MathDelimited,
    MathFieldAccess, MathFrac, MathRoot,
};
use typst_tree::{SyntaxKind, SyntaxNode};

/// What the accessors of a node or a placeholder answer. For a kind of another module there is no answer.
pub fn answer(out: &mut Answers, subject: Subject) {
    match subject.kind() {
        SyntaxKind::Math => math(out, subject.view()),
        SyntaxKind::MathFieldAccess => math_field_access(out, subject.view()),
        SyntaxKind::MathCall => math_call(out, subject.view()),
        SyntaxKind::MathArgs => math_args(out, subject.view()),
        SyntaxKind::MathDelimited => math_delimited(out, subject.view()),
        SyntaxKind::MathAttach => math_attach(out, subject.view()),
        SyntaxKind::MathFrac => math_frac(out, subject.view()),
        SyntaxKind::MathRoot => math_root(out, subject.view()),
        _ => {}
    }
}

/// What the contents of an equation answer.
fn math(out: &mut Answers, math: Math) {
    out.expr_list(math.exprs(), math.exprs(), math.exprs());
    out.flag("was_deparenthesized", math.was_deparenthesized());
}

/// What a field in math answers.
fn math_field_access(out: &mut Answers, access: MathFieldAccess) {
    out.view("target", access.target());
    out.view("field", access.field());
}

/// What a call in math answers.
fn math_call(out: &mut Answers, call: MathCall) {
    out.view("callee", call.callee());
    out.view("args", call.args());
}

/// What arguments in math answer.
fn math_args(out: &mut Answers, args: MathArgs) {
    content_items(out, args);
    arg_items(out, args);
}

/// Writes the items of arguments in math.
fn content_items(out: &mut Answers, args: MathArgs) {
    match args.content_items().collect::<Vec<MathArgItem>>(out.alloc) {
        Ok(items) => math_content_items(out, &items),
        Err(_) => out.refuse(),
    }
    out.warn_of_ends(&both(
        out.alloc,
        args.content_items(),
        args.content_items(),
        args.content_items(),
        parts_of_item,
    ));
}

/// Writes the arguments in math.
fn arg_items(out: &mut Answers, args: MathArgs) {
    match args.arg_items().collect::<Vec<MathArg>>(out.alloc) {
        Ok(items) => math_arg_items(out, &items),
        Err(_) => out.refuse(),
    }
}

/// The kind and the node of an item.
fn parts_of_item<'t>(item: MathArgItem<'t>) -> Parts<'t> {
    match item {
        MathArgItem::Arg(arg) => Parts {
            kind: arg.kind(),
            node: arg.to_untyped(),
        },
        MathArgItem::Space(space) => Parts {
            kind: space.kind(),
            node: space.to_untyped(),
        },
        MathArgItem::Comma(_, node) => parts_of_token(node),
        MathArgItem::Semicolon(_, node) => parts_of_token(node),
        MathArgItem::LeftParen(_, node) => parts_of_token(node),
        MathArgItem::RightParen(_, node) => parts_of_token(node),
    }
}

/// The kind and the node of an item that is a sign.
fn parts_of_token<'t>(node: &'t SyntaxNode) -> Parts<'t> {
    Parts {
        kind: node.kind(),
        node: Some(node),
    }
}

/// Writes the line of the items.
fn math_content_items(out: &mut Answers, items: &[MathArgItem]) {
    out.begin("content_items");
    out.put("[");
    for (index, item) in items.iter().enumerate() {
        out.put_comma(index);
        math_arg_item(out, *item);
    }
    out.put("]");
    out.end();
}

/// Writes the line of the arguments.
fn math_arg_items(out: &mut Answers, items: &[MathArg]) {
    out.begin("arg_items");
    out.put("[");
    for (index, item) in items.iter().enumerate() {
        out.put_comma(index);
        math_arg(out, *item);
    }
    out.put("]");
    out.end();
}

/// Writes an argument, and whether it ends in a semicolon.
fn math_arg(out: &mut Answers, item: MathArg) {
    let end = if item.ends_in_semicolon {
        ", true)"
    } else {
        ", false)"
    };
    out.put("(");
    out.put_view(item.arg);
    out.put(end);
}

/// Writes an item.
fn math_arg_item(out: &mut Answers, item: MathArgItem) {
    match item {
        MathArgItem::Arg(arg) => out.put_wrapped("Arg", arg),
        MathArgItem::Space(space) => out.put_wrapped("Space", space),
        MathArgItem::Comma(c, node) => token(out, "Comma", c, node),
        MathArgItem::Semicolon(c, node) => token(out, "Semicolon", c, node),
        MathArgItem::LeftParen(c, node) => token(out, "LeftParen", c, node),
        MathArgItem::RightParen(c, node) => token(out, "RightParen", c, node),
    }
}

/// Writes an item that is a sign.
fn token(out: &mut Answers, name: &str, c: char, node: &SyntaxNode) {
    let alloc = out.alloc;
    out.put_made(format!(in alloc; "{name}({c:?}, "));
    out.put_place(Place::of_node(node));
    out.put(")");
}

/// What a part between delimiters answers.
fn math_delimited(out: &mut Answers, delimited: MathDelimited) {
    out.expr_view("open", delimited.open());
    out.view("body", delimited.body());
    out.expr_view("close", delimited.close());
}

/// What a base with attachments answers.
fn math_attach(out: &mut Answers, attach: MathAttach) {
    out.expr_view("base", attach.base());
    out.expr_option("bottom", attach.bottom());
    out.expr_option("top", attach.top());
    out.option("primes", attach.primes());
}

/// What a fraction answers.
fn math_frac(out: &mut Answers, frac: MathFrac) {
    out.expr_view("num", frac.num());
    out.expr_view("denom", frac.denom());
}

/// What a root answers.
fn math_root(out: &mut Answers, root: MathRoot) {
    out.number("index", root.index());
    out.expr_view("radicand", root.radicand());
}
