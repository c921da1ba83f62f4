//! Reading markup, math and code by views.
use crate::guide::building::document;
use crate::rows::assert_text;
use std::alloc::{AllocError, Global};
use std::process::Abort;
use std::test::Fail;
use typst_drawn::drawn;
use typst_tree::ast::{AstNode, Expr};
use typst_tree::{LinkedNode, SyntaxNode};

/// A line for each heading, fraction and let binding of a tree.
fn summary(alloc: Global, tree: &SyntaxNode) -> Result<String, AllocError> {
    let mut lines = String::new(alloc);
    for node in LinkedNode::new(tree).preorder(alloc)? {
        if let Some(expr) = node?.get().cast::<Expr>() {
            tell(alloc, &mut lines, expr)?;
        }
    }
    Ok(lines)
}

/// Adds the lines of one expression.
fn tell(alloc: Global, lines: &mut String, expr: Expr) -> Result<(), AllocError> {
    match expr {
        Expr::Heading(heading) => writeln!(lines, "heading {}", heading.depth().get()),
        Expr::MathFrac(frac) => writeln!(lines, "{} over {}", text(frac.num()), text(frac.denom())),
        Expr::LetBinding(binding) => {
            for name in binding.kind().bindings(alloc)? {
                writeln!(lines, "let {}", name.as_str())?;
            }
            Ok(())
        }
        _ => Ok(()),
    }
}

/// The text of an expression that is a leaf, and nothing of a placeholder.
fn text<'a>(expr: Expr<'a>) -> &'a str {
    match expr.to_untyped() {
        Some(node) => node.leaf_text(),
        None => "",
    }
}

/// Asserts the summary of a tree.
fn assert_summary(
    rt: &(impl Abort + AllocGlobal),
    shows: &str,
    tree: &SyntaxNode,
    wanted: &str,
) -> Result<(), Fail> {
    let said = summary(rt.alloc(), tree)?;
    assert_text(rt, shows, "summary", &said, wanted);
    Ok(())
}

/// `a/b` as math.
const EQUATION: &str = "Equation[ Math[ MathFrac[ MathText:a Slash:/ MathText:b ] ] ]";

/// `let x=1` as code.
const CODE: &str = "Code[ LetBinding[ Let:let Ident:x Eq:= Int:1 ] ]";

#[test]
fn views_read_markup_math_and_code(rt: HostRuntime) -> Result<(), Fail> {
    let alloc = rt.alloc();
    assert_summary(&rt, "markup", &document(alloc)?, "heading 1\n")?;
    assert_summary(&rt, "math", &drawn(alloc, EQUATION)?, "a over b\n")?;
    assert_summary(&rt, "code", &drawn(alloc, CODE)?, "let x\n")
}
