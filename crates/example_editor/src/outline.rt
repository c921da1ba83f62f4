//! The headings of a document with their depth, a line each.
ghost use Rattle.std.specs.Prelude.{◌≡◌, ◌++◌, OnOk, string_bytes, codes, decimal};

use anyhow::Result;
use std::alloc::{AllocError, Global};
use typst_language::Typst;
use typst_source::Source;
use typst_tree::ast::{AstNode, Heading};
use typst_tree::{FileId, LinkedNode, SyntaxNode};

/// Prints the headings of a text.
pub(crate) fn print_outline(rt: &HostRuntime, text: &str) -> Result<()> {
    let alloc = rt.alloc();
    let source = Source::new(alloc, FileId::FIRST, text, Typst)?;
    rt.print(outline(alloc, source.root())?)?;
    Ok(())
}

/// Adds the line of a heading.
fn push_line(lines: &mut String, depth: usize, title: &str) -> Result<(), AllocError>
    ensures { OnOk result (string_bytes lines.new
        ≡ string_bytes lines.old ++ (decimal depth ++ (codes " " ++ (title.now ++ codes "\n")))) }
{
    writeln!(lines, "{depth} {title}")
}

/// The lines of all headings of a tree, in the order of the document.
fn outline(alloc: Global, tree: &SyntaxNode) -> Result<String, AllocError> {
    let mut lines = String::new(alloc);
    for node in LinkedNode::new(tree).preorder(alloc)? {
        if let Some(heading) = node?.get().cast::<Heading>() {
            let depth = heading.depth().get();
            match heading.body().to_untyped() {
                Some(body) => push_line(&mut lines, depth, &body.full_text(alloc)?)?,
                None => push_line(&mut lines, depth, "")?,
            }
        }
    }
    Ok(lines)
}
