//! A small parser. A block is a line with its line feed, or what follows the last line feed.
ghost use Rattle.std.specs.Prelude.{◌≡◌, ◌≤◌, length, map, IfOk};
ghost use Rattle.typst_node.specs.Plain.{plain};
ghost use Rattle.typst_source_tests.specs.Lines.{line_len, line_reach, trees_of_line};

use std::alloc::{AllocError, Global};
use typst_base::SyntaxKind;
use typst_node::{InnerError, SyntaxNode};
use typst_source::{BlockParser, ParsedBlock};

/// A parser of lines. The block of a line is a text. Where no line feed ends the line, an end of no bytes follows the
/// text.
#[derive(Clone, Copy, Debug, PartialEq, Eq)]
pub struct Lines;

/// How many bytes a line has, and how many bytes the parser looks at to know.
fn line_extent(bytes: &[u8]) -> (usize, usize)
    ensures within { result.0 ≤ length bytes.now }
    ensures len { result.0 ≡ line_len bytes.now }
    ensures reach { result.1 ≡ line_reach bytes.now }
{
    let mut at = 0;
    while at < bytes.len() {
        at += 1;
        if bytes[at - 1] == b'\n' {
            return (at, at);
        }
    }
    (at, at + 1)
}

/// The nodes of a line: a text, and an end where no line feed ends it.
fn nodes_of(alloc: Global, line: &str, last: bool) -> Result<Vec<SyntaxNode>, AllocError>
    ensures { IfOk result (λ nodes. map plain nodes.items ≡ trees_of_line last line.now) }
{
    let text = SyntaxNode::leaf(alloc, SyntaxKind::Text, line)?;
    if !last {
        return Ok(vec![in alloc; text]?);
    }
    let end = SyntaxNode::leaf(alloc, SyntaxKind::End, "")?;
    Ok(vec![in alloc; text, end]?)
}

impl BlockParser for Lines {
    ghost use Rattle.typst_source_tests.specs.Lines.{first_line};
    ghost use Rattle.typst_source_tests.specs.Laws.{lines_positive, lines_within, lines_boundary, lines_keep_text, lines_looked, lines_local};

    ghost first = { first_line };

    fn parse_block(&self, alloc: Global, text: &str) -> Result<ParsedBlock, InnerError> {
        let (len, reach) = line_extent(text.as_bytes());
        let (line, _) = text.split_at(len);
        let nodes = nodes_of(alloc, line, len < reach)?;
        Ok(ParsedBlock { len, reach, nodes })
    }

    ghost positive = { lines_positive };

    ghost within = { lines_within };

    ghost boundary = { lines_boundary };

    ghost keeps_text = { lines_keep_text };

    ghost looked = { lines_looked };

    ghost local = { lines_local };
}
