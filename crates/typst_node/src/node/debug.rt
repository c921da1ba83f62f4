//! Nodes written in one line, for programmers.
use crate::node::{ErrorNode, Hint, Node, SyntaxNode, Warning};
use std::fmt;
use typst_base::SubRange;

impl fmt::Debug for SyntaxNode {
    /// Writes the tree in one line. With `{:#?}` it writes a line for each node, indented by four blanks a level.
    ///
    /// - A leaf is `Text: "ab"`.
    /// - An inner node is `Markup: 3 [Text: "ab", Text: "c"]` with its length in bytes, or `Markup: 0` without
    ///   children.
    /// - An error is `Error: "message"`. With a text or hints it is
    ///   `Error: { text: "text", message: "message", hint: "hint" }`.
    /// - A warning is `Warning: {message: "message", hint: "hint", NODE}` around its node.
    /// - A part of a node adds ` @("slice")` after `message` or `hint`, or ` @(3..9)` if its ends are not
    ///   boundaries of characters within the node's text.
    fn fmt<W: fmt::Write>(&self, f: &mut fmt::Formatter<W>) -> fmt::Result {
        self.write_tree(f, 0)
    }
}

impl SyntaxNode {
    /// Writes the node with its warnings, outermost first. `depth` is the number of levels above it.
    fn write_tree<W: fmt::Write>(&self, f: &mut fmt::Formatter<W>, depth: usize) -> fmt::Result {
        let warnings = self.node.warnings();
        let count = warnings.len();
        for done in 0..count {
            self.write_warning(f, &warnings[count - 1 - done])?;
        }
        match &self.node {
            Node::Short(..) | Node::Long(..) | Node::Leaf(..) => {
                write!(f, "{:?}: {:?}", self.kind(), self.leaf_text())?;
            }
            Node::Error(error) => self.write_error(f, error)?,
            Node::Inner(kind, len, inner) => {
                write!(f, "{kind:?}: {len}")?;
                let mut first = true;
                for child in &inner.children {
                    f.write_str(if first { " [" } else { "," })?;
                    write_break(f, depth.saturating_add(1), first)?;
                    child.write_tree(f, depth.saturating_add(1))?;
                    first = false;
                }
                if !first {
                    write_end(f, depth)?;
                }
            }
        }
        for _closed in 0..count {
            f.write_str("}")?;
        }
        Ok(())
    }

    /// Writes what comes before the node in a warning.
    fn write_warning<W: fmt::Write>(
        &self,
        f: &mut fmt::Formatter<W>,
        warning: &Warning,
    ) -> fmt::Result {
        f.write_str("Warning: {message")?;
        self.write_part(f, warning.sub_range)?;
        write!(f, ": {:?}", warning.message)?;
        self.write_hints(f, &warning.hints)?;
        f.write_str(", ")
    }

    /// Writes an error without its warnings.
    fn write_error<W: fmt::Write>(
        &self,
        f: &mut fmt::Formatter<W>,
        error: &ErrorNode,
    ) -> fmt::Result {
        if error.text.is_empty() && error.hints.is_empty() {
            return write!(f, "Error: {:?}", error.message);
        }
        write!(
            f,
            "Error: {{ text: {:?}, message: {:?}",
            error.text, error.message
        )?;
        self.write_hints(f, &error.hints)?;
        f.write_str(" }")
    }

    /// Writes the node's hints, each with a comma before it.
    fn write_hints<W: fmt::Write>(&self, f: &mut fmt::Formatter<W>, hints: &[Hint]) -> fmt::Result {
        for hint in hints {
            f.write_str(", hint")?;
            self.write_part(f, hint.sub_range)?;
            write!(f, ": {:?}", hint.text)?;
        }
        Ok(())
    }

    /// Writes a part of the node, if there is one: its text, or its ends if they are not boundaries of characters.
    fn write_part<W: fmt::Write>(
        &self,
        f: &mut fmt::Formatter<W>,
        part: Option<SubRange>,
    ) -> fmt::Result {
        let Some(part) = part else { return Ok(()) };
        let range = part.to_relative();
        if !self.is_boundary(range.start) || !self.is_boundary(range.end) {
            return write!(f, " @({}..{})", range.start, range.end);
        }
        f.write_str(" @(\"")?;
        self.write_slice(f, range.start, range.end)?;
        f.write_str("\")")
    }

    /// Whether a character of the node's text begins at this byte, or the text ends there.
    fn is_boundary(&self, at: usize) -> bool {
        match &self.node {
            Node::Short(..) | Node::Long(..) | Node::Leaf(..) | Node::Error(_) => {
                self.leaf_text().is_char_boundary(at)
            }
            Node::Inner(_, _, inner) => {
                let mut rest = at;
                for child in &inner.children {
                    if rest <= child.len() {
                        return child.is_boundary(rest);
                    }
                    rest -= child.len();
                }
                rest == 0
            }
        }
    }

    /// Writes the characters between two boundaries of the node's text, escaped as in a literal.
    fn write_slice<W: fmt::Write>(
        &self,
        f: &mut fmt::Formatter<W>,
        start: usize,
        end: usize,
    ) -> fmt::Result {
        match &self.node {
            Node::Short(..) | Node::Long(..) | Node::Leaf(..) | Node::Error(_) => {
                write_escaped(f, self.leaf_text(), start, end)
            }
            Node::Inner(_, _, inner) => {
                let mut start = start;
                let mut end = end;
                for child in &inner.children {
                    let len = child.len();
                    child.write_slice(f, start.min(len), end.min(len))?;
                    start = start.saturating_sub(len);
                    end = end.saturating_sub(len);
                }
                Ok(())
            }
        }
    }
}

/// Writes the characters between two boundaries of the text, escaped as in a literal.
fn write_escaped<W: fmt::Write>(
    f: &mut fmt::Formatter<W>,
    text: &str,
    start: usize,
    end: usize,
) -> fmt::Result {
    let Some(slice) = text.get(start..end) else {
        return Ok(());
    };
    for c in slice.chars() {
        if c == '\'' {
            f.write_char(c)?;
        } else {
            for escaped in c.escape_debug() {
                f.write_char(escaped)?;
            }
        }
    }
    Ok(())
}

/// Writes what comes before a child: with `{:#?}` the start of a line, otherwise a blank if a comma comes before.
fn write_break<W: fmt::Write>(f: &mut fmt::Formatter<W>, depth: usize, first: bool) -> fmt::Result {
    if f.alternate() {
        write_line_start(f, depth)
    } else if first {
        Ok(())
    } else {
        f.write_str(" ")
    }
}

/// Writes the end of a list of children. With `{:#?}` it is a comma after the last child, and the bracket on a new
/// line.
fn write_end<W: fmt::Write>(f: &mut fmt::Formatter<W>, depth: usize) -> fmt::Result {
    if f.alternate() {
        f.write_str(",")?;
        write_line_start(f, depth)?;
    }
    f.write_str("]")
}

/// Ends a line, and begins the next line with four blanks a level.
fn write_line_start<W: fmt::Write>(f: &mut fmt::Formatter<W>, depth: usize) -> fmt::Result {
    f.write_str("\n")?;
    for _level in 0..depth {
        f.write_str("    ")?;
    }
    Ok(())
}
