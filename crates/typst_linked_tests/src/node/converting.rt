//! Nodes that become errors or get other kinds.
use crate::rows::assert_said;
use std::alloc::Global;
use typst_base::SyntaxKind;
use typst_drawn::{DrawingError, labels, numbered};
use typst_node::SyntaxNode;

/// A conversion.
enum To {
    Kind(SyntaxKind),
    Error(&'static str),
    Expected(&'static str),
    Unexpected,
}

/// What is shown, a tree that is numbered within 4..16, the conversions in order, and the result: its `Debug` text and
/// its labels.
type Row = (&'static str, &'static str, &'static [To], &'static str);

/// What conversions make of nodes.
const CONVERSIONS: [Row; 10] = [
    (
        "an error takes the place of a node and its warnings, and is detached",
        "Text:ab ^p",
        &[To::Error("m")],
        r#"Error: { text: "ab", message: "m" } 1..2"#,
    ),
    (
        "an error stays as it is",
        "!m:ab ^w",
        &[To::Error("n"), To::Unexpected, To::Expected("pattern")],
        r#"Warning: {message: "w", Error: { text: "ab", message: "m" }} 10..11"#,
    ),
    (
        "an inner node's error has its full text",
        "Markup[ Text:ab !m:# ]",
        &[To::Error("n")],
        r##"Error: { text: "ab#", message: "n" } 1..2"##,
    ),
    (
        "what is unexpected is told by its name",
        "Text:ab",
        &[To::Unexpected],
        r#"Error: { text: "ab", message: "unexpected text" } 1..2"#,
    ),
    (
        "a keyword is no identifier",
        "Let:let",
        &[To::Expected("identifier")],
        r#"Error: { text: "let", message: "expected identifier, found keyword `let`", hint: "keyword `let` is not allowed as an identifier; try `let_` instead" } 1..2"#,
    ),
    (
        "a keyword is no pattern",
        "Let:let",
        &[To::Expected("pattern")],
        r#"Error: { text: "let", message: "expected pattern, found keyword `let`", hint: "keyword `let` is not allowed as an identifier; try `let_` instead" } 1..2"#,
    ),
    (
        "a keyword for an expression has no hint",
        "Let:let",
        &[To::Expected("expression")],
        r#"Error: { text: "let", message: "expected expression, found keyword `let`" } 1..2"#,
    ),
    (
        "an identifier for a pattern has no hint",
        "Ident:x",
        &[To::Expected("pattern")],
        r#"Error: { text: "x", message: "expected pattern, found identifier" } 1..2"#,
    ),
    (
        "a node gets another kind, and keeps its warning and number",
        "Text:ab ^w",
        &[To::Kind(SyntaxKind::Ident)],
        r#"Warning: {message: "w", Ident: "ab"} 10..11"#,
    ),
    (
        "an inner node gets another kind",
        "Markup[ Text:a ]",
        &[To::Kind(SyntaxKind::Strong)],
        r#"Strong: 1 [Text: "a"] 5..16[8..9]"#,
    ),
];

/// Converts the node.
fn convert(alloc: Global, node: &mut SyntaxNode, to: &To) -> Result<(), DrawingError> {
    match to {
        To::Kind(kind) => {
            if node.kind().is_error() || kind.is_error() {
                return Err(DrawingError::Kind);
            }
            node.convert_to_kind(*kind);
        }
        To::Error(message) => node.convert_to_error(alloc, message)?,
        To::Expected(what) => node.expected(alloc, what)?,
        To::Unexpected => node.unexpected(alloc)?,
    }
    Ok(())
}

/// A drawn node after conversions.
fn converting(alloc: Global, drawing: &str, all: &[To]) -> Result<String, DrawingError> {
    let mut node = numbered(alloc, drawing, 4..16)?;
    for to in all {
        convert(alloc, &mut node, to)?;
    }
    let labels = labels(alloc, &node)?;
    Ok(format!(in alloc; "{node:?} {labels}")?)
}

#[test]
fn nodes_are_converted(rt: HostRuntime) {
    for (shows, drawing, all, wanted) in &CONVERSIONS {
        assert_said(&rt, shows, converting(rt.alloc(), drawing, all), wanted);
    }
}
