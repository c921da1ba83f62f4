//! Trees in one line. They also show that drawn trees, which the other tests use, are what their drawings say.
use crate::rows::{assert_said, assert_text};
use std::alloc::{AllocError, Global};
use std::test::Fail;
use typst_drawn::{DrawingError, drawn};

/// What is shown, a drawing, and the tree's `Debug` text.
type Row = (&'static str, &'static str, &'static str);

/// How nodes are shown.
const SHOWN: [Row; 18] = [
    ("a leaf", "Text:ab", r#"Text: "ab""#),
    ("an empty leaf", "Text:", r#"Text: """#),
    ("a leaf of a blank", "Space:~", r#"Space: " ""#),
    ("a leaf of a colon", "Colon::", r#"Colon: ":""#),
    (
        "a leaf of a bracket",
        "LeftBracket:[",
        r#"LeftBracket: "[""#,
    ),
    (
        "an inner node, with its length",
        "Markup[ Text:ab Text:c ]",
        r#"Markup: 3 [Text: "ab", Text: "c"]"#,
    ),
    ("an inner node without children", "Markup[ ]", "Markup: 0"),
    (
        "an error, under its text, message and hint",
        "!m:# +h",
        r##"Error: { text: "#", message: "m", hint: "h" }"##,
    ),
    (
        "an error of empty text, as its message alone",
        "Markup[ Hash:# !expected~expression: ]",
        r##"Markup: 1 [Hash: "#", Error: "expected expression"]"##,
    ),
    (
        "hints, in their order",
        "!m: +g +h",
        r#"Error: { text: "", message: "m", hint: "g", hint: "h" }"#,
    ),
    (
        "a warning below an inner node",
        "Markup[ Text:ab ^m Text:c ]",
        r#"Markup: 3 [Warning: {message: "m", Text: "ab"}, Text: "c"]"#,
    ),
    (
        "two warnings, the outermost first",
        "Text:ab ^p ^q +h",
        r#"Warning: {message: "q", hint: "h", Warning: {message: "p", Text: "ab"}}"#,
    ),
    (
        "an error under two warnings, each with its hint",
        "!m:# +g ^p +h ^q +i",
        r##"Warning: {message: "q", hint: "i", Warning: {message: "p", hint: "h", Error: { text: "#", message: "m", hint: "g" }}}"##,
    ),
    (
        "parts, as slices",
        "!unclosed~label:<unclosed +0..1@greater +3..8@open! ^3..9@opened? +0..9@full~text",
        r#"Warning: {message @("closed"): "opened?", hint @("<unclosed"): "full text", Error: { text: "<unclosed", message: "unclosed label", hint @("<"): "greater", hint @("close"): "open!" }}"#,
    ),
    (
        "a part across children, and one that ends within a character",
        "Strong[ Text:a\" Text:'\u{e9} ] ^1..3@m +0..4@h",
        "Warning: {message @(\"\\\"'\"): \"m\", hint @(0..4): \"h\", Strong: 5 [Text: \"a\\\"\", Text: \"'\u{e9}\"]}",
    ),
    (
        "a part of a long text",
        "Text:abcdefghijklmnopqrstuvwxyz ^1..3@m",
        r#"Warning: {message @("bc"): "m", Text: "abcdefghijklmnopqrstuvwxyz"}"#,
    ),
    (
        "parts of a long text in an inner node",
        "Markup[ Text:abcdefghijklmnopqrstuvwxyz ^1..3@m Text:c ] ^23..27@n",
        r#"Warning: {message @("xyzc"): "n", Markup: 27 [Warning: {message @("bc"): "m", Text: "abcdefghijklmnopqrstuvwxyz"}, Text: "c"]}"#,
    ),
    (
        "three levels",
        "Markup[ Strong[ Star:* Markup[ Text:b ] Star:* ] Text:c ]",
        r#"Markup: 4 [Strong: 3 [Star: "*", Markup: 1 [Text: "b"], Star: "*"], Text: "c"]"#,
    ),
];

/// How a drawn tree is shown.
fn shown(alloc: Global, drawing: &str) -> Result<String, DrawingError> {
    let tree = drawn(alloc, drawing)?;
    Ok(format!(in alloc; "{tree:?}")?)
}

#[test]
fn trees_are_shown_in_one_line(rt: HostRuntime) {
    for (shows, drawing, wanted) in &SHOWN {
        assert_said(&rt, shows, shown(rt.alloc(), drawing), wanted);
    }
}

/// How a drawn tree is shown in lines.
fn shown_in_lines(alloc: Global, drawing: &str) -> Result<String, DrawingError> {
    let tree = drawn(alloc, drawing)?;
    Ok(format!(in alloc; "{tree:#?}")?)
}

/// How nodes are shown in lines.
const IN_LINES: [Row; 3] = [
    ("a leaf", "Text:ab", "Text: \"ab\""),
    ("no children", "Markup[ ]", "Markup: 0"),
    (
        "children, and those of a child",
        "Markup[ Strong[ Star:* ] Text:c ^m ]",
        "Markup: 2 [\n    Strong: 1 [\n        Star: \"*\",\n    ],\n    Warning: {message: \"m\", Text: \"c\"},\n]",
    ),
];

#[test]
fn trees_are_shown_in_a_line_for_each_node(rt: HostRuntime) {
    for (shows, drawing, wanted) in &IN_LINES {
        assert_said(&rt, shows, shown_in_lines(rt.alloc(), drawing), wanted);
    }
}

/// Why a drawing is refused, or the tree that it shows.
fn refused(alloc: Global, drawing: &str) -> Result<String, AllocError> {
    match drawn(alloc, drawing) {
        Ok(tree) => format!(in alloc; "{tree:?}"),
        Err(error) => format!(in alloc; "{error:?}"),
    }
}

/// Drawings, and why they are refused.
const REFUSED: [(&str, &str); 14] = [
    ("Foo:a", "Kind"),
    ("Error:a", "Kind"),
    ("Error[ ]", "Kind"),
    ("Markup[", "Bracket"),
    ("Text:a ]", "Bracket"),
    ("ab", "Word"),
    ("^w Text:a", "Misplaced"),
    ("Text:a +h", "Misplaced"),
    ("Text:ab ^0..3@m", "Misplaced"),
    ("Text:ab ^1..1@m", "Misplaced"),
    ("!m:ab +2..3@h", "Misplaced"),
    ("Text:ab ^x..1@m", "Word"),
    ("Text:a Text:b", "Nodes"),
    ("", "Nodes"),
];

#[test]
fn drawings_of_no_tree_are_refused(rt: HostRuntime) -> Result<(), Fail> {
    for (drawing, wanted) in &REFUSED {
        assert_text(&rt, drawing, &refused(rt.alloc(), drawing)?, wanted);
    }
    Ok(())
}
