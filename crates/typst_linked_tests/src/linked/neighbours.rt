//! Parents, siblings, neighbouring leaves and modes.
use crate::linked::asking::{Ask, Row, assert_rows};

/// Two texts with a blank between them.
const SPACED: &str = "Markup[ Text:a Space:~ Text:b ]";

/// Strong content and a text.
const STRONG: &str = "Markup[ Strong[ Star:* Markup[ Text:b ] Star:* ] Text:c ]";

/// A sibling that is trivia but isn't a leaf.
const HOLLOWED: &str = "Markup[ Text:a Space[ Text:b ] Text:c ]";

/// A text between two errors.
const BROKEN: &str = "Markup[ Hash:# !e: Text:a !m:# Text:b ]";

/// Which parents and siblings nodes have.
const SIBLINGS: [Row; 17] = [
    ("a root has no parent", SPACED, &[], Ask::Parent, "-"),
    (
        "a root has no next sibling",
        SPACED,
        &[],
        Ask::NextSibling,
        "-",
    ),
    (
        "a root has no sibling before it",
        SPACED,
        &[],
        Ask::PrevWithTrivia,
        "-",
    ),
    (
        "a root's siblings and parent have no kinds",
        SPACED,
        &[],
        Ask::Kinds,
        "None None below None",
    ),
    (
        "a child knows its place",
        "Markup[ Text:ab Text:c ]",
        &[1],
        Ask::Itself,
        r#"[1] 2..3 Text: "c""#,
    ),
    (
        "a child knows its parent",
        "Markup[ Text:ab Text:c ]",
        &[1],
        Ask::Parent,
        r#"[] 0..3 Markup: 3 [Text: "ab", Text: "c"]"#,
    ),
    (
        "a grandchild knows its parent",
        STRONG,
        &[0, 1, 0],
        Ask::Parent,
        r#"[0, 1] 1..2 Markup: 1 [Text: "b"]"#,
    ),
    (
        "the next sibling passes over trivia",
        SPACED,
        &[0],
        Ask::NextSibling,
        r#"[2] 2..3 Text: "b""#,
    ),
    (
        "the sibling before passes over trivia",
        SPACED,
        &[2],
        Ask::PrevSibling,
        r#"[0] 0..1 Text: "a""#,
    ),
    (
        "trivia is a sibling after",
        SPACED,
        &[0],
        Ask::NextWithTrivia,
        r#"[1] 1..2 Space: " ""#,
    ),
    (
        "trivia is a sibling before",
        SPACED,
        &[2],
        Ask::PrevWithTrivia,
        r#"[1] 1..2 Space: " ""#,
    ),
    (
        "the first has none before it",
        SPACED,
        &[0],
        Ask::PrevSibling,
        "-",
    ),
    (
        "the last has none after it",
        SPACED,
        &[2],
        Ask::NextSibling,
        "-",
    ),
    (
        "kinds beside the first",
        SPACED,
        &[0],
        Ask::Kinds,
        "None Some(Text) below Some(Markup)",
    ),
    (
        "kinds beside the last",
        SPACED,
        &[2],
        Ask::Kinds,
        "Some(Text) None below Some(Markup)",
    ),
    (
        "kinds beside a blank",
        SPACED,
        &[1],
        Ask::Kinds,
        "Some(Text) Some(Text) below Some(Markup)",
    ),
    (
        "siblings below the root stand at their offsets",
        STRONG,
        &[0, 0],
        Ask::NextSibling,
        r#"[0, 1] 1..2 Markup: 1 [Text: "b"]"#,
    ),
];

/// Which leaves are next to nodes.
const LEAVES: [Row; 18] = [
    (
        "the first leaf",
        SPACED,
        &[],
        Ask::Leftmost,
        r#"[0] 0..1 Text: "a""#,
    ),
    (
        "the last leaf",
        SPACED,
        &[],
        Ask::Rightmost,
        r#"[2] 2..3 Text: "b""#,
    ),
    (
        "the first leaf stands as deep as it is",
        STRONG,
        &[],
        Ask::Leftmost,
        r#"[0, 0] 0..1 Star: "*""#,
    ),
    (
        "trivia is no leaf to step to",
        SPACED,
        &[1],
        Ask::Leftmost,
        "-",
    ),
    (
        "the next leaf lies over trivia",
        SPACED,
        &[0],
        Ask::NextLeaf,
        r#"[2] 2..3 Text: "b""#,
    ),
    (
        "the leaf before lies over trivia",
        SPACED,
        &[2],
        Ask::PrevLeaf,
        r#"[0] 0..1 Text: "a""#,
    ),
    ("no leaf after the last", SPACED, &[2], Ask::NextLeaf, "-"),
    ("no leaf before the first", SPACED, &[0], Ask::PrevLeaf, "-"),
    (
        "the next leaf may lie above",
        STRONG,
        &[0, 2],
        Ask::NextLeaf,
        r#"[1] 3..4 Text: "c""#,
    ),
    (
        "the leaf before may lie below",
        STRONG,
        &[1],
        Ask::PrevLeaf,
        r#"[0, 2] 2..3 Star: "*""#,
    ),
    (
        "a sibling of trivia kind is passed over whole",
        HOLLOWED,
        &[0],
        Ask::NextLeaf,
        r#"[2] 2..3 Text: "c""#,
    ),
    (
        "and backwards",
        HOLLOWED,
        &[2],
        Ask::PrevLeaf,
        r#"[0] 0..1 Text: "a""#,
    ),
    (
        "what is below it is its own first leaf",
        HOLLOWED,
        &[1],
        Ask::Leftmost,
        r#"[1, 0] 1..2 Text: "b""#,
    ),
    (
        "a cursor enters it",
        HOLLOWED,
        &[],
        Ask::After(1),
        r#"[1, 0] 1..2 Text: "b""#,
    ),
    (
        "an error without a text is no leaf",
        BROKEN,
        &[0],
        Ask::NextLeaf,
        r#"[2] 1..2 Text: "a""#,
    ),
    (
        "an error with a text is stepped to",
        BROKEN,
        &[2],
        Ask::NextLeaf,
        r##"[3] 2..3 Error: { text: "#", message: "m" }"##,
    ),
    (
        "also backwards",
        BROKEN,
        &[4],
        Ask::PrevLeaf,
        r##"[3] 2..3 Error: { text: "#", message: "m" }"##,
    ),
    (
        "the first leaf of all",
        BROKEN,
        &[],
        Ask::Leftmost,
        r##"[0] 0..1 Hash: "#""##,
    ),
];

/// An equation.
const EQUATION: &str = "Markup[ Equation[ Dollar:$ Math[ ] Dollar:$ ] ]";

/// An equation after a hash.
const HASHED_EQUATION: &str = "Markup[ Hash:# Equation[ Dollar:$ Math[ ] Dollar:$ ] ]";

/// Raw text.
const RAW: &str = "Markup[ Raw[ RawDelim:` Text:a RawDelim:` ] ]";

/// Raw text after a hash.
const HASHED_RAW: &str = "Markup[ Hash:# Raw[ RawDelim:` Text:a RawDelim:` ] ]";

/// A label, with a blank between it and a hash.
const LABEL: &str = "Markup[ Hash:# Space:~ Label:<a> ]";

/// Which modes come after nodes.
const MODES: [Row; 14] = [
    (
        "an equation opens math",
        EQUATION,
        &[0, 0],
        Ask::Modes,
        "Some(Math) in Some(Markup)",
    ),
    (
        "and closes it",
        EQUATION,
        &[0, 2],
        Ask::Modes,
        "Some(Markup) in Some(Markup)",
    ),
    (
        "a root of markup",
        EQUATION,
        &[],
        Ask::Modes,
        "Some(Markup) in None",
    ),
    (
        "an equation after a hash is code",
        HASHED_EQUATION,
        &[1, 2],
        Ask::Modes,
        "Some(Code) in Some(Code)",
    ),
    (
        "raw text has no mode: its first delimiter",
        RAW,
        &[0, 0],
        Ask::Modes,
        "None in Some(Markup)",
    ),
    ("its text", RAW, &[0, 1], Ask::Modes, "None in Some(Markup)"),
    (
        "its last delimiter ends it",
        RAW,
        &[0, 2],
        Ask::Modes,
        "Some(Markup) in Some(Markup)",
    ),
    (
        "raw text after a hash is code",
        HASHED_RAW,
        &[1, 2],
        Ask::Modes,
        "Some(Code) in Some(Code)",
    ),
    (
        "a text has the mode of its parent",
        "Markup[ Text:ab Text:c ]",
        &[0],
        Ask::Modes,
        "Some(Markup) in Some(Markup)",
    ),
    (
        "a label is markup again",
        LABEL,
        &[2],
        Ask::Modes,
        "Some(Markup) in Some(Markup)",
    ),
    (
        "a blank in markup",
        LABEL,
        &[1],
        Ask::Modes,
        "Some(Markup) in Some(Markup)",
    ),
    (
        "a hash opens code",
        LABEL,
        &[0],
        Ask::Modes,
        "Some(Code) in Some(Markup)",
    ),
    (
        "a blank in an equation is math",
        "Equation[ Space:~ ]",
        &[0],
        Ask::Modes,
        "Some(Math) in None",
    ),
    (
        "an equation's end, with no parent",
        "Equation[ Space:~ Dollar:$ ]",
        &[1],
        Ask::Modes,
        "None in None",
    ),
];

#[test]
fn siblings_pass_over_trivia(rt: HostRuntime) {
    assert_rows(&rt, rt.alloc(), &SIBLINGS);
}

#[test]
fn leaves_are_stepped_to(rt: HostRuntime) {
    assert_rows(&rt, rt.alloc(), &LEAVES);
}

#[test]
fn nodes_have_modes_after_them(rt: HostRuntime) {
    assert_rows(&rt, rt.alloc(), &MODES);
}
