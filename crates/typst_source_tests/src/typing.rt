//! Where nodes are after edits of their text, by their spans.
use std::alloc::Global;
use std::process::Abort;
use std::test::Fail;
use typst_base::{FileId, Span, SpanNumber, SyntaxKind};
use typst_language::Typst;
use typst_linked::LinkedNode;
use typst_source::{Edited, Outcome, Source, TextEdit};

/// An edit: where the bytes that go begin and end, and the text that comes.
type Edit = (usize, usize, &'static str);

/// A text, the kind of the node that is kept, which is the first of its kind in preorder, edits, and where the node is after
/// them: `same` with its bytes if it has its number, `other` if it has another one, and `gone`.
struct Row {
    shows: &'static str,
    text: &'static str,
    kind: SyntaxKind,
    edits: &'static [Edit],
    wanted: &'static str,
}

/// A paragraph that comes after the first one. The first window is one text and one paragraph break. Each time an eighth of
/// the numbers before it are left. At first there are a tenth of 2^47, so 3 are left for the fifteenth, which needs 4.
const NEXT: Edit = (3, 3, "a\n\n");

/// Texts, edits, and where a node is after them.
const ROWS: [Row; 24] = [
    Row {
        shows: "a letter in its title",
        text: "= A\n\nb\n",
        kind: SyntaxKind::Heading,
        edits: &[(3, 3, "s")],
        wanted: "same 0..4",
    },
    Row {
        shows: "a letter in the text of a title",
        text: "= A\n\nb\n",
        kind: SyntaxKind::Text,
        edits: &[(3, 3, "s")],
        wanted: "same 2..4",
    },
    Row {
        shows: "a part of its title becomes strong",
        text: "= A b\n\nc\n",
        kind: SyntaxKind::Heading,
        edits: &[(4, 5, "*b*")],
        wanted: "same 0..7",
    },
    Row {
        shows: "a part of it becomes strong",
        text: "= A b\n\nc\n",
        kind: SyntaxKind::Text,
        edits: &[(4, 5, "*b*")],
        wanted: "gone",
    },
    Row {
        shows: "a paragraph before it",
        text: "x\n\n= A\n",
        kind: SyntaxKind::Heading,
        edits: &[(0, 0, "y\n\n")],
        wanted: "same 6..9",
    },
    Row {
        shows: "an equal heading before it, in a block of its own",
        text: "x\n\n= A\n\ny\n",
        kind: SyntaxKind::Heading,
        edits: &[(3, 3, "= A\n\n")],
        wanted: "same 8..11",
    },
    Row {
        shows: "two equal lines in place of its line",
        text: "= A\ny\n",
        kind: SyntaxKind::Heading,
        edits: &[(0, 3, "= A\n= A")],
        wanted: "same 0..3",
    },
    Row {
        shows: "another heading before it, in its block",
        text: "= A\ny\n",
        kind: SyntaxKind::Heading,
        edits: &[(0, 0, "= B\n")],
        wanted: "same 4..7",
    },
    Row {
        shows: "one level more",
        text: "= A\n\nb\n",
        kind: SyntaxKind::Heading,
        edits: &[(0, 0, "=")],
        wanted: "same 0..4",
    },
    Row {
        shows: "it is deleted",
        text: "= A\n\nb\n",
        kind: SyntaxKind::Heading,
        edits: &[(0, 5, "")],
        wanted: "gone",
    },
    Row {
        shows: "it is deleted, and comes back",
        text: "= A\n\nb\n",
        kind: SyntaxKind::Heading,
        edits: &[(0, 5, ""), (0, 0, "= A\n\n")],
        wanted: "gone",
    },
    Row {
        shows: "it becomes a text",
        text: "= A\n\nb\n",
        kind: SyntaxKind::Heading,
        edits: &[(0, 0, "x")],
        wanted: "gone",
    },
    Row {
        shows: "something changes before it",
        text: "a *b* c\n",
        kind: SyntaxKind::Strong,
        edits: &[(0, 1, "x")],
        wanted: "same 2..5",
    },
    Row {
        shows: "something changes before it and after it at once",
        text: "a *b* c\n",
        kind: SyntaxKind::Strong,
        edits: &[(0, 7, "x *b* y")],
        wanted: "gone",
    },
    Row {
        shows: "the same in two edits",
        text: "a *b* c\n",
        kind: SyntaxKind::Strong,
        edits: &[(0, 1, "x"), (6, 7, "y")],
        wanted: "same 2..5",
    },
    Row {
        shows: "a letter in its content",
        text: "a *b* c\n",
        kind: SyntaxKind::Strong,
        edits: &[(4, 4, "x")],
        wanted: "same 2..6",
    },
    Row {
        shows: "a letter in a name in code",
        text: "#let a = 1\nb\n",
        kind: SyntaxKind::LetBinding,
        edits: &[(6, 6, "b")],
        wanted: "same 1..11",
    },
    Row {
        shows: "its hash is deleted",
        text: "#let a = 1\nb\n",
        kind: SyntaxKind::LetBinding,
        edits: &[(0, 1, "")],
        wanted: "gone",
    },
    Row {
        shows: "lines in a bracket, which end no block",
        text: "#[a\n\nb]\nc\n",
        kind: SyntaxKind::ContentBlock,
        edits: &[(6, 6, "c\n= d\n")],
        wanted: "same 1..13",
    },
    Row {
        shows: "its other branch, in a line of its own",
        text: "#{\nif a {}\n}\nb\n",
        kind: SyntaxKind::Conditional,
        edits: &[(11, 11, "else {}\n")],
        wanted: "same 3..18",
    },
    Row {
        shows: "a script in an equation",
        text: "$a$\nb\n",
        kind: SyntaxKind::Equation,
        edits: &[(2, 2, "^2")],
        wanted: "same 0..5",
    },
    Row {
        shows: "the root",
        text: "a\n",
        kind: SyntaxKind::Markup,
        edits: &[(0, 2, "")],
        wanted: "same 0..0",
    },
    Row {
        shows: "fourteen paragraphs after it",
        text: "a\n\na\n\n",
        kind: SyntaxKind::Parbreak,
        edits: &[
            NEXT, NEXT, NEXT, NEXT, NEXT, NEXT, NEXT, NEXT, NEXT, NEXT, NEXT, NEXT, NEXT, NEXT,
        ],
        wanted: "same 1..3",
    },
    Row {
        shows: "fifteen paragraphs after it, the last of which takes it into its window",
        text: "a\n\na\n\n",
        kind: SyntaxKind::Parbreak,
        edits: &[
            NEXT, NEXT, NEXT, NEXT, NEXT, NEXT, NEXT, NEXT, NEXT, NEXT, NEXT, NEXT, NEXT, NEXT,
            NEXT,
        ],
        wanted: "other 1..3",
    },
];

/// The span of the first node of a kind, in preorder.
fn first_of(alloc: Global, source: &Source<Typst>, kind: SyntaxKind) -> Result<Span, Fail> {
    for node in LinkedNode::new(source.root()).preorder(alloc)? {
        let node = node?;
        if node.get().kind() == kind {
            return Ok(node.get().span());
        }
    }
    Err("no such node")?
}

/// Makes an edit.
fn edit(alloc: Global, source: &mut Source<Typst>, edit: &Edit) -> Result<Edited, Fail> {
    let (start, end, with) = edit;
    let edit = TextEdit {
        range: *start..*end,
        with,
    };
    match source.serve(alloc, &edit) {
        Outcome::Edited(done) => Ok(done),
        _ => Err("not edited")?,
    }
}

/// Where the node of a row is after its edits.
fn followed(alloc: Global, row: &Row) -> Result<String, Fail> {
    let mut source = Source::new(alloc, FileId::FIRST, row.text, Typst)?;
    let first = first_of(alloc, &source, row.kind)?;
    let mut span = first;
    for each in row.edits {
        match edit(alloc, &mut source, each)?.follow(span) {
            Some(now) => span = now,
            None => return Ok(String::from_str(alloc, "gone")?),
        }
    }
    let node = source.find(alloc, span)?.ok_or("not found")?;
    if node.get().kind() != row.kind {
        return Err("another kind")?;
    }
    let (start, end) = (node.range().start, node.range().end);
    let number = if span == first { "same" } else { "other" };
    Ok(format!(in alloc; "{number} {start}..{end}")?)
}

/// Asserts where the node of each row is.
fn assert_followed(rt: &(impl Abort + AllocGlobal), rows: &[Row]) -> Result<(), Fail> {
    for row in rows {
        let at = followed(rt.alloc(), row)?;
        assert_eq!(rt; at.as_str(), row.wanted, "{}", row.shows);
    }
    Ok(())
}

#[test]
fn a_node_is_followed_while_its_text_is_typed(rt: HostRuntime) -> Result<(), Fail> {
    assert_followed(&rt, &ROWS)
}

#[test]
fn a_span_of_no_node_stays_as_it_is(rt: HostRuntime) -> Result<(), Fail> {
    let mut source = Source::new(rt.alloc(), FileId::FIRST, "a\n", Typst)?;
    let done = edit(rt.alloc(), &mut source, &(0, 2, ""))?;
    let other = FileId::new(2).ok_or("no file")?;
    // A detached span, one of another file, and one of bytes.
    for span in [
        Span::detached(),
        Span::from_number(other, SpanNumber(5)),
        Span::from_range(FileId::FIRST, 0..1),
    ] {
        assert!(rt; done.follow(span) == Some(span));
    }
    Ok(())
}
