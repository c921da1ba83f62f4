//! A text, its tree, and edits.
use crate::rows::assert_text;
use std::alloc::{AllocError, Global};
use std::ops::Range;
use std::test::Fail;
use typst_language::Typst;
use typst_lines::{ColumnUnit, Lines};
use typst_source::{Outcome, Source, SourceError, TextEdit};
use typst_tree::{FileId, Renumbered, SyntaxKind, Touched};

/// A heading and two paragraphs, the first with strong content.
const TEXT: &str = "= Trees of Typst\n\nSee *this* tree.\n\nThe end.\n";

fn parsed(alloc: Global) -> Result<Source<Typst>, SourceError> {
    Source::new(alloc, FileId::FIRST, TEXT, Typst)
}

#[test]
fn an_edit_parses_the_blocks_anew_that_it_touches(rt: HostRuntime) -> Result<(), Fail> {
    let alloc = rt.alloc();
    let mut source = parsed(alloc)?;
    // `tree` becomes `node`. The paragraph is parsed anew, and no number changes.
    let range = 29..33;
    assert!(rt; source.fits(&range));
    let done = source.edit(alloc, range, "node")?;
    assert!(rt; done.reparsed == (18..36));
    assert!(rt; done.path.is_empty() && done.touched == Touched::Leaf { index: 6 });
    // `Trees` becomes strong, in the title of the heading. The heading and its title stay.
    let range = 2..7;
    assert!(rt; source.fits(&range));
    let done = source.edit(alloc, range, "*Trees*")?;
    let window = Renumbered {
        window: 0..3,
        tried: 1,
    };
    assert!(rt;
        done.path.as_slice() == [0, 2].as_slice() && done.touched == Touched::Window(window)
    );
    let wanted = "= *Trees* of Typst\n\nSee *this* node.\n\nThe end.\n";
    assert_text(&rt, "an edit", "text", source.text(), wanted);
    Ok(())
}

#[test]
fn a_span_leads_to_its_node_after_edits(rt: HostRuntime) -> Result<(), Fail> {
    let alloc = rt.alloc();
    let mut source = parsed(alloc)?;
    let strong = source.root().children().nth(4).ok_or("no child")?;
    assert!(rt; strong.kind() == SyntaxKind::Strong);
    let span = strong.span();
    // Four bytes come before it.
    let edit = TextEdit {
        range: 2..2,
        with: "Big ",
    };
    let Outcome::Edited(done) = source.serve(alloc, &edit) else {
        return Err("not edited")?;
    };
    let span = done.follow(span).ok_or("gone")?;
    let node = source.find(alloc, span)?.ok_or("not found")?;
    assert_eq!(rt; node.get().kind(), SyntaxKind::Strong);
    assert!(rt; source.range(alloc, span)? == Some(26..32));
    Ok(())
}

/// The bytes of the first error of a source.
fn place_of_error(
    alloc: Global,
    source: &Source<Typst>,
) -> Result<Option<Range<usize>>, AllocError> {
    let (errors, _) = source.root().errors_and_warnings(alloc)?;
    Ok(match errors.first() {
        Some(error) => source.place_of(&error.span),
        None => None,
    })
}

#[test]
fn a_run_goes_on_after_an_edit_that_doesnt_fit(rt: HostRuntime) -> Result<(), Fail> {
    let alloc = rt.alloc();
    let mut source = parsed(alloc)?;
    let edits = [
        TextEdit {
            range: 99..100,
            with: "x",
        },
        TextEdit {
            range: 27..28,
            with: "",
        },
    ];
    let outcomes = source.run(alloc, &edits)?;
    assert!(rt; matches!(outcomes.as_slice(), [Outcome::Misfit, Outcome::Edited(_)]));
    // The star that closed is gone, and the one that opens is an error.
    assert!(rt; place_of_error(alloc, &source)? == Some(22..23));
    Ok(())
}

#[test]
fn lines_tell_lines_and_columns(rt: HostRuntime) -> Result<(), Fail> {
    let alloc = rt.alloc();
    let source = parsed(alloc)?;
    let text = source.text();
    let lines = Lines::new(alloc, text)?;
    let line = lines.byte_to_line(text, 29);
    let column = lines.byte_to_column(text, 29, ColumnUnit::Utf16);
    assert!(rt; line == Some(2) && column == Some(11));
    let byte = lines.line_column_to_byte(text, 2, 11, ColumnUnit::Utf16);
    assert!(rt; byte == Some(29));
    Ok(())
}
