//! Tests of scripts as a user would run them, and of readers and writers that fail.
use crate::asserting::{Wanted, assert_after, assert_outcome, assert_shown, outcome_of};
use crate::fakes::{FailingReader, FailingWriter, Failure, Letters};
use crate::vectors::assert_vectors;
use std::alloc::{AllocError, Global};
use std::process::Abort;
use std::test::Fail;
use typst_script::Fault;
use typst_script::input::MOST_BYTES;
use typst_script::script::{run, run_within, tree_of};

/// A tree of two leaves, numbered and shown.
const NUMBERED: &[u8] = b"leaf 6 ab\nleaf 6 c\ninner 5 2\nroot\nnumber 1 2 14\nshow\n";

/// How a numbered tree is shown.
const NUMBERED_SHOWN: &[u8] = b"5 3 14 3\n  6 5 6 2 ab\n  6 7 8 1 c\n";

/// Four replacements and a search.
const EDITED: &[u8] =
    b"leaf 55 *\nleaf 6 b\ninner 5 1\nleaf 55 *\ninner 13 3\nleaf 6 c\ninner 5 2\nroot\nnumber 1 2 30\nleaf 6 x\nleaf 6 y\ninner 5 2\nreplace 0 1 2 1\nfind 1 15\nleaf 6 x\nleaf 6 y\nreplace 0.1 0 1 2\nreplace 5 0 0 0\nreplace 1 0 0 0\nrun\nshow\n";

/// What those requests print.
const EDITED_SHOWN: &[u8] =
    b"done window 0..3 tried 2\nfound 1 offset 4\nrefused\nmisfit\nmisfit\n5 3 30 5\n  13 4 14 4\n    55 5 6 1 *\n    5 6 9 2\n      6 7 8 1 x\n      6 8 9 1 y\n    55 9 10 1 *\n  6 15 16 1 c\n";

/// What a script wrote when its reader or writer failed, and how it ended.
#[derive(Drop)]
struct Broken {
    out: Vec<u8>,
    done: Result<(), Fault>,
}

/// What a script writes to a writer that fails.
fn written(alloc: Global, script: &[u8], failure: Failure) -> Broken {
    let mut out: Vec<u8> = Vec::new(alloc);
    let writer = FailingWriter {
        written: &mut out,
        failure,
    };
    let done = run(alloc, script, writer);
    Broken { out, done }
}

/// What a script writes when it comes from a reader that fails.
fn read(alloc: Global, bytes: &[u8], failure: Failure) -> Broken {
    let mut out: Vec<u8> = Vec::new(alloc);
    let done = run(alloc, FailingReader { bytes, failure }, &mut out);
    Broken { out, done }
}

#[test]
fn replays_the_vectors(rt: HostRuntime) -> Result<(), Fail> {
    assert_vectors(&rt)
}

/// What a test shows, a script, what the script prints, and how it ends: the text on standard error and the status.
type Row<'a> = (&'a str, &'a [u8], &'a [u8], &'a str, u8);

/// Asserts that each script prints and ends with what it should.
fn assert_rows(rt: &(impl Abort + AllocGlobal), rows: &[Row<'_>]) -> Result<(), Fail> {
    for (shows, script, stdout, stderr, status) in rows {
        let wanted = Wanted {
            stdout,
            stderr,
            status: *status,
        };
        assert_outcome(rt, shows, script, wanted)?;
    }
    Ok(())
}

/// Scripts that build trees.
const BUILT: &[Row<'_>] = &[
    ("numbered", NUMBERED, NUMBERED_SHOWN, "", 0),
    (
        "two blanks a level, in a tree of twenty levels",
        b"leaf 6 a\ninner 5 1\ninner 5 1\ninner 5 1\ninner 5 1\ninner 5 1\ninner 5 1\ninner 5 1\ninner 5 1\ninner 5 1\ninner 5 1\ninner 5 1\ninner 5 1\ninner 5 1\ninner 5 1\ninner 5 1\ninner 5 1\ninner 5 1\ninner 5 1\ninner 5 1\nroot\nshow\n",
        b"5 1 0 1\n  5 1 0 1\n    5 1 0 1\n      5 1 0 1\n        5 1 0 1\n          5 1 0 1\n            5 1 0 1\n              5 1 0 1\n                5 1 0 1\n                  5 1 0 1\n                    5 1 0 1\n                      5 1 0 1\n                        5 1 0 1\n                          5 1 0 1\n                            5 1 0 1\n                              5 1 0 1\n                                5 1 0 1\n                                  5 1 0 1\n                                    5 1 0 1\n                                      6 1 2 1 a\n",
        "",
        0,
    ),
    (
        "a new tree is detached",
        b"leaf 6 ab\nleaf 6 c\ninner 5 2\nroot\nshow\n",
        b"5 1 0 3\n  6 1 2 2 ab\n  6 1 2 1 c\n",
        "",
        0,
    ),
    (
        "fewer numbers than nodes, and an empty range, change nothing",
        b"leaf 6 ab\nleaf 6 c\ninner 5 2\nroot\nnumber 1 2 4\nnumber 1 14 2\nshow\n",
        b"refused\nrefused\n5 1 0 3\n  6 1 2 2 ab\n  6 1 2 1 c\n",
        "",
        0,
    ),
    (
        "a first number past all is refused, and not bad",
        b"leaf 6 ab\nroot\nnumber 1 140737488355329 14\nshow\n",
        b"refused\n6 1 2 2 ab\n",
        "",
        0,
    ),
];

#[test]
fn shows_what_was_built(rt: HostRuntime) -> Result<(), Fail> {
    assert_rows(&rt, BUILT)
}

/// Scripts with a bad line, and the text that names it.
const BAD: &[(&[u8], &str)] = &[
    // No path, no tree, no node to warn of, too few nodes, and numbers that no node has.
    (b"replace 0..1 0 0 0\n", "line 1: bad command\n"),
    (b"replace -0 0 0 0\n", "line 1: bad command\n"),
    (b"replace .0 0 0 0\n", "line 1: bad command\n"),
    (b"run\n", "line 1: bad command\n"),
    (b"warn w\n", "line 1: bad command\n"),
    (b"leaf 6 a\nreplace - 0 0 2\n", "line 2: bad command\n"),
    (b"find 1 140737488355328\n", "line 1: bad command\n"),
    (b"leaf 6 x\ninner 5 2\n", "line 2: bad command\n"),
    // Lines count from 1, and empty ones count too.
    (b"\n\nleaf 6 a\n\n\ngrow\n", "line 6: bad command\n"),
    // Numbers that no node has, and no file.
    (
        b"leaf 6 ab\nleaf 6 c\ninner 5 2\nroot\nnumber 1 1 14\n",
        "line 5: bad command\n",
    ),
    (
        b"leaf 6 ab\nleaf 6 c\ninner 5 2\nroot\nnumber 0 2 14\n",
        "line 5: bad command\n",
    ),
    (
        b"leaf 6 ab\nleaf 6 c\ninner 5 2\nroot\nnumber 65536 2 14\n",
        "line 5: bad command\n",
    ),
    (b"leaf 6 a\nroot\nnumber 1 1 14\n", "line 3: bad command\n"),
    (b"leaf 6 a\nroot\nnumber 0 2 14\n", "line 3: bad command\n"),
    (
        b"leaf 6 a\nroot\nnumber 65536 2 14\n",
        "line 3: bad command\n",
    ),
    // A sign, and no digits.
    (b"leaf +6 a\n", "line 1: bad command\n"),
    (b"leaf 6 a\ninner 5 \n", "line 2: bad command\n"),
    // Too few words, and too many.
    (b"inner 5\n", "line 1: bad command\n"),
    (b"leaf 6 a\nroot\nnumber 1 2\n", "line 3: bad command\n"),
    (
        b"leaf 6 a\nroot\nnumber 1 2 14 3\n",
        "line 3: bad command\n",
    ),
    // No command, and a blank line that isn't empty.
    (b"grow\n", "line 1: bad command\n"),
    (b" \n", "line 1: bad command\n"),
    // A bad line counts if it is before a line that isn't UTF-8.
    (b"root\n\xff\n", "line 1: bad command\n"),
];

/// Asserts that each script prints nothing, and ends with the text beside it.
fn assert_bad(rt: &(impl Abort + AllocGlobal), rows: &[(&[u8], &str)]) -> Result<(), Fail> {
    for (script, stderr) in rows {
        let wanted = Wanted {
            stdout: b"",
            stderr,
            status: 2,
        };
        assert_outcome(rt, stderr, script, wanted)?;
    }
    Ok(())
}

#[test]
fn names_the_bad_line(rt: HostRuntime) -> Result<(), Fail> {
    assert_bad(&rt, BAD)
}

#[test]
fn prints_each_fault(rt: HostRuntime) -> Result<(), Fail> {
    let alloc = rt.alloc();
    let cases = [
        (Fault::BadCommand { line: 12 }, "line 12: bad command", 2),
        (Fault::Read, "cannot read", 1),
        (Fault::Write, "cannot write", 1),
        (Fault::Memory, "no memory", 1),
        (Fault::Overflow, "overflow", 1),
    ];
    for (fault, text, status) in cases {
        assert_shown(&rt, text, format!(in alloc; "{fault}")?.as_str(), text);
        assert_shown(&rt, text, fault.exit_status(), status);
    }
    Ok(())
}

#[test]
fn every_beginning_ends_well_or_at_a_bad_line(rt: HostRuntime) -> Result<(), Fail> {
    for end in 0..=NUMBERED.len() {
        let got = outcome_of(rt.alloc(), &NUMBERED[..end])?;
        assert_after(&rt, end, got.status == 0 || got.status == 2, true);
        // `number 1 2 1` asks for numbers from an empty range.
        let refused = got.stdout.as_slice() == b"refused\n".as_slice();
        let shown = NUMBERED_SHOWN.starts_with(&got.stdout);
        assert_after(&rt, end, shown || refused, true);
    }
    Ok(())
}

/// A script, how many bytes may be read, how the script ends, and what it prints.
type Bound<'a> = (&'a [u8], u64, Result<(), Fault>, &'a [u8]);

/// Asserts that each script ends as it should, and prints what it should.
fn assert_within(rt: &(impl Abort + AllocGlobal), rows: &[Bound<'_>]) {
    for (script, most_bytes, wanted, shown) in rows {
        let mut out: Vec<u8> = Vec::new(rt.alloc());
        let done = run_within(rt.alloc(), *script, &mut out, *most_bytes);
        assert_after(rt, script.len(), done, *wanted);
        assert_after(rt, script.len(), out.as_slice(), *shown);
    }
}

/// The length of `NUMBERED`.
const NUMBERED_LEN: u64 = NUMBERED.len() as u64;

#[test]
fn reads_no_more_than_the_bound(rt: HostRuntime) {
    assert_within(
        &rt,
        &[
            (NUMBERED, NUMBERED_LEN, Ok(()), NUMBERED_SHOWN),
            // One more byte is a fault of reading, and the lines before it were done.
            (
                b"leaf 6 ab\nleaf 6 c\ninner 5 2\nroot\nnumber 1 2 14\nshow\n\n",
                NUMBERED_LEN,
                Err(Fault::Read),
                NUMBERED_SHOWN,
            ),
            // The line that goes over the bound isn't done.
            (NUMBERED, NUMBERED_LEN - 1, Err(Fault::Read), b""),
        ],
    );
}

/// A line that is longer than most wrong bounds is read whole. It is bad, but not longer than what may be read.
#[test]
fn reads_lines_of_any_length(rt: HostRuntime) {
    let letters = Letters { left: 65 << 20 };
    let mut out: Vec<u8> = Vec::new(rt.alloc());
    let done = run(rt.alloc(), letters, &mut out);
    assert_shown(&rt, "a long line", done, Err(Fault::BadCommand { line: 1 }));
}

/// The text of the tree that a script leaves, and whether the tree is numbered.
fn left(alloc: Global, script: &[u8]) -> Result<(String, bool), Fail> {
    let tree = tree_of(alloc, script)?;
    Ok((tree.full_text(alloc)?, tree.is_numbered()))
}

#[test]
fn leaves_its_tree(rt: HostRuntime) -> Result<(), Fail> {
    let (text, is_numbered) = left(rt.alloc(), NUMBERED)?;
    assert_shown(&rt, "the text", text.as_str(), "abc");
    assert_shown(&rt, "the tree is numbered", is_numbered, true);
    let bad = tree_of(rt.alloc(), b"\nleaf 6 a\n".as_slice()).err();
    assert_shown(&rt, "no root", bad, Some(Fault::BadCommand { line: 2 }));
    Ok(())
}

/// A script of 100,000 line ends, `NUMBERED`, and some bytes more.
fn long_script(alloc: Global, last: &[u8]) -> Result<Vec<u8>, AllocError> {
    let mut script: Vec<u8> = vec![in alloc; b'\n'; 100_000]?;
    script.extend_from_slice(NUMBERED)?;
    script.extend_from_slice(last)?;
    Ok(script)
}

/// Asserts how a long script ends that has some bytes more.
fn assert_long(
    rt: &(impl Abort + AllocGlobal),
    last: &[u8],
    stderr: &str,
    status: u8,
) -> Result<(), Fail> {
    let script = long_script(rt.alloc(), last)?;
    let wanted = Wanted {
        stdout: NUMBERED_SHOWN,
        stderr,
        status,
    };
    assert_outcome(rt, "a long script", &script, wanted)
}

#[test]
fn reads_long_scripts(rt: HostRuntime) -> Result<(), Fail> {
    assert_shown(&rt, "the bound", MOST_BYTES, 1_099_511_627_776);
    assert_long(&rt, b"", "", 0)?;
    assert_long(&rt, b"grow\n", "line 100007: bad command\n", 2)
}

#[test]
fn a_bad_line_counts_before_a_flush_that_fails(rt: HostRuntime) -> Result<(), Fail> {
    let alloc = rt.alloc();
    let mut script: Vec<u8> = Vec::new(alloc);
    script.extend_from_slice(NUMBERED)?;
    script.extend_from_slice(b"grow\n")?;
    for calls_left in 0..NUMBERED_SHOWN.len() + 2 {
        let got = written(alloc, &script, Failure::after(calls_left, false));
        assert_after(
            &rt,
            calls_left,
            got.done,
            Err(Fault::BadCommand { line: 7 }),
        );
    }
    Ok(())
}

#[test]
fn a_reader_that_fails_ends_the_script(rt: HostRuntime) -> Result<(), Fail> {
    let alloc = rt.alloc();
    // One call for each byte, and one for the end.
    for calls_left in 0..NUMBERED.len() + 2 {
        let got = read(alloc, NUMBERED, Failure::after(calls_left, false));
        let done = if calls_left <= NUMBERED.len() {
            Err(Fault::Read)
        } else {
            Ok(())
        };
        assert_after(&rt, calls_left, got.done, done);
        // The last line is `show`, and is read whole by the last call but one.
        let shown = if calls_left < NUMBERED.len() {
            b"".as_slice()
        } else {
            NUMBERED_SHOWN
        };
        assert_after(&rt, calls_left, got.out.as_slice(), shown);
    }
    Ok(())
}

#[test]
fn a_writer_that_fails_ends_the_script(rt: HostRuntime) -> Result<(), Fail> {
    let alloc = rt.alloc();
    for recovers in [false, true] {
        // One call for each byte, and one to flush.
        for calls_left in 0..NUMBERED_SHOWN.len() + 2 {
            let got = written(alloc, NUMBERED, Failure::after(calls_left, recovers));
            let done = if calls_left <= NUMBERED_SHOWN.len() {
                Err(Fault::Write)
            } else {
                Ok(())
            };
            assert_after(&rt, calls_left, got.done, done);
            assert_after(&rt, calls_left, NUMBERED_SHOWN.starts_with(&got.out), true);
            let least = calls_left.min(NUMBERED_SHOWN.len());
            assert_after(&rt, calls_left, least <= got.out.len(), true);
        }
    }
    Ok(())
}

#[test]
fn a_writer_may_fail_in_mid_run(rt: HostRuntime) -> Result<(), Fail> {
    let alloc = rt.alloc();
    let mut script: Vec<u8> = Vec::new(alloc);
    let mut shown: Vec<u8> = Vec::new(alloc);
    script.extend_from_slice(NUMBERED)?;
    shown.extend_from_slice(NUMBERED_SHOWN)?;
    // This is more than a buffer holds.
    for _ in 0..300 {
        script.extend_from_slice(b"show\n")?;
        shown.extend_from_slice(NUMBERED_SHOWN)?;
    }
    for recovers in [false, true] {
        for calls_left in [0, 1, 100, 8191, 8192, 8193, 10000] {
            let got = written(alloc, &script, Failure::after(calls_left, recovers));
            assert_after(&rt, calls_left, got.done, Err(Fault::Write));
            assert_after(&rt, calls_left, shown.starts_with(&got.out), true);
            assert_after(&rt, calls_left, calls_left <= got.out.len(), true);
        }
    }
    Ok(())
}

/// Scripts of replacements and searches.
const ANSWERED: &[Row<'_>] = &[
    (
        "nodes two and three levels below the root",
        b"leaf 55 *\nleaf 6 b\ninner 5 1\nleaf 55 *\ninner 13 3\nleaf 6 c\ninner 5 2\nroot\nnumber 1 2 30\nfind 1 6\nfind 1 7\nfind 1 8\nrun\n",
        b"found 0.1 offset 1\nfound 0.1.0 offset 1\nfound 0.2 offset 2\n",
        "",
        0,
    ),
    (
        "refusals, and a removal between them",
        b"leaf 6 a\ninner 5 1\nroot\nnumber 1 2 4\nleaf 6 z\nreplace - 0 1 1\nreplace - 0 1 0\nleaf 6 z\nreplace - 0 0 1\nfind 1 3\nrun\nshow\n",
        b"refused\ndone window 0..0 tried 1\nrefused\nnot found\n5 2 4 0\n",
        "",
        0,
    ),
    (
        "a replacement, and a search after it",
        b"leaf 6 ab\nleaf 6 c\ninner 5 2\nroot\nnumber 1 2 14\nshow\nleaf 6 x\nreplace - 1 1 1\nfind 1 6\nrun\n",
        b"5 3 14 3\n  6 5 6 2 ab\n  6 7 8 1 c\ndone window 0..3 tried 2\nfound 2 offset 3\n",
        "",
        0,
    ),
    (
        "a search reads numbers alone, and not the file",
        b"leaf 6 ab\nleaf 6 c\ninner 5 2\nroot\nnumber 1 2 14\nfind 1 7\nfind 2 7\nfind 1 6\nfind 1 3\nrun\n",
        b"found 1 offset 2\nfound 1 offset 2\nnot found\nfound - offset 0\n",
        "",
        0,
    ),
    (
        "a tree that isn't numbered serves nothing",
        b"leaf 6 ab\nleaf 6 c\ninner 5 2\nroot\nnumber 1 2 4\nrun\n",
        b"refused\n",
        "line 6: bad command\n",
        2,
    ),
    (
        "an error and a warning",
        b"error m\t#\ninner 13 1\nwarn w\nleaf 6 c\ninner 5 2\nroot\nnumber 1 2 18\nshow\nleaf 6 b\nreplace 0 0 1 1\nrun\n",
        b"5 3 18 2\n  13 4 8 1\n    1 5 6 1 #\n  6 9 10 1 c\ndone window 0..1 tried 1\n",
        "",
        0,
    ),
    (
        "four replacements and a search",
        EDITED,
        EDITED_SHOWN,
        "",
        0,
    ),
];

#[test]
fn answers_replacements_and_searches(rt: HostRuntime) -> Result<(), Fail> {
    assert_rows(&rt, ANSWERED)
}

#[test]
fn every_beginning_of_an_edited_script_ends_well_or_at_a_bad_line(
    rt: HostRuntime,
) -> Result<(), Fail> {
    for end in 0..=EDITED.len() {
        let got = outcome_of(rt.alloc(), &EDITED[..end])?;
        assert_after(&rt, end, got.status == 0 || got.status == 2, true);
    }
    Ok(())
}

#[test]
fn a_reader_may_fail_at_each_call_of_an_edited_script(rt: HostRuntime) -> Result<(), Fail> {
    let alloc = rt.alloc();
    for recovers in [false, true] {
        for calls_left in 0..=EDITED.len() {
            let got = read(alloc, EDITED, Failure::after(calls_left, recovers));
            assert_after(&rt, calls_left, got.done, Err(Fault::Read));
            assert_after(&rt, calls_left, EDITED_SHOWN.starts_with(&got.out), true);
        }
    }
    Ok(())
}

#[test]
fn a_writer_may_fail_at_each_call_of_an_edited_script(rt: HostRuntime) -> Result<(), Fail> {
    let alloc = rt.alloc();
    for calls_left in 0..=EDITED_SHOWN.len() {
        let got = written(alloc, EDITED, Failure::after(calls_left, false));
        assert_after(&rt, calls_left, got.done, Err(Fault::Write));
        assert_after(
            &rt,
            calls_left,
            got.out.as_slice(),
            &EDITED_SHOWN[..calls_left],
        );
    }
    Ok(())
}
