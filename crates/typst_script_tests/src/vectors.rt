//! The vectors of the folder vectors/ and the repository's examples, written by vectors/embed: change them there.
use crate::asserting::{Wanted, assert_outcome};
use std::process::Abort;
use std::test::Fail;

/// A script, and what it prints and ends with.
struct Vector {
    name: &'static str,
    script: &'static [u8],
    stdout: &'static [u8],
    stderr: &'static str,
    status: u8,
}

/// Asserts that each of some vectors prints and ends with what it should.
fn assert_each(rt: &(impl Abort + AllocGlobal), vectors: &[Vector]) -> Result<(), Fail> {
    for vector in vectors {
        let wanted = Wanted {
            stdout: vector.stdout,
            stderr: vector.stderr,
            status: vector.status,
        };
        assert_outcome(rt, vector.name, vector.script, wanted)?;
    }
    Ok(())
}

/// The vectors `a_blank_behind_a_word` to `an_error_alone`.
fn vectors_1() -> &'static [Vector] {
    &[
        Vector {
            name: "a_blank_behind_a_word",
            script: b"leaf 6 a\nroot \n",
            stdout: b"",
            stderr: "line 2: bad command\n",
            status: 2,
        },
        Vector {
            name: "a_carriage_return",
            script: b"leaf 6 a\r\nroot\r\n",
            stdout: b"",
            stderr: "line 2: bad command\n",
            status: 2,
        },
        Vector {
            name: "a_leaf_alone",
            script: b"leaf 6 ab\nroot\nnumber 1 2 4\nfind 1 3\nreplace - 0 0 0\nrun\nshow\n",
            stdout: b"found - offset 0\nmisfit\n6 3 4 2 ab\n",
            stderr: "",
            status: 0,
        },
        Vector {
            name: "a_new_tree_isnt_numbered",
            script: b"leaf 6 ab\nleaf 6 c\ninner 5 2\nroot\nnumber 1 2 14\nrun\nleaf 6 z\nroot\nrun\n",
            stdout: b"",
            stderr: "line 9: bad command\n",
            status: 2,
        },
        Vector {
            name: "a_number_too_large",
            script: b"inner 5 18446744073709551616\n",
            stdout: b"",
            stderr: "line 1: bad command\n",
            status: 2,
        },
        Vector {
            name: "a_path_that_is_no_path",
            script: b"leaf 6 ab\nleaf 6 c\ninner 5 2\nroot\nnumber 1 2 14\nreplace 0. 0 0 0\n",
            stdout: b"",
            stderr: "line 6: bad command\n",
            status: 2,
        },
        Vector {
            name: "a_refused_numbering_keeps_the_old_one",
            script: b"leaf 6 ab\nleaf 6 c\ninner 5 2\nroot\nnumber 1 2 14\nnumber 1 2 4\nfind 1 7\nrun\nshow\n",
            stdout: b"refused\nfound 1 offset 2\n5 3 14 3\n  6 5 6 2 ab\n  6 7 8 1 c\n",
            stderr: "",
            status: 0,
        },
        Vector {
            name: "an_error_alone",
            script: b"error m\tx\nwarn w\nroot\nnumber 65535 2 3\nfind 1 2\nrun\nshow\n",
            stdout: b"found - offset 0\n1 2 3 1 x\n",
            stderr: "",
            status: 0,
        },
    ]
}

/// The vectors `an_inner_node_alone` to `find_1`.
fn vectors_2() -> &'static [Vector] {
    &[
        Vector {
            name: "an_inner_node_alone",
            script: b"inner 5 0\nroot\nshow\nnumber 1 2 3\nshow\nleaf 6 x\nreplace - 0 0 1\nrun\nshow\n",
            stdout: b"5 1 0 0\n5 2 3 0\nrefused\n5 2 3 0\n",
            stderr: "",
            status: 0,
        },
        Vector {
            name: "asks_before_the_tree",
            script: b"find 1 5\nleaf 6 x\nreplace - 1 1 1\nleaf 6 ab\nleaf 6 c\ninner 5 2\nroot\nnumber 1 2 14\nrun\nshow\n",
            stdout: b"found 0 offset 0\ndone window 0..3 tried 2\n5 3 14 4\n  6 4 5 2 ab\n  6 5 6 1 x\n  6 6 7 1 c\n",
            stderr: "",
            status: 0,
        },
        Vector {
            name: "asks_outlive_a_tree",
            script: b"leaf 6 ab\nleaf 6 c\ninner 5 2\nroot\nnumber 1 2 14\nfind 1 7\nleaf 6 z\ninner 5 1\nroot\nnumber 1 2 14\nrun\n",
            stdout: b"not found\n",
            stderr: "",
            status: 0,
        },
        Vector {
            name: "cut_character_at_the_end",
            script: b"leaf 6 a\nroot\nshow\nleaf 6 \xc3",
            stdout: b"6 1 2 1 a\n",
            stderr: "cannot read\n",
            status: 1,
        },
        Vector {
            name: "empty_lines_no_end_of_line",
            script: b"\n\nleaf 6 a\n\nroot\nshow",
            stdout: b"6 1 2 1 a\n",
            stderr: "",
            status: 0,
        },
        Vector {
            name: "empty_texts",
            script: b"leaf 6 \nleaf 7  \nerror \t\nwarn \ninner 5 3\nroot\nshow\n",
            stdout: b"5 1 0 1\n  6 1 2 0\n  7 1 2 1  \n  1 1 2 0\n",
            stderr: "",
            status: 0,
        },
        Vector {
            name: "errors_number_as_a_kind",
            script: b"leaf 1 x\n",
            stdout: b"",
            stderr: "line 1: bad command\n",
            status: 2,
        },
        Vector {
            name: "find_1",
            script: b"leaf 6 ab\nleaf 6 c\ninner 5 2\nroot\nnumber 1 2 14\nfind 1 1\n",
            stdout: b"",
            stderr: "line 6: bad command\n",
            status: 2,
        },
    ]
}

/// The vectors `find_below_and_above` to `no_utf_8`.
fn vectors_3() -> &'static [Vector] {
    &[
        Vector {
            name: "find_below_and_above",
            script: b"leaf 6 ab\nleaf 6 c\ninner 5 2\nroot\nnumber 1 2 14\nfind 1 2\nfind 1 140737488355327\nrun\nfind 1 140737488355328\n",
            stdout: b"not found\nnot found\n",
            stderr: "line 9: bad command\n",
            status: 2,
        },
        Vector {
            name: "kind_137",
            script: b"leaf 136 x\nleaf 137 x\n",
            stdout: b"",
            stderr: "line 2: bad command\n",
            status: 2,
        },
        Vector {
            name: "last_numbers",
            script: b"leaf 6 ab\nleaf 6 c\ninner 5 2\nroot\nnumber 9 140737488355325 140737488355328\nshow\nnumber 9 140737488355326 140737488355328\n",
            stdout: b"5 140737488355325 140737488355328 3\n  6 140737488355326 140737488355327 2 ab\n  6 140737488355327 140737488355328 1 c\nrefused\n",
            stderr: "",
            status: 0,
        },
        Vector {
            name: "messages_count_at_trimming",
            script: b"error m\tx\ninner 5 1\nroot\nnumber 1 2 40\nerror n\tx\nreplace - 0 1 1\nerror n\tx\nreplace - 0 1 1\nleaf 6 x\nreplace - 0 1 1\nrun\nshow\n",
            stdout: b"done window 0..1 tried 1\ndone window 1..1 tried 1\ndone window 0..1 tried 1\n5 6 40 1\n  6 15 16 1 x\n",
            stderr: "",
            status: 0,
        },
        Vector {
            name: "misfits",
            script: b"leaf 6 ab\nleaf 6 c\ninner 5 2\nroot\nnumber 1 2 14\nreplace - 1 0 0\nreplace - 0 3 0\nreplace 0 0 0 0\nreplace 2 0 0 0\nreplace 0.0 0 0 0\nreplace 18446744073709551615 0 0 0\nreplace - 18446744073709551615 18446744073709551615 0\nrun\nshow\n",
            stdout: b"misfit\nmisfit\nmisfit\nmisfit\nmisfit\nmisfit\nmisfit\n5 3 14 3\n  6 5 6 2 ab\n  6 7 8 1 c\n",
            stderr: "",
            status: 0,
        },
        Vector {
            name: "no_blank_before_the_text",
            script: b"leaf 6 \nleaf 6\n",
            stdout: b"",
            stderr: "line 2: bad command\n",
            status: 2,
        },
        Vector {
            name: "no_tab",
            script: b"error \t\nerror m t\n",
            stdout: b"",
            stderr: "line 2: bad command\n",
            status: 2,
        },
        Vector {
            name: "no_utf_8",
            script: b"leaf 6 a\nroot\nshow\nleaf 6 \xff\n",
            stdout: b"6 1 2 1 a\n",
            stderr: "cannot read\n",
            status: 1,
        },
    ]
}

/// The vectors `nothing` to `show_without_a_tree`.
fn vectors_4() -> &'static [Vector] {
    &[
        Vector {
            name: "nothing",
            script: b"",
            stdout: b"",
            stderr: "",
            status: 0,
        },
        Vector {
            name: "number_without_a_tree",
            script: b"number 1 2 14\n",
            stdout: b"",
            stderr: "line 1: bad command\n",
            status: 2,
        },
        Vector {
            name: "numbered_again",
            script: b"leaf 6 ab\nleaf 6 c\ninner 5 2\nroot\nnumber 1 2 14\nnumber 7 1000 1012\nfind 1 1005\nfind 1 7\nrun\nshow\n",
            stdout: b"found 1 offset 2\nnot found\n5 1001 1012 3\n  6 1003 1004 2 ab\n  6 1005 1006 1 c\n",
            stderr: "",
            status: 0,
        },
        Vector {
            name: "popping_too_many",
            script: b"leaf 6 a\ninner 5 18446744073709551615\n",
            stdout: b"",
            stderr: "line 2: bad command\n",
            status: 2,
        },
        Vector {
            name: "root_with_none",
            script: b"root\n",
            stdout: b"",
            stderr: "line 1: bad command\n",
            status: 2,
        },
        Vector {
            name: "root_with_two",
            script: b"leaf 6 a\nleaf 6 b\nroot\n",
            stdout: b"",
            stderr: "line 3: bad command\n",
            status: 2,
        },
        Vector {
            name: "run_twice",
            script: b"leaf 6 ab\nleaf 6 c\ninner 5 2\nroot\nnumber 1 2 14\nfind 1 7\nrun\nrun\nfind 1 5\nrun\n",
            stdout: b"found 1 offset 2\nfound 0 offset 0\n",
            stderr: "",
            status: 0,
        },
        Vector {
            name: "show_without_a_tree",
            script: b"leaf 6 a\nshow\n",
            stdout: b"",
            stderr: "line 2: bad command\n",
            status: 2,
        },
    ]
}

/// The vectors `tabs_and_blanks_in_texts` to `heading`.
fn vectors_5() -> &'static [Vector] {
    &[
        Vector {
            name: "tabs_and_blanks_in_texts",
            script: b"leaf 6 a\tb \nerror m m\tt\tt \nwarn  w\ninner 5 2\nroot\nshow\n",
            stdout: b"5 1 0 8\n  6 1 2 4 a\tb \n  1 1 2 4 t\tt \n",
            stderr: "",
            status: 0,
        },
        Vector {
            name: "trimming_of_equal_neighbours",
            script: b"leaf 6 a\nleaf 6 a\nleaf 6 b\nleaf 6 a\nleaf 6 a\ninner 5 5\nroot\nnumber 1 2 100\nleaf 6 a\nleaf 6 a\nleaf 6 a\nleaf 6 a\nreplace - 0 5 4\nrun\nshow\nleaf 6 a\nleaf 6 a\nleaf 6 a\nleaf 6 a\nleaf 6 a\nleaf 6 a\nreplace - 0 4 6\nrun\nshow\n",
            stdout: b"done window 2..2 tried 1\n5 6 100 4\n  6 14 15 1 a\n  6 22 23 1 a\n  6 38 39 1 a\n  6 46 47 1 a\ndone window 4..6 tried 1\n5 6 100 6\n  6 14 15 1 a\n  6 22 23 1 a\n  6 38 39 1 a\n  6 46 47 1 a\n  6 53 54 1 a\n  6 66 67 1 a\n",
            stderr: "",
            status: 0,
        },
        Vector {
            name: "warnings_count_at_trimming",
            script: b"leaf 6 a\nwarn w\nleaf 6 b\ninner 5 2\nroot\nnumber 1 2 40\nleaf 6 a\nleaf 6 b\nreplace - 0 2 2\nleaf 6 a\nwarn v\nleaf 6 b\nreplace - 0 2 2\nleaf 6 a\nwarn v\nleaf 6 b\nreplace - 0 2 2\nrun\nshow\n",
            stdout: b"done window 0..1 tried 1\ndone window 0..1 tried 1\ndone window 2..2 tried 1\n5 5 40 2\n  6 8 9 1 a\n  6 17 18 1 b\n",
            stderr: "",
            status: 0,
        },
        Vector {
            name: "whole_range",
            script: b"leaf 6 ab\nleaf 6 c\ninner 5 2\nroot\nnumber 1 2 140737488355328\nshow\nnumber 1 2 140737488355329\n",
            stdout: b"5 11728124029612 140737488355328 3\n  6 35184372088833 35184372088834 2 ab\n  6 58640620148054 58640620148055 1 c\n",
            stderr: "line 7: bad command\n",
            status: 2,
        },
        Vector {
            name: "zeros_before_numbers",
            script: b"leaf 00000000000000000000000000006 a\ninner 05 01\nroot\nnumber 001 02 0000000000000000000000000000099\nfind 0001 00026\nreplace - 00 01 00\nrun\nshow\n",
            stdout: b"not found\ndone window 0..0 tried 1\n5 14 99 0\n",
            stderr: "",
            status: 0,
        },
        Vector {
            name: "edited",
            script: b"leaf 55 *\nleaf 6 b\ninner 5 1\nleaf 55 *\ninner 13 3\nleaf 6 c\ninner 5 2\nroot\nnumber 1 2 30\nleaf 6 x\nleaf 6 y\ninner 5 2\nreplace 0 1 2 1\nfind 1 15\nleaf 6 x\nleaf 6 y\nreplace 0.1 0 1 2\nreplace 5 0 0 0\nreplace 1 0 0 0\nrun\nshow\n",
            stdout: b"done window 0..3 tried 2\nfound 1 offset 4\nrefused\nmisfit\nmisfit\n5 3 30 5\n  13 4 14 4\n    55 5 6 1 *\n    5 6 9 2\n      6 7 8 1 x\n      6 8 9 1 y\n    55 9 10 1 *\n  6 15 16 1 c\n",
            stderr: "",
            status: 0,
        },
        Vector {
            name: "found",
            script: b"leaf 6 ab\nleaf 6 c\ninner 5 2\nroot\nnumber 1 2 14\nshow\nleaf 6 x\nreplace - 1 1 1\nfind 1 6\nrun\n",
            stdout: b"5 3 14 3\n  6 5 6 2 ab\n  6 7 8 1 c\ndone window 0..3 tried 2\nfound 2 offset 3\n",
            stderr: "",
            status: 0,
        },
        Vector {
            name: "heading",
            script: b"leaf 24 =\nleaf 7  \nleaf 6 Gr\xc3\xb6\xc3\x9fe\ninner 5 1\ninner 23 3\nleaf 7  \nleaf 6 Hello\nleaf 7  \nleaf 55 *\nleaf 6 world\ninner 5 1\nleaf 55 *\ninner 13 3\ninner 98 0\ninner 5 6\nroot\n\nshow\nnumber 1 2 10\nnumber 1 2 302\nshow\nnumber 2 2 20\nshow\n",
            stdout: b"5 1 0 23\n  23 1 0 9\n    24 1 2 1 =\n    7 1 2 1  \n    5 1 0 7\n      6 1 2 7 Gr\xc3\xb6\xc3\x9fe\n  7 1 2 1  \n  6 1 2 5 Hello\n  7 1 2 1  \n  13 1 0 7\n    55 1 2 1 *\n    5 1 0 5\n      6 1 2 5 world\n    55 1 2 1 *\n  98 1 0 0\nrefused\n5 7 302 23\n  23 14 62 9\n    24 19 20 1 =\n    7 24 25 1  \n    5 28 37 7\n      6 30 31 7 Gr\xc3\xb6\xc3\x9fe\n  7 67 68 1  \n  6 77 78 5 Hello\n  7 87 88 1  \n  13 94 142 7\n    55 99 100 1 *\n    5 103 112 5\n      6 105 106 5 world\n    55 114 115 1 *\n  98 144 152 0\n5 2 20 23\n  23 3 8 9\n    24 4 5 1 =\n    7 5 6 1  \n    5 6 8 7\n      6 7 8 7 Gr\xc3\xb6\xc3\x9fe\n  7 8 9 1  \n  6 9 10 5 Hello\n  7 10 11 1  \n  13 11 16 7\n    55 12 13 1 *\n    5 13 15 5\n      6 14 15 5 world\n    55 15 16 1 *\n  98 16 17 0\n",
            stderr: "",
            status: 0,
        },
    ]
}

/// The vectors `inserted` to `numbered`.
fn vectors_6() -> &'static [Vector] {
    &[
        Vector {
            name: "inserted",
            script: b"leaf 6 a\nleaf 6 b\nleaf 6 c\nleaf 6 d\nleaf 6 e\ninner 5 5\nroot\nnumber 1 2 34\nshow\nleaf 6 x\nreplace - 2 2 1\nrun\nshow\n",
            stdout: b"5 3 34 5\n  6 5 6 1 a\n  6 7 8 1 b\n  6 9 10 1 c\n  6 11 12 1 d\n  6 13 14 1 e\ndone window 0..5 tried 3\n5 3 34 6\n  6 4 5 1 a\n  6 5 6 1 b\n  6 6 7 1 x\n  6 7 8 1 c\n  6 8 9 1 d\n  6 13 14 1 e\n",
            stderr: "",
            status: 0,
        },
        Vector {
            name: "numbered",
            script: b"leaf 6 ab\nleaf 6 c\ninner 5 2\nroot\nnumber 1 2 14\nshow\n",
            stdout: b"5 3 14 3\n  6 5 6 2 ab\n  6 7 8 1 c\n",
            stderr: "",
            status: 0,
        },
    ]
}

/// Asserts that each vector prints and ends with what it should.
pub(crate) fn assert_vectors(rt: &(impl Abort + AllocGlobal)) -> Result<(), Fail> {
    assert_each(rt, vectors_1())?;
    assert_each(rt, vectors_2())?;
    assert_each(rt, vectors_3())?;
    assert_each(rt, vectors_4())?;
    assert_each(rt, vectors_5())?;
    assert_each(rt, vectors_6())?;
    Ok(())
}
