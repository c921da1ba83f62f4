//! The stems of files, and the names that imports bring in.
use crate::rows::{assert_row, assert_text};
use crate::trees::view;
use std::alloc::{AllocError, Global};
use std::test::Fail;
use typst_ast::{file_stem, views as of};
use typst_drawn::{DrawingError, drawn};

/// Paths, and the stems of their files.
const STEMS: [(&str, Option<&str>); 14] = [
    ("a/b.typ", Some("b")),
    (".x", Some(".x")),
    ("a.tar.gz", Some("a.tar")),
    ("a/.", Some("a")),
    ("a//b/", Some("b")),
    ("", None),
    ("/", None),
    (".", None),
    ("..", None),
    ("a/..", None),
    ("../a", Some("a")),
    ("a.", Some("a")),
    ("...", Some("..")),
    ("a/b/c", Some("c")),
];

#[test]
fn stems_of_files(rt: HostRuntime) {
    for (path, stem) in &STEMS {
        assert_row(&rt, path, file_stem(path) == *stem);
    }
}

/// What a package is called by its manifest: its name, nothing, or that memory was refused.
#[derive(Clone, Copy)]
enum Called {
    Name(&'static str),
    Nothing,
    Refused,
}

/// What the reader of packages answers.
fn answer_of(alloc: Global, package: Called) -> Result<Option<String>, AllocError> {
    match package {
        Called::Name(name) => Ok(Some(String::from_str(alloc, name)?)),
        Called::Nothing => Ok(None),
        Called::Refused => Err(AllocError),
    }
}

/// The name that an import without one of its own binds, or the error that says why there is none. Either each word
/// fits a name or none does, and each package is called the same.
fn named(
    alloc: Global,
    import: of::ModuleImport,
    fits: bool,
    package: Called,
) -> Result<String, AllocError> {
    match import.bare_name(alloc, |_: &str| fits, |_: &str| answer_of(alloc, package))? {
        Ok(name) => Ok(name),
        Err(error) => format!(in alloc; "{error:?}"),
    }
}

/// What is shown, a drawing, whether each word fits a name, what a package is called, and the name that the import
/// binds, the error that says why there is none, or that memory was refused. A drawing of something else stands for
/// the placeholder.
type Row = (&'static str, &'static str, bool, Called, &'static str);

/// Which names imports bring in.
const NAMED: [Row; 9] = [
    (
        "a path",
        "ModuleImport[ Import:import Str:\"a/b.typ\" ]",
        true,
        Called::Nothing,
        "b",
    ),
    (
        "a path whose stem is no name",
        "ModuleImport[ Import:import Str:\"a/b.typ\" ]",
        false,
        Called::Nothing,
        "PathInvalid",
    ),
    (
        "a path without a stem",
        "ModuleImport[ Import:import Str:\"a/..\" ]",
        true,
        Called::Nothing,
        "PathInvalid",
    ),
    (
        "a number",
        "ModuleImport[ Import:import Int:1 ]",
        true,
        Called::Nothing,
        "Dynamic",
    ),
    (
        "a package",
        "ModuleImport[ Import:import Str:\"@preview/cetz:0.1.0\" ]",
        true,
        Called::Name("cetz"),
        "cetz",
    ),
    (
        "a package without a name",
        "ModuleImport[ Import:import Str:\"@preview/cetz:0.1.0\" ]",
        true,
        Called::Nothing,
        "PackageInvalid",
    ),
    (
        "a package whose name is refused memory",
        "ModuleImport[ Import:import Str:\"@preview/cetz:0.1.0\" ]",
        true,
        Called::Refused,
        "memory was refused",
    ),
    ("no import", "Space:~", true, Called::Nothing, "Dynamic"),
    (
        "an import of nothing",
        "ModuleImport[ ]",
        true,
        Called::Nothing,
        "Dynamic",
    ),
];

/// The name that a row's import brings in.
fn named_by(alloc: Global, row: &Row) -> Result<String, DrawingError> {
    let (_, drawing, fits, package, _) = row;
    let tree = drawn(alloc, drawing)?;
    match named(alloc, view(Some(&tree)), *fits, *package) {
        Ok(name) => Ok(name),
        Err(_) => Ok(String::from_str(alloc, "memory was refused")?),
    }
}

#[test]
fn a_source_names_its_module(rt: HostRuntime) -> Result<(), Fail> {
    for row in &NAMED {
        let said = named_by(rt.alloc(), row)?;
        assert_text(&rt, row.0, &said, row.4);
    }
    Ok(())
}
