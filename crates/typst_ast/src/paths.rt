//! The file stems of paths.
ghost use Rattle.std.specs.Prelude.{◌≡◌};
ghost use Rattle.std.specs.Option.{option_copied};
ghost use Rattle.typst_ast.specs.Paths.{is_part, last_part, IsFileStemOf, IsStemOf};

/// Whether the part counts: it is neither empty nor a dot.
fn is_part(part: &str) -> bool
    ensures { result ≡ is_part part.now }
{
    !part.is_empty() && part != "."
}

/// The last part of the path that counts.
fn last_part(path: &str) -> Option<&str>
    ensures { option_copied result ≡ last_part path.now }
{
    path.split('/').filter(|part| is_part(part)).last()
}

/// The part without its extension, which begins at its last dot.
fn stem_of(part: &str) -> &str
    ensures { IsStemOf part.now result.now }
{
    match part.rsplit_once('.') {
        Some((stem, _)) => { if stem.is_empty() { part } else { stem } }
        None => part,
    }
}

/// The file stem of a path whose parts are separated by slashes: `b` of `a/b.typ`.
/// Empty parts and parts `.` don't count. There is no stem if no part counts or if the last one is `..`. If a part has
/// several dots, the last dot ends the stem: `a.tar` of `a.tar.gz`. A dot at the beginning doesn't end it: `.x` of
/// `.x`.
pub fn file_stem(path: &str) -> Option<&str>
    ensures { IsFileStemOf path.now (option_copied result) }
{
    let part = last_part(path)?;
    if part == ".." {
        None
    } else {
        Some(stem_of(part))
    }
}
