//! The hints of errors.
ghost use Rattle.std.specs.Prelude.{◌≡◌, ◌&&◌, ◌∷◌, [], map, string_bytes, IfOk};
ghost use Rattle.typst_base.specs.KindClasses.{is_keyword_kind};
ghost use Rattle.typst_node.specs.Converted.{keyword_hints, keyword_message, wants_name};
ghost use Rattle.typst_node.specs.Hints.{plain_hints};
ghost use Rattle.typst_parser.specs.FaultHints.{character_hints, fault_hints};
ghost use Rattle.typst_grammar.specs.Expectations.{expectation_what};

use crate::fault::Fault;
use std::alloc::{AllocError, Global};
use typst_base::SyntaxKind;
use typst_grammar::Expectation;

/// The hint at `*/` outside of a block comment.
const COMMENT: &str =
    "consider escaping the `*` with a backslash or opening the block comment with `/*`";

/// A list of one hint.
fn only(alloc: Global, hint: &str) -> Result<Vec<String>, AllocError>
    ensures { IfOk result (λ hints. map string_bytes hints.items ≡ hint.now ∷ []) }
{
    let hint = String::from_str(alloc, hint)?;
    Ok(vec![in alloc; hint]?)
}

/// A list of two hints.
fn both(alloc: Global, one: &str, other: &str) -> Result<Vec<String>, AllocError>
    ensures { IfOk result (λ hints. map string_bytes hints.items ≡ one.now ∷ other.now ∷ []) }
{
    let mut hints = only(alloc, one)?;
    hints.push(String::from_str(alloc, other)?)?;
    Ok(hints)
}

/// The hints at a character that isn't valid in code.
fn character_hints(alloc: Global, text: &str) -> Result<Vec<String>, AllocError>
    ensures { IfOk result (λ hints. map string_bytes hints.items ≡ character_hints text.now) }
{
    match text.as_bytes() {
        b"#" => both(
            alloc,
            "this is code already: try removing the hash",
            "to write a hash as text, escape it: `\\#`",
        ),
        b"&" => only(alloc, "in Typst, `and` is used for logical AND"),
        b"|" => only(alloc, "in Typst, `or` is used for logical OR"),
        _ => Ok(Vec::new(alloc)),
    }
}

/// What is said of a keyword in place of a name.
fn keyword_message(alloc: Global, text: &str) -> Result<String, AllocError>
    ensures { IfOk result (λ s. string_bytes s ≡ keyword_message text.now) }
{
    format!(in alloc; "keyword `{text}` is not allowed as an identifier; try `{text}_` instead")
}

/// Whether a name was expected in place of a keyword.
fn misses_name(what: Expectation, kind: SyntaxKind) -> bool
    ensures { result ≡ (is_keyword_kind kind && wants_name (expectation_what what)) }
{
    let what = what.what();
    kind.is_keyword() && (what == "identifier" || what == "pattern")
}

/// The hint at a keyword, if a name was expected.
fn keyword_hints(
    alloc: Global,
    what: Expectation,
    kind: SyntaxKind,
    text: &str,
) -> Result<Vec<String>, AllocError>
    ensures { IfOk result (λ hints. plain_hints (map string_bytes hints.items)
        ≡ keyword_hints (expectation_what what) kind text.now) }
{
    let mut hints = Vec::new(alloc);
    if misses_name(what, kind) {
        hints.push(keyword_message(alloc, text)?)?;
    }
    Ok(hints)
}

/// The hints of an error with this text.
pub(crate) fn hints(alloc: Global, fault: Fault, text: &str) -> Result<Vec<String>, AllocError>
    ensures { IfOk result (λ hints. plain_hints (map string_bytes hints.items) ≡ fault_hints fault text.now) }
{
    match fault {
        Fault::Mistake(what, kind) => keyword_hints(alloc, what, kind, text),
        Fault::CommentEnd => only(alloc, COMMENT),
        Fault::InvalidCharacter => character_hints(alloc, text),
        _ => Ok(Vec::new(alloc)),
    }
}
