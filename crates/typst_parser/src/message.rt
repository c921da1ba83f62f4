//! What errors say.
ghost use Rattle.std.specs.Char.{is_ascii_alphanumeric, is_ascii_digit};
ghost use Rattle.std.specs.List.{prefix_len};
ghost use Rattle.std.specs.Prelude.{◌≡◌, ◌≤◌, ◌<◌, ◌++◌, true, length, take, drop, slice_index, string_bytes, IfOk};
ghost use Rattle.std.specs.Str.{IsCharBoundary};
ghost use Rattle.typst_node.specs.Converted.{expected_message, unexpected_message};
ghost use Rattle.typst_grammar.specs.Expectations.{expectation_what};
ghost use Rattle.typst_parser.specs.Growth.{faulty_tree};
ghost use Rattle.typst_parser.specs.Faults.{based_len, begins_exponent, character_message, digits_in, duplicate_message, exponent_len, fault_text, is_base_mark, is_digit_or_sign, mantissa_len, name_in, number_len, unique_word, without_end};

use crate::fault::Fault;
use crate::hint::hints;
use std::alloc::{AllocError, Global};
use typst_base::SyntaxKind;
use typst_grammar::{Expectation, Unique};
use typst_node::SyntaxNode;

/// What is said of a link with a bracket that isn't closed.
const UNBALANCED: &str =
    "automatic links cannot contain unbalanced brackets, use the `link` function instead";

/// What the names are that may not come again.
fn unique_word(unique: Unique) -> &'static str
    ensures { result.now ≡ unique_word unique }
{
    match unique {
        Unique::Argument => "argument",
        Unique::Parameter => "parameter",
        Unique::Binding => "binding",
        Unique::Key => "key",
        Unique::Sink => "sink",
    }
}

/// The text without its last byte, if that is this one.
fn without_end(byte: u8, text: &str) -> &str
    requires { byte < 128 }
    ensures { result.now ≡ without_end byte text.now }
{
    let len = text.len();
    if len > 0 && text.as_bytes()[len - 1] == byte {
        text.split_at(len - 1).0
    } else {
        text
    }
}

/// A name, or the value of a string.
fn name_in(text: &str) -> &str
    ensures { result.now ≡ name_in text.now }
{
    if matches!(text.as_bytes(), [b'"', ..]) {
        without_end(b'"', text.split_at(1).1)
    } else {
        text
    }
}

/// What is between the braces of `\u{..}`.
fn digits_in(text: &str) -> &str
    ensures { result.now ≡ digits_in text.now }
{
    if matches!(text.as_bytes(), [_, _, b'{', ..]) {
        without_end(b'}', text.split_at(3).1)
    } else {
        text
    }
}

/// How many ASCII digits come first.
fn digits(bytes: &[u8]) -> usize
    ensures len { result ≡ prefix_len is_ascii_digit bytes.now }
    ensures within { result ≤ length bytes.now }
{
    bytes.iter().take_while(|b| b.is_ascii_digit()).count()
}

/// How many ASCII letters and digits come first.
fn letters(bytes: &[u8]) -> usize
    ensures len { result ≡ prefix_len is_ascii_alphanumeric bytes.now }
    ensures within { result ≤ length bytes.now }
{
    bytes
        .iter()
        .take_while(|b| b.is_ascii_alphanumeric())
        .count()
}

/// How many digits and signs come first.
fn power_len(bytes: &[u8]) -> usize
    ensures len { result ≡ prefix_len is_digit_or_sign bytes.now }
    ensures within { result ≤ length bytes.now }
{
    bytes
        .iter()
        .take_while(|b| b.is_ascii_digit() || **b == b'+' || **b == b'-')
        .count()
}

/// How many digits and dots come first.
fn mantissa_len(bytes: &[u8]) -> usize
    ensures len { result ≡ mantissa_len bytes.now }
    ensures within { result ≤ length bytes.now }
{
    bytes
        .iter()
        .take_while(|b| b.is_ascii_digit() || **b == b'.')
        .count()
}

/// Whether an exponent is next. `em` is a unit.
fn begins_exponent(bytes: &[u8]) -> bool
    ensures exponent { result ≡ begins_exponent bytes.now }
    ensures some { result ≡ true → 0 < length bytes.now }
{
    matches!(bytes, [b'E', ..]) || (matches!(bytes, [b'e', ..]) && !matches!(bytes, [_, b'm', ..]))
}

/// The length of an exponent, if one is next.
fn exponent_len(bytes: &[u8]) -> usize
    ensures len { result ≡ exponent_len bytes.now }
    ensures within { result ≤ length bytes.now }
{
    if begins_exponent(bytes) {
        power_len(&bytes[1..]) + 1
    } else {
        0
    }
}

/// Whether a number begins with `0b` or `0o`.
fn has_digits(bytes: &[u8]) -> bool
    ensures mark { result ≡ is_base_mark (slice_index bytes.now 1) }
    ensures some { result ≡ true → 2 ≤ length bytes.now }
{
    matches!(bytes, [_, b'b' | b'o', ..])
}

/// The length of a number without its suffix.
fn number_len(text: &str) -> usize
    ensures len { result ≡ number_len text.now }
    ensures within { result ≤ length text.now }
    ensures boundary { IsCharBoundary text.now result }
{
    let bytes = text.as_bytes();
    let mantissa = mantissa_len(bytes);
    mantissa + exponent_len(&bytes[mantissa..])
}

/// The length of a number with a base and without its suffix.
fn based_len(text: &str) -> usize
    ensures len { result ≡ based_len text.now }
    ensures within { result ≤ length text.now }
    ensures boundary { IsCharBoundary text.now result }
{
    let bytes = text.as_bytes();
    if has_digits(bytes) {
        digits(&bytes[2..]) + 2
    } else {
        letters(bytes)
    }
}

/// The number without its suffix.
fn based_part(text: &str) -> &str
    ensures { result.now ≡ take (based_len text.now) text.now }
{
    text.split_at(based_len(text)).0
}

/// The number without its suffix, and the suffix.
fn number_parts(text: &str) -> (&str, &str)
    ensures number { result.0.now ≡ take (number_len text.now) text.now }
    ensures suffix { result.1.now ≡ drop (number_len text.now) text.now }
{
    text.split_at(number_len(text))
}

/// A kind isn't expected.
fn unexpected(alloc: Global, kind: SyntaxKind) -> Result<String, AllocError>
    ensures { IfOk result (λ s. string_bytes s ≡ unexpected_message kind) }
{
    let name = kind.name();
    format!(in alloc; "unexpected {name}")
}

/// Something else is expected than a kind.
fn mistake(alloc: Global, what: Expectation, kind: SyntaxKind) -> Result<String, AllocError>
    ensures { IfOk result (λ s. string_bytes s ≡ expected_message (expectation_what what) kind) }
{
    let what = what.what();
    let name = kind.name();
    format!(in alloc; "expected {what}, found {name}")
}

/// A name comes again.
fn duplicate(alloc: Global, unique: Unique, text: &str) -> Result<String, AllocError>
    ensures { IfOk result (λ s. string_bytes s ≡ duplicate_message unique text.now) }
{
    let what = unique_word(unique);
    let name = name_in(text);
    format!(in alloc; "duplicate {what}: {name}")
}

/// A character isn't valid in code.
fn invalid_character(alloc: Global, text: &str) -> Result<String, AllocError>
    ensures { IfOk result (λ s. string_bytes s ≡ character_message text.now) }
{
    format!(in alloc; "the character `{text}` is not valid in code")
}

/// A message that is always the same.
fn said(alloc: Global, message: &'static str) -> Result<String, AllocError>
    ensures { IfOk result (λ s. string_bytes s ≡ message.now) }
{
    String::from_str(alloc, message)
}

/// A message with a part of the text at its end.
fn with_end(alloc: Global, message: &str, part: &str) -> Result<String, AllocError>
    ensures { IfOk result (λ s. string_bytes s ≡ message.now ++ part.now) }
{
    format!(in alloc; "{message}{part}")
}

/// What an error with this text says.
fn message(alloc: Global, fault: Fault, text: &str) -> Result<String, AllocError>
    ensures { IfOk result (λ s. string_bytes s ≡ fault_text fault text.now) }
{
    match fault {
        Fault::Unexpected(kind) => unexpected(alloc, kind),
        Fault::Expected(what) => said(alloc, what.text()),
        Fault::Mistake(what, kind) => mistake(alloc, what, kind),
        Fault::Unclosed => said(alloc, "unclosed delimiter"),
        Fault::TooDeep => said(alloc, "too many open delimiters"),
        Fault::TooTall => said(alloc, "too many levels"),
        Fault::NoRow => said(alloc, "unexpected token"),
        Fault::Duplicate(what) => duplicate(alloc, what, text),
        Fault::SecondSink => said(alloc, "only one argument sink is allowed"),
        Fault::SecondSinkOfPattern => said(alloc, "only one destructuring sink is allowed"),
        Fault::CommentEnd => said(alloc, "unexpected end of block comment"),
        Fault::UnclosedRaw => said(alloc, "unclosed raw text"),
        Fault::UnclosedEscape => said(alloc, "unclosed Unicode escape sequence"),
        Fault::InvalidEscape => with_end(alloc, "invalid Unicode codepoint: ", digits_in(text)),
        Fault::UnbalancedLink => said(alloc, UNBALANCED),
        Fault::UnclosedLabel => said(alloc, "unclosed label"),
        Fault::UnclosedStr => said(alloc, "unclosed string"),
        Fault::InvalidBinary => with_end(alloc, "invalid binary number: ", based_part(text)),
        Fault::InvalidOctal => with_end(alloc, "invalid octal number: ", based_part(text)),
        Fault::InvalidHexadecimal => with_end(
            alloc,
            "invalid hexadecimal number: ",
            based_part(text),
        ),
        Fault::SuffixedBinary => said(alloc, "binary numbers cannot have a suffix"),
        Fault::SuffixedOctal => said(alloc, "octal numbers cannot have a suffix"),
        Fault::SuffixedHexadecimal => said(alloc, "hexadecimal numbers cannot have a suffix"),
        Fault::InvalidFloat => with_end(
            alloc,
            "invalid floating point number: ",
            number_parts(text).0,
        ),
        Fault::InvalidSuffix => with_end(alloc, "invalid number suffix: ", number_parts(text).1),
        Fault::InvalidCharacter => invalid_character(alloc, text),
    }
}

/// The error of a fault with this text, with its hints.
pub(crate) fn error_of(alloc: Global, fault: Fault, text: &str) -> Result<SyntaxNode, AllocError>
    ensures { IfOk result (λ t. t ≡ faulty_tree fault text.now) }
{
    let message = message(alloc, fault, text)?;
    let hints = hints(alloc, fault, text)?;
    SyntaxNode::error(alloc, message.as_str(), text)?.with_hints(alloc, hints)
}
