//! What is read from the texts of leaves.
use std::alloc::Global;
use std::fmt::Display;
use std::process::Abort;
use std::test::Fail;
use typst_atoms::{MathTextKind, views as of};
use typst_base::SyntaxKind;
use typst_node::SyntaxNode;

/// A text, and the words for what is read from a leaf with this text.
type Row = (&'static str, &'static str);

/// Two slashes at the beginning are removed.
const LINE_COMMENTS: [Row; 11] = [
    ("// a", " a"),
    ("//", ""),
    ("", ""),
    ("/", "/"),
    ("a//b", "a//b"),
    ("///", "/"),
    ("////", "//"),
    (" // x", " // x"),
    ("/*x", "/*x"),
    ("// é", " é"),
    ("é//", "é//"),
];

/// Both ends are removed, or neither is.
const BLOCK_COMMENTS: [Row; 13] = [
    ("/*/", "/*/"),
    ("/**/", ""),
    ("/*a*/", "a"),
    ("/* a é */", " a é "),
    ("/***/", "*"),
    ("/*/*/", "/"),
    ("/*a*/*/", "a*/"),
    ("", ""),
    ("/*", "/*"),
    ("*/", "*/"),
    ("/* a", "/* a"),
    ("a*/", "a*/"),
    ("/*a*/ ", "/*a*/ "),
];

/// An escape names a character or a code.
const ESCAPES: [Row; 20] = [
    ("\\u{1F5FA}", "\u{1F5FA}"),
    ("\\u{}", "\0"),
    ("u{41}", "A"),
    ("\\#", "#"),
    ("#", "#"),
    ("", "\0"),
    ("\\", "\0"),
    ("\\\\", "\\"),
    ("\\é", "é"),
    ("\\u", "u"),
    ("\\u{41", "A"),
    ("\\u{4 1}", "\u{4}"),
    ("\\u{g}", "\0"),
    ("\\u{ff}", "ÿ"),
    ("\\u{D7FF}", "\u{D7FF}"),
    ("\\u{D800}", "\0"),
    ("\\u{10FFFF}", "\u{10FFFF}"),
    ("\\u{110000}", "\0"),
    ("\\u{00000000000041}", "A"),
    ("\\u{100000000000000041}", "\0"),
];

/// The first character tells whether the text is a number.
const MATH_TEXTS: [Row; 13] = [
    ("\u{B2}", "number"),
    ("\u{2167}", "number"),
    ("x", "no number"),
    ("", "no number"),
    ("0", "number"),
    ("9.5", "number"),
    ("\u{BD}", "number"),
    ("\u{663}", "number"),
    ("1x", "number"),
    ("x1", "no number"),
    ("-1", "no number"),
    ("é", "no number"),
    ("\u{5341}", "no number"),
];

/// Four bases, and 64 bits.
const INTEGERS: [Row; 24] = [
    ("0x1F", "31"),
    ("9223372036854775808", "0"),
    ("0x", "0"),
    ("0x-1", "-1"),
    ("0x+1", "1"),
    ("0", "0"),
    ("120", "120"),
    ("", "0"),
    ("-", "0"),
    ("--1", "0"),
    ("-5", "-5"),
    ("+7", "7"),
    ("0b101", "5"),
    ("0b2", "0"),
    ("0o17", "15"),
    ("0o8", "0"),
    ("0xfF", "255"),
    ("0X1F", "0"),
    ("12a", "0"),
    (" 1", "0"),
    ("9223372036854775807", "9223372036854775807"),
    ("-9223372036854775808", "-9223372036854775808"),
    ("-9223372036854775809", "0"),
    ("0x8000000000000000", "0"),
];

/// The number ends where its unit begins.
const NUMBERS: [Row; 19] = [
    ("12pt", "12 Pt"),
    ("1e3em", "1e3 Em"),
    ("10e", "10 Percent"),
    ("", " Percent"),
    ("5", "5 Percent"),
    ("50%", "50 Percent"),
    ("1in", "1 In"),
    ("2.5cm", "2.5 Cm"),
    ("3mm", "3 Mm"),
    ("90deg", "90 Deg"),
    ("1.5rad", "1.5 Rad"),
    ("1fr", "1 Fr"),
    ("pt", " Pt"),
    ("1px", "1 Percent"),
    ("1Pt", "1P Percent"),
    ("1%%", "1 Percent"),
    ("1e3", "1e3 Percent"),
    ("12é", "12é Percent"),
    ("é12pt", "é12 Pt"),
];

/// The quotes are removed, and escapes are read.
const STRINGS: [Row; 22] = [
    ("\"a\\u{41}\\x\"", "aA\\x"),
    ("\"", "\""),
    ("\"\\u{41\"", "A"),
    ("\"\\u{110000}\"", "\\u{110000}"),
    ("", ""),
    ("\"\"", ""),
    ("abc", "abc"),
    ("\"abc", "\"abc"),
    ("abc\"", "abc\""),
    ("\"\\\\\"", "\\"),
    ("\"\\\"\"", "\""),
    ("\"\\n\\r\\t\"", "\n\r\t"),
    ("\"\\u{}\"", "\\u{}"),
    ("\"\\u{}}\"", "\\u{}}"),
    ("\"\\u{D800}\"", "\\u{D800}"),
    ("\"\\u{1F5FA}x\"", "\u{1F5FA}x"),
    ("\"\\\"", "\\"),
    ("\"\\é\"", "\\é"),
    ("\"\\u41\"", "\\u41"),
    ("\"\\u{4g}\"", "\u{4}g}"),
    ("\"\\u{100000000000000041}\"", "\\u{100000000000000041}"),
    ("\"\\\\n\"", "\\n"),
];

/// All angle brackets at the ends are removed.
const LABELS: [Row; 15] = [
    ("<<a>>", "a"),
    ("<a>", "a"),
    ("", ""),
    ("<", ""),
    (">", ""),
    ("<>", ""),
    ("<<<", ""),
    ("a", "a"),
    ("<a", "a"),
    ("a>", "a"),
    ("><", "><"),
    ("<a<b>", "a<b"),
    ("<a>b>", "a>b"),
    ("<é>", "é"),
    (" <a>", " <a"),
];

/// Each stands for one character.
const SHORTHANDS: [Row; 12] = [
    ("...", "\u{2026}"),
    ("~", "\u{A0}"),
    ("-", "\u{2212}"),
    ("--", "\u{2013}"),
    ("---", "\u{2014}"),
    ("-?", "\u{AD}"),
    ("+", "\0"),
    ("", "\0"),
    ("..", "\0"),
    ("----", "\0"),
    ("->", "\0"),
    (" -", "\0"),
];

/// Each stands for one character in math.
const MATH_SHORTHANDS: [Row; 13] = [
    ("...", "\u{2026}"),
    ("-", "\u{2212}"),
    ("::=", "\u{2A74}"),
    ("<=", "\u{2264}"),
    ("<==>", "\u{27FA}"),
    ("|->", "\u{21A6}"),
    ("<~~", "\u{2B33}"),
    ("[|", "\u{27E6}"),
    ("||", "\u{2016}"),
    ("--", "\0"),
    ("", "\0"),
    ("=", "\0"),
    ("<<<<", "\0"),
];

/// What is read from the texts of each kind of leaf.
const READINGS: [(SyntaxKind, &[Row]); 10] = [
    (SyntaxKind::LineComment, &LINE_COMMENTS),
    (SyntaxKind::BlockComment, &BLOCK_COMMENTS),
    (SyntaxKind::Escape, &ESCAPES),
    (SyntaxKind::MathText, &MATH_TEXTS),
    (SyntaxKind::Int, &INTEGERS),
    (SyntaxKind::Numeric, &NUMBERS),
    (SyntaxKind::Str, &STRINGS),
    (SyntaxKind::Label, &LABELS),
    (SyntaxKind::Shorthand, &SHORTHANDS),
    (SyntaxKind::MathShorthand, &MATH_SHORTHANDS),
];

/// A value as it is printed.
fn worded<T: Display + Drop>(alloc: Global, value: T) -> Option<String> {
    format!(in alloc; "{value}").ok()
}

/// Whether a text in math is a number.
fn number(view: of::MathText) -> &'static str {
    if matches!(view.get(), MathTextKind::Number(_)) {
        "number"
    } else {
        "no number"
    }
}

/// The words for a number and its unit.
fn numeric(alloc: Global, view: of::Numeric) -> Option<String> {
    let (value, unit) = view.get();
    format!(in alloc; "{value} {unit:?}").ok()
}

/// The words for what is read from a leaf by the view of its kind.
fn reading(alloc: Global, leaf: &SyntaxNode) -> Option<String> {
    match leaf.kind() {
        SyntaxKind::LineComment => worded(alloc, leaf.cast::<of::LineComment>()?.text()),
        SyntaxKind::BlockComment => worded(alloc, leaf.cast::<of::BlockComment>()?.text()),
        SyntaxKind::Escape => worded(alloc, leaf.cast::<of::Escape>()?.get()),
        SyntaxKind::MathText => worded(alloc, number(leaf.cast::<of::MathText>()?)),
        SyntaxKind::Int => worded(alloc, leaf.cast::<of::Int>()?.get()),
        SyntaxKind::Numeric => numeric(alloc, leaf.cast::<of::Numeric>()?),
        SyntaxKind::Str => leaf.cast::<of::Str>()?.get(alloc).ok(),
        SyntaxKind::Label => worded(alloc, leaf.cast::<of::Label>()?.get()),
        SyntaxKind::Shorthand => worded(alloc, leaf.cast::<of::Shorthand>()?.get()),
        SyntaxKind::MathShorthand => worded(alloc, leaf.cast::<of::MathShorthand>()?.get()),
        _ => None,
    }
}

/// What is read from a leaf of this kind with this text.
fn read(alloc: Global, kind: SyntaxKind, text: &str) -> Result<String, Fail> {
    if kind.is_error() {
        return Err("no kind of leaves")?;
    }
    let leaf = SyntaxNode::leaf(alloc, kind, text)?;
    Ok(reading(alloc, &leaf).ok_or("no reading")?)
}

/// Asserts what a text is read as.
fn assert_reading(rt: &impl Abort, kind: SyntaxKind, text: &str, said: &str, wanted: &str) {
    assert_eq!(rt; said, wanted, "{kind:?} {text}");
}

#[test]
fn leaves_are_read(rt: HostRuntime) -> Result<(), Fail> {
    for (kind, rows) in &READINGS {
        for (text, wanted) in *rows {
            let said = read(rt.alloc(), *kind, text)?;
            assert_reading(&rt, *kind, text, &said, wanted);
        }
    }
    Ok(())
}

/// The shorthands of markup, and what each stands for.
const LISTED: &[(&str, char)] = &[
    ("...", '\u{2026}'),
    ("~", '\u{A0}'),
    ("-", '\u{2212}'),
    ("--", '\u{2013}'),
    ("---", '\u{2014}'),
    ("-?", '\u{AD}'),
];

/// The shorthands of math, and what each stands for.
const LISTED_IN_MATH: &[(&str, char)] = &[
    ("...", '\u{2026}'),
    ("-", '\u{2212}'),
    ("*", '\u{2217}'),
    ("~", '\u{223C}'),
    ("!=", '\u{2260}'),
    (":=", '\u{2254}'),
    ("::=", '\u{2A74}'),
    ("=:", '\u{2255}'),
    ("<<", '\u{226A}'),
    ("<<<", '\u{22D8}'),
    (">>", '\u{226B}'),
    (">>>", '\u{22D9}'),
    ("<=", '\u{2264}'),
    (">=", '\u{2265}'),
    ("->", '\u{2192}'),
    ("-->", '\u{27F6}'),
    ("|->", '\u{21A6}'),
    (">->", '\u{21A3}'),
    ("->>", '\u{21A0}'),
    ("<-", '\u{2190}'),
    ("<--", '\u{27F5}'),
    ("<-<", '\u{21A2}'),
    ("<<-", '\u{219E}'),
    ("<->", '\u{2194}'),
    ("<-->", '\u{27F7}'),
    ("~>", '\u{21DD}'),
    ("~~>", '\u{27FF}'),
    ("<~", '\u{21DC}'),
    ("<~~", '\u{2B33}'),
    ("=>", '\u{21D2}'),
    ("|=>", '\u{2907}'),
    ("==>", '\u{27F9}'),
    ("<==", '\u{27F8}'),
    ("<=>", '\u{21D4}'),
    ("<==>", '\u{27FA}'),
    ("[|", '\u{27E6}'),
    ("|]", '\u{27E7}'),
    ("||", '\u{2016}'),
];

#[test]
fn shorthands_are_listed(rt: HostRuntime) {
    assert_eq!(rt; of::Shorthand::LIST, LISTED);
    assert_eq!(rt; of::MathShorthand::LIST, LISTED_IN_MATH);
}
