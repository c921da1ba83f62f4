//! Texts of code and math and their tokens, as the rules of the language give them.

use crate::lexer::rows::are_cut;
use std::test::Fail;
use typst_lexer::{Behind, Mode, first_token};

/// Texts of code with numbers and strings.
const NUMBERS: &[(&str, &str)] = &[
    ("1", "Int[1]"),
    ("9223372036854775807", "Int[9223372036854775807]"),
    ("9223372036854775808", "Float[9223372036854775808]"),
    ("1.5", "Float[1.5]"),
    ("1.", "Float[1.]"),
    (".5", "Float[.5]"),
    ("1..2", "Int[1]Dots[..]Int[2]"),
    ("1.a", "Int[1]Field[.]Ident[a]"),
    ("1e5", "Float[1e5]"),
    ("1E-5", "Float[1E-5]"),
    ("1em", "Numeric[1em]"),
    ("1.5e2em", "Numeric[1.5e2em]"),
    ("12pt", "Numeric[12pt]"),
    ("50%", "Numeric[50%]"),
    ("1deg", "Numeric[1deg]"),
    ("1fr-2mm", "Numeric[1fr]Minus[-]Numeric[2mm]"),
    ("1px", "InvalidSuffix[1px]"),
    ("1ptx", "InvalidSuffix[1ptx]"),
    ("1e", "InvalidFloat[1e]"),
    ("1e+", "InvalidFloat[1e+]"),
    ("1e+pt", "InvalidFloat[1e+pt]"),
    ("0b101", "Int[0b101]"),
    ("0b102", "InvalidBinary[0b102]"),
    ("0b", "InvalidBinary[0b]"),
    ("0b1pt", "SuffixedBinary[0b1pt]"),
    ("0o17", "Int[0o17]"),
    ("0o18", "InvalidOctal[0o18]"),
    ("0o1%", "SuffixedOctal[0o1%]"),
    ("0xfF", "Int[0xfF]"),
    ("0xg", "InvalidHexadecimal[0xg]"),
    ("0x7fffffffffffffff", "Int[0x7fffffffffffffff]"),
    (
        "0x8000000000000000",
        "InvalidHexadecimal[0x8000000000000000]",
    ),
    ("0x1%", "SuffixedHexadecimal[0x1%]"),
    ("\"a\\\"b\"c", "Str[\"a\\\"b\"]Ident[c]"),
    ("\"a\\\\\"", "Str[\"a\\\\\"]"),
    ("\"a", "UnclosedStr[\"a]"),
];

#[test]
fn numbers(rt: HostRuntime) -> Result<(), Fail> {
    are_cut(&rt, rt.alloc(), Mode::Code, NUMBERS)
}

/// Texts of code with names, signs and the rest.
const CODE: &[(&str, &str)] = &[
    ("a-b_c1 d", "Ident[a-b_c1]Space[ ]Ident[d]"),
    ("ä\u{a0}b", "Ident[ä]Space[\u{a0}]Ident[b]"),
    ("_", "Underscore[_]"),
    ("_a", "Ident[_a]"),
    (
        "none auto true",
        "None[none]Space[ ]Auto[auto]Space[ ]Bool[true]",
    ),
    (
        "false not and or",
        "Bool[false]Space[ ]Not[not]Space[ ]And[and]Space[ ]Or[or]",
    ),
    (
        "let set show context",
        "Let[let]Space[ ]Set[set]Space[ ]Show[show]Space[ ]Context[context]",
    ),
    (
        "if else for in while",
        "If[if]Space[ ]Else[else]Space[ ]For[for]Space[ ]In[in]Space[ ]While[while]",
    ),
    (
        "break continue return",
        "Break[break]Space[ ]Continue[continue]Space[ ]Return[return]",
    ),
    (
        "import include as",
        "Import[import]Space[ ]Include[include]Space[ ]As[as]",
    ),
    ("lets", "Ident[lets]"),
    ("a.let", "Ident[a]Field[.]Ident[let]"),
    ("a. let", "Ident[a]Dot[.]Space[ ]Let[let]"),
    ("..let", "Dots[..]Let[let]"),
    ("@let", "InvalidCharacter[@]Ident[let]"),
    ("a..b", "Ident[a]Dots[..]Ident[b]"),
    (
        "== != <= >=",
        "EqEq[==]Space[ ]ExclEq[!=]Space[ ]LtEq[<=]Space[ ]GtEq[>=]",
    ),
    (
        "+= -= *= /=",
        "PlusEq[+=]Space[ ]HyphEq[-=]Space[ ]StarEq[*=]Space[ ]SlashEq[/=]",
    ),
    (
        "\u{2212}= \u{2212}1",
        "HyphEq[\u{2212}=]Space[ ]Minus[\u{2212}]Int[1]",
    ),
    ("=>=", "Arrow[=>]Eq[=]"),
    (
        "{}[]()",
        "LeftBrace[{]RightBrace[}]LeftBracket[[]RightBracket[]]LeftParen[(]RightParen[)]",
    ),
    ("$,;:", "Dollar[$]Comma[,]Semicolon[;]Colon[:]"),
    (
        "+-* /=<>",
        "Plus[+]Minus[-]Star[*]Space[ ]SlashEq[/=]Lt[<]Gt[>]",
    ),
    ("<a>", "Label[<a>]"),
    ("a<b", "Ident[a]UnclosedLabel[<b]"),
    ("a < b", "Ident[a]Space[ ]Lt[<]Space[ ]Ident[b]"),
    ("`a`", "Raw[`a`]"),
    ("!", "InvalidCharacter[!]"),
    ("#a", "InvalidCharacter[#]Ident[a]"),
    ("→", "InvalidCharacter[→]"),
    (
        "// a\n/* b */",
        "LineComment[// a]Space[\n]BlockComment[/* b */]",
    ),
    ("*/", "UnexpectedCommentEnd[*/]"),
    ("\n\n", "Space[\n\n]"),
];

#[test]
fn code(rt: HostRuntime) -> Result<(), Fail> {
    are_cut(&rt, rt.alloc(), Mode::Code, CODE)
}

/// Texts of code where only an operator may come.
const OPERATORS: &[(&str, &str)] = &[
    ("+ ", "Plus[+]Space[ ]"),
    ("not in", "Not[not]Space[ ]In[in]"),
    ("and or", "And[and]Space[ ]Or[or]"),
    ("if else as", "If[if]Space[ ]Else[else]Space[ ]As[as]"),
    ("==.a", "EqEq[==]Field[.]Other[a]"),
    (". a", "Dot[.]Space[ ]Other[a]"),
    ("(", "LeftParen[(]"),
    ("\"", "Other[\"]"),
    ("1", "Other[1]"),
    (".5", "Other[.]Other[5]"),
    ("<a", "Other[<]Other[a]"),
    ("<1", "Other[<]Other[1]"),
    ("< 1", "Lt[<]Space[ ]Other[1]"),
    ("ä", "Other[ä]"),
    ("`", "Other[`]"),
    ("#", "Other[#]"),
];

#[test]
fn operators(rt: HostRuntime) -> Result<(), Fail> {
    are_cut(&rt, rt.alloc(), Mode::Operator, OPERATORS)
}

/// Texts of math.
const MATH: &[(&str, &str)] = &[
    ("x y", "MathLetter[x]Space[ ]MathLetter[y]"),
    ("xy", "MathIdent[xy]"),
    ("x1", "MathIdent[x1]"),
    ("x_1", "MathLetter[x]Underscore[_]MathText[1]"),
    ("ab-c", "MathIdent[ab]MathShorthand[-]MathLetter[c]"),
    ("x\u{301}y", "MathIdent[x\u{301}y]"),
    ("x\u{301}", "MathLetter[x\u{301}]"),
    ("x\u{301}.a", "MathLetter[x\u{301}]Field[.]MathLetter[a]"),
    ("αβ", "MathIdent[αβ]"),
    (
        "ab.c.de",
        "MathIdent[ab]Field[.]MathLetter[c]Field[.]MathIdent[de]",
    ),
    ("ab.1", "MathIdent[ab]Dot[.]MathText[1]"),
    ("a.b", "MathLetter[a]Field[.]MathLetter[b]"),
    ("ab.", "MathIdent[ab]Dot[.]"),
    (
        "ab.c...",
        "MathIdent[ab]Field[.]MathLetter[c]MathShorthand[...]",
    ),
    ("12.5.3", "MathText[12.5]Dot[.]MathText[3]"),
    ("1.a", "MathText[1]Field[.]MathLetter[a]"),
    ("½", "MathText[½]"),
    (
        "f(x)",
        "MathLetter[f]LeftParen[(]MathLetter[x]RightParen[)]",
    ),
    (
        "{[⟨|⟩]}",
        "LeftBrace[{]Opening[[]Opening[⟨]MathText[|]Closing[⟩]Closing[]]RightBrace[}]",
    ),
    (
        "[|a|]",
        "OpeningShorthand[[|]MathLetter[a]ClosingShorthand[|]]",
    ),
    ("[\u{301}", "MathText[[\u{301}]"),
    (
        "a/b^2_c",
        "MathLetter[a]Slash[/]MathLetter[b]Hat[^]MathText[2]Underscore[_]MathLetter[c]",
    ),
    ("a'''", "MathLetter[a]MathPrimes[''']"),
    ("√∛∜", "Root[√]Root[∛]Root[∜]"),
    ("a&b!", "MathLetter[a]MathAlignPoint[&]MathLetter[b]Bang[!]"),
    (",;.#$", "Comma[,]Semicolon[;]Dot[.]Hash[#]Dollar[$]"),
    ("\"a\"", "Str[\"a\"]"),
    ("\\,", "Escape[\\,]"),
    ("\\ ", "Linebreak[\\]Space[ ]"),
    ("a=b", "MathLetter[a]MathText[=]MathLetter[b]"),
    ("a:b", "MathLetter[a]MathText[:]MathLetter[b]"),
    ("+`", "MathText[+]MathText[`]"),
    ("👨\u{200d}👩", "MathText[👨\u{200d}👩]"),
    ("🇩🇪🇫🇷", "MathText[🇩🇪]MathText[🇫🇷]"),
    (
        "// a\n/* b */ */",
        "LineComment[// a]Space[\n]BlockComment[/* b */]Space[ ]UnexpectedCommentEnd[*/]",
    ),
    ("\"a", "UnclosedStr[\"a]"),
];

#[test]
fn math(rt: HostRuntime) -> Result<(), Fail> {
    are_cut(&rt, rt.alloc(), Mode::Math, MATH)
}

/// The shorthands of math, but for the two that are delimiters.
const SHORTHANDS: &[&str] = &[
    "...", "-", "*", "~", "!=", ":=", "::=", "=:", "<<", "<<<", ">>", ">>>", "<=", ">=", "->",
    "-->", "|->", ">->", "->>", "<-", "<--", "<-<", "<<-", "<->", "<-->", "~>", "~~>", "<~", "<~~",
    "=>", "|=>", "==>", "<==", "<=>", "<==>", "||",
];

#[test]
fn shorthands(rt: HostRuntime) -> Result<(), Fail> {
    for text in SHORTHANDS {
        let want = format!(in rt.alloc(); "MathShorthand[{text}]")?;
        are_cut(&rt, rt.alloc(), Mode::Math, &[(*text, want.as_str())])?;
    }
    Ok(())
}

/// Texts of math at the beginning of an argument.
const ARGUMENTS: &[(&str, &str)] = &[
    (
        "row-gap: 1",
        "ArgumentName[row-gap]MathText[:]Space[ ]MathText[1]",
    ),
    ("a:b", "ArgumentName[a]MathText[:]MathLetter[b]"),
    ("_x:", "ArgumentName[_x]MathText[:]"),
    ("_:", "ArgumentBlank[_]MathText[:]"),
    ("a:=b", "MathLetter[a]MathShorthand[:=]MathLetter[b]"),
    ("a::=b", "MathLetter[a]MathShorthand[::=]MathLetter[b]"),
    ("a::b", "ArgumentName[a]MathText[:]MathText[:]MathLetter[b]"),
    ("a :b", "MathLetter[a]Space[ ]MathText[:]MathLetter[b]"),
    ("ab-c", "MathIdent[ab]MathShorthand[-]MathLetter[c]"),
    ("a-b", "MathLetter[a]MathShorthand[-]MathLetter[b]"),
    ("_a", "Underscore[_]MathLetter[a]"),
    ("ab.c", "MathIdent[ab]Field[.]MathLetter[c]"),
    ("..a", "Dots[..]MathLetter[a]"),
    (".. a", "Dot[.]Dot[.]Space[ ]MathLetter[a]"),
    ("..,", "Dot[.]Dot[.]Comma[,]"),
    ("...a", "MathShorthand[...]MathLetter[a]"),
    ("x", "MathLetter[x]"),
    ("1:", "MathText[1]MathText[:]"),
];

#[test]
fn arguments(rt: HostRuntime) -> Result<(), Fail> {
    are_cut(&rt, rt.alloc(), Mode::Argument, ARGUMENTS)
}

/// How far tokens are looked at.
#[test]
fn looks(rt: HostRuntime) -> Result<(), Fail> {
    assert_eq!(rt;
        first_token(Mode::Operator, Behind::Other, "\"a b c d e f g\"").look,
        11
    );
    assert_eq!(rt;
        first_token(Mode::Markup, Behind::Other, "http://a... b").look,
        21
    );
    Ok(())
}
