//! Texts of markup and their tokens, as the rules of the language give them.

use crate::lexer::rows::{are_cut, assert_in, shown};
use std::test::Fail;
use typst_lexer::{Lexer, Mode};

/// Texts of markup with white space, `#!` and comments.
const SPACES: &[(&str, &str)] = &[
    ("", ""),
    (" \t", "Space[ \t]"),
    ("\r\n", "Space[\r\n]"),
    ("\r\n\r", "Parbreak[\r\n\r]"),
    ("\n\r", "Parbreak[\n\r]"),
    ("\n \n\t", "Parbreak[\n \n\t]"),
    ("\u{b}\u{c}", "Parbreak[\u{b}\u{c}]"),
    ("\u{85}a", "Space[\u{85}]Text[a]"),
    ("\u{2028} \u{2029}", "Parbreak[\u{2028} \u{2029}]"),
    ("\u{a0}", "Text[\u{a0}]"),
    ("#!sh -x\na", "Shebang[#!sh -x]Space[\n]Text[a]"),
    (" #!sh", "Space[ ]Hash[#]Text[!sh]"),
    ("// a\u{85}b", "LineComment[// a]Space[\u{85}]Text[b]"),
    ("// a\rb", "LineComment[// a]Space[\r]Text[b]"),
    (
        "/* a /* b */ c */d",
        "BlockComment[/* a /* b */ c */]Text[d]",
    ),
    ("/*/", "BlockComment[/*/]"),
    ("/* a\n\nb", "BlockComment[/* a\n\nb]"),
    ("a*/b", "Text[a]UnexpectedCommentEnd[*/]Text[b]"),
    ("a\nb", "Text[a]Space[\n]Text[b]"),
    ("\r\n\r\n", "Parbreak[\r\n\r\n]"),
    (" \n \n ", "Parbreak[ \n \n ]"),
    ("a\n\nb", "Text[a]Parbreak[\n\n]Text[b]"),
    (
        "a \n \n  b\n\nc",
        "Text[a]Parbreak[ \n \n  ]Text[b]Parbreak[\n\n]Text[c]",
    ),
    ("\n\n\n", "Parbreak[\n\n\n]"),
    ("é\n\n", "Text[é]Parbreak[\n\n]"),
    ("// a\nb", "LineComment[// a]Space[\n]Text[b]"),
    ("// a\n\nb", "LineComment[// a]Parbreak[\n\n]Text[b]"),
    ("/**/", "BlockComment[/**/]"),
    (
        "/* a\n\nb */\n\nc",
        "BlockComment[/* a\n\nb */]Parbreak[\n\n]Text[c]",
    ),
    (
        "\n/* a */= b",
        "Space[\n]BlockComment[/* a */]HeadingMarker[=]Space[ ]Text[b]",
    ),
    ("/* a /* b */", "BlockComment[/* a /* b */]"),
    ("/*/*/*/*/a", "BlockComment[/*/*/*/*/a]"),
    ("/***/a", "BlockComment[/***/]Text[a]"),
];

#[test]
fn spaces(rt: HostRuntime) -> Result<(), Fail> {
    are_cut(&rt, rt.alloc(), Mode::Markup, SPACES)
}

/// Texts of markup with escapes, links, labels and references.
const LONGER: &[(&str, &str)] = &[
    ("\\", "Linebreak[\\]"),
    ("\\\u{2003}", "Linebreak[\\]Text[\u{2003}]"),
    ("\\ä", "Escape[\\ä]"),
    ("\\u{41}b", "Escape[\\u{41}]Text[b]"),
    ("\\u{0000000000041}", "Escape[\\u{0000000000041}]"),
    ("\\u{d800}", "InvalidEscape[\\u{d800}]"),
    ("\\u{110000}", "InvalidEscape[\\u{110000}]"),
    ("\\u{}", "InvalidEscape[\\u{}]"),
    ("\\u{4g}", "InvalidEscape[\\u{4g}]"),
    ("\\u{41 b", "UnclosedEscape[\\u{41]Space[ ]Text[b]"),
    ("\\u{41", "UnclosedEscape[\\u{41]"),
    ("\\u41", "Escape[\\u]Text[41]"),
    ("xhttp://a.b", "Text[x]Link[http://a.b]"),
    ("http://", "Link[http://]"),
    ("https://a.b,", "Link[https://a.b]Text[,]"),
    ("http://a.?!'", "Link[http://a]Text[.?!]SmartQuote[']"),
    ("http://a(b)c", "Link[http://a(b)c]"),
    ("http://a(b[c])", "Link[http://a(b[c])]"),
    ("(http://a)", "Text[(]Link[http://a]Text[)]"),
    ("[http://a]", "LeftBracket[[]Link[http://a]RightBracket[]]"),
    ("http://a(b", "UnbalancedLink[http://a(b]"),
    ("http://a(b.", "UnbalancedLink[http://a(b]Text[.]"),
    ("http://a(b]", "UnbalancedLink[http://a(b]RightBracket[]]"),
    ("http://ä", "Link[http://]Text[ä]"),
    ("<a>", "Label[<a>]"),
    ("<a.b:c-d_e>f", "Label[<a.b:c-d_e>]Text[f]"),
    ("<ä>", "Label[<ä>]"),
    ("<a b>", "UnclosedLabel[<a]Space[ ]Text[b]Text[>]"),
    ("<.a>", "Text[<.a]Text[>]"),
    ("@a.b.: c", "RefMarker[@a.b]Text[.]Colon[:]Space[ ]Text[c]"),
    ("@ä-1_", "RefMarker[@ä-1_]"),
    ("@ a", "Text[@ a]"),
    ("a@b", "Text[a]RefMarker[@b]"),
    ("a@.b", "Text[a]Text[@.b]"),
    ("\\u{1F600}", "Escape[\\u{1F600}]"),
    ("\\u{10FFFF}", "Escape[\\u{10FFFF}]"),
    ("\\u{0000041}", "Escape[\\u{0000041}]"),
    ("\\é\\\\", "Escape[\\é]Escape[\\\\]"),
    ("\\\n\\", "Linebreak[\\]Space[\n]Linebreak[\\]"),
    ("https://a.b/c?d.", "Link[https://a.b/c?d]Text[.]"),
    ("xhttp:/a", "Text[xhttp]Colon[:]Text[/a]"),
    ("éhttps://a", "Text[é]Link[https://a]"),
    ("https://-", "Link[https://-]"),
    ("<a.b:c>", "Label[<a.b:c>]"),
    ("<a b", "UnclosedLabel[<a]Space[ ]Text[b]"),
    ("<>", "Text[<]Text[>]"),
    ("@a:b.c.", "RefMarker[@a:b.c]Text[.]"),
    ("@.", "Text[@.]"),
];

#[test]
fn longer(rt: HostRuntime) -> Result<(), Fail> {
    are_cut(&rt, rt.alloc(), Mode::Markup, LONGER)
}

/// Texts of markup with signs, markers and text.
const SIGNS: &[(&str, &str)] = &[
    ("a...b", "Text[a]Shorthand[...]Text[b]"),
    ("a..b", "Text[a..b]"),
    (
        "a---b--c",
        "Text[a]Shorthand[---]Text[b]Shorthand[--]Text[c]",
    ),
    ("a-?b", "Text[a]Shorthand[-?]Text[b]"),
    ("-1", "Shorthand[-]Text[1]"),
    ("1-2", "Text[1]Shorthand[-]Text[2]"),
    ("x-²", "Text[x]Shorthand[-]Text[²]"),
    ("a-b", "Text[a-b]"),
    ("a~b", "Text[a]Shorthand[~]Text[b]"),
    ("*a*", "Star[*]Text[a]Star[*]"),
    ("a*b", "Text[a]Text[*b]"),
    ("a_b", "Text[a]Text[_b]"),
    ("日*日", "Text[日]Star[*]Text[日]"),
    ("a* b", "Text[a]Star[*]Space[ ]Text[b]"),
    ("#a", "Hash[#]Text[a]"),
    ("[a]", "LeftBracket[[]Text[a]RightBracket[]]"),
    ("'\"", "SmartQuote[']SmartQuote[\"]"),
    ("$a$", "Dollar[$]Text[a]Dollar[$]"),
    ("a: b", "Text[a]Colon[:]Space[ ]Text[b]"),
    ("== a", "HeadingMarker[==]Space[ ]Text[a]"),
    ("=", "HeadingMarker[=]"),
    ("=/**/", "HeadingMarker[=]BlockComment[/**/]"),
    ("==a", "Text[==a]"),
    ("a =", "Text[a]Space[ ]HeadingMarker[=]"),
    ("- a", "ListMarker[-]Space[ ]Text[a]"),
    ("-\u{2003}", "ListMarker[-]Text[\u{2003}]"),
    ("-a", "Text[-a]"),
    ("+ a", "EnumMarker[+]Space[ ]Text[a]"),
    ("+a", "Text[+a]"),
    (
        "/ a: b",
        "TermMarker[/]Space[ ]Text[a]Colon[:]Space[ ]Text[b]",
    ),
    ("/a", "Text[/a]"),
    ("/// a", "LineComment[/// a]"),
    ("1. a", "EnumMarker[1.]Space[ ]Text[a]"),
    ("1.", "EnumMarker[1.]"),
    ("12.a", "Text[12.a]"),
    ("1 a", "Text[1 a]"),
    (
        "18446744073709551615. a",
        "EnumMarker[18446744073709551615.]Space[ ]Text[a]",
    ),
    ("18446744073709551616. a", "Text[18446744073709551616. a]"),
    ("18446744073709551616...", "Text[18446744073709551616...]"),
    ("a > b", "Text[a]Space[ ]Text[> b]"),
    ("a b  c", "Text[a b]Space[  ]Text[c]"),
    ("a b/c /d", "Text[a b/c]Space[ ]Text[/d]"),
    ("See https://x.y", "Text[See ]Link[https://x.y]"),
    ("hh", "Text[hh]"),
    ("....", "Shorthand[...]Text[.]"),
    ("-----?~", "Shorthand[---]Shorthand[--]Text[?]Shorthand[~]"),
    ("-?'\"", "Shorthand[-?]SmartQuote[']SmartQuote[\"]"),
    ("#a-b.c", "Hash[#]Text[a-b.c]"),
    ("*a_b*", "Star[*]Text[a]Text[_b]Star[*]"),
    ("é*é ²_ⅷ", "Text[é]Text[*é ²]Text[_ⅷ]"),
    ("a_ _b", "Text[a]Underscore[_]Space[ ]Underscore[_]Text[b]"),
    ("==", "HeadingMarker[==]"),
    ("==*", "Text[==]Star[*]"),
    (
        "+\n12. b",
        "EnumMarker[+]Space[\n]EnumMarker[12.]Space[ ]Text[b]",
    ),
    ("a = b", "Text[a]Space[ ]HeadingMarker[=]Space[ ]Text[b]"),
];

#[test]
fn signs(rt: HostRuntime) -> Result<(), Fail> {
    are_cut(&rt, rt.alloc(), Mode::Markup, SIGNS)
}

/// Texts with raw text.
const RAW_TEXT: &[(&str, &str)] = &[
    ("`a``b`", "Raw[`a`]Raw[`b`]"),
    ("```a``b```c", "Raw[```a``b```]Text[c]"),
    ("``a", "Raw[``]Text[a]"),
    ("```a`", "UnclosedRaw[```a`]"),
    ("`a`b", "Raw[`a`]Text[b]"),
    ("``", "Raw[``]"),
    ("```a``b````", "Raw[```a``b```]UnclosedRaw[`]"),
    ("```a\n\n``", "UnclosedRaw[```a\n\n``]"),
    ("``````", "UnclosedRaw[``````]"),
    ("`\n\n", "UnclosedRaw[`\n\n]"),
    ("```\n\n```\n\na", "Raw[```\n\n```]Parbreak[\n\n]Text[a]"),
    ("````a```é````", "Raw[````a```é````]"),
];

#[test]
fn raw_text(rt: HostRuntime) -> Result<(), Fail> {
    are_cut(&rt, rt.alloc(), Mode::Markup, RAW_TEXT)?;
    are_cut(&rt, rt.alloc(), Mode::Code, &[("``a", "Raw[``]Ident[a]")])
}

/// Texts with code after a hash.
const AFTER_HASHES: &[(&str, &str)] = &[
    ("#a-b.c", "Hash[#]Ident[a-b]Field[.]Ident[c]"),
    ("#continued", "Hash[#]Ident[continued]"),
    ("#1", "Hash[#]Int[1]"),
    ("#not", "Hash[#]Not[not]"),
    ("#and", "Hash[#]And[and]"),
    ("#or", "Hash[#]Or[or]"),
    ("#none", "Hash[#]None[none]"),
    ("#auto", "Hash[#]Auto[auto]"),
    ("#let", "Hash[#]Let[let]"),
    ("#set", "Hash[#]Set[set]"),
    ("#show", "Hash[#]Show[show]"),
    ("#context", "Hash[#]Context[context]"),
    ("#if", "Hash[#]If[if]"),
    ("#else", "Hash[#]Else[else]"),
    ("#for", "Hash[#]For[for]"),
    ("#in", "Hash[#]In[in]"),
    ("#while", "Hash[#]While[while]"),
    ("#break", "Hash[#]Break[break]"),
    ("#continue", "Hash[#]Continue[continue]"),
    ("#return", "Hash[#]Return[return]"),
    ("#import", "Hash[#]Import[import]"),
    ("#include", "Hash[#]Include[include]"),
    ("#as", "Hash[#]As[as]"),
    ("#true", "Hash[#]Bool[true]"),
    ("#false", "Hash[#]Bool[false]"),
];

#[test]
fn a_hash_switches_to_code(rt: HostRuntime) -> Result<(), Fail> {
    for (text, want) in AFTER_HASHES {
        let mut lexer = Lexer::new(text, Mode::Markup);
        let Some(hash) = lexer.next() else {
            assert_in(&rt, text, &"no token", want);
            continue;
        };
        lexer.set_mode(Mode::Code);
        let code = shown(rt.alloc(), lexer)?;
        let tokens = format!(in rt.alloc(); "{:?}[{}]{code}", hash.kind, hash.text)?;
        assert_in(&rt, text, &tokens.as_str(), want);
    }
    Ok(())
}

#[test]
fn nothing_comes_after_the_end(rt: HostRuntime) {
    let mut lexer = Lexer::new("a", Mode::Markup);
    assert!(rt; lexer.next().is_some());
    assert!(rt; lexer.next().is_none());
    lexer.set_mode(Mode::Code);
    assert!(rt; lexer.next().is_none());
}

#[test]
fn a_heading_has_three_tokens(rt: HostRuntime) -> Result<(), Fail> {
    let text = "= Title";
    let mut shown = String::new(rt.alloc());
    let mut lexer = Lexer::new(text, Mode::Markup);
    while let Some(token) = lexer.next() {
        write!(shown, "{:?}[{}]", token.kind, token.text)?;
    }
    assert_in(
        &rt,
        text,
        &shown.as_str(),
        &"HeadingMarker[=]Space[ ]Text[Title]",
    );
    Ok(())
}
