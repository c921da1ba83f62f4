//! Tests of the accessors of typed views that answer a value, each by its number.
use crate::accessors::shown::{answer, assert_answer, assert_rows};
use std::test::Fail;

/// The number of an accessor, an index, a tree, and what the accessor answers of its root.
const ROWS: &str = r#"0|0|LineComment://~a|" a"
1|0|BlockComment:/*~a~*/|" a "
1|0|BlockComment:*/|"*/"
2|0|Text:ab|"ab"
3|0|RawLang:rust|"rust"
4|0|Link:https://typst.org|"https://typst.org"
5|0|Ident:it|"it"
6|0|MathIdent:pi|"pi"
7|0|Escape:\#|'#'
7|0|Escape:\u{2603}|'☃'
8|0|Shorthand:...|'…'
9|0|MathShorthand:-->|'⟶'
10|0|SmartQuote:"|true
10|0|SmartQuote:'|false
11|0|Label:<fig>|"fig"
12|0|MathText:2.5|"2.5"
13|0|MathText:2.5|true
13|0|MathText:*|false
14|0|MathPrimes:'''|3
15|0|Bool:true|true
15|0|Bool:True|false
16|0|Int:0x1F|31
16|0|Int:-9223372036854775808|-9223372036854775808
17|0|Float:1.2e3|"1.2e3"
18|0|Numeric:1mm|"1"
19|0|Numeric:1mm|"mm"
19|0|Numeric:1|"%"
20|0|Str:"a\n"|owned "a\n"
21|0|Math[ LeftParen:( RightParen:) ]|true
21|0|Math[ LeftParen:( ]|false
22|0|Heading[ HeadingMarker:=== ]|3
22|0|Heading[ ]|1
22|0|EnumItem[ HeadingMarker:=== ]|none
23|0|EnumItem[ EnumMarker:+7.. ]|7
23|0|EnumItem[ EnumMarker:18446744073709551615. ]|18446744073709551615
23|0|EnumItem[ EnumMarker:+ ]|none
24|0|Ref[ RefMarker:@@fig:a ]|"fig:a"
25|0|Equation[ Dollar:$ Space:~ Dollar:$ ]|true
25|0|Equation[ Space:~ ]|false
26|0|MathRoot[ Root:∛ MathText:x ]|3
26|0|MathRoot[ Root:√ MathText:x ]|none
27|0|Unary[ Minus:- Ident:x ]|"-"
28|0|Unary[ Not:not Ident:x ]|4
29|0|Binary[ Not:not Not:not In:in ]|"not in"
30|0|Binary[ Ident:x PlusEq:+= Int:1 ]|1
31|0|Binary[ Ident:x PlusEq:+= Int:1 ]|true
31|0|Binary[ In:in ]|false
32|0|Args[ LeftParen:( Int:1 Comma:, Space:~ RightParen:) ]|true
32|0|Args[ Comma:, ]|false"#;

#[test]
fn each_accessor_answers_by_its_number(rt: HostRuntime) -> Result<(), Fail> {
    assert_rows(&rt, ROWS)
}

#[test]
fn an_accessor_has_one_answer(rt: HostRuntime) -> Result<(), Fail> {
    let second = answer(rt.alloc(), 5, "Ident:it", 1)?;
    assert_answer(&rt, "a second answer", second.as_str(), "none");
    let none = answer(rt.alloc(), 119, "Ident:it", 0)?;
    assert_answer(&rt, "no accessor", none.as_str(), "no accessor");
    Ok(())
}
