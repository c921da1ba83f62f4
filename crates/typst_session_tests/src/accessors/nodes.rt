//! Tests of the accessors of typed views that answer other nodes, each by its number.
use crate::accessors::shown::assert_rows;
use std::test::Fail;

/// The number of an accessor, an index, a tree, and the node that the accessor answers of its root.
const ROWS: &str = r#"33|0|Strong[ Star:* Markup[ Text:bold ] Star:* ]|Markup: 4 [Text: "bold"]
34|0|Emph[ Underscore:_ Markup[ Text:it ] Underscore:_ ]|Markup: 2 [Text: "it"]
35|0|ContentBlock[ LeftBracket:[ Markup[ Text:hi ] RightBracket:] ]|Markup: 2 [Text: "hi"]
36|0|ListItem[ ListMarker:- Space:~ Markup[ Text:milk ] ]|Markup: 4 [Text: "milk"]
37|0|EnumItem[ EnumMarker:+ Space:~ Markup[ Text:boil ] ]|Markup: 4 [Text: "boil"]
38|0|TermItem[ TermMarker:/ Markup[ Text:leaf ] Colon:: Markup[ Text:end ] ]|Markup: 4 [Text: "leaf"]
39|0|TermItem[ TermMarker:/ Markup[ Text:leaf ] Colon:: Markup[ Text:end ] ]|Markup: 3 [Text: "end"]
40|0|Heading[ HeadingMarker:= Space:~ Markup[ Text:one ] ]|Markup: 3 [Text: "one"]
40|0|Heading[ HeadingMarker:= ]|none
40|1|Heading[ HeadingMarker:= Space:~ Markup[ Text:one ] ]|none
41|0|Ref[ RefMarker:@fig ContentBlock[ Markup[ Text:see ] ] ]|ContentBlock: 3 [Markup: 3 [Text: "see"]]
41|0|Ref[ RefMarker:@fig ]|none
42|0|Raw[ RawDelim:``` RawLang:rust Text:x RawDelim:``` ]|RawLang: "rust"
42|0|Raw[ RawDelim:` RawLang:rust RawDelim:` ]|none
43|0|Equation[ Dollar:$ Math[ MathText:x ] Dollar:$ ]|Math: 1 [MathText: "x"]
44|0|MathFieldAccess[ MathIdent:arrow Dot:. MathIdent:l ]|MathIdent: "arrow"
45|0|MathFieldAccess[ MathIdent:arrow Dot:. MathIdent:l ]|MathIdent: "l"
46|0|MathCall[ MathIdent:vec MathArgs[ LeftParen:( RightParen:) ] ]|MathIdent: "vec"
47|0|MathCall[ MathIdent:vec MathArgs[ LeftParen:( RightParen:) ] ]|MathArgs: 2 [LeftParen: "(", RightParen: ")"]
48|0|MathDelimited[ MathText:( Math[ MathText:x ] MathText:) ]|MathText: "("
49|0|MathDelimited[ MathText:( Math[ MathText:x ] MathText:) ]|Math: 1 [MathText: "x"]
50|0|MathDelimited[ MathText:( Math[ MathText:x ] MathText:) ]|MathText: ")"
51|0|MathAttach[ MathText:x Underscore:_ MathText:1 Hat:^ MathText:2 ]|MathText: "x"
52|0|MathAttach[ MathText:x Hat:^ MathText:2 Underscore:_ MathText:1 ]|MathText: "1"
53|0|MathAttach[ MathText:x Underscore:_ MathText:1 Hat:^ MathText:2 ]|MathText: "2"
53|0|MathAttach[ MathText:x Underscore:_ MathText:1 ]|none
54|0|MathAttach[ MathText:f MathPrimes:'' Hat:^ MathText:2 ]|MathPrimes: "''"
54|0|MathAttach[ MathText:f Hat:^ MathPrimes:'' ]|none
55|0|MathFrac[ MathText:a Slash:/ MathText:b ]|MathText: "a"
56|0|MathFrac[ MathText:a Slash:/ MathText:b ]|MathText: "b"
57|0|MathRoot[ Root:√ MathText:x ]|MathText: "x"
58|0|CodeBlock[ LeftBrace:{ Code[ Ident:f ] RightBrace:} ]|Code: 1 [Ident: "f"]
59|0|Parenthesized[ LeftParen:( Ident:a RightParen:) ]|Ident: "a"
59|0|Parenthesized[ LeftParen:( Underscore:_ RightParen:) ]|none
60|0|Parenthesized[ LeftParen:( Underscore:_ RightParen:) ]|Underscore: "_"
61|0|Named[ Ident:width Colon:: Ident:w ]|Ident: "width"
62|0|Named[ Ident:width Colon:: Ident:w ]|Ident: "w"
63|0|Named[ Ident:width Colon:: Underscore:_ ]|Underscore: "_"
64|0|Keyed[ Str:"k" Colon:: Int:1 ]|Str: "\"k\""
65|0|Keyed[ Str:"k" Colon:: Int:1 ]|Int: "1"
66|0|Spread[ Dots:.. Ident:items ]|Ident: "items"
67|0|Spread[ Dots:.. Ident:rest ]|Ident: "rest"
67|0|Spread[ Dots:.. ]|none
68|0|Spread[ Dots:.. Ident:rest ]|Ident: "rest"
69|0|Unary[ Minus:- Int:2 ]|Int: "2"
70|0|Binary[ Ident:a Plus:+ Ident:b ]|Ident: "a"
71|0|Binary[ Ident:a Plus:+ Ident:b ]|Ident: "b"
72|0|FieldAccess[ Ident:page Dot:. Ident:width ]|Ident: "page"
73|0|FieldAccess[ Ident:page Dot:. Ident:width ]|Ident: "width"
74|0|FuncCall[ Ident:f Args[ LeftParen:( RightParen:) ] ]|Ident: "f"
75|0|FuncCall[ Ident:f Args[ LeftParen:( RightParen:) ] ]|Args: 2 [LeftParen: "(", RightParen: ")"]
76|0|Closure[ Ident:f Params[ Ident:x ] Eq:= Ident:y ]|Ident: "f"
76|0|Closure[ Params[ Ident:x ] Arrow:=> Ident:y ]|none
77|0|Closure[ Params[ Ident:x ] Arrow:=> Ident:y ]|Params: 1 [Ident: "x"]
78|0|Closure[ Params[ Ident:x ] Arrow:=> Ident:y ]|Ident: "y"
79|0|LetBinding[ Let:let Ident:a Eq:= Int:1 ]|Ident: "a"
79|0|LetBinding[ Let:let Closure[ Ident:f Params[ ] Eq:= Int:1 ] ]|Ident: "f"
80|0|LetBinding[ Let:let Ident:a Eq:= Int:1 ]|Int: "1"
80|0|LetBinding[ Let:let Ident:a ]|none
81|0|DestructAssignment[ Destructuring[ Ident:a ] Eq:= Ident:b ]|Destructuring: 1 [Ident: "a"]
82|0|DestructAssignment[ Destructuring[ Ident:a ] Eq:= Ident:b ]|Ident: "b"
83|0|SetRule[ Set:set Ident:text Args[ ] If:if Ident:c ]|Ident: "text"
84|0|SetRule[ Set:set Ident:text Args[ Int:9 ] If:if Ident:c ]|Args: 1 [Int: "9"]
85|0|SetRule[ Set:set Ident:text Args[ ] If:if Ident:c ]|Ident: "c"
85|0|SetRule[ Set:set Ident:text Args[ ] ]|none
86|0|ShowRule[ Show:show Ident:heading Colon:: Ident:it ]|Ident: "heading"
86|0|ShowRule[ Show:show Colon:: Ident:it ]|none
87|0|ShowRule[ Show:show Ident:heading Colon:: Ident:it ]|Ident: "it"
88|0|Contextual[ Context:context Ident:here ]|Ident: "here"
89|0|Conditional[ If:if Ident:a Ident:b Else:else Ident:c ]|Ident: "a"
90|0|Conditional[ If:if Ident:a Ident:b Else:else Ident:c ]|Ident: "b"
91|0|Conditional[ If:if Ident:a Ident:b Else:else Ident:c ]|Ident: "c"
91|0|Conditional[ If:if Ident:a Ident:b ]|none
92|0|WhileLoop[ While:while Ident:a Ident:b ]|Ident: "a"
93|0|WhileLoop[ While:while Ident:a Ident:b ]|Ident: "b"
94|0|ForLoop[ For:for Ident:a In:in Ident:list Ident:b ]|Ident: "a"
95|0|ForLoop[ For:for Ident:a In:in Ident:list Ident:b ]|Ident: "list"
96|0|ForLoop[ For:for Ident:a In:in Ident:list Ident:b ]|Ident: "b"
97|0|FuncReturn[ Return:return Ident:a ]|Ident: "a"
97|0|FuncReturn[ Return:return ]|none
98|0|ImportItemPath[ Ident:round Dot:. Ident:circle ]|Ident: "circle"
99|0|RenamedImportItem[ ImportItemPath[ Ident:a ] As:as Ident:b ]|ImportItemPath: 1 [Ident: "a"]
100|0|RenamedImportItem[ ImportItemPath[ Ident:a ] As:as Ident:b ]|Ident: "a"
101|0|RenamedImportItem[ ImportItemPath[ Ident:a ] As:as Ident:b ]|Ident: "b"
102|0|ModuleImport[ Import:import Str:"m" As:as Ident:n ]|Str: "\"m\""
103|0|ModuleImport[ Import:import Str:"m" Colon:: Star:* ]|Star: "*"
103|0|ModuleImport[ Import:import Str:"m" Colon:: ImportItems[ ] ]|ImportItems: 0
103|0|ModuleImport[ Import:import Str:"m" As:as Ident:n ]|none
104|0|ModuleImport[ Import:import Str:"m" As:as Ident:n ]|Ident: "n"
105|0|ModuleInclude[ Include:include Str:"c" ]|Str: "\"c\""
106|1|Markup[ Text:a LetBinding[ ] Space:~ Text:b ]|LetBinding: 0
106|2|Markup[ Text:a LetBinding[ ] Space:~ Text:b ]|Text: "b"
106|3|Markup[ Text:a LetBinding[ ] Space:~ Text:b ]|none
107|1|Math[ MathText:x Space:~ MathText:y ]|Space: " "
107|2|Math[ MathText:x Space:~ MathText:y ]|MathText: "y"
108|1|Code[ Ident:f Semicolon:; Space:~ Ident:g ]|Ident: "g"
108|18446744073709551615|Code[ Ident:f Semicolon:; Space:~ Ident:g ]|none
109|1|Raw[ RawDelim:``` Text:a RawTrimmed:~ Text:b RawDelim:``` ]|Text: "b"
110|2|MathArgs[ LeftParen:( MathText:a Semicolon:; MathText:b RightParen:) ]|Semicolon: ";"
110|4|MathArgs[ LeftParen:( MathText:a Semicolon:; MathText:b RightParen:) ]|RightParen: ")"
111|1|MathArgs[ LeftParen:( MathText:a Semicolon:; MathText:b RightParen:) ]|MathText: "b"
111|2|MathArgs[ LeftParen:( MathText:a Semicolon:; MathText:b RightParen:) ]|none
112|1|Array[ Int:1 Comma:, Spread[ Dots:.. ] ]|Spread: 2 [Dots: ".."]
113|1|Dict[ Named[ ] Comma:, Keyed[ ] ]|Keyed: 0
114|1|Destructuring[ Ident:a Comma:, Underscore:_ ]|Underscore: "_"
115|1|Args[ Int:1 Comma:, Named[ ] ]|Named: 0
116|1|Params[ Ident:a Comma:, Named[ ] ]|Named: 0
117|1|ImportItems[ ImportItemPath[ ] Comma:, RenamedImportItem[ ] ]|RenamedImportItem: 0
118|1|ImportItemPath[ Ident:round Dot:. Ident:circle ]|Ident: "circle"
118|2|ImportItemPath[ Ident:round Dot:. Ident:circle ]|none
118|0|ImportItems[ Ident:round ]|none"#;

#[test]
fn each_accessor_answers_a_node_by_its_number(rt: HostRuntime) -> Result<(), Fail> {
    assert_rows(&rt, ROWS)
}
