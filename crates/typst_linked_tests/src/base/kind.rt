//! Tests of kinds against their table, row by row.
use crate::rows::{assert_at, assert_row, assert_text};
use std::alloc::{AllocError, Global};
use std::test::Fail;
use typst_base::{ModeAfter, SyntaxKind, SyntaxMode};

/// The rows, in the order of the kinds' numbers: variant, name, letter of its mode rule, letters of its classes.
///
/// Modes: M, A and C are markup, math and code, - none, P the parent's, T text, R raw delimiter,
/// D dollar, S space, E embeddable. Classes: g grouping, t terminator, b block, s statement,
/// k keyword, v trivia, e error.
const ROWS: &str = "\
End|end of tokens|-|t
Error|syntax error|P|e
Shebang|shebang|-|v
LineComment|line comment|-|v
BlockComment|block comment|-|v
Markup|markup|M|
Text|text|T|
Space|space|S|v
Linebreak|line break|P|
Parbreak|paragraph break|M|v
Escape|escape sequence|P|
Shorthand|shorthand|M|
SmartQuote|smart quote|M|
Strong|strong content|M|
Emph|emphasized content|M|
Raw|raw block|E|
RawLang|raw language tag|-|
RawDelim|raw delimiter|R|
RawTrimmed|raw trimmed|-|
Link|link|M|
Label|label|E|
Ref|reference|M|
RefMarker|reference marker|M|
Heading|heading|M|
HeadingMarker|heading marker|M|
ListItem|list item|M|
ListMarker|list marker|M|
EnumItem|enum item|M|
EnumMarker|enum marker|M|
TermItem|term list item|M|
TermMarker|term marker|M|
Equation|equation|E|
Math|math|A|
MathText|math text|A|
MathIdent|math identifier|A|
MathFieldAccess|math field access|A|
MathShorthand|math shorthand|A|
MathAlignPoint|math alignment point|A|
MathCall|math function call|A|
MathArgs|math call arguments|A|
MathDelimited|delimited math|A|
MathAttach|math attachments|A|
MathPrimes|math primes|A|
MathFrac|math fraction|A|
MathRoot|math root|A|
Hash|hash|C|
LeftBrace|opening brace|C|g
RightBrace|closing brace|C|gt
LeftBracket|opening bracket|M|g
RightBracket|closing bracket|P|gt
LeftParen|opening paren|P|g
RightParen|closing paren|P|gt
Comma|comma|P|
Semicolon|semicolon|P|t
Colon|colon|P|
Star|star|P|
Underscore|underscore|P|
Dollar|dollar sign|D|
Plus|plus|C|
Minus|minus|C|
Slash|slash|P|
Hat|hat|A|
Dot|dot|P|
Eq|equals sign|C|
EqEq|equality operator|C|
ExclEq|inequality operator|C|
Lt|less-than operator|C|
LtEq|less-than or equal operator|C|
Gt|greater-than operator|C|
GtEq|greater-than or equal operator|C|
PlusEq|add-assign operator|C|
HyphEq|subtract-assign operator|C|
StarEq|multiply-assign operator|C|
SlashEq|divide-assign operator|C|
Dots|dots|P|
Arrow|arrow|C|
Root|root|A|
Bang|exclamation mark|A|
Not|operator `not`|C|k
And|operator `and`|C|k
Or|operator `or`|C|k
None|`none`|C|k
Auto|`auto`|C|k
Let|keyword `let`|C|k
Set|keyword `set`|C|k
Show|keyword `show`|C|k
Context|keyword `context`|C|k
If|keyword `if`|C|k
Else|keyword `else`|C|k
For|keyword `for`|C|k
In|keyword `in`|C|k
While|keyword `while`|C|k
Break|keyword `break`|C|k
Continue|keyword `continue`|C|k
Return|keyword `return`|C|k
Import|keyword `import`|C|k
Include|keyword `include`|C|k
As|keyword `as`|C|k
Code|code|C|
Ident|identifier|E|
Bool|boolean|C|
Int|integer|C|
Float|float|C|
Numeric|numeric value|C|
Str|string|E|
CodeBlock|code block|C|b
ContentBlock|content block|E|b
Parenthesized|group|C|
Array|array|C|
Dict|dictionary|C|
Named|named pair|P|
Keyed|keyed pair|C|
Unary|unary expression|C|
Binary|binary expression|C|
FieldAccess|field access|C|
FuncCall|function call|C|
Args|call arguments|C|
Spread|spread|P|
Closure|closure|C|
Params|closure parameters|C|
LetBinding|`let` expression|C|s
SetRule|`set` expression|C|s
ShowRule|`show` expression|C|s
Contextual|`context` expression|C|
Conditional|`if` expression|C|
WhileLoop|while-loop expression|C|
ForLoop|for-loop expression|C|
ModuleImport|`import` expression|C|s
ImportItems|import items|C|
ImportItemPath|imported item path|C|
RenamedImportItem|renamed import item|C|
ModuleInclude|`include` expression|C|s
LoopBreak|`break` expression|C|
LoopContinue|`continue` expression|C|
FuncReturn|`return` expression|C|
Destructuring|destructuring pattern|C|
DestructAssignment|destructuring assignment expression|C|";

/// The letter of a mode rule.
fn letter_of(mode: ModeAfter) -> char {
    match mode {
        ModeAfter::Known(SyntaxMode::Markup) => 'M',
        ModeAfter::Known(SyntaxMode::Math) => 'A',
        ModeAfter::Known(SyntaxMode::Code) => 'C',
        ModeAfter::Parent => 'P',
        ModeAfter::Text => 'T',
        ModeAfter::RawDelim => 'R',
        ModeAfter::Dollar => 'D',
        ModeAfter::Space => 'S',
        ModeAfter::Embeddable => 'E',
        ModeAfter::None => '-',
    }
}

/// Whether a kind is of the class with this letter.
fn is_of_class(kind: SyntaxKind, letter: char) -> bool {
    match letter {
        'g' => kind.is_grouping(),
        't' => kind.is_terminator(),
        'b' => kind.is_block(),
        's' => kind.is_stmt(),
        'k' => kind.is_keyword(),
        'v' => kind.is_trivia(),
        _ => kind.is_error(),
    }
}

/// The letters of a kind's classes.
fn classes_of(alloc: Global, kind: SyntaxKind) -> Result<String, AllocError> {
    let mut letters = String::new(alloc);
    for letter in "gtbskve".chars() {
        if is_of_class(kind, letter) {
            letters.push(letter)?;
        }
    }
    Ok(letters)
}

/// The row of the kind with this number, as the library gives it.
fn row_of(alloc: Global, number: u8) -> Result<String, Fail> {
    let kind = SyntaxKind::from_u8(number).ok_or("no kind")?;
    if kind.to_u8() != number {
        return Err("another number")?;
    }
    let name = kind.name();
    let mode = letter_of(kind.mode_after());
    let classes = classes_of(alloc, kind)?;
    Ok(format!(in alloc; "{kind:?}|{name}|{mode}|{classes}")?)
}

#[test]
fn each_kind_has_its_row(rt: HostRuntime) -> Result<(), Fail> {
    let mut number = 0u8;
    for row in ROWS.lines() {
        let said = row_of(rt.alloc(), number)?;
        assert_text(&rt, row, &said, row);
        number = number.saturating_add(1);
    }
    assert_row(&rt, "137 rows", number == 137);
    Ok(())
}

#[test]
fn numbers_from_137_on_are_no_kinds(rt: HostRuntime) {
    for raw in 137..=255u8 {
        let kind = SyntaxKind::from_u8(raw);
        assert_at(&rt, "no kind of", raw as usize, kind.is_none());
    }
}
