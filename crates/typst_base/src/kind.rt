// Written by bench/kinds.py from crates/kinds.txt: change that and run it.
//! The kinds of nodes.

/// What a node of the syntax tree is: a token, an expression, a piece of markup and so on.
///
/// The order of the variants is the order of the kinds' numbers, from 0 on.
#[derive(Clone, Copy, Debug, PartialEq, Eq, Hash)]
pub enum SyntaxKind {
    /// The end of the tokens: no more of the text is left.
    End,
    /// Text that isn't valid Typst, such as a `)` that nothing opened.
    Error,
    /// A script's first line, for the system that runs it: `#!/usr/bin/env typst`.
    Shebang,
    /// A comment to the end of its line: `// to do`.
    LineComment,
    /// A comment between two marks: `/* to do */`.
    BlockComment,
    /// Markup, as in a file or between brackets: `A *bold* word`.
    Markup,
    /// Plain text: `Hello`.
    Text,
    /// White space. In markup it has at most one line break.
    Space,
    /// A line break within a paragraph: `one \ two`.
    Linebreak,
    /// White space with an empty line, which ends a paragraph.
    Parbreak,
    /// A character that stands for itself, or that is given by its number: `\*`, `\u{2603}`.
    Escape,
    /// Signs in markup that stand for one character: `--`, `~`.
    Shorthand,
    /// A quote, which is set by the rules of the language: `"` or `'`.
    SmartQuote,
    /// Content between stars: `*bold*`.
    Strong,
    /// Content between underscores: `_stressed_`.
    Emph,
    /// Text that is kept as it is written: `` `let x` ``.
    Raw,
    /// The language at the start of a raw text: the `rust` of ```` ```rust fn main``` ````.
    RawLang,
    /// The backticks at either end of a raw text: the two `` ` `` of `` `let x` ``.
    RawDelim,
    /// White space that isn't a part of a raw text: line breaks at its ends, and the indentation of its lines.
    RawTrimmed,
    /// An address that is written out: `https://example.org`.
    Link,
    /// A name by which references find what comes before it: `<intro>`.
    Label,
    /// A reference to a label: `@intro`, `@intro[Chapter]`.
    Ref,
    /// The sign and the label of a reference: the `@intro` of `@intro[Chapter]`.
    RefMarker,
    /// A heading: `= Introduction`.
    Heading,
    /// The signs before a heading, one for each level: the `==` of `== Results`.
    HeadingMarker,
    /// An item of a list with bullets: `- milk`.
    ListItem,
    /// The sign before an item of a list with bullets: the `-` of `- milk`.
    ListMarker,
    /// An item of a numbered list: `+ boil`, `3. serve`.
    EnumItem,
    /// The sign or the number before an item of a numbered list: `+`, `3.`.
    EnumMarker,
    /// A term with its meaning: `/ Leaf: a node without children`.
    TermItem,
    /// The sign before a term: the `/` of `/ Leaf: a node without children`.
    TermMarker,
    /// An equation: `$a^2$` in a line, `$ a^2 $` as a block.
    Equation,
    /// The content of an equation or of a part of one: the `a^2 + b` of `$a^2 + b$`.
    Math,
    /// A character or a number that stands for itself in an equation: `a`, `2.5`, `=`.
    MathText,
    /// A name of two letters or more in an equation: `alpha`.
    MathIdent,
    /// A field of a name in an equation: `arrow.l`.
    MathFieldAccess,
    /// Signs in an equation that stand for one character: `->`, `<=`.
    MathShorthand,
    /// A point at which the lines of an equation are aligned: `&`.
    MathAlignPoint,
    /// A call in an equation: `vec(1, 2)`.
    MathCall,
    /// The arguments of a call in an equation, with their parentheses: the `(1, 2)` of `vec(1, 2)`.
    MathArgs,
    /// A part of an equation between two delimiters: `[a + b]`.
    MathDelimited,
    /// A base with what is above and below it: `x_1^2`.
    MathAttach,
    /// Primes after a base: the `''` of `f''`.
    MathPrimes,
    /// A fraction: `a/b`.
    MathFrac,
    /// A root by its sign: `√x`, `∛x`.
    MathRoot,
    /// The sign that leads from markup into code: `#`.
    Hash,
    /// An opening brace: `{`.
    LeftBrace,
    /// A closing brace: `}`.
    RightBrace,
    /// An opening bracket: `[`.
    LeftBracket,
    /// A closing bracket: `]`.
    RightBracket,
    /// An opening parenthesis: `(`.
    LeftParen,
    /// A closing parenthesis: `)`.
    RightParen,
    /// A comma: `,`.
    Comma,
    /// A semicolon: `;`.
    Semicolon,
    /// A colon: `:`.
    Colon,
    /// A star, around strong content or between factors: `*`.
    Star,
    /// An underscore, around emphasized content or for a part that a pattern skips: `_`.
    Underscore,
    /// The sign at either end of an equation: `$`.
    Dollar,
    /// A plus sign: `+`.
    Plus,
    /// A minus sign: `-`.
    Minus,
    /// A slash, between the two parts of a quotient: `/`.
    Slash,
    /// The sign before the part above a base: `^`.
    Hat,
    /// The dot before a field: `.`.
    Dot,
    /// The sign of a binding or an assignment: `=`.
    Eq,
    /// The operator that asks whether two values are equal: `==`.
    EqEq,
    /// The operator that asks whether two values differ: `!=`.
    ExclEq,
    /// The operator for less: `<`.
    Lt,
    /// The operator for less or equal: `<=`.
    LtEq,
    /// The operator for greater: `>`.
    Gt,
    /// The operator for greater or equal: `>=`.
    GtEq,
    /// The assignment that adds: `+=`.
    PlusEq,
    /// The assignment that subtracts: `-=`.
    HyphEq,
    /// The assignment that multiplies: `*=`.
    StarEq,
    /// The assignment that divides: `/=`.
    SlashEq,
    /// The dots of a spread: `..`.
    Dots,
    /// The arrow between a closure's parameters and its body: `=>`.
    Arrow,
    /// The sign of a root: `√`, `∛`, `∜`.
    Root,
    /// The exclamation mark in an equation: `!`.
    Bang,
    /// The operator `not`.
    Not,
    /// The operator `and`.
    And,
    /// The operator `or`.
    Or,
    /// The value `none`.
    None,
    /// The value `auto`.
    Auto,
    /// The keyword `let`.
    Let,
    /// The keyword `set`.
    Set,
    /// The keyword `show`.
    Show,
    /// The keyword `context`.
    Context,
    /// The keyword `if`.
    If,
    /// The keyword `else`.
    Else,
    /// The keyword `for`.
    For,
    /// The keyword `in`.
    In,
    /// The keyword `while`.
    While,
    /// The keyword `break`.
    Break,
    /// The keyword `continue`.
    Continue,
    /// The keyword `return`.
    Return,
    /// The keyword `import`.
    Import,
    /// The keyword `include`.
    Include,
    /// The keyword `as`.
    As,
    /// The expressions in a code block: the `f(); g()` of `{ f(); g() }`.
    Code,
    /// A name in code: `width`.
    Ident,
    /// A truth value: `true`, `false`.
    Bool,
    /// A whole number: `42`, `0x2a`.
    Int,
    /// A number with a point or an exponent: `0.5`, `1e3`.
    Float,
    /// A number with a unit: `2cm`, `30%`.
    Numeric,
    /// A text between quotes: `"two\nlines"`.
    Str,
    /// Code between braces: `{ let a = 1; a }`.
    CodeBlock,
    /// Markup between brackets: `[A *bold* word]`.
    ContentBlock,
    /// An expression in parentheses: `(a + b)`.
    Parenthesized,
    /// An array: `(1, 2, 3)`.
    Array,
    /// A dictionary: `(width: 2cm, "key": 1)`.
    Dict,
    /// A name with a value: the `width: 2cm` of `(width: 2cm)`.
    Named,
    /// A key that isn't a name, with a value: the `"key": 1` of `("key": 1)`.
    Keyed,
    /// An operator before its operand: `-a`, `not a`.
    Unary,
    /// An operator between two operands: `a + b`, `a in b`.
    Binary,
    /// A field of a value: `page.width`.
    FieldAccess,
    /// A call: `calc.max(a, b)`, `list[A][B]`.
    FuncCall,
    /// The arguments of a call, with content after them: the `(a, size: 2cm)[B]` of `box(a, size: 2cm)[B]`.
    Args,
    /// A value that is spread, or a sink that takes the rest: `..items`.
    Spread,
    /// A function without a name, or one that `let` binds: `(a, b) => a + b`.
    Closure,
    /// The parameters of a closure: the `(a, b: 1)` of `(a, b: 1) => a`.
    Params,
    /// A binding: `let a = 1`, `let f(x) = x`.
    LetBinding,
    /// A rule that sets parameters for what comes after it: `set text(size: 9pt)`.
    SetRule,
    /// A rule that says how elements are shown: `show heading: it => it.body`.
    ShowRule,
    /// An expression that depends on its place in the document: `context text.size`.
    Contextual,
    /// A choice: `if a { b } else { c }`.
    Conditional,
    /// A loop while a condition holds: `while a < 3 { a += 1 }`.
    WhileLoop,
    /// A loop over items: `for a in list { a }`.
    ForLoop,
    /// An import of a module: `import "shapes.typ": circle as ring`.
    ModuleImport,
    /// The items that an import names: the `circle, square` of `import "shapes.typ": circle, square`.
    ImportItems,
    /// The path of an item that an import names: the `round.circle` of `import "shapes.typ": round.circle`.
    ImportItemPath,
    /// An item that an import brings in under another name: the `circle as ring` of `import "shapes.typ": circle as ring`.
    RenamedImportItem,
    /// The content of another file: `include "chapter.typ"`.
    ModuleInclude,
    /// The end of a loop: `break`.
    LoopBreak,
    /// The next round of a loop: `continue`.
    LoopContinue,
    /// The end of a function, with a value or without: `return a`.
    FuncReturn,
    /// A pattern with several parts: the `(a, .., b)` of `let (a, .., b) = list`.
    Destructuring,
    /// An assignment to several places at once: `(a, b) = (b, a)`.
    DestructAssignment,
}

/// All kinds, in the order of their numbers.
pub(crate) const KINDS: [SyntaxKind; 137] = [
    SyntaxKind::End,
    SyntaxKind::Error,
    SyntaxKind::Shebang,
    SyntaxKind::LineComment,
    SyntaxKind::BlockComment,
    SyntaxKind::Markup,
    SyntaxKind::Text,
    SyntaxKind::Space,
    SyntaxKind::Linebreak,
    SyntaxKind::Parbreak,
    SyntaxKind::Escape,
    SyntaxKind::Shorthand,
    SyntaxKind::SmartQuote,
    SyntaxKind::Strong,
    SyntaxKind::Emph,
    SyntaxKind::Raw,
    SyntaxKind::RawLang,
    SyntaxKind::RawDelim,
    SyntaxKind::RawTrimmed,
    SyntaxKind::Link,
    SyntaxKind::Label,
    SyntaxKind::Ref,
    SyntaxKind::RefMarker,
    SyntaxKind::Heading,
    SyntaxKind::HeadingMarker,
    SyntaxKind::ListItem,
    SyntaxKind::ListMarker,
    SyntaxKind::EnumItem,
    SyntaxKind::EnumMarker,
    SyntaxKind::TermItem,
    SyntaxKind::TermMarker,
    SyntaxKind::Equation,
    SyntaxKind::Math,
    SyntaxKind::MathText,
    SyntaxKind::MathIdent,
    SyntaxKind::MathFieldAccess,
    SyntaxKind::MathShorthand,
    SyntaxKind::MathAlignPoint,
    SyntaxKind::MathCall,
    SyntaxKind::MathArgs,
    SyntaxKind::MathDelimited,
    SyntaxKind::MathAttach,
    SyntaxKind::MathPrimes,
    SyntaxKind::MathFrac,
    SyntaxKind::MathRoot,
    SyntaxKind::Hash,
    SyntaxKind::LeftBrace,
    SyntaxKind::RightBrace,
    SyntaxKind::LeftBracket,
    SyntaxKind::RightBracket,
    SyntaxKind::LeftParen,
    SyntaxKind::RightParen,
    SyntaxKind::Comma,
    SyntaxKind::Semicolon,
    SyntaxKind::Colon,
    SyntaxKind::Star,
    SyntaxKind::Underscore,
    SyntaxKind::Dollar,
    SyntaxKind::Plus,
    SyntaxKind::Minus,
    SyntaxKind::Slash,
    SyntaxKind::Hat,
    SyntaxKind::Dot,
    SyntaxKind::Eq,
    SyntaxKind::EqEq,
    SyntaxKind::ExclEq,
    SyntaxKind::Lt,
    SyntaxKind::LtEq,
    SyntaxKind::Gt,
    SyntaxKind::GtEq,
    SyntaxKind::PlusEq,
    SyntaxKind::HyphEq,
    SyntaxKind::StarEq,
    SyntaxKind::SlashEq,
    SyntaxKind::Dots,
    SyntaxKind::Arrow,
    SyntaxKind::Root,
    SyntaxKind::Bang,
    SyntaxKind::Not,
    SyntaxKind::And,
    SyntaxKind::Or,
    SyntaxKind::None,
    SyntaxKind::Auto,
    SyntaxKind::Let,
    SyntaxKind::Set,
    SyntaxKind::Show,
    SyntaxKind::Context,
    SyntaxKind::If,
    SyntaxKind::Else,
    SyntaxKind::For,
    SyntaxKind::In,
    SyntaxKind::While,
    SyntaxKind::Break,
    SyntaxKind::Continue,
    SyntaxKind::Return,
    SyntaxKind::Import,
    SyntaxKind::Include,
    SyntaxKind::As,
    SyntaxKind::Code,
    SyntaxKind::Ident,
    SyntaxKind::Bool,
    SyntaxKind::Int,
    SyntaxKind::Float,
    SyntaxKind::Numeric,
    SyntaxKind::Str,
    SyntaxKind::CodeBlock,
    SyntaxKind::ContentBlock,
    SyntaxKind::Parenthesized,
    SyntaxKind::Array,
    SyntaxKind::Dict,
    SyntaxKind::Named,
    SyntaxKind::Keyed,
    SyntaxKind::Unary,
    SyntaxKind::Binary,
    SyntaxKind::FieldAccess,
    SyntaxKind::FuncCall,
    SyntaxKind::Args,
    SyntaxKind::Spread,
    SyntaxKind::Closure,
    SyntaxKind::Params,
    SyntaxKind::LetBinding,
    SyntaxKind::SetRule,
    SyntaxKind::ShowRule,
    SyntaxKind::Contextual,
    SyntaxKind::Conditional,
    SyntaxKind::WhileLoop,
    SyntaxKind::ForLoop,
    SyntaxKind::ModuleImport,
    SyntaxKind::ImportItems,
    SyntaxKind::ImportItemPath,
    SyntaxKind::RenamedImportItem,
    SyntaxKind::ModuleInclude,
    SyntaxKind::LoopBreak,
    SyntaxKind::LoopContinue,
    SyntaxKind::FuncReturn,
    SyntaxKind::Destructuring,
    SyntaxKind::DestructAssignment,
];
