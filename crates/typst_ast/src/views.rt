// Written by bench/kinds.py from crates/kinds.txt: change that and run it.
//! The views of one kind: those of this crate, and those that its views answer.
use crate::view::View;
use typst_atoms::markers as kinds;
pub use typst_atoms::views::{
    Auto, BlockComment, Bool, Escape, Float, Ident, ImportItemPath, ImportItems, Int, Label,
    LineComment, Linebreak, Link, LoopBreak, LoopContinue, MathAlignPoint, MathFieldAccess,
    MathIdent, MathPrimes, MathShorthand, MathText, None, Numeric, Parbreak, Raw, RawDelim,
    RawLang, RenamedImportItem, Shorthand, SmartQuote, Space, Str, Text, Underscore,
};

/// Markup, as in a file or between brackets: `A *bold* word`.
pub type Markup<'a> = View<'a, kinds::MarkupKind>;

/// Content between stars: `*bold*`.
pub type Strong<'a> = View<'a, kinds::StrongKind>;

/// Content between underscores: `_stressed_`.
pub type Emph<'a> = View<'a, kinds::EmphKind>;

/// A reference to a label: `@intro`, `@intro[Chapter]`.
pub type Ref<'a> = View<'a, kinds::RefKind>;

/// A heading: `= Introduction`.
pub type Heading<'a> = View<'a, kinds::HeadingKind>;

/// An item of a list with bullets: `- milk`.
pub type ListItem<'a> = View<'a, kinds::ListItemKind>;

/// An item of a numbered list: `+ boil`, `3. serve`.
pub type EnumItem<'a> = View<'a, kinds::EnumItemKind>;

/// A term with its meaning: `/ Leaf: a node without children`.
pub type TermItem<'a> = View<'a, kinds::TermItemKind>;

/// An equation: `$a^2$` in a line, `$ a^2 $` as a block.
pub type Equation<'a> = View<'a, kinds::EquationKind>;

/// The content of an equation or of a part of one: the `a^2 + b` of `$a^2 + b$`.
pub type Math<'a> = View<'a, kinds::MathKind>;

/// A call in an equation: `vec(1, 2)`.
pub type MathCall<'a> = View<'a, kinds::MathCallKind>;

/// The arguments of a call in an equation, with their parentheses: the `(1, 2)` of `vec(1, 2)`.
pub type MathArgs<'a> = View<'a, kinds::MathArgsKind>;

/// A part of an equation between two delimiters: `[a + b]`.
pub type MathDelimited<'a> = View<'a, kinds::MathDelimitedKind>;

/// A base with what is above and below it: `x_1^2`.
pub type MathAttach<'a> = View<'a, kinds::MathAttachKind>;

/// A fraction: `a/b`.
pub type MathFrac<'a> = View<'a, kinds::MathFracKind>;

/// A root by its sign: `√x`, `∛x`.
pub type MathRoot<'a> = View<'a, kinds::MathRootKind>;

/// The expressions in a code block: the `f(); g()` of `{ f(); g() }`.
pub type Code<'a> = View<'a, kinds::CodeKind>;

/// Code between braces: `{ let a = 1; a }`.
pub type CodeBlock<'a> = View<'a, kinds::CodeBlockKind>;

/// Markup between brackets: `[A *bold* word]`.
pub type ContentBlock<'a> = View<'a, kinds::ContentBlockKind>;

/// An expression in parentheses: `(a + b)`.
pub type Parenthesized<'a> = View<'a, kinds::ParenthesizedKind>;

/// An array: `(1, 2, 3)`.
pub type Array<'a> = View<'a, kinds::ArrayKind>;

/// A dictionary: `(width: 2cm, "key": 1)`.
pub type Dict<'a> = View<'a, kinds::DictKind>;

/// A name with a value: the `width: 2cm` of `(width: 2cm)`.
pub type Named<'a> = View<'a, kinds::NamedKind>;

/// A key that isn't a name, with a value: the `"key": 1` of `("key": 1)`.
pub type Keyed<'a> = View<'a, kinds::KeyedKind>;

/// An operator before its operand: `-a`, `not a`.
pub type Unary<'a> = View<'a, kinds::UnaryKind>;

/// An operator between two operands: `a + b`, `a in b`.
pub type Binary<'a> = View<'a, kinds::BinaryKind>;

/// A field of a value: `page.width`.
pub type FieldAccess<'a> = View<'a, kinds::FieldAccessKind>;

/// A call: `calc.max(a, b)`, `list[A][B]`.
pub type FuncCall<'a> = View<'a, kinds::FuncCallKind>;

/// The arguments of a call, with content after them: the `(a, size: 2cm)[B]` of `box(a, size: 2cm)[B]`.
pub type Args<'a> = View<'a, kinds::ArgsKind>;

/// A value that is spread, or a sink that takes the rest: `..items`.
pub type Spread<'a> = View<'a, kinds::SpreadKind>;

/// A function without a name, or one that `let` binds: `(a, b) => a + b`.
pub type Closure<'a> = View<'a, kinds::ClosureKind>;

/// The parameters of a closure: the `(a, b: 1)` of `(a, b: 1) => a`.
pub type Params<'a> = View<'a, kinds::ParamsKind>;

/// A binding: `let a = 1`, `let f(x) = x`.
pub type LetBinding<'a> = View<'a, kinds::LetBindingKind>;

/// A rule that sets parameters for what comes after it: `set text(size: 9pt)`.
pub type SetRule<'a> = View<'a, kinds::SetRuleKind>;

/// A rule that says how elements are shown: `show heading: it => it.body`.
pub type ShowRule<'a> = View<'a, kinds::ShowRuleKind>;

/// An expression that depends on its place in the document: `context text.size`.
pub type Contextual<'a> = View<'a, kinds::ContextualKind>;

/// A choice: `if a { b } else { c }`.
pub type Conditional<'a> = View<'a, kinds::ConditionalKind>;

/// A loop while a condition holds: `while a < 3 { a += 1 }`.
pub type WhileLoop<'a> = View<'a, kinds::WhileLoopKind>;

/// A loop over items: `for a in list { a }`.
pub type ForLoop<'a> = View<'a, kinds::ForLoopKind>;

/// An import of a module: `import "shapes.typ": circle as ring`.
pub type ModuleImport<'a> = View<'a, kinds::ModuleImportKind>;

/// The content of another file: `include "chapter.typ"`.
pub type ModuleInclude<'a> = View<'a, kinds::ModuleIncludeKind>;

/// The end of a function, with a value or without: `return a`.
pub type FuncReturn<'a> = View<'a, kinds::FuncReturnKind>;

/// A pattern with several parts: the `(a, .., b)` of `let (a, .., b) = list`.
pub type Destructuring<'a> = View<'a, kinds::DestructuringKind>;

/// An assignment to several places at once: `(a, b) = (b, a)`.
pub type DestructAssignment<'a> = View<'a, kinds::DestructAssignmentKind>;
