// Written by bench/kinds.py from crates/kinds.txt: change that and run it.
//! Expressions.
ghost use Rattle.std.specs.Prelude.{◌≡◌};
ghost use Rattle.typst_ast.specs.ExprClasses.{is_hash_kind, is_literal_kind};
ghost use Rattle.typst_atoms.specs.ExprKinds.{is_expr_kind};

use crate::views as of;
use typst_atoms::same_views::Parts;
use typst_base::{Span, SyntaxKind};
use typst_node::{AstNode, SyntaxNode, span_of};

/// An expression in markup, math or code.
///
/// Each variant holds the view of the kind of its own name. Two expressions are equal if their kinds and their nodes
/// are equal, spans and bounds included.
#[derive(Clone, Copy)]
pub enum Expr<'a> {
    /// Plain text: `Hello`.
    Text(of::Text<'a>),
    /// White space. In markup it has at most one line break.
    Space(of::Space<'a>),
    /// A line break within a paragraph: `one \ two`.
    Linebreak(of::Linebreak<'a>),
    /// White space with an empty line, which ends a paragraph.
    Parbreak(of::Parbreak<'a>),
    /// A character that stands for itself, or that is given by its number: `\*`, `\u{2603}`.
    Escape(of::Escape<'a>),
    /// Signs in markup that stand for one character: `--`, `~`.
    Shorthand(of::Shorthand<'a>),
    /// A quote, which is set by the rules of the language: `"` or `'`.
    SmartQuote(of::SmartQuote<'a>),
    /// Content between stars: `*bold*`.
    Strong(of::Strong<'a>),
    /// Content between underscores: `_stressed_`.
    Emph(of::Emph<'a>),
    /// Text that is kept as it is written: `` `let x` ``.
    Raw(of::Raw<'a>),
    /// An address that is written out: `https://example.org`.
    Link(of::Link<'a>),
    /// A name by which references find what comes before it: `<intro>`.
    Label(of::Label<'a>),
    /// A reference to a label: `@intro`, `@intro[Chapter]`.
    Ref(of::Ref<'a>),
    /// A heading: `= Introduction`.
    Heading(of::Heading<'a>),
    /// An item of a list with bullets: `- milk`.
    ListItem(of::ListItem<'a>),
    /// An item of a numbered list: `+ boil`, `3. serve`.
    EnumItem(of::EnumItem<'a>),
    /// A term with its meaning: `/ Leaf: a node without children`.
    TermItem(of::TermItem<'a>),
    /// An equation: `$a^2$` in a line, `$ a^2 $` as a block.
    Equation(of::Equation<'a>),
    /// The content of an equation or of a part of one: the `a^2 + b` of `$a^2 + b$`.
    Math(of::Math<'a>),
    /// A character or a number that stands for itself in an equation: `a`, `2.5`, `=`.
    MathText(of::MathText<'a>),
    /// A name of two letters or more in an equation: `alpha`.
    MathIdent(of::MathIdent<'a>),
    /// A field of a name in an equation: `arrow.l`.
    MathFieldAccess(of::MathFieldAccess<'a>),
    /// Signs in an equation that stand for one character: `->`, `<=`.
    MathShorthand(of::MathShorthand<'a>),
    /// A point at which the lines of an equation are aligned: `&`.
    MathAlignPoint(of::MathAlignPoint<'a>),
    /// A call in an equation: `vec(1, 2)`.
    MathCall(of::MathCall<'a>),
    /// A part of an equation between two delimiters: `[a + b]`.
    MathDelimited(of::MathDelimited<'a>),
    /// A base with what is above and below it: `x_1^2`.
    MathAttach(of::MathAttach<'a>),
    /// Primes after a base: the `''` of `f''`.
    MathPrimes(of::MathPrimes<'a>),
    /// A fraction: `a/b`.
    MathFrac(of::MathFrac<'a>),
    /// A root by its sign: `√x`, `∛x`.
    MathRoot(of::MathRoot<'a>),
    /// The value `none`.
    None(of::None<'a>),
    /// The value `auto`.
    Auto(of::Auto<'a>),
    /// A name in code: `width`.
    Ident(of::Ident<'a>),
    /// A truth value: `true`, `false`.
    Bool(of::Bool<'a>),
    /// A whole number: `42`, `0x2a`.
    Int(of::Int<'a>),
    /// A number with a point or an exponent: `0.5`, `1e3`.
    Float(of::Float<'a>),
    /// A number with a unit: `2cm`, `30%`.
    Numeric(of::Numeric<'a>),
    /// A text between quotes: `"two\nlines"`.
    Str(of::Str<'a>),
    /// Code between braces: `{ let a = 1; a }`.
    CodeBlock(of::CodeBlock<'a>),
    /// Markup between brackets: `[A *bold* word]`.
    ContentBlock(of::ContentBlock<'a>),
    /// An expression in parentheses: `(a + b)`.
    Parenthesized(of::Parenthesized<'a>),
    /// An array: `(1, 2, 3)`.
    Array(of::Array<'a>),
    /// A dictionary: `(width: 2cm, "key": 1)`.
    Dict(of::Dict<'a>),
    /// An operator before its operand: `-a`, `not a`.
    Unary(of::Unary<'a>),
    /// An operator between two operands: `a + b`, `a in b`.
    Binary(of::Binary<'a>),
    /// A field of a value: `page.width`.
    FieldAccess(of::FieldAccess<'a>),
    /// A call: `calc.max(a, b)`, `list[A][B]`.
    FuncCall(of::FuncCall<'a>),
    /// A function without a name, or one that `let` binds: `(a, b) => a + b`.
    Closure(of::Closure<'a>),
    /// A binding: `let a = 1`, `let f(x) = x`.
    LetBinding(of::LetBinding<'a>),
    /// A rule that sets parameters for what comes after it: `set text(size: 9pt)`.
    SetRule(of::SetRule<'a>),
    /// A rule that says how elements are shown: `show heading: it => it.body`.
    ShowRule(of::ShowRule<'a>),
    /// An expression that depends on its place in the document: `context text.size`.
    Contextual(of::Contextual<'a>),
    /// A choice: `if a { b } else { c }`.
    Conditional(of::Conditional<'a>),
    /// A loop while a condition holds: `while a < 3 { a += 1 }`.
    WhileLoop(of::WhileLoop<'a>),
    /// A loop over items: `for a in list { a }`.
    ForLoop(of::ForLoop<'a>),
    /// An import of a module: `import "shapes.typ": circle as ring`.
    ModuleImport(of::ModuleImport<'a>),
    /// The content of another file: `include "chapter.typ"`.
    ModuleInclude(of::ModuleInclude<'a>),
    /// The end of a loop: `break`.
    LoopBreak(of::LoopBreak<'a>),
    /// The next round of a loop: `continue`.
    LoopContinue(of::LoopContinue<'a>),
    /// The end of a function, with a value or without: `return a`.
    FuncReturn(of::FuncReturn<'a>),
    /// An assignment to several places at once: `(a, b) = (b, a)`.
    DestructAssignment(of::DestructAssignment<'a>),
}

impl<'a> AstNode<'a> for Expr<'a> {
    ghost use Rattle.std.specs.Prelude.{refl};
    ghost use Rattle.typst_ast.specs.ExprTable.{expr_node, expr_kind, expr_kind_is_node_kind};
    ghost use Rattle.typst_base.specs.declared.kind.SyntaxKind.TheVariants as kinds;

    ghost class = { is_expr_kind };

    ghost node_of = { expr_node };

    ghost view_kind = { expr_kind };

    ghost blank = { kinds.None };

    ghost blank_in_class = { refl };

    ghost kind_is_node_kind = { expr_kind_is_node_kind };

    // Inlined, so that the caller decides at once what becomes of the answer. An option of an expression takes four
    // words.
    #[inline(always)]
    fn from_untyped(node: &'a SyntaxNode) -> Option<Self> {
        Some(match node.kind() {
            SyntaxKind::Text => Expr::Text(of::Text::of_kind(node)),
            SyntaxKind::Linebreak => Expr::Linebreak(of::Linebreak::of_kind(node)),
            SyntaxKind::Parbreak => Expr::Parbreak(of::Parbreak::of_kind(node)),
            SyntaxKind::Escape => Expr::Escape(of::Escape::of_kind(node)),
            SyntaxKind::Shorthand => Expr::Shorthand(of::Shorthand::of_kind(node)),
            SyntaxKind::SmartQuote => Expr::SmartQuote(of::SmartQuote::of_kind(node)),
            SyntaxKind::Strong => Expr::Strong(of::Strong::of_kind(node)),
            SyntaxKind::Emph => Expr::Emph(of::Emph::of_kind(node)),
            SyntaxKind::Raw => Expr::Raw(of::Raw::of_kind(node)),
            SyntaxKind::Link => Expr::Link(of::Link::of_kind(node)),
            SyntaxKind::Label => Expr::Label(of::Label::of_kind(node)),
            SyntaxKind::Ref => Expr::Ref(of::Ref::of_kind(node)),
            SyntaxKind::Heading => Expr::Heading(of::Heading::of_kind(node)),
            SyntaxKind::ListItem => Expr::ListItem(of::ListItem::of_kind(node)),
            SyntaxKind::EnumItem => Expr::EnumItem(of::EnumItem::of_kind(node)),
            SyntaxKind::TermItem => Expr::TermItem(of::TermItem::of_kind(node)),
            SyntaxKind::Equation => Expr::Equation(of::Equation::of_kind(node)),
            SyntaxKind::Math => Expr::Math(of::Math::of_kind(node)),
            SyntaxKind::MathText => Expr::MathText(of::MathText::of_kind(node)),
            SyntaxKind::MathIdent => Expr::MathIdent(of::MathIdent::of_kind(node)),
            SyntaxKind::MathFieldAccess => {
                Expr::MathFieldAccess(of::MathFieldAccess::of_kind(node))
            }
            SyntaxKind::MathShorthand => Expr::MathShorthand(of::MathShorthand::of_kind(node)),
            SyntaxKind::MathAlignPoint => Expr::MathAlignPoint(of::MathAlignPoint::of_kind(node)),
            SyntaxKind::MathCall => Expr::MathCall(of::MathCall::of_kind(node)),
            SyntaxKind::MathDelimited => Expr::MathDelimited(of::MathDelimited::of_kind(node)),
            SyntaxKind::MathAttach => Expr::MathAttach(of::MathAttach::of_kind(node)),
            SyntaxKind::MathPrimes => Expr::MathPrimes(of::MathPrimes::of_kind(node)),
            SyntaxKind::MathFrac => Expr::MathFrac(of::MathFrac::of_kind(node)),
            SyntaxKind::MathRoot => Expr::MathRoot(of::MathRoot::of_kind(node)),
            SyntaxKind::None => Expr::None(of::None::of_kind(node)),
            SyntaxKind::Auto => Expr::Auto(of::Auto::of_kind(node)),
            SyntaxKind::Ident => Expr::Ident(of::Ident::of_kind(node)),
            SyntaxKind::Bool => Expr::Bool(of::Bool::of_kind(node)),
            SyntaxKind::Int => Expr::Int(of::Int::of_kind(node)),
            SyntaxKind::Float => Expr::Float(of::Float::of_kind(node)),
            SyntaxKind::Numeric => Expr::Numeric(of::Numeric::of_kind(node)),
            SyntaxKind::Str => Expr::Str(of::Str::of_kind(node)),
            SyntaxKind::CodeBlock => Expr::CodeBlock(of::CodeBlock::of_kind(node)),
            SyntaxKind::ContentBlock => Expr::ContentBlock(of::ContentBlock::of_kind(node)),
            SyntaxKind::Parenthesized => Expr::Parenthesized(of::Parenthesized::of_kind(node)),
            SyntaxKind::Array => Expr::Array(of::Array::of_kind(node)),
            SyntaxKind::Dict => Expr::Dict(of::Dict::of_kind(node)),
            SyntaxKind::Unary => Expr::Unary(of::Unary::of_kind(node)),
            SyntaxKind::Binary => Expr::Binary(of::Binary::of_kind(node)),
            SyntaxKind::FieldAccess => Expr::FieldAccess(of::FieldAccess::of_kind(node)),
            SyntaxKind::FuncCall => Expr::FuncCall(of::FuncCall::of_kind(node)),
            SyntaxKind::Closure => Expr::Closure(of::Closure::of_kind(node)),
            SyntaxKind::LetBinding => Expr::LetBinding(of::LetBinding::of_kind(node)),
            SyntaxKind::SetRule => Expr::SetRule(of::SetRule::of_kind(node)),
            SyntaxKind::ShowRule => Expr::ShowRule(of::ShowRule::of_kind(node)),
            SyntaxKind::Contextual => Expr::Contextual(of::Contextual::of_kind(node)),
            SyntaxKind::Conditional => Expr::Conditional(of::Conditional::of_kind(node)),
            SyntaxKind::WhileLoop => Expr::WhileLoop(of::WhileLoop::of_kind(node)),
            SyntaxKind::ForLoop => Expr::ForLoop(of::ForLoop::of_kind(node)),
            SyntaxKind::ModuleImport => Expr::ModuleImport(of::ModuleImport::of_kind(node)),
            SyntaxKind::ModuleInclude => Expr::ModuleInclude(of::ModuleInclude::of_kind(node)),
            SyntaxKind::LoopBreak => Expr::LoopBreak(of::LoopBreak::of_kind(node)),
            SyntaxKind::LoopContinue => Expr::LoopContinue(of::LoopContinue::of_kind(node)),
            SyntaxKind::FuncReturn => Expr::FuncReturn(of::FuncReturn::of_kind(node)),
            SyntaxKind::DestructAssignment => {
                Expr::DestructAssignment(of::DestructAssignment::of_kind(node))
            }
            _ => return None,
        })
    }

    fn to_untyped(self) -> Option<&'a SyntaxNode> {
        self.parts().node
    }

    fn span(self) -> Span {
        span_of(self.to_untyped())
    }

    fn kind(self) -> SyntaxKind {
        self.parts().kind
    }

    fn placeholder() -> Self {
        Expr::None(of::None::placeholder())
    }
}

impl<'a> Expr<'a> {
    ghost use Rattle.std.specs.Option.{option_copied};
    ghost use Rattle.typst_ast.specs.ExprTable.{expr_kind, expr_node};

    /// The kind and the node, which determine the expression.
    pub(crate) fn parts(self) -> Parts<'a>
        ensures kind { result.kind ≡ expr_kind self.entry }
        ensures node { option_copied result.node ≡ expr_node self.entry }
    {
        match self {
            Expr::Text(view) => Parts::of(view),
            Expr::Space(view) => Parts::of(view),
            Expr::Linebreak(view) => Parts::of(view),
            Expr::Parbreak(view) => Parts::of(view),
            Expr::Escape(view) => Parts::of(view),
            Expr::Shorthand(view) => Parts::of(view),
            Expr::SmartQuote(view) => Parts::of(view),
            Expr::Strong(view) => Parts::of(view),
            Expr::Emph(view) => Parts::of(view),
            Expr::Raw(view) => Parts::of(view),
            Expr::Link(view) => Parts::of(view),
            Expr::Label(view) => Parts::of(view),
            Expr::Ref(view) => Parts::of(view),
            Expr::Heading(view) => Parts::of(view),
            Expr::ListItem(view) => Parts::of(view),
            Expr::EnumItem(view) => Parts::of(view),
            Expr::TermItem(view) => Parts::of(view),
            Expr::Equation(view) => Parts::of(view),
            Expr::Math(view) => Parts::of(view),
            Expr::MathText(view) => Parts::of(view),
            Expr::MathIdent(view) => Parts::of(view),
            Expr::MathFieldAccess(view) => Parts::of(view),
            Expr::MathShorthand(view) => Parts::of(view),
            Expr::MathAlignPoint(view) => Parts::of(view),
            Expr::MathCall(view) => Parts::of(view),
            Expr::MathDelimited(view) => Parts::of(view),
            Expr::MathAttach(view) => Parts::of(view),
            Expr::MathPrimes(view) => Parts::of(view),
            Expr::MathFrac(view) => Parts::of(view),
            Expr::MathRoot(view) => Parts::of(view),
            Expr::None(view) => Parts::of(view),
            Expr::Auto(view) => Parts::of(view),
            Expr::Ident(view) => Parts::of(view),
            Expr::Bool(view) => Parts::of(view),
            Expr::Int(view) => Parts::of(view),
            Expr::Float(view) => Parts::of(view),
            Expr::Numeric(view) => Parts::of(view),
            Expr::Str(view) => Parts::of(view),
            Expr::CodeBlock(view) => Parts::of(view),
            Expr::ContentBlock(view) => Parts::of(view),
            Expr::Parenthesized(view) => Parts::of(view),
            Expr::Array(view) => Parts::of(view),
            Expr::Dict(view) => Parts::of(view),
            Expr::Unary(view) => Parts::of(view),
            Expr::Binary(view) => Parts::of(view),
            Expr::FieldAccess(view) => Parts::of(view),
            Expr::FuncCall(view) => Parts::of(view),
            Expr::Closure(view) => Parts::of(view),
            Expr::LetBinding(view) => Parts::of(view),
            Expr::SetRule(view) => Parts::of(view),
            Expr::ShowRule(view) => Parts::of(view),
            Expr::Contextual(view) => Parts::of(view),
            Expr::Conditional(view) => Parts::of(view),
            Expr::WhileLoop(view) => Parts::of(view),
            Expr::ForLoop(view) => Parts::of(view),
            Expr::ModuleImport(view) => Parts::of(view),
            Expr::ModuleInclude(view) => Parts::of(view),
            Expr::LoopBreak(view) => Parts::of(view),
            Expr::LoopContinue(view) => Parts::of(view),
            Expr::FuncReturn(view) => Parts::of(view),
            Expr::DestructAssignment(view) => Parts::of(view),
        }
    }

    /// Whether it is an expression that may follow a hash in markup.
    pub fn hash(self) -> bool
        ensures { result ≡ is_hash_kind (expr_kind self.entry) }
    {
        match self {
            Expr::None(_) => true,
            Expr::Auto(_) => true,
            Expr::Ident(_) => true,
            Expr::Bool(_) => true,
            Expr::Int(_) => true,
            Expr::Float(_) => true,
            Expr::Numeric(_) => true,
            Expr::Str(_) => true,
            Expr::CodeBlock(_) => true,
            Expr::ContentBlock(_) => true,
            Expr::Parenthesized(_) => true,
            Expr::Array(_) => true,
            Expr::Dict(_) => true,
            Expr::FieldAccess(_) => true,
            Expr::FuncCall(_) => true,
            Expr::LetBinding(_) => true,
            Expr::SetRule(_) => true,
            Expr::ShowRule(_) => true,
            Expr::Contextual(_) => true,
            Expr::Conditional(_) => true,
            Expr::WhileLoop(_) => true,
            Expr::ForLoop(_) => true,
            Expr::ModuleImport(_) => true,
            Expr::ModuleInclude(_) => true,
            Expr::LoopBreak(_) => true,
            Expr::LoopContinue(_) => true,
            Expr::FuncReturn(_) => true,
            _ => false,
        }
    }

    /// Whether it is a literal: `none`, `auto`, a boolean, a number with or without a unit, or a string.
    pub fn is_literal(self) -> bool
        ensures { result ≡ is_literal_kind (expr_kind self.entry) }
    {
        matches!(
            self,
            Expr::None(_)
                | Expr::Auto(_)
                | Expr::Bool(_)
                | Expr::Int(_)
                | Expr::Float(_)
                | Expr::Numeric(_)
                | Expr::Str(_)
        )
    }
}
