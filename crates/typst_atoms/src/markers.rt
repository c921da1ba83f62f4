// Written by bench/kinds.py from crates/kinds.txt: change that and run it.
//! A marker type for each kind that has a view.
ghost use Rattle.typst_base.specs.declared.kind.SyntaxKind.TheVariants as kinds;

use crate::marker::Kind;
use typst_base::SyntaxKind;

/// Marks the views of the kind `LineComment`.
pub struct LineCommentKind;

impl Kind for LineCommentKind {
    ghost KIND = { kinds.LineComment };

    const KIND: SyntaxKind = SyntaxKind::LineComment;
}

/// Marks the views of the kind `BlockComment`.
pub struct BlockCommentKind;

impl Kind for BlockCommentKind {
    ghost KIND = { kinds.BlockComment };

    const KIND: SyntaxKind = SyntaxKind::BlockComment;
}

/// Marks the views of the kind `Markup`.
pub struct MarkupKind;

impl Kind for MarkupKind {
    ghost KIND = { kinds.Markup };

    const KIND: SyntaxKind = SyntaxKind::Markup;
}

/// Marks the views of the kind `Text`.
pub struct TextKind;

impl Kind for TextKind {
    ghost KIND = { kinds.Text };

    const KIND: SyntaxKind = SyntaxKind::Text;
}

/// Marks the views of the kind `Space`.
pub struct SpaceKind;

impl Kind for SpaceKind {
    ghost KIND = { kinds.Space };

    const KIND: SyntaxKind = SyntaxKind::Space;
}

/// Marks the views of the kind `Linebreak`.
pub struct LinebreakKind;

impl Kind for LinebreakKind {
    ghost KIND = { kinds.Linebreak };

    const KIND: SyntaxKind = SyntaxKind::Linebreak;
}

/// Marks the views of the kind `Parbreak`.
pub struct ParbreakKind;

impl Kind for ParbreakKind {
    ghost KIND = { kinds.Parbreak };

    const KIND: SyntaxKind = SyntaxKind::Parbreak;
}

/// Marks the views of the kind `Escape`.
pub struct EscapeKind;

impl Kind for EscapeKind {
    ghost KIND = { kinds.Escape };

    const KIND: SyntaxKind = SyntaxKind::Escape;
}

/// Marks the views of the kind `Shorthand`.
pub struct ShorthandKind;

impl Kind for ShorthandKind {
    ghost KIND = { kinds.Shorthand };

    const KIND: SyntaxKind = SyntaxKind::Shorthand;
}

/// Marks the views of the kind `SmartQuote`.
pub struct SmartQuoteKind;

impl Kind for SmartQuoteKind {
    ghost KIND = { kinds.SmartQuote };

    const KIND: SyntaxKind = SyntaxKind::SmartQuote;
}

/// Marks the views of the kind `Strong`.
pub struct StrongKind;

impl Kind for StrongKind {
    ghost KIND = { kinds.Strong };

    const KIND: SyntaxKind = SyntaxKind::Strong;
}

/// Marks the views of the kind `Emph`.
pub struct EmphKind;

impl Kind for EmphKind {
    ghost KIND = { kinds.Emph };

    const KIND: SyntaxKind = SyntaxKind::Emph;
}

/// Marks the views of the kind `Raw`.
pub struct RawKind;

impl Kind for RawKind {
    ghost KIND = { kinds.Raw };

    const KIND: SyntaxKind = SyntaxKind::Raw;
}

/// Marks the views of the kind `RawLang`.
pub struct RawLangKind;

impl Kind for RawLangKind {
    ghost KIND = { kinds.RawLang };

    const KIND: SyntaxKind = SyntaxKind::RawLang;
}

/// Marks the views of the kind `RawDelim`.
pub struct RawDelimKind;

impl Kind for RawDelimKind {
    ghost KIND = { kinds.RawDelim };

    const KIND: SyntaxKind = SyntaxKind::RawDelim;
}

/// Marks the views of the kind `Link`.
pub struct LinkKind;

impl Kind for LinkKind {
    ghost KIND = { kinds.Link };

    const KIND: SyntaxKind = SyntaxKind::Link;
}

/// Marks the views of the kind `Label`.
pub struct LabelKind;

impl Kind for LabelKind {
    ghost KIND = { kinds.Label };

    const KIND: SyntaxKind = SyntaxKind::Label;
}

/// Marks the views of the kind `Ref`.
pub struct RefKind;

impl Kind for RefKind {
    ghost KIND = { kinds.Ref };

    const KIND: SyntaxKind = SyntaxKind::Ref;
}

/// Marks the views of the kind `Heading`.
pub struct HeadingKind;

impl Kind for HeadingKind {
    ghost KIND = { kinds.Heading };

    const KIND: SyntaxKind = SyntaxKind::Heading;
}

/// Marks the views of the kind `ListItem`.
pub struct ListItemKind;

impl Kind for ListItemKind {
    ghost KIND = { kinds.ListItem };

    const KIND: SyntaxKind = SyntaxKind::ListItem;
}

/// Marks the views of the kind `EnumItem`.
pub struct EnumItemKind;

impl Kind for EnumItemKind {
    ghost KIND = { kinds.EnumItem };

    const KIND: SyntaxKind = SyntaxKind::EnumItem;
}

/// Marks the views of the kind `TermItem`.
pub struct TermItemKind;

impl Kind for TermItemKind {
    ghost KIND = { kinds.TermItem };

    const KIND: SyntaxKind = SyntaxKind::TermItem;
}

/// Marks the views of the kind `Equation`.
pub struct EquationKind;

impl Kind for EquationKind {
    ghost KIND = { kinds.Equation };

    const KIND: SyntaxKind = SyntaxKind::Equation;
}

/// Marks the views of the kind `Math`.
pub struct MathKind;

impl Kind for MathKind {
    ghost KIND = { kinds.Math };

    const KIND: SyntaxKind = SyntaxKind::Math;
}

/// Marks the views of the kind `MathText`.
pub struct MathTextKind;

impl Kind for MathTextKind {
    ghost KIND = { kinds.MathText };

    const KIND: SyntaxKind = SyntaxKind::MathText;
}

/// Marks the views of the kind `MathIdent`.
pub struct MathIdentKind;

impl Kind for MathIdentKind {
    ghost KIND = { kinds.MathIdent };

    const KIND: SyntaxKind = SyntaxKind::MathIdent;
}

/// Marks the views of the kind `MathFieldAccess`.
pub struct MathFieldAccessKind;

impl Kind for MathFieldAccessKind {
    ghost KIND = { kinds.MathFieldAccess };

    const KIND: SyntaxKind = SyntaxKind::MathFieldAccess;
}

/// Marks the views of the kind `MathShorthand`.
pub struct MathShorthandKind;

impl Kind for MathShorthandKind {
    ghost KIND = { kinds.MathShorthand };

    const KIND: SyntaxKind = SyntaxKind::MathShorthand;
}

/// Marks the views of the kind `MathAlignPoint`.
pub struct MathAlignPointKind;

impl Kind for MathAlignPointKind {
    ghost KIND = { kinds.MathAlignPoint };

    const KIND: SyntaxKind = SyntaxKind::MathAlignPoint;
}

/// Marks the views of the kind `MathCall`.
pub struct MathCallKind;

impl Kind for MathCallKind {
    ghost KIND = { kinds.MathCall };

    const KIND: SyntaxKind = SyntaxKind::MathCall;
}

/// Marks the views of the kind `MathArgs`.
pub struct MathArgsKind;

impl Kind for MathArgsKind {
    ghost KIND = { kinds.MathArgs };

    const KIND: SyntaxKind = SyntaxKind::MathArgs;
}

/// Marks the views of the kind `MathDelimited`.
pub struct MathDelimitedKind;

impl Kind for MathDelimitedKind {
    ghost KIND = { kinds.MathDelimited };

    const KIND: SyntaxKind = SyntaxKind::MathDelimited;
}

/// Marks the views of the kind `MathAttach`.
pub struct MathAttachKind;

impl Kind for MathAttachKind {
    ghost KIND = { kinds.MathAttach };

    const KIND: SyntaxKind = SyntaxKind::MathAttach;
}

/// Marks the views of the kind `MathPrimes`.
pub struct MathPrimesKind;

impl Kind for MathPrimesKind {
    ghost KIND = { kinds.MathPrimes };

    const KIND: SyntaxKind = SyntaxKind::MathPrimes;
}

/// Marks the views of the kind `MathFrac`.
pub struct MathFracKind;

impl Kind for MathFracKind {
    ghost KIND = { kinds.MathFrac };

    const KIND: SyntaxKind = SyntaxKind::MathFrac;
}

/// Marks the views of the kind `MathRoot`.
pub struct MathRootKind;

impl Kind for MathRootKind {
    ghost KIND = { kinds.MathRoot };

    const KIND: SyntaxKind = SyntaxKind::MathRoot;
}

/// Marks the views of the kind `Underscore`.
pub struct UnderscoreKind;

impl Kind for UnderscoreKind {
    ghost KIND = { kinds.Underscore };

    const KIND: SyntaxKind = SyntaxKind::Underscore;
}

/// Marks the views of the kind `None`.
pub struct NoneKind;

impl Kind for NoneKind {
    ghost KIND = { kinds.None };

    const KIND: SyntaxKind = SyntaxKind::None;
}

/// Marks the views of the kind `Auto`.
pub struct AutoKind;

impl Kind for AutoKind {
    ghost KIND = { kinds.Auto };

    const KIND: SyntaxKind = SyntaxKind::Auto;
}

/// Marks the views of the kind `Code`.
pub struct CodeKind;

impl Kind for CodeKind {
    ghost KIND = { kinds.Code };

    const KIND: SyntaxKind = SyntaxKind::Code;
}

/// Marks the views of the kind `Ident`.
pub struct IdentKind;

impl Kind for IdentKind {
    ghost KIND = { kinds.Ident };

    const KIND: SyntaxKind = SyntaxKind::Ident;
}

/// Marks the views of the kind `Bool`.
pub struct BoolKind;

impl Kind for BoolKind {
    ghost KIND = { kinds.Bool };

    const KIND: SyntaxKind = SyntaxKind::Bool;
}

/// Marks the views of the kind `Int`.
pub struct IntKind;

impl Kind for IntKind {
    ghost KIND = { kinds.Int };

    const KIND: SyntaxKind = SyntaxKind::Int;
}

/// Marks the views of the kind `Float`.
pub struct FloatKind;

impl Kind for FloatKind {
    ghost KIND = { kinds.Float };

    const KIND: SyntaxKind = SyntaxKind::Float;
}

/// Marks the views of the kind `Numeric`.
pub struct NumericKind;

impl Kind for NumericKind {
    ghost KIND = { kinds.Numeric };

    const KIND: SyntaxKind = SyntaxKind::Numeric;
}

/// Marks the views of the kind `Str`.
pub struct StrKind;

impl Kind for StrKind {
    ghost KIND = { kinds.Str };

    const KIND: SyntaxKind = SyntaxKind::Str;
}

/// Marks the views of the kind `CodeBlock`.
pub struct CodeBlockKind;

impl Kind for CodeBlockKind {
    ghost KIND = { kinds.CodeBlock };

    const KIND: SyntaxKind = SyntaxKind::CodeBlock;
}

/// Marks the views of the kind `ContentBlock`.
pub struct ContentBlockKind;

impl Kind for ContentBlockKind {
    ghost KIND = { kinds.ContentBlock };

    const KIND: SyntaxKind = SyntaxKind::ContentBlock;
}

/// Marks the views of the kind `Parenthesized`.
pub struct ParenthesizedKind;

impl Kind for ParenthesizedKind {
    ghost KIND = { kinds.Parenthesized };

    const KIND: SyntaxKind = SyntaxKind::Parenthesized;
}

/// Marks the views of the kind `Array`.
pub struct ArrayKind;

impl Kind for ArrayKind {
    ghost KIND = { kinds.Array };

    const KIND: SyntaxKind = SyntaxKind::Array;
}

/// Marks the views of the kind `Dict`.
pub struct DictKind;

impl Kind for DictKind {
    ghost KIND = { kinds.Dict };

    const KIND: SyntaxKind = SyntaxKind::Dict;
}

/// Marks the views of the kind `Named`.
pub struct NamedKind;

impl Kind for NamedKind {
    ghost KIND = { kinds.Named };

    const KIND: SyntaxKind = SyntaxKind::Named;
}

/// Marks the views of the kind `Keyed`.
pub struct KeyedKind;

impl Kind for KeyedKind {
    ghost KIND = { kinds.Keyed };

    const KIND: SyntaxKind = SyntaxKind::Keyed;
}

/// Marks the views of the kind `Unary`.
pub struct UnaryKind;

impl Kind for UnaryKind {
    ghost KIND = { kinds.Unary };

    const KIND: SyntaxKind = SyntaxKind::Unary;
}

/// Marks the views of the kind `Binary`.
pub struct BinaryKind;

impl Kind for BinaryKind {
    ghost KIND = { kinds.Binary };

    const KIND: SyntaxKind = SyntaxKind::Binary;
}

/// Marks the views of the kind `FieldAccess`.
pub struct FieldAccessKind;

impl Kind for FieldAccessKind {
    ghost KIND = { kinds.FieldAccess };

    const KIND: SyntaxKind = SyntaxKind::FieldAccess;
}

/// Marks the views of the kind `FuncCall`.
pub struct FuncCallKind;

impl Kind for FuncCallKind {
    ghost KIND = { kinds.FuncCall };

    const KIND: SyntaxKind = SyntaxKind::FuncCall;
}

/// Marks the views of the kind `Args`.
pub struct ArgsKind;

impl Kind for ArgsKind {
    ghost KIND = { kinds.Args };

    const KIND: SyntaxKind = SyntaxKind::Args;
}

/// Marks the views of the kind `Spread`.
pub struct SpreadKind;

impl Kind for SpreadKind {
    ghost KIND = { kinds.Spread };

    const KIND: SyntaxKind = SyntaxKind::Spread;
}

/// Marks the views of the kind `Closure`.
pub struct ClosureKind;

impl Kind for ClosureKind {
    ghost KIND = { kinds.Closure };

    const KIND: SyntaxKind = SyntaxKind::Closure;
}

/// Marks the views of the kind `Params`.
pub struct ParamsKind;

impl Kind for ParamsKind {
    ghost KIND = { kinds.Params };

    const KIND: SyntaxKind = SyntaxKind::Params;
}

/// Marks the views of the kind `LetBinding`.
pub struct LetBindingKind;

impl Kind for LetBindingKind {
    ghost KIND = { kinds.LetBinding };

    const KIND: SyntaxKind = SyntaxKind::LetBinding;
}

/// Marks the views of the kind `SetRule`.
pub struct SetRuleKind;

impl Kind for SetRuleKind {
    ghost KIND = { kinds.SetRule };

    const KIND: SyntaxKind = SyntaxKind::SetRule;
}

/// Marks the views of the kind `ShowRule`.
pub struct ShowRuleKind;

impl Kind for ShowRuleKind {
    ghost KIND = { kinds.ShowRule };

    const KIND: SyntaxKind = SyntaxKind::ShowRule;
}

/// Marks the views of the kind `Contextual`.
pub struct ContextualKind;

impl Kind for ContextualKind {
    ghost KIND = { kinds.Contextual };

    const KIND: SyntaxKind = SyntaxKind::Contextual;
}

/// Marks the views of the kind `Conditional`.
pub struct ConditionalKind;

impl Kind for ConditionalKind {
    ghost KIND = { kinds.Conditional };

    const KIND: SyntaxKind = SyntaxKind::Conditional;
}

/// Marks the views of the kind `WhileLoop`.
pub struct WhileLoopKind;

impl Kind for WhileLoopKind {
    ghost KIND = { kinds.WhileLoop };

    const KIND: SyntaxKind = SyntaxKind::WhileLoop;
}

/// Marks the views of the kind `ForLoop`.
pub struct ForLoopKind;

impl Kind for ForLoopKind {
    ghost KIND = { kinds.ForLoop };

    const KIND: SyntaxKind = SyntaxKind::ForLoop;
}

/// Marks the views of the kind `ModuleImport`.
pub struct ModuleImportKind;

impl Kind for ModuleImportKind {
    ghost KIND = { kinds.ModuleImport };

    const KIND: SyntaxKind = SyntaxKind::ModuleImport;
}

/// Marks the views of the kind `ImportItems`.
pub struct ImportItemsKind;

impl Kind for ImportItemsKind {
    ghost KIND = { kinds.ImportItems };

    const KIND: SyntaxKind = SyntaxKind::ImportItems;
}

/// Marks the views of the kind `ImportItemPath`.
pub struct ImportItemPathKind;

impl Kind for ImportItemPathKind {
    ghost KIND = { kinds.ImportItemPath };

    const KIND: SyntaxKind = SyntaxKind::ImportItemPath;
}

/// Marks the views of the kind `RenamedImportItem`.
pub struct RenamedImportItemKind;

impl Kind for RenamedImportItemKind {
    ghost KIND = { kinds.RenamedImportItem };

    const KIND: SyntaxKind = SyntaxKind::RenamedImportItem;
}

/// Marks the views of the kind `ModuleInclude`.
pub struct ModuleIncludeKind;

impl Kind for ModuleIncludeKind {
    ghost KIND = { kinds.ModuleInclude };

    const KIND: SyntaxKind = SyntaxKind::ModuleInclude;
}

/// Marks the views of the kind `LoopBreak`.
pub struct LoopBreakKind;

impl Kind for LoopBreakKind {
    ghost KIND = { kinds.LoopBreak };

    const KIND: SyntaxKind = SyntaxKind::LoopBreak;
}

/// Marks the views of the kind `LoopContinue`.
pub struct LoopContinueKind;

impl Kind for LoopContinueKind {
    ghost KIND = { kinds.LoopContinue };

    const KIND: SyntaxKind = SyntaxKind::LoopContinue;
}

/// Marks the views of the kind `FuncReturn`.
pub struct FuncReturnKind;

impl Kind for FuncReturnKind {
    ghost KIND = { kinds.FuncReturn };

    const KIND: SyntaxKind = SyntaxKind::FuncReturn;
}

/// Marks the views of the kind `Destructuring`.
pub struct DestructuringKind;

impl Kind for DestructuringKind {
    ghost KIND = { kinds.Destructuring };

    const KIND: SyntaxKind = SyntaxKind::Destructuring;
}

/// Marks the views of the kind `DestructAssignment`.
pub struct DestructAssignmentKind;

impl Kind for DestructAssignmentKind {
    ghost KIND = { kinds.DestructAssignment };

    const KIND: SyntaxKind = SyntaxKind::DestructAssignment;
}
