// Written by bench/kinds.py from crates/kinds.txt: change that and run it.
//! Typed views of a syntax tree, under the names that evaluators, formatters and linters know.
//!
//! A view is a node of its kinds, or a placeholder for a missing node. So reading a tree never fails.

// A view for each kind that has one.
pub use typst_ast::views::{
    Args, Array, Auto, Binary, BlockComment, Bool, Closure, Code, CodeBlock, Conditional,
    ContentBlock, Contextual, DestructAssignment, Destructuring, Dict, Emph, EnumItem, Equation,
    Escape, FieldAccess, Float, ForLoop, FuncCall, FuncReturn, Heading, Ident, ImportItemPath,
    ImportItems, Int, Keyed, Label, LetBinding, LineComment, Linebreak, Link, ListItem, LoopBreak,
    LoopContinue, Markup, Math, MathAlignPoint, MathArgs, MathAttach, MathCall, MathDelimited,
    MathFieldAccess, MathFrac, MathIdent, MathPrimes, MathRoot, MathShorthand, MathText,
    ModuleImport, ModuleInclude, Named, None, Numeric, Params, Parbreak, Parenthesized, Raw,
    RawDelim, RawLang, Ref, RenamedImportItem, SetRule, Shorthand, ShowRule, SmartQuote, Space,
    Spread, Str, Strong, TermItem, Text, Unary, Underscore, WhileLoop,
};

// Views of several kinds, lists of views, and what views answer.
pub use typst_ast::bare_names::BareNameResult;
pub use typst_ast::{
    Arg, ArrayItem, BareImportError, DestructuringItem, DictItem, Expr, Exprs, Imports,
    LetBindingKind, MathArg, MathArgItem, MathArgItems, MathArgList, Param, Pattern, View,
    file_stem, is_alike,
};
pub use typst_atoms::{
    Assoc, BinOp, ImportItem, MathAccess, MathTextKind, UnOp, Unit, cast_all, cast_first,
    cast_last, try_cast_first, try_cast_last,
};
pub use typst_node::{AstNode, Items};
