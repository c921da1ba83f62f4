// Written by bench/accessors.py from crates/accessors.txt: change that and run it.
//! The accessors of views that answer another node, by their numbers.
ghost use Rattle.std.specs.Prelude.{◌≡◌};
ghost use Rattle.typst_accessors.specs.NodeAccessors.{node_number, node_view, markup_number, markup_view, math_number, math_view, code_number, code_view, control_number, control_view, module_number, module_view};
ghost use Rattle.typst_accessors.specs.Numbered.{IsNumbered};

use typst_base::SyntaxKind;

/// An accessor that answers another node, or none, by the part of the syntax that its view is of.
#[derive(Clone, Copy, Debug, PartialEq, Eq)]
pub enum NodeAccessor {
    /// An accessor of markup that answers a node, or none.
    Markup(MarkupAccessor),
    /// An accessor of math that answers a node, or none.
    Math(MathAccessor),
    /// An accessor of code that answers a node, or none.
    Code(CodeAccessor),
    /// An accessor of bindings, rules and control flow that answers a node, or none.
    Control(ControlAccessor),
    /// An accessor of imports and includes that answers a node, or none.
    Module(ModuleAccessor),
}

impl NodeAccessor {
    /// The accessor with a number, if there is one.
    pub(crate) fn of_number(number: u32) -> Option<NodeAccessor>
        ensures { IsNumbered node_number number result }
    {
        if let Some(accessor) = MarkupAccessor::of_number(number) {
            return Some(NodeAccessor::Markup(accessor));
        }
        if let Some(accessor) = MathAccessor::of_number(number) {
            return Some(NodeAccessor::Math(accessor));
        }
        if let Some(accessor) = CodeAccessor::of_number(number) {
            return Some(NodeAccessor::Code(accessor));
        }
        if let Some(accessor) = ControlAccessor::of_number(number) {
            return Some(NodeAccessor::Control(accessor));
        }
        if let Some(accessor) = ModuleAccessor::of_number(number) {
            return Some(NodeAccessor::Module(accessor));
        }
        None
    }

    /// The kind of the nodes that have the accessor.
    pub(crate) fn view(self) -> SyntaxKind
        ensures { result ≡ node_view self }
    {
        match self {
            NodeAccessor::Markup(accessor) => accessor.view(),
            NodeAccessor::Math(accessor) => accessor.view(),
            NodeAccessor::Code(accessor) => accessor.view(),
            NodeAccessor::Control(accessor) => accessor.view(),
            NodeAccessor::Module(accessor) => accessor.view(),
        }
    }
}

/// An accessor of markup that answers a node, or none.
#[derive(Clone, Copy, Debug, PartialEq, Eq)]
pub enum MarkupAccessor {
    /// The strong content.
    StrongBody,
    /// The emphasized content.
    EmphBody,
    /// The block's content.
    ContentBlockBody,
    /// The item's content.
    ListItemBody,
    /// The item's content.
    EnumItemBody,
    /// The term that is described.
    TermItemTerm,
    /// The description of the term.
    TermItemDescription,
    /// The heading's content.
    HeadingBody,
    /// The supplement: the last content block, if there is one.
    RefSupplement,
    /// The language tag, which only a text between delimiters of at least three backticks can have.
    RawLang,
}

impl MarkupAccessor {
    /// The accessor of this form with a number.
    fn of_number(number: u32) -> Option<MarkupAccessor>
        ensures { IsNumbered markup_number number result }
    {
        match number {
            33 => Some(MarkupAccessor::StrongBody),
            34 => Some(MarkupAccessor::EmphBody),
            35 => Some(MarkupAccessor::ContentBlockBody),
            36 => Some(MarkupAccessor::ListItemBody),
            37 => Some(MarkupAccessor::EnumItemBody),
            38 => Some(MarkupAccessor::TermItemTerm),
            39 => Some(MarkupAccessor::TermItemDescription),
            40 => Some(MarkupAccessor::HeadingBody),
            41 => Some(MarkupAccessor::RefSupplement),
            42 => Some(MarkupAccessor::RawLang),
            _ => None,
        }
    }

    /// The kind of the nodes that have the accessor.
    fn view(self) -> SyntaxKind
        ensures { result ≡ markup_view self }
    {
        match self {
            MarkupAccessor::StrongBody => SyntaxKind::Strong,
            MarkupAccessor::EmphBody => SyntaxKind::Emph,
            MarkupAccessor::ContentBlockBody => SyntaxKind::ContentBlock,
            MarkupAccessor::ListItemBody => SyntaxKind::ListItem,
            MarkupAccessor::EnumItemBody => SyntaxKind::EnumItem,
            MarkupAccessor::TermItemTerm => SyntaxKind::TermItem,
            MarkupAccessor::TermItemDescription => SyntaxKind::TermItem,
            MarkupAccessor::HeadingBody => SyntaxKind::Heading,
            MarkupAccessor::RefSupplement => SyntaxKind::Ref,
            MarkupAccessor::RawLang => SyntaxKind::Raw,
        }
    }
}

/// An accessor of math that answers a node, or none.
#[derive(Clone, Copy, Debug, PartialEq, Eq)]
pub enum MathAccessor {
    /// The equation's content.
    EquationBody,
    /// The target whose field is accessed.
    MathFieldAccessTarget,
    /// The field's name.
    MathFieldAccessField,
    /// The function that is called.
    MathCallCallee,
    /// The arguments of the call.
    MathCallArgs,
    /// The opening delimiter.
    MathDelimitedOpen,
    /// The contents without the delimiters.
    MathDelimitedBody,
    /// The closing delimiter.
    MathDelimitedClose,
    /// The base of the attachments.
    MathAttachBase,
    /// The bottom attachment: the first expression after the first underscore.
    MathAttachBottom,
    /// The top attachment: the first expression after the first hat.
    MathAttachTop,
    /// The primes, if they come directly after the base.
    MathAttachPrimes,
    /// The numerator.
    MathFracNum,
    /// The denominator.
    MathFracDenom,
    /// The radicand of the root.
    MathRootRadicand,
}

impl MathAccessor {
    /// The accessor of this form with a number.
    fn of_number(number: u32) -> Option<MathAccessor>
        ensures { IsNumbered math_number number result }
    {
        match number {
            43 => Some(MathAccessor::EquationBody),
            44 => Some(MathAccessor::MathFieldAccessTarget),
            45 => Some(MathAccessor::MathFieldAccessField),
            46 => Some(MathAccessor::MathCallCallee),
            47 => Some(MathAccessor::MathCallArgs),
            48 => Some(MathAccessor::MathDelimitedOpen),
            49 => Some(MathAccessor::MathDelimitedBody),
            50 => Some(MathAccessor::MathDelimitedClose),
            51 => Some(MathAccessor::MathAttachBase),
            52 => Some(MathAccessor::MathAttachBottom),
            53 => Some(MathAccessor::MathAttachTop),
            54 => Some(MathAccessor::MathAttachPrimes),
            55 => Some(MathAccessor::MathFracNum),
            56 => Some(MathAccessor::MathFracDenom),
            57 => Some(MathAccessor::MathRootRadicand),
            _ => None,
        }
    }

    /// The kind of the nodes that have the accessor.
    fn view(self) -> SyntaxKind
        ensures { result ≡ math_view self }
    {
        match self {
            MathAccessor::EquationBody => SyntaxKind::Equation,
            MathAccessor::MathFieldAccessTarget => SyntaxKind::MathFieldAccess,
            MathAccessor::MathFieldAccessField => SyntaxKind::MathFieldAccess,
            MathAccessor::MathCallCallee => SyntaxKind::MathCall,
            MathAccessor::MathCallArgs => SyntaxKind::MathCall,
            MathAccessor::MathDelimitedOpen => SyntaxKind::MathDelimited,
            MathAccessor::MathDelimitedBody => SyntaxKind::MathDelimited,
            MathAccessor::MathDelimitedClose => SyntaxKind::MathDelimited,
            MathAccessor::MathAttachBase => SyntaxKind::MathAttach,
            MathAccessor::MathAttachBottom => SyntaxKind::MathAttach,
            MathAccessor::MathAttachTop => SyntaxKind::MathAttach,
            MathAccessor::MathAttachPrimes => SyntaxKind::MathAttach,
            MathAccessor::MathFracNum => SyntaxKind::MathFrac,
            MathAccessor::MathFracDenom => SyntaxKind::MathFrac,
            MathAccessor::MathRootRadicand => SyntaxKind::MathRoot,
        }
    }
}

/// An accessor of code that answers a node, or none.
#[derive(Clone, Copy, Debug, PartialEq, Eq)]
pub enum CodeAccessor {
    /// The block's code.
    CodeBlockBody,
    /// The expression in the parens.
    ParenthesizedExpr,
    /// The pattern in the parens, if they are a pattern.
    ParenthesizedPattern,
    /// The name.
    NamedName,
    /// The expression after the name.
    NamedExpr,
    /// The pattern after the name, if the pair is part of a pattern.
    NamedPattern,
    /// The key.
    KeyedKey,
    /// The expression after the key.
    KeyedExpr,
    /// The expression that is spread.
    SpreadExpr,
    /// The name of the sink, if it has one, where the spread is in a pattern or among parameters.
    SpreadSinkIdent,
    /// The expression of the sink, if it has one, where the spread is in a pattern.
    SpreadSinkExpr,
    /// The operand.
    UnaryExpr,
    /// The left operand.
    BinaryLhs,
    /// The right operand.
    BinaryRhs,
    /// The target whose field is accessed.
    FieldAccessTarget,
    /// The field's name.
    FieldAccessField,
    /// The function that is called.
    FuncCallCallee,
    /// The arguments of the call.
    FuncCallArgs,
    /// The closure's name, if it has one.
    ClosureName,
    /// The closure's parameters.
    ClosureParams,
    /// The closure's body.
    ClosureBody,
}

impl CodeAccessor {
    /// The accessor of this form with a number.
    fn of_number(number: u32) -> Option<CodeAccessor>
        ensures { IsNumbered code_number number result }
    {
        match number {
            58 => Some(CodeAccessor::CodeBlockBody),
            59 => Some(CodeAccessor::ParenthesizedExpr),
            60 => Some(CodeAccessor::ParenthesizedPattern),
            61 => Some(CodeAccessor::NamedName),
            62 => Some(CodeAccessor::NamedExpr),
            63 => Some(CodeAccessor::NamedPattern),
            64 => Some(CodeAccessor::KeyedKey),
            65 => Some(CodeAccessor::KeyedExpr),
            66 => Some(CodeAccessor::SpreadExpr),
            67 => Some(CodeAccessor::SpreadSinkIdent),
            68 => Some(CodeAccessor::SpreadSinkExpr),
            69 => Some(CodeAccessor::UnaryExpr),
            70 => Some(CodeAccessor::BinaryLhs),
            71 => Some(CodeAccessor::BinaryRhs),
            72 => Some(CodeAccessor::FieldAccessTarget),
            73 => Some(CodeAccessor::FieldAccessField),
            74 => Some(CodeAccessor::FuncCallCallee),
            75 => Some(CodeAccessor::FuncCallArgs),
            76 => Some(CodeAccessor::ClosureName),
            77 => Some(CodeAccessor::ClosureParams),
            78 => Some(CodeAccessor::ClosureBody),
            _ => None,
        }
    }

    /// The kind of the nodes that have the accessor.
    fn view(self) -> SyntaxKind
        ensures { result ≡ code_view self }
    {
        match self {
            CodeAccessor::CodeBlockBody => SyntaxKind::CodeBlock,
            CodeAccessor::ParenthesizedExpr => SyntaxKind::Parenthesized,
            CodeAccessor::ParenthesizedPattern => SyntaxKind::Parenthesized,
            CodeAccessor::NamedName => SyntaxKind::Named,
            CodeAccessor::NamedExpr => SyntaxKind::Named,
            CodeAccessor::NamedPattern => SyntaxKind::Named,
            CodeAccessor::KeyedKey => SyntaxKind::Keyed,
            CodeAccessor::KeyedExpr => SyntaxKind::Keyed,
            CodeAccessor::SpreadExpr => SyntaxKind::Spread,
            CodeAccessor::SpreadSinkIdent => SyntaxKind::Spread,
            CodeAccessor::SpreadSinkExpr => SyntaxKind::Spread,
            CodeAccessor::UnaryExpr => SyntaxKind::Unary,
            CodeAccessor::BinaryLhs => SyntaxKind::Binary,
            CodeAccessor::BinaryRhs => SyntaxKind::Binary,
            CodeAccessor::FieldAccessTarget => SyntaxKind::FieldAccess,
            CodeAccessor::FieldAccessField => SyntaxKind::FieldAccess,
            CodeAccessor::FuncCallCallee => SyntaxKind::FuncCall,
            CodeAccessor::FuncCallArgs => SyntaxKind::FuncCall,
            CodeAccessor::ClosureName => SyntaxKind::Closure,
            CodeAccessor::ClosureParams => SyntaxKind::Closure,
            CodeAccessor::ClosureBody => SyntaxKind::Closure,
        }
    }
}

/// An accessor of bindings, rules and control flow that answers a node, or none.
#[derive(Clone, Copy, Debug, PartialEq, Eq)]
pub enum ControlAccessor {
    /// The target of the binding: the closure's name where it binds a closure, or else the pattern.
    LetBindingKind,
    /// The value that is bound, if there is one. A closure is the value itself.
    LetBindingInit,
    /// The pattern whose parts are assigned to.
    DestructAssignmentPattern,
    /// The expression that is assigned.
    DestructAssignmentValue,
    /// The function whose defaults are set.
    SetRuleTarget,
    /// The arguments that become the defaults.
    SetRuleArgs,
    /// The condition under which the rule holds, if there is one.
    SetRuleCondition,
    /// The selector of the rule, if there is one.
    ShowRuleSelector,
    /// The transformation of what the rule selects.
    ShowRuleTransform,
    /// The expression that depends on the context.
    ContextualBody,
    /// The condition.
    ConditionalCondition,
    /// The expression for a true condition.
    ConditionalIfBody,
    /// The expression for a false condition, if there is one.
    ConditionalElseBody,
    /// The condition.
    WhileLoopCondition,
    /// The loop's body.
    WhileLoopBody,
    /// The pattern that each item is bound to.
    ForLoopPattern,
    /// The value that the loop goes through.
    ForLoopIterable,
    /// The loop's body.
    ForLoopBody,
    /// The value that is returned, if there is one.
    FuncReturnBody,
}

impl ControlAccessor {
    /// The accessor of this form with a number.
    fn of_number(number: u32) -> Option<ControlAccessor>
        ensures { IsNumbered control_number number result }
    {
        match number {
            79 => Some(ControlAccessor::LetBindingKind),
            80 => Some(ControlAccessor::LetBindingInit),
            81 => Some(ControlAccessor::DestructAssignmentPattern),
            82 => Some(ControlAccessor::DestructAssignmentValue),
            83 => Some(ControlAccessor::SetRuleTarget),
            84 => Some(ControlAccessor::SetRuleArgs),
            85 => Some(ControlAccessor::SetRuleCondition),
            86 => Some(ControlAccessor::ShowRuleSelector),
            87 => Some(ControlAccessor::ShowRuleTransform),
            88 => Some(ControlAccessor::ContextualBody),
            89 => Some(ControlAccessor::ConditionalCondition),
            90 => Some(ControlAccessor::ConditionalIfBody),
            91 => Some(ControlAccessor::ConditionalElseBody),
            92 => Some(ControlAccessor::WhileLoopCondition),
            93 => Some(ControlAccessor::WhileLoopBody),
            94 => Some(ControlAccessor::ForLoopPattern),
            95 => Some(ControlAccessor::ForLoopIterable),
            96 => Some(ControlAccessor::ForLoopBody),
            97 => Some(ControlAccessor::FuncReturnBody),
            _ => None,
        }
    }

    /// The kind of the nodes that have the accessor.
    fn view(self) -> SyntaxKind
        ensures { result ≡ control_view self }
    {
        match self {
            ControlAccessor::LetBindingKind => SyntaxKind::LetBinding,
            ControlAccessor::LetBindingInit => SyntaxKind::LetBinding,
            ControlAccessor::DestructAssignmentPattern => SyntaxKind::DestructAssignment,
            ControlAccessor::DestructAssignmentValue => SyntaxKind::DestructAssignment,
            ControlAccessor::SetRuleTarget => SyntaxKind::SetRule,
            ControlAccessor::SetRuleArgs => SyntaxKind::SetRule,
            ControlAccessor::SetRuleCondition => SyntaxKind::SetRule,
            ControlAccessor::ShowRuleSelector => SyntaxKind::ShowRule,
            ControlAccessor::ShowRuleTransform => SyntaxKind::ShowRule,
            ControlAccessor::ContextualBody => SyntaxKind::Contextual,
            ControlAccessor::ConditionalCondition => SyntaxKind::Conditional,
            ControlAccessor::ConditionalIfBody => SyntaxKind::Conditional,
            ControlAccessor::ConditionalElseBody => SyntaxKind::Conditional,
            ControlAccessor::WhileLoopCondition => SyntaxKind::WhileLoop,
            ControlAccessor::WhileLoopBody => SyntaxKind::WhileLoop,
            ControlAccessor::ForLoopPattern => SyntaxKind::ForLoop,
            ControlAccessor::ForLoopIterable => SyntaxKind::ForLoop,
            ControlAccessor::ForLoopBody => SyntaxKind::ForLoop,
            ControlAccessor::FuncReturnBody => SyntaxKind::FuncReturn,
        }
    }
}

/// An accessor of imports and includes that answers a node, or none.
#[derive(Clone, Copy, Debug, PartialEq, Eq)]
pub enum ModuleAccessor {
    /// The path's last part, which is the item's name.
    ImportItemPathName,
    /// The path to the item.
    RenamedImportItemPath,
    /// The item's own name, which is the name in its path.
    RenamedImportItemOriginalName,
    /// The name that the item gets.
    RenamedImportItemNewName,
    /// The module or the path that the import names.
    ModuleImportSource,
    /// What is imported, if the import names it: the star for everything, or the import items.
    ModuleImportImports,
    /// The name that the module gets, if it gets one.
    ModuleImportNewName,
    /// The path that is included.
    ModuleIncludeSource,
}

impl ModuleAccessor {
    /// The accessor of this form with a number.
    fn of_number(number: u32) -> Option<ModuleAccessor>
        ensures { IsNumbered module_number number result }
    {
        match number {
            98 => Some(ModuleAccessor::ImportItemPathName),
            99 => Some(ModuleAccessor::RenamedImportItemPath),
            100 => Some(ModuleAccessor::RenamedImportItemOriginalName),
            101 => Some(ModuleAccessor::RenamedImportItemNewName),
            102 => Some(ModuleAccessor::ModuleImportSource),
            103 => Some(ModuleAccessor::ModuleImportImports),
            104 => Some(ModuleAccessor::ModuleImportNewName),
            105 => Some(ModuleAccessor::ModuleIncludeSource),
            _ => None,
        }
    }

    /// The kind of the nodes that have the accessor.
    fn view(self) -> SyntaxKind
        ensures { result ≡ module_view self }
    {
        match self {
            ModuleAccessor::ImportItemPathName => SyntaxKind::ImportItemPath,
            ModuleAccessor::RenamedImportItemPath => SyntaxKind::RenamedImportItem,
            ModuleAccessor::RenamedImportItemOriginalName => SyntaxKind::RenamedImportItem,
            ModuleAccessor::RenamedImportItemNewName => SyntaxKind::RenamedImportItem,
            ModuleAccessor::ModuleImportSource => SyntaxKind::ModuleImport,
            ModuleAccessor::ModuleImportImports => SyntaxKind::ModuleImport,
            ModuleAccessor::ModuleImportNewName => SyntaxKind::ModuleImport,
            ModuleAccessor::ModuleIncludeSource => SyntaxKind::ModuleInclude,
        }
    }
}
