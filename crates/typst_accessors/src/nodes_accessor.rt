// Written by bench/accessors.py from crates/accessors.txt: change that and run it.
//! The accessors of views that answer several other nodes, by their numbers.
ghost use Rattle.std.specs.Prelude.{◌≡◌};
ghost use Rattle.typst_accessors.specs.NodeAccessors.{nodes_number, nodes_view};
ghost use Rattle.typst_accessors.specs.Numbered.{IsNumbered};

use typst_base::SyntaxKind;

/// An accessor that answers other nodes, by an index.
#[derive(Clone, Copy, Debug, PartialEq, Eq)]
pub enum NodesAccessor {
    /// The expressions and spaces, without each space directly after a statement.
    MarkupExprs,
    /// The expressions and spaces.
    MathExprs,
    /// The expressions.
    CodeExprs,
    /// The lines of the text.
    RawLines,
    /// The arguments, spaces, commas, parens and semicolons, without semicolons that only end an expression after a hash.
    MathArgsContentItems,
    /// The arguments.
    MathArgsArgItems,
    /// The items.
    ArrayItems,
    /// The items.
    DictItems,
    /// The items.
    DestructuringItems,
    /// The arguments.
    ArgsItems,
    /// The parameters.
    ParamsChildren,
    /// The items.
    ImportItemsIter,
    /// The path's parts.
    ImportItemPathIter,
}

impl NodesAccessor {
    /// The accessor of this form with a number.
    pub(crate) fn of_number(number: u32) -> Option<NodesAccessor>
        ensures { IsNumbered nodes_number number result }
    {
        match number {
            106 => Some(NodesAccessor::MarkupExprs),
            107 => Some(NodesAccessor::MathExprs),
            108 => Some(NodesAccessor::CodeExprs),
            109 => Some(NodesAccessor::RawLines),
            110 => Some(NodesAccessor::MathArgsContentItems),
            111 => Some(NodesAccessor::MathArgsArgItems),
            112 => Some(NodesAccessor::ArrayItems),
            113 => Some(NodesAccessor::DictItems),
            114 => Some(NodesAccessor::DestructuringItems),
            115 => Some(NodesAccessor::ArgsItems),
            116 => Some(NodesAccessor::ParamsChildren),
            117 => Some(NodesAccessor::ImportItemsIter),
            118 => Some(NodesAccessor::ImportItemPathIter),
            _ => None,
        }
    }

    /// The kind of the nodes that have the accessor.
    pub(crate) fn view(self) -> SyntaxKind
        ensures { result ≡ nodes_view self }
    {
        match self {
            NodesAccessor::MarkupExprs => SyntaxKind::Markup,
            NodesAccessor::MathExprs => SyntaxKind::Math,
            NodesAccessor::CodeExprs => SyntaxKind::Code,
            NodesAccessor::RawLines => SyntaxKind::Raw,
            NodesAccessor::MathArgsContentItems => SyntaxKind::MathArgs,
            NodesAccessor::MathArgsArgItems => SyntaxKind::MathArgs,
            NodesAccessor::ArrayItems => SyntaxKind::Array,
            NodesAccessor::DictItems => SyntaxKind::Dict,
            NodesAccessor::DestructuringItems => SyntaxKind::Destructuring,
            NodesAccessor::ArgsItems => SyntaxKind::Args,
            NodesAccessor::ParamsChildren => SyntaxKind::Params,
            NodesAccessor::ImportItemsIter => SyntaxKind::ImportItems,
            NodesAccessor::ImportItemPathIter => SyntaxKind::ImportItemPath,
        }
    }
}
