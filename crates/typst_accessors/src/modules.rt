//! Accessors of imports and includes that answer a node.
ghost use Rattle.std.specs.Prelude.{◌≡◌, Some};
ghost use Rattle.std.specs.Option.{option_copied};
ghost use Rattle.typst_accessors.specs.Modules.{module_node};
ghost use Rattle.typst_accessors.specs.NodeAccessors.{module_view};
ghost use Rattle.typst_ast.specs.Imports.{is_imports_kind};
ghost use Rattle.typst_node.specs.Children.{first_child};
ghost use Rattle.typst_node.specs.Views.{node_kind};

use crate::node_accessor::ModuleAccessor;
use crate::optional::node_of_optional;
use typst_ast::views as of;
use typst_base::SyntaxKind;
use typst_node::{AstNode, SyntaxNode};

/// Whether a child of an import says what is imported: a star or import items.
fn is_imports(kind: SyntaxKind) -> bool
    ensures { result ≡ is_imports_kind kind }
{
    matches!(kind, SyntaxKind::Star | SyntaxKind::ImportItems)
}

/// The node of what is imported: the first child that says it.
fn imports(node: &SyntaxNode) -> Option<&SyntaxNode>
    ensures { option_copied result ≡ first_child is_imports_kind (Some node.now) }
{
    node.child_slice()
        .iter()
        .find(|child| is_imports(child.kind()))
}

impl ModuleAccessor {
    /// The node that the accessor answers of a node of its view, if the tree has it.
    pub(crate) fn read<'a>(self, node: &'a SyntaxNode) -> Option<&'a SyntaxNode>
        requires { node_kind node.now ≡ module_view self }
        ensures { option_copied result ≡ module_node self (Some node.now) }
    {
        use ModuleAccessor as by;
        match self {
            by::ImportItemPathName => of::ImportItemPath::of_kind(node).name().to_untyped(),
            by::RenamedImportItemPath => of::RenamedImportItem::of_kind(node).path().to_untyped(),
            by::RenamedImportItemOriginalName => {
                of::RenamedImportItem::of_kind(node)
                    .original_name()
                    .to_untyped()
            }
            by::RenamedImportItemNewName => {
                of::RenamedImportItem::of_kind(node).new_name().to_untyped()
            }
            by::ModuleImportSource => of::ModuleImport::of_kind(node).source().to_untyped(),
            by::ModuleImportImports => imports(node),
            by::ModuleImportNewName => node_of_optional(of::ModuleImport::of_kind(node).new_name()),
            by::ModuleIncludeSource => of::ModuleInclude::of_kind(node).source().to_untyped(),
        }
    }
}
