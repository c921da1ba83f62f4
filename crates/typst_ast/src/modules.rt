//! Imports and includes of modules.
ghost use Rattle.std.specs.Prelude.{Some};
ghost use Rattle.typst_ast.specs.Expr.{IsExprOf};
ghost use Rattle.typst_ast.specs.Imports.{IsImportsOf, is_imports_kind};
ghost use Rattle.typst_ast.specs.Lists.{of_class};
ghost use Rattle.typst_ast.specs.View.{IsOptionalAtom, node_of};
ghost use Rattle.typst_node.specs.Children.{all_in, behind_first, children_in, first_child, first_of, last_child};
ghost use Rattle.typst_atoms.specs.ExprKinds.{is_expr_kind};
ghost use Rattle.typst_atoms.specs.Kinds.{is_kind};
ghost use Rattle.typst_base.specs.declared.kind.SyntaxKind.TheVariants as kinds;

use crate::expr::Expr;
use crate::imports::Imports;
use crate::nodes::{first_expr, last_expr};
use crate::views::{Ident, ImportItems, ModuleImport, ModuleInclude};
use typst_atoms::nodes::{behind, children};
use typst_base::SyntaxKind;
use typst_node::SyntaxNode;
use typst_node::casts::first_in;

/// What the node brings in, if it is a star or import items.
fn imports_of<'a>(node: &'a SyntaxNode) -> Option<Imports<'a>>
    ensures { IsImportsOf (of_class is_imports_kind (Some node.now)) result }
{
    match node.kind() {
        SyntaxKind::Star => Some(Imports::Wildcard),
        SyntaxKind::ImportItems => Some(Imports::Items(ImportItems::of_kind(node))),
        _ => None,
    }
}

impl<'a> ModuleImport<'a> {
    /// The module or the path that the import names.
    pub fn source(self) -> Expr<'a>
        ensures { IsExprOf (first_child is_expr_kind (node_of self.entry)) result }
    {
        first_expr(self.node())
    }

    /// What is imported from the module, if the import names it: the first child that is a star or import items.
    pub fn imports(self) -> Option<Imports<'a>>
        ensures { IsImportsOf (first_child is_imports_kind (node_of self.entry)) result }
    {
        children(self.node()).iter().find_map(imports_of)
    }

    /// The name that the module gets: the first identifier after the first `as`.
    pub fn new_name(self) -> Option<Ident<'a>>
        ensures { IsOptionalAtom kinds.Ident
            (first_of (all_in (is_kind kinds.Ident)
            (behind_first (is_kind kinds.As) (children_in (node_of self.entry)))))
            result }
    {
        first_in(behind(self.node(), SyntaxKind::As))
    }
}

impl<'a> ModuleInclude<'a> {
    /// The path that is included.
    pub fn source(self) -> Expr<'a>
        ensures { IsExprOf (last_child is_expr_kind (node_of self.entry)) result }
    {
        last_expr(self.node())
    }
}
