//! The names that patterns bind.
ghost use Rattle.std.specs.Prelude.{◌≡◌, ◌++◌, map, option_to_list, IfOk, Some};
ghost use Rattle.std.specs.List.{flat_map};
ghost use Rattle.std.specs.Option.{option_copied};
ghost use Rattle.typst_atoms.specs.Bindings.{names_among, names_bound, names_of_item};
ghost use Rattle.typst_node.specs.Children.{all_in, first_child, last_child};
ghost use Rattle.typst_atoms.specs.Classes.{is_destructuring_item_kind, is_pattern_kind};
ghost use Rattle.typst_atoms.specs.View.{atom_node};

use crate::casts::try_cast_first;
use crate::classes::is_pattern;
use crate::nodes::children;
use crate::views::Ident;
use std::alloc::AllocError;
use typst_base::SyntaxKind;
use typst_node::SyntaxNode;

/// The first child that is a pattern.
pub fn first_pattern<'a>(node: Option<&'a SyntaxNode>) -> Option<&'a SyntaxNode>
    ensures { option_copied result ≡ first_child is_pattern_kind (option_copied node.entry) }
{
    children(node).iter().find(|child| is_pattern(child.kind()))
}

/// The last child that is a pattern.
fn last_pattern<'a>(node: Option<&'a SyntaxNode>) -> Option<&'a SyntaxNode>
    ensures { option_copied result ≡ last_child is_pattern_kind (option_copied node.entry) }
{
    children(node)
        .iter()
        .rev()
        .find(|child| is_pattern(child.kind()))
}

/// Adds the name, if there is one.
pub fn push_name<'a>(names: &mut Vec<Ident<'a>>, name: Option<Ident<'a>>) -> Result<(), AllocError>
    ensures { IfOk result (λ _. map atom_node names.new.items
        ≡ map atom_node names.old.items ++ map atom_node (option_to_list name.entry)) }
{
    if let Some(name) = name {
        names.push(name)?;
    }
    Ok(())
}

/// Adds the names that a pattern binds, in order. An identifier binds itself. A parenthesized pattern and a
/// destructuring bind the names of the patterns in them. Any other pattern binds nothing.
///
/// It takes time in proportion to the nodes below, and memory for the names.
#[cycle(bindings)]
pub fn push_pattern<'a>(
    names: &mut Vec<Ident<'a>>,
    pattern: Option<&'a SyntaxNode>,
) -> Result<(), AllocError>
    ensures { IfOk result (λ _. map atom_node names.new.items
        ≡ map atom_node names.old.items ++ map Some (names_bound (option_copied pattern.entry))) }
{
    match pattern {
        Some(node) => match node.kind() {
            SyntaxKind::Ident => push_name(names, Some(Ident::of_kind(node))),
            SyntaxKind::Parenthesized => push_pattern(names, first_pattern(Some(node))),
            SyntaxKind::Destructuring => push_items(names, node.child_slice()),
            _ => Ok(()),
        },
        None => Ok(()),
    }
}

/// Adds the names that an item of a destructuring binds. A node that is not an item binds none.
#[cycle(bindings)]
fn push_item<'a>(names: &mut Vec<Ident<'a>>, item: &'a SyntaxNode) -> Result<(), AllocError>
    ensures { IfOk result (λ _. map atom_node names.new.items
        ≡ map atom_node names.old.items ++ map Some (names_of_item names_bound item.now)) }
{
    match item.kind() {
        SyntaxKind::Named => push_pattern(names, last_pattern(Some(item))),
        SyntaxKind::Spread => push_name(names, try_cast_first(Some(item))),
        _ => push_pattern(names, Some(item)),
    }
}

/// Adds the names that the items of a destructuring among these nodes bind, in order. A named pair binds the names of
/// its pattern, a spread binds the name of its sink, and a pattern binds its names.
///
/// It takes time in proportion to the nodes below, and memory for the names.
#[cycle(bindings)]
pub fn push_items<'a>(names: &mut Vec<Ident<'a>>, nodes: &'a [SyntaxNode]) -> Result<(), AllocError>
    ensures { IfOk result (λ _. map atom_node names.new.items
        ≡ map atom_node names.old.items ++ map Some (names_among names_bound nodes.now)) }
{
    for node in nodes {
        push_item(names, node)?;
    }
    Ok(())
}
