//! Renames a variable in code: `example_rename OLD NEW` takes the first let binding that binds OLD, and the uses of that
//! binding. Standard input is a script that builds the code.
#![tactic(auto)]

ghost use Rattle.std.specs.Prelude.{◌≡◌, ◌↔◌, ◌<◌, ◌≤◌, ◌⊎◌, IfOk, IsTrue, length};
ghost use Rattle.typst_base.specs.declared.kind.SyntaxKind.TheVariants as kinds;
ghost use Rattle.typst_node.specs.Tree.{kind_of};

use anyhow::{Context, Result, anyhow};
use std::alloc::{AllocError, Global};
use std::env;
use typst_script::script;
use typst_tree::ast::LetBinding;
use typst_tree::session::{Reply, Request, Slot};
use typst_tree::{FileId, LinkedNode, NumberedTree, Span, SyntaxKind, SyntaxNode, node_at};

/// Whether a node is a let binding that binds a name.
fn binds(alloc: Global, node: &SyntaxNode, name: &str) -> Result<bool, AllocError> {
    let Some(binding) = node.cast::<LetBinding>() else {
        return Ok(false);
    };
    let names = binding.kind().bindings(alloc)?;
    Ok(names.iter().any(|bound| bound.as_str() == name))
}

/// Whether the name at a child index is no variable: a field, or the name of an argument.
fn is_label(parent: &SyntaxNode, index: usize) -> bool
    ensures { IsTrue result ↔ (((kind_of parent.now.label.content ≡ kinds.FieldAccess) × (0 < index))
        ⊎ ((kind_of parent.now.label.content ≡ kinds.Named) × (index ≡ 0))) }
{
    match parent.kind() {
        SyntaxKind::FieldAccess => index > 0,
        SyntaxKind::Named => index == 0,
        _ => false,
    }
}

/// The span of the let binding that the name at a path belongs to: the one in which it comes before the `=`, or else
/// the nearest before it, in its own block or one around that.
fn binding_of(
    alloc: Global,
    root: &SyntaxNode,
    path: &[usize],
    name: &str,
) -> Result<Option<Span>, AllocError> {
    for depth in (0..path.len()).rev() {
        let Some(parent) = node_at(root, &path[..depth]) else {
            return Ok(None);
        };
        let before = parent.child_slice().get(..path[depth]).unwrap_or(&[]);
        let is_bound_here = before.iter().all(|child| child.kind() != SyntaxKind::Eq);
        if is_bound_here && binds(alloc, parent, name)? {
            return Ok(Some(parent.span()));
        }
        for child in before.iter().rev() {
            if binds(alloc, child, name)? {
                return Ok(Some(child.span()));
            }
        }
    }
    Ok(None)
}

/// The path of a node that is a name, and no label.
fn use_at(alloc: Global, node: &LinkedNode, name: &str) -> Result<Option<Vec<usize>>, AllocError> {
    let is_label = node
        .parent()
        .is_some_and(|parent| is_label(parent.get(), node.index()));
    if node.get().kind() != SyntaxKind::Ident || node.get().leaf_text() != name || is_label {
        return Ok(None);
    }
    Ok(Some(node.path(alloc)?))
}

/// The paths of the names that belong to the first let binding of a name.
fn uses(alloc: Global, root: &SyntaxNode, name: &str) -> Result<Vec<Vec<usize>>, AllocError> {
    let mut paths = Vec::new(alloc);
    let mut wanted = None;
    for node in LinkedNode::new(root).preorder(alloc)? {
        let Some(path) = use_at(alloc, &node?, name)? else {
            continue;
        };
        let binding = binding_of(alloc, root, &path, name)?;
        if wanted.is_none() {
            wanted = binding;
        }
        if binding.is_some() && binding == wanted {
            paths.push(path)?;
        }
    }
    Ok(paths)
}

/// A request for each path, to put a name in place of the node there.
fn renamings(alloc: Global, paths: &[Vec<usize>], new: &str) -> Result<Vec<Slot>, AllocError> {
    let mut slots = Vec::new(alloc);
    for path in paths {
        let Some((index, above)) = path.split_last() else {
            continue;
        };
        slots.push(Slot::Ask(Request::Replace {
            path: above.to_vec(alloc)?,
            range: *index..index.saturating_add(1),
            replacement: vec![in alloc; SyntaxNode::leaf(alloc, SyntaxKind::Ident, new)?]?,
        }))?;
    }
    Ok(slots)
}

fn main(rt: HostRuntime) -> Result<()> {
    let alloc = rt.alloc();
    let mut words = env::args(&rt)?.skip(1);
    let old = words.next().context("no old name")?;
    let new = words.next().context("no new name")?;
    let root = script::tree_of(alloc, rt.reader())?;
    let mut tree = NumberedTree::number(root, FileId::FIRST, Span::FULL)?;
    let paths = uses(alloc, tree.root(), &old)?;
    let mut slots = renamings(alloc, &paths, &new)?;
    tree.run(alloc, &mut slots);
    let done = slots
        .iter()
        .all(|slot| matches!(slot.reply(), Some(Reply::Renumbered(_))));
    rt.println(tree.root().full_text(alloc)?)?;
    println!(rt;
        "{} names, {}",
        paths.len(),
        if done {
            "all renamed"
        } else {
            "not all renamed"
        }
    )?;
    Ok(())
}
