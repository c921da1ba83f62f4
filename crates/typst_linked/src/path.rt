//! The path of a linked node, and the node at a path.
ghost use Rattle.std.specs.Prelude.{◌≡◌, ◌++◌, ◌↔◌, IfOk, IfSome, IsSome};
ghost use Rattle.typst_node.specs.Paths.{IsPath, tree_at};

use crate::node::LinkedNode;
use std::alloc::{AllocError, Global};
use typst_node::SyntaxNode;

/// # Path
impl<'a> LinkedNode<'a> {
    /// The child indices from the root down to this node. The path of the root is empty.
    ///
    /// It fails only if memory runs out. It takes time in proportion to the depth.
    pub fn path(&self, alloc: Global) -> Result<Vec<usize>, AllocError>
        ensures { IfOk result (λ path. path.items ≡ self.now.path) }
    {
        let mut path = Vec::new(alloc);
        self.push_path(&mut path)?;
        Ok(path)
    }

    /// Adds the path at the end.
    fn push_path(&self, path: &mut Vec<usize>) -> Result<(), AllocError>
        ensures { IfOk result (λ _. path.new.items ≡ path.old.items ++ self.now.path) }
    {
        if let Some(parent) = self.parent() {
            parent.push_path(path)?;
            path.push(self.index())?;
        }
        Ok(())
    }
}

/// The node that a path leads to: child indices from the root down. It is `None` if the path leads nowhere. It takes
/// time in proportion to the path, and no memory.
pub fn node_at<'a>(root: &'a SyntaxNode, path: &[usize]) -> Option<&'a SyntaxNode>
    ensures some { IsSome result ↔ IsPath path.now root.now }
    ensures node { IfSome result (λ node. node.now ≡ tree_at path.now root.now) }
{
    match path.split_first() {
        None => Some(root),
        Some((index, rest)) => match root.child_slice().get(*index) {
            Some(child) => node_at(child, rest),
            None => None,
        },
    }
}
