//! Another tree in place of the one at a path.
ghost use Rattle.std.specs.Prelude.{◌≡◌, ◌<◌, length, set};
ghost use Rattle.typst_node.specs.Count.{SumsFit};
ghost use Rattle.typst_node.specs.View.{IsMeasured};
ghost use Rattle.typst_node.specs.Paths.{IsPath};
ghost use Rattle.typst_node.specs.PlainEdit.{TreeFits};
ghost use Rattle.typst_node.specs.EditBelow.{child_of};
ghost use Rattle.typst_node.specs.Put.{with_tree};

use crate::node::{InnerNode, Node, SyntaxNode};
use std::mem;

impl SyntaxNode {
    /// Exchanges the tree at a path for another one, and corrects what the nodes above it keep.
    #[cycle(put)]
    pub(super) fn put_at(&mut self, path: &[usize], other: &mut SyntaxNode)
        requires path { IsPath path.now self.old }
        requires fits { TreeFits (with_tree path.now other.old self.old) }
        ensures { self.new ≡ with_tree path.now other.old self.old }
    {
        match path.split_first() {
            None => mem::swap(self, other),
            Some((index, rest)) => match &mut self.node {
                Node::Inner(_, len, inner) => {
                    let beside = *len - inner.children[*index].len();
                    inner.put_in(*index, rest, other);
                    *len = beside + inner.children[*index].len();
                }
                Node::Short(..) | Node::Long(..) | Node::Leaf(..) | Node::Error(_) => {}
            },
        }
    }
}

impl InnerNode {
    /// Exchanges the tree at a path below one child for another one.
    #[cycle(put)]
    fn put_in(&mut self, index: usize, path: &[usize], other: &mut SyntaxNode)
        requires measured { IsMeasured self.old }
        requires index { index < length self.old.children.items }
        requires path { IsPath path.now (child_of self.old.children.items index) }
        requires fits { SumsFit (set self.old.children.items index
            (with_tree path.now other.old (child_of self.old.children.items index))) }
        ensures measured { IsMeasured self.new }
        ensures upper { self.new.upper ≡ self.old.upper }
        ensures warnings { self.new.extras.warnings ≡ self.old.extras.warnings }
        ensures children { self.new.children.items ≡ set self.old.children.items index
            (with_tree path.now other.old (child_of self.old.children.items index)) }
    {
        let gone = self.children[index].measures();
        self.children[index].put_at(path, other);
        self.settle_child(index, gone);
    }
}
