//! How much a search reads.
ghost use Rattle.std.specs.Prelude.{◌≡◌, ◌+◌, ◌<◌, ◌≤◌, ◌^◌, length, take};
ghost use Rattle.typst_node.specs.Tree.{trees};
ghost use Rattle.typst_node.specs.Text.{text_of_all};
ghost use Rattle.typst_node.specs.Labels.{number};

use std::marker::Model;
use typst_node::SyntaxNode;

/// A count of what a search read. A search by a number counts node numbers. A search by a place in the text counts ends
/// of children.
#[derive(Debug, Drop)]
pub struct Looks {
    count: u64,
}

impl Model for Looks {
    ghost use Rattle.std.specs.Prelude.{ℕ};

    ghost Value = { ℕ };

    ghost view = { λ a. a.count };
}

impl Default for Looks {
    ghost use Rattle.std.specs.Prelude.{◌≡◌};

    ghost is_default = { λ looks. looks ≡ 0 };

    fn default() -> Looks {
        Looks::new()
    }
}

impl Looks {
    /// A count of 0.
    pub fn new() -> Self
        ensures { result ≡ 0 }
    {
        Looks { count: 0 }
    }

    /// How much the search read.
    pub fn count(&self) -> u64
        ensures { result ≡ self.now }
    {
        let Looks { count } = self;
        *count
    }

    /// Reads a node's number and counts it.
    pub(crate) fn number_of(&mut self, node: &SyntaxNode) -> u64
        requires { self.old + 1 < 2 ^ 64 }
        ensures number { result ≡ number node.now.label }
        ensures counted { self.new ≡ self.old + 1 }
    {
        self.count += 1;
        node.span().number()
    }

    /// Reads the end of a node's child and counts it.
    pub(crate) fn end_of(&mut self, node: &SyntaxNode, index: usize) -> usize
        requires room { self.old + 1 < 2 ^ 64 }
        requires child { index < length (trees node.now.children) }
        ensures end { result ≡ length (text_of_all (take (index + 1) (trees node.now.children))) }
        ensures counted { self.new ≡ self.old + 1 }
    {
        self.count += 1;
        node.child_end(index)
    }
}
