//! The tree of a script.
ghost use Rattle.std.specs.Prelude.{◌≡◌, ◌≤◌, ◌^◌, ◌↔◌, IfErr, IfOk, IsErr, IsOk};
ghost use Rattle.typst_node.specs.Numbered.{IsNumbered};
ghost use Rattle.typst_node.specs.Numbering.{IsNumbering, IsTooShort};

use std::marker::Model;
use std::ops::Range;
use typst_tree::{FileId, NumberedTree, SyntaxNode};

/// A tree that remembers that it is numbered, once it was numbered or tested. So no later run tests it again.
///
/// In contracts the value is the root.
#[derive(Drop)]
pub struct ScriptTree {
    state: State,
}

/// What is known of a tree.
#[derive(Drop)]
enum State {
    /// It was built, and not tested.
    Built(SyntaxNode),
    /// It is numbered.
    Numbered(NumberedTree),
}

impl Model for ScriptTree {
    ghost use Rattle.typst_node.specs.Tree.{Tree};
    ghost use Rattle.typst_node.specs.Codes.{tree_code};

    ghost Value = { Tree };

    ghost coded = { tree_code };

    ghost use Rattle.typst_script.specs.Held.{tree_held};

    ghost view = { λ a. tree_held a.state };
}

/// # From a tree and back
impl ScriptTree {
    /// The root, for reading.
    pub fn root(&self) -> &SyntaxNode
        ensures { result.now ≡ self.now }
    {
        match &self.state {
            State::Built(root) => root,
            State::Numbered(tree) => tree.root(),
        }
    }

    /// The root, taken out of the tree.
    pub fn into_root(self) -> SyntaxNode
        ensures { result ≡ self }
    {
        match self.state {
            State::Built(root) => root,
            State::Numbered(tree) => tree.into_root(),
        }
    }

    /// The numbered tree, or the tree itself if it isn't numbered.
    ///
    /// If the tree was neither numbered nor tested before, this takes time in proportion to the nodes. It takes no
    /// memory.
    pub fn into_numbered(self) -> Result<NumberedTree, ScriptTree>
        ensures numbered { IsOk result ↔ IsNumbered self }
        ensures same { IfOk result (λ tree. tree ≡ self) }
        ensures back { IfErr result (λ same. same ≡ self) }
    {
        match self.state {
            State::Built(root) => match NumberedTree::from_numbered(root) {
                Ok(tree) => Ok(tree),
                Err(error) => Err(error.tree.into()),
            },
            State::Numbered(tree) => {
                // This is read for the proof: the tree is numbered.
                let _root = tree.root();
                Ok(tree)
            }
        }
    }
}

/// # Numbering
impl ScriptTree {
    /// Numbers the tree, as [`SyntaxNode::numberize`] does. If there are fewer numbers than nodes, the tree comes back
    /// as it was.
    ///
    /// `within` lies in `Span::FULL`. This takes time in proportion to the nodes, and no memory.
    pub fn number(self, file: FileId, within: Range<u64>) -> Result<ScriptTree, ScriptTree>
        requires starts_in_span_full { 2 ≤ within.start }
        requires ends_in_span_full { within.end ≤ 2 ^ 47 }
        ensures refused { IsErr result ↔ IsTooShort self within.start within.end }
        ensures back { IfErr result (λ same. same ≡ self) }
        ensures numbering { IfOk result (IsNumbering file within.start within.end self) }
    {
        match self.state {
            State::Built(root) => match NumberedTree::number(root, file, within) {
                Ok(tree) => Ok(tree.into()),
                Err(error) => Err(error.tree.into()),
            },
            State::Numbered(mut tree) => match tree.renumber(file, within) {
                Ok(()) => Ok(tree.into()),
                Err(_) => Err(tree.into()),
            },
        }
    }
}

impl From<SyntaxNode> for ScriptTree {
    ghost from_gives = { λ root tree. tree ≡ root };

    fn from(root: SyntaxNode) -> ScriptTree {
        ScriptTree {
            state: State::Built(root),
        }
    }
}

impl From<NumberedTree> for ScriptTree {
    ghost from_gives = { λ root tree. tree ≡ root };

    fn from(tree: NumberedTree) -> ScriptTree {
        ScriptTree {
            state: State::Numbered(tree),
        }
    }
}
