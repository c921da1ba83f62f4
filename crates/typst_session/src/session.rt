//! What a handle holds.
ghost use Rattle.std.specs.Prelude.{◌≡◌, [], None, Some, IfSome, IfOk, IfErr, MatchOption, IsSomeAnd};
ghost use Rattle.typst_node.specs.Numbered.{IsNumbered};
ghost use Rattle.typst_node.specs.Paths.{IsPath, tree_at};
ghost use Rattle.typst_session.specs.Reading.{IsNoNode};
ghost use Rattle.typst_session.specs.Sessions.{Copies, root_of};
ghost use Rattle.typst_session.specs.declared.session.Held.TheVariants.{Nothing};

use crate::building::copies;
use crate::document::Document;
use crate::refusal::Refusal;
use std::alloc::{AllocError, Global};
use typst_node::Moves;
use typst_tree::{NumberedTree, SyntaxNode, node_at};

/// What a handle holds: a stack of nodes that are being built, and at most one tree.
#[derive(Drop)]
pub struct Session {
    /// The nodes that are being built. The last one is on top.
    pub stack: Vec<SyntaxNode>,
    /// The tree that is read and edited, if there is one.
    pub held: Held,
    /// The last edit of the tree. `None` if the tree wasn't edited since it was made, copied or numbered, or if its last
    /// edit was [`Session::replace`].
    pub last: Option<LastEdit>,
}

/// What a session keeps of the last edit of its tree.
#[derive(Drop)]
pub struct LastEdit {
    /// The path to the node whose children were changed. It is empty if the root itself was changed.
    pub path: Vec<usize>,
    /// Where the nodes of the tree are after the edit.
    pub moves: Moves,
}

/// The tree that a session holds.
#[derive(Drop)]
pub enum Held {
    /// No tree.
    Nothing,
    /// A numbered tree, which is edited by its children.
    Tree(NumberedTree),
    /// The tree of a text, which is edited as a text.
    Document(Document),
}

impl Held {
    /// A copy of the tree, with all its numbers. A document's text and lines come with it.
    fn copy(&self) -> Result<Held, AllocError>
        ensures { IfOk result (λ copy. copy ≡ self.now) }
    {
        match self {
            Held::Nothing => Ok(Held::Nothing),
            Held::Tree(tree) => Ok(Held::Tree(tree.clone()?)),
            Held::Document(document) => Ok(Held::Document(document.clone()?)),
        }
    }
}

impl Session {
    /// An empty stack, and no tree.
    pub fn new(alloc: Global) -> Session
        ensures stack { result.stack.items ≡ [] }
        ensures held { result.held ≡ Nothing }
        ensures last { result.last ≡ None }
    {
        Session {
            stack: Vec::new(alloc),
            held: Held::Nothing,
            last: None,
        }
    }

    /// A copy of the stack and of the tree that is held, with all its numbers. No number can be followed into the copy.
    ///
    /// It takes time and memory in proportion to the stack and the tree.
    pub fn copy(&self, alloc: Global) -> Result<Session, Refusal>
        ensures { Copies self.now result }
    {
        let stack = copies(alloc, &self.stack)?;
        let held = self.held.copy()?;
        Ok(Session {
            stack,
            held,
            last: None,
        })
    }

    /// The root of the tree that is held.
    pub fn root(&self) -> Option<&SyntaxNode>
        ensures root { MatchOption result (root_of self.now.held ≡ None) (λ root. root_of self.now.held
            ≡ Some root.now) }
        ensures numbered { IfSome result (λ root. IsNumbered root.now) }
    {
        match &self.held {
            Held::Nothing => None,
            Held::Tree(tree) => Some(tree.root()),
            Held::Document(document) => Some(document.root()),
        }
    }

    /// The node that a path of child indices leads to in the tree that is held. It takes time in proportion to the
    /// path.
    pub fn node_at(&self, path: &[usize]) -> Result<&SyntaxNode, Refusal>
        ensures ok { IfOk result (λ node. IsSomeAnd (root_of self.now.held) (λ root.
            IsPath path.now root × (node.now ≡ tree_at path.now root))) }
        ensures err { IfErr result (IsNoNode path.now self.now) }
    {
        let Some(root) = self.root() else {
            return Err(Refusal::NoTree);
        };
        match node_at(root, path) {
            Some(node) => Ok(node),
            None => Err(Refusal::NoNode),
        }
    }
}
