//! Calls after which the nodes that go on keep their numbers.
use crate::end::{End, Fault, Stop};
use crate::requests::Requests;
use crate::trees::{NESTED, TEXTS};
use std::alloc::Global;
use typst_drawn::{drawn_all, numbered};
use typst_node::{Moves, SyntaxNode};
use typst_tree::NumberedTree;

/// A call that puts other nodes in place of all children of a root.
#[derive(Clone, Copy)]
pub enum Reconciling {
    /// `reconcile_at`: a leaf goes on, three levels down.
    Leaf,
    /// `reconcile_at`: a leaf is new, three levels down.
    Insertion,
    /// `reconcile_at`: a text between two, in narrow bounds, so that both get new numbers.
    Moving,
    /// `update`: a leaf goes on, three levels down.
    Update,
    /// `update`: no node goes on.
    Anew,
}

/// A call of a numbered tree by which a leaf goes on, three levels down.
#[derive(Clone, Copy)]
pub enum OfTree {
    /// `NumberedTree::reconcile`
    Reconcile,
    /// `NumberedTree::update`
    Update,
}

/// `a*b_d_*`, below a root.
const LEAF: &str = "Text:a Strong[ Star:* \
    Markup[ Text:b Emph[ Underscore:_ Markup[ Text:d ] Underscore:_ ] ] Star:* ]";

/// The same with its root.
const WITH_ROOT: &str = "Markup[ Text:a Strong[ Star:* \
    Markup[ Text:b Emph[ Underscore:_ Markup[ Text:d ] Underscore:_ ] ] Star:* ] ]";

/// `a*b_cd_*`, with two texts in `Emph`, below a root.
const INSERTION: &str = "Text:a Strong[ Star:* \
    Markup[ Text:b Emph[ Underscore:_ Markup[ Text:c Text:d ] Underscore:_ ] ] Star:* ]";

/// `ab`, `x` and `c`, below a root.
const BETWEEN: &str = "Text:ab Text:x Text:c";

/// A root of another kind.
const CODE: &str = "Code[ Ident:a ]";

impl Reconciling {
    /// Makes the call. Its answer must be that of the same call before.
    pub fn run(self, alloc: Global, requests: Requests) -> Result<End, Stop> {
        let (tree, end, others) = self.drawings();
        let kept = numbered(alloc, tree, 2..end)?;
        let mut changed = kept.clone()?;
        let told = self.make(alloc, &mut changed, drawn_all(alloc, others)?)?;
        let mut tree = kept.clone()?;
        let others = drawn_all(alloc, others)?;
        requests.make(alloc)?;
        Ok(match self.make(alloc, &mut tree, others) {
            Ok(again) => End::answered(again == told && tree == changed && tree != kept),
            Err(fault) => End::failed(fault, tree == kept),
        })
    }

    /// The tree, the end of its numbers, and what comes: the children of the root, or for an update another root.
    fn drawings(self) -> (&'static str, u64, &'static str) {
        match self {
            Reconciling::Leaf => (NESTED, 1 << 20, LEAF),
            Reconciling::Insertion => (NESTED, 1 << 20, INSERTION),
            Reconciling::Moving => (TEXTS, 14, BETWEEN),
            Reconciling::Update => (NESTED, 1 << 20, WITH_ROOT),
            Reconciling::Anew => (NESTED, 1 << 20, CODE),
        }
    }

    /// Makes the change, and answers the moves.
    fn make(
        self,
        alloc: Global,
        tree: &mut SyntaxNode,
        mut others: Vec<SyntaxNode>,
    ) -> Result<Moves, Fault> {
        let end = tree.child_slice().len();
        if !tree.is_numbered() || !tree.edit_fits(&[], 0..end) {
            return Err(Fault::Other);
        }
        match self {
            Reconciling::Update | Reconciling::Anew => match others.pop() {
                Some(other) => Ok(tree.update(alloc, other)?.moves),
                None => Err(Fault::Other),
            },
            _ => Ok(tree.reconcile_at(alloc, &[], 0..end, others)?.moves),
        }
    }
}

/// A drawing as a numbered tree.
fn numbered_tree(alloc: Global, drawing: &str) -> Result<NumberedTree, Stop> {
    let root = numbered(alloc, drawing, 2..1 << 20)?;
    NumberedTree::from_numbered(root).map_err(|_| Stop::Early)
}

impl OfTree {
    /// Makes the call. Its answer must be that of the same call before.
    pub fn run(self, alloc: Global, requests: Requests) -> Result<End, Stop> {
        let kept = numbered_tree(alloc, NESTED)?;
        let mut changed = kept.clone()?;
        let told = self.make(alloc, &mut changed, drawn_all(alloc, self.drawing())?)?;
        let mut tree = kept.clone()?;
        let others = drawn_all(alloc, self.drawing())?;
        requests.make(alloc)?;
        Ok(match self.make(alloc, &mut tree, others) {
            Ok(again) => End::answered(
                again == told && tree.root() == changed.root() && tree.root() != kept.root(),
            ),
            Err(fault) => End::failed(fault, tree.root() == kept.root()),
        })
    }

    /// What comes: the children of the root, or another root.
    fn drawing(self) -> &'static str {
        match self {
            OfTree::Reconcile => LEAF,
            OfTree::Update => WITH_ROOT,
        }
    }

    /// Makes the change, and answers the moves.
    fn make(
        self,
        alloc: Global,
        tree: &mut NumberedTree,
        mut others: Vec<SyntaxNode>,
    ) -> Result<Moves, Fault> {
        if let OfTree::Reconcile = self {
            let end = tree.root().child_slice().len();
            return Ok(tree.reconcile(alloc, &[], 0..end, others)?.moves);
        }
        let other = others.pop().ok_or(Fault::Other)?;
        Ok(tree.update(alloc, other)?.moves)
    }
}
