//! The children of a node that are of a class.
ghost use Rattle.std.specs.Prelude.{◌≡◌, ◌≤◌, IfOk, IfErr, MatchOption, take, true};
ghost use Rattle.std.specs.List.{count_by};
ghost use Rattle.typst_session.specs.Classes.{class_number, is_in_class, is_of, IsNoClass, IsOfClass, IsPicked, PicksChild};

use crate::kinds::kind_of;
use crate::refusal::Refusal;
use crate::session::Session;
use typst_atoms::classes::{is_arg, is_pattern};
use typst_atoms::expr_kinds::is_expr;
use typst_tree::{SyntaxKind, SyntaxNode};

/// A class of nodes.
#[derive(Clone, Copy, PartialEq, Eq, Debug, Drop)]
pub enum NodeClass {
    /// The nodes of one kind.
    Of(SyntaxKind),
    /// Expressions.
    Expr,
    /// Patterns.
    Pattern,
    /// Arguments of a call.
    Arg,
    /// All but trivia.
    Solid,
}

impl NodeClass {
    /// The class with a number. The number is the number of a kind, or one from 256 on.
    fn of_number(number: u32) -> Result<NodeClass, Refusal>
        ensures ok { IfOk result (λ class. class_number class ≡ number) }
        ensures err { IfErr result (IsNoClass number) }
    {
        match number {
            256 => Ok(NodeClass::Expr),
            257 => Ok(NodeClass::Pattern),
            258 => Ok(NodeClass::Arg),
            259 => Ok(NodeClass::Solid),
            _ => Ok(NodeClass::Of(kind_of(number)?)),
        }
    }

    /// Whether nodes of a kind are in the class.
    fn holds(self, kind: SyntaxKind) -> bool
        ensures { result ≡ is_in_class self kind }
    {
        match self {
            NodeClass::Of(own) => kind == own,
            NodeClass::Expr => is_expr(kind),
            NodeClass::Pattern => is_pattern(kind),
            NodeClass::Arg => is_arg(kind),
            NodeClass::Solid => !kind.is_trivia(),
        }
    }
}

/// How many of these nodes are of a class.
fn count_of(nodes: &[SyntaxNode], class: NodeClass) -> usize
    ensures { result ≡ count_by (is_of class) nodes.now }
{
    let mut count = 0;
    for at in 0..nodes.len() {
        if class.holds(nodes[at].kind()) {
            count += 1;
        }
    }
    count
}

/// The index of the node of a class that has this many nodes of the class before it.
fn index_of(nodes: &[SyntaxNode], class: NodeClass, before: usize) -> Option<usize>
    ensures { MatchOption result (count_by (is_of class) nodes.now ≤ before)
        (λ at. IsOfClass class nodes.now at × (count_by (is_of class) (take at nodes.now) ≡ before)) }
{
    let mut left = before;
    for at in 0..nodes.len() {
        if class.holds(nodes[at].kind()) {
            if left == 0 {
                return Some(at);
            }
            left -= 1;
        }
    }
    None
}

/// The index of the node of a class that has this many others of the class after it.
fn index_from_end(nodes: &[SyntaxNode], class: NodeClass, behind: usize) -> Option<usize>
    ensures { MatchOption result (count_by (is_of class) nodes.now ≤ behind)
        (λ at. IsPicked class behind true nodes.now at) }
{
    let count = count_of(nodes, class);
    if count <= behind {
        return None;
    }
    let at = index_of(nodes, class, count - 1 - behind)?;
    Some(at)
}

/// The index of the node of a class that has this many others of the class on one side.
fn pick(nodes: &[SyntaxNode], class: NodeClass, index: usize, from_end: bool) -> Option<usize>
    ensures { MatchOption result (count_by (is_of class) nodes.now ≤ index)
        (λ at. IsPicked class index from_end nodes.now at) }
{
    if from_end {
        index_from_end(nodes, class, index)
    } else {
        index_of(nodes, class, index)
    }
}

/// # Children of a class
impl Session {
    /// The child index of a child of a class, among the children of the node that a path leads to. The child has
    /// `index` others of the class before it or, counted from the end, after it. A class is the number of a kind, or
    /// 256 for expressions, 257 for patterns, 258 for arguments, and 259 for all but trivia. The cost is a walk over
    /// the children.
    pub fn child_of_class(
        &self,
        path: &[usize],
        class: u32,
        index: usize,
        from_end: bool,
    ) -> Result<usize, Refusal>
        ensures { PicksChild path.now class index from_end self.now result }
    {
        let class = NodeClass::of_number(class)?;
        let children = match self.node_at(path) {
            Ok(node) => node.child_slice(),
            Err(refusal) => return Err(refusal),
        };
        match pick(children, class, index, from_end) {
            Some(at) => Ok(at),
            None => Err(Refusal::NotFound),
        }
    }
}
