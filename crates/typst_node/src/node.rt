//! Nodes of a syntax tree.
ghost use Rattle.std.specs.Slice.Iter.{iter_rest};
ghost use Rattle.std.specs.Prelude.{◌≡◌, ◌+◌, ◌^◌, ◌<◌, ◌≤◌, ◌==◌, ◌++◌, ◌↔◌, [], length, take, string_bytes, IfOk, OnOk, IsTrue};
ghost use Rattle.typst_node.specs.Tree.{trees, kind_of, IsInner, IsLeaf};
ghost use Rattle.typst_node.specs.Text.{text, own_text, text_of_all};
ghost use Rattle.typst_node.specs.Count.{count};
ghost use Rattle.typst_base.specs.declared.kind.SyntaxKind.TheVariants.{Error};
ghost use Rattle.typst_node.specs.Diagnosis.{has_error, has_warning, is_error};
ghost use Rattle.typst_node.specs.Labels.{bound};
ghost use Rattle.typst_node.specs.View.{warnings_in, IsMeasured};

use crate::diagnosis::Diagnosis;
use crate::ends::LIMIT;
use crate::node::extras::Extras;
use crate::short_text::{LONGEST, len_in, text_in};
use std::alloc::{AllocError, Global};
use std::marker::Model;
use std::{mem, slice};
use typst_base::{Span, SubRange, SyntaxKind};

pub mod build;
mod child_ends;
pub mod convert;
pub mod copy;
mod debug;
pub mod diagnostics;
pub mod equal;
mod extras;
pub mod hash;
mod inner;
pub mod mapped;
pub mod moves;
mod narrow;
pub mod number;
mod put;
pub mod reconcile;
mod renumber;
pub mod replace;
pub mod replace_at;
mod settle;
pub mod spanless;
pub mod synthesize;
pub mod trim;
pub mod update;
pub mod warn;
mod window;

/// A node of a syntax tree: a leaf, an inner node or an error, with any number of warnings.
///
/// In contracts it is the tree whose root it is, with its spans and bounds. Inner nodes keep lengths, node counts,
/// diagnoses and the ends of children. No contract speaks of these: they are what the tree measures.
#[cycle(node)]
pub struct SyntaxNode {
    node: Node,
    span: Span,
}

/// A node without its span. The kind of a leaf or an inner node is never `Error`.
#[cycle(node)]
#[derive(Drop)]
enum Node {
    // A leaf without warnings that holds its text itself: the number of bytes of the text, and the bytes. These are
    // separate fields and not a struct, because the compiler then moves a node as a whole. It would move a struct by
    // moves that overlap.
    Short(SyntaxKind, u8, [u8; LONGEST]),
    // A leaf without warnings that has a longer text.
    Long(SyntaxKind, Box<String>),
    // A leaf with warnings. The kinds of leaves and inner nodes are here, at one place, so that reading them reads no
    // box.
    Leaf(SyntaxKind, Box<LeafNode>),
    // The length of the text in bytes is here, so that reading it reads no box.
    Inner(SyntaxKind, usize, Box<InnerNode>),
    Error(Box<ErrorNode>),
}

/// An inner node without its kind and the length of its text. The number of nodes, the diagnosis and the ends agree
/// with its children.
#[cycle(node)]
#[derive(Drop)]
struct InnerNode {
    // The number of nodes, this one included.
    descendants: usize,
    // The bound: above every number of the subtree, once it is numbered.
    upper: u64,
    children: Vec<SyntaxNode>,
    // The diagnosis, the ends of the children's texts, unless there are few children, and the warnings.
    extras: Extras,
}

/// A leaf with warnings, without its kind.
#[derive(Drop)]
struct LeafNode {
    text: String,
    // From the innermost to the outermost.
    warnings: Vec<Warning>,
}

/// A text that is not syntax, with the error about it.
#[derive(Drop)]
struct ErrorNode {
    text: String,
    message: String,
    hints: Vec<Hint>,
    // From the innermost to the outermost.
    warnings: Vec<Warning>,
}

/// A message about a node that is syntax, but dubious.
#[derive(Drop)]
struct Warning {
    sub_range: Option<SubRange>,
    message: String,
    hints: Vec<Hint>,
}

/// A suggestion for fixing an error or the cause of a warning.
#[derive(Drop)]
struct Hint {
    text: String,
    sub_range: Option<SubRange>,
}

impl Model for SyntaxNode {
    ghost use Rattle.typst_node.specs.Tree.{Tree};
    ghost use Rattle.typst_node.specs.Count.{count};
    ghost use Rattle.typst_node.specs.Codes.{tree_code};

    ghost Value = { Tree };

    ghost coded = { tree_code };

    ghost use Rattle.typst_node.specs.View.{tree_of, IsConsistent};

    ghost view = { tree_of };

    ghost invariant = { λ a. IsConsistent a.node };

    ghost size = { count };

    ghost use Rattle.typst_node.specs.Smaller.{children_are_smaller};

    ghost size_decreases = { λ a h. children_are_smaller a.node };
}

// By hand, so that crates above call this one and don't each prove how a whole tree is dropped.
impl Drop for SyntaxNode {
    #[cycle(drop_node)]
    fn drop(self) {
        let SyntaxNode { node, span: _ } = self;
        match node {
            Node::Inner(_, _, mut inner) => {
                let none = Vec::new(*inner.children.allocator());
                mem::drop(mem::replace(&mut inner.children, none));
                inner.let_go();
            }
            Node::Short(..) => {}
            Node::Long(_, text) => let_text_go(text),
            Node::Leaf(_, leaf) => leaf.let_go(),
            Node::Error(error) => error.let_go(),
        }
    }
}

// These calls move what a box holds onto their own stack before they drop it. So a level of a deep tree takes less
// stack while the tree is dropped.
impl InnerNode {
    #[cycle(drop_node)]
    #[inline(never)]
    fn let_go(self: Box<Self>) {}
}

#[inline(never)]
fn let_text_go(text: Box<String>) {}

impl LeafNode {
    #[inline(never)]
    fn let_go(self: Box<Self>) {}
}

impl ErrorNode {
    #[inline(never)]
    fn let_go(self: Box<Self>) {}
}

/// The joined length of trees. It fits a usize.
fn joined_len(nodes: &[SyntaxNode]) -> usize
    requires { length (text_of_all nodes.now) < 2 ^ 64 }
    ensures { result ≡ length (text_of_all nodes.now) }
{
    let mut len = 0;
    for node in nodes {
        len += node.len();
    }
    len
}

impl InnerNode {
    /// Where the text of a child ends, if the children are `len` bytes long together. It reads the end if the whole end
    /// is kept. Otherwise it counts from the nearer end of the list.
    fn child_end(&self, len: usize, index: usize) -> usize
        requires len { len ≡ length (text_of_all self.now.children.items) }
        requires measured { IsMeasured self.now }
        requires index { index < length self.now.children.items }
        ensures { result ≡ length (text_of_all (take (index + 1) self.now.children.items)) }
    {
        match self.extras.end(index) {
            Some(end) if len < LIMIT => end as usize,
            _ if index < self.children.len() - index => joined_len(&self.children[0..index + 1]),
            _ => len - joined_len(&self.children[index + 1..]),
        }
    }
}

impl Node {
    /// The warnings about the node, from the innermost to the outermost.
    fn warnings(&self) -> &[Warning]
        ensures { result.now ≡ warnings_in self.now }
    {
        match self {
            Node::Short(..) | Node::Long(..) => &[],
            Node::Leaf(_, leaf) => &leaf.warnings,
            Node::Inner(_, _, inner) => inner.extras.warnings(),
            Node::Error(error) => &error.warnings,
        }
    }
}

/// # What the node is
impl SyntaxNode {
    /// The node's kind, with or without warnings. Only an error has the kind `Error`.
    pub fn kind(&self) -> SyntaxKind
        ensures kind { result ≡ kind_of self.now.label.content }
        ensures error { (result ≡ Error) ↔ IsTrue (is_error self.now.label) }
    {
        match &self.node {
            Node::Short(kind, ..)
            | Node::Long(kind, _)
            | Node::Leaf(kind, _)
            | Node::Inner(kind, _, _) => *kind,
            Node::Error(_) => SyntaxKind::Error,
        }
    }

    /// Whether this is a leaf, or an error whose text is not empty: a place where an editor stops.
    pub fn is_leaf(&self) -> bool
        ensures leaf { IsTrue result ↔ IsLeaf self.now.label.content }
        ensures childless { IsTrue result → trees self.now.children ≡ [] }
    {
        match &self.node {
            Node::Short(..) | Node::Long(..) | Node::Leaf(..) => true,
            Node::Inner(..) => false,
            Node::Error(error) => !error.text.is_empty(),
        }
    }

    /// Whether this is an inner node: one with a list of children, which may be empty.
    pub fn is_inner(&self) -> bool
        ensures { IsTrue result ↔ IsInner self.now.label.content }
    {
        matches!(&self.node, Node::Inner(..))
    }

    /// The node's span. It is detached until the tree is numbered or synthesized.
    pub fn span(&self) -> Span
        ensures { result ≡ self.now.label.span }
    {
        self.span
    }

    /// An inner node's bound: a node number above those of its subtree. For a leaf or an error it is the node's own
    /// number plus one.
    pub fn upper(&self) -> u64
        ensures { result ≡ bound self.now.label }
    {
        match &self.node {
            Node::Inner(_, _, inner) => inner.upper,
            Node::Short(..) | Node::Long(..) | Node::Leaf(..) | Node::Error(_) => {
                self.span.number() + 1
            }
        }
    }
}

/// # The node and the nodes below it
impl SyntaxNode {
    /// The length of the text of all leaves and errors, in bytes. It takes constant time.
    pub fn len(&self) -> usize
        ensures { result ≡ length (text self.now) }
    {
        match &self.node {
            Node::Short(_, len, bytes) => len_in(*len, bytes),
            Node::Long(_, text) => text.len(),
            Node::Leaf(_, leaf) => leaf.text.len(),
            Node::Inner(_, len, _) => *len,
            Node::Error(error) => error.text.len(),
        }
    }

    /// Whether the node has no text. It takes constant time.
    pub fn is_empty(&self) -> bool
        ensures { IsTrue result ↔ (text self.now ≡ []) }
    {
        self.len() == 0
    }

    /// The number of nodes of the tree, this one included. It takes constant time.
    pub fn descendants(&self) -> usize
        ensures { result ≡ count self.now }
    {
        match &self.node {
            Node::Inner(_, _, inner) => inner.descendants,
            Node::Short(..) | Node::Long(..) | Node::Leaf(..) | Node::Error(_) => 1,
        }
    }

    /// Whether the tree holds an error, and whether it holds a warning. It takes constant time.
    pub fn diagnosis(&self) -> Diagnosis
        ensures errors { result.errors ≡ has_error self.now }
        ensures warnings { result.warnings ≡ has_warning self.now }
    {
        self.measures().diagnosis
    }

    /// The text of a leaf or an error, and an empty text for an inner node.
    pub fn leaf_text(&self) -> &str
        ensures { result.now ≡ own_text self.now.label }
    {
        match &self.node {
            Node::Short(_, len, bytes) => text_in(*len, bytes),
            Node::Long(_, text) => text.as_str(),
            Node::Leaf(_, leaf) => leaf.text.as_str(),
            Node::Inner(..) => "",
            Node::Error(error) => error.text.as_str(),
        }
    }

    /// The text of all leaves and errors in order. It fails only if memory runs out.
    pub fn full_text(&self, alloc: Global) -> Result<String, AllocError>
        ensures { IfOk result (λ s. string_bytes s ≡ text self.now) }
    {
        let mut out = String::with_capacity(alloc, self.len())?;
        self.push_text(&mut out)?;
        Ok(out)
    }

    /// Adds the texts of leaves and errors in order.
    fn push_text(&self, out: &mut String) -> Result<(), AllocError>
        ensures { OnOk result (string_bytes out.new ≡ string_bytes out.old ++ text self.now) }
    {
        match &self.node {
            Node::Short(..) | Node::Long(..) | Node::Leaf(..) | Node::Error(_) => {
                out.push_str(self.leaf_text())
            }
            Node::Inner(_, _, inner) => {
                for child in &inner.children {
                    child.push_text(out)?;
                }
                Ok(())
            }
        }
    }

    /// The node's children in order. They can be read from both ends. A leaf or an error has none.
    pub fn children(&self) -> slice::Iter<'_, SyntaxNode>
        ensures children { iter_rest result ≡ trees self.now.children }
        ensures inner_only { ¬ (IsInner self.now.label.content) → iter_rest result ≡ [] }
    {
        self.child_slice().iter()
    }

    /// The node's children in order, as a slice. A leaf or an error has none. Reading a child by its index takes
    /// constant time.
    #[tactic(auto, using(crate::proofs::Trees::trees_of_forest))]
    pub fn child_slice(&self) -> &[SyntaxNode]
        ensures children { result.now ≡ trees self.now.children }
        ensures inner_only { ¬ (IsInner self.now.label.content) → result.now ≡ [] }
    {
        match &self.node {
            Node::Inner(_, _, inner) => &inner.children,
            Node::Short(..) | Node::Long(..) | Node::Leaf(..) | Node::Error(_) => &[],
        }
    }

    /// Where the text of a child ends, in bytes from the beginning of this node's text. This is the joined length of
    /// the children up to and including that child. `index` is a child index.
    ///
    /// In a node of up to ten children it is counted from the nearer end of the list, over at most five lengths. In a
    /// node of more children it is read, with one addition. From 256 children on, it takes two additions, and from
    /// 65,536 on, three. If the node's text has 4 GB or more, it is counted in such a node, too.
    #[tactic(auto, using(crate::proofs::Trees::trees_of_forest))]
    pub fn child_end(&self, index: usize) -> usize
        requires { index < length (trees self.now.children) }
        ensures { result ≡ length (text_of_all (take (index + 1) (trees self.now.children))) }
    {
        match &self.node {
            Node::Inner(_, len, inner) => inner.child_end(*len, index),
            Node::Short(..) | Node::Long(..) | Node::Leaf(..) | Node::Error(_) => unreachable!(),
        }
    }
}
