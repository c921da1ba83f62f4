//! Making nodes.
ghost use Rattle.std.specs.Prelude.{◌≡◌, ◌≢◌, ◌≤◌, ◌↔◌, [], length, IfOk, IsErrOf, IsOk, OnErr, OnOk};
ghost use Rattle.typst_base.specs.declared.kind.SyntaxKind.TheVariants.{End, Error};
ghost use Rattle.typst_node.specs.Tree.{leaf_tree, inner_tree};
ghost use Rattle.typst_node.specs.Count.{SumsFit};
ghost use Rattle.typst_node.specs.declared.node.build.InnerError.TheVariants.{Overflow, Memory};

use crate::node::inner::measured;
use crate::node::{InnerNode, Node, SyntaxNode};
use crate::short_text::{LONGEST, bytes_of};
use std::alloc::{AllocError, AllocFailed, Global};
use std::mem;
use thiserror::Error;
use typst_base::{Span, SyntaxKind};

/// Why there is no inner node over the given children. The children are dropped.
#[derive(Clone, Copy, Debug, PartialEq, Eq, Error)]
pub enum InnerError {
    /// The length of the text or the number of nodes would pass a usize.
    #[error("the tree is too large")]
    Overflow,
    /// Memory was refused.
    #[error("out of memory")]
    Memory,
}

impl<T: Drop> From<AllocFailed<T>> for InnerError {
    ghost from_gives = { λ _ e. e ≡ Memory };

    fn from(_e: AllocFailed<T>) -> InnerError {
        InnerError::Memory
    }
}

impl From<AllocError> for InnerError {
    ghost from_gives = { λ _ e. e ≡ Memory };

    fn from(_e: AllocError) -> InnerError {
        InnerError::Memory
    }
}

/// # Making nodes
impl SyntaxNode {
    /// A detached leaf with a copy of the text. The test of the condition is `SyntaxKind::is_error`. A text of at most
    /// 21 bytes takes no memory. With a longer text it fails only if memory runs out.
    pub fn leaf(alloc: Global, kind: SyntaxKind, text: &str) -> Result<SyntaxNode, AllocError>
        requires not_error_ask_is_error { kind ≢ Error }
        ensures leaf { IfOk result (λ t. t ≡ leaf_tree kind text.now) }
        ensures succeeds { length text.now ≤ 21 → IsOk result }
    {
        let node = if text.len() <= LONGEST {
            Node::Short(kind, text.len() as u8, bytes_of(text))
        } else {
            let text = String::from_str(alloc, text)?;
            Node::Long(kind, Box::new(alloc, text)?)
        };
        Ok(SyntaxNode {
            node,
            span: Span::detached(),
        })
    }

    /// A detached leaf with an empty text. It takes the allocator, as each call that makes a node does, but no memory.
    /// The test of the condition is `SyntaxKind::is_error`.
    pub fn placeholder(_alloc: Global, kind: SyntaxKind) -> SyntaxNode
        requires not_error_ask_is_error { kind ≢ Error }
        ensures { result ≡ leaf_tree kind [] }
    {
        SyntaxNode {
            node: Node::Short(kind, 0, [0; LONGEST]),
            span: Span::detached(),
        }
    }

    /// A detached inner node over these children, with bound 0. The test of the condition is `SyntaxKind::is_error`.
    ///
    /// It takes time in proportion to the number of children. After an error the children are dropped:
    /// [`SyntaxNode::wrap`] keeps them. `Overflow` comes before `Memory`.
    #[inline(always)]
    pub fn inner(
        alloc: Global,
        kind: SyntaxKind,
        children: Vec<SyntaxNode>,
    ) -> Result<SyntaxNode, InnerError>
        requires not_error_ask_is_error { kind ≢ Error }
        ensures ok { IfOk result (λ t. t ≡ inner_tree kind children.items) }
        ensures overflow { IsErrOf result Overflow ↔ ¬ (SumsFit children.items) }
    {
        let mut children = children;
        SyntaxNode::wrap(alloc, kind, &mut children)
    }

    /// A detached inner node over the children in a list, with bound 0. It takes them out of the list, which is empty
    /// then. After an error the list is as it was. The test of the condition is `SyntaxKind::is_error`.
    ///
    /// It takes time in proportion to the number of children, and copies none of them. `Overflow` comes before `Memory`.
    pub fn wrap(
        alloc: Global,
        kind: SyntaxKind,
        children: &mut Vec<SyntaxNode>,
    ) -> Result<SyntaxNode, InnerError>
        requires not_error_ask_is_error { kind ≢ Error }
        ensures ok { IfOk result (λ t. t ≡ inner_tree kind children.old.items) }
        ensures overflow { IsErrOf result Overflow ↔ ¬ (SumsFit children.old.items) }
        ensures taken { OnOk result (children.new.items ≡ []) }
        ensures kept { OnErr result (children.new.items ≡ children.old.items) }
    {
        let (sums, extras) = measured(alloc, children)?;
        let none = Vec::new(*children.allocator());
        let inner = InnerNode {
            descendants: sums.descendants + 1,
            upper: 0,
            children: mem::replace(children, none),
            extras,
        };
        match Box::new(alloc, inner) {
            Ok(inner) => Ok(SyntaxNode {
                node: Node::Inner(kind, sums.len, inner),
                span: Span::detached(),
            }),
            Err(refused) => {
                *children = refused.value.children;
                Err(InnerError::Memory)
            }
        }
    }
}

/// The empty detached leaf of kind `End`.
impl Default for SyntaxNode {
    ghost is_default = { λ node. node ≡ leaf_tree End [] };

    fn default() -> Self {
        SyntaxNode {
            node: Node::Short(SyntaxKind::End, 0, [0; LONGEST]),
            span: Span::detached(),
        }
    }
}
