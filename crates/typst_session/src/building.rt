//! Building nodes on the stack.
ghost use Rattle.std.specs.Prelude.{◌≡◌, ◌+◌, ◌++◌, ◌∷◌, [], ◌≤◌, length, take, drop, IsUtf8, IfOk, IfErr, OnOk, MatchResult};
ghost use Rattle.typst_session.specs.Building.{IsPlainKind, IsNoPlainKind, PushesLeaf, PushesError, PushesCopy, Wraps, Warns, Hints, Pops};
ghost use Rattle.typst_session.specs.Sessions.{HasStack, IsKept};
ghost use Rattle.typst_session.specs.declared.refusal.Refusal.TheVariants.{Kind, Memory, Text};

use crate::refusal::Refusal;
use crate::session::Session;
use std::alloc::{AllocError, Global};
use std::str;
use typst_tree::{InnerError, SyntaxKind, SyntaxNode};

/// The kind of a leaf or an inner node with this number.
pub(crate) fn plain_kind(number: u32) -> Result<SyntaxKind, Refusal>
    ensures ok { IfOk result (IsPlainKind number) }
    ensures err { IfErr result (λ refusal. (refusal ≡ Kind) × IsNoPlainKind number) }
{
    if number > 255 {
        return Err(Refusal::Kind);
    }
    let Some(kind) = SyntaxKind::from_u8(number as u8) else {
        return Err(Refusal::Kind);
    };
    // The comparison is for the proof: the number is the kind's number.
    if kind.to_u8() as u32 != number || kind.is_error() {
        return Err(Refusal::Kind);
    }
    Ok(kind)
}

/// The text that these bytes are.
pub(crate) fn text_of(bytes: &[u8]) -> Result<&str, Refusal>
    ensures ok { IfOk result (λ text. (text.now ≡ bytes.now) × IsUtf8 bytes.now) }
    ensures err { IfErr result (λ refusal. (refusal ≡ Text) × ¬ (IsUtf8 bytes.now)) }
{
    match str::from_utf8(bytes) {
        Ok(text) => Ok(text),
        Err(_) => Err(Refusal::Text),
    }
}

/// Copies of nodes, with their spans and bounds.
pub(crate) fn copies(alloc: Global, nodes: &[SyntaxNode]) -> Result<Vec<SyntaxNode>, AllocError>
    ensures { IfOk result (λ copies. copies.items ≡ nodes.now) }
{
    let mut copies = Vec::with_capacity(alloc, nodes.len())?;
    for node in nodes {
        copies.push(node.clone()?)?;
    }
    Ok(copies)
}

/// Nodes that hold the places of others in a list.
fn placeholders(alloc: Global, count: usize) -> Result<Vec<SyntaxNode>, AllocError>
    ensures { IfOk result (λ nodes. length nodes.items ≡ count) }
{
    let mut nodes = Vec::with_capacity(alloc, count)?;
    nodes.resize_with(count, SyntaxNode::default)?;
    Ok(nodes)
}

/// # The stack
///
/// A call that takes memory can be refused memory. After a refusal the session is as it was.
impl Session {
    /// Puts a node on the stack.
    pub(crate) fn push(&mut self, node: SyntaxNode) -> Result<(), Refusal>
        ensures { MatchResult result (λ _. HasStack (self.old.stack.items ++ node ∷ []) self.old self.new)
            (λ refusal. (refusal ≡ Memory) × IsKept self.old self.new) }
    {
        match self.stack.push(node) {
            Ok(()) => Ok(()),
            Err(_) => Err(Refusal::Memory),
        }
    }

    /// Puts a detached leaf on the stack, by the number of its kind and its text.
    pub fn push_leaf(&mut self, alloc: Global, kind: u32, text: &[u8]) -> Result<(), Refusal>
        ensures { PushesLeaf kind text.now self.old result self.new }
    {
        let kind = plain_kind(kind)?;
        let text = text_of(text)?;
        match SyntaxNode::leaf(alloc, kind, text) {
            Ok(leaf) => self.push(leaf),
            Err(_) => Err(Refusal::Memory),
        }
    }

    /// Puts a detached error on the stack, by its message and its text.
    pub fn push_error(&mut self, alloc: Global, message: &[u8], text: &[u8]) -> Result<(), Refusal>
        ensures { PushesError message.now text.now self.old result self.new }
    {
        let message = text_of(message)?;
        let text = text_of(text)?;
        match SyntaxNode::error(alloc, message, text) {
            Ok(error) => self.push(error),
            Err(_) => Err(Refusal::Memory),
        }
    }

    /// Copies the subtree that a path leads to in the tree that is held, with its spans, and puts the copy on the
    /// stack. The tree stays as it is.
    ///
    /// It takes time and memory in proportion to the nodes of the subtree.
    pub fn push_copy(&mut self, path: &[usize]) -> Result<(), Refusal>
        ensures { PushesCopy path.now self.old result self.new }
    {
        let copy = match self.node_at(path) {
            Ok(node) => node.clone()?,
            Err(refusal) => return Err(refusal),
        };
        self.push(copy)
    }

    /// Replaces the last nodes by a detached inner node. They become its children.
    ///
    /// It takes time in proportion to the number of these nodes, and copies none of them. After a refusal they are still
    /// on the stack.
    #[tactic(auto, using(crate::proofs::Exchanged::nothing_taken))]
    pub fn wrap(&mut self, alloc: Global, kind: u32, count: usize) -> Result<(), Refusal>
        ensures { Wraps kind count self.old result self.new }
    {
        let kind = plain_kind(kind)?;
        let Some(start) = self.stack.len().checked_sub(count) else {
            return Err(Refusal::Stack);
        };
        let mut children = placeholders(alloc, count)?;
        self.exchange(start, &mut children);
        let answer = SyntaxNode::wrap(alloc, kind, &mut children);
        match answer {
            Ok(node) => match self.put(start, node) {
                Ok(()) => Ok(()),
                Err(why) => Err(why),
            },
            Err(why) => {
                self.exchange(start, &mut children);
                Err(match why {
                    InnerError::Overflow => Refusal::Overflow,
                    InnerError::Memory => Refusal::Memory,
                })
            }
        }
    }

    /// Exchanges the nodes from an index on for as many others.
    fn exchange(&mut self, start: usize, others: &mut Vec<SyntaxNode>)
        requires { start + length others.old.items ≡ length self.old.stack.items }
        ensures stack { HasStack (take start self.old.stack.items ++ others.old.items) self.old self.new }
        ensures others { others.new.items ≡ drop start self.old.stack.items }
    {
        self.stack[start..].swap_with_slice(others);
    }

    /// Replaces all nodes from an index on by a node. It is refused memory only if there are none.
    fn put(&mut self, start: usize, node: SyntaxNode) -> Result<(), Refusal>
        requires { start ≤ length self.old.stack.items }
        ensures ok { OnOk result (HasStack (take start self.old.stack.items ++ node ∷ []) self.old self.new) }
        ensures err { IfErr result (λ refusal. (refusal ≡ Memory) × (start ≡ length self.old.stack.items)
            × IsKept self.old self.new) }
    {
        if start == self.stack.len() {
            return self.push(node);
        }
        self.stack[start] = node;
        self.stack.truncate(start + 1);
        Ok(())
    }

    /// Puts one more warning with a message around the last node of the stack, outside the warnings that the node has.
    pub fn warn(&mut self, alloc: Global, message: &[u8]) -> Result<(), Refusal>
        ensures { Warns message.now self.old result self.new }
    {
        let message = text_of(message)?;
        let Some(node) = self.stack.last_mut() else {
            return Err(Refusal::Stack);
        };
        node.warn(alloc, message)?;
        Ok(())
    }

    /// Adds a hint to the last node of the stack. The hint goes to the node's outermost warning. If the node has no
    /// warning but is an error, the hint goes to the error.
    pub fn hint(&mut self, alloc: Global, text: &[u8]) -> Result<(), Refusal>
        ensures { Hints text.now self.old result self.new }
    {
        let text = text_of(text)?;
        let Some(node) = self.stack.last_mut() else {
            return Err(Refusal::Stack);
        };
        if !node.can_hint() {
            return Err(Refusal::NoHints);
        }
        node.hint(alloc, text)?;
        Ok(())
    }

    /// Drops the last nodes of the stack.
    pub fn pop(&mut self, count: usize) -> Result<(), Refusal>
        ensures { Pops count self.old result self.new }
    {
        let Some(start) = self.stack.len().checked_sub(count) else {
            return Err(Refusal::Stack);
        };
        self.stack.truncate(start);
        Ok(())
    }
}
