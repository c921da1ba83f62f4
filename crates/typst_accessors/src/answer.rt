//! What an accessor answers of a node.
ghost use Rattle.std.specs.Prelude.{◌≡◌, Some, IfOk, IsErr, MatchOption};
ghost use Rattle.typst_accessors.specs.Accessors.{accessor_view};
ghost use Rattle.typst_accessors.specs.Answers.{Answers, Says, may_answer, string_value};
ghost use Rattle.typst_accessors.specs.declared.answer.Answer.TheVariants.{Nothing, Natural, Node};
ghost use Rattle.typst_node.specs.Views.{node_kind};

use crate::accessor::{Accessor, IntegerAccessor, StringAccessor};
use std::alloc::{AllocError, Global};
use typst_ast::views::{Int, Str};
use typst_node::SyntaxNode;

/// What an accessor answers of a node.
#[derive(Drop)]
pub enum Answer<'a> {
    /// Nothing: the node isn't of the accessor's view, or has no such number or node.
    Nothing,
    /// A boolean.
    Flag(bool),
    /// A natural number.
    Natural(u64),
    /// An integer with a sign.
    Integer(i64),
    /// A character.
    Character(char),
    /// A text of the tree, or of a table.
    Text(&'a str),
    /// A text that was made.
    Owned(String),
    /// A node of the tree.
    Node(&'a SyntaxNode),
}

/// The answer that holds a number, if there is one.
fn natural<'a>(number: Option<u64>) -> Answer<'a>
    ensures { MatchOption number (result ≡ Nothing) (λ n. result ≡ Natural n) }
{
    match number {
        Some(number) => Answer::Natural(number),
        None => Answer::Nothing,
    }
}

/// The answer that holds a node, if there is one.
fn found<'a>(node: Option<&'a SyntaxNode>) -> Answer<'a>
    ensures { MatchOption node.entry (result ≡ Nothing) (λ n. result ≡ Node n) }
{
    match node {
        Some(node) => Answer::Node(node),
        None => Answer::Nothing,
    }
}

impl Accessor {
    /// Whether the accessor may have an answer with an index.
    fn may_answer(self, index: usize) -> bool
        ensures { result ≡ may_answer self index }
    {
        match self {
            Accessor::Nodes(_) => true,
            _ => index == 0,
        }
    }

    /// What the accessor answers of a node of its view. The index counts only if it answers several nodes.
    fn read<'a>(
        self,
        alloc: Global,
        node: &'a SyntaxNode,
        index: usize,
    ) -> Result<Answer<'a>, AllocError>
        requires { node_kind node.now ≡ accessor_view self }
        ensures said { IfOk result (Says self index (Some node.now)) }
        ensures memory { IsErr result → self ≡ string_value }
    {
        match self {
            Accessor::Flag(accessor) => Ok(Answer::Flag(accessor.read(node))),
            Accessor::Natural(accessor) => Ok(natural(accessor.read(node))),
            Accessor::Integer(IntegerAccessor::IntGet) => {
                Ok(Answer::Integer(Int::of_kind(node).get()))
            }
            Accessor::Character(accessor) => Ok(Answer::Character(accessor.read(node))),
            Accessor::Text(accessor) => Ok(Answer::Text(accessor.read(node))),
            Accessor::String(StringAccessor::StrGet) => {
                Ok(Answer::Owned(Str::of_kind(node).get(alloc)?))
            }
            Accessor::Node(accessor) => Ok(found(accessor.read(node))),
            Accessor::Nodes(accessor) => Ok(found(accessor.read(node, index))),
        }
    }

    /// What the accessor answers of a node, by its index among its answers. An accessor of several nodes has as many
    /// answers, and any other has one, with the index 0. It answers nothing for a larger index, and of a node that isn't
    /// of its view.
    ///
    /// It takes memory only for the value of a string, in proportion to its text. An answer among several nodes takes
    /// time in proportion to the children before it, and any other one at most in proportion to all children.
    pub fn answer<'a>(
        self,
        alloc: Global,
        node: &'a SyntaxNode,
        index: usize,
    ) -> Result<Answer<'a>, AllocError>
        ensures answers { IfOk result (Answers self index node.now) }
        ensures memory { IsErr result → self ≡ string_value }
    {
        if node.kind() == self.view() && self.may_answer(index) {
            self.read(alloc, node, index)
        } else {
            Ok(Answer::Nothing)
        }
    }
}
