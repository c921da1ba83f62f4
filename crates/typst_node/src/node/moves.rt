//! Where the nodes of a tree are after an edit.
ghost use Rattle.std.specs.Prelude.{◌≡◌, ◌+◌, ◌^◌, ◌<◌, ◌++◌, length, IfOk};
ghost use Rattle.std.specs.List.{AllByRecursion};
ghost use Rattle.typst_node.specs.Count.{count_of_all};
ghost use Rattle.typst_node.specs.Numbered.{Rise};
ghost use Rattle.typst_node.specs.Moves.{IsNodeNumber, numbers, followed, followed_span, no_moves};
ghost use Rattle.typst_node.specs.Updated.{all_gone};

use crate::node::SyntaxNode;
use crate::node::trim::count_nodes;
use std::alloc::{AllocError, Global};
use std::marker::Model;
use std::ops::Range;
use typst_base::{FileId, Span, SpanNumber};

/// What is noted of the nodes that stay in a window before the edit is made.
#[derive(Drop)]
pub(super) struct Noted {
    /// Their numbers, in rising order.
    pub(super) olds: Vec<u64>,
    /// Room for the numbers that they get.
    pub(super) room: Vec<u64>,
    /// The numbers between the neighbours of the replaced nodes.
    pub(super) gone: Range<u64>,
    /// How many children stay in the window before the replaced ones, and how many after them.
    pub(super) ahead: usize,
    pub(super) behind: usize,
}

/// Where the nodes of a tree are after an edit, by their numbers.
///
/// An edit gives new numbers to the nodes that stay in its window, and takes away the nodes that it replaces. All other
/// nodes keep their numbers. The moves hold two numbers for each node that stays in the window.
#[derive(Clone, Debug, Drop)]
pub struct Moves {
    // The tree's file, unless no node moves or goes.
    id: Option<FileId>,
    // The numbers that the nodes in the window had, in rising order, and those that they have now.
    olds: Vec<u64>,
    news: Vec<u64>,
    // The numbers between the neighbours of the replaced nodes.
    gone: Range<u64>,
}

impl Model for Moves {
    ghost use Rattle.std.specs.Prelude.{◌≡◌, length};
    ghost use Rattle.std.specs.List.{AllByRecursion};
    ghost use Rattle.typst_node.specs.Numbered.{Rise};
    ghost use Rattle.typst_node.specs.Moves.{NumberMoves, IsNodeNumber};

    ghost Value = { NumberMoves };

    ghost view = { λ m. record { file = m.id; olds = m.olds.items; news = m.news.items; gone = m.gone } };

    ghost invariant = { λ m. Rise m.olds.items × (length m.news.items ≡ length m.olds.items)
        × AllByRecursion IsNodeNumber m.news.items };
}

/// Writes the numbers of the trees' nodes, in preorder.
fn write_numbers(nodes: &[SyntaxNode], out: &mut [u64])
    requires { length out.old ≡ count_of_all nodes.now }
    ensures { out.new ≡ numbers nodes.now }
{
    let mut at = 0;
    for node in nodes {
        let end = at + node.descendants();
        out[at] = node.span().number();
        write_numbers(node.child_slice(), &mut out[at + 1..end]);
        at = end;
    }
}

/// Writes the numbers of the nodes of two rows of trees, in preorder.
fn write_both(ahead: &[SyntaxNode], behind: &[SyntaxNode], out: &mut [u64])
    requires { length out.old ≡ count_of_all ahead.now + count_of_all behind.now }
    ensures { out.new ≡ numbers (ahead.now ++ behind.now) }
{
    let (first, rest) = out.split_at_mut(count_nodes(ahead));
    write_numbers(ahead, first);
    write_numbers(behind, rest);
}

/// A list of zeros.
fn zeros(alloc: Global, count: usize) -> Result<Vec<u64>, AllocError>
    ensures { IfOk result (λ v. length v.items ≡ count) }
{
    let mut zeros = Vec::with_capacity(alloc, count)?;
    zeros.resize(count, 0)?;
    Ok(zeros)
}

impl Noted {
    /// What is noted of no nodes.
    pub(super) fn none(alloc: Global) -> Noted {
        Noted {
            olds: Vec::new(alloc),
            room: Vec::new(alloc),
            gone: 0..0,
            ahead: 0,
            behind: 0,
        }
    }

    /// Notes the numbers of the nodes of two rows of trees, and room for others. The numbers `gone` are between the rows.
    pub(super) fn note(
        alloc: Global,
        ahead: &[SyntaxNode],
        behind: &[SyntaxNode],
        gone: Range<u64>,
    ) -> Result<Noted, AllocError>
        requires fits { count_of_all ahead.now + count_of_all behind.now < 2 ^ 64 }
        ensures olds { IfOk result (λ noted. noted.olds.items ≡ numbers (ahead.now ++ behind.now)) }
        ensures room { IfOk result (λ noted. length noted.room.items
            ≡ count_of_all ahead.now + count_of_all behind.now) }
        ensures gone { IfOk result (λ noted. noted.gone ≡ gone) }
        ensures ahead { IfOk result (λ noted. noted.ahead ≡ length ahead.now) }
        ensures behind { IfOk result (λ noted. noted.behind ≡ length behind.now) }
    {
        let count = count_nodes(ahead) + count_nodes(behind);
        let mut olds = zeros(alloc, count)?;
        let room = zeros(alloc, count)?;
        write_both(ahead, behind, &mut olds);
        Ok(Noted {
            olds,
            room,
            gone,
            ahead: ahead.len(),
            behind: behind.len(),
        })
    }
}

impl Moves {
    /// The moves of an edit that changes nothing.
    pub(super) fn none(alloc: Global) -> Moves
        ensures { result ≡ no_moves }
    {
        Moves {
            id: None,
            olds: Vec::new(alloc),
            news: Vec::new(alloc),
            gone: 0..0,
        }
    }

    /// The moves of an edit that takes away all nodes of a file.
    pub(super) fn all_gone(alloc: Global, id: FileId) -> Moves
        ensures { result ≡ all_gone id }
    {
        Moves {
            id: Some(id),
            olds: Vec::new(alloc),
            news: Vec::new(alloc),
            gone: Span::FULL,
        }
    }

    /// The moves of an edit of a tree in this file, by what was noted before it and the same two rows after it.
    pub(super) fn new(
        id: Option<FileId>,
        noted: Noted,
        ahead: &[SyntaxNode],
        behind: &[SyntaxNode],
    ) -> Moves
        requires rise { Rise noted.olds.items }
        requires many { length noted.room.items ≡ length noted.olds.items }
        requires room { length noted.room.items ≡ count_of_all ahead.now + count_of_all behind.now }
        requires news { AllByRecursion IsNodeNumber (numbers (ahead.now ++ behind.now)) }
        ensures { result ≡ record {
          file = id;
          olds = noted.olds.items;
          news = numbers (ahead.now ++ behind.now);
          gone = noted.gone;
        } }
    {
        let mut news = noted.room;
        write_both(ahead, behind, &mut news);
        Moves {
            id,
            olds: noted.olds,
            news,
            gone: noted.gone,
        }
    }

    /// The number that a node has after the edit, by its number before the edit. It is `None` for a node that the edit
    /// took away.
    ///
    /// A number that no node had is answered as `None` if it lies between the numbers of the neighbours of the nodes
    /// that the edit took away, and else as it is.
    ///
    /// It takes no memory, and time in proportion to the binary digits of the number of nodes that stay in the window.
    pub fn follow(&self, number: u64) -> Option<u64>
        ensures { result ≡ followed self.now number }
    {
        if self.gone.contains(&number) {
            return None;
        }
        match self.olds.binary_search(&number) {
            Ok(index) => Some(self.news[index]),
            Err(_) => Some(number),
        }
    }

    /// The span that a node has after the edit, by its span before the edit. It is `None` for a node that the edit took
    /// away.
    ///
    /// A span that isn't that of a number in the tree's file is answered as it is: a detached one, one of another file,
    /// and one of a range of bytes. It works as [`Moves::follow`] otherwise.
    pub fn follow_span(&self, span: Span) -> Option<Span>
        ensures { result ≡ followed_span self.now span }
    {
        let Some(id) = span.id() else {
            return Some(span);
        };
        let number = span.number();
        if self.id != Some(id) || number < 2 || number >= 1 << 47 {
            return Some(span);
        }
        match self.follow(number) {
            Some(now) => Some(Span::from_number(id, SpanNumber(now))),
            None => None,
        }
    }

    /// The nodes that stay in the window: the numbers that they had, in rising order, and in the same order the numbers
    /// that they have now. Every other node that isn't gone has the number that it had. It takes no memory.
    pub fn moved(&self) -> (&[u64], &[u64])
        ensures before { result.0.now ≡ self.now.olds }
        ensures after { result.1.now ≡ self.now.news }
    {
        (&self.olds, &self.news)
    }
}

impl PartialEq for Moves {
    ghost use Rattle.typst_node.specs.EqualMoves.{moves_eq, moves_laws};

    ghost eq = { moves_eq };

    ghost laws = { moves_laws };

    fn eq(&self, other: &Moves) -> bool {
        self.id == other.id
            && self.olds == other.olds
            && self.news == other.news
            && self.gone.start == other.gone.start
            && self.gone.end == other.gone.end
    }
}

impl Eq for Moves {
    ghost use Rattle.typst_node.specs.EqualMoves.{moves_equivalence};

    ghost laws = { moves_equivalence };
}
