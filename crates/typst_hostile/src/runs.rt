//! Runs of replacements and searches.
use crate::end::{End, Refusal, Stop};
use crate::requests::Requests;
use crate::trees::{LET_PARTS, ONE, STRONG, TEXTS, TWO_IN_MARKUP};
use std::alloc::Global;
use typst_base::{FileId, Span, SpanNumber};
use typst_drawn::{drawn_all, numbered};
use typst_node::{ReplaceError, SyntaxNode};
use typst_tree::session::{self, Reply, Request, Slot};

/// A request as it is written in a table.
#[derive(Clone, Copy)]
pub enum Asked {
    /// A path, the first child to replace, the first child after those, and what replaces them.
    Replace(&'static [usize], usize, usize, &'static str),
    /// A number.
    Find(u64),
}

/// A run: a tree, the end of its numbers, and what is asked of it.
#[derive(Clone, Copy)]
pub struct Run {
    tree: &'static str,
    end: u64,
    asked: &'static [Asked],
}

/// A run that is made.
#[derive(Clone, Copy)]
pub enum Queue {
    /// One of each reply.
    Replies,
    /// Insertions and searches between them.
    Insertions,
    /// A text between two others, and the search for the one after it.
    Between,
    /// Another name in place of the first one that a let binds.
    Renamed,
}

impl Queue {
    /// The run's tree, and what is asked of the tree.
    pub fn requests(self) -> Run {
        match self {
            Queue::Replies => REPLIES,
            Queue::Insertions => INSERTIONS,
            Queue::Between => BETWEEN,
            Queue::Renamed => RENAMED,
        }
    }
}

/// A tree with the replies that made it.
#[derive(Drop)]
struct Served {
    tree: SyntaxNode,
    slots: Vec<Slot>,
}

/// One of each reply where memory is ample, on the tree `*b*c` with `Strong`.
const REPLIES: Run = Run {
    tree: STRONG,
    end: 30,
    asked: &[
        Asked::Replace(&[0], 1, 2, TWO_IN_MARKUP),
        Asked::Find(15),
        Asked::Replace(&[0, 1], 0, 1, TWO),
        Asked::Replace(&[5], 0, 0, ""),
        Asked::Replace(&[1], 0, 0, ""),
        Asked::Find(14),
    ],
};

/// Insertions at the root and below it, and searches between them. Each takes memory.
const INSERTIONS: Run = Run {
    tree: "Markup[ Markup[ Text:a Text:b ] Text:c ]",
    end: 400,
    asked: &[
        Asked::Replace(&[], 1, 1, TWO),
        Asked::Find(22),
        Asked::Replace(&[0], 1, 1, TWO),
        Asked::Find(23),
        Asked::Replace(&[], 1, 1, TWO_IN_MARKUP),
        Asked::Find(24),
        Asked::Replace(&[0], 0, 2, TWO),
    ],
};

/// The leaves `x` and `y`.
const TWO: &str = "Text:x Text:y";

/// `x` between `ab` and `c`, and the search for `c`, whose number is then 6.
const BETWEEN: Run = Run {
    tree: TEXTS,
    end: 14,
    asked: &[Asked::Replace(&[], 1, 1, ONE), Asked::Find(6)],
};

/// `z` in place of `a` in the parts that a let binds.
const RENAMED: Run = Run {
    tree: LET_PARTS,
    end: 1 << 47,
    asked: &[Asked::Replace(&[2], 1, 2, "Ident:z")],
};

impl Run {
    /// Makes the run. Where a request was refused memory, all else must be as if that request hadn't been made.
    pub fn run(self, alloc: Global, requests: Requests) -> Result<End, Stop> {
        let whole = self.served(alloc, None)?;
        let mut tree = self.tree(alloc)?;
        let mut slots = self.slots(alloc, None)?;
        requests.make(alloc)?;
        if !tree.is_numbered() {
            return Err(Stop::Early);
        }
        session::run(alloc, &mut tree, &mut slots);
        let Some((index, refusal)) = first_refusal(&slots) else {
            return Ok(End::answered(tree == whole.tree && are_same(&slots, &whole.slots)));
        };
        let rest = self.served(alloc, Some(index))?;
        let others = without(alloc, slots, index)?;
        if tree == rest.tree && are_same(&others, &rest.slots) {
            Ok(End::Refused(refusal))
        } else {
            Ok(End::Changed)
        }
    }

    /// The tree. It is a clone, whose lists of children have no room for more.
    fn tree(self, alloc: Global) -> Result<SyntaxNode, Stop> {
        Ok(numbered(alloc, self.tree, 2..self.end)?.clone()?)
    }

    /// The run over all requests but one.
    fn served(self, alloc: Global, but: Option<usize>) -> Result<Served, Stop> {
        let mut tree = self.tree(alloc)?;
        let mut slots = self.slots(alloc, but)?;
        if !tree.is_numbered() {
            return Err(Stop::Early);
        }
        session::run(alloc, &mut tree, &mut slots);
        Ok(Served { tree, slots })
    }

    /// The requests of the run, except for one.
    fn slots(self, alloc: Global, but: Option<usize>) -> Result<Vec<Slot>, Stop> {
        let mut slots = Vec::with_capacity(alloc, self.asked.len())?;
        for (index, asked) in self.asked.iter().enumerate() {
            if but != Some(index) {
                slots.push(Slot::Ask(asked.request(alloc)?))?;
            }
        }
        Ok(slots)
    }
}

impl Asked {
    /// The request.
    fn request(&self, alloc: Global) -> Result<Request, Stop> {
        match *self {
            Asked::Replace(path, start, end, drawing) => Ok(Request::Replace {
                path: path.to_vec(alloc)?,
                range: start..end,
                replacement: drawn_all(alloc, drawing)?,
            }),
            Asked::Find(number) if 2 <= number && number < 1 << 47 => {
                Ok(Request::Find(Span::from_number(FileId::FIRST, SpanNumber(number))))
            }
            Asked::Find(_) => Err(Stop::Early),
        }
    }
}

/// The first request that was refused memory.
fn first_refusal(slots: &[Slot]) -> Option<(usize, Refusal)> {
    for (index, slot) in slots.iter().enumerate() {
        match slot.reply() {
            Some(Reply::Refused(ReplaceError::Memory)) => return Some((index, Refusal::Memory)),
            Some(Reply::NoMemory) => return Some((index, Refusal::NoMemory)),
            _ => {}
        }
    }
    None
}

/// The other slots.
fn without(alloc: Global, slots: Vec<Slot>, but: usize) -> Result<Vec<Slot>, Stop> {
    let mut others = Vec::new(alloc);
    for (index, slot) in slots.into_iter().enumerate() {
        if index != but {
            others.push(slot)?;
        }
    }
    Ok(others)
}

/// Whether the replies are the same, and each slot has one.
fn are_same(one: &[Slot], other: &[Slot]) -> bool {
    one.len() == other.len()
        && one.iter().zip(other.iter()).all(|(one, other)| one.reply().is_some()
            && one.reply() == other.reply())
}
