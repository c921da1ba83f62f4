//! The ends of the texts of a node's children.
ghost use Rattle.std.specs.Prelude.{◌≡◌, ◌+◌, ◌-◌, ◌^◌, ◌<◌, ◌≤◌, length, take, drop, slice_range, IfOk, IfSome, IsOk};
ghost use Rattle.typst_node.specs.Text.{text_of_all};
ghost use Rattle.typst_node.specs.Count.{SumsFit};
ghost use Rattle.typst_node.specs.ChildEnds.{ends_from, HavePlace, IsStaleList};

use crate::ends::{Ends, low};
use crate::node::SyntaxNode;
use crate::node::inner::measure;
use crate::node::settle::Change;
use std::alloc::{AllocError, Global};

/// A node with at most this many children doesn't keep their ends.
pub(crate) const FEW: usize = 10;

/// The ends of the texts of a few children. The numbers after theirs have no meaning.
fn few_ends(children: &[SyntaxNode]) -> [u32; FEW]
    requires few { length children.now ≤ 10 }
    requires fits { SumsFit children.now }
    ensures { take (length children.now) result ≡ ends_from 0 children.now }
{
    let mut ends = [0; FEW];
    let _ = measure(children, &mut ends[..children.len()]);
    ends
}

/// These ends, with room for the ends of the children that come in a change.
fn spread(alloc: Global, ends: &[u32], change: &Change) -> Result<Ends, AllocError>
    requires window { change.now.from ≤ change.now.to }
    requires inside { change.now.to ≤ length ends.now }
    requires fits { length ends.now + change.now.many < 2 ^ 64 }
    ensures len { IfOk result (λ e. length e + (change.now.to - change.now.from) ≡ length ends.now + change.now.many) }
    ensures before { IfOk result (λ e. take change.now.from e ≡ take change.now.from ends.now) }
    ensures behind { IfOk result (λ e. drop (change.now.from + change.now.many) e ≡ drop change.now.to ends.now) }
{
    let left = ends.len() - (change.to - change.from);
    let mut all = Vec::with_capacity(alloc, left + change.many)?;
    all.extend_from_slice(&ends[..change.from])?;
    all.resize(change.from + change.many, 0)?;
    all.extend_from_slice(&ends[change.to..])?;
    Ends::new(all)
}

/// Writes the ends of the texts of the children from `from` up to `to`. The ends of the children before them are given.
fn write_ends(ends: &mut Ends, children: &[SyntaxNode], from: usize, to: usize)
    requires many { length ends.old ≡ length children.now }
    requires window { from ≤ to }
    requires inside { to ≤ length children.now }
    requires before { take from ends.old ≡ take from (ends_from 0 children.now) }
    ensures before { take to ends.new ≡ take to (ends_from 0 children.now) }
    ensures behind { drop to ends.new ≡ drop to ends.old }
{
    for i in from..to {
        ends.follow(i, low(children[i].len()));
    }
}

/// The ends of the texts when a change turns few children into many. There is room for the ends of the children that
/// come.
#[tactic(auto, using(crate::proofs::Trees::length_of_ends))]
pub(super) fn first_ends(
    alloc: Global,
    children: &[SyntaxNode],
    change: &Change,
) -> Result<Option<Ends>, AllocError>
    requires few { length children.now ≤ 10 }
    requires sums { SumsFit children.now }
    requires window { change.now.from ≤ change.now.to }
    requires inside { change.now.to ≤ length children.now }
    requires fits { length children.now + change.now.many < 2 ^ 64 }
    ensures ok { IfOk result (λ ends. HavePlace change.now.from change.now.to change.now.many ends children.now) }
    ensures many { IfOk result (λ ends. IfSome ends (λ _.
        10 < length children.now - (change.now.to - change.now.from) + change.now.many)) }
    ensures succeeds { change.now.many ≤ change.now.to - change.now.from → IsOk result }
{
    let count = children.len();
    if count - (change.to - change.from) + change.many <= FEW {
        return Ok(None);
    }
    let ends = few_ends(children);
    Ok(Some(spread(alloc, &ends[..count], change)?))
}

/// Corrects the ends after a change. It writes the ends of the children that came, and moves the ends after them by the
/// difference of both lengths. If one child replaced one of the same length, it reads and writes no end.
pub(super) fn settle_ends(ends: &mut Ends, children: &[SyntaxNode], change: &Change)
    requires window { change.now.from ≤ change.now.to }
    requires inside { change.now.from + change.now.many ≤ length children.now }
    requires stale { IsStaleList change.now.from change.now.to change.now.many change.now.gone.len ends.old
        children.now }
    requires added { change.now.added.len ≡ length (text_of_all
        (slice_range children.now change.now.from (change.now.from + change.now.many))) }
    ensures { ends.new ≡ ends_from 0 children.now }
{
    let (gone, added) = (change.gone.len, change.added.len);
    if change.many == 1 && change.to - change.from == 1 && gone == added {
        return;
    }
    let to = change.from + change.many;
    write_ends(ends, children, change.from, to);
    if gone != added {
        ends.shift(to, gone, added);
    }
}
