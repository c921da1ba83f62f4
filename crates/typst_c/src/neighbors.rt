//! Where the nodes are in the tree that a handle holds.
ghost use Rattle.std.specs.Prelude.{ℕ, ◌≡◌, Result};
ghost use Rattle.std.specs.declared.ops.Range.{Range as Interval};
ghost use Rattle.typst_c.specs.Calls.{Reads, Told};
ghost use Rattle.typst_c.specs.Lending.{IsSameHandle};
ghost use Rattle.typst_c.specs.Told.{IsByteRange, neighbor_from, Tells, TellsPlace};
ghost use Rattle.typst_session.specs.Neighbors.{FindsNeighbor, ReadsRange};
ghost use Rattle.typst_session.specs.declared.finding.Found.{Found};
ghost use Rattle.typst_session.specs.declared.refusal.Refusal.{Refusal};

use crate::handle::Handle;
use crate::told::{ByteRange, NOT_MADE, Place, tell_place, tell_range};
use std::alloc::Global;
use typst_session::Neighbor;

/// The bytes of the text that belong to the node at a path.
#[unsafe(no_mangle)]
pub extern "C" fn typst_range_of(
    alloc: Global,
    handle: &mut Handle,
    path: &[usize],
    range: &mut ByteRange,
) -> u32
    ensures kept { IsSameHandle handle.old handle.new }
    ensures read { Reads (range.new ≡ range.old) (λ s. Told (Tells IsByteRange range.old range.new result)
        (ReadsRange path.now s)) handle.old.at.value result }
{
    let Some(session) = handle.read() else {
        return NOT_MADE;
    };
    let outcome = session.range(alloc, path);
    tell_range(outcome, range)
}

/// The neighbor with a number: 0 is the next leaf, 1 the leaf before, 2 the next sibling, and any other number the
/// sibling before.
fn neighbor_of(number: u32) -> Neighbor
    ensures { result ≡ neighbor_from number }
{
    match number {
        0 => Neighbor::NextLeaf,
        1 => Neighbor::PrevLeaf,
        2 => Neighbor::NextSibling,
        _ => Neighbor::PrevSibling,
    }
}

/// Finds the node next to the one at a path: a leaf or a sibling, after it or before it.
#[unsafe(no_mangle)]
pub extern "C" fn typst_neighbor(
    alloc: Global,
    handle: &mut Handle,
    path: &[usize],
    which: u32,
    found: &mut [usize],
    place: &mut Place,
) -> u32
    ensures kept { IsSameHandle handle.old handle.new }
    ensures read { Reads ((found.new ≡ found.old) × (place.new ≡ place.old))
        (λ s. Told (TellsPlace found.old found.new place.old place.new result)
        (FindsNeighbor (neighbor_from which) path.now s)) handle.old.at.value result }
{
    let Some(session) = handle.read() else {
        return NOT_MADE;
    };
    let outcome = session.neighbor(alloc, path, neighbor_of(which));
    tell_place(outcome, found, place)
}
