//! Finding nodes of the tree that a handle holds.
ghost use Rattle.std.specs.Prelude.{◌≡◌, Result};
ghost use Rattle.typst_c.specs.Calls.{Reads, Told};
ghost use Rattle.typst_c.specs.Lending.{IsSameHandle};
ghost use Rattle.typst_c.specs.Told.{TellsPlace};
ghost use Rattle.typst_session.specs.Finding.{Finds, FindsByCover, FindsByRange, FindsLeaf};
ghost use Rattle.typst_session.specs.declared.finding.Found.{Found};
ghost use Rattle.typst_session.specs.declared.refusal.Refusal.{Refusal};
ghost use Rattle.typst_c.specs.Told.{side_of};

use crate::handle::Handle;
use crate::told::{NOT_MADE, Place, tell_place};
use std::alloc::Global;
use typst_tree::Side;

/// Finds the node with a number: its path, and where its text begins.
#[unsafe(no_mangle)]
pub extern "C" fn typst_find(
    alloc: Global,
    handle: &mut Handle,
    number: u64,
    path: &mut [usize],
    place: &mut Place,
) -> u32
    ensures kept { IsSameHandle handle.old handle.new }
    ensures read { Reads ((path.new ≡ path.old) × (place.new ≡ place.old))
        (λ s. Told (TellsPlace path.old path.new place.old place.new result)
        (Finds number s)) handle.old.at.value result }
{
    let Some(session) = handle.read() else {
        return NOT_MADE;
    };
    let outcome = session.find(alloc, number);
    tell_place(outcome, path, place)
}

/// Finds the node with a range of bytes, from `from` up to, not including, `to`.
#[unsafe(no_mangle)]
pub extern "C" fn typst_find_range(
    alloc: Global,
    handle: &mut Handle,
    from: usize,
    to: usize,
    path: &mut [usize],
    place: &mut Place,
) -> u32
    ensures kept { IsSameHandle handle.old handle.new }
    ensures read { Reads ((path.new ≡ path.old) × (place.new ≡ place.old))
        (λ s. Told (TellsPlace path.old path.new place.old place.new result)
        (FindsByRange from to s)) handle.old.at.value result }
{
    let Some(session) = handle.read() else {
        return NOT_MADE;
    };
    let outcome = session.find_range(alloc, from..to);
    tell_place(outcome, path, place)
}

/// Finds the smallest node that covers a range of bytes, from `from` up to, not including, `to`.
#[unsafe(no_mangle)]
pub extern "C" fn typst_find_cover(
    alloc: Global,
    handle: &mut Handle,
    from: usize,
    to: usize,
    path: &mut [usize],
    place: &mut Place,
) -> u32
    ensures kept { IsSameHandle handle.old handle.new }
    ensures read { Reads ((path.new ≡ path.old) × (place.new ≡ place.old))
        (λ s. Told (TellsPlace path.old path.new place.old place.new result)
        (FindsByCover from to s)) handle.old.at.value result }
{
    let Some(session) = handle.read() else {
        return NOT_MADE;
    };
    let outcome = session.find_cover(alloc, from..to);
    tell_place(outcome, path, place)
}

/// The side with a number: 0 is before the cursor, any other number after it.
fn side_from(number: u32) -> Side
    ensures { result ≡ side_of number }
{
    if number == 0 {
        Side::Before
    } else {
        Side::After
    }
}

/// Finds the leaf at a cursor, in bytes. The leaf holds the byte before the cursor (`side` is 0) or after it (any other
/// number).
#[unsafe(no_mangle)]
pub extern "C" fn typst_leaf_at(
    alloc: Global,
    handle: &mut Handle,
    cursor: usize,
    side: u32,
    path: &mut [usize],
    place: &mut Place,
) -> u32
    ensures kept { IsSameHandle handle.old handle.new }
    ensures read { Reads ((path.new ≡ path.old) × (place.new ≡ place.old))
        (λ s. Told (TellsPlace path.old path.new place.old place.new result)
        (FindsLeaf (side_of side) cursor s)) handle.old.at.value result }
{
    let Some(session) = handle.read() else {
        return NOT_MADE;
    };
    let outcome = session.leaf_at(alloc, cursor, side_from(side));
    tell_place(outcome, path, place)
}
