//! How outcomes are told to C: by a status, and by what is written for the caller.
ghost use Rattle.std.specs.Prelude.{◌≡◌};
ghost use Rattle.typst_session.specs.Texts.{Writes};
ghost use Rattle.typst_c.specs.Calls.{status_of};
ghost use Rattle.typst_c.specs.Told.{IsByteRange, IsChange, IsEdit, IsTouched, IsUpdate, IsWindow, Tells, TellsFlag, TellsPlace};

use std::ops::Range;
use typst_node::Touched;
use typst_session::finding::Found;
use typst_session::{Change as TreeChange, Refusal, TextChange};
use typst_tree::Renumbered;

/// The status of a handle that holds nothing.
pub const NOT_MADE: u32 = 1;

/// The range of children that an edit numbered anew.
#[repr(C)]
#[derive(Clone, Copy, Drop)]
pub struct Window {
    /// The index of the first child.
    pub start: usize,
    /// The index after the last child.
    pub end: usize,
    /// How many windows were tried.
    pub tried: usize,
}

/// What an edit changed of a tree: children of one node, or the root itself.
#[repr(C)]
#[derive(Clone, Copy, Drop)]
pub struct Change {
    /// The number of child indices in the path to that node.
    pub depth: usize,
    /// Which of its children were numbered anew.
    pub window: Window,
    /// How many nodes that stay were numbered anew.
    pub moved: usize,
    /// 1 if the root itself was changed, else 0.
    pub root: u32,
}

/// What an edit of a text did.
#[repr(C)]
#[derive(Clone, Copy, Drop)]
pub struct Edited {
    /// Where the bytes that were parsed anew begin in the new text.
    pub start: usize,
    /// Where they end.
    pub end: usize,
    /// What was changed of the tree.
    pub change: Change,
}

/// Where a node was found.
#[repr(C)]
#[derive(Clone, Copy, Drop)]
pub struct Place {
    /// The number of child indices in its path.
    pub depth: usize,
    /// Where its text begins, in bytes.
    pub offset: usize,
}

/// The length of a text or of a list.
#[repr(C)]
#[derive(Clone, Copy, Drop)]
pub struct Length {
    /// The length in bytes or in items.
    pub len: usize,
}

/// A range of bytes of a text.
#[repr(C)]
#[derive(Clone, Copy, Drop)]
pub struct ByteRange {
    /// Where the range begins.
    pub start: usize,
    /// Where it ends.
    pub end: usize,
}

/// The status of an outcome.
pub(crate) fn status(outcome: Result<(), Refusal>) -> u32
    ensures { result ≡ status_of outcome }
{
    match outcome {
        Ok(()) => 0,
        Err(refusal) => refusal.code(),
    }
}

/// Tells a value.
pub(crate) fn tell<T: Drop>(outcome: Result<T, Refusal>, told: &mut T) -> u32
    ensures { Tells (λ value now. now ≡ value) told.old told.new result outcome }
{
    match outcome {
        Ok(value) => {
            *told = value;
            0
        }
        Err(refusal) => refusal.code(),
    }
}

/// Tells whether something holds, as 1 or 0.
pub(crate) fn tell_flag(outcome: Result<bool, Refusal>, told: &mut u32) -> u32
    ensures { TellsFlag told.old told.new result outcome }
{
    tell(outcome.map(u32::from), told)
}

/// The range as C has it.
fn byte_range(range: Range<usize>) -> ByteRange
    ensures { IsByteRange range result }
{
    ByteRange {
        start: range.start,
        end: range.end,
    }
}

/// Tells a range of bytes.
pub(crate) fn tell_range(outcome: Result<Range<usize>, Refusal>, told: &mut ByteRange) -> u32
    ensures { Tells IsByteRange told.old told.new result outcome }
{
    tell(outcome.map(byte_range), told)
}

/// The window of a replacement.
fn window_of(done: &Renumbered) -> Window
    ensures { IsWindow done.now result }
{
    Window {
        start: done.window.start,
        end: done.window.end,
        tried: done.tried,
    }
}

/// Tells a window.
pub(crate) fn tell_window(outcome: Result<Renumbered, Refusal>, told: &mut Window) -> u32
    ensures { Tells IsWindow told.old told.new result outcome }
{
    tell(outcome.map(|done| window_of(&done)), told)
}

/// The window of an edit. If a leaf or an error went on, it is empty.
fn window_touched(touched: &Touched) -> Window
    ensures { IsTouched touched.now result }
{
    match touched {
        Touched::Leaf { index } => Window {
            start: *index,
            end: *index,
            tried: 0,
        },
        Touched::Window(done) => window_of(done),
    }
}

/// What an edit changed below the root or at it.
fn change_of(done: &TreeChange) -> Change
    ensures { IsChange done.now result }
{
    Change {
        depth: done.depth,
        window: window_touched(&done.touched),
        moved: done.moved,
        root: 0,
    }
}

/// What an update changed.
fn update_of(done: &Option<TreeChange>) -> Change
    ensures { IsUpdate done.now result }
{
    match done {
        Some(done) => change_of(done),
        None => Change {
            depth: 0,
            window: Window {
                start: 0,
                end: 0,
                tried: 0,
            },
            moved: 0,
            root: 1,
        },
    }
}

/// Tells what an edit of the tree changed.
pub(crate) fn tell_change(outcome: Result<TreeChange, Refusal>, told: &mut Change) -> u32
    ensures { Tells IsChange told.old told.new result outcome }
{
    tell(outcome.map(|done| change_of(&done)), told)
}

/// Tells what an update of the tree changed.
pub(crate) fn tell_update(outcome: Result<Option<TreeChange>, Refusal>, told: &mut Change) -> u32
    ensures { Tells IsUpdate told.old told.new result outcome }
{
    tell(outcome.map(|done| update_of(&done)), told)
}

/// What an edit of a text did.
fn edited_of(done: &TextChange) -> Edited
    ensures { IsEdit done.now result }
{
    Edited {
        start: done.reparsed.start,
        end: done.reparsed.end,
        change: change_of(&done.change),
    }
}

/// Tells what an edit of a text did.
pub(crate) fn tell_edit(outcome: Result<TextChange, Refusal>, told: &mut Edited) -> u32
    ensures { Tells IsEdit told.old told.new result outcome }
{
    tell(outcome.map(|done| edited_of(&done)), told)
}

/// Writes a path into a buffer if it has room for it, and tells in any case how long it is.
pub(crate) fn write_path(path: &[usize], out: &mut [usize], len: &mut usize) -> Result<(), Refusal>
    ensures { Writes path.now (record { items = out.old; len = len.old }) (record { items = out.new; len = len.new })
        result }
{
    *len = path.len();
    if out.len() < path.len() {
        return Err(Refusal::Buffer);
    }
    out[..path.len()].copy_from_slice(path);
    Ok(())
}

/// Tells where a node was found.
pub(crate) fn tell_place(
    outcome: Result<Found, Refusal>,
    out: &mut [usize],
    told: &mut Place,
) -> u32
    ensures { TellsPlace out.old out.new told.old told.new result outcome }
{
    match outcome {
        Ok(found) => {
            told.offset = found.offset;
            status(write_path(&found.path, out, &mut told.depth))
        }
        Err(refusal) => refusal.code(),
    }
}
