//! How far each block of a text extends.
ghost use Rattle.std.specs.Prelude.{ℕ, ◌≡◌, ◌+◌, ◌-◌, ◌^◌, ◌<◌, ◌≤◌, ◌++◌, length, take, drop, vec_len, vec_capacity, OnOk};
ghost use Rattle.std.specs.List.{splice, AllByRecursion};
ghost use Rattle.typst_source.specs.Extents.{bytes_in, nodes_in, AreUntouched, IsBeginning};

use std::alloc::AllocError;
use std::marker::Model;

/// How far a block extends.
#[derive(Clone, Copy, Debug)]
pub(crate) struct Extent {
    /// How many bytes it has.
    pub(crate) bytes: usize,
    /// How many nodes it has side by side.
    pub(crate) nodes: usize,
    /// How many bytes from its beginning the parser looked at.
    pub(crate) reach: usize,
}

/// The sums of some blocks.
#[derive(Clone, Copy, Debug)]
pub(crate) struct Sums {
    /// How many they are.
    pub(crate) blocks: usize,
    /// How many bytes they have.
    pub(crate) bytes: usize,
    /// How many nodes they have side by side.
    pub(crate) nodes: usize,
}

/// The first blocks of a text.
#[derive(Clone, Copy, Debug)]
pub(crate) struct Beginning {
    /// Their sums.
    pub(crate) sums: Sums,
    /// How many bytes from the beginning of the text the parser looked at for them.
    pub(crate) reach: usize,
}

/// The extents of a text's blocks. In contracts it is an `ExtentList`.
///
/// It keeps the sums of the blocks before the last edit, so that the next edit after that place doesn't walk over them.
#[derive(Drop)]
pub(crate) struct Extents {
    list: Vec<Extent>,
    near: Beginning,
}

impl Model for Extents {
    ghost use Rattle.std.specs.Prelude.{vec_capacity};
    ghost use Rattle.typst_source.specs.Extents.{ExtentList, IsBeginning};

    ghost Value = { ExtentList };

    ghost view = { λ a. record { items = a.list.items; room = vec_capacity a.list } };

    ghost invariant = { λ a. IsBeginning a.list.items a.near };
}

impl Clone for Extents {
    ghost is_clone = { λ extents copy. copy.items ≡ extents.items };

    fn clone(&self) -> Result<Extents, AllocError> {
        Ok(Extents {
            list: self.list.clone()?,
            near: self.near,
        })
    }
}

impl Extent {
    /// The extent of no bytes.
    const EMPTY: Extent = Extent {
        bytes: 0,
        nodes: 0,
        reach: 0,
    };
}

impl Sums {
    /// The sums of no blocks.
    pub(crate) const NONE: Sums = Sums {
        blocks: 0,
        bytes: 0,
        nodes: 0,
    };
}

impl Beginning {
    /// No blocks.
    const NONE: Beginning = Beginning {
        sums: Sums::NONE,
        reach: 0,
    };
}

/// The longest beginning of the blocks for which the parser looked only at bytes before `start`.
///
/// It walks on from `near`. If the parser looked further than `start` for the blocks of `near`, it walks from the first
/// block.
fn untouched(extents: &[Extent], near: Beginning, start: usize) -> Beginning
    requires bytes { bytes_in extents.now < 2 ^ 64 }
    requires nodes { nodes_in extents.now < 2 ^ 64 }
    requires looked { AllByRecursion (λ e. e.bytes ≤ e.reach) extents.now }
    requires near { IsBeginning extents.now near }
    ensures untouched { AreUntouched extents.now start result.sums }
    ensures beginning { IsBeginning extents.now result }
{
    let mut now = if near.reach <= start {
        near
    } else {
        Beginning::NONE
    };
    while now.sums.blocks < extents.len()
        && extents[now.sums.blocks].reach <= start - now.sums.bytes
    {
        let extent = extents[now.sums.blocks];
        now.reach = now.reach.max(now.sums.bytes + extent.reach);
        now.sums.blocks += 1;
        now.sums.bytes += extent.bytes;
        now.sums.nodes += extent.nodes;
    }
    now
}

/// Makes room for `more` extents at `at`, before those that are there. The capacity of the list suffices.
fn widen(extents: &mut Vec<Extent>, at: usize, more: usize)
    requires inside { at ≤ vec_len extents.old }
    requires room { vec_len extents.old + more ≤ vec_capacity extents.old }
    ensures before { take at extents.new.items ≡ take at extents.old.items }
    ensures behind { drop (at + more) extents.new.items ≡ drop at extents.old.items }
    ensures len { vec_len extents.new ≡ vec_len extents.old + more }
{
    let old = extents.len();
    let _ = extents.resize(old + more, Extent::EMPTY);
    extents.copy_within(at..old, at + more);
}

/// Removes the extents from `from` up to `to`.
fn narrow(extents: &mut Vec<Extent>, from: usize, to: usize)
    requires ordered { from ≤ to }
    requires inside { to ≤ vec_len extents.old }
    ensures { extents.new.items ≡ take from extents.old.items ++ drop to extents.old.items }
{
    let old = extents.len();
    extents.copy_within(to..old, from);
    extents.truncate(old - (to - from));
}

/// Overwrites the extents from `from` on with others.
fn overwrite(extents: &mut [Extent], from: usize, others: &[Extent])
    requires inside { from + length others.now ≤ length extents.old }
    ensures { extents.new ≡ splice extents.old from (from + length others.now) others.now }
{
    extents[from..from + others.len()].copy_from_slice(others);
}

/// Replaces the extents from `from` up to `to` by others. The capacity of the list suffices.
///
/// If there are as many, it writes only these. Otherwise it also moves the extents after them.
fn exchange(extents: &mut Vec<Extent>, from: usize, to: usize, others: &[Extent])
    requires ordered { from ≤ to }
    requires inside { to ≤ vec_len extents.old }
    requires room { vec_len extents.old + length others.now ≤ vec_capacity extents.old }
    ensures { extents.new.items ≡ splice extents.old.items from to others.now }
{
    let end = from + others.len();
    if end > to {
        widen(extents, to, end - to);
    } else if end < to {
        narrow(extents, end, to);
    }
    overwrite(extents, from, others);
}

impl Extents {
    /// These extents.
    pub(crate) fn new(list: Vec<Extent>) -> Extents
        ensures { result.items ≡ list.items }
    {
        Extents {
            list,
            near: Beginning::NONE,
        }
    }

    /// The longest beginning of the blocks for which the parser looked only at bytes before `start`.
    ///
    /// It walks on from the place of the last edit. If the parser looked further than `start` before that place, it
    /// walks from the beginning.
    pub(crate) fn untouched(&self, start: usize) -> Beginning
        requires bytes { bytes_in self.now.items < 2 ^ 64 }
        requires nodes { nodes_in self.now.items < 2 ^ 64 }
        requires looked { AllByRecursion (λ e. e.bytes ≤ e.reach) self.now.items }
        ensures untouched { AreUntouched self.now.items start result.sums }
        ensures beginning { IsBeginning self.now.items result }
        ensures countable { length self.now.items < 2 ^ 64 }
    {
        untouched(&self.list, self.near, start)
    }

    /// The extents after the first `blocks` blocks.
    pub(crate) fn behind(&self, blocks: usize) -> &[Extent]
        requires { blocks ≤ length self.now.items }
        ensures { result.now ≡ drop blocks self.now.items }
    {
        &self.list[blocks..]
    }

    /// Takes memory for `more` extents.
    pub(crate) fn reserve(&mut self, more: usize) -> Result<(), AllocError>
        ensures items { self.new.items ≡ self.old.items }
        ensures room { OnOk result (length self.old.items + more ≤ self.new.room) }
    {
        self.list.reserve(more)
    }

    /// Replaces the extents after a beginning, up to those from `to` on. There is memory for as many more.
    pub(crate) fn replace(&mut self, kept: Beginning, to: usize, others: &[Extent])
        requires beginning { IsBeginning self.old.items kept }
        requires ordered { kept.sums.blocks ≤ to }
        requires inside { to ≤ length self.old.items }
        requires room { length self.old.items + length others.now ≤ self.old.room }
        ensures { self.new.items ≡ splice self.old.items kept.sums.blocks to others.now }
    {
        exchange(&mut self.list, kept.sums.blocks, to, others);
        self.near = kept;
    }
}
