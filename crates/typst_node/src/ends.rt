//! The ends of adjacent texts.
ghost use Rattle.std.specs.Prelude.{ℕ, ◌∷◌, ◌≡◌, ◌+◌, ◌-◌, ◌*◌, ◌%◌, ◌/◌, ◌^◌, ◌<◌, ◌≤◌, ◌++◌, map, length, take, drop, slice_index, slice_set, replicate, IfOk, IsOk, OnOk, OnErr};
ghost use Rattle.typst_node.specs.Ends.{ends_seen, moved, starts_in, IsTight};

use crate::exchange::make_place;
use std::alloc::{AllocError, Global};
use std::marker::Model;

/// How many ends a block has.
const BLOCK: usize = 256;

/// Below this length each end is its own lower 32 bits.
pub(crate) const LIMIT: usize = 0x1_0000_0000;

/// The ends of adjacent texts. Only the lower 32 bits of each end are kept. In contracts it is the list of these
/// numbers.
///
/// The ends are kept in blocks, and the starts of the blocks are kept in the same way. So a change of a length rewrites
/// only the rest of one block, and the rest of one block in each layer above it.
#[derive(Drop)]
pub(crate) struct Ends {
    // Each end, counted from the start of its block.
    within: Vec<u32>,
    // The starts of the blocks after the first, if there are any. Sums wrap, so a start may represent a number below 0.
    starts: Option<Box<Ends>>,
}

impl Model for Ends {
    ghost use Rattle.std.specs.Prelude.{ℕ, List, ◌∷◌, ◌≡◌, ◌/◌, length};
    ghost use Rattle.std.proofs.Common.{arith};
    ghost use Rattle.typst_node.specs.Ends.{ends_seen, starts_in, IsTight};
    ghost use Rattle.typst_node.specs.EndsLength.{length-ends_seen};

    ghost Value = { List ℕ };

    ghost view = { λ a. ends_seen (0 ∷ starts_in a.starts) 0 a.within.items };

    ghost invariant = { λ a. IsTight a.starts × (length (starts_in a.starts) ≡ length a.within.items / 256) };

    ghost size = { length };

    ghost size_decreases = { λ a h. Prim.grind (arith, length-ends_seen) };
}

/// The lower 32 bits of a number.
pub(crate) fn low(number: usize) -> u32
    ensures { result ≡ number % 2 ^ 32 }
{
    (number % LIMIT) as u32
}

/// Where a block begins.
#[cycle(get)]
fn start_of(starts: &Option<Box<Ends>>, block: usize) -> u32
    requires { block ≤ length (starts_in starts.now) }
    ensures { result ≡ slice_index (0 ∷ starts_in starts.now) block }
{
    match starts {
        Some(starts) if 0 < block => starts.get(block - 1),
        Some(_) | None => 0,
    }
}

/// Adds a number to the entries from `from` up to `to`. Sums wrap.
pub(crate) fn raise(numbers: &mut [u32], from: usize, to: usize, by: u32)
    requires window { from ≤ to }
    requires inside { to ≤ length numbers.old }
    ensures raised { (k : ℕ) → from ≤ k → k < to → slice_index numbers.new k
        ≡ (slice_index numbers.old k + by) % 2 ^ 32 }
    ensures before { (k : ℕ) → k < from → slice_index numbers.new k ≡ slice_index numbers.old k }
    ensures behind { (k : ℕ) → to ≤ k → slice_index numbers.new k ≡ slice_index numbers.old k }
{
    for i in from..to {
        numbers[i] = numbers[i].wrapping_add(by);
    }
}

/// Adds a number to the starts of the blocks from `from` on. Sums wrap.
#[cycle(add)]
fn raise_starts(starts: &mut Option<Box<Ends>>, from: usize, by: u32)
    requires tight { IsTight starts.old }
    requires inside { from ≤ length (starts_in starts.old) }
    ensures tight { IsTight starts.new }
    ensures len { length (starts_in starts.new) ≡ length (starts_in starts.old) }
    ensures before { (k : ℕ) → k < from → slice_index (starts_in starts.new) k ≡ slice_index (starts_in starts.old) k }
    ensures behind { (k : ℕ) → from ≤ k → k < length (starts_in starts.old)
        → slice_index (starts_in starts.new) k ≡ (slice_index (starts_in starts.old) k + by) % 2 ^ 32 }
{
    if let Some(starts) = starts {
        starts.add(from, by);
    }
}

/// Corrects the ends from index `to` on, which were at the indices from `from` on before they moved. Each end is then
/// counted from the start of the block that it is in now. It writes only the ends that moved into another block.
fn recount(within: &mut [u32], starts: &Option<Box<Ends>>, to: usize, from: usize)
    requires inside { to ≤ length within.old }
    requires now { length within.old / 256 ≤ length (starts_in starts.now) }
    requires then { (length within.old - to + from) / 256 ≤ length (starts_in starts.now) }
    requires fits { length within.old - to + from < 2 ^ 64 }
    ensures before { (k : ℕ) → k < to → slice_index within.new k ≡ slice_index within.old k }
    ensures behind { (k : ℕ) → to ≤ k → k < length within.old
        → (slice_index (0 ∷ starts_in starts.now) (k / 256) + slice_index within.new k) % 2 ^ 32
        ≡ (slice_index (0 ∷ starts_in starts.now) ((k - to + from) / 256) + slice_index within.old k) % 2 ^ 32 }
{
    let count = within.len();
    let mut place = to;
    while place < count {
        let old = place - to + from;
        let stop = count.min(place + (BLOCK - place % BLOCK).min(BLOCK - old % BLOCK));
        if old / BLOCK != place / BLOCK {
            let began = start_of(starts, old / BLOCK);
            let by = began.wrapping_sub(start_of(starts, place / BLOCK));
            raise(within, place, stop, by);
        }
        place = stop;
    }
}

/// Adds blocks that begin at 0, until there are `many` after the first.
#[cycle(grow)]
fn grow(starts: &mut Option<Box<Ends>>, alloc: Global, many: usize) -> Result<(), AllocError>
    requires { IsTight starts.old }
    ensures tight { IsTight starts.new }
    ensures ok { OnOk result (starts_in starts.new ≡ starts_in starts.old
        ++ replicate (many - length (starts_in starts.old)) 0) }
    ensures err { OnErr result (starts_in starts.new ≡ starts_in starts.old) }
    ensures succeeds { many ≤ length (starts_in starts.old) → IsOk result }
{
    if let Some(starts) = starts {
        return starts.extend(many);
    }
    if many > 0 {
        let mut zeros = Ends {
            within: Vec::new(alloc),
            starts: None,
        };
        zeros.extend(many)?;
        *starts = Some(Box::new(alloc, zeros)?);
    }
    Ok(())
}

/// Keeps the starts of the first `many` blocks after the very first block.
#[cycle(keep)]
fn keep(starts: &mut Option<Box<Ends>>, many: usize)
    requires { many ≤ length (starts_in starts.old) }
    ensures tight { IsTight starts.new }
    ensures is { starts_in starts.new ≡ take many (starts_in starts.old) }
{
    if many == 0 {
        *starts = None;
    } else if let Some(starts) = starts {
        starts.truncate(many);
    }
}

impl Ends {
    /// The given ends, kept in blocks.
    pub(crate) fn new(ends: Vec<u32>) -> Result<Ends, AllocError>
        ensures { IfOk result (λ e. e ≡ ends.items) }
    {
        let mut starts = None;
        grow(&mut starts, *ends.allocator(), ends.len() / BLOCK)?;
        Ok(Ends {
            within: ends,
            starts,
        })
    }

    /// The end at an index. It takes one addition for each layer.
    #[cycle(get)]
    pub(crate) fn get(&self, index: usize) -> u32
        requires { index < length self.now }
        ensures { result ≡ slice_index self.now index }
    {
        start_of(&self.starts, index / BLOCK).wrapping_add(self.within[index])
    }

    /// Writes the end at an index.
    pub(crate) fn set(&mut self, index: usize, end: u32)
        requires { index < length self.old }
        ensures { self.new ≡ slice_set self.old index end }
    {
        let start = start_of(&self.starts, index / BLOCK);
        self.within[index] = end.wrapping_sub(start);
    }

    /// Writes the end at an index, `len` after the end before it. Sums wrap. Only at the beginning of a block it reads
    /// where blocks begin.
    pub(crate) fn follow(&mut self, index: usize, len: u32)
        requires { index < length self.old }
        ensures { self.new ≡ slice_set self.old index ((slice_index (0 ∷ self.old) index + len) % 2 ^ 32) }
    {
        if index % BLOCK != 0 {
            self.within[index] = self.within[index - 1].wrapping_add(len);
            return;
        }
        let before = if index == 0 { 0 } else { self.get(index - 1) };
        self.set(index, before.wrapping_add(len));
    }

    /// Adds a number to all ends from an index on. Sums wrap.
    #[cycle(add)]
    fn add(&mut self, from: usize, by: u32)
        requires { from ≤ length self.old }
        ensures len { length self.new ≡ length self.old }
        ensures before { (k : ℕ) → k < from → slice_index self.new k ≡ slice_index self.old k }
        ensures behind { (k : ℕ) → from ≤ k → k < length self.old
            → slice_index self.new k ≡ (slice_index self.old k + by) % 2 ^ 32 }
    {
        let block = from / BLOCK;
        let stop = self.within.len().min((block + 1) * BLOCK);
        raise(&mut self.within, from, stop, by);
        raise_starts(&mut self.starts, block, by);
    }

    /// Moves the ends from an index on by the difference of two lengths. Sums wrap.
    pub(crate) fn shift(&mut self, from: usize, gone: usize, added: usize)
        requires { from ≤ length self.old }
        ensures before { take from self.new ≡ take from self.old }
        ensures behind { drop from self.new ≡ map (moved gone added) (drop from self.old) }
    {
        if from < self.within.len() {
            self.add(from, low(added).wrapping_sub(low(gone)));
        }
    }

    /// Writes 0 at each index from `from` on.
    fn clear(&mut self, from: usize)
        requires { from ≤ length self.old }
        ensures { self.new ≡ take from self.old ++ replicate (length self.old - from) 0 }
    {
        for place in from..self.within.len() {
            self.set(place, 0);
        }
    }

    /// Keeps the first `many` ends.
    #[cycle(keep)]
    fn truncate(&mut self, many: usize)
        ensures { self.new ≡ take many self.old }
    {
        self.within.truncate(many);
        let blocks = self.within.len() / BLOCK;
        keep(&mut self.starts, blocks);
    }

    /// Adds zeros until there are `many` ends.
    #[cycle(grow)]
    fn extend(&mut self, many: usize) -> Result<(), AllocError>
        ensures ok { OnOk result (self.new ≡ self.old ++ replicate (many - length self.old) 0) }
        ensures err { OnErr result (self.new ≡ self.old) }
        ensures succeeds { many ≤ length self.old → IsOk result }
    {
        let count = self.within.len();
        if many <= count {
            return Ok(());
        }
        self.within.reserve(many - count)?;
        grow(&mut self.starts, *self.within.allocator(), many / BLOCK)?;
        let _ = self.within.resize(many, 0);
        self.clear(count);
        Ok(())
    }

    /// Makes room for `many` ends in place of those from `from` up to `to`. The ends before and after them stay. It
    /// takes memory only if there are more ends then. If memory is refused, the ends are unchanged.
    pub(crate) fn make_place(
        &mut self,
        from: usize,
        to: usize,
        many: usize,
    ) -> Result<(), AllocError>
        requires window { from ≤ to }
        requires inside { to ≤ length self.old }
        ensures len { OnOk result (length self.new + (to - from) ≡ length self.old + many) }
        ensures before { OnOk result (take from self.new ≡ take from self.old) }
        ensures behind { OnOk result (drop (from + many) self.new ≡ drop to self.old) }
        ensures err { OnErr result (self.new ≡ self.old) }
        ensures stay { many ≡ to - from → self.new ≡ self.old }
        ensures succeeds { many ≤ to - from → IsOk result }
    {
        if many == to - from {
            return Ok(());
        }
        self.within.reserve(many.saturating_sub(to - from))?;
        let count = self.within.len();
        let blocks = (count - (to - from) + many) / BLOCK;
        if to == count && blocks == count / BLOCK {
            // No end comes after these, and the number of blocks stays.
            let _ = self.within.resize(from + many, 0);
            return Ok(());
        }
        grow(&mut self.starts, *self.within.allocator(), blocks)?;
        make_place(&mut self.within, from, to, many);
        recount(&mut self.within, &self.starts, from + many, to);
        keep(&mut self.starts, blocks);
        Ok(())
    }

    /// A copy of these ends.
    #[inline(never)]
    pub(crate) fn copy(&self) -> Result<Ends, AllocError>
        ensures { IfOk result (λ e. e ≡ self.now) }
    {
        let within = self.within.clone()?;
        let starts = match &self.starts {
            Some(starts) => Some(Box::new(*within.allocator(), starts.copy()?)?),
            None => None,
        };
        Ok(Ends { within, starts })
    }
}
