//! All memory of a process but a little.
use std::alloc::{AllocError, Global};

/// How many bytes a grant has: few enough that it comes from the heap, and not from the system.
const GRANT: usize = 32768;

/// How many blocks may be taken. Each has one page that is written, and up to two pages that tell where it is. So all
/// of them take 800 MB at most.
const MOST_BLOCKS: usize = 1 << 16;

/// The bits of the largest block that is asked for. No process has so many addresses.
const MOST_BITS: u32 = 47;

/// How many bytes the smallest requests differ by.
const STEP: usize = 16;

/// All memory of the process, taken, except for grants that are given back one by one.
///
/// Blocks are taken and never written. Where the system gives more addresses than it has memory for, addresses run out
/// and the machine's memory doesn't. The blocks come back with the drop.
#[derive(Drop)]
pub(crate) struct Scarce {
    alloc: Global,
    taken: Vec<Vec<u8>>,
    grants: Vec<Vec<u8>>,
}

impl Scarce {
    /// Takes all memory except this number of grants.
    pub(crate) fn new(alloc: Global, grants: usize) -> Result<Scarce, AllocError> {
        let mut kept = Vec::with_capacity(alloc, grants)?;
        let taken = Vec::with_capacity(alloc, MOST_BLOCKS)?;
        for _ in 0..grants {
            kept.push(Vec::with_capacity(alloc, GRANT)?)?;
        }
        let mut scarce = Scarce {
            alloc,
            taken,
            grants: kept,
        };
        for bits in 0..MOST_BITS {
            scarce.take_all_of(1 << (MOST_BITS - bits));
        }
        scarce.take_rest();
        Ok(scarce)
    }

    /// Takes what has come back, gives one grant back, and takes that again except for this number of bytes. No others
    /// are left then. Answers whether there was a grant.
    pub(crate) fn leave(&mut self, bytes: usize) -> bool {
        self.take_rest();
        let Some(grant) = self.grants.pop() else {
            return false;
        };
        drop(grant);
        self.take_one(GRANT.saturating_sub(bytes));
        true
    }

    /// Takes all blocks that are no longer than a grant, longest first.
    fn take_rest(&mut self) {
        let most = GRANT / STEP;
        for shorter in 0..most {
            self.take_all_of((most - shorter) * STEP - STEP / 2);
        }
    }

    /// Takes blocks of this size until one is refused.
    fn take_all_of(&mut self, size: usize) {
        for _ in self.taken.len()..MOST_BLOCKS {
            if !self.take_one(size) {
                return;
            }
        }
    }

    /// Takes one block of this size, if there is one and the list of blocks has room.
    fn take_one(&mut self, size: usize) -> bool {
        if self.taken.len() == self.taken.capacity() {
            return false;
        }
        match Vec::with_capacity(self.alloc, size) {
            Ok(block) => self.taken.push(block).is_ok(),
            Err(_) => false,
        }
    }
}
