//! Parts of a node's bytes.
ghost use Rattle.std.specs.Prelude.{◌≡◌, ◌+◌, ◌^◌, ◌<◌, ◌↔◌, IsTrue};
ghost use Rattle.typst_base.specs.SubRange.{MakesSubRange, moved};

use std::marker::Model;
use std::ops::Range;

/// A part of a node's bytes, counted from the node's first byte. It is never empty.
///
/// Both ends are at most 2^32 - 1.
#[derive(Clone, Copy, Debug, PartialEq, Eq, Hash)]
pub struct SubRange {
    start: u32,
    end: u32,
}

impl Model for SubRange {
    ghost use Rattle.std.specs.Prelude.{ℕ, ◌<◌};
    ghost use Rattle.std.specs.declared.ops.Range.{Range as Interval};

    ghost Value = { Interval ℕ };

    ghost view = { λ a. record { start = a.start; end = a.end } };

    ghost invariant = { λ a. a.start < a.end };

    ghost inverse = { λ d. record { start = d.start; end = d.end } };
}

impl SubRange {
    /// The largest end, 2^32 - 1.
    const END_MAX: usize = u32::MAX as usize;

    /// The part from `start` up to `end`, which isn't included. The end is cut to 2^32 - 1.
    ///
    /// It is `None` if nothing is left: unless `start < end` and `start` is below 2^32 - 1.
    pub fn new(start: usize, end: usize) -> Option<SubRange>
        ensures { MakesSubRange result start end }
    {
        let end = end.min(Self::END_MAX);
        if start >= end {
            return None;
        }
        Some(SubRange {
            start: start as u32,
            end: end as u32,
        })
    }

    /// The part, counted from the node's first byte.
    pub fn to_relative(self) -> Range<usize>
        ensures is { result ≡ self }
        ensures not_empty { self.start < self.end }
        ensures small { self.end < 2 ^ 32 }
    {
        self.start as usize..self.end as usize
    }

    /// Whether the part of a node that begins at this offset ends within a `usize`.
    pub fn fits_at(self, offset: usize) -> bool
        ensures { IsTrue result ↔ (self.end + offset < 2 ^ 64) }
    {
        self.end as usize <= usize::MAX - offset
    }

    /// The part as a range in the text, for a node that begins at this offset. The test of the condition is
    /// [`SubRange::fits_at`].
    pub fn to_absolute(self, offset: usize) -> Range<usize>
        requires { self.end + offset < 2 ^ 64 }
        ensures { result ≡ moved self offset }
    {
        self.start as usize + offset..self.end as usize + offset
    }
}
