//! Maps byte positions of a text that was put together from segments of another text to positions in that other text.
ghost use Rattle.std.specs.List.{flat_map};
ghost use Rattle.std.specs.Option.{option_copied};
ghost use Rattle.std.specs.Prelude.{ℕ, ◌≡◌, ◌+◌, ◌-◌, ◌^◌, ◌<◌, ◌≤◌, ◌↔◌, IfOk, IsErrOf, None, Some, length, slice_index};
ghost use Rattle.typst_base.specs.Mapping.{AreSound, IsFirstUnsound, end_within, mapped, mapping_of, positions_of, start_within};
ghost use Rattle.typst_base.specs.Segments.{HasByte, first_invalid, ranges, running};
ghost use Rattle.typst_base.specs.SubRange.{MakesSubRange, interval};

use crate::sub_range::SubRange;
use std::alloc::Global;
use std::marker::Model;
use std::ops::Range;
use thiserror::Error;

/// Why a mapper can't be made.
#[derive(Debug, PartialEq, Eq, Drop, Error)]
pub enum MapperError {
    /// A segment starts above its end, or below the end of the segment before it.
    #[error("invalid mapper segment: ({start}, {end})")]
    InvalidSegment {
        /// The segment's start.
        start: usize,
        /// The segment's end.
        end: usize,
    },
    /// There is no memory for the mapper.
    #[error("out of memory")]
    Memory,
}

/// A segment, and how many bytes it and all segments before it have.
#[derive(Clone, Copy, Debug)]
struct Segment {
    start: usize,
    end: usize,
    upto: usize,
}

/// A map from the bytes of a text to the bytes of the original that it was put together from.
///
/// It is made of segments of the original: ranges of bytes in rising order. The text is the bytes of the segments, one
/// after the other, so each byte of the text has an original position.
#[derive(Debug, Drop)]
pub struct RangeMapper {
    segments: Vec<Segment>,
}

impl Model for RangeMapper {
    ghost use Rattle.std.specs.Prelude.{◌≡◌};
    ghost use Rattle.typst_base.specs.Mapping.{Mapping, mapping_code, mapping_of};

    ghost Value = { Mapping };

    ghost coded = { mapping_code };

    ghost use Rattle.typst_base.specs.Segments.{ranges, running};

    ghost view = { λ a. mapping_of (ranges a.segments.items) };

    ghost invariant = { λ a. a.segments.items ≡ running 0 (ranges a.segments.items) };
}

impl RangeMapper {
    /// The mapper of these segments. It takes time and memory in proportion to their number.
    ///
    /// A segment is invalid if it starts above its end, or below the end of the segment before it. `InvalidSegment`
    /// tells the first such segment.
    #[tactic(auto, using(crate::proofs::MapperLemmas::first_invalid_next))]
    pub fn new(alloc: Global, segments: &[Range<usize>]) -> Result<RangeMapper, MapperError>
        ensures mapping { IfOk result (λ mapper. mapper ≡ mapping_of segments.now) }
        ensures invalid { (start end : ℕ)
            → IsErrOf result (MapperError.InvalidSegment start end)
            ↔ IsFirstUnsound segments.now (interval start end) }
        ensures valid { IfOk result (λ _. AreSound segments.now) }
    {
        if let Some(bad) = find_invalid(segments) {
            return Err(MapperError::InvalidSegment {
                start: bad.start,
                end: bad.end,
            });
        }
        let Ok(mut kept) = Vec::with_capacity(alloc, segments.len()) else {
            return Err(MapperError::Memory);
        };
        let mut upto = 0;
        for segment in segments {
            upto += segment.end - segment.start;
            let Ok(()) = kept.push(Segment {
                start: segment.start,
                end: segment.end,
                upto,
            }) else {
                return Err(MapperError::Memory);
            };
        }
        Ok(RangeMapper { segments: kept })
    }

    /// How many bytes the text has.
    pub fn total_len(&self) -> usize
        ensures { result ≡ length self.now.positions }
    {
        match self.segments.last() {
            Some(segment) => segment.upto,
            None => 0,
        }
    }

    /// The original range of these bytes of the text.
    ///
    /// The range goes from the position of the first byte to after that of the last byte, across the gaps between
    /// segments. An empty range maps to the place after the byte before it, also at the border of two segments. At the
    /// start of the text it maps to the start of the first segment. The test of the conditions is
    /// `range.start <= range.end && range.end <= mapper.total_len()`. It takes time in proportion to the logarithm of
    /// the number of segments.
    pub fn map(&self, range: Range<usize>) -> Range<usize>
        requires ordered { range.start ≤ range.end }
        requires inside { range.end ≤ length self.now.positions }
        ensures { result ≡ mapped self.now range }
    {
        if range.end == 0 {
            let first = self.first();
            return first..first;
        }
        let end = self.position(range.end - 1) + 1;
        if range.start < range.end {
            self.position(range.start)..end
        } else {
            end..end
        }
    }

    /// Maps a part of a node of the text, which begins at the offset, to the part of the node's original range. It is
    /// `None` if the start of that part is 2^32 - 1 or more.
    pub fn map_sub_range(&self, offset: usize, sub_range: SubRange) -> Option<SubRange>
        requires { offset + sub_range.end ≤ length self.now.positions }
        ensures { MakesSubRange result (start_within self.now offset sub_range.start)
            (end_within self.now offset sub_range.end) }
    {
        // The part lies within the text, so the sums below fit.
        let _text_len = self.total_len();
        let part = sub_range.to_relative();
        let origin = self.position(offset);
        let start = self.position(offset + part.start);
        let end = self.position(offset + part.end - 1) + 1;
        // Positions rise along the text, so nothing is cut off here.
        SubRange::new(start.saturating_sub(origin), end.saturating_sub(origin))
    }

    /// Where the first segment starts, or 0 if there are none.
    fn first(&self) -> usize
        ensures { result ≡ self.now.first }
    {
        match self.segments.first() {
            Some(segment) => segment.start,
            None => 0,
        }
    }

    /// The original position of this byte of the text.
    fn position(&self, index: usize) -> usize
        requires { index < length self.now.positions }
        ensures is { result ≡ slice_index self.now.positions index }
        ensures fits { result + 1 < 2 ^ 64 }
    {
        let segment = segment_at(&self.segments, index);
        segment.end - (segment.upto - index)
    }
}

/// The segment that has this byte of the text.
fn segment_at(segments: &[Segment], index: usize) -> &Segment
    requires running { segments.now ≡ running 0 (ranges segments.now) }
    requires inside { index < length (flat_map positions_of (ranges segments.now)) }
    ensures { HasByte result.now (ranges segments.now) index }
{
    let found = segments.partition_point(|segment| segment.upto <= index);
    &segments[found]
}

/// The first segment that starts above its end, or below the end of the segment before it.
fn find_invalid(segments: &[Range<usize>]) -> Option<&Range<usize>>
    ensures { option_copied result ≡ first_invalid 0 segments.now }
{
    let mut before = 0;
    for segment in segments {
        if segment.start > segment.end || segment.start < before {
            return Some(segment);
        }
        before = segment.end;
    }
    None
}
