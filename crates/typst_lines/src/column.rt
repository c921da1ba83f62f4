//! What columns count.
ghost use Rattle.std.specs.Prelude.{ℕ, ◌≡◌, ◌≢◌, ◌≤◌, ◌<◌, ◌^◌, length, take, slice_range, sum_by, MatchOption};
ghost use Rattle.std.specs.Option.{SomeIff};
ghost use Rattle.std.specs.Str.{IsCharBoundary};
ghost use Rattle.typst_lines.specs.Columns.{width, goes_on, offset_in};

/// What columns count.
#[derive(Clone, Copy, PartialEq, Eq, Debug, Drop)]
pub enum ColumnUnit {
    /// Bytes of UTF-8.
    Byte,
    /// Characters.
    Character,
    /// Units of UTF-16. A character has one or two of them. Editors count in these units.
    Utf16,
}

/// Whether a byte continues a character that began before it.
fn goes_on(byte: u8) -> bool
    ensures { result ≡ goes_on byte }
{
    byte >= 0x80 && byte < 0xC0
}

impl ColumnUnit {
    /// How much a byte adds to a column.
    fn width(self, byte: u8) -> usize
        ensures { result ≡ width self byte }
    {
        match self {
            ColumnUnit::Byte => 1,
            ColumnUnit::Character => { if goes_on(byte) { 0 } else { 1 } }
            ColumnUnit::Utf16 => {
                if goes_on(byte) {
                    0
                } else if byte >= 0xF0 {
                    2
                } else {
                    1
                }
            }
        }
    }

    /// How much some bytes add to a column.
    pub(crate) fn columns(self, bytes: &[u8]) -> usize
        ensures { result ≡ sum_by (width self) bytes.now }
    {
        let mut columns = 0;
        for byte in bytes {
            columns += self.width(*byte);
        }
        columns
    }

    /// Where a column is in a line's bytes: before a character, or at the end.
    fn place_at(self, bytes: &[u8], column: usize) -> Option<usize>
        ensures { MatchOption result
            ((at : ℕ) → IsCharBoundary bytes.now at → sum_by (width self) (take at bytes.now) ≢ column)
            (λ at. IsCharBoundary bytes.now at × (sum_by (width self) (take at bytes.now) ≡ column)) }
    {
        let mut left = column;
        for at in 0..bytes.len() {
            if left == 0 && !goes_on(bytes[at]) {
                return Some(at);
            }
            let width = self.width(bytes[at]);
            if left < width {
                return None;
            }
            left -= width;
        }
        if left == 0 { Some(bytes.len()) } else { None }
    }

    /// How much of a text is before a byte, in the unit. It is `None` if the byte is past the end of the text or within a
    /// character. It walks over the text up to the byte.
    pub fn byte_to_offset(self, text: &str, byte: usize) -> Option<usize>
        ensures { SomeIff result (IsCharBoundary text.now byte) (offset_in self text.now byte) }
    {
        if text.is_char_boundary(byte) {
            Some(self.columns(&text.as_bytes()[..byte]))
        } else {
            None
        }
    }

    /// The byte before which a text has so much, in the unit. It is `None` if the text is shorter, or if the offset is
    /// within a character. It walks over the text up to the byte.
    pub fn offset_to_byte(self, text: &str, offset: usize) -> Option<usize>
        ensures { MatchOption result
            ((at : ℕ) → IsCharBoundary text.now at → offset_in self text.now at ≢ offset)
            (λ at. IsCharBoundary text.now at × (offset_in self text.now at ≡ offset)) }
    {
        self.place_at(text.as_bytes(), offset)
    }

    /// The same in the bytes from one place up to another.
    pub(crate) fn place_between(
        self,
        bytes: &[u8],
        from: usize,
        to: usize,
        column: usize,
    ) -> Option<usize>
        requires order { from ≤ to }
        requires inside { to ≤ length bytes.now }
        ensures { MatchOption result
            ((at : ℕ) → IsCharBoundary (slice_range bytes.now from to) at
            → sum_by (width self) (take at (slice_range bytes.now from to)) ≢ column)
            (λ at. IsCharBoundary (slice_range bytes.now from to) at
            × (sum_by (width self) (take at (slice_range bytes.now from to)) ≡ column)) }
    {
        self.place_at(&bytes[from..to], column)
    }
}
