//! Places that are spread over a range, the same in each run.

/// A number below the size, or 0 if the size is 0. It comes from Fibonacci hashing of the round.
pub fn place(round: usize, size: usize) -> usize {
    let hashed = round.wrapping_mul(0x9E37_79B9_7F4A_7C15) >> 32;
    hashed.checked_rem(size).unwrap_or(0)
}
