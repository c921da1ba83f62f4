//! Calls on large trees, long chains of nodes, long texts and long lists. The gate compares how each call ends with
//! memory at hand. bench/growth.py counts the instructions of calls at two sizes, and bench/depth.py looks for the
//! longest chains that a stack holds.
use crate::asked::Asked;
use anyhow::Result;
use std::alloc::Global;

mod deep;
mod edits;
mod lists;
mod texts;
mod wide;

/// Makes a call, and returns whether it gave the right answer. None if there is no such call. The shape says what the
/// call is made on. Only a call on a node of many children is made as often as asked; others are made once.
///
/// - no shape: a node of `size` leaves `ab`;
/// - `deep`: a chain of `size` nodes;
/// - `long`: a text of `size` letters;
/// - `many`: `size` errors, names, hints or segments, which the call lists.
pub fn made(alloc: Global, asked: Asked<'_>) -> Result<Option<bool>> {
    match asked.shape {
        "" => wide::made(alloc, asked),
        "deep" => deep::made(alloc, asked.verb, asked.size),
        "long" => texts::made(alloc, asked.verb, asked.size),
        "many" => lists::made(alloc, asked.verb, asked.size),
        _ => Ok(None),
    }
}
