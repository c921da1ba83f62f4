//! What a line of standard input asks for.
use crate::stopwatch::Stopwatch;
use crate::{building, door, editing, finding, lines, places, reading, texts, views, walking};
use anyhow::Result;
use std::alloc::Global;

/// An operation and how much of it.
#[derive(Clone, Copy)]
pub struct Asked<'a> {
    /// The verb, which says what is done.
    pub verb: &'a str,
    /// The shape of what the operation works on. It is empty if the verb implies it.
    pub shape: &'a str,
    /// The size of what it works on, such as its number of leaves, paragraphs, levels or lines.
    pub size: usize,
    /// How often the operation is done.
    pub rounds: usize,
}

impl<'a> Asked<'a> {
    /// Reads one word or two, and two numbers.
    pub fn parse(line: &'a str) -> Option<Asked<'a>> {
        let (rest, rounds) = line.rsplit_once(' ')?;
        let (operation, size) = rest.rsplit_once(' ')?;
        let (verb, shape) = operation.split_once(' ').unwrap_or((operation, ""));
        Some(Asked {
            verb,
            shape,
            size: size.parse().ok()?,
            rounds: rounds.parse().ok()?,
        })
    }

    /// Carries out the operation and returns the check sum. None if there is no such operation.
    pub fn make(self, alloc: Global, watch: &mut Stopwatch<'_>) -> Result<Option<usize>> {
        match self.verb {
            "build" | "drop" | "clone" => building::made(alloc, watch, self),
            "number" | "synthesize" | "full_text" | "errors_and_warnings" | "spanless_eq" => {
                reading::made(alloc, watch, self)
            }
            "next_leaf" | "prev_leaf" | "children" | "preorder" => {
                walking::made(alloc, watch, self)
            }
            "find" | "leaf_at" => finding::made(alloc, watch, self),
            "replace" | "resize" | "insert_front" | "insert_end" | "replace_equal" => {
                editing::made(alloc, watch, self)
            }
            "reconcile" => editing::made(alloc, watch, self),
            "parse" | "letter" | "paragraph" | "delimiter" => texts::made(alloc, watch, self),
            "lines" => lines::made(alloc, watch, self),
            "byte_to_line" | "line_column_to_byte" | "place_of" => places::made(alloc, watch, self),
            "door" => door::made(alloc, watch, self),
            _ => views::made(alloc, watch, self),
        }
    }
}
