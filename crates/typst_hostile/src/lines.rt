//! Calls on the lines of a text.
use crate::end::{End, Fault, Stop};
use crate::requests::Requests;
use std::alloc::Global;
use typst_lines::Lines;

/// Four lines.
const TEXT: &str = "a\r\nb\n\nc";

/// Where edits insert text.
const PLACE: usize = 3;

/// An edit that the lines follow.
#[derive(Clone, Copy)]
pub enum Following {
    /// Inserts a letter, and no line.
    Letter,
    /// Inserts two lines.
    Lines,
}

/// Whether lines begin at the same bytes.
fn are_same(one: &Lines, other: &Lines) -> bool {
    one.len_lines() == other.len_lines()
        && (0..one.len_lines()).all(|line| one.line_to_byte(line) == other.line_to_byte(line))
}

/// `Lines::new`
pub fn make_lines(alloc: Global, requests: Requests) -> Result<End, Stop> {
    requests.make(alloc)?;
    Ok(match Lines::new(alloc, TEXT) {
        Ok(lines) => {
            let starts = [Some(0), Some(3), Some(5), Some(6), None];
            let told = (0..5).map(|line| lines.line_to_byte(line));
            End::answered(told.eq(starts))
        }
        Err(error) => End::failed(Fault::from(error), true),
    })
}

impl Following {
    /// Makes the call. It must leave the lines of the edited text, or those that were there before.
    pub fn run(self, alloc: Global, requests: Requests) -> Result<End, Stop> {
        let (with, edited) = self.edit();
        let wanted = Lines::new(alloc, edited)?;
        let kept = Lines::new(alloc, TEXT)?;
        let mut lines = Lines::new(alloc, TEXT)?;
        if !(TEXT.is_char_boundary(PLACE) && TEXT.len() < 100 && with.len() < 100) {
            return Err(Stop::Early);
        }
        requests.make(alloc)?;
        Ok(match lines.edit(TEXT, PLACE..PLACE, with) {
            Ok(()) => End::answered(are_same(&lines, &wanted)),
            Err(error) => End::failed(Fault::from(error), are_same(&lines, &kept)),
        })
    }

    /// The text that is inserted, and the whole text after that.
    fn edit(self) -> (&'static str, &'static str) {
        match self {
            Following::Letter => ("x", "a\r\nxb\n\nc"),
            Following::Lines => ("x\ny\n", "a\r\nx\ny\nb\n\nc"),
        }
    }
}
