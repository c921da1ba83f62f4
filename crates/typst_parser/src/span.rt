//! Which events make the last trees.
ghost use Rattle.std.specs.Prelude.{◌≡◌, ◌≤◌, min, length, reverse};
ghost use Rattle.typst_parser.specs.Events.{bytes};
ghost use Rattle.typst_parser.specs.Spans.{children_of, is_byte, span, width};

use crate::event::Event;

impl Event {
    /// How many children its tree has.
    pub(crate) fn children(self) -> usize
        ensures { result ≡ children_of self }
    {
        match self {
            Event::Node { children, .. } => children,
            Event::Leaf { .. } | Event::Error { .. } => 0,
        }
    }
}

/// How many of some events make the last so many trees.
pub(crate) fn span(events: &[Event], trees: usize) -> usize
    ensures span { result ≡ span trees (reverse events.now) }
    ensures within { result ≤ length events.now }
{
    let mut left = events.len();
    let mut need = trees;
    while need > 0 && left > 0 {
        left -= 1;
        need = (need - 1).saturating_add(events[left].children()).min(left);
    }
    events.len() - left
}

/// How many bytes some events have, or the largest number.
pub(crate) fn capped_bytes(events: &[Event]) -> usize
    ensures { result ≡ min (bytes events.now) 0xFFFF_FFFF_FFFF_FFFF }
{
    let mut sum: usize = 0;
    for event in events {
        sum = sum.saturating_add(event.len());
    }
    sum
}

/// How many bytes the last so many trees have, or the largest number.
pub(crate) fn width(events: &[Event], trees: usize) -> usize
    ensures { result ≡ min (width trees (reverse events.now)) 0xFFFF_FFFF_FFFF_FFFF }
{
    capped_bytes(&events[events.len() - span(events, trees)..])
}

/// Whether a text is this one byte.
pub(crate) fn is_byte(byte: u8, text: &[u8]) -> bool
    ensures { result ≡ is_byte byte text.now }
{
    text.len() == 1 && text[0] == byte
}
