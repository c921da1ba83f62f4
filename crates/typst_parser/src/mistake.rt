//! Trees that become errors.
ghost use Rattle.std.specs.Prelude.{◌≡◌, reverse, OnOk};
ghost use Rattle.typst_parser.specs.Mistakes.{can_be_mistaken, mistaken};

use crate::event::Event;
use crate::fault::Fault;
use crate::span::{span, width};
use std::alloc::AllocError;
use typst_grammar::Expectation;

/// Whether there is a last event, and it isn't an error.
fn can_be_mistaken(events: &[Event]) -> bool
    ensures { result ≡ can_be_mistaken (reverse events.now) }
{
    matches!(events.last(), Some(Event::Leaf { .. } | Event::Node { .. }))
}

/// Makes the last tree an error, unless it is one: something else was expected. So many bytes come up to its end.
pub(crate) fn mistake(
    events: &mut Vec<Event>,
    end: usize,
    what: Expectation,
) -> Result<(), AllocError>
    ensures { OnOk result (events.new.items ≡ mistaken what end events.old.items) }
{
    if !can_be_mistaken(events) {
        return Ok(());
    }
    if let Some(event) = events.pop() {
        let bytes = event.len().saturating_add(width(events, event.children()));
        let at = events.len() - span(events, event.children());
        events.truncate(at);
        events.push(Event::Error {
            fault: Fault::Mistake(what, event.kind()),
            len: bytes.min(end),
        })?;
    }
    Ok(())
}
