//! Maps that give the last tree other kinds.
ghost use Rattle.std.specs.Prelude.{ℕ, List, ◌≡◌, ◌++◌, ◌-◌, ◌≤◌, true, length, reverse, take, drop, OnOk};
ghost use Rattle.typst_parser.specs.Events.{bytes};
ghost use Rattle.typst_parser.specs.Retag.{child_maps, count_below, effect_in, effect_of, expected_back, first_below, gone, holds, is_parent, mistake_back, others_below, put_back, retagged, with_kind};
ghost use Rattle.typst_parser.specs.Spans.{children_of};
ghost use Rattle.typst_parser.specs.Walks.{done_more, walk_of, walked, walked_by};

use crate::event::Event;
use crate::fault::Fault;
use crate::span::{capped_bytes, span, width};
use std::alloc::{AllocError, Global};
use std::mem;
use typst_atoms::expr_kinds::is_expr;
use typst_base::SyntaxKind;
use typst_grammar::maps::changes;
use typst_grammar::{Change, Effect, Expectation, Map, Test};

/// For how many maps a walk has room from the start: most trees that it changes need no more.
const ROOM: usize = 16;

/// Whether a test holds of the tree of an event.
fn holds(test: Test, event: Event) -> bool
    ensures { result ≡ holds test event }
{
    match test {
        Test::Always => true,
        Test::Expr => is_expr(event.kind()),
        Test::Alone => event.children() == 1,
    }
}

/// The effect of the first change whose test holds.
fn effect_in(changes: &'static [Change], event: Event) -> Option<Effect>
    ensures { result ≡ effect_in changes.now event }
{
    for change in changes {
        if holds(change.test, event) {
            return Some(change.effect);
        }
    }
    None
}

/// What a map does with the tree of an event.
fn effect_of(map: Option<Map>, event: Event) -> Option<Effect>
    ensures { result ≡ effect_of map event }
{
    match map {
        Some(map) => effect_in(changes(map, event.kind()), event),
        None => None,
    }
}

/// The event with another kind.
fn with_kind(kind: Option<SyntaxKind>, event: Event) -> Event
    ensures { result ≡ with_kind kind event }
{
    match (kind, event) {
        (Some(kind), Event::Leaf { len, .. }) => Event::Leaf { kind, len },
        (Some(kind), Event::Node { children, .. }) => Event::Node { kind, children },
        _ => event,
    }
}

/// Whether an event is a node whose children are among the events before it.
fn is_parent(event: Event, events: &[Event]) -> bool
    ensures parent { result ≡ is_parent event (reverse events.now) }
    ensures room { result ≡ true → children_of event ≤ length events.now }
{
    event.children() > 0 && event.children() <= events.len()
}

/// The map for the first child of a tree with an effect.
fn first_below(effect: Option<Effect>) -> Option<Map>
    ensures { result ≡ first_below effect }
{
    match effect {
        Some(Effect::Become(relabel)) => relabel.first,
        _ => None,
    }
}

/// The map for the other children of a tree with an effect.
fn others_below(effect: Option<Effect>) -> Option<Map>
    ensures { result ≡ others_below effect }
{
    match effect {
        Some(Effect::Become(relabel)) => relabel.others,
        _ => None,
    }
}

/// How many trees behind other events have maps of their own, as children of a tree with an effect.
fn count_below(effect: Option<Effect>, event: Event, events: &[Event]) -> usize
    ensures { result ≡ count_below effect event (reverse events.now) }
{
    match effect {
        Some(Effect::Wrong(_)) => 0,
        _ => event.children().min(events.len()),
    }
}

/// How many events go, since their tree becomes an error.
fn gone(effect: Option<Effect>, event: Event, events: &[Event]) -> usize
    ensures gone { result ≡ gone effect event (reverse events.now) }
    ensures within { result ≤ length events.now }
{
    match effect {
        Some(Effect::Wrong(_)) => span(events, event.children()),
        _ => 0,
    }
}

/// Puts the maps for the children of an event on top of others, that of the last child on top.
fn push_maps(
    maps: &mut Vec<Option<Map>>,
    first: Option<Map>,
    others: Option<Map>,
    children: usize,
) -> Result<(), AllocError>
    ensures { OnOk result (reverse maps.new.items ≡ child_maps first others children ++ reverse maps.old.items) }
{
    if children > 0 {
        maps.push(first)?;
        for _ in 1..children {
            maps.push(others)?;
        }
    }
    Ok(())
}

/// A walk over the events of the last tree, from the last one back.
#[derive(Drop)]
pub struct Walk {
    // The events that aren't passed yet.
    events: Vec<Event>,
    // The maps for the last trees of these events, that of the last tree at the end.
    maps: Vec<Option<Map>>,
    // What came of the events that were passed, the last one first.
    done: Vec<Event>,
    // How many bytes of the text come before what was passed.
    end: usize,
}

impl Walk {
    /// Makes the tree of an event an error.
    fn put_mistake(&mut self, what: Expectation, event: Event) -> Result<(), AllocError>
        ensures { OnOk result (walk_of self.new ≡ done_more (mistake_back what self.old.end event (reverse self.old.events.items)) (walk_of self.old)) }
    {
        let children = width(&self.events, event.children());
        self.done.push(Event::Error {
            fault: Fault::Mistake(what, event.kind()),
            len: event.len().saturating_add(children).min(self.end),
        })?;
        Ok(())
    }

    /// Adds an empty error as the last child of the tree of an event, if that is a node with children.
    fn put_expected(&mut self, what: Expectation, event: Event) -> Result<(), AllocError>
        ensures { OnOk result (walk_of self.new ≡ done_more (expected_back what event (reverse self.old.events.items)) (walk_of self.old)) }
    {
        if !is_parent(event, &self.events) {
            self.done.push(event)?;
            return Ok(());
        }
        self.done.push(Event::Node {
            kind: event.kind(),
            children: event.children() + 1,
        })?;
        self.done.push(Event::Error {
            fault: Fault::Expected(what),
            len: 0,
        })?;
        Ok(())
    }

    /// Adds what comes of an event.
    fn put(&mut self, effect: Option<Effect>, event: Event) -> Result<(), AllocError>
        ensures { OnOk result (walk_of self.new ≡ done_more (put_back effect self.old.end event (reverse self.old.events.items)) (walk_of self.old)) }
    {
        match effect {
            None => self.done.push(event)?,
            Some(Effect::Become(relabel)) => self.done.push(with_kind(relabel.kind, event))?,
            Some(Effect::Wrong(what)) => self.put_mistake(what, event)?,
            Some(Effect::Expected(what)) => self.put_expected(what, event)?,
        }
        Ok(())
    }

    /// Passes over the last so many events.
    fn skip(&mut self, events: usize)
        requires { events ≤ length self.old.events.items }
        ensures events { reverse self.new.events.items ≡ drop events (reverse self.old.events.items) }
        ensures end { self.new.end ≡ self.old.end - bytes (take events (reverse self.old.events.items)) }
        ensures done { self.new.done.items ≡ self.old.done.items }
        ensures maps { self.new.maps.items ≡ self.old.maps.items }
    {
        let at = self.events.len() - events;
        let bytes = capped_bytes(&self.events[at..]);
        self.end = self.end.saturating_sub(bytes);
        self.events.truncate(at);
    }

    /// Passes over an event, which had the last map.
    fn step(&mut self, map: Option<Map>, event: Event) -> Result<(), AllocError>
        ensures step { OnOk result (walked (walk_of self.new) ≡ walked_by map event (walk_of self.old)) }
        ensures fewer { OnOk result (length self.new.events.items ≤ length self.old.events.items) }
    {
        let effect = effect_of(map, event);
        let children = count_below(effect, event, &self.events);
        let gone = gone(effect, event, &self.events);
        self.put(effect, event)?;
        push_maps(
            &mut self.maps,
            first_below(effect),
            others_below(effect),
            children,
        )?;
        self.end = self.end.saturating_sub(event.len());
        self.skip(gone);
        Ok(())
    }

    /// Passes over all events of the last trees.
    fn run(&mut self) -> Result<(), AllocError>
        ensures { OnOk result (self.new.done.items ++ reverse self.new.events.items ≡ walked (walk_of self.old)) }
    {
        while let Some(map) = self.maps.pop() {
            match self.events.pop() {
                Some(event) => self.step(map, event)?,
                None => return Ok(()),
            }
        }
        Ok(())
    }
}

/// Whether a map changes nothing of the last tree.
fn is_idle(map: Map, events: &[Event]) -> bool
    ensures { result ≡ true → (end : ℕ) → retagged map end events.now ≡ events.now }
{
    match events.last() {
        Some(event) => changes(map, event.kind()).is_empty(),
        None => false,
    }
}

/// Changes the last tree by a map. So many bytes come up to its end. After an error the events are gone.
///
/// It takes time in proportion to the events of the tree, if the map changes its kind.
pub(crate) fn retag(
    alloc: Global,
    events: &mut Vec<Event>,
    end: usize,
    map: Map,
) -> Result<(), AllocError>
    ensures { OnOk result (events.new.items ≡ retagged map end events.old.items) }
{
    if is_idle(map, events) {
        return Ok(());
    }
    let len = span(events, 1);
    let mut walk = Walk {
        events: mem::replace(events, Vec::new(alloc)),
        maps: Vec::with_capacity(alloc, ROOM)?,
        done: Vec::with_capacity(alloc, len)?,
        end,
    };
    walk.maps.push(Some(map))?;
    walk.run()?;
    walk.done.reverse();
    walk.events.append(&mut walk.done)?;
    *events = walk.events;
    Ok(())
}
