//! Names that come again in the last tree, and second sinks.
ghost use Rattle.std.specs.Option.{option_map};
ghost use Rattle.std.specs.Prelude.{◌≡◌, ◌++◌, ◌≤◌, ◌<◌, [], ◌∷◌, drop, length, map, min, reverse, slice_index_or, true, IfOk, OnOk, OnSome};
ghost use Rattle.typst_parser.specs.Faults.{name_in};
ghost use Rattle.typst_parser.specs.FoundViews.{IsNext, found_of, left_of};
ghost use Rattle.typst_parser.specs.Seen.{fault_if_seen, fault_seen, is_seen, seen_after, seen_with};
ghost use Rattle.typst_parser.specs.declared.event.Event.{Event as AnyEvent};
ghost use Rattle.typst_parser.specs.declared.unique.Found.{Found as AnyFound};
ghost use Rattle.typst_parser.specs.Unique.{bound_found, child_roles, fault_gone, fault_put, faulted_back, faults_of, found_back, found_in, made_unique, name_found};
ghost use Rattle.typst_parser.specs.Events.{kind_of};
ghost use Rattle.typst_parser.specs.Roles.{first_role, others_role, root_role};
ghost use Rattle.typst_parser.specs.Spans.{children_of};

use crate::event::Event;
use crate::fault::Fault;
use crate::role::{Role, first_role, others_role, root_role};
use crate::span::{span, width};
use std::alloc::{AllocError, Global};
use std::collections::BTreeSet;
use typst_base::SyntaxKind;
use typst_grammar::Unique;

/// For how many roles a search has room from the start: most lists have no more items.
const ROOM: usize = 16;

/// A name or a sink that was found.
#[derive(Clone, Copy)]
pub struct Found<'a> {
    // The number of the list in which it may not come again.
    list: usize,
    // Its name, if it isn't a sink.
    name: Option<&'a [u8]>,
    // Why it is an error if it comes again.
    fault: Fault,
}

/// A name in a list.
fn name_found<'a>(what: Unique, list: usize, name: &'a [u8]) -> Option<Found<'a>>
    ensures { option_map found_of result ≡ name_found what list name.now }
{
    Some(Found {
        list,
        name: Some(name),
        fault: Fault::Duplicate(what),
    })
}

/// A name that a pattern binds, unless only sinks are looked for.
fn bound_found<'a>(what: Unique, name: &'a [u8]) -> Option<Found<'a>>
    ensures { option_map found_of result ≡ bound_found what name.now }
{
    match what {
        Unique::Sink => None,
        _ => name_found(what, 0, name),
    }
}

/// A name, or the value of a string.
fn value_of(text: &[u8]) -> &[u8]
    ensures { result.now ≡ name_in text.now }
{
    if !matches!(text, [b'"', ..]) {
        return text;
    }
    let value = &text[1..];
    let len = value.len();
    if len > 0 && value[len - 1] == b'"' {
        &value[..len - 1]
    } else {
        value
    }
}

/// What is found in a tree of this role and kind, with this text if it is a leaf.
#[inline(always)]
fn found_in<'a>(what: Unique, role: Role, kind: SyntaxKind, text: &'a [u8]) -> Option<Found<'a>>
    ensures { option_map found_of result ≡ found_in what role kind text.now }
{
    match (role, kind) {
        (Role::Name, SyntaxKind::Ident) => name_found(what, 0, text),
        (Role::Key(list), SyntaxKind::Ident) => name_found(what, list, text),
        (Role::Key(list), SyntaxKind::Str) => name_found(what, list, value_of(text)),
        (Role::Pattern | Role::Element(_) | Role::Parameter(_), SyntaxKind::Ident) => {
            bound_found(what, text)
        }
        (Role::Element(list), SyntaxKind::Spread) => Some(Found {
            list,
            name: None,
            fault: Fault::SecondSinkOfPattern,
        }),
        (Role::Parameter(list), SyntaxKind::Spread) => Some(Found {
            list,
            name: None,
            fault: Fault::SecondSink,
        }),
        _ => None,
    }
}

/// Puts the roles of children on top of others, that of the last child on top.
fn push_roles(
    roles: &mut Vec<Role>,
    first: Role,
    others: Role,
    children: usize,
) -> Result<(), AllocError>
    ensures { OnOk result (reverse roles.new.items ≡ child_roles first others children ++ reverse roles.old.items) }
{
    if children > 0 {
        roles.push(first)?;
        for _ in 1..children {
            roles.push(others)?;
        }
    }
    Ok(())
}

/// Puts the roles of the children of an event on top of others. It is behind so many events.
#[inline(always)]
fn push_below(
    roles: &mut Vec<Role>,
    role: Role,
    event: Event,
    left: usize,
) -> Result<(), AllocError>
    ensures { OnOk result (reverse roles.new.items
        ≡ child_roles (first_role role (kind_of event) left) (others_role role (kind_of event) left) (min (children_of event) left)
        ++ reverse roles.old.items) }
{
    let children = event.children().min(left);
    if children == 0 {
        return Ok(());
    }
    let first = first_role(role, event.kind(), left);
    let others = others_role(role, event.kind(), left);
    push_roles(roles, first, others, children)
}

/// The event at a place.
fn event_at(events: &[Event], at: usize) -> Event
    requires { at < length events.now }
    ensures { (other : AnyEvent) → result ≡ slice_index_or events.now at other }
{
    events[at]
}

/// A search through the events of the last tree, from the last one back.
#[derive(Drop)]
pub struct Search<'a> {
    // The roles of the last trees of the events that aren't passed yet, that of the last tree at the end.
    roles: Vec<Role>,
    // How many these events are.
    left: usize,
    // The text up to their end.
    text: &'a [u8],
}

impl<'a> Search<'a> {
    /// The beginning of a search. The text ends with the last tree.
    fn new(
        alloc: Global,
        what: Unique,
        text: &'a [u8],
        events: &[Event],
    ) -> Result<Search<'a>, AllocError>
        ensures left { IfOk result (λ search. left_of what events.now search
            ≡ found_back what (root_role what ∷ []) text.now (reverse events.now)) }
        ensures within { IfOk result (λ search. search.left ≤ length events.now) }
    {
        let mut roles = Vec::with_capacity(alloc, ROOM)?;
        roles.push(root_role(what))?;
        Ok(Search {
            roles,
            left: events.len(),
            text,
        })
    }

    /// What is found at the next event, unless none is left.
    #[inline(always)]
    fn next(
        &mut self,
        what: Unique,
        events: &[Event],
    ) -> Result<Option<Option<Found<'a>>>, AllocError>
        requires { self.old.left ≤ length events.now }
        ensures next { IfOk result (IsNext (left_of what events.now self.old) (left_of what events.now self.new)) }
        ensures fewer { IfOk result (λ next. OnSome next (self.new.left < self.old.left)) }
        ensures within { self.new.left ≤ self.old.left }
    {
        let Some(role) = self.roles.pop() else {
            return Ok(None);
        };
        if self.left == 0 {
            return Ok(None);
        }
        self.left -= 1;
        let event = event_at(events, self.left);
        let (before, piece) = self
            .text
            .split_at(self.text.len().saturating_sub(event.len()));
        self.text = before;
        push_below(&mut self.roles, role, event, self.left)?;
        Ok(Some(found_in(what, role, event.kind(), piece)))
    }
}

/// What is found at each event of the last tree, the last event first.
fn find<'a>(
    alloc: Global,
    what: Unique,
    text: &'a [u8],
    events: &[Event],
) -> Result<Vec<Option<Found<'a>>>, AllocError>
    ensures { IfOk result (λ found. map (option_map found_of) found.items
        ≡ found_back what (root_role what ∷ []) text.now (reverse events.now)) }
{
    let mut found = Vec::new(alloc);
    let mut search = Search::new(alloc, what, text, events)?;
    while let Some(one) = search.next(what, events)? {
        found.push(one)?;
    }
    Ok(found)
}

/// The names and sinks that were seen, each with the number of its list.
type Seen<'a> = BTreeSet<(usize, Option<&'a [u8]>)>;

/// Why it is an error, if it was seen. From then on it is seen.
fn see<'a>(seen: &mut Seen<'a>, one: Found<'a>) -> Result<Option<Fault>, AllocError>
    ensures fault { IfOk result (λ fault. fault ≡ fault_seen seen.old one.entry) }
    ensures seen { OnOk result ((q : AnyFound) → is_seen seen.new q ≡ seen_after seen.old one.entry q) }
{
    if seen.insert((one.list, one.name))? {
        Ok(None)
    } else {
        Ok(Some(one.fault))
    }
}

/// Why it is an error, if something was found and was seen. From then on it is seen.
#[inline(always)]
fn see_any<'a>(seen: &mut Seen<'a>, one: Option<Found<'a>>) -> Result<Option<Fault>, AllocError>
    ensures fault { IfOk result (λ fault. fault ≡ fault_if_seen seen.old one.entry) }
    ensures seen { OnOk result ((q : AnyFound) → is_seen seen.new q ≡ seen_with seen.old one.entry q) }
{
    match one {
        Some(one) => see(seen, one),
        None => Ok(None),
    }
}

/// Whether no name comes again in the last tree, and no second sink.
fn are_unique(
    alloc: Global,
    what: Unique,
    text: &[u8],
    events: &[Event],
) -> Result<bool, AllocError>
    ensures { IfOk result (λ unique. unique ≡ true → events.now ≡ made_unique what text.now events.now) }
{
    let mut seen = BTreeSet::new(alloc);
    let mut search = Search::new(alloc, what, text, events)?;
    while let Some(one) = search.next(what, events)? {
        if see_any(&mut seen, one)?.is_some() {
            return Ok(false);
        }
    }
    Ok(true)
}

/// Why each event's tree is an error, if what was found at it comes before in the text.
fn faults_of(alloc: Global, found: &[Option<Found<'_>>]) -> Result<Vec<Option<Fault>>, AllocError>
    ensures { IfOk result (λ faults. faults.items ≡ faults_of (map (option_map found_of) found.now)) }
{
    let mut seen = BTreeSet::new(alloc);
    let mut faults = Vec::new(alloc);
    let mut left = found.len();
    while left > 0 {
        left -= 1;
        faults.push(see_any(&mut seen, found[left])?)?;
    }
    faults.reverse();
    Ok(faults)
}

/// Takes an event, or makes its tree an error, if it has a fault. It tells how many events are gone with it.
fn take_one(
    events: &mut Vec<Event>,
    taken: &mut Vec<Event>,
    event: Event,
    fault: Option<Fault>,
    end: usize,
) -> Result<usize, AllocError>
    ensures taken { OnOk result (taken.new.items ≡ taken.old.items ++ fault_put fault end event (reverse events.old.items)) }
    ensures events { OnOk result (reverse events.new.items
        ≡ drop (fault_gone fault event (reverse events.old.items)) (reverse events.old.items)) }
    ensures gone { IfOk result (λ gone. gone ≡ fault_gone fault event (reverse events.old.items)) }
    ensures fewer { OnOk result (length events.new.items ≤ length events.old.items) }
{
    let Some(fault) = fault else {
        taken.push(event)?;
        return Ok(0);
    };
    let children = width(events, event.children());
    let len = event.len().saturating_add(children).min(end);
    let gone = span(events, event.children());
    taken.push(Event::Error { fault, len })?;
    let at = events.len() - gone;
    events.truncate(at);
    Ok(gone)
}

/// Takes the last events, with errors in place of the trees that have faults. The last of them comes first.
fn take_faulted(
    alloc: Global,
    events: &mut Vec<Event>,
    faults: &[Option<Fault>],
    end: usize,
) -> Result<Vec<Event>, AllocError>
    ensures { IfOk result (λ taken. taken.items ++ reverse events.new.items ≡ faulted_back 0 end faults.now (reverse events.old.items)) }
{
    let mut taken = Vec::new(alloc);
    let mut at = 0;
    while at < faults.len() {
        let Some(event) = events.pop() else {
            return Ok(taken);
        };
        let gone = take_one(events, &mut taken, event, faults[at], end)?;
        let left = faults.len() - at - 1;
        at += 1 + gone.min(left);
    }
    Ok(taken)
}

/// Makes errors of names that come again in the last tree, and of second sinks. The text ends with that tree. After an
/// error the events are gone.
///
/// It takes time in proportion to the events of the tree, and for each name to its bytes times the logarithm of how many
/// names there are.
pub(crate) fn make_unique(
    alloc: Global,
    events: &mut Vec<Event>,
    text: &[u8],
    what: Unique,
) -> Result<(), AllocError>
    ensures { OnOk result (events.new.items ≡ made_unique what text.now events.old.items) }
{
    if are_unique(alloc, what, text, events)? {
        return Ok(());
    }
    let found = find(alloc, what, text, events)?;
    let faults = faults_of(alloc, &found)?;
    let mut taken = take_faulted(alloc, events, &faults, text.len())?;
    taken.reverse();
    events.append(&mut taken)?;
    Ok(())
}
