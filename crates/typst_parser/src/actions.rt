//! What actions do with the stack.
ghost use Rattle.std.specs.Prelude.{◌≡◌, ◌+◌, ◌<◌, ◌^◌, take, OnOk};
ghost use Rattle.typst_parser.specs.Actions.{act, acts, as_kind, as_unclosed, called, changed, column_of, covered, delimited, expected_once, flushed, inherited, is_error_kind, joined, opened_frame, rejoined, returned, surrounded, wrapped};
ghost use Rattle.typst_parser.specs.Frames.{events_end, settled};
ghost use Rattle.typst_parser.specs.Lists.{changed_at};
ghost use Rattle.typst_parser.specs.Mistakes.{mistaken};
ghost use Rattle.typst_parser.specs.Retag.{retagged};
ghost use Rattle.typst_parser.specs.Unique.{made_unique};
ghost use Rattle.typst_parser.specs.View.{stack_of};

use crate::event::Event;
use crate::fault::Fault;
use crate::mistake::mistake;
use crate::read::part;
use crate::retag::retag;
use crate::stack::{Frame, LEAST, Stack};
use crate::table::is_last;
use crate::unique::make_unique;
use std::alloc::{AllocError, Global};
use typst_base::SyntaxKind;
use typst_grammar::{Action, Call, Expectation, Map, Newline, State, Unique};

/// What a line feed does in a frame that opens in another one.
fn inherited(new: Option<Newline>, old: Newline) -> Newline
    ensures { result ≡ inherited new old }
{
    match new {
        Some(new) => new,
        None => old,
    }
}

/// The column of a frame that opens, where its line feeds depend on the column of the next token.
fn column_of(new: Option<Newline>, token: usize, old: usize) -> usize
    ensures { result ≡ column_of new token old }
{
    match new {
        Some(Newline::Column) => token,
        _ => old,
    }
}

/// The event with another kind, if it is a leaf.
fn as_kind(kind: SyntaxKind, event: Event) -> Event
    ensures { result ≡ as_kind kind event }
{
    match event {
        Event::Leaf { len, .. } => Event::Leaf { kind, len },
        _ => event,
    }
}

/// Gives one of some events a kind, if it is a leaf.
#[tactic(auto, using(crate::proofs::Links::changed_here, crate::proofs::Links::changed_past))]
fn name_at(events: &mut Vec<Event>, index: usize, kind: SyntaxKind)
    ensures { events.new.items ≡ changed_at (as_kind kind) index events.old.items }
{
    if let Some(event) = events.get_mut(index) {
        *event = as_kind(kind, *event);
    }
}

/// Makes a leaf an error.
fn as_unclosed(event: Event) -> Event
    ensures { result ≡ as_unclosed event }
{
    match event {
        Event::Leaf { len, .. } => Event::Error {
            fault: Fault::Unclosed,
            len,
        },
        _ => event,
    }
}

/// Makes one of some events an error, if it is a leaf.
#[tactic(auto, using(crate::proofs::Links::changed_here, crate::proofs::Links::changed_past))]
fn unclose_at(events: &mut Vec<Event>, index: usize)
    ensures { events.new.items ≡ changed_at as_unclosed index events.old.items }
{
    if let Some(event) = events.get_mut(index) {
        *event = as_unclosed(*event);
    }
}

impl Frame {
    /// The frame around one that ended, which gets its trees.
    fn rejoined(self, ended: Frame) -> Frame
        ensures { result ≡ rejoined ended self }
    {
        Frame {
            trees: self.trees.saturating_add(ended.trees),
            levels: self.levels.max(ended.levels),
            ..self
        }
    }
}

impl Stack {
    /// The frame that a call opens.
    fn opened_frame(&self, call: Call) -> Frame
        ensures { result ≡ opened_frame call (stack_of self.now) }
    {
        let start = self.events.len();
        Frame {
            state: call.state,
            start: if call.enters {
                start
            } else {
                start.saturating_add(self.white.len())
            },
            trees: 0,
            number: call.number,
            newline: inherited(call.newline, self.top.newline),
            column: column_of(call.newline, self.next.place.column, self.top.column),
            levels: LEAST,
            room: self.top.room.saturating_sub(usize::from(call.is_deep)),
        }
    }

    /// Opens a frame.
    pub(crate) fn call(&mut self, call: Call) -> Result<(), AllocError>
        ensures { OnOk result (stack_of self.new ≡ called call (stack_of self.old)) }
    {
        self.settle()?;
        let frame = self.opened_frame(call);
        self.below.push(self.top)?;
        self.top = frame;
        if call.enters {
            self.judge = self.below.len();
        }
        Ok(())
    }

    /// How many trees a frame that opens around the last tree takes over: that tree, if it is a leaf.
    fn covered(&self) -> usize
        ensures { result ≡ covered (stack_of self.now) }
    {
        match self.events.last() {
            Some(Event::Leaf { .. }) => self.top.trees.min(1),
            _ => 0,
        }
    }

    /// Opens a frame with a number around the last tree, if that is a leaf. The frame that had it goes on in a state. White
    /// space before the next token goes into the new frame.
    fn surround(&mut self, state: State, number: usize) -> Result<(), AllocError>
        ensures { OnOk result (stack_of self.new ≡ surrounded state number (settled (stack_of self.old))) }
    {
        self.settle()?;
        let covered = self.covered();
        self.below.push(Frame {
            state,
            trees: self.top.trees - covered,
            ..self.top
        })?;
        self.top = Frame {
            start: self.events.len() - covered,
            trees: covered,
            number,
            levels: LEAST,
            ..self.top
        };
        self.judge = self.below.len();
        Ok(())
    }

    /// Ends the innermost frame, unless it is the outermost.
    fn end_frame(&mut self)
        ensures { stack_of self.new ≡ returned (stack_of self.old) }
    {
        if let Some(frame) = self.below.pop() {
            self.judge = self.judge.min(self.below.len());
            self.top = frame.rejoined(self.top);
        }
    }

    /// Puts white space before the next token into its frame now.
    #[inline(never)]
    fn flush(&mut self) -> Result<(), AllocError>
        ensures { OnOk result (stack_of self.new ≡ flushed (stack_of self.old)) }
    {
        self.settle()?;
        self.place()?;
        self.next.is_flushed = true;
        Ok(())
    }

    /// Makes the trees of the innermost frame the children of one node. White space before the next token goes behind it.
    fn join(&mut self, kind: SyntaxKind) -> Result<(), AllocError>
        requires { self.old.top.levels + 1 < 2 ^ 64 }
        ensures { OnOk result (stack_of self.new ≡ joined kind (stack_of self.old)) }
    {
        self.events.push(Event::Node {
            kind,
            children: self.top.trees,
        })?;
        self.top.trees = 1;
        self.top.levels += 1;
        self.judge = self.below.len();
        Ok(())
    }

    /// Makes the trees of the innermost frame one node, unless that would have too many levels.
    fn wrap(&mut self, kind: SyntaxKind, most: usize) -> Result<(), AllocError>
        ensures { OnOk result (stack_of self.new ≡ wrapped most kind (stack_of self.old)) }
    {
        if kind.is_error() {
            return Ok(());
        }
        if self.top.levels < most {
            return self.join(kind);
        }
        self.push(Event::Error {
            fault: Fault::TooTall,
            len: 0,
        })
    }

    /// Remembers that something is missing behind the last tree, unless that is an error.
    fn expect(&mut self, what: Expectation)
        ensures { stack_of self.new ≡ expected_once (stack_of self.old).missing what (stack_of self.old) }
    {
        if self.missing.is_none() && !is_last(SyntaxKind::Error, &self.events) {
            self.missing = Some(what);
        }
    }

    /// Makes the last tree of the innermost frame an error, unless it is one. So many bytes come up to its end.
    #[inline(never)]
    fn mistake(&mut self, end: usize, what: Expectation) -> Result<(), AllocError>
        ensures { OnOk result (stack_of self.new ≡ changed (mistaken what end) (settled (stack_of self.old))) }
    {
        self.settle()?;
        if self.top.trees > 0 {
            mistake(&mut self.events, end, what)?;
        }
        Ok(())
    }

    /// Gives the first and the last tree of the innermost frame kinds, if they are leaves.
    fn delimit(&mut self, first: SyntaxKind, last: SyntaxKind) -> Result<(), AllocError>
        ensures { OnOk result (stack_of self.new ≡ delimited first last (settled (stack_of self.old))) }
    {
        self.settle()?;
        if self.top.trees > 0 {
            let end = self.events.len().saturating_sub(1);
            name_at(&mut self.events, self.top.start, first);
            name_at(&mut self.events, end, last);
        }
        Ok(())
    }

    /// Makes the first leaf of the innermost frame an error.
    #[inline(never)]
    fn unclose(&mut self) -> Result<(), AllocError>
        ensures { OnOk result
            (let s = settled (stack_of self.old) in stack_of self.new ≡ changed (changed_at as_unclosed s.top.start) s) }
    {
        self.settle()?;
        if self.top.trees > 0 {
            unclose_at(&mut self.events, self.top.start);
        }
        Ok(())
    }

    /// Changes the last tree of the innermost frame by a map. So many bytes come up to its end.
    #[inline(never)]
    fn retag(&mut self, alloc: Global, end: usize, map: Map) -> Result<(), AllocError>
        ensures { OnOk result (stack_of self.new ≡ changed (retagged map end) (settled (stack_of self.old))) }
    {
        self.settle()?;
        if self.top.trees > 0 {
            retag(alloc, &mut self.events, end, map)?;
        }
        Ok(())
    }

    /// Makes names that come again in the last tree of the innermost frame errors.
    #[inline(never)]
    fn make_unique(&mut self, alloc: Global, text: &[u8], what: Unique) -> Result<(), AllocError>
        ensures { OnOk result (stack_of self.new ≡ changed (made_unique what text.now) (settled (stack_of self.old))) }
    {
        self.settle()?;
        if self.top.trees > 0 {
            make_unique(alloc, &mut self.events, text, what)?;
        }
        Ok(())
    }

    /// The text up to where the events end.
    fn before<'a>(&self, text: &'a [u8]) -> &'a [u8]
        ensures { result.now ≡ take (events_end (stack_of self.now)) text.now }
    {
        part(text, 0, self.events_end())
    }

    /// Does what an action says, in a text. A tree has at most so many levels. Actions are many, so the common ones are
    /// inlined, and those that walk over events are calls.
    #[inline(always)]
    fn act(
        &mut self,
        alloc: Global,
        text: &[u8],
        action: Action,
        most: usize,
    ) -> Result<(), AllocError>
        ensures { OnOk result
            (let s = stack_of self.old in stack_of self.new ≡ act most (take (events_end s) text.now) action s) }
    {
        match action {
            Action::Goto(state) => self.top.state = state,
            Action::Return => self.end_frame(),
            Action::Around(state, number) => self.surround(state, number)?,
            Action::Wrap(kind) => {
                self.settle()?;
                self.wrap(kind, most)?;
            }
            Action::Flush => self.flush()?,
            Action::Up => self.top.number = self.top.number.saturating_add(1),
            Action::Down => self.top.number = self.top.number.saturating_sub(1),
            Action::Expected(what) => self.expect(what),
            Action::Wrong(what) => self.mistake(self.before(text).len(), what)?,
            Action::Delimit(first, last) => self.delimit(first, last)?,
            Action::Unclosed => self.unclose()?,
            Action::Retag(map) => self.retag(alloc, self.before(text).len(), map)?,
            Action::Unique(what) => self.make_unique(alloc, self.before(text), what)?,
        }
        Ok(())
    }

    /// Does what some actions say, one after the other, in a text. A tree has at most so many levels.
    #[inline(always)]
    pub(crate) fn acts(
        &mut self,
        alloc: Global,
        text: &[u8],
        actions: &[Action],
        most: usize,
    ) -> Result<(), AllocError>
        ensures { OnOk result (stack_of self.new ≡ acts most text.now actions.now (stack_of self.old)) }
    {
        for action in actions {
            self.act(alloc, text, *action, most)?;
        }
        Ok(())
    }
}
