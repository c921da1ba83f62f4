//! The events so far, and the open frames.
ghost use Rattle.std.specs.Prelude.{◌≡◌, IfOk, OnOk};
ghost use Rattle.typst_parser.specs.Frames.{counted, ended, events_end, grown, is_looking, judging, looking, placed, pushed, settled};
ghost use Rattle.typst_parser.specs.Lists.{changed_at};
ghost use Rattle.typst_parser.specs.Stack.{beginning, outermost, start};
ghost use Rattle.typst_parser.specs.View.{stack_of};

use crate::event::Event;
use crate::fault::Fault;
use crate::next::{Next, Place};
use std::alloc::{AllocError, Global};
use typst_grammar::{Expectation, Newline, State};
use typst_lexer::Behind;

/// How many levels the tree of a token may have: raw text has two.
pub(crate) const LEAST: usize = 2;

/// For how many events a stack has room from the start: most lines of a text have no more.
const ROOM: usize = 64;

/// For how many open frames it has room from the start.
const DEPTH: usize = 16;

/// An open frame: where in the syntax it is, and which trees are its own.
#[derive(Clone, Copy)]
pub struct Frame {
    /// Its state.
    pub(crate) state: State,
    /// The index of its first event, or of white space before that, if this was read after the frame had opened.
    pub(crate) start: usize,
    /// How many trees it has: the last ones before those of the frames in it.
    pub(crate) trees: usize,
    /// Its number.
    pub(crate) number: usize,
    /// What a line feed does in it.
    pub(crate) newline: Newline,
    /// The column of the token at which it opened, where line feeds depend on that.
    pub(crate) column: usize,
    /// How many levels its trees may have.
    pub(crate) levels: usize,
    /// How many more deep frames may open in it.
    pub(crate) room: usize,
}

/// What became of the next token.
#[derive(Clone, Copy, Debug, PartialEq, Eq)]
pub enum Phase {
    /// It is looked at.
    Looking,
    /// It was taken.
    Taken,
    /// The block ends before it.
    Over,
}

/// The events so far, the open frames, and what was read of the next token.
#[derive(Drop)]
pub struct Stack {
    // All events so far.
    pub(crate) events: Vec<Event>,
    // The events of the white space before the next token, as far as they aren't among the others yet.
    pub(crate) white: Vec<Event>,
    // What is missing before that white space, if it isn't an error yet.
    pub(crate) missing: Option<Expectation>,
    // Where the last token ends, what was read of the next one, and how many bytes were looked at.
    pub(crate) from: Place,
    pub(crate) next: Next,
    pub(crate) far: usize,
    pub(crate) phase: Phase,
    // The innermost frame, and the others, the outermost first.
    pub(crate) top: Frame,
    pub(crate) below: Vec<Frame>,
    // How many frames are around the one that white space before the next token goes into.
    pub(crate) judge: usize,
}

impl Frame {
    /// The outermost frame, in which so many deep frames may open.
    fn outermost(room: usize) -> Frame
        ensures { result ≡ outermost room }
    {
        Frame {
            state: State::Document,
            start: 0,
            trees: 0,
            number: 0,
            newline: Newline::Go,
            column: 0,
            levels: LEAST,
            room,
        }
    }

    /// Gives the frame so many trees more.
    #[inline(always)]
    pub(crate) fn grow(&mut self, trees: usize)
        ensures { self.new ≡ grown trees self.old }
    {
        self.trees = self.trees.saturating_add(trees);
    }
}

/// Gives one of some frames so many trees more.
#[tactic(auto, using(crate::proofs::Links::changed_here, crate::proofs::Links::changed_past))]
fn count_at(frames: &mut Vec<Frame>, index: usize, trees: usize)
    ensures { frames.new.items ≡ changed_at (grown trees) index frames.old.items }
{
    if let Some(frame) = frames.get_mut(index) {
        frame.grow(trees);
    }
}

impl Stack {
    /// The stack before the first token: one frame, in the state of a document, without trees.
    pub(crate) fn new(alloc: Global, room: usize) -> Result<Stack, AllocError>
        ensures { IfOk result (λ stack. stack_of stack ≡ start room) }
    {
        let beginning = Place {
            at: 0,
            behind: Behind::Start,
            column: 0,
        };
        Ok(Stack {
            events: Vec::with_capacity(alloc, ROOM)?,
            white: Vec::new(alloc),
            missing: None,
            from: beginning,
            next: Next::unread(beginning),
            far: 0,
            phase: Phase::Looking,
            top: Frame::outermost(room),
            below: Vec::with_capacity(alloc, DEPTH)?,
            judge: 0,
        })
    }

    /// The frame that white space before the next token goes into, and that says what a line feed there does.
    pub(crate) fn judging(&self) -> Frame
        ensures { result ≡ judging (stack_of self.now) }
    {
        match self.below.get(self.judge) {
            Some(frame) => *frame,
            None => self.top,
        }
    }

    /// Where the events end: behind the last token, or behind white space that went into a frame.
    pub(crate) fn events_end(&self) -> usize
        ensures { result ≡ events_end (stack_of self.now) }
    {
        if self.next.is_flushed {
            self.next.place.at
        } else {
            self.from.at
        }
    }

    /// Puts an event that is a tree behind all others, into the innermost frame. White space before the next token goes
    /// behind it.
    #[inline(never)]
    pub(crate) fn push(&mut self, event: Event) -> Result<(), AllocError>
        ensures { OnOk result (stack_of self.new ≡ pushed event (stack_of self.old)) }
    {
        self.events.push(event)?;
        self.top.grow(1);
        self.judge = self.below.len();
        Ok(())
    }

    /// Makes what is missing an error.
    #[inline(always)]
    pub(crate) fn settle(&mut self) -> Result<(), AllocError>
        ensures { OnOk result (stack_of self.new ≡ settled (stack_of self.old)) }
    {
        if let Some(what) = self.missing {
            self.push(Event::Error {
                fault: Fault::Expected(what),
                len: 0,
            })?;
            self.missing = None;
        }
        Ok(())
    }

    /// Counts so many trees more in the frame that judges.
    #[tactic(auto, using(crate::proofs::Links::changed_past))]
    fn count(&mut self, trees: usize)
        ensures { stack_of self.new ≡ counted trees (stack_of self.old) }
    {
        if self.judge < self.below.len() {
            count_at(&mut self.below, self.judge, trees);
        } else {
            self.top.grow(trees);
        }
    }

    /// Puts white space before the next token behind all events, into the frame that judges. Most often it is one event.
    pub(crate) fn place(&mut self) -> Result<(), AllocError>
        ensures { OnOk result (stack_of self.new ≡ placed (stack_of self.old)) }
    {
        let trees = self.white.len();
        self.count(trees);
        if trees > 1 {
            self.events.append(&mut self.white)?;
        } else if let Some(event) = self.white.pop() {
            self.events.push(event)?;
        }
        Ok(())
    }

    /// Ends the block before the next token.
    pub(crate) fn end(&mut self) -> Result<(), AllocError>
        ensures { OnOk result (stack_of self.new ≡ ended (stack_of self.old)) }
    {
        self.settle()?;
        self.place()?;
        self.from = self.next.place;
        self.phase = Phase::Over;
        Ok(())
    }
}
