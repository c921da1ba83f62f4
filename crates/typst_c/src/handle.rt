//! What C holds.
ghost use Rattle.std.specs.Prelude.{◌≡◌, ◌↔◌, Some, None, IsSome, MatchOption};

use crate::at::At;
use crate::loose::Loose;
use std::alloc::Global;
use std::mem;
use typst_session::Session;

/// The first word of a handle that holds something.
const MADE: u64 = 0x7479_7073_7474_7265;

/// What C holds: nothing or a session. A handle that is all zero holds nothing.
#[repr(C)]
#[derive(Drop)]
pub struct Handle {
    made: u64,
    at: At,
    ghost holds: { (made ≡ 0x7479707374747265) ↔ IsSome at.value },
}

impl Handle {
    ghost use Rattle.std.specs.Borrow.{sem};
    ghost use Rattle.typst_c.specs.Lending.{HandleKeeps};

    fn none() -> Handle
        ensures { result.at.value ≡ None }
    {
        Handle {
            made: 0,
            at: At::none(),
        }
    }

    /// Takes out what the handle holds.
    pub(crate) fn take(&mut self, alloc: Global) -> Option<Box<Session>>
        ensures taken { MatchOption result (self.old.at.value ≡ None) (λ session. self.old.at.value
            ≡ Some session.value) }
        ensures left { self.new.at.value ≡ None }
    {
        let Handle { made, at } = mem::replace(self, Handle::none());
        if made == MADE {
            Some(at.into_loose(alloc).into_box())
        } else {
            None
        }
    }

    /// Puts back what was taken out.
    pub(crate) fn put(&mut self, session: Box<Session>)
        ensures { self.new.at.value ≡ Some session.value }
    {
        *self = Handle {
            made: MADE,
            at: At::of(Loose::of(session)),
        };
    }

    /// Lends what the handle holds, to read it.
    pub(crate) fn read(&mut self) -> Option<&Session>
        ensures* keeps { sem 𝓛 (HandleKeeps self.entry) }
        ensures lent { MatchOption result (self.old.at.value ≡ None) (λ session. self.old.at.value ≡ Some session.now) }
    {
        if self.made == MADE {
            Some(self.at.lend())
        } else {
            None
        }
    }
}
