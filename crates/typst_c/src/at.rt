//! What a handle that C holds points to.
ghost use Rattle.std.specs.Prelude.{◌≡◌, Option, Some, None, IsSome};
ghost use Rattle.typst_session.specs.declared.session.Session.{Session};
ghost use Rattle.std.specs.Coded.{coded_option};
ghost use Rattle.typst_session.specs.contracts.session.Session.{the_row};

use crate::loose::Loose;
use std::alloc::Global;
use std::marker::Model;
use std::ptr::null_mut;
use typst_session::Session;

/// A box as its pointer, or nothing.
#[repr(C)]
#[derive(Drop)]
pub struct At {
    at: *mut (),
    pub ghost value: { Option Session } by { coded_option the_row.coded },
}

impl Model for At {
    ghost use Rattle.typst_c.specs.Owned.{owned_at};
    ghost use Rattle.typst_session.specs.contracts.session.Session.{the_row};

    ghost also_owns = { λ h. owned_at the_row h.at h.value };
}

impl At {
    ghost use Rattle.std.specs.Borrow.{sem};
    ghost use Rattle.typst_c.specs.Lending.{AtLends};

    pub(crate) fn none() -> At
        ensures { result.value ≡ None }
    {
        At { at: null_mut() }
    }

    pub(crate) fn of(loose: Loose<Session, Global>) -> At
        ensures { result.value ≡ Some loose.value }
    {
        let Loose { at, alloc: _ } = loose;
        At { at: at as *mut () }
    }

    pub(crate) fn into_loose(self, alloc: Global) -> Loose<Session, Global>
        requires { IsSome self.value }
        ensures { self.value ≡ Some result.value }
    {
        let At { at } = self;
        Loose {
            at: at as *mut Session,
            alloc,
        }
    }

    /// Lends the session.
    pub(crate) fn lend(&mut self) -> &mut Session
        requires { IsSome self.old.value }
        ensures* writes_back { sem 𝓛 (AtLends self.entry result) }
        ensures value { self.old.value ≡ Some result.now }
    {
        unsafe { &mut *(self.at as *mut Session) }
    }
}
