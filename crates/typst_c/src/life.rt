//! Making, copying and freeing what a handle holds.
ghost use Rattle.std.specs.Prelude.{◌≡◌, ◌⊎◌, [], None, IsSomeAnd, Result};
ghost use Rattle.typst_c.specs.Calls.{Reads, Told};
ghost use Rattle.typst_c.specs.Lending.{IsSameHandle};
ghost use Rattle.typst_c.specs.Told.{TellsCopy};
ghost use Rattle.typst_session.specs.Codes.{code_of};
ghost use Rattle.typst_session.specs.Sessions.{Copies};
ghost use Rattle.typst_session.specs.declared.refusal.Refusal.{Refusal as Why};
ghost use Rattle.typst_session.specs.declared.refusal.Refusal.TheVariants.{Memory};
ghost use Rattle.typst_session.specs.declared.session.Session.{Session as State};
ghost use Rattle.typst_session.specs.declared.session.Held.TheVariants.{Nothing};

use crate::handle::Handle;
use crate::told::NOT_MADE;
use std::alloc::Global;
use typst_session::{Refusal, Session};

/// The version of the library: 10,000 times its first number, 100 times its second number and its third number.
pub const VERSION: u32 = 200;

/// The version of the library.
#[unsafe(no_mangle)]
pub extern "C" fn typst_version() -> u32
    ensures { result ≡ 200 }
{
    VERSION
}

/// Frees what the handle holds, and makes an empty session in its place.
#[unsafe(no_mangle)]
pub extern "C" fn typst_new(alloc: Global, handle: &mut Handle) -> u32
    ensures made { result ≡ 0 → IsSomeAnd handle.new.at.value (λ s. (s.stack.items ≡ []) × (s.held ≡ Nothing)) }
    ensures status { (result ≡ 0) ⊎ ((result ≡ code_of Memory) × (handle.new.at.value ≡ None)) }
{
    handle.take(alloc);
    match Box::new(alloc, Session::new(alloc)) {
        Ok(session) => {
            handle.put(session);
            0
        }
        Err(_) => Refusal::Memory.code(),
    }
}

/// Copies what one handle holds into another. What the other one held is freed.
#[unsafe(no_mangle)]
pub extern "C" fn typst_copy(alloc: Global, handle: &mut Handle, copy: &mut Handle) -> u32
    ensures kept { IsSameHandle handle.old handle.new }
    ensures read { Reads (copy.new.at.value ≡ copy.old.at.value)
        (λ s. Told (TellsCopy copy.old.at.value copy.new.at.value result)
        (Copies s)) handle.old.at.value result }
{
    let Some(session) = handle.read() else {
        return NOT_MADE;
    };
    let made = match session.copy(alloc) {
        Ok(made) => made,
        Err(refusal) => return refusal.code(),
    };
    match Box::new(alloc, made) {
        Ok(made) => {
            copy.take(alloc);
            copy.put(made);
            0
        }
        Err(_) => Refusal::Memory.code(),
    }
}

/// Frees what the handle holds, and leaves nothing in it.
#[unsafe(no_mangle)]
pub extern "C" fn typst_free(alloc: Global, handle: &mut Handle)
    ensures { handle.new.at.value ≡ None }
{
    handle.take(alloc);
}
