//! Kinds by their numbers and names. These calls take no handle.
ghost use Rattle.std.specs.Prelude.{ℕ, ◌≡◌, Bool, Result};
ghost use Rattle.typst_c.specs.Calls.{IsStatus, status_of, Told};
ghost use Rattle.typst_c.specs.Told.{buffer, TellsFlag, TellsValue};
ghost use Rattle.typst_session.specs.Kinds.{ClassesOf, NumbersName, TellsHolding, WritesName};
ghost use Rattle.typst_session.specs.declared.kinds.KindClasses.{KindClasses as Classes};
ghost use Rattle.typst_session.specs.declared.refusal.Refusal.{Refusal};

use crate::told::{Length, status, tell, tell_flag};
use typst_session::kinds::{self, KindClasses};

/// Writes the name of the kind with a number, as messages to a user write it.
#[unsafe(no_mangle)]
pub extern "C" fn typst_kind_name(kind: u32, out: &mut [u8], length: &mut Length) -> u32
    ensures { Told (IsStatus result) (WritesName kind (buffer out.old length.old) (buffer out.new length.new)) }
{
    status(kinds::write_name(kind, out, &mut length.len))
}

/// The number of the kind with a name.
#[unsafe(no_mangle)]
pub extern "C" fn typst_kind_of_name(name: &[u8], kind: &mut u32) -> u32
    ensures { Told (TellsValue kind.old kind.new result) (NumbersName name.now) }
{
    tell(kinds::kind_of_name(name), kind)
}

/// The classes of the kind with a number.
#[unsafe(no_mangle)]
pub extern "C" fn typst_kind_classes(kind: u32, classes: &mut KindClasses) -> u32
    ensures { Told (TellsValue classes.old classes.new result) (ClassesOf kind) }
{
    tell(kinds::classes(kind), classes)
}

/// Whether the set with a number holds the kind with a number.
#[unsafe(no_mangle)]
pub extern "C" fn typst_kind_in_set(kind: u32, set: u32, held: &mut u32) -> u32
    ensures { Told (TellsFlag held.old held.new result) (TellsHolding set kind) }
{
    tell_flag(kinds::set_holds(set, kind), held)
}
