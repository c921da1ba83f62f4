//! Comparing nodes that handles hold.
ghost use Rattle.std.specs.Prelude.{◌≡◌, Bool, Result};
ghost use Rattle.typst_c.specs.Calls.{Reads, Told};
ghost use Rattle.typst_c.specs.Lending.{IsSameHandle};
ghost use Rattle.typst_c.specs.Told.{TellsFlag};
ghost use Rattle.typst_session.specs.Comparing.{Compares};
ghost use Rattle.typst_session.specs.declared.refusal.Refusal.{Refusal};

use crate::handle::Handle;
use crate::told::{NOT_MADE, tell_flag};

/// Whether the subtrees at two paths of one tree are equal apart from spans and bounds.
#[unsafe(no_mangle)]
pub extern "C" fn typst_spanless_eq_within(
    handle: &mut Handle,
    path: &[usize],
    other_path: &[usize],
    equal: &mut u32,
) -> u32
    ensures kept { IsSameHandle handle.old handle.new }
    ensures read { Reads (equal.new ≡ equal.old) (λ s. Told (TellsFlag equal.old equal.new result)
        (Compares path.now s other_path.now s)) handle.old.at.value result }
{
    let Some(session) = handle.read() else {
        return NOT_MADE;
    };
    let outcome = session.spanless_eq(path, session, other_path);
    tell_flag(outcome, equal)
}

/// Whether the subtree at a path and a subtree of another handle are equal apart from spans and bounds.
#[unsafe(no_mangle)]
pub extern "C" fn typst_spanless_eq(
    handle: &mut Handle,
    path: &[usize],
    other: &mut Handle,
    other_path: &[usize],
    equal: &mut u32,
) -> u32
    ensures kept { IsSameHandle handle.old handle.new }
    ensures other_kept { IsSameHandle other.old other.new }
    ensures read { Reads (equal.new ≡ equal.old) (λ s. Reads (equal.new ≡ equal.old)
        (λ o. Told (TellsFlag equal.old equal.new result)
        (Compares path.now s other_path.now o)) other.old.at.value result) handle.old.at.value result }
{
    let Some(session) = handle.read() else {
        return NOT_MADE;
    };
    let Some(compared) = other.read() else {
        return NOT_MADE;
    };
    let outcome = session.spanless_eq(path, compared, other_path);
    tell_flag(outcome, equal)
}
