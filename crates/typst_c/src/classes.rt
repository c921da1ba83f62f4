//! The children of a node that are of a class.
ghost use Rattle.std.specs.Prelude.{ℕ, ◌≡◌, Result};
ghost use Rattle.typst_c.specs.Calls.{Reads, Told};
ghost use Rattle.typst_c.specs.Lending.{IsSameHandle};
ghost use Rattle.typst_c.specs.Told.{is_from_end, TellsValue};
ghost use Rattle.typst_session.specs.Classes.{PicksChild};
ghost use Rattle.typst_session.specs.declared.refusal.Refusal.{Refusal};

use crate::handle::Handle;
use crate::told::{NOT_MADE, tell};

/// The index of a child of a class, counted from the first one (`from_end` is 0) or from the last one (any other
/// number).
#[unsafe(no_mangle)]
pub extern "C" fn typst_child_of_class(
    handle: &mut Handle,
    path: &[usize],
    node_class: u32,
    index: usize,
    from_end: u32,
    child: &mut usize,
) -> u32
    ensures kept { IsSameHandle handle.old handle.new }
    ensures read { Reads (child.new ≡ child.old) (λ s. Told (TellsValue child.old child.new result)
        (PicksChild path.now node_class index (is_from_end from_end) s)) handle.old.at.value result }
{
    let Some(session) = handle.read() else {
        return NOT_MADE;
    };
    let outcome = session.child_of_class(path, node_class, index, from_end != 0);
    tell(outcome, child)
}
