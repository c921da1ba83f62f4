//! What the accessors of typed views answer of a node.
ghost use Rattle.std.specs.Prelude.{◌≡◌, Result};
ghost use Rattle.typst_c.specs.Calls.{IsStatus, Reads, status_of, Told};
ghost use Rattle.typst_c.specs.Lending.{IsSameHandle};
ghost use Rattle.typst_session.specs.Views.{ReadsView};
ghost use Rattle.typst_session.specs.declared.refusal.Refusal.{Refusal};

use crate::handle::Handle;
use crate::told::{NOT_MADE, status};
use std::alloc::Global;
use typst_session::{Asked, ViewAnswer};

/// Tells what an accessor answers of the node at a path, and writes its text.
#[unsafe(no_mangle)]
pub extern "C" fn typst_view(
    alloc: Global,
    handle: &mut Handle,
    path: &[usize],
    accessor: u32,
    index: usize,
    out: &mut [u8],
    answer: &mut ViewAnswer,
) -> u32
    ensures kept { IsSameHandle handle.old handle.new }
    ensures read { Reads ((out.new ≡ out.old) × (answer.new ≡ answer.old)) (λ s. Told (IsStatus result)
        (ReadsView path.now (record { accessor = accessor; index = index }) s
        (record { bytes = out.old; answer = answer.old }) (record { bytes = out.new; answer = answer.new })))
        handle.old.at.value result }
{
    let Some(session) = handle.read() else {
        return NOT_MADE;
    };
    let outcome = session.view(alloc, path, Asked { accessor, index }, out, answer);
    status(outcome)
}
