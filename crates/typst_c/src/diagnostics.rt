//! The errors, warnings and hints of the tree that a handle holds.
ghost use Rattle.std.specs.Prelude.{◌≡◌, Result};
ghost use Rattle.typst_c.specs.Calls.{IsStatus, Reads, status_of, Told};
ghost use Rattle.typst_c.specs.Lending.{IsSameHandle};
ghost use Rattle.typst_session.specs.Diagnostics.{ReadsDiagnostics};
ghost use Rattle.typst_session.specs.declared.refusal.Refusal.{Refusal};

use crate::handle::Handle;
use crate::told::{NOT_MADE, status};
use std::alloc::Global;
use typst_session::{Diagnostic, DiagnosticSizes};

/// Writes the errors and the warnings of the tree, and their hints, with their texts.
#[unsafe(no_mangle)]
pub extern "C" fn typst_diagnostics(
    alloc: Global,
    handle: &mut Handle,
    out: &mut [Diagnostic],
    texts: &mut [u8],
    sizes: &mut DiagnosticSizes,
) -> u32
    ensures kept { IsSameHandle handle.old handle.new }
    ensures read { Reads ((out.new ≡ out.old) × (texts.new ≡ texts.old) × (sizes.new ≡ sizes.old)) (λ s.
        Told (IsStatus result)
        (ReadsDiagnostics s (record { list = out.old; texts = texts.old; sizes = sizes.old })
        (record { list = out.new; texts = texts.new; sizes = sizes.new })))
        handle.old.at.value result }
{
    let Some(session) = handle.read() else {
        return NOT_MADE;
    };
    let outcome = session.diagnostics(alloc, out, texts, sizes);
    status(outcome)
}
