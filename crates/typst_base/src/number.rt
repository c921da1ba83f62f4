//! The kinds by their numbers, and the kind of errors.
ghost use Rattle.std.specs.Prelude.{◌≡◌, ◌↔◌, ◌<◌, ◌≤◌, IsNone, IsTrue, Some};
ghost use Rattle.typst_base.specs.KindNumber.{number_of};
ghost use Rattle.typst_base.specs.declared.kind.SyntaxKind.{SyntaxKind};
ghost use Rattle.typst_base.specs.declared.kind.SyntaxKind.TheVariants.{Error};

use crate::kind::{KINDS, SyntaxKind};

/// # Numbers
impl SyntaxKind {
    /// The kind's number, from 0 to 136, in the order of the variants.
    pub fn to_u8(self) -> u8
        ensures is { result ≡ number_of self }
        ensures small { result < 137 }
    {
        self as u8
    }

    /// The kind with this number, or `None` for 137 and above.
    pub fn from_u8(raw: u8) -> Option<SyntaxKind>
        ensures of_its_number { (kind : SyntaxKind) → number_of kind ≡ raw → result ≡ Some kind }
        ensures none { IsNone result ↔ (137 ≤ raw) }
    {
        let index = usize::from(raw);
        if index < KINDS.len() {
            Some(KINDS[index])
        } else {
            None
        }
    }

    /// Whether it is the kind of errors.
    pub fn is_error(self) -> bool
        ensures { IsTrue result ↔ (self ≡ Error) }
    {
        self == SyntaxKind::Error
    }
}
