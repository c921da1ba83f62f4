//! The kind of a view of one kind.
ghost use Rattle.typst_base.specs.declared.kind.SyntaxKind.{SyntaxKind};

use typst_base::SyntaxKind;

/// The kind of the nodes that a view of one kind shows. A generic view takes a marker type that has such a kind.
pub trait Kind {
    ghost KIND: { SyntaxKind };

    /// The kind, for the code.
    const KIND: SyntaxKind;
}
