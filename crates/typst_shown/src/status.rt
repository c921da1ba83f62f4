//! How `./show` ends.
ghost use Rattle.std.specs.Prelude.{◌≡◌, if◌then◌else◌};
ghost use Rattle.typst_node.specs.Diagnosis.{has_error};
ghost use Rattle.typst_shown.specs.declared.status.Status.TheVariants.{Errors, Sound};

use typst_node::SyntaxNode;

/// How `./show` ends. It ends so with each form.
#[derive(Clone, Copy, Debug, PartialEq, Eq)]
pub enum Status {
    /// All is shown, and the text has no error.
    Sound,
    /// All is shown, and the text has an error; with edits, the text after all of them.
    Errors,
    /// The words, an edit, or a line of a script or a look are wrong.
    Wrong,
    /// A file can't be read or written, memory is refused, or a text or tree is too large.
    Failed,
}

impl Status {
    /// How it ends once a tree is shown.
    pub fn of_tree(root: &SyntaxNode) -> Status
        ensures { result ≡ if has_error root.now then Errors else Sound }
    {
        if root.diagnosis().errors {
            Status::Errors
        } else {
            Status::Sound
        }
    }

    /// The number that the process ends with.
    pub fn code(self) -> u8 {
        match self {
            Status::Sound => 0,
            Status::Errors => 1,
            Status::Wrong => 2,
            Status::Failed => 3,
        }
    }
}
