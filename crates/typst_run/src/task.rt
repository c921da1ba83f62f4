//! What the first word asks for.

/// What is carried out.
#[derive(Clone, Copy, Debug, PartialEq, Eq)]
pub(crate) enum Task {
    /// Scripts, whose answers are printed.
    Script,
    /// Looks, which print what is seen in their trees.
    Look,
}

impl Task {
    /// The task that a word names.
    pub(crate) fn named(word: &str) -> Option<Task> {
        match word {
            "script" => Some(Task::Script),
            "look" => Some(Task::Look),
            _ => None,
        }
    }
}
