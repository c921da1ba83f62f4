//! Whether a tree has errors and warnings.
ghost use Rattle.std.specs.Prelude.{◌≡◌, ◌||◌, ◌&&◌, true, false};

/// Whether a subtree holds an error, and whether it holds a warning.
#[derive(Clone, Copy, Debug, PartialEq, Eq, Hash)]
pub struct Diagnosis {
    /// Whether any node of the tree is an error.
    pub errors: bool,
    /// Whether any node of the tree has a warning.
    pub warnings: bool,
}

impl Diagnosis {
    /// Whether there is an error or a warning.
    pub fn either(self) -> bool
        ensures { result ≡ (self.errors || self.warnings) }
    {
        self.errors || self.warnings
    }

    /// Whether there are both an error and a warning.
    pub fn both(self) -> bool
        ensures { result ≡ (self.errors && self.warnings) }
    {
        self.errors && self.warnings
    }

    /// The diagnosis of two subtrees together, member by member.
    pub fn or(self, other: Diagnosis) -> Diagnosis
        ensures errors { result.errors ≡ (self.errors || other.errors) }
        ensures warnings { result.warnings ≡ (self.warnings || other.warnings) }
    {
        Diagnosis {
            errors: self.errors | other.errors,
            warnings: self.warnings | other.warnings,
        }
    }
}

/// Neither an error nor a warning.
impl Default for Diagnosis {
    ghost is_default = { λ d. (d.errors ≡ false) × (d.warnings ≡ false) };

    fn default() -> Self {
        Diagnosis {
            errors: false,
            warnings: false,
        }
    }
}
