//! The paths that scripts write.
ghost use Rattle.std.specs.Prelude.{◌≡◌, ◌++◌, ◌∷◌, ℕ, List, [], IsSome, IsSomeAnd, IfSome, IfOk, IsTrue, OnOk};
ghost use Rattle.typst_script.specs.Word.{IsSplitAt, IsNumber};
ghost use Rattle.typst_script.specs.Path.{dot, AreIndices, IsIndices, IsPathOf, IsPathWord};

use crate::words::number;
use std::alloc::{AllocError, Global};

/// A word that is a path: `-` for the root, or child indices joined by dots.
#[derive(Clone, Copy, Debug, PartialEq, Eq)]
pub struct Path<'a> {
    /// The word that writes the path.
    pub word: &'a str,
    // This isn't IsPathWord itself, since a fact that is kept may have only one proof.
    ghost is_path: { ¬ (¬ (IsPathWord word.now)) },
}

impl<'a> Path<'a> {
    /// The path that a word writes. None if it writes no path.
    pub fn parse(word: &'a str) -> Option<Path<'a>>
        ensures reads { IfSome result (λ path. (path.word.now ≡ word.now) × IsPathWord word.now) }
        ensures every { IsPathWord word.now → IsSome result }
    {
        if word == "-" || are_indices(word) {
            Some(Path { word })
        } else {
            None
        }
    }

    /// The child indices, from the root down.
    pub fn indices(self, alloc: Global) -> Result<Vec<usize>, AllocError>
        ensures { IfOk result (λ indices. IsPathOf indices.items self.entry.word.now) }
    {
        let mut indices = Vec::new(alloc);
        if self.word != "-" {
            push_indices(self.word, &mut indices)?;
        }
        Ok(indices)
    }
}

/// Whether the word is numbers joined by dots, at least one.
fn are_indices(word: &str) -> bool
    ensures reads { IsTrue result → AreIndices word.now }
    ensures every { (indices : List ℕ) → IsIndices indices word.now → IsTrue result }
{
    match until_dot(word) {
        Some((first, rest)) => number(first).is_some() && are_indices(rest),
        None => number(word).is_some(),
    }
}

/// Pushes the numbers of a word that is numbers joined by dots.
fn push_indices(word: &str, path: &mut Vec<usize>) -> Result<(), AllocError>
    requires { ¬ (¬ (AreIndices word.now)) }
    ensures { OnOk result ((indices : List ℕ) × IsIndices indices word.now
        × (path.new.items ≡ path.old.items ++ indices)) }
{
    match until_dot(word) {
        Some((first, rest)) => {
            push_number(first, path)?;
            push_indices(rest, path)
        }
        None => push_number(word, path),
    }
}

/// Pushes the number that the word writes.
fn push_number(word: &str, path: &mut Vec<usize>) -> Result<(), AllocError>
    requires { ¬ (¬ ((n : ℕ) × IsNumber word.now n)) }
    ensures { OnOk result ((n : ℕ) × IsNumber word.now n × (path.new.items ≡ path.old.items ++ n ∷ [])) }
{
    let Some(index) = number(word) else {
        unreachable!();
    };
    path.push(index as usize)?;
    Ok(())
}

/// The part before the first dot and the part after it. None if there is no dot.
fn until_dot(text: &str) -> Option<(&str, &str)>
    ensures reads { IfSome result (λ parts. IsSplitAt dot text.now parts.0.now parts.1.now) }
    ensures every { (first rest : List ℕ) → IsSplitAt dot text.now first rest
        → IsSomeAnd result (λ parts. (parts.0.now ≡ first) × (parts.1.now ≡ rest)) }
{
    text.split_once('.')
}
