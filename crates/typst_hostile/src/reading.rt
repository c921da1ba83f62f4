//! Calls that read a node into a new value.
use crate::end::{End, Fault, Stop};
use crate::requests::Requests;
use crate::trees::ALL_FORMS;
use std::alloc::{AllocError, Global};
use typst_drawn::drawn;
use typst_node::SyntaxNode;

/// A call that reads.
#[derive(Clone, Copy)]
pub enum Reading {
    /// `full_text`
    FullText,
    /// `errors_and_warnings`
    ErrorsAndWarnings,
}

impl Reading {
    /// Makes the call.
    pub fn run(self, alloc: Global, requests: Requests) -> Result<End, Stop> {
        let tree = drawn(alloc, ALL_FORMS)?;
        let kept = tree.clone()?;
        requests.make(alloc)?;
        Ok(match self.reads(alloc, &tree) {
            Ok(right) => End::answered(right),
            Err(error) => End::failed(Fault::from(error), tree == kept),
        })
    }

    /// Whether the answer is what the tree says.
    fn reads(self, alloc: Global, tree: &SyntaxNode) -> Result<bool, AllocError> {
        match self {
            Reading::FullText => Ok(tree.full_text(alloc)?.as_str() == "abc#"),
            Reading::ErrorsAndWarnings => reports(alloc, tree),
        }
    }
}

/// Whether the call reports an error and a warning, each with its hint.
fn reports(alloc: Global, tree: &SyntaxNode) -> Result<bool, AllocError> {
    let (errors, warnings) = tree.errors_and_warnings(alloc)?;
    let each_one = errors.len() == 1 && warnings.len() == 1;
    Ok(
        each_one
            && errors.iter().chain(warnings.iter()).all(|told| {
                told.message.as_str() == "m"
                    && told.hints.len() == 1
                    && told.hints.iter().all(|hint| hint.v.as_str() == "h")
            }),
    )
}
