//! Tests of `typst_atoms` and `typst_ast`, in a crate of their own, so that the code is proved without them.
#![tactic(auto)]

#[cfg(test)]
mod ast;
#[cfg(test)]
mod atoms;
#[cfg(test)]
mod rows;
#[cfg(test)]
mod trees;
