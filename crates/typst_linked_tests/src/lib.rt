//! Tests of `typst_linked` and of the crates below it, in a crate of their own, so that the code is proved without
//! them. The tests of each crate are in the module that has its name.
#![tactic(auto)]

#[cfg(test)]
mod base;
#[cfg(test)]
mod linked;
#[cfg(test)]
mod node;
#[cfg(test)]
mod rows;
