//! Tests of `typst_tree`, of its guide's code, and of calls that find no memory. They are in a crate of their own, so
//! that the code is proved without them.
#![tactic(auto)]

#[cfg(test)]
mod guide;
#[cfg(test)]
mod memory;
#[cfg(test)]
mod rows;
#[cfg(test)]
mod tree;
