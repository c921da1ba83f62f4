//! Tests of `typst_script`, and of the lists of `typst_answers`. They have a crate of their own, so that the code is
//! proved without them.
#![tactic(auto)]

#[cfg(test)]
mod asserting;
#[cfg(test)]
mod fakes;
#[cfg(test)]
mod lists;
#[cfg(test)]
mod replies;
#[cfg(test)]
mod scripts;
#[cfg(test)]
mod trees;
#[cfg(test)]
mod vectors;
