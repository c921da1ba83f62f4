//! The syntax tree layer for C, and for Rust through C.
//!
//! Each export takes a handle, which holds a `typst_session::Session`, makes one call on that session, and returns a
//! status. The status is 0 if the call was done, 1 if the handle holds nothing, and else the code of a refusal. The
//! exports of [`kinds`] take no handle. `bindings/c/typst.h` declares all exports.
#![tactic(auto)]

mod at;
pub mod building;
pub mod changes;
pub mod classes;
pub mod comparing;
pub mod diagnostics;
pub mod editing;
pub mod finding;
pub mod handle;
pub mod kinds;
pub mod life;
pub mod listing;
mod loose;
pub mod neighbors;
pub mod places;
pub mod reading;
pub mod told;
pub mod trees;
pub mod views;
