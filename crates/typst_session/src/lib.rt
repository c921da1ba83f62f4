//! What a handle of the C interface holds, and every call on it.
//!
//! A [`Session`] holds a stack of nodes that are being built. It may also hold a numbered tree or a [`Document`], which
//! is a text with its tree and its lines. A caller in another language names nodes by numbers and places by paths of
//! child indices, and passes texts as bytes. So each call tests what it gets. A call that is refused says why by a
//! [`Refusal`], and leaves the session as it was. The calls of [`kinds`], which look up kinds by their numbers and
//! names, need no session.
#![tactic(auto)]

pub use changes::Change;
pub use diagnostics::{Diagnostic, DiagnosticSizes};
pub use document::{Document, documents_are_shallow};
pub use editing::TextChange;
pub use info::NodeInfo;
pub use neighbors::Neighbor;
pub use places::LineColumn;
pub use refusal::Refusal;
pub use session::{Held, LastEdit, Session};
pub use views::{Asked, ViewAnswer};

pub mod building;
pub mod changes;
pub mod classes;
pub mod comparing;
pub mod diagnostics;
pub mod document;
pub mod editing;
pub mod finding;
pub mod info;
pub mod kinds;
mod linked;
pub mod listing;
pub mod neighbors;
pub mod places;
pub mod reading;
pub mod refusal;
pub mod session;
pub mod trees;
pub mod views;
