//! Writes what can be seen in a numbered tree, as text: what every accessor of every view, every walk and every
//! diagnostic answers, one answer per line. `docs/LOOK.md` has the form of each answer.
//!
//! ```text
//! let mut answers = Answers::in_form(alloc, shown.root, Form::Ranges);
//! ..
//! answers.clear();
//! of_node(answers, node);
//! ..
//! for answer in answers.written()?.lines() {
//!     trail.draw_below(out, has_children)?;
//!     out.write_all(answer.as_bytes())?;
//!     out.write_all(b"\n")?;
//! }
//! ```
//!
//! There is one function for each view, or one for all views that share a form, so that each function stays cheap to
//! prove.
//!
//! A [`Looker`] carries out the lines of a look, one by one: the lines of a script, those that put a
//! [`Remark`](remark::Remark) on the newest node, and those that ask for answers.
//!
//! ```text
//! leaf 6 Hi
//! leaf 11 --
//! leaf 6 you
//! inner 5 3
//! root
//! look views
//! ```
#![tactic(auto)]

pub use answers::Answers;
pub use form::Form;
pub use looker::{Look, Looker};
pub use typst_atoms::same_views::Parts;

mod answers;
mod code;
mod control;
pub mod diagnostics;
mod form;
mod imports;
pub mod lists;
pub mod looker;
mod markup;
mod math;
mod names;
mod pairs;
mod place;
pub mod remark;
mod subject;
mod texts;
pub mod views;
pub mod walks;
