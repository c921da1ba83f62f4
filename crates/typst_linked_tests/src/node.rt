//! Tests of `typst_node`. Most are tables: a drawn tree, what is done to it, and the words for the result.
mod building;
mod converting;
mod diagnostics;
mod equal;
mod errors;
mod numbering;
mod reading;
mod reconciling;
mod replacing;
mod showing;
mod synthesis;
