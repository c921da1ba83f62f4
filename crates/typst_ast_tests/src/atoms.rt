//! Tests of `typst_atoms`. Most are tables, whose rows are asserted one by one: what a row shows, and its result.
mod accessors;
mod children;
mod comparing;
mod missing;
mod readings;
