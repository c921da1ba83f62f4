//! Tests of `typst_base`.
mod diag_span;
mod equal;
mod kind;
mod kinds;
mod mapper;
mod named_sets;
mod span;
mod spanned;
mod sub_range;
