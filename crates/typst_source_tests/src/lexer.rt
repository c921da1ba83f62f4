//! Tests of `typst_lexer`.
mod modes;
mod rows;
mod tokens;
mod words;
