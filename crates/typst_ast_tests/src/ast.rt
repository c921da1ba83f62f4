//! Tests of `typst_ast`. Most are tables: a drawn tree, what it is viewed as, and the words for what is read from the
//! view.
mod alike;
mod bindings;
mod imports;
mod items;
mod lists;
mod no_parser_makes;
mod walk;
