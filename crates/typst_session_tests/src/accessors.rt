//! Tests of `typst_accessors`: each accessor answers by its number.
mod nodes;
mod numbered;
mod shown;
