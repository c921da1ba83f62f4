//! The pieces of code that `docs/GUIDE.md` and the crates' own documents show, as tests.
mod building;
mod crates;
mod diagnostics;
mod editing;
mod memory;
mod places;
mod reading;
mod source;
mod updates;
