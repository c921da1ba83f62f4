//! Assertions. Each message that is made adds some seconds to the proof of a test, so messages are made only here. The
//! functions that make them are generic, since one proof then covers the values of all types.
use std::alloc::Global;
use std::fmt::Debug;
use std::process::Abort;
use std::test::Fail;
use typst_script::script::run;

/// Asserts that a value is the expected one, and says what it shows.
pub(crate) fn assert_shown<T: Debug + PartialEq + Copy>(
    rt: &impl Abort,
    shows: &str,
    value: T,
    wanted: T,
) {
    assert_eq!(rt; value, wanted, "{shows}");
}

/// Asserts that a value after this many calls or bytes is the expected one.
pub(crate) fn assert_after<T: Debug + PartialEq + Copy>(
    rt: &impl Abort,
    count: usize,
    value: T,
    wanted: T,
) {
    assert_eq!(rt; value, wanted, "after {count}");
}

/// What a script prints, and how it ends: the text on standard error without its line end, and the status.
#[derive(Drop)]
pub(crate) struct Outcome {
    pub(crate) stdout: Vec<u8>,
    pub(crate) stderr: String,
    pub(crate) status: u8,
}

/// What a script prints, and how it ends.
pub(crate) fn outcome_of(alloc: Global, script: &[u8]) -> Result<Outcome, Fail> {
    let mut stdout: Vec<u8> = Vec::new(alloc);
    let done = run(alloc, script, &mut stdout);
    let (stderr, status) = match done {
        Ok(()) => (String::new(alloc), 0),
        Err(fault) => (format!(in alloc; "{fault}\n")?, fault.exit_status()),
    };
    Ok(Outcome {
        stdout,
        stderr,
        status,
    })
}

/// What a script should print, and how it should end.
#[derive(Clone, Copy)]
pub(crate) struct Wanted<'a> {
    pub(crate) stdout: &'a [u8],
    pub(crate) stderr: &'a str,
    pub(crate) status: u8,
}

/// Asserts what a script prints, and how it ends.
pub(crate) fn assert_outcome(
    rt: &(impl Abort + AllocGlobal),
    shows: &str,
    script: &[u8],
    wanted: Wanted<'_>,
) -> Result<(), Fail> {
    let got = outcome_of(rt.alloc(), script)?;
    assert_shown(rt, shows, got.stdout.as_slice(), wanted.stdout);
    assert_shown(rt, shows, got.stderr.as_str(), wanted.stderr);
    assert_shown(rt, shows, got.status, wanted.status);
    Ok(())
}
