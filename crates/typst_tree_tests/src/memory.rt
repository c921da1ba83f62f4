//! Tests of calls in a process that has taken all its memory but a little.
mod refused;
mod scarce;
