//! Measures the library's operations for `bench/speed.py`, which prints how long they take.
//!
//! A line of standard input is an operation, a size and a number of rounds, such as `number wide 1000 2`. The program
//! builds what the operation needs, carries out the operation as often as the line says, and prints the line with a
//! check sum of the results. With the argument `time` a line also has the nanoseconds of processor time that all rounds
//! took together. Building what they need isn't counted.
//!
//! A line that begins with `large`, such as `large find 70000 1`, is a call on large input, which isn't timed. The
//! program prints the line with `right`, or with `wrong` if a call gave a wrong answer.
#![tactic(auto)]

mod asked;
mod building;
mod door;
mod drawn;
mod editing;
mod finding;
mod large;
mod lines;
mod places;
mod reading;
mod repeats;
mod shapes;
mod stopwatch;
mod texts;
mod views;
mod walking;

use crate::asked::Asked;
use crate::stopwatch::Stopwatch;
use anyhow::{Context, Result};
use std::env;

fn main(rt: HostRuntime) -> Result<()> {
    let is_timed = env::args(&rt)?.skip(1).any(|word| word.as_str() == "time");
    for line in rt.lines(rt.alloc()) {
        let line = line?;
        match line.as_str().strip_prefix("large ") {
            Some(call) => tell_large(&rt, call)?,
            None => tell(&rt, line.as_str(), is_timed)?,
        }
    }
    Ok(())
}

/// What a line asks for.
fn parsed(line: &str) -> Result<Asked<'_>> {
    Asked::parse(line).context("a line is like `number wide 1000 2`")
}

/// Carries out the operation of a line, and prints its result.
fn tell(rt: &HostRuntime, line: &str, is_timed: bool) -> Result<()> {
    let mut watch = Stopwatch::new(rt);
    let check = parsed(line)?
        .make(rt.alloc(), &mut watch)?
        .context("there is no operation of this name")?;
    if is_timed {
        println!(rt; "{line} {check} {}", watch.nanoseconds())?;
    } else {
        println!(rt; "{line} {check}")?;
    }
    Ok(())
}

/// Makes the calls of a line after the word `large`, and prints whether each gave the right answer.
fn tell_large(rt: &HostRuntime, line: &str) -> Result<()> {
    let made = large::made(rt.alloc(), parsed(line)?)?;
    let is_right = made.context("there is no call of this name")?;
    let end = if is_right { "right" } else { "wrong" };
    println!(rt; "large {line} {end}")?;
    Ok(())
}
