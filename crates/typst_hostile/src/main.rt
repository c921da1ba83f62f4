//! Makes calls after a number of requests for memory, and says how each call ended. It is a test that is run with one
//! request refused.
//!
//! Each line of standard input is a call's name and a number K, as `leaf 3`. The program builds what the call needs,
//! makes K requests of its own, makes the call, and prints the line with how it ended (see [`end::End`]). For the word
//! `spare` in place of K it makes requests until one is refused, and prints how many were granted. If K is that number,
//! the same refusal hits the first request of the call. If K is one less, it hits the second request, and so on.
#![tactic(auto)]

use calls::Call;
use end::{End, Stop};
use requests::Requests;
use std::alloc::Global;
use std::io;
use std::process::ExitCode;

mod calls;
mod changing;
mod end;
mod lines;
mod making;
mod reading;
mod reconciling;
mod requests;
mod runs;
mod scripts;
mod sources;
mod trees;
mod views;
mod walks;

fn main(rt: HostRuntime) -> ExitCode {
    for line in rt.lines(rt.alloc()) {
        let Ok(line) = line else {
            return ExitCode::from(1);
        };
        match answer(&rt, line.as_str()) {
            Ok(true) => {}
            Ok(false) => return ExitCode::from(2),
            Err(_) => return ExitCode::from(1),
        }
    }
    ExitCode::SUCCESS
}

/// Makes the call that a line names, and prints how it ended. Answers whether the line names one.
fn answer(rt: &(impl Print + AllocGlobal), line: &str) -> io::Result<bool> {
    let Some((name, count)) = line.rsplit_once(' ') else {
        return Ok(false);
    };
    let Some(requests) = Requests::parse(count) else {
        return Ok(false);
    };
    let Some(call) = Call::named(name) else {
        return Ok(false);
    };
    match call.run(rt.alloc(), requests) {
        Ok(end) => println!(rt; "{line} {}", end.words())?,
        Err(Stop::Early) => println!(rt; "{line} early")?,
        Err(Stop::Spent(granted)) => println!(rt; "{line} {granted}")?,
    }
    Ok(true)
}
