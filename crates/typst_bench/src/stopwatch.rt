//! A stopwatch that adds up the processor time between its starts and its stops.
use std::io;
use std::time::{CpuClock, Duration};

/// The processor time of the process while the watch ran.
#[derive(Drop)]
pub struct Stopwatch<'a> {
    rt: &'a HostRuntime,
    begun: Duration,
    spent: Duration,
}

impl<'a> Stopwatch<'a> {
    /// A watch that is stopped, with no time on it.
    pub fn new(rt: &'a HostRuntime) -> Stopwatch<'a> {
        Stopwatch {
            rt,
            begun: Duration::ZERO,
            spent: Duration::ZERO,
        }
    }

    /// Starts the watch.
    pub fn start(&mut self) -> io::Result<()> {
        self.begun = self.rt.process_cpu_time()?;
        Ok(())
    }

    /// Stops the watch, and adds the time since it was started.
    pub fn stop(&mut self) -> io::Result<()> {
        let lap = self.rt.process_cpu_time()?.saturating_sub(self.begun);
        self.spent = self.spent.saturating_add(lap);
        Ok(())
    }

    /// The time on the watch.
    pub fn nanoseconds(&self) -> u128 {
        self.spent.as_nanos()
    }
}
