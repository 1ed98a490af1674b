//! The processor time that a piece of work takes.

use anyhow::Result;
use std::fmt;
use std::time::{CpuClock, Duration};

/// How often a piece of work is timed. The least time counts.
const TRIALS: u32 = 10;

/// A piece of work that can be done again and again.
pub trait Work {
    /// Does what has to be done before a trial, whose time doesn't count.
    fn prepare(&mut self) -> Result<()> {
        Ok(())
    }

    /// Does the work once.
    fn run(&mut self) -> Result<()>;
}

/// A number with one decimal.
#[derive(Clone, Copy)]
pub struct Tenths(u64);

impl fmt::Display for Tenths {
    fn fmt<W: fmt::Write>(&self, f: &mut fmt::Formatter<W>) -> fmt::Result {
        write!(f, "{}.{}", self.0 / 10, self.0 % 10)
    }
}

/// How many nanoseconds some runs took.
#[derive(Clone, Copy)]
pub struct Time {
    nanos: u64,
    runs: u64,
}

impl Time {
    /// Microseconds for one run.
    pub fn micros(&self) -> Tenths {
        Tenths(self.nanos / self.runs.max(1) / 100)
    }

    /// Nanoseconds for one run, rounded down.
    pub fn nanos(&self) -> u64 {
        self.nanos / self.runs.max(1)
    }

    /// Megabytes a second, where each run takes this many bytes.
    pub fn megabytes(&self, bytes: usize) -> Tenths {
        let all = self.runs.saturating_mul(bytes as u64);
        Tenths(all.saturating_mul(10_000) / self.nanos.max(1))
    }
}

// A duration in nanoseconds, of at most 500 years.
fn nanos(duration: Duration) -> u64 {
    u64::try_from(duration.as_nanos()).unwrap_or(u64::MAX)
}

// How long some runs take together.
fn trial<W: Work>(clock: &impl CpuClock, work: &mut W, runs: u32) -> Result<u64> {
    work.prepare()?;
    let start = clock.thread_cpu_time()?;
    for _ in 0..runs {
        work.run()?;
    }
    let end = clock.thread_cpu_time()?;
    Ok(nanos(end.saturating_sub(start)))
}

/// The fastest of ten trials, each of this many runs.
pub fn fastest<W: Work>(clock: &impl CpuClock, work: &mut W, runs: u32) -> Result<Time> {
    let mut least = u64::MAX;
    for _ in 0..TRIALS {
        least = least.min(trial(clock, work, runs)?);
    }
    Ok(Time {
        nanos: least,
        runs: runs as u64,
    })
}
