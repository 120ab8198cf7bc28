//! The time of a call on a large text.

use crate::call::Call;
use anyhow::{Result, anyhow};
use std::time::{CpuClock, Duration};
use std::{fs, io, str};

/// A processor time at which something begins.
#[derive(Drop)]
pub struct Stopwatch {
    begun: io::Result<Duration>,
}

impl Stopwatch {
    /// Begins now.
    pub fn start(rt: &HostRuntime) -> Stopwatch {
        Stopwatch {
            begun: rt.thread_cpu_time(),
        }
    }

    /// The processor time that an answer took, which is let go afterwards; or why there is none.
    pub fn taken<T: Drop>(self, rt: &HostRuntime, answer: Result<T>) -> Result<Duration> {
        let ended = rt.thread_cpu_time()?;
        answer?;
        Ok(ended.saturating_sub(self.begun?))
    }
}

/// Prints how many bytes a file has, and the processor time in seconds of one call on its text; reading it isn't counted.
pub fn time(rt: &HostRuntime, call: Call, file: &str) -> Result<()> {
    let bytes = fs::read(rt, file)?;
    let text = str::from_utf8(bytes.as_slice()).map_err(|_| anyhow!("the file isn't UTF-8"))?;
    let taken = call.time(rt, text)?;
    tell(rt, call, text.len(), taken)
}

/// Prints the time that a call took on a text of so many bytes.
fn tell(rt: &HostRuntime, call: Call, count: usize, taken: Duration) -> Result<()> {
    let word = call.word();
    let seconds = taken.as_secs();
    let micros = taken.subsec_micros();
    println!(rt; "{word} {count} bytes {seconds}.{micros:06} s")?;
    Ok(())
}
