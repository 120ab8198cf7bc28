//! The standard output.
ghost use Rattle.std.specs.Prelude.{◌≡◌, None};

use lf_base::{Failed, Sink};
use std::io::{self, Write};

/// The standard output of the process. It tells nothing of what it took. A write that takes no byte counts as failed.
#[derive(Drop)]
pub struct HostSink<'a> {
    rt: &'a HostRuntime,
    faults: u64,
}

impl<'a> HostSink<'a> {
    /// No call was made.
    pub fn new(rt: &'a HostRuntime) -> HostSink<'a>
        ensures { result.faults ≡ 0 }
    {
        HostSink { rt, faults: 0 }
    }
}

impl Sink for HostSink<'_> {
    ghost taken = { λ _. None };

    ghost faults = { λ s. s.faults };

    fn write(&mut self, piece: &[u8]) -> Result<usize, Failed> {
        match io::writer(self.rt).write(piece) {
            Ok(count) if 0 < count => Ok(count),
            _ => {
                self.faults += 1;
                Err(Failed)
            }
        }
    }
}

#[cfg(test)]
mod tests {
    use super::*;

    #[test]
    fn writes_and_counts_no_fault(rt: HostRuntime) {
        let mut out = HostSink::new(&rt);
        assert_eq!(rt; out.write(b"ok\n"), Ok(3));
        assert_eq!(rt; out.faults, 0);
    }
}
