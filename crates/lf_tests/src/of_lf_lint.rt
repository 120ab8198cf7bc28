//! What no contract says: that runs succeed where memory is there, and that each failing call ends them as it should.
ghost use Rattle.std.specs.Prelude.{◌≡◌, ◌≤◌, ◌^◌};

use lf_base::{Files, Gate, OpenGate, Sink};
use lf_lint::{Status, lint};
use std::alloc::{AllocError, Global};
use std::thread::Threads;

mod deepest;
mod ends;
mod parts;
mod reports;
mod workers;

/// A run on the words between the spaces of a line. The empty line has no words.
fn run<R: Threads + Sync, F: Files, O: Sink>(
    rt: &R,
    alloc: Global,
    line: &str,
    files: &mut F,
    out: &mut O,
) -> Result<Status, AllocError>
    requires files { F.faults files.old ≡ 0 }
    requires out { O.faults out.old ≡ 0 }
    requires opens { F.opens files.old ≤ 2 ^ 31 }
{
    run_at(rt, alloc, line, files, out, &OpenGate)
}

/// The same, at a gate.
fn run_at<R: Threads + Sync, F: Files, O: Sink, G: Gate + Sync>(
    rt: &R,
    alloc: Global,
    line: &str,
    files: &mut F,
    out: &mut O,
    gate: &G,
) -> Result<Status, AllocError>
    requires files { F.faults files.old ≡ 0 }
    requires out { O.faults out.old ≡ 0 }
    requires opens { F.opens files.old ≤ 2 ^ 31 }
{
    let words = words_in(alloc, line)?;
    Ok(lint(rt, alloc, words.as_slice(), files, out, gate))
}

/// The words between the spaces of a line.
fn words_in(alloc: Global, line: &str) -> Result<Vec<String>, AllocError> {
    let mut words = Vec::new(alloc);
    if !line.is_empty() {
        for word in line.split(' ') {
            words.push(String::from_str(alloc, word)?)?;
        }
    }
    Ok(words)
}
