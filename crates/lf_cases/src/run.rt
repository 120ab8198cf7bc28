//! The loop over the cases.

use crate::answer::Answer;
use crate::call::Call;
use crate::case::TestCase;
use anyhow::Result;
use std::alloc::Global;
use std::io::Read;

/// How many cases gave the answer that they expect, and how many didn't.
#[derive(Clone, Copy, Debug)]
struct Counts {
    passed: u64,
    failed: u64,
}

impl Counts {
    /// Counts a case that passed, or one that failed.
    fn count(&mut self, passed: bool) {
        if passed {
            self.passed = self.passed.saturating_add(1);
        } else {
            self.failed = self.failed.saturating_add(1);
        }
    }

    /// 0 if some case ran and none failed, else 1.
    fn status(self) -> u8 {
        u8::from(self.failed > 0 || self.passed == 0)
    }
}

/// Runs the cases of standard input, one a line, over a call. It prints what is wrong, and last how many passed and how many failed, and gives the status.
pub fn run(rt: &HostRuntime, call: Call) -> Result<u8> {
    let mut input = Vec::new(rt.alloc());
    rt.reader().read_to_end(&mut input)?;
    let counts = run_lines(rt, call, input.as_slice())?;
    let Counts { passed, failed } = counts;
    println!(rt; "{passed} passed, {failed} failed")?;
    Ok(counts.status())
}

/// Runs the case of each line; an empty line holds none. Lines count from 1.
fn run_lines(rt: &HostRuntime, call: Call, lines: &[u8]) -> Result<Counts> {
    let mut counts = Counts {
        passed: 0,
        failed: 0,
    };
    let mut number: u64 = 0;
    for line in lines.split(|byte| *byte == b'\n') {
        number = number.saturating_add(1);
        if !line.is_empty() {
            counts.count(run_line(rt, call, number, line)?);
        }
    }
    Ok(counts)
}

/// Runs the case of a line, prints what is wrong, and says whether nothing is.
fn run_line(rt: &HostRuntime, call: Call, number: u64, line: &[u8]) -> Result<bool> {
    match wrong_in(rt.alloc(), call, line) {
        Ok(None) => return Ok(true),
        Ok(Some(wrong)) => println!(rt; "{wrong}")?,
        Err(error) => println!(rt; "line {number}: {error}")?,
    }
    Ok(false)
}

/// What is wrong with the answer to the case of a line, if anything.
fn wrong_in(alloc: Global, call: Call, line: &[u8]) -> Result<Option<String>> {
    let case = TestCase::read(alloc, line)?;
    let mut answer = Answer::new(alloc);
    call.answer(alloc, &case, &mut answer)?;
    answer.wrong(alloc, &case)
}
