//! `lf_cases`: runs cases kept as data over single calls of the libraries, and times such a call.
//!
//! - `lf_cases CALL` reads a case a line from standard input and says which calls answer otherwise than the case expects. Its status is 0 if some case ran and
//!   none failed, else 1.
//! - `lf_cases --time CALL FILE` says how long the call takes on the text of a file.
#![tactic(auto)]

mod answer;
mod call;
mod case;
mod expressions;
mod lengths;
mod offsets;
mod patterns;
mod rules;
mod run;
mod scalars;
mod spans;
mod templates;
mod timing;
mod tokens;
mod tree;
mod trees;
mod types;
mod writer;

use anyhow::Result;
use call::Call;
use std::env;
use std::process::ExitCode;

/// The status where a case failed, or none ran.
const FAILED: u8 = 1;
/// The status of words that ask for nothing.
const WRONG_WORDS: u8 = 2;

/// What the words ask for.
enum Asked<'a> {
    Cases(Call),
    Time(Call, &'a str),
}

fn main(rt: HostRuntime) -> ExitCode {
    match status_of(&rt) {
        Ok(status) => ExitCode::from(status),
        Err(error) => {
            // Where even this can't be written, the status still tells.
            let _ = eprintln!(rt; "lf_cases: {error}");
            ExitCode::from(FAILED)
        }
    }
}

fn status_of(rt: &HostRuntime) -> Result<u8> {
    let words: Vec<String> = env::args(rt)?.skip(1).collect(rt.alloc())?;
    match read_words(words.as_slice()) {
        Some(Asked::Cases(call)) => run::run(rt, call),
        Some(Asked::Time(call, file)) => {
            timing::time(rt, call, file)?;
            Ok(0)
        }
        None => {
            eprintln!(rt; "lf_cases: words refused")?;
            Ok(WRONG_WORDS)
        }
    }
}

/// What the words behind the program's name ask for, if anything.
fn read_words(words: &[String]) -> Option<Asked<'_>> {
    match words {
        [call] => Some(Asked::Cases(Call::of(call.as_str())?)),
        [flag, call, file] if flag.as_str() == "--time" => {
            Some(Asked::Time(Call::of(call.as_str())?, file.as_str()))
        }
        _ => None,
    }
}
