//! `lf_runs`: prints what strict runs of rules give over worlds.
//!
//! - `lf_runs RULES WORLDS` reads a rule file and a file of worlds. Of each world it prints the samples that are stored after its steps, and behind them what the
//!   expressions of the rules that it asks for give.
//! - `lf_runs --time RULES WORLDS` prints how long the steps of each world take.
//!
//! Worlds stand one behind another, with an empty line between them. A line of a world is `steps` and the numbers of rules, `gives` and the numbers of rules, or else a
//! scraped series, as `foo{env="p", job="v1"}`.
#![tactic(auto)]

mod outcome;
mod run;
mod series;
mod timing;
mod world;

use std::process::ExitCode;

/// The status where nothing can be told, for want of memory or since the words or the files aren't of this form.
const FAILED: u8 = 1;

fn main(rt: HostRuntime) -> ExitCode {
    match run::run(&rt) {
        Ok(()) => ExitCode::SUCCESS,
        Err(error) => {
            // Where even this can't be written, the status still tells.
            let _ = eprintln!(rt; "lf_runs: {error}");
            ExitCode::from(FAILED)
        }
    }
}
