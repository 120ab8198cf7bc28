//! `lf_tables`: prints what the verdicts on a rule file go by.
//!
//! It reads the file from standard input, and writes a line for each label of its rules with the classes of the label, the row of each recorded name in the least
//! environment, the order of the rules, which rules each of them reaches, whether two of them read a common name, which recorded names are read in their own making, and
//! how many rules they reach together. With the word `--time` it writes only that, and how long it takes to find it; with `--solving` how long it takes to find the least
//! environment, on one thread, or by as many workers as a second word says. Its status is 0. Of a file that is refused it writes why and where, and its status is 3.
#![tactic(auto)]

mod classes;
mod environment;
mod quoting;
mod reads;
mod run;
mod solving;
mod tables;
mod timing;
mod totals;

use std::process::ExitCode;

/// The status where the tables aren't there, for want of memory or past a limit.
const FAILED: u8 = 1;

fn main(rt: HostRuntime) -> ExitCode {
    match run::run(&rt, &rt) {
        Ok(status) => ExitCode::from(status),
        Err(error) => {
            // Where even this can't be written, the status still tells.
            let _ = eprintln!(rt; "lf_tables: {error}");
            ExitCode::from(FAILED)
        }
    }
}
