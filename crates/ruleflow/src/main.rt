//! `ruleflow`: the linter as a program. It makes the real files and the real standard output, calls `lint`, and ends with the status' exit code.
#![tactic(auto)]

mod host_files;
mod host_sink;

use host_files::HostFiles;
use host_sink::HostSink;
use lf_base::OpenGate;
use lf_lint::{Status, lint};
use std::process::ExitCode;
use std::{env, io};

/// How the words go.
const USAGE: &str =
    "usage: ruleflow lint [--workers N] [--format text|json] [--labels] [--] FILE...\n       ruleflow gen N";

fn main(rt: HostRuntime) -> ExitCode {
    let status = match words_of(&rt) {
        Ok(words) => {
            let mut files = HostFiles::new(&rt);
            let mut out = HostSink::new(&rt);
            lint(
                &rt,
                rt.alloc(),
                words.as_slice(),
                &mut files,
                &mut out,
                &OpenGate,
            )
        }
        Err(status) => status,
    };
    // Where even this can't be written, the exit code still tells.
    let _ = tell(&rt, status);
    ExitCode::from(status.code())
}

/// The words behind the program's own name. A word that isn't UTF-8 is no word that `lint` knows.
fn words_of(rt: &HostRuntime) -> Result<Vec<String>, Status> {
    match env::args(rt) {
        Ok(args) => args.skip(1).collect(rt.alloc()).map_err(|_| Status::Memory),
        Err(error) if error.kind() == io::ErrorKind::OutOfMemory => Err(Status::Memory),
        Err(_) => Err(Status::Words),
    }
}

/// Says on the standard error why there is no report, or not a whole one.
fn tell(rt: &HostRuntime, status: Status) -> io::Result<()> {
    match status {
        Status::Clean | Status::Problems | Status::Refused => Ok(()),
        Status::Words => eprintln!(rt; "ruleflow: words refused\n{USAGE}"),
        Status::Read { file } => eprintln!(rt; "ruleflow: read fault on file {file}"),
        Status::Write => eprintln!(rt; "ruleflow: write fault"),
        Status::Memory => eprintln!(rt; "ruleflow: no memory"),
        Status::Limit { quantity, found } => eprintln!(rt;
            "ruleflow: limit {quantity} passed with {found}"
        ),
    }
}
