//! The tables of standard input.
ghost use Rattle.std.specs.Prelude.{◌<◌, ◌≤◌, ◌^◌, length, IfSome, OnOk};

use crate::solving::print_solving;
use crate::tables::tables_of;
use crate::timing::print_time;
use anyhow::{Result, bail};
use lf_accept::accept;
use lf_ast::Rule;
use lf_base::{Refusal, Seq, Span};
use std::env;
use std::io::Read;
use std::thread::Threads;

/// The longest file that is read, in bytes.
const LONGEST: usize = 2147483648;

/// The most rules that have numbers.
const MOST_RULES: usize = 4294967295;

/// The status of a file that is refused.
const REFUSED: u8 = 3;

/// The most workers that find a least environment.
const MOST_WORKERS: u32 = 64;

/// What the words ask for.
#[derive(Clone, Copy)]
enum Asked {
    Tables,
    Time,
    Solving { workers: Option<u32> },
}

/// Writes what the words ask for of the rule file on standard input, or why the file is refused, and gives the status.
pub fn run<T: Threads + Sync>(rt: &HostRuntime, threads: &T) -> Result<u8> {
    let asked = read_words(rt)?;
    let mut input = Vec::new(rt.alloc());
    rt.reader().read_to_end(&mut input)?;
    let bytes = input.as_slice();
    ask_length(bytes)?;
    match accept(rt.alloc(), bytes, 0) {
        Ok(rules) => print(rt, threads, asked, &rules),
        Err(refusal) => print_refusal(rt, refusal),
    }
}

/// What the words behind the program's name ask for.
fn read_words(rt: &HostRuntime) -> Result<Asked> {
    let words: Vec<String> = env::args(rt)?.skip(1).collect(rt.alloc())?;
    match words.as_slice() {
        [] => Ok(Asked::Tables),
        [word] if word.as_str() == "--time" => Ok(Asked::Time),
        [word] if word.as_str() == "--solving" => Ok(Asked::Solving { workers: None }),
        [word, number] if word.as_str() == "--solving" => read_workers(number.as_str()),
        _ => bail!("words refused"),
    }
}

/// That so many workers are asked for.
fn read_workers(number: &str) -> Result<Asked> {
    let workers = number.parse()?;
    Ok(Asked::Solving {
        workers: Some(workers),
    })
}

/// Writes what is asked for of rules.
fn print<T: Threads + Sync>(
    rt: &HostRuntime,
    threads: &T,
    asked: Asked,
    rules: &Seq<Rule>,
) -> Result<u8> {
    ask_count(rules)?;
    match asked {
        Asked::Tables => {
            let tables = tables_of(rt.alloc(), rules)?;
            print!(rt; "{tables}")?;
        }
        Asked::Time => print_time(rt, rules)?,
        Asked::Solving { workers } => {
            ask_workers(workers)?;
            print_solving(rt, threads, rules, workers)?;
        }
    }
    Ok(0)
}

/// Writes why a file is refused, and where.
fn print_refusal(rt: &HostRuntime, refusal: Refusal) -> Result<u8> {
    match refusal {
        Refusal::At { kind, span } => {
            let Span { start, end } = span;
            println!(rt; "refused {} {start} {end}", kind.name())?;
            Ok(REFUSED)
        }
        Refusal::Memory => bail!("out of memory"),
    }
}

/// Asks what `accept` asks: that the file isn't too long.
fn ask_length(bytes: &[u8]) -> Result<()>
    ensures { OnOk result (length bytes.now ≤ 2 ^ 31) }
{
    if bytes.len() > LONGEST {
        bail!("the file is too long");
    }
    Ok(())
}

/// Asks that there are as many workers as can share a round, where they are told.
fn ask_workers(workers: Option<u32>) -> Result<()>
    ensures { OnOk result (IfSome workers (λ n. (0 < n) × (n ≤ 64))) }
{
    match workers {
        Some(number) if number == 0 || number > MOST_WORKERS => bail!(
            "there can't be as many workers"
        ),
        _ => Ok(()),
    }
}

/// Asks that each rule has a number.
fn ask_count(rules: &Seq<Rule>) -> Result<()>
    ensures { OnOk result (length rules.now < 2 ^ 32) }
{
    if rules.len() > MOST_RULES {
        bail!("there are too many rules");
    }
    Ok(())
}
