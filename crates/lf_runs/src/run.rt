//! What the words ask for of the files that they name.
ghost use Rattle.std.specs.Prelude.{◌≤◌, ◌^◌, length, OnOk};

use crate::outcome::outcome_of;
use crate::timing::print_time;
use crate::world::{AskedWorld, read_worlds};
use anyhow::{Result, anyhow, bail, ensure};
use lf_accept::accept;
use lf_ast::Rule;
use lf_base::{Memory, Refusal, Seq};
use std::alloc::Global;
use std::{env, fs, str};

/// The longest file that is read, in bytes.
const LONGEST: usize = 2147483648;

/// What the words ask for.
#[derive(Clone, Copy)]
enum Asked {
    Outcomes,
    Time,
}

/// Writes what the words ask for.
pub fn run(rt: &HostRuntime) -> Result<()> {
    let words: Vec<String> = env::args(rt)?.skip(1).collect(rt.alloc())?;
    match words.as_slice() {
        [rules, worlds] => run_on(rt, Asked::Outcomes, rules.as_str(), worlds.as_str()),
        [flag, rules, worlds] if flag.as_str() == "--time" => {
            run_on(rt, Asked::Time, rules.as_str(), worlds.as_str())
        }
        _ => bail!("words refused"),
    }
}

/// Writes what is asked for of a rule file and a file of worlds.
fn run_on(rt: &HostRuntime, asked: Asked, rules: &str, worlds: &str) -> Result<()> {
    let rules = fs::read(rt, rules)?;
    let rules = read_rules(rt.alloc(), rules.as_slice())?;
    let worlds = fs::read(rt, worlds)?;
    let text = str::from_utf8(worlds.as_slice()).map_err(|_| anyhow!("the worlds aren't UTF-8"))?;
    let worlds = read_worlds(rt.alloc(), text)?;
    for number in 0..worlds.len() {
        print(rt, asked, &rules, number, &worlds[number])?;
    }
    Ok(())
}

/// The rules of a file.
fn read_rules(alloc: Global, bytes: &[u8]) -> Result<Seq<Rule>> {
    ask_length(bytes)?;
    accept(alloc, bytes, 0).map_err(refused)
}

/// Writes what is asked for of one world.
fn print(
    rt: &HostRuntime,
    asked: Asked,
    rules: &Seq<Rule>,
    number: usize,
    world: &AskedWorld,
) -> Result<()> {
    match asked {
        Asked::Outcomes => {
            let outcome = outcome_of(rt.alloc(), rules, world)?;
            println!(rt; "world {number}")?;
            print!(rt; "{outcome}")?;
            Ok(())
        }
        Asked::Time => print_time(rt, rules, world),
    }
}

/// Asks what `accept` asks: that the file isn't too long.
fn ask_length(bytes: &[u8]) -> Result<()>
    ensures { OnOk result (length bytes.now ≤ 2 ^ 31) }
{
    ensure!(bytes.len() <= LONGEST, "the file is too long");
    Ok(())
}

/// Why a text is refused.
pub fn refused(refusal: Refusal) -> anyhow::Error {
    match refusal {
        Refusal::At { kind, span } => anyhow!("{} at {}", kind.name(), span.start),
        Refusal::Memory => no_memory(Memory),
    }
}

/// Want of memory.
pub fn no_memory(_: Memory) -> anyhow::Error {
    anyhow!("out of memory")
}
