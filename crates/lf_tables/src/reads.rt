//! What rules read, by the numbers of the rules.
ghost use Rattle.std.specs.Prelude.{◌<◌, ◌^◌, length};

use lf_ast::Rule;
use lf_base::{Memory, Seq};
use lf_classes::TextSet;
use lf_deps::{apart, cyclic, order, reach};
use std::alloc::{AllocError, Global};

/// Writes the order of the rules, as a line.
pub fn write_order(alloc: Global, out: &mut String, rules: &Seq<Rule>) -> Result<(), Memory> {
    let numbers = order(alloc, rules)?;
    out.push_str("order")?;
    write_numbers(out, numbers.as_slice())?;
    Ok(())
}

/// Writes a line for each rule with the rules that it reaches.
pub fn write_reaches(alloc: Global, out: &mut String, rules: &Seq<Rule>) -> Result<(), Memory>
    requires count { length rules.now < 2 ^ 32 }
{
    for rule in 0..rules.len() as u32 {
        let reached = reach(alloc, rules, rule)?;
        write!(out, "rule {rule} reaches")?;
        write_numbers(out, reached.as_slice())?;
    }
    Ok(())
}

/// Writes a blank and a number for each of them, to the line's end.
fn write_numbers(out: &mut String, numbers: &[u32]) -> Result<(), AllocError> {
    for number in numbers {
        write!(out, " {number}")?;
    }
    out.push('\n')
}

/// Writes a line for each pair of rules: whether they read a common name.
pub fn write_pairs(alloc: Global, out: &mut String, rules: &Seq<Rule>) -> Result<(), Memory> {
    for first in 0..rules.len() {
        write_pairs_of(alloc, out, rules, first)?;
    }
    Ok(())
}

/// Writes a line for each pair of a rule and one behind it.
fn write_pairs_of(
    alloc: Global,
    out: &mut String,
    rules: &Seq<Rule>,
    first: usize,
) -> Result<(), Memory>
    requires { first < length rules.now }
{
    let count = rules.len();
    let left = &rules.get(first).expr;
    for second in first + 1..count {
        let right = &rules.get(second).expr;
        let word = if apart(alloc, rules, left, right)? {
            "apart"
        } else {
            "meet"
        };
        writeln!(out, "rules {first} {second} {word}")?;
    }
    Ok(())
}

/// Writes a line for each of the names: whether it is read in its own making.
pub fn write_cycles(
    alloc: Global,
    out: &mut String,
    rules: &Seq<Rule>,
    names: &TextSet,
) -> Result<(), Memory> {
    for place in 0..names.len() {
        let name = names.get(place);
        let word = if cyclic(alloc, rules, name)? {
            "cyclic"
        } else {
            "acyclic"
        };
        writeln!(out, "name {} {word}", name.as_str())?;
    }
    Ok(())
}
