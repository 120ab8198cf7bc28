//! Places in the files of a report, and the rules of each file.
ghost use Rattle.std.specs.Prelude.{◌≡◌, ◌<◌, ◌++◌, ◌∷◌, [], length, slice_index_or, slice_set, IfOk, OnOk};
ghost use Rattle.lf_report.specs.Numbers.{StandInFiles};
ghost use Rattle.lf_report.specs.Places.{place_in, place_in_rule};
ghost use Rattle.lf_report.specs.views.Lookups.{AreGroups, IsLookup, told_by};
ghost use Rattle.lf_report.specs.views.LineIndex.{AreIndexed};

use crate::Report;
use crate::line_index::{LineIndex, line_indexes_of, place_at, position_in};
use crate::shown::shown_name;
use lf_base::{Memory, Seq, Text};
use std::alloc::Global;

/// By what the places and the rules of files are looked up.
#[derive(Drop)]
pub struct Lookup {
    /// The line index of each file, at its number.
    pub indexes: Vec<LineIndex>,
    /// The numbers of the rules of each file, at its number.
    pub rules: Vec<Seq<usize>>,
}

impl Lookup {
    /// The look-ups of a report. Its files and its rules are gone through once.
    pub fn of(alloc: Global, report: &Report) -> Result<Lookup, Memory>
        requires { StandInFiles report.now }
        ensures { IfOk result (IsLookup report.now) }
    {
        let indexes = line_indexes_of(alloc, report.files.as_slice())?;
        let rules = rules_by_file(alloc, report)?;
        Ok(Lookup { indexes, rules })
    }
}

/// The numbers of the rules of the file with this number.
pub fn numbers_at(lookup: &Lookup, file: usize) -> &Seq<usize>
    requires { file < length lookup.now.rules.items }
    ensures { result.now ≡ slice_index_or lookup.entry.now.rules.items file result.now }
{
    &lookup.rules[file]
}

/// How a file's name is told in places.
#[derive(Clone, Copy, PartialEq, Eq, Debug)]
pub enum Naming {
    /// As a text shows names.
    Shown,
    /// As it is.
    Plain,
}

/// A name as it is told.
fn told_name(alloc: Global, naming: Naming, name: &str) -> Result<Text, Memory>
    ensures { IfOk result (λ text. text ≡ told_by naming name.now) }
{
    match naming {
        Naming::Shown => shown_name(alloc, name),
        Naming::Plain => Text::of(alloc, name),
    }
}

/// `FILE:LINE:COLUMN` of an offset of the file with this number.
pub fn place_in(
    alloc: Global,
    report: &Report,
    indexes: &[LineIndex],
    naming: Naming,
    file: usize,
    offset: u32,
) -> Result<Text, Memory>
    requires file { file < length report.now.files }
    requires indexes { AreIndexed report.now.files indexes.now }
    ensures { IfOk result (λ place. place ≡ place_in (told_by naming) report.now file offset) }
{
    let name = told_name(alloc, naming, report.files.get(file).name.as_str())?;
    place_at(
        alloc,
        name.as_str(),
        position_in(report, indexes, file, offset),
    )
}

/// `FILE:LINE:COLUMN` of an offset in the rule with this number.
pub fn place_in_rule(
    alloc: Global,
    report: &Report,
    indexes: &[LineIndex],
    naming: Naming,
    rule: u32,
    offset: u32,
) -> Result<Text, Memory>
    requires files { StandInFiles report.now }
    requires rule { rule < length report.now.rules }
    requires indexes { AreIndexed report.now.files indexes.now }
    ensures { IfOk result (λ place. place ≡ place_in_rule (told_by naming) report.now rule offset) }
{
    let file = report.rules.get(rule as usize).file as usize;
    place_in(alloc, report, indexes, naming, file, offset)
}

/// The numbers of the rules of each file, in ascending order, each list at the number of its file.
fn rules_by_file(alloc: Global, report: &Report) -> Result<Vec<Seq<usize>>, Memory>
    requires { StandInFiles report.now }
    ensures { IfOk result (λ groups. AreGroups report.now.files report.now.rules report.now.rules groups.items) }
{
    let mut groups = no_groups(alloc, report)?;
    for k in 0..report.rules.len() {
        put_in(&mut groups, report.rules.get(k).file as usize, k)?;
    }
    Ok(groups)
}

/// An empty list for each file.
fn no_groups(alloc: Global, report: &Report) -> Result<Vec<Seq<usize>>, Memory>
    ensures { IfOk result (λ groups. AreGroups report.now.files report.now.rules [] groups.items) }
{
    let mut groups = Vec::new(alloc);
    for _file in report.files.as_slice() {
        groups.push(Seq::new(alloc))?;
    }
    Ok(groups)
}

/// Appends a number to the list of a file.
fn put_in(groups: &mut Vec<Seq<usize>>, file: usize, number: usize) -> Result<(), Memory>
    requires { file < length groups.old.items }
    ensures { OnOk result (groups.new.items ≡ slice_set groups.old.items file (slice_index_or groups.old.items file [] ++ number ∷ [])) }
{
    groups[file].push(number)
}
