//! The lines of a text, but for those of labels. Each function appends one.
ghost use Rattle.std.specs.Prelude.{◌≡◌, [], ◌∷◌, ◌++◌, codes, OnOk};
ghost use Rattle.std.specs.Fmt.{decimal};
ghost use Rattle.lf_base.specs.Kinds.{name_of, meaning_of};
ghost use Rattle.lf_report.specs.Shown.{shown};
ghost use Rattle.lf_base.specs.Lines.{lines_text};

use crate::counting::Totals;
use crate::shown::shown_name;
use lf_base::{Kind, Memory, Text};
use std::alloc::Global;

/// The line of a file that is refused, at this place.
pub fn push_refused_line(
    alloc: Global,
    text: &mut Text,
    place: &str,
    kind: Kind,
) -> Result<(), Memory>
    ensures { OnOk result (text.new ≡ text.old ++ lines_text ((place.now ++ codes ": refused [" ++ name_of kind ++ codes "] " ++ meaning_of kind) ∷ [])) }
{
    let name = kind.name();
    let meaning = kind.text();
    let line = format!(in alloc; "{place}: refused [{name}] {meaning}\n")?;
    text.push(line.as_str())
}

/// The line of a rule, at the place of its name.
pub fn push_rule_line(alloc: Global, text: &mut Text, place: &str, rule: &str) -> Result<(), Memory>
    ensures { OnOk result (text.new ≡ text.old ++ lines_text ((place.now ++ codes ": rule " ++ shown rule.now) ∷ [])) }
{
    let name = shown_name(alloc, rule)?;
    text.push(place)?;
    text.push(": rule ")?;
    text.push(name.as_str())?;
    text.push("\n")
}

/// The line of a finding, at this place: the severity, the name of the check, and what it says, as it is shown.
pub fn push_finding_line(
    alloc: Global,
    text: &mut Text,
    place: &str,
    severity: &str,
    check: &str,
    said: &str,
) -> Result<(), Memory>
    ensures { OnOk result (text.new ≡ text.old ++ lines_text ((place.now ++ codes ": " ++ severity.now ++ codes " [" ++ check.now ++ codes "] " ++ said.now) ∷ [])) }
{
    let line = format!(in alloc; "{place}: {severity} [{check}] {said}\n")?;
    text.push(line.as_str())
}

/// The totals of files, rules and findings.
pub fn push_totals_line(
    alloc: Global,
    text: &mut Text,
    files: usize,
    refused: usize,
    rules: usize,
    totals: &Totals,
) -> Result<(), Memory>
    ensures { OnOk result (text.new ≡ text.old ++ lines_text ((codes "files " ++ decimal files ++ codes ", refused " ++ decimal refused ++ codes ", rules " ++ decimal rules ++ codes ", problems " ++ decimal totals.now.problems ++ codes ", notes " ++ decimal totals.now.notes) ∷ [])) }
{
    let problems = totals.problems;
    let notes = totals.notes;
    let line = format!(in alloc;
        "files {files}, refused {refused}, rules {rules}, problems {problems}, notes {notes}\n"
    )?;
    text.push(line.as_str())
}

/// The totals of verdicts.
pub fn push_verdicts_line(alloc: Global, text: &mut Text, totals: &Totals) -> Result<(), Memory>
    ensures { OnOk result (text.new ≡ text.old ++ lines_text ((codes "verdicts guaranteed " ++ decimal totals.now.guaranteed ++ codes ", impossible " ++ decimal totals.now.impossible ++ codes ", possible " ++ decimal totals.now.possible ++ codes ", unresolved " ++ decimal totals.now.unresolved ++ codes ", empty " ++ decimal totals.now.empty) ∷ [])) }
{
    let guaranteed = totals.guaranteed;
    let impossible = totals.impossible;
    let possible = totals.possible;
    let unresolved = totals.unresolved;
    let empty = totals.empty;
    let line = format!(in alloc;
        "verdicts guaranteed {guaranteed}, impossible {impossible}, possible {possible}, unresolved {unresolved}, empty {empty}\n"
    )?;
    text.push(line.as_str())
}
